// The address of LD and ST, and what it names: a device, or a word of the store.
// Paper: "address = (base + bits 10-3) mod 65,536. The base is R.s, but zero for s = 7. FFC0H-FFFFH are devices .."
// A legal store length is a power of two, so the reduction is a mask.
ghost use Rattle.std.specs.Prelude.{◌≡◌, true};
ghost use Rattle.trm_word.specs.Address.{base_of, effective_address, place_of, store_length_ok};

// What an address names.
#[derive(Clone, Copy)]
pub enum Place {
    Device(u64),
    Memory(u64),
}

// The base: for s = 7 it is zero, whatever register 7 holds.
pub fn base_of(s: u32, register: u32) -> u32
    ensures { result ≡ base_of s register }
{
    if s == 7 { 0 } else { register }
}

// Wrapping add of base and offset, then a remainder.
pub fn effective_address(base: u32, offset: u32) -> u64
    ensures { result ≡ effective_address base offset }
{
    u64::from(base.wrapping_add(offset) % 0x1_0000)
}

// Whether a store may have this many words.
pub fn store_length_ok(length: u64) -> bool
    ensures { result ≡ store_length_ok length }
{
    64 <= length && length <= 32768 && length.is_power_of_two()
}

// The device, or the word of a store of this length.
pub fn place_of(address: u64, length: u64) -> Place
    requires { store_length_ok length ≡ true }
    ensures { result ≡ place_of address length }
{
    if address < 0xFFC0 {
        Place::Memory(address & (length - 1))
    } else {
        Place::Device(address - 0xFFC0)
    }
}
