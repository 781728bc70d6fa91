// Which device a clock is about to read: asked before the clock, since the input word goes in with it.
// Paper: "a device is read or written only in that clock": an LD from a device reads it in its second clock, and in no other.
// A held clock reads nothing. That the clock's own answer byte names the same device is claimed in specs/Claims.antt.
ghost use Rattle.std.specs.Prelude.{◌≡◌, true, unwrap_or};
ghost use Rattle.trm_word.specs.Address.{store_length_ok};
ghost use Rattle.trm_reference.specs.Visible.{word_at};
ghost use Rattle.trm_core.specs.Record.{gathered};
ghost use Rattle.trm_clock_device.specs.Device.{place_device, device_due, device_found};

use trm_clock_operands::inner::operands;
use trm_clock_scalars::inner::interrupt;
use trm_core::record::Scalars;
use trm_word::inner::address::Place;

// The device of a place, if it is not memory.
#[tactic(auto, unfolding(crate::specs::Device::place_device))]
fn device_at(place: Place) -> Option<u64>
    ensures { result ≡ place_device place }
{
    match place {
        Place::Device(d) => Some(d),
        Place::Memory(_) => None,
    }
}

// As `device_read`.
#[tactic(auto, unfolding(crate::specs::Device::device_found))]
fn found(c: Scalars, regs: &[u32; 16], program: &[u32], n: u64, pins: u8) -> Option<u64>
    requires { store_length_ok n ≡ true }
    ensures { result ≡ device_found (word_at program.now c.pc) n c.running.phase (gathered c regs.now) pins }
{
    if c.running.phase != 5 || interrupt::is_stalled(pins) {
        return None;
    }
    let w = operands::word_at(program, c.pc);
    if !operands::is_load(w) {
        return None;
    }
    device_at(operands::place_of_word(c, regs, w, n))
}

// The device that a clock with this line byte reads, if any; n is the store's length. The second clause says it in the words of the claim.
pub fn device_read(c: Scalars, regs: &[u32; 16], program: &[u32], n: u64, pins: u8) -> Option<u64>
    requires { store_length_ok n ≡ true }
    ensures found { result ≡ device_found (word_at program.now c.pc) n c.running.phase (gathered c regs.now) pins }
    ensures due { unwrap_or result 64 ≡ device_due (word_at program.now c.pc) n c.running.phase (gathered c regs.now) pins }
{
    found(c, regs, program, n, pins)
}
