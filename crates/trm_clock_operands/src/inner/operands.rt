// What an instruction reads: registers, operands, the address it accesses; and the tests that select its row of the clock table.
// Paper: "A is R.s if bit 10 is set, else bits 9-0 without sign"; "address = (base + bits 10-3) mod 65,536"; the clock table.
// Each test is defined in trm_reference.
ghost use Rattle.std.specs.Prelude.{◌≡◌, true, ◌<◌};
ghost use Rattle.trm_word.specs.Fields.{bit, moves_high};
ghost use Rattle.trm_word.specs.Address.{store_length_ok};
ghost use Rattle.trm_reference.specs.Visible.{register_index, register, cache_on, word_at};
ghost use Rattle.trm_reference.specs.Access.{is_load, is_store, is_access, address_of, place_of_word, target, stored};
ghost use Rattle.trm_reference.specs.Execute.{operand_a, operand_b, branch_taken};
ghost use Rattle.trm_reference.specs.Charge.{turns_cache_off};
ghost use Rattle.trm_core.specs.Record.{gathered};

use trm_core::record::Scalars;
use trm_word::inner::address::Place;

// The word at PC; beyond the program's end, a branch that is never taken.
#[tactic(auto, unfolding(trm_reference::specs::Visible::word_at))]
pub fn word_at(program: &[u32], pc: u64) -> u32
    ensures { result ≡ word_at program.now pc }
{
    if pc < program.len() as u64 {
        program[pc as usize]
    } else {
        0x3BC00
    }
}

// The index of R.r in the two banks.
#[tactic(auto, unfolding(trm_reference::specs::Visible::register_index))]
pub fn register_index(status: u64, r: u32) -> usize
    requires { r < 8 }
    ensures { (result ≡ register_index status r) × (result < 16) }
{
    (status / 4 % 2 * 8 + r as u64) as usize
}

// R.r of the bank in use.
#[tactic(auto, unfolding(trm_reference::specs::Visible::register))]
pub fn register_at(c: Scalars, regs: &[u32; 16], r: u32) -> u32
    requires { r < 8 }
    ensures { result ≡ register (gathered c regs.now) r }
{
    regs[register_index(c.status, r)]
}

// MOV takes H if bits 10 and 3 are both set; the caller has tested bit 10.
fn moves_high(w: u32) -> bool
    requires { bit 10 w ≡ 1 }
    ensures { result ≡ moves_high w }
{
    w / 0x4000 % 16 == 0 && w / 8 % 2 == 1
}

// Operand A: R.s, the literal, or H.
#[tactic(auto, unfolding(trm_reference::specs::Execute::operand_a))]
pub fn operand_a(c: Scalars, regs: &[u32; 16], w: u32) -> u32
    ensures { result ≡ operand_a w (gathered c regs.now) }
{
    if w / 1024 % 2 != 1 {
        w % 1024
    } else if moves_high(w) {
        c.h
    } else {
        register_at(c, regs, w % 8)
    }
}

// Operand B: R.d.
#[tactic(auto, unfolding(trm_reference::specs::Execute::operand_b))]
pub fn operand_b(c: Scalars, regs: &[u32; 16], w: u32) -> u32
    ensures { result ≡ operand_b w (gathered c regs.now) }
{
    register_at(c, regs, w / 0x800 % 8)
}

// The word that ST stores: R.d too, but the paper names it apart, and so does its definition; one function for both is no plainer.
#[tactic(auto, unfolding(trm_reference::specs::Access::stored))]
pub fn stored_word(c: Scalars, regs: &[u32; 16], w: u32) -> u32
    ensures { result ≡ stored w (gathered c regs.now) }
{
    register_at(c, regs, w / 0x800 % 8)
}

// The address of LD and ST.
#[tactic(auto, unfolding(trm_reference::specs::Access::address_of))]
fn address_of(c: Scalars, regs: &[u32; 16], w: u32) -> u64
    ensures { result ≡ address_of w (gathered c regs.now) }
{
    let s = w % 8;
    let base = trm_word::inner::address::base_of(s, register_at(c, regs, s));
    trm_word::inner::address::effective_address(base, w / 8 % 256)
}

// The device, or the index in the store, that LD and ST access.
#[tactic(auto, unfolding(trm_reference::specs::Access::place_of_word))]
pub fn place_of_word(c: Scalars, regs: &[u32; 16], w: u32, n: u64) -> Place
    requires { store_length_ok n ≡ true }
    ensures { result ≡ place_of_word w (gathered c regs.now) n }
{
    trm_word::inner::address::place_of(address_of(c, regs, w), n)
}

// 12 LD.
#[tactic(auto, unfolding(trm_reference::specs::Access::is_load))]
pub fn is_load(w: u32) -> bool
    ensures { result ≡ is_load w }
{
    w / 0x4000 % 16 == 12
}

// 13 ST.
#[tactic(auto, unfolding(trm_reference::specs::Access::is_store))]
pub fn is_store(w: u32) -> bool
    ensures { result ≡ is_store w }
{
    w / 0x4000 % 16 == 13
}

// 12 and 13.
#[tactic(auto, unfolding(trm_reference::specs::Access::is_access))]
pub fn is_access(w: u32) -> bool
    ensures { result ≡ is_access w }
{
    is_load(w) || is_store(w)
}

// The index in the store that LD and ST access; 0 for a device.
#[tactic(auto, unfolding(trm_reference::specs::Access::target, trm_reference::specs::Access::memory_index))]
pub fn target_of(c: Scalars, regs: &[u32; 16], w: u32, n: u64) -> u64
    requires { store_length_ok n ≡ true }
    ensures { result ≡ target w (gathered c regs.now) n }
{
    match place_of_word(c, regs, w, n) {
        Place::Device(_) => 0,
        Place::Memory(a) => a,
    }
}

// Status bit 3: the cache is on.
#[tactic(auto, unfolding(trm_reference::specs::Visible::cache_on))]
pub fn cache_on(c: Scalars, regs: &[u32; 16]) -> bool
    ensures { result ≡ cache_on (gathered c regs.now) }
{
    c.status / 8 % 2 == 1
}

// Whether the condition of the branch, operation 14, holds.
#[tactic(auto, unfolding(trm_reference::specs::Execute::branch_taken))]
pub fn branch_taken(c: Scalars, regs: &[u32; 16], w: u32) -> bool
    ensures { result ≡ branch_taken w (gathered c regs.now) }
{
    trm_word::inner::condition::condition_holds(u64::from(w / 1024 % 16), c.n, c.z, c.c, c.v)
}

// Operation 11 with bit 10 clear that clears status bit 3 while it is set.
#[tactic(auto, unfolding(trm_reference::specs::Charge::turns_cache_off))]
pub fn turns_cache_off(c: Scalars, regs: &[u32; 16], w: u32) -> bool
    ensures { result ≡ turns_cache_off w (gathered c regs.now) }
{
    w / 0x4000 % 16 == 11 && w / 1024 % 2 != 1 && cache_on(c, regs) && w / 8 % 2 != 1
}
