// Instruction execution: the last clock of each of the sixteen operations.
// Paper: "What a programmer sees", the list from 0 MOV to 15. MUL and DIV end from their registers after 32 steps.
// Each returns the scalars after the clock and updates the register banks in place; the caller has decoded the operation.
ghost use Rattle.std.specs.Prelude.{◌≡◌, ◌≢◌, true, false, [], set, ℕ, ◌<◌};
ghost use Rattle.trm_word.specs.Fields.{operation, destination, bit};
ghost use Rattle.trm_alu.specs.Multiply.{mul_after};
ghost use Rattle.trm_alu.specs.Divide.{div_rem, div_quot};
ghost use Rattle.trm_alu.specs.Results.{result_of, high_of};
ghost use Rattle.trm_reference.specs.Visible.{register_index, next_pc};
ghost use Rattle.trm_reference.specs.Execute.{execute, went_to, wrote_to, returned, branch_taken, branch_target};
ghost use Rattle.trm_reference.specs.Charge.{is_stepped};
ghost use Rattle.trm_core.specs.Record.{gathered, ended, in_phase, product_at, remainder_at, quotient_at};
ghost use Rattle.trm_core.specs.Rule.{widths_ok, counts_ok};

use trm_alu::inner::divide::Divider;
use trm_alu::inner::flags::Flags;
use trm_alu::inner::{bits, flags};
use trm_clock_operands::inner::operands;
use trm_clock_scalars::inner::{interrupt, scalars};
use trm_core::record::{Running, Scalars};

// R.d and H after MUL and DIV, 8 and 9.
#[derive(Clone, Copy)]
struct Outcome {
    pub word: u32,
    pub high: u32,
}

// PC + 1.
#[tactic(auto, unfolding(trm_reference::specs::Visible::next_pc))]
fn next_pc(pc: u64) -> u64
    requires { pc < 4096 }
    ensures { (result ≡ next_pc pc) × (result < 4096) }
{
    (pc + 1) % 4096
}

// R.r := x.
fn put_register(regs: &mut [u32; 16], status: u64, r: u32, x: u32)
    requires { r < 8 }
    ensures { regs.new ≡ set regs.old (register_index status r) x }
{
    regs[operands::register_index(status, r)] = x;
}

// Sets PC.
fn go_to(c: Scalars, pc: u64) -> Scalars
    requires { counts_ok c.counts ≡ true }
    ensures { result ≡ ended c (went_to (gathered c []) pc) }
{
    Scalars {
        pc,
        ..scalars::settle(c)
    }
}

// Sets PC, and R.r := x.
#[tactic(auto, unfolding(trm_reference::specs::Visible::with_register))]
fn write_to(c: Scalars, regs: &mut [u32; 16], pc: u64, r: u32, x: u32) -> Scalars
    requires { (counts_ok c.counts ≡ true) × (r < 8) }
    ensures { (result ≡ ended c (wrote_to (gathered c regs.old) pc r x))
        × (regs.new ≡ (wrote_to (gathered c regs.old) pc r x).regs) }
{
    put_register(regs, c.status, r, x);
    go_to(c, pc)
}

// R.d := x, and in the scalars the flags and PC + 1: the end of every operation 0 to 10. Inlined into each caller (D-53).
#[inline(always)]
fn finish(c: Scalars, regs: &mut [u32; 16], w: u32, x: u32, flags: Flags) -> Scalars
    requires { c.pc < 4096 }
    ensures { (result ≡ record c { pc = next_pc c.pc; n = flags.n; z = flags.z; c = flags.c; v = flags.v })
        × (regs.new ≡ set regs.old (register_index c.status (destination w)) x) }
{
    put_register(regs, c.status, w / 0x800 % 8, x);
    Scalars {
        pc: next_pc(c.pc),
        n: flags.n,
        z: flags.z,
        c: flags.c,
        v: flags.v,
        ..c
    }
}

// An operation that takes one clock. Inlined into each caller, where `op` may be known (D-53).
#[inline(always)]
fn calculate(c: Scalars, regs: &mut [u32; 16], w: u32, op: u64) -> Scalars
    requires { (widths_ok (gathered c regs.old) ≡ true) × (counts_ok c.counts ≡ true) × (c.running ≡ in_phase 0 0)
        × (operation w < 11) × (is_stepped w ≡ false) × (op ≡ operation w) }
    ensures { (result ≡ ended c (execute w (gathered c regs.old) 0))
        × (regs.new ≡ (execute w (gathered c regs.old) 0).regs) }
{
    let a = operands::operand_a(c, regs, w);
    let b = operands::operand_b(c, regs, w);
    let x = bits::short_result(op, a, b);
    let flags = flags::flags_after(op, a, b, x, c.c, c.v);
    finish(scalars::tick(c), regs, w, x, flags)
}

// 0 to 7 and 10, which take one clock.
pub fn short(c: Scalars, regs: &mut [u32; 16], w: u32) -> Scalars
    requires { (widths_ok (gathered c regs.old) ≡ true) × (counts_ok c.counts ≡ true) × (c.running ≡ in_phase 0 0)
        × (operation w < 11) × (is_stepped w ≡ false) }
    ensures { (result ≡ ended c (execute w (gathered c regs.old) 0))
        × (regs.new ≡ (execute w (gathered c regs.old) 0).regs) }
{
    calculate(c, regs, w, (w / 0x4000 % 16) as u64)
}

// 10 ROR alone, for callers that have tested for it.
#[tactic(auto, unfolding(trm_reference::specs::Charge::is_stepped))]
pub fn rotate(c: Scalars, regs: &mut [u32; 16], w: u32) -> Scalars
    requires { (widths_ok (gathered c regs.old) ≡ true) × (counts_ok c.counts ≡ true) × (c.running ≡ in_phase 0 0)
        × (operation w ≡ 10) }
    ensures { (result ≡ ended c (execute w (gathered c regs.old) 0))
        × (regs.new ≡ (execute w (gathered c regs.old) 0).regs) }
{
    calculate(c, regs, w, 10)
}

// R.d and H: for 8 the two words of the product, for 9 quotient and remainder.
#[tactic(auto, unfolding(trm_alu::specs::Results::result_of, trm_alu::specs::Results::high_of))]
fn outcome_of(running: Running, op: u64, a: u32, b: u32) -> Outcome
    requires { (op ≡ 8 → running.product ≡ mul_after a b 32) × (op ≢ 8 → op ≡ 9) × (op ≡ 9 → running.remainder ≡ div_rem a b 32)
        × (op ≡ 9 → running.quotient ≡ div_quot a b 32) }
    ensures { (h : ℕ) → result ≡ record { word = result_of op a b; high = high_of op a b h } }
{
    if op == 8 {
        return Outcome {
            word: (running.product % 0x1_0000_0000) as u32,
            high: (running.product / 0x1_0000_0000) as u32,
        };
    }
    let unit = Divider {
        rem: running.remainder,
        quot: running.quotient,
    };
    let d = unit.finish(a, b);
    Outcome {
        word: d.quotient,
        high: d.remainder,
    }
}

// 8 and 9, from the unit's registers after 32 steps.
pub fn long(c: Scalars, regs: &mut [u32; 16], w: u32) -> Scalars
    requires { (widths_ok (gathered c regs.old) ≡ true) × (counts_ok c.counts ≡ true) × (is_stepped w ≡ true)
        × (c.running.product ≡ product_at w (gathered c regs.old) 32)
        × (c.running.remainder ≡ remainder_at w (gathered c regs.old) 32)
        × (c.running.quotient ≡ quotient_at w (gathered c regs.old) 32) }
    ensures { (result ≡ ended c (execute w (gathered c regs.old) 0))
        × (regs.new ≡ (execute w (gathered c regs.old) 0).regs) }
{
    let op = (w / 0x4000 % 16) as u64;
    let a = operands::operand_a(c, regs, w);
    let b = operands::operand_b(c, regs, w);
    let out = outcome_of(c.running, op, a, b);
    let flags = flags::flags_after(op, a, b, out.word, c.c, c.v);
    let next = Scalars {
        h: out.high,
        ..scalars::settle(c)
    };
    finish(next, regs, w, out.word, flags)
}

// 11 with bit 10 clear: sets the status.
#[tactic(auto, unfolding(trm_reference::specs::Execute::execute, trm_reference::specs::Execute::status_set))]
pub fn set_status(c: Scalars, regs: &[u32; 16], w: u32) -> Scalars
    requires { (widths_ok (gathered c regs.now) ≡ true) × (counts_ok c.counts ≡ true) × (operation w ≡ 11)
        × (bit 10 w ≢ 1) }
    ensures { (result ≡ ended c (execute w (gathered c regs.now) 0))
        × (regs.now ≡ (execute w (gathered c regs.now) 0).regs) }
{
    Scalars {
        pc: next_pc(c.pc),
        status: (w % 16) as u64,
        ..scalars::settle(c)
    }
}

// RTI: flags and PC from the word `from`, mode 0.
#[tactic(auto, unfolding(trm_reference::specs::Execute::returned))]
fn return_from(c: Scalars, from: u32) -> Scalars
    requires { counts_ok c.counts ≡ true }
    ensures { result ≡ ended c (returned (gathered c []) from) }
{
    Scalars {
        pc: (from % 4096) as u64,
        n: (from / 0x8000_0000 % 2) as u64,
        z: (from / 0x4000_0000 % 2) as u64,
        c: (from / 0x2000_0000 % 2) as u64,
        v: (from / 0x1000_0000 % 2) as u64,
        status: interrupt::with_mode(0, c.status),
        ..scalars::settle(c)
    }
}

// 11 with bit 10 set: R.s is read before R.d is written.
#[tactic(auto, unfolding(trm_reference::specs::Execute::execute, trm_reference::specs::Execute::jumped))]
pub fn jump(c: Scalars, regs: &mut [u32; 16], w: u32) -> Scalars
    requires { (widths_ok (gathered c regs.old) ≡ true) × (counts_ok c.counts ≡ true) × (operation w ≡ 11)
        × (bit 10 w ≡ 1) }
    ensures { (result ≡ ended c (execute w (gathered c regs.old) 0))
        × (regs.new ≡ (execute w (gathered c regs.old) 0).regs) }
{
    let from = operands::register_at(c, regs, w % 8);
    match w / 256 % 4 {
        0 => go_to(c, (from % 4096) as u64),
        2 => {
            let link = next_pc(c.pc) as u32;
            write_to(c, regs, (from % 4096) as u64, w / 0x800 % 8, link)
        }
        _ => return_from(c, from),
    }
}

// 12 LD: R.d := x.
#[tactic(auto, unfolding(trm_reference::specs::Execute::execute, trm_core::specs::Rule::widths_ok))]
pub fn load(c: Scalars, regs: &mut [u32; 16], w: u32, x: u32) -> Scalars
    requires { (widths_ok (gathered c regs.old) ≡ true) × (counts_ok c.counts ≡ true) × (operation w ≡ 12) }
    ensures { (result ≡ ended c (execute w (gathered c regs.old) x))
        × (regs.new ≡ (execute w (gathered c regs.old) x).regs) }
{
    write_to(c, regs, next_pc(c.pc), w / 0x800 % 8, x)
}

// 13 ST, and 14 not taken: only PC changes, to PC + 1.
#[tactic(auto, unfolding(trm_core::specs::Rule::widths_ok))]
pub fn pass(c: Scalars, regs: &[u32; 16], w: u32) -> Scalars
    requires { (widths_ok (gathered c regs.now) ≡ true) × (counts_ok c.counts ≡ true)
        × (execute w (gathered c regs.now) 0 ≡ went_to (gathered c regs.now) (next_pc c.pc)) }
    ensures { (result ≡ ended c (execute w (gathered c regs.now) 0))
        × (regs.now ≡ (execute w (gathered c regs.now) 0).regs) }
{
    go_to(c, next_pc(c.pc))
}

// The target of a branch: a ten-bit offset of 512 or more is negative, and minus 1,024 is plus 3,072 mod 4,096.
#[tactic(auto, unfolding(trm_reference::specs::Execute::branch_target))]
fn branch_target(pc: u64, offset: u32) -> u64
    requires { pc < 4096 }
    ensures { result ≡ branch_target pc offset }
{
    if offset < 512 {
        (pc + 1 + offset as u64) % 4096
    } else {
        (pc + 1 + offset as u64 + 3072) % 4096
    }
}

// 14, the branch taken.
#[tactic(auto, unfolding(trm_reference::specs::Execute::execute, trm_reference::specs::Execute::branched))]
pub fn branch(c: Scalars, regs: &[u32; 16], w: u32) -> Scalars
    requires { (widths_ok (gathered c regs.now) ≡ true) × (counts_ok c.counts ≡ true) × (operation w ≡ 14)
        × (branch_taken w (gathered c regs.now) ≡ true) }
    ensures { (result ≡ ended c (execute w (gathered c regs.now) 0))
        × (regs.now ≡ (execute w (gathered c regs.now) 0).regs) }
{
    go_to(c, branch_target(c.pc, w % 1024))
}

// 15, the call: R7 := PC + 1.
#[tactic(auto, unfolding(trm_reference::specs::Execute::execute, trm_reference::specs::Execute::called, trm_core::specs::Rule::widths_ok))]
pub fn call(c: Scalars, regs: &mut [u32; 16], w: u32) -> Scalars
    requires { (widths_ok (gathered c regs.old) ≡ true) × (counts_ok c.counts ≡ true) × (operation w ≡ 15) }
    ensures { (result ≡ ended c (execute w (gathered c regs.old) 0))
        × (regs.new ≡ (execute w (gathered c regs.old) 0).regs) }
{
    let link = next_pc(c.pc) as u32;
    write_to(c, regs, (c.pc + 1 + (w % 4096) as u64) % 4096, 7, link)
}
