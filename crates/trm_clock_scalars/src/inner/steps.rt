// One step of the multiplier or the divider, computed from the registers in flight.
// Paper: "After k multiplier steps .."; "With t = floor(|B|/2^(32-k)), the divider holds ..".
// The step functions are trm_alu's: the multiplier's does not read A, the divider's does not read B.
// A first step and a later one are two functions: one for both is slower in the loop of a run (D-53).
ghost use Rattle.std.specs.Prelude.{◌≡◌, ◌≢◌, ◌+◌};
ghost use Rattle.trm_core.specs.Record.{gathered, stepping};
ghost use Rattle.trm_clock_scalars.specs.Steps.{Steps, Multiplies, Divides, multiplied, divided_by};

use crate::inner::scalars;
use trm_alu::inner::divide::Divider;
use trm_alu::inner::multiply;
use trm_clock_operands::inner::operands;
use trm_core::record::{Running, Scalars};

// The first step of the multiplier: the register holds A.
fn multiplier_first(a: u32, b: u32) -> Running
    ensures { result ≡ multiplied a b 1 }
{
    Running {
        product: multiply::step(a as u64, b, false),
        ..scalars::in_phase(1, 1)
    }
}

// A later step of the multiplier; `a` is there for the contract only.
fn multiplier_next(r: Running, a: u32, b: u32) -> Running
    requires { Multiplies r a b × (r.phase ≢ 0) }
    ensures { result ≡ multiplied a b (r.count + 1) }
{
    Running {
        phase: 1,
        count: r.count + 1,
        product: multiply::step(r.product, b, r.count == 31),
        ..r
    }
}

// The first step of the divider: the quotient register holds the dividend's magnitude.
fn divider_first(a: u32, b: u32) -> Running
    ensures { result ≡ divided_by a b 1 }
{
    let after = Divider::start(a, b).step(a);
    Running {
        remainder: after.rem,
        quotient: after.quot,
        ..scalars::in_phase(1, 1)
    }
}

// A later step of the divider; `b` is there for the contract only.
fn divider_next(r: Running, a: u32, b: u32) -> Running
    requires { Divides r a b × (r.phase ≢ 0) }
    ensures { result ≡ divided_by a b (r.count + 1) }
{
    let before = Divider {
        rem: r.remainder,
        quot: r.quotient,
    };
    let after = before.step(a);
    Running {
        phase: 1,
        count: r.count + 1,
        remainder: after.rem,
        quotient: after.quot,
        ..r
    }
}

// A step of the multiplier, the first or a later one.
pub fn multiplier_step(r: Running, a: u32, b: u32) -> Running
    requires { Multiplies r a b }
    ensures { result ≡ multiplied a b (r.count + 1) }
{
    if r.phase == 0 {
        multiplier_first(a, b)
    } else {
        multiplier_next(r, a, b)
    }
}

// A step of the divider, the first or a later one.
pub fn divider_step(r: Running, a: u32, b: u32) -> Running
    requires { Divides r a b }
    ensures { result ≡ divided_by a b (r.count + 1) }
{
    if r.phase == 0 {
        divider_first(a, b)
    } else {
        divider_next(r, a, b)
    }
}

// The first step of the word's unit.
pub fn first_step(c: Scalars, regs: &[u32; 16], w: u32) -> Running
    requires { Steps w c.running (gathered c regs.now) × (c.running.phase ≡ 0) }
    ensures { result ≡ stepping w (gathered c regs.now) (c.running.count + 1) }
{
    let a = operands::operand_a(c, regs, w);
    let b = operands::operand_b(c, regs, w);
    if w / 0x4000 % 16 == 8 {
        multiplier_first(a, b)
    } else {
        divider_first(a, b)
    }
}
