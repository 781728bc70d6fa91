// N Z C V after an operation 0-10, as numbers 0 or 1.
// Paper: "N and Z are taken from the 32-bit result of 0-10. Among 0-10, C and V change only here: .."
// C and V of ADD and SUB are computed in `sums`.
ghost use Rattle.std.specs.Prelude.{◌≡◌};
ghost use Rattle.trm_alu.specs.Flags.{sign_flag, zero_flag, carry_after, overflow_after, flags_after};

#[derive(Clone, Copy)]
pub struct Flags {
    pub n: u64,
    pub z: u64,
    pub c: u64,
    pub v: u64,
}

// Bit 31 of the result.
#[tactic(auto, unfolding(crate::specs::Flags::sign_flag))]
pub fn sign_flag(res: u32) -> u64
    ensures { result ≡ sign_flag res }
{
    u64::from(res / 0x8000_0000)
}

#[tactic(auto, unfolding(crate::specs::Flags::zero_flag))]
pub fn zero_flag(res: u32) -> u64
    ensures { result ≡ zero_flag res }
{
    u64::from(res == 0)
}

// C after an operation: c is the C before it.
#[tactic(auto, unfolding(crate::specs::Flags::carry_after))]
fn carry_after(operation: u64, a: u32, b: u32, res: u32, c: u64) -> u64
    ensures { result ≡ carry_after operation a b res c }
{
    match operation {
        2 => super::sums::carry_of_add(a, b),
        3 => super::sums::carry_of_sub(a, b),
        10 => u64::from(res % 2),
        _ => c,
    }
}

// V after an operation: v is the V before it.
#[tactic(auto, unfolding(crate::specs::Flags::overflow_after))]
fn overflow_after(operation: u64, a: u32, b: u32, v: u64) -> u64
    ensures { result ≡ overflow_after operation a b v }
{
    match operation {
        2 => super::sums::overflow_of_add(a, b),
        3 => super::sums::overflow_of_sub(a, b),
        _ => v,
    }
}

// All four flags after an operation that gave this result; c and v are those before it.
#[tactic(auto, unfolding(crate::specs::Flags::flags_after))]
pub fn flags_after(operation: u64, a: u32, b: u32, res: u32, c: u64, v: u64) -> Flags
    ensures { result ≡ flags_after operation a b res c v }
{
    Flags {
        n: sign_flag(res),
        z: zero_flag(res),
        c: carry_after(operation, a, b, res, c),
        v: overflow_after(operation, a, b, v),
    }
}
