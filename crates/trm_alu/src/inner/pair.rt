// The divider's two registers packed into one number, the remainder in the upper half: the state of a loop over steps.
// Paper: "With t = floor(|B|/2^(32-k)), the divider holds remainder t mod A and quotient register ..".
// A step is `Divider::step` on the pair: shift left by one, and subtract A if it is at most the upper half. It does not use B.
ghost use Rattle.std.specs.Prelude.{◌≡◌};
ghost use Rattle.trm_alu.specs.Pair.{pair_divisor, pair_step};

// A at the remainder's place; for A at or below 0 the pair is 0, and this is a number above it, so that nothing is subtracted.
#[tactic(auto, unfolding(crate::specs::Pair::pair_divisor))]
pub fn divisor(a: u32) -> u64
    ensures { result ≡ pair_divisor a }
{
    if super::divide::above0(a) {
        u64::from(a) * 0x1_0000_0000
    } else {
        0x8000_0000_0000_0000
    }
}

// One step of the pair.
#[tactic(auto, unfolding(crate::specs::Pair::pair_step))]
pub fn step(pair: u64, divisor: u64) -> u64
    ensures { result ≡ pair_step pair divisor }
{
    let moved = pair % 0x8000_0000_0000_0000 * 2;
    if moved < divisor {
        moved
    } else {
        moved - divisor + 1
    }
}
