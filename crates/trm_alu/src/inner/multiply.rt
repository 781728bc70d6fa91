// The multiplier: 32 steps of add and shift on a 64-bit register, two's complement, and its closed form.
// Paper: "After k multiplier steps, k = 1-31, the 64-bit signed register is .."
// A step uses the register, B and whether it is the last of the 32; it does not use A.
ghost use Rattle.std.specs.Prelude.{◌≡◌, ◌+◌, ◌*◌, ◌^◌, ◌<◌};
ghost use Rattle.trm_alu.specs.Multiply.{mul_after, mul_step, upper_half};

// B at the place of the upper half after the shift: B × 2^31, in 64 bits.
fn upper_half(b: u32) -> u64
    ensures { result ≡ upper_half b }
{
    (super::sums::biased(b) * 0x8000_0000).wrapping_sub(0x4000_0000_0000_0000)
}

// The product of a bit and a word. The compiler turns this `if` into a select without a branch, and a multiplication into a branch (D-60).
fn bit_times(bit: u64, x: u64) -> u64
    requires { bit < 2 }
    ensures { result ≡ bit * x }
{
    if bit == 1 { x } else { 0 }
}

// One step: the register shifts right by one, arithmetically; if the bit shifted out is set,
// B is added to the upper half, and in the last step subtracted.
#[tactic(auto, unfolding(crate::specs::Multiply::mul_step, crate::specs::Multiply::shifted_right))]
pub fn step(acc: u64, b: u32, last: bool) -> u64
    ensures { result ≡ mul_step acc b last }
{
    let half = acc / 2 + acc / 0x8000_0000_0000_0000 * 0x8000_0000_0000_0000;
    let addend = bit_times(acc % 2, upper_half(b));
    if last {
        half.wrapping_sub(addend)
    } else {
        half.wrapping_add(addend)
    }
}

// For a number B with c = B + 2^31: B × t + y, plus 2^63.
fn multiple(c: u64, t: u64, y: u64) -> u64
    requires { (c < 2 ^ 32) × (t + y < 2 ^ 32) }
    ensures { result + 2 ^ 31 * t ≡ c * t + y + 2 ^ 63 }
{
    (0x8000_0000_0000_0000 - 0x8000_0000 * t) + c * t + y
}

// The steps of a multiplication. A name of its own, so that a wrong version can change it alone.
const STEPS: u64 = 32;

// The register after k steps, and the product from 32 on, in closed form.
pub fn after(a: u32, b: u32, k: u64) -> u64
    ensures { result ≡ mul_after a b k }
{
    let c = super::sums::biased(b);
    let w = u64::from(a);
    let biased = if k < STEPS {
        multiple(c, (w << (32 - k)) % 0x1_0000_0000, w >> k)
    } else if a < 0x8000_0000 {
        multiple(c, w, 0)
    } else {
        multiple(c, w - 0x8000_0000, 0) + 0x4000_0000_0000_0000 - c * 0x8000_0000
    };
    biased.wrapping_add(0x8000_0000_0000_0000)
}
