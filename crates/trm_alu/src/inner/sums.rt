// The results of ADD and SUB, their carry from the words without sign, and their overflow from the exact signed sum and difference,
// each as a natural number: the exact value plus 2^32.
// Paper: "V is 1 when [the exact signed result] does not fit 32 bits".
// Request A2: "After ADD [C] is the carry out of bit 31, and after SUB it is 1 exactly when B is at or above A, both without sign."
ghost use Rattle.std.specs.Prelude.{◌≡◌, ◌+◌, ◌-◌, ◌^◌};
ghost use Rattle.trm_alu.specs.Flags.{carry_of_add, carry_of_sub, overflow_of_add, overflow_of_sub};
ghost use Rattle.trm_alu.specs.Results.{sum, difference};
ghost use Rattle.trm_alu.specs.Word.{biased};

// The signed number of x, plus 2^31.
pub fn biased(x: u32) -> u64
    ensures { result ≡ biased x }
{
    (u64::from(x) + 0x8000_0000) % 0x1_0000_0000
}

// B + A, exact, plus 2^32.
fn biased_sum(a: u32, b: u32) -> u64
    ensures { result ≡ biased b + biased a }
{
    biased(b) + biased(a)
}

// B - A, exact, plus 2^32.
fn biased_difference(a: u32, b: u32) -> u64
    ensures { result ≡ biased b + 2 ^ 32 - biased a }
{
    biased(b) + 0x1_0000_0000 - biased(a)
}

// The 32-bit result of ADD.
#[tactic(auto, using(crate::proofs::Laws::Sums::sum_is))]
pub fn add(a: u32, b: u32) -> u32
    ensures { result ≡ sum a b }
{
    b.wrapping_add(a)
}

// The 32-bit result of SUB, B - A.
pub fn subtract(a: u32, b: u32) -> u32
    ensures { result ≡ difference a b }
{
    b.wrapping_sub(a)
}

#[tactic(auto, unfolding(crate::specs::Flags::carry_of_add))]
pub fn carry_of_add(a: u32, b: u32) -> u64
    ensures { result ≡ carry_of_add a b }
{
    (u64::from(b) + u64::from(a)) / 0x1_0000_0000
}

#[tactic(auto, unfolding(crate::specs::Flags::carry_of_sub))]
pub fn carry_of_sub(a: u32, b: u32) -> u64
    ensures { result ≡ carry_of_sub a b }
{
    u64::from(b >= a)
}

pub fn overflow_of_add(a: u32, b: u32) -> u64
    ensures { result ≡ overflow_of_add a b }
{
    ((biased_sum(a, b) + 0x8000_0000) / 0x1_0000_0000 + 1) % 2
}

pub fn overflow_of_sub(a: u32, b: u32) -> u64
    ensures { result ≡ overflow_of_sub a b }
{
    ((biased_difference(a, b) + 0x8000_0000) / 0x1_0000_0000 + 1) % 2
}
