// The divider: 32 steps of shift and subtract on the dividend's magnitude, then the sign; and its closed form.
// Paper: "With t = floor(|B|/2^(32-k)), the divider holds remainder t mod A and quotient register ..";
// "Signed dividend negated, divided and corrected around zero and at -2^31". A step does not use B.
ghost use Rattle.std.specs.Prelude.{◌≡◌, ◌<◌, ◌≤◌, unsigned_abs};
ghost use Rattle.trm_alu.specs.Word.{signed};
ghost use Rattle.trm_alu.specs.Divide.{above0, div_rem, div_quot, divider_at, div_step, divided};

// The remainder and the quotient register.
#[derive(Clone, Copy)]
pub struct Divider {
    pub rem: u64,
    pub quot: u64,
}

// R.d and H of DIV.
#[derive(Clone, Copy)]
pub struct Divided {
    pub quotient: u32,
    pub remainder: u32,
}

// Whether A is above 0, as a signed word: the divisors that DIV divides by.
#[tactic(auto, unfolding(crate::specs::Divide::above0))]
pub fn above0(a: u32) -> bool
    ensures { result ≡ above0 a }
{
    0 < a && a < 0x8000_0000
}

// |B| of a signed word, in 32 bits. The magnitude of -2^31 is 2^31: it keeps its top bit.
#[tactic(auto, unfolding(crate::specs::Word::signed))]
fn magnitude(b: u32) -> u64
    ensures { result ≡ unsigned_abs (signed b) }
{
    u64::from(b.cast_signed().unsigned_abs())
}

impl Divider {
    // The registers for A at or below 0.
    const ZERO: Divider = Divider { rem: 0, quot: 0 };

    // The registers before the first step.
    pub fn start(a: u32, b: u32) -> Divider
        ensures { result ≡ divider_at a b 0 }
    {
        if !above0(a) {
            return Divider::ZERO;
        }
        Divider {
            rem: 0,
            quot: magnitude(b),
        }
    }

    // The registers after k steps in closed form, without the steps.
    pub fn after(a: u32, b: u32, k: u64) -> Divider
        requires { k ≤ 32 }
        ensures { result ≡ divider_at a b k }
    {
        if !above0(a) {
            return Divider::ZERO;
        }
        let m = magnitude(b);
        let t = m >> (32 - k);
        let w = u64::from(a);
        Divider {
            rem: t % w,
            quot: (m << k) % 0x1_0000_0000 + t / w,
        }
    }

    // One step: both registers shift left by one, and A is subtracted from the remainder if it is at most that.
    #[tactic(auto, unfolding(crate::specs::Divide::div_step, crate::specs::Divide::div_trial, crate::specs::Divide::div_rest))]
    pub fn step(self, a: u32) -> Divider
        ensures { result ≡ div_step self.rem self.quot a }
    {
        if !above0(a) {
            return Divider::ZERO;
        }
        let w = u64::from(a);
        let trial = self.rem % 0x1_0000_0000 * 2 + self.quot / 0x8000_0000 % 2;
        let rest = self.quot % 0x8000_0000 * 2;
        if trial < w {
            Divider {
                rem: trial,
                quot: rest,
            }
        } else {
            Divider {
                rem: trial - w,
                quot: rest + 1,
            }
        }
    }

    // The quotient rounded down and its remainder, from the registers after 32 steps.
    pub fn finish(self, a: u32, b: u32) -> Divided
        requires { (self.rem ≡ div_rem a b 32) × (self.quot ≡ div_quot a b 32) }
        ensures { result ≡ divided a b }
    {
        if !above0(a) {
            return Divided {
                quotient: 0,
                remainder: b,
            };
        }
        let q = self.quot as u32;
        let r = self.rem as u32;
        if b < 0x8000_0000 {
            return Divided {
                quotient: q,
                remainder: r,
            };
        }
        let negated = q.wrapping_neg();
        let down = !q; // -q - 1
        if r == 0 {
            Divided {
                quotient: negated,
                remainder: 0,
            }
        } else {
            Divided {
                quotient: down,
                remainder: a - r,
            }
        }
    }
}
