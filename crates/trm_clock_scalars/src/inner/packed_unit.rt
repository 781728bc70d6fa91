// The registers in flight as one number during the steps: the product, or the divider's remainder above its quotient register.
// Paper: "After k multiplier steps .."; "With t = floor(|B|/2^(32-k)), the divider holds ..".
// A loop over steps keeps this form, since it needs few host registers. The step itself is trm_alu's.
ghost use Rattle.std.specs.Prelude.{◌≡◌, ◌+◌};
ghost use Rattle.trm_alu.specs.Pair.{pair_divisor};
ghost use Rattle.trm_reference.specs.Visible.{Visible};
ghost use Rattle.trm_reference.specs.Execute.{operand_a, operand_b};
ghost use Rattle.trm_core.specs.Record.{stepping};
ghost use Rattle.trm_clock_scalars.specs.Steps.{Serves};
ghost use Rattle.trm_clock_scalars.specs.Unit.{Packs, in_flight};

use crate::inner::scalars;
use trm_alu::inner::{multiply, pair};
use trm_core::record::Running;

// The packed registers and the number of steps taken.
#[derive(Clone, Copy)]
pub struct Unit {
    pub value: u64,
    pub count: u64,
}

impl Unit {
    // Packs the registers of the word's unit.
    pub fn pack(r: Running, w: u32) -> Unit
        requires { Packs w r }
        ensures { in_flight w result ≡ r }
    {
        if w / 0x4000 % 16 == 8 {
            Unit {
                value: r.product,
                count: r.count,
            }
        } else {
            Unit {
                value: r.remainder * 0x1_0000_0000 + r.quotient,
                count: r.count,
            }
        }
    }

    // Unpacks them.
    pub fn unpack(self, w: u32) -> Running
        ensures { result ≡ in_flight w self }
    {
        let running = scalars::in_phase(1, self.count);
        if w / 0x4000 % 16 == 8 {
            Running {
                product: self.value,
                ..running
            }
        } else {
            Running {
                remainder: self.value / 0x1_0000_0000,
                quotient: self.value % 0x1_0000_0000,
                ..running
            }
        }
    }

    // One step of the word's unit. `a` is there for the contract: the multiplier does not read it, the divider reads `divisor` instead.
    pub fn step(self, w: u32, a: u32, b: u32, divisor: u64) -> Unit
        requires { Serves w (in_flight w self) a b × (divisor ≡ pair_divisor a) }
        ensures { (v : Visible) → a ≡ operand_a w v → b ≡ operand_b w v → in_flight w result ≡ stepping w v (self.count + 1) }
    {
        if w / 0x4000 % 16 == 8 {
            Unit {
                value: multiply::step(self.value, b, self.count == 31),
                count: self.count + 1,
            }
        } else {
            Unit {
                value: pair::step(self.value, divisor),
                count: self.count + 1,
            }
        }
    }
}
