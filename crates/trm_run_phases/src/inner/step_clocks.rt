// The loop over the steps of the multiplier or the divider, held clocks included.
// Paper: "33: 32 steps, then the result"; "A clock with stall set is held".
// The registers in flight are packed into one number for the loop and unpacked at its end (D-80).
ghost use Rattle.std.specs.Prelude.{◌≡◌, cond, ◌+◌, ◌≤◌, ◌^◌, ◌<◌, length};
ghost use Rattle.trm_word.specs.Fields.{operation};
ghost use Rattle.trm_word.specs.Charge.{charge_of};
ghost use Rattle.trm_reference.specs.Visible.{Visible};
ghost use Rattle.trm_reference.specs.Execute.{operand_a, operand_b};
ghost use Rattle.trm_reference.specs.Interrupt.{stalled};
ghost use Rattle.trm_core.specs.Record.{stepping};
ghost use Rattle.trm_alu.specs.Pair.{pair_divisor};
ghost use Rattle.trm_clock_scalars.specs.Steps.{Serves};
ghost use Rattle.trm_clock_scalars.specs.Unit.{in_flight};
ghost use Rattle.trm_run_phases.specs.Reached.{point, Under, Quietly, serial_at, with_serial};

use crate::inner::going::Going;
use trm_cache::record::Cache;
use trm_clock_operands::inner::operands;
use trm_clock_scalars::inner::interrupt;
use trm_clock_scalars::inner::packed_unit::Unit;
use trm_core::record::{Running, Scalars};
use trm_word::inner::charge::Charges;

// The registers in flight, and the clocks held meanwhile.
#[derive(Clone, Copy)]
pub struct Serial {
    pub running: Running,
    pub held: u64,
}

// One clock: held, or one step.
fn serial_clock(u: Unit, w: u32, a: u32, b: u32, divisor: u64, pins: u8) -> Unit
    requires { Serves w (in_flight w u) a b × (divisor ≡ pair_divisor a) }
    ensures { (v : Visible) → a ≡ operand_a w v → b ≡ operand_b w v
        → in_flight w result ≡ cond (stalled pins) (in_flight w u) (stepping w v (u.count + 1)) }
{
    if interrupt::is_stalled(pins) {
        return u;
    }
    u.step(w, a, b, divisor)
}

// After `clocks` clocks: those without a step were held. Counting them in the loop would take one more host register.
fn serial_after(c: Scalars, after: Running, clocks: u64) -> Serial
    requires { (c.running.count ≤ after.count) × (after.count ≤ c.running.count + clocks) }
    ensures { result ≡ serial_at c after clocks }
{
    let stepped = after.count - c.running.count;
    Serial {
        running: after,
        held: clocks - stepped,
    }
}

// The scalars after `clocks` clocks of phase 1.
fn with_serial(c: Scalars, s: Serial, clocks: u64) -> Scalars
    requires { (c.counts.clocks + clocks < 2 ^ 32) × (c.counts.held + s.held < 2 ^ 32) }
    ensures { result ≡ with_serial c s clocks }
{
    let mut next = c;
    let running = s.running;
    next.running = running;
    let held = next.counts.held + s.held;
    next.counts.held = held;
    let all = next.counts.clocks + clocks;
    next.counts.clocks = all;
    next
}

// The state of the run after k clocks of phase 1.
fn after_serial(g: Going, u: Unit, w: u32, k: usize) -> Going
    requires { (g.at + k ≤ 65536) × (g.scalars.counts.clocks + k < 2 ^ 32)
        × (g.scalars.counts.held + (serial_at g.scalars (in_flight w u) k).held < 2 ^ 32)
        × (g.scalars.running.count ≤ u.count) × (u.count ≤ g.scalars.running.count + k) }
    ensures { result ≡ record {
      scalars = with_serial g.scalars (serial_at g.scalars (in_flight w u) k) k;
      at = g.at + k;
      finished = g.finished;
    } }
{
    let after = u.unpack(w);
    let s = serial_after(g.scalars, after, k as u64);
    let c = with_serial(g.scalars, s, k as u64);
    Going {
        scalars: c,
        at: g.at + k,
        finished: g.finished,
    }
}

// Phase 1, up to but not including its last clock, at which one clock of the base charge is left.
pub fn steps_ahead(
    g: Going,
    regs: &[u32; 16],
    cache: &Cache,
    store: &[u32],
    w: u32,
    pins: &[u8],
    base: &Charges,
) -> Going
    requires { Under pins.now w (point g regs.now cache.now store.now)
        × (g.scalars.running.phase ≡ 1) }
    ensures { Quietly pins.now w (point g regs.now cache.now store.now) (point result regs.now cache.now store.now)
        × (result.scalars.pc ≡ g.scalars.pc) × (result.scalars.running.phase ≡ 1) × (g.at ≤ result.at) × (result.finished ≡ g.finished)
        × (result.at < length pins.now → result.scalars.running.count + 1 ≡ charge_of (operation w)) }
{
    let a = operands::operand_a(g.scalars, regs, w);
    let b = operands::operand_b(g.scalars, regs, w);
    let divisor = trm_alu::inner::pair::divisor(a);
    let last = base.of(w) - 1; // the number of steps
    let mut u = Unit::pack(g.scalars.running, w);
    let left = pins.len() - g.at;
    for k in 0..left {
        if u.count == last {
            return after_serial(g, u, w, k);
        }
        u = serial_clock(u, w, a, b, divisor, pins[g.at + k]);
    }
    after_serial(g, u, w, left)
}
