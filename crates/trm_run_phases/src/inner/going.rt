// The state of a run between two turns, and its state after one more clock.
// Paper: "Per clock it writes a byte .. and the word moved, both zero without an access".
// The answer buffers hold zeros for the clocks to come, so a clock without an answer does not write them (D-58).
ghost use Rattle.std.specs.Prelude.{◌≡◌, not, ◌&&◌, ◌+◌, ◌≤◌, length, get_or, set, ltb};
ghost use Rattle.trm_reference.specs.Interrupt.{stalled};
ghost use Rattle.trm_run_phases.specs.Reached.{Room};

use trm_clock_laws::inner::outcome::Clocked;
use trm_clock_scalars::inner::interrupt;
use trm_core::record::Scalars;

// The scalars, the clocks done, the instructions finished.
#[derive(Clone, Copy)]
pub struct Going {
    pub scalars: Scalars,
    pub at: usize,
    pub finished: u64,
}

// Whether there is a line byte at this index and its clock is not held.
pub fn due(pins: &[u8], at: usize) -> bool
    ensures { result ≡ (ltb at (length pins.now) && not (stalled (get_or pins.now at 0))) }
{
    at < pins.len() && !interrupt::is_stalled(pins[at])
}

// After a clock without an answer.
pub fn quietly(g: Going, c: Scalars, finished: u64) -> Going
    requires { (g.at ≤ 65536) × (g.finished ≤ 65536) × (finished ≤ 1) }
    ensures { result ≡ record { scalars = c; at = g.at + 1; finished = g.finished + finished } }
{
    Going {
        scalars: c,
        at: g.at + 1,
        finished: g.finished + finished,
    }
}

// After a clock, with its answer if it has one.
pub fn went(g: Going, r: Clocked, bytes: &mut [u8], outs: &mut [u32]) -> Going
    requires { Room g r bytes.old outs.old }
    ensures { (result ≡ record { scalars = r.scalars; at = g.at + 1; finished = g.finished + r.finished })
        × (bytes.new ≡ set bytes.old g.at r.byte)
        × (outs.new ≡ set outs.old g.at r.word) }
{
    let at = g.at;
    let h = quietly(g, r.scalars, r.finished);
    if r.byte != 0 {
        bytes[at] = r.byte;
        outs[at] = r.word;
    }
    h
}
