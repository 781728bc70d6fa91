// A word in flight: the clocks of its phase before the last one, and the last clock of its phase.
// Paper: "1 arithmetic, 1-32; 2 write-back, 0-9 ..; 3 refill, 0-9; 4 uncached wait, 1-5 for LD, 1-4 for ST; 5 last clock due, 0".
// Each is one match on the phase. A run has both in one turn; a listing needs the last clock alone, as it may have a row (D-66).
ghost use Rattle.std.specs.Prelude.{◌≡◌, ◌≢◌, ◌<◌, length};
ghost use Rattle.trm_clock_laws.specs.Good.{Good};
ghost use Rattle.trm_clock_laws.specs.Made.{Works, Ends};
ghost use Rattle.trm_run_phases.specs.Reached.{point, Under, Quietly};

use trm_cache::record::Cache;
use trm_clock_ends::inner::word_ends;
use trm_clock_laws::inner::outcome::Clocked;
use trm_clock_phases::inner::phase_ends;
use trm_core::record::Scalars;
use trm_run_phases::inner::going::Going;
use trm_run_phases::inner::{phase_clocks, step_clocks};
use trm_word::inner::charge::Charges;

// The clocks of the phase but for its last. In phase 5 there is none.
pub fn flight_ahead(
    g: Going,
    regs: &[u32; 16],
    cache: &mut Cache,
    store: &mut [u32],
    w: u32,
    pins: &[u8],
    base: &Charges,
) -> Going
    requires { Under pins.now w (point g regs.now cache.old store.old) × (g.scalars.running.phase ≢ 0) × (g.scalars.running.phase ≢ 5) }
    ensures { Quietly pins.now w (point g regs.now cache.old store.old) (point result regs.now cache.new store.new)
        × (result.scalars.pc ≡ g.scalars.pc) × (result.scalars.running.phase ≡ g.scalars.running.phase) × (result.finished ≡ g.finished)
        × (result.at < length pins.now → Ends w result.scalars.running) }
{
    match g.scalars.running.phase {
        1 => step_clocks::steps_ahead(g, regs, cache, store, w, pins, base),
        2 => phase_clocks::write_ahead(g, regs, cache, store, w, pins),
        3 => phase_clocks::fill_ahead(g, regs, cache, store, w, pins),
        _ => phase_clocks::wait_ahead(g, regs, cache, store, w, pins, base),
    }
}

// The last clock of the phase.
pub fn flight_end(
    c: Scalars,
    regs: &mut [u32; 16],
    cache: &mut Cache,
    store: &mut [u32],
    w: u32,
    input: u32,
) -> Clocked
    requires { (Good w (length store.old) c regs.old cache.old)
        × (c.running.phase ≢ 0) × Ends w c.running }
    ensures { Works w c input regs.old cache.old store.old result regs.new cache.new store.new }
{
    match c.running.phase {
        1 => phase_ends::end_steps(c, regs, cache, store, w, input),
        2 => phase_ends::end_write(c, regs, cache, store, w, input),
        3 => phase_ends::end_fill(c, regs, cache, store, w, input),
        4 => phase_ends::end_wait(c, regs, cache, store, w, input),
        _ => word_ends::last_clock(c, regs, cache, store, w, input),
    }
}
