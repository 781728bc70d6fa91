// Loops over the clocks of one phase, held ones included: all but the last clock of a burst or of an uncached access.
// Paper: "Each ten is two waits and eight words in rising order"; "4 uncached wait"; "A clock with stall set is held".
// What stays the same during a phase is computed once. If a clock is left and not held, it ends the phase: see trm_clock_phases.
ghost use Rattle.std.specs.Prelude.{◌≡◌, true, cond, ℕ, ◌+◌, ◌*◌, ◌≤◌, ◌<◌, length, get_or};
ghost use Rattle.trm_word.specs.Fields.{operation};
ghost use Rattle.trm_word.specs.Charge.{charge_of};
ghost use Rattle.trm_reference.specs.Geometry.{paper_geometry};
ghost use Rattle.trm_reference.specs.Interrupt.{stalled};
ghost use Rattle.trm_cache.specs.Cache.{line_at, write_word, fill_word};
ghost use Rattle.trm_core.specs.Record.{in_phase, advanced, waited};
ghost use Rattle.trm_core.specs.Rule.{counts_ok};
ghost use Rattle.trm_run_phases.specs.Reached.{point, Under, Stands, Quietly};

use crate::inner::going::Going;
use trm_cache::record::Cache;
use trm_clock_bursts::inner::burst_clock;
use trm_clock_operands::inner::operands;
use trm_clock_scalars::inner::{interrupt, scalars};
use trm_core::record::Scalars;
use trm_word::inner::charge::Charges;

// Held clocks.
pub fn held_ahead(g: Going, regs: &[u32; 16], cache: &Cache, store: &[u32], pins: &[u8]) -> Going
    requires { Stands pins.now (point g regs.now cache.now store.now)
        × (g.at < length pins.now) × (stalled (get_or pins.now g.at 0) ≡ true) }
    ensures { ((w : ℕ) → Quietly pins.now w (point g regs.now cache.now store.now) (point result regs.now cache.now
        store.now)) × (g.at < result.at) }
{
    let mut c = g.scalars;
    for i in g.at..pins.len() {
        if !interrupt::is_stalled(pins[i]) {
            return Going {
                scalars: c,
                at: i,
                finished: g.finished,
            };
        }
        c = scalars::hold(c);
    }
    Going {
        scalars: c,
        at: pins.len(),
        finished: g.finished,
    }
}

// One clock of the refill of line l with block b: held, or a wait or a word, but not the last.
fn fill_clock(c: Scalars, cache: &mut Cache, store: &[u32], b: u64, l: usize, pins: u8) -> Scalars
    requires { (counts_ok c.counts ≡ true) × (l < 16) × (c.running.count < 10) × (b < 65536) × (b * 8 + 8 ≤ length store.now) }
    ensures { (result ≡ cond (stalled pins) (waited c) (advanced c (in_phase 3 (c.running.count + 1)) 0 0))
        × (cache.new ≡ cond (stalled pins) cache.old (fill_word paper_geometry cache.old l store.now b c.running.count)) }
{
    if interrupt::is_stalled(pins) {
        return scalars::hold(c);
    }
    let k = c.running.count;
    cache.fill_word(store, l, b, k);
    scalars::advance(c, scalars::in_phase(3, k + 1), 0, 0)
}

// Phase 3, up to but not including its last clock.
pub fn fill_ahead(
    g: Going,
    regs: &[u32; 16],
    cache: &mut Cache,
    store: &[u32],
    w: u32,
    pins: &[u8],
) -> Going
    requires { Under pins.now w (point g regs.now cache.old store.now)
        × (g.scalars.running.phase ≡ 3) }
    ensures { Quietly pins.now w (point g regs.now cache.old store.now) (point result regs.now cache.new store.now)
        × (result.scalars.pc ≡ g.scalars.pc) × (result.scalars.running.phase ≡ 3) × (g.at ≤ result.at) × (result.finished ≡ g.finished)
        × (result.at < length pins.now → result.scalars.running.count ≡ 9) }
{
    let b = operands::target_of(g.scalars, regs, w, store.len() as u64) / 8;
    let l = (b % 16) as usize;
    let mut c = g.scalars;
    for i in g.at..pins.len() {
        if c.running.count == 9 {
            return Going {
                scalars: c,
                at: i,
                finished: g.finished,
            };
        }
        c = fill_clock(c, cache, store, b, l, pins[i]);
    }
    Going {
        scalars: c,
        at: pins.len(),
        finished: g.finished,
    }
}

// One clock of the write-back of line l: held, or a wait or a word, but not the last.
fn write_clock(c: Scalars, cache: &Cache, store: &mut [u32], l: usize, pins: u8) -> Scalars
    requires { (counts_ok c.counts ≡ true) × (l < 16) × (c.running.count < 10)
        × ((line_at paper_geometry cache.now l).block * 8 + 8 ≤ length store.old) }
    ensures { (result ≡ cond (stalled pins) (waited c) (advanced c (in_phase 2 (c.running.count + 1)) 0 0))
        × (store.new ≡ cond (stalled pins) store.old (write_word paper_geometry (line_at paper_geometry cache.now l)
        store.old c.running.count)) }
{
    if interrupt::is_stalled(pins) {
        return scalars::hold(c);
    }
    let k = c.running.count;
    cache.write_word(store, l, k);
    scalars::advance(c, scalars::in_phase(2, k + 1), 0, 0)
}

// Phase 2, up to but not including the last clock of the line's write-back.
pub fn write_ahead(
    g: Going,
    regs: &[u32; 16],
    cache: &Cache,
    store: &mut [u32],
    w: u32,
    pins: &[u8],
) -> Going
    requires { Under pins.now w (point g regs.now cache.now store.old)
        × (g.scalars.running.phase ≡ 2) }
    ensures { Quietly pins.now w (point g regs.now cache.now store.old) (point result regs.now cache.now store.new)
        × (result.scalars.pc ≡ g.scalars.pc) × (result.scalars.running.phase ≡ 2) × (g.at ≤ result.at) × (result.finished ≡ g.finished)
        × (result.at < length pins.now → result.scalars.running.count ≡ 9) }
{
    let mut c = g.scalars;
    let clears = operands::turns_cache_off(c, regs, w);
    let l = burst_clock::line_of_burst(c, regs, cache, w, store.len() as u64, clears);
    for i in g.at..pins.len() {
        if c.running.count == 9 {
            return Going {
                scalars: c,
                at: i,
                finished: g.finished,
            };
        }
        c = write_clock(c, cache, store, l, pins[i]);
    }
    Going {
        scalars: c,
        at: pins.len(),
        finished: g.finished,
    }
}

// One clock of an uncached access: held, or a wait.
fn wait_clock(c: Scalars, pins: u8) -> Scalars
    requires { (counts_ok c.counts ≡ true) × (c.running.count < 10) }
    ensures { result ≡ cond (stalled pins) (waited c) (advanced c (in_phase 4 (c.running.count + 1)) 0 0) }
{
    if interrupt::is_stalled(pins) {
        return scalars::hold(c);
    }
    scalars::advance(c, scalars::in_phase(4, c.running.count + 1), 0, 0)
}

// Phase 4, up to but not including its last clock, at which one clock of the uncached charge, base charge + 4, is left.
pub fn wait_ahead(
    g: Going,
    regs: &[u32; 16],
    cache: &Cache,
    store: &[u32],
    w: u32,
    pins: &[u8],
    base: &Charges,
) -> Going
    requires { Under pins.now w (point g regs.now cache.now store.now)
        × (g.scalars.running.phase ≡ 4) }
    ensures { Quietly pins.now w (point g regs.now cache.now store.now) (point result regs.now cache.now store.now)
        × (result.scalars.pc ≡ g.scalars.pc) × (result.scalars.running.phase ≡ 4) × (g.at ≤ result.at) × (result.finished ≡ g.finished)
        × (result.at < length pins.now → result.scalars.running.count + 1 ≡ charge_of (operation w) + 4) }
{
    let all = base.of(w) + 4;
    let mut c = g.scalars;
    for i in g.at..pins.len() {
        if c.running.count + 1 == all {
            return Going {
                scalars: c,
                at: i,
                finished: g.finished,
            };
        }
        c = wait_clock(c, pins[i]);
    }
    Going {
        scalars: c,
        at: pins.len(),
        finished: g.finished,
    }
}
