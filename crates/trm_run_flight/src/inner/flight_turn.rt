// One turn of a run with a word in flight: the clocks of its phase before the last one, in a loop, and the last one if it is due.
// Paper: "In 1 to 4 the count is the clocks of that phase done".
// A function for each phase, so that each is compiled with its own loop (P-29); one law proves them (Laws.Flight).
ghost use Rattle.std.specs.Prelude.{◌≡◌, ◌≢◌, false, ◌&&◌, ◌<◌, length, get_or};
ghost use Rattle.trm_reference.specs.Visible.{word_at};
ghost use Rattle.trm_reference.specs.Access.{is_load};
ghost use Rattle.trm_reference.specs.Interrupt.{stalled};
ghost use Rattle.trm_run_phases.specs.Reached.{point, At, Turned, Did};

use trm_cache::record::Cache;
use trm_clock_ends::inner::word_ends;
use trm_clock_operands::inner::operands;
use trm_clock_phases::inner::phase_ends;
use trm_run_phases::inner::going::Going;
use trm_run_phases::inner::{going, phase_clocks, step_clocks};
use trm_word::inner::charge::Charges;

// Phase 1: the steps left, then the clock after them.
fn step_turn(
    g: Going,
    program: &[u32],
    regs: &mut [u32; 16],
    cache: &mut Cache,
    store: &mut [u32],
    w: u32,
    pins: &[u8],
    inputs: &[u32],
    bytes: &mut [u8],
    outs: &mut [u32],
    base: &Charges,
) -> Going
    requires { At program.now pins.now inputs.now (point g regs.old cache.old store.old) bytes.old outs.old
        × (w ≡ word_at program.now g.scalars.pc) × (g.scalars.running.phase ≡ 1)
        × (g.at < length pins.now) × (stalled (get_or pins.now g.at 0) ≡ false) }
    ensures { Turned program.now pins.now inputs.now (point g regs.old cache.old store.old) bytes.old outs.old
        (point result regs.new cache.new store.new) bytes.new outs.new × (g.at < result.at) × (bytes.new ≡ bytes.old) }
{
    let h = step_clocks::steps_ahead(g, regs, cache, store, w, pins, base);
    let at = h.at;
    if !going::due(pins, at) {
        return h;
    }
    let r = phase_ends::end_steps(h.scalars, regs, cache, store, w, inputs[at]);
    going::went(h, r, bytes, outs)
}

// Phase 2: the rest of the write-back of a line.
fn write_turn(
    g: Going,
    program: &[u32],
    regs: &mut [u32; 16],
    cache: &mut Cache,
    store: &mut [u32],
    w: u32,
    pins: &[u8],
    inputs: &[u32],
    bytes: &mut [u8],
    outs: &mut [u32],
) -> Going
    requires { At program.now pins.now inputs.now (point g regs.old cache.old store.old) bytes.old outs.old
        × (w ≡ word_at program.now g.scalars.pc) × (g.scalars.running.phase ≡ 2)
        × (g.at < length pins.now) × (stalled (get_or pins.now g.at 0) ≡ false) }
    ensures { Turned program.now pins.now inputs.now (point g regs.old cache.old store.old) bytes.old outs.old
        (point result regs.new cache.new store.new) bytes.new outs.new × (g.at < result.at) × (bytes.new ≡ bytes.old) }
{
    let h = phase_clocks::write_ahead(g, regs, cache, store, w, pins);
    let at = h.at;
    if !going::due(pins, at) {
        return h;
    }
    let r = phase_ends::end_write(h.scalars, regs, cache, store, w, inputs[at]);
    going::went(h, r, bytes, outs)
}

// Phase 3: the rest of the refill.
fn fill_turn(
    g: Going,
    program: &[u32],
    regs: &mut [u32; 16],
    cache: &mut Cache,
    store: &mut [u32],
    w: u32,
    pins: &[u8],
    inputs: &[u32],
    bytes: &mut [u8],
    outs: &mut [u32],
) -> Going
    requires { At program.now pins.now inputs.now (point g regs.old cache.old store.old) bytes.old outs.old
        × (w ≡ word_at program.now g.scalars.pc) × (g.scalars.running.phase ≡ 3)
        × (g.at < length pins.now) × (stalled (get_or pins.now g.at 0) ≡ false) }
    ensures { Turned program.now pins.now inputs.now (point g regs.old cache.old store.old) bytes.old outs.old
        (point result regs.new cache.new store.new) bytes.new outs.new × (g.at < result.at) × (bytes.new ≡ bytes.old) }
{
    let h = phase_clocks::fill_ahead(g, regs, cache, store, w, pins);
    let at = h.at;
    if !going::due(pins, at) {
        return h;
    }
    let r = phase_ends::end_fill(h.scalars, regs, cache, store, w, inputs[at]);
    going::went(h, r, bytes, outs)
}

// Phase 4: the waits left, then the last clock.
fn wait_turn(
    g: Going,
    program: &[u32],
    regs: &mut [u32; 16],
    cache: &mut Cache,
    store: &mut [u32],
    w: u32,
    pins: &[u8],
    inputs: &[u32],
    bytes: &mut [u8],
    outs: &mut [u32],
    base: &Charges,
) -> Going
    requires { At program.now pins.now inputs.now (point g regs.old cache.old store.old) bytes.old outs.old
        × (w ≡ word_at program.now g.scalars.pc) × (g.scalars.running.phase ≡ 4)
        × (g.at < length pins.now) × (stalled (get_or pins.now g.at 0) ≡ false) }
    ensures { Turned program.now pins.now inputs.now (point g regs.old cache.old store.old) bytes.old outs.old
        (point result regs.new cache.new store.new) bytes.new outs.new × (g.at < result.at) × (bytes.new ≡ bytes.old) }
{
    let h = phase_clocks::wait_ahead(g, regs, cache, store, w, pins, base);
    let at = h.at;
    if !going::due(pins, at) {
        return h;
    }
    let r = phase_ends::end_wait(h.scalars, regs, cache, store, w, inputs[at]);
    going::went(h, r, bytes, outs)
}

// Whether the word is a load, in a run that stops before an access to a device.
fn load_waits(stops: bool, w: u32) -> bool
    ensures { result ≡ (stops && is_load w) }
{
    stops && operands::is_load(w)
}

// Phase 5: the last clock. A run that stops before an access to a device leaves that of every LD to its caller.
fn last_turn(
    g: Going,
    program: &[u32],
    regs: &mut [u32; 16],
    cache: &mut Cache,
    store: &mut [u32],
    w: u32,
    pins: &[u8],
    inputs: &[u32],
    bytes: &mut [u8],
    outs: &mut [u32],
    stops: bool,
) -> Going
    requires { At program.now pins.now inputs.now (point g regs.old cache.old store.old) bytes.old outs.old
        × (w ≡ word_at program.now g.scalars.pc)
        × (g.at < length pins.now) × (stalled (get_or pins.now g.at 0) ≡ false)
        × (g.scalars.running.phase ≢ 0) × (g.scalars.running.phase ≢ 1) × (g.scalars.running.phase ≢ 2)
        × (g.scalars.running.phase ≢ 3) × (g.scalars.running.phase ≢ 4) }
    ensures { Turned program.now pins.now inputs.now (point g regs.old cache.old store.old) bytes.old outs.old
        (point result regs.new cache.new store.new) bytes.new outs.new × Did stops g.at result.at bytes.old bytes.new }
{
    if load_waits(stops, w) {
        return g;
    }
    let at = g.at;
    let r = word_ends::last_clock(g.scalars, regs, cache, store, w, inputs[at]);
    going::went(g, r, bytes, outs)
}

// The clocks of the word in flight.
pub fn flight_turn(
    g: Going,
    program: &[u32],
    regs: &mut [u32; 16],
    cache: &mut Cache,
    store: &mut [u32],
    w: u32,
    pins: &[u8],
    inputs: &[u32],
    bytes: &mut [u8],
    outs: &mut [u32],
    base: &Charges,
    stops: bool,
) -> Going
    requires { At program.now pins.now inputs.now (point g regs.old cache.old store.old) bytes.old outs.old
        × (w ≡ word_at program.now g.scalars.pc)
        × (g.at < length pins.now) × (stalled (get_or pins.now g.at 0) ≡ false) × (g.scalars.running.phase ≢ 0) }
    ensures { Turned program.now pins.now inputs.now (point g regs.old cache.old store.old) bytes.old outs.old
        (point result regs.new cache.new store.new) bytes.new outs.new × Did stops g.at result.at bytes.old bytes.new }
{
    let phase = g.scalars.running.phase;
    match phase {
        1 => step_turn(
            g, program, regs, cache, store, w, pins, inputs, bytes, outs, base,
        ),
        2 => write_turn(g, program, regs, cache, store, w, pins, inputs, bytes, outs),
        3 => fill_turn(g, program, regs, cache, store, w, pins, inputs, bytes, outs),
        4 => wait_turn(
            g, program, regs, cache, store, w, pins, inputs, bytes, outs, base,
        ),
        _ => last_turn(
            g, program, regs, cache, store, w, pins, inputs, bytes, outs, stops,
        ),
    }
}
