// The loop of a run. A turn is held clocks, an interrupt, instructions from phase 0 on, or clocks of the instruction in flight.
// Paper: "A clock with stall set is held"; "An unheld clock with no instruction in flight takes an interrupt if .. Otherwise it begins
// an instruction".
ghost use Rattle.std.specs.Prelude.{◌≡◌, true, false, ◌&&◌, ◌<◌, ◌≤◌, length, eqb};
ghost use Rattle.trm_run_phases.specs.Reached.{point, At, Turned, Did};

use trm_cache::record::Cache;
use trm_clock_operands::inner::operands;
use trm_clock_scalars::inner::interrupt;
use trm_run_flight::inner::flight_turn;
use trm_run_phases::inner::going::Going;
use trm_run_phases::inner::{going, phase_clocks};
use trm_run_words::inner::words_turn;
use trm_word::inner::charge::Charges;

// One turn: one or more clocks.
pub fn turn(
    g: Going,
    program: &[u32],
    regs: &mut [u32; 16],
    cache: &mut Cache,
    store: &mut [u32],
    pins: &[u8],
    inputs: &[u32],
    bytes: &mut [u8],
    outs: &mut [u32],
    base: &Charges,
    stops: bool,
) -> Going
    requires { At program.now pins.now inputs.now (point g regs.old cache.old
        store.old) bytes.old outs.old × (g.at < length pins.now) }
    ensures { Turned program.now pins.now inputs.now (point g regs.old cache.old store.old) bytes.old outs.old
        (point result regs.new cache.new store.new) bytes.new outs.new × Did stops g.at result.at bytes.old bytes.new }
{
    let at = g.at;
    let first = pins[at];
    if interrupt::is_stalled(first) {
        return phase_clocks::held_ahead(g, regs, cache, store, pins);
    }
    let c = g.scalars;
    if c.running.phase != 0 {
        let w = operands::word_at(program, c.pc);
        return flight_turn::flight_turn(
            g, program, regs, cache, store, w, pins, inputs, bytes, outs, base, stops,
        );
    }
    let to = interrupt::interrupt_chosen(c.status, first);
    if to != 0 {
        return going::quietly(g, interrupt::take_interrupt(c, regs, to), 0);
    }
    words_turn::ready_turn(
        g, program, regs, cache, store, pins, inputs, bytes, outs, stops,
    )
}

// Whether a turn did no clock, in a run that stops before an access to a device.
fn no_progress(stops: bool, before: usize, at: usize) -> bool
    ensures { result ≡ (stops && eqb before at) }
{
    stops && before == at
}

// Turn after turn, until every line byte has had its clock or, if the run stops there, an access to a device is next. The charge table
// is read once and lent to the turns (D-54). A `while`: a turn has as many clocks as go together.
pub fn all_turns(
    mut g: Going,
    program: &[u32],
    regs: &mut [u32; 16],
    cache: &mut Cache,
    store: &mut [u32],
    pins: &[u8],
    inputs: &[u32],
    bytes: &mut [u8],
    outs: &mut [u32],
    stops: bool,
) -> Going
    requires { At program.now pins.now inputs.now (point g regs.old cache.old store.old) bytes.old outs.old }
    ensures { Turned program.now pins.now inputs.now (point g regs.old cache.old store.old) bytes.old outs.old
        (point result regs.new cache.new store.new)
        bytes.new outs.new × (stops ≡ false → length pins.now ≤ result.at) × (g.at ≤ result.at)
        × (stops ≡ true → bytes.new ≡ bytes.old) }
{
    let base = Charges::new();
    while g.at < pins.len() {
        let before = g.at;
        g = turn(
            g, program, regs, cache, store, pins, inputs, bytes, outs, &base, stops,
        );
        if no_progress(stops, before, g.at) {
            return g;
        }
    }
    g
}
