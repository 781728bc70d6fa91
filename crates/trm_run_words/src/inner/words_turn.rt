// The loop over instructions, from phase 0. Those of one clock end here, and LD and a taken branch if their second clock follows at once.
// Paper: the clock table; "takes an interrupt if .. Otherwise it begins an instruction".
// Operations 0-7 take a fast path. A longer instruction leaves the loop in flight, in its phase.
ghost use Rattle.std.specs.Prelude.{◌≡◌, true, not, ◌&&◌, ◌||◌, ◌+◌, ◌≤◌, ◌<◌, eqb};
ghost use Rattle.trm_word.specs.Fields.{operation};
ghost use Rattle.trm_word.specs.Address.{store_length_ok};
ghost use Rattle.trm_reference.specs.Visible.{word_at};
ghost use Rattle.trm_reference.specs.Access.{is_memory, place_of_word};
ghost use Rattle.trm_reference.specs.Interrupt.{stalled, interrupt_chosen};
ghost use Rattle.trm_core.specs.Record.{gathered, in_phase, advanced};
ghost use Rattle.trm_core.specs.Rule.{counts_ok};
ghost use Rattle.trm_run_phases.specs.Reached.{point, At, Turned, Did, Under, Quietly, Begins};

use trm_cache::record::Cache;
use trm_clock_bursts::inner::burst_clock;
use trm_clock_ends::inner::word_begins as first;
use trm_clock_execute::inner::execute;
use trm_clock_operands::inner::operands;
use trm_clock_scalars::inner::{interrupt, scalars};
use trm_core::record::Scalars;
use trm_run_phases::inner::going;
use trm_run_phases::inner::going::Going;
use trm_word::inner::address::Place;

// After a clock that enters this phase and count.
fn enters(g: Going, phase: u64, count: u64) -> Going
    requires { (g.at ≤ 65536) × (counts_ok g.scalars.counts ≡ true) }
    ensures { result ≡ record { scalars = advanced g.scalars (in_phase phase count) 0 0; at = g.at + 1; finished = g.finished } }
{
    Going {
        scalars: scalars::advance(g.scalars, scalars::in_phase(phase, count), 0, 0),
        at: g.at + 1,
        ..g
    }
}

// 14, the branch: one clock, or two if it is taken.
fn branch(g: Going, regs: &[u32; 16], cache: &Cache, store: &[u32], w: u32, pins: &[u8]) -> Going
    requires { Under pins.now w (point g regs.now cache.now store.now)
        × Begins pins.now g × (operation w ≡ 14) }
    ensures { Quietly pins.now w (point g regs.now cache.now store.now) (point result regs.now cache.now store.now)
        × (g.at < result.at) }
{
    let c = g.scalars;
    if !operands::branch_taken(c, regs, w) {
        return going::quietly(g, execute::pass(c, regs, w), 1);
    }
    let h = enters(g, 5, 0);
    if !going::due(pins, h.at) {
        return h;
    }
    going::quietly(h, execute::branch(h.scalars, regs, w), 1)
}

// 12 LD: uncached the first wait; on a miss the tag check; on a hit or from a device also the second clock, if it is due. A run that stops
// before an access to a device leaves the second clock of that LD to its caller.
fn load(
    g: Going,
    program: &[u32],
    regs: &mut [u32; 16],
    cache: &mut Cache,
    store: &mut [u32],
    w: u32,
    pins: &[u8],
    inputs: &[u32],
    bytes: &mut [u8],
    outs: &mut [u32],
    stops: bool,
) -> Going
    requires { At program.now pins.now inputs.now (point g regs.old cache.old store.old) bytes.old outs.old
        × (w ≡ word_at program.now g.scalars.pc)
        × Begins pins.now g × (operation w ≡ 12) }
    ensures { Turned program.now pins.now inputs.now (point g regs.old cache.old store.old) bytes.old outs.old
        (point result regs.new cache.new store.new) bytes.new outs.new × Did stops g.at result.at bytes.old bytes.new }
{
    let c = g.scalars;
    let place = operands::place_of_word(c, regs, w, store.len() as u64);
    match place {
        Place::Device(d) => {
            let h = enters(g, 5, 0); // the device is read in the second clock
            if stops {
                return h;
            }
            let at = h.at;
            if !going::due(pins, at) {
                return h;
            }
            let x = inputs[at];
            let next = execute::load(h.scalars, regs, w, x);
            bytes[at] = (d * 4 + 1) as u8;
            outs[at] = x;
            going::quietly(h, next, 1)
        }
        Place::Memory(a) => {
            if !operands::cache_on(c, regs) {
                return enters(g, 4, 1);
            }
            let b = a / 8;
            let l = (b % 16) as usize;
            if !cache.line_holds(l, b) {
                let m = burst_clock::miss(cache, l);
                let running = m.running;
                let next = scalars::advance(c, running, m.refilled, m.written);
                return going::quietly(g, next, 0);
            }
            let h = enters(g, 5, 0);
            if !going::due(pins, h.at) {
                return h;
            }
            let x = cache.peek(store, a as usize);
            going::quietly(h, execute::load(h.scalars, regs, w, x), 1)
        }
    }
}

// Whether the store w is at a device, in a run that stops before it.
#[tactic(auto, unfolding(trm_reference::specs::Access::is_memory))]
fn store_waits(stops: bool, c: Scalars, regs: &[u32; 16], w: u32, n: u64) -> bool
    requires { store_length_ok n ≡ true }
    ensures { result ≡ (stops && not (is_memory (place_of_word w (gathered c regs.now) n))) }
{
    stops && matches!(operands::place_of_word(c, regs, w, n), Place::Device(_))
}

// Begins the instruction w, operations 8 to 15: a match on 11 to 15; the rest are 8 to 10 (D-27).
fn begin(
    g: Going,
    program: &[u32],
    regs: &mut [u32; 16],
    cache: &mut Cache,
    store: &mut [u32],
    w: u32,
    pins: &[u8],
    inputs: &[u32],
    bytes: &mut [u8],
    outs: &mut [u32],
    stops: bool,
) -> Going
    requires { At program.now pins.now inputs.now (point g regs.old cache.old store.old) bytes.old outs.old
        × (w ≡ word_at program.now g.scalars.pc)
        × Begins pins.now g × (8 ≤ operation w) }
    ensures { Turned program.now pins.now inputs.now (point g regs.old cache.old store.old) bytes.old outs.old
        (point result regs.new cache.new store.new) bytes.new outs.new × Did stops g.at result.at bytes.old bytes.new }
{
    let at = g.at;
    let op = w / 0x4000 % 16;
    match op {
        11 => {
            let r = first::first_control(g.scalars, regs, cache, store, w, inputs[at]);
            going::went(g, r, bytes, outs)
        }
        12 => load(
            g, program, regs, cache, store, w, pins, inputs, bytes, outs, stops,
        ),
        13 => {
            if store_waits(stops, g.scalars, regs, w, store.len() as u64) {
                return g;
            }
            let r = first::first_store(g.scalars, regs, cache, store, w, inputs[at]);
            going::went(g, r, bytes, outs)
        }
        14 => branch(g, regs, cache, store, w, pins),
        15 => enters(g, 5, 0),
        _ => {
            let r = first::first_arithmetic(g.scalars, regs, cache, store, w, inputs[at]);
            going::went(g, r, bytes, outs)
        }
    }
}

// Whether this clock, with nothing in flight, is held or takes an interrupt; most line bytes are 0, so that is tested first.
#[tactic(auto, using(trm_run_phases::proofs::Laws::Next::raised_none))]
fn raised(status: u64, pins: u8) -> bool
    ensures { result ≡ (stalled pins || not (eqb (interrupt_chosen status pins) 0)) }
{
    pins != 0 && (interrupt::is_stalled(pins) || interrupt::interrupt_chosen(status, pins) != 0)
}

// Returns g, with `running` set to the idle value it already has: the compiler then need not keep it in registers round the loop.
fn at_rest(g: Going) -> Going
    requires { g.scalars.running ≡ in_phase 0 0 }
    ensures { result ≡ g }
{
    let scalars = Scalars {
        running: scalars::in_phase(0, 0),
        ..g.scalars
    };
    Going { scalars, ..g }
}

// Instruction after instruction, until a clock is held or takes an interrupt, one is left in flight, or the line bytes end; if the run
// stops before an access to a device, until that is next. A `while`: a word takes one clock or two.
pub fn ready_turn(
    g: Going,
    program: &[u32],
    regs: &mut [u32; 16],
    cache: &mut Cache,
    store: &mut [u32],
    pins: &[u8],
    inputs: &[u32],
    bytes: &mut [u8],
    outs: &mut [u32],
    stops: bool,
) -> Going
    requires { At program.now pins.now inputs.now (point g regs.old cache.old
        store.old) bytes.old outs.old × Begins pins.now g }
    ensures { Turned program.now pins.now inputs.now (point g regs.old cache.old store.old) bytes.old outs.old
        (point result regs.new cache.new store.new) bytes.new outs.new × Did stops g.at result.at bytes.old bytes.new }
{
    let mut h = at_rest(g);
    while h.at < pins.len() {
        let at = h.at;
        if raised(h.scalars.status, pins[at]) {
            return h;
        }
        let w = operands::word_at(program, h.scalars.pc);
        if w / 0x4000 % 16 < 8 {
            h = going::quietly(h, execute::short(h.scalars, regs, w), 1);
            continue;
        }
        h = begin(
            h, program, regs, cache, store, w, pins, inputs, bytes, outs, stops,
        );
        if h.at == at {
            return h; // the next clock writes to a device
        }
        if h.scalars.running.phase != 0 {
            return h;
        }
        h = at_rest(h);
    }
    h
}
