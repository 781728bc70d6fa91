// The clocks of one run that is not held, with their rows.
// Paper: "Kind 3 ..: count .., line byte, input word"; "an unfinished instruction has no line".
// Clocks that cannot end a word are run together; every other clock is run alone, so that its row is known (D-66).
ghost use Rattle.std.specs.Prelude.{◌≡◌, ◌≢◌, false, List, ℕ, ◌+◌, ◌≤◌, ◌<◌, length};
ghost use Rattle.trm_reference.specs.Visible.{word_at};
ghost use Rattle.trm_reference.specs.Interrupt.{stalled, interrupt_chosen};
ghost use Rattle.trm_clock_laws.specs.Made.{Ends};
ghost use Rattle.trm_list_rows.specs.Onward.{lent_of, Able, Onward};

use crate::inner::listed::Listed;
use crate::inner::{first_clock, listed, phase_clock};
use trm_cache::record::Cache;
use trm_clock_operands::inner::operands;
use trm_clock_scalars::inner::interrupt;
use trm_run_phases::inner::going::Going;
use trm_word::inner::charge::Charges;

// A word in flight: runs those of the next m clocks that come before the last one of its phase.
fn gone_ahead(
    l: Listed,
    program: &[u32],
    regs: &[u32; 16],
    cache: &mut Cache,
    store: &mut [u32],
    pins: u8,
    input: u32,
    base: &Charges,
    m: usize,
) -> Listed
    requires { Able program.now (lent_of l regs.now cache.old store.old)
        l.took l.left (record { line_byte = pins; input = input })
        × (stalled pins ≡ false) × (l.scalars.running.phase ≢ 0) × (m ≤ l.left) × (m ≤ 64) }
    ensures { ((b : List ℕ) → l.len ≤ length b → Onward program.now (record { line_byte = pins; input = input })
        l (lent_of l regs.now cache.old store.old) b result (lent_of result regs.now cache.new store.new) b)
        × (result.scalars.pc ≡ l.scalars.pc) × (result.scalars.running.phase ≢ 0) × (result.len ≡ l.len) × (result.left ≤ l.left)
        × (l.left ≤ result.left + m)
        × (l.left < result.left + m → Ends (word_at program.now l.scalars.pc) result.scalars.running) }
{
    if l.scalars.running.phase == 5 {
        return l; // its last clock is due
    }
    let w = operands::word_at(program, l.scalars.pc);
    let same = [pins; 64];
    let g = Going {
        scalars: l.scalars,
        at: 0,
        finished: 0,
    };
    let h = phase_clock::flight_ahead(g, regs, cache, store, w, &same[..m], base);
    Listed {
        scalars: h.scalars,
        left: l.left - h.at,
        took: l.took + h.at as u64,
        ..l
    }
}

// A word in flight: runs the rest of its phase, as far as the run has clocks.
fn goes_on(
    l: Listed,
    program: &[u32],
    regs: &mut [u32; 16],
    cache: &mut Cache,
    store: &mut [u32],
    pins: u8,
    input: u32,
    base: &Charges,
    buf: &mut [u8],
) -> Listed
    requires { Able program.now (lent_of l regs.old cache.old store.old)
        l.took l.left (record { line_byte = pins; input = input })
        × (0 < l.left) × (l.len + 32 ≤ length buf.old) × (stalled pins ≡ false)
        × (l.scalars.running.phase ≢ 0) }
    ensures { Onward program.now (record { line_byte = pins; input = input })
        l (lent_of l regs.old cache.old store.old) buf.old result (lent_of result regs.new cache.new
        store.new) buf.new × (result.left < l.left) }
{
    let m = l.left.min(64); // more clocks than a phase has
    let gone = gone_ahead(l, program, regs, cache, store, pins, input, base, m);
    if l.left - gone.left == m {
        return gone; // the run ended first
    }
    let w = operands::word_at(program, gone.scalars.pc);
    let r = phase_clock::flight_end(gone.scalars, regs, cache, store, w, input);
    listed::went(gone, r, w, buf)
}

// Nothing is in flight and no interrupt is taken: the first clock of the word at PC.
fn begins(
    l: Listed,
    program: &[u32],
    regs: &mut [u32; 16],
    cache: &mut Cache,
    store: &mut [u32],
    pins: u8,
    input: u32,
    base: &Charges,
    buf: &mut [u8],
) -> Listed
    requires { Able program.now (lent_of l regs.old cache.old store.old)
        l.took l.left (record { line_byte = pins; input = input })
        × (0 < l.left) × (l.len + 32 ≤ length buf.old) × (stalled pins ≡ false)
        × (l.scalars.running.phase ≡ 0) × (interrupt_chosen l.scalars.status pins ≡ 0) }
    ensures { Onward program.now (record { line_byte = pins; input = input })
        l (lent_of l regs.old cache.old store.old) buf.old result (lent_of result regs.new cache.new
        store.new) buf.new × (result.left < l.left) }
{
    let w = operands::word_at(program, l.scalars.pc);
    let r = first_clock::first_clock(l.scalars, regs, cache, store, w, input, base);
    listed::went(l, r, w, buf)
}

// Nothing is in flight: takes the interrupt that goes to this PC.
fn interrupts(
    l: Listed,
    program: &[u32],
    regs: &mut [u32; 16],
    cache: &Cache,
    store: &[u32],
    pins: u8,
    input: u32,
    to: u64,
    buf: &mut [u8],
) -> Listed
    requires { Able program.now (lent_of l regs.old cache.now store.now)
        l.took l.left (record { line_byte = pins; input = input })
        × (0 < l.left) × (l.len + 32 ≤ length buf.old) × (stalled pins ≡ false)
        × (l.scalars.running.phase ≡ 0) × (to ≡ interrupt_chosen l.scalars.status pins) × (to ≢ 0) }
    ensures { Onward program.now (record { line_byte = pins; input = input })
        l (lent_of l regs.old cache.now store.now) buf.old result (lent_of result regs.new cache.now
        store.now) buf.new × (result.left < l.left) }
{
    let c = interrupt::take_interrupt(l.scalars, regs, to);
    listed::interrupted(l, c, to, buf)
}

// One clock, or of a word in flight the clocks up to one that may end it.
fn one_turn(
    l: Listed,
    program: &[u32],
    regs: &mut [u32; 16],
    cache: &mut Cache,
    store: &mut [u32],
    pins: u8,
    input: u32,
    base: &Charges,
    buf: &mut [u8],
) -> Listed
    requires { Able program.now (lent_of l regs.old cache.old store.old)
        l.took l.left (record { line_byte = pins; input = input })
        × (0 < l.left) × (l.len + 32 ≤ length buf.old) × (stalled pins ≡ false) }
    ensures { Onward program.now (record { line_byte = pins; input = input })
        l (lent_of l regs.old cache.old store.old) buf.old result (lent_of result regs.new cache.new
        store.new) buf.new × (result.left < l.left) }
{
    if l.scalars.running.phase != 0 {
        return goes_on(l, program, regs, cache, store, pins, input, base, buf);
    }
    let to = interrupt::interrupt_chosen(l.scalars.status, pins);
    if to != 0 {
        return interrupts(l, program, regs, cache, store, pins, input, to, buf);
    }
    begins(l, program, regs, cache, store, pins, input, base, buf)
}

// Runs the clocks of a run until none is left or the buffer has no room for a row. Not a `for`: a turn has as many clocks as go together.
pub fn list_clocks(
    l: Listed,
    program: &[u32],
    regs: &mut [u32; 16],
    cache: &mut Cache,
    store: &mut [u32],
    pins: u8,
    input: u32,
    base: &Charges,
    buf: &mut [u8],
) -> Listed
    requires { Able program.now (lent_of l regs.old cache.old store.old)
        l.took l.left (record { line_byte = pins; input = input })
        × (l.len ≤ length buf.old) × (stalled pins ≡ false) }
    ensures { Onward program.now (record { line_byte = pins; input = input })
        l (lent_of l regs.old cache.old store.old) buf.old result (lent_of result regs.new cache.new store.new) buf.new
        × (result.left ≢ 0 → length buf.old < result.len + 32) }
{
    let mut g = l;
    while 0 < g.left {
        if buf.len() - g.len < 32 {
            return g;
        }
        g = one_turn(g, program, regs, cache, store, pins, input, base, buf);
    }
    g
}
