// The first clock of a word in a listing, in phase 0: an instruction of one clock executes, any other begins.
// Paper: the clock table.
// One match on the operation number has 0-10 as its arithmetic arm (D-27); the table of base charges says what ends at once.
ghost use Rattle.std.specs.Prelude.{◌≡◌, ◌<◌, length};
ghost use Rattle.trm_word.specs.Fields.{operation};
ghost use Rattle.trm_word.specs.Charge.{charges};
ghost use Rattle.trm_clock_laws.specs.Good.{Good};
ghost use Rattle.trm_clock_laws.specs.Made.{Works};

use trm_cache::record::Cache;
use trm_clock_bursts::inner::burst_clock;
use trm_clock_ends::inner::word_begins as begun;
use trm_clock_execute::inner::execute;
use trm_clock_laws::inner::outcome;
use trm_clock_laws::inner::outcome::Clocked;
use trm_clock_operands::inner::operands;
use trm_clock_scalars::inner::steps;
use trm_core::record::Scalars;
use trm_word::inner::address::Place;
use trm_word::inner::charge::Charges;

// 12 LD: uncached, the first wait; a miss, the tag-check clock; a hit or a device, the last clock is due.
fn first_load(
    c: Scalars,
    regs: &mut [u32; 16],
    cache: &mut Cache,
    store: &mut [u32],
    w: u32,
    input: u32,
) -> Clocked
    requires { (Good w (length store.old) c regs.old cache.old)
        × (c.running.phase ≡ 0) × (operation w ≡ 12) }
    ensures { Works w c input regs.old cache.old store.old result regs.new cache.new store.new }
{
    match operands::place_of_word(c, regs, w, store.len() as u64) {
        Place::Device(_) => outcome::enters(c, 5, 0), // the device is read in the last clock
        Place::Memory(a) => {
            if !operands::cache_on(c, regs) {
                return outcome::enters(c, 4, 1);
            }
            let b = a / 8;
            let l = (b % 16) as usize;
            if !cache.line_holds(l, b) {
                let m = burst_clock::miss(cache, l);
                return outcome::goes_on(c, m.running, m.refilled, m.written);
            }
            outcome::enters(c, 5, 0)
        }
    }
}

// 14: one clock, and one more if it is taken.
fn first_branch(
    c: Scalars,
    regs: &mut [u32; 16],
    cache: &mut Cache,
    store: &mut [u32],
    w: u32,
    input: u32,
) -> Clocked
    requires { (Good w (length store.old) c regs.old cache.old)
        × (c.running.phase ≡ 0) × (operation w ≡ 14) }
    ensures { Works w c input regs.old cache.old store.old result regs.new cache.new store.new }
{
    if operands::branch_taken(c, regs, w) {
        return outcome::enters(c, 5, 0);
    }
    outcome::carried(execute::pass(c, regs, w))
}

// 0 to 10: one whose base charge is 1 executes, the others take their first step.
fn first_arithmetic(
    c: Scalars,
    regs: &mut [u32; 16],
    cache: &mut Cache,
    store: &mut [u32],
    w: u32,
    input: u32,
    base: &Charges,
) -> Clocked
    requires { (Good w (length store.old) c regs.old cache.old)
        × (c.running.phase ≡ 0) × (operation w < 11) }
    ensures { Works w c input regs.old cache.old store.old result regs.new cache.new store.new }
{
    if base.of(w) == 1 {
        return outcome::carried(execute::short(c, regs, w));
    }
    outcome::goes_on(c, steps::first_step(c, regs, w), 0, 0)
}

// The word w begins: one match on the operation, 0-10 its arithmetic arm.
pub fn first_clock(
    c: Scalars,
    regs: &mut [u32; 16],
    cache: &mut Cache,
    store: &mut [u32],
    w: u32,
    input: u32,
    base: &Charges,
) -> Clocked
    requires { (Good w (length store.old) c regs.old cache.old)
        × (c.running.phase ≡ 0) }
    ensures { Works w c input regs.old cache.old store.old result regs.new cache.new store.new }
{
    match w / 0x4000 % 16 {
        0..=10 => first_arithmetic(c, regs, cache, store, w, input, base),
        11 => begun::first_control(c, regs, cache, store, w, input),
        12 => first_load(c, regs, cache, store, w, input),
        13 => begun::first_store(c, regs, cache, store, w, input),
        14 => first_branch(c, regs, cache, store, w, input),
        _ => outcome::enters(c, 5, 0),
    }
}
