// The last clock of each phase, 1 to 4; the clocks before it are in trm_run_phases.
// Paper: "1 arithmetic, 1-32; 2 write-back, 0-9 ..; 3 refill, 0-9; 4 uncached wait".
// The caller knows that it is the last: the loop over the phase stops before it.
ghost use Rattle.std.specs.Prelude.{◌≡◌, ◌+◌, length};
ghost use Rattle.trm_word.specs.Fields.{operation};
ghost use Rattle.trm_word.specs.Charge.{charge_of};
ghost use Rattle.trm_clock_laws.specs.Good.{Good};
ghost use Rattle.trm_clock_laws.specs.Made.{Works};

use trm_cache::record::Cache;
use trm_clock_bursts::inner::burst_clock;
use trm_clock_execute::inner::execute;
use trm_clock_laws::inner::outcome;
use trm_clock_laws::inner::outcome::Clocked;
use trm_clock_operands::inner::operands;
use trm_core::record::Scalars;

// Phase 1: the result, when one clock of the base charge is left.
pub fn end_steps(
    c: Scalars,
    regs: &mut [u32; 16],
    cache: &mut Cache,
    store: &mut [u32],
    w: u32,
    input: u32,
) -> Clocked
    requires { (Good w (length store.old) c regs.old cache.old)
        × (c.running.phase ≡ 1) × (c.running.count + 1 ≡ charge_of (operation w)) }
    ensures { Works w c input regs.old cache.old store.old result regs.new cache.new store.new }
{
    outcome::carried(execute::long(c, regs, w))
}

// Phase 2: the tenth clock of a write-back.
pub fn end_write(
    c: Scalars,
    regs: &mut [u32; 16],
    cache: &mut Cache,
    store: &mut [u32],
    w: u32,
    input: u32,
) -> Clocked
    requires { (Good w (length store.old) c regs.old cache.old)
        × (c.running.phase ≡ 2) × (c.running.count ≡ 9) }
    ensures { Works w c input regs.old cache.old store.old result regs.new cache.new store.new }
{
    let clears = operands::turns_cache_off(c, regs, w);
    let l = burst_clock::line_of_burst(c, regs, cache, w, store.len() as u64, clears);
    let m = burst_clock::end_write_back(cache, store, clears, l);
    let running = m.running;
    outcome::goes_on(c, running, m.refilled, m.written)
}

// Phase 3: the tenth clock of a refill.
pub fn end_fill(
    c: Scalars,
    regs: &mut [u32; 16],
    cache: &mut Cache,
    store: &mut [u32],
    w: u32,
    input: u32,
) -> Clocked
    requires { (Good w (length store.old) c regs.old cache.old)
        × (c.running.phase ≡ 3) × (c.running.count ≡ 9) }
    ensures { Works w c input regs.old cache.old store.old result regs.new cache.new store.new }
{
    let b = operands::target_of(c, regs, w, store.len() as u64) / 8;
    let m = burst_clock::end_refill(cache, store, b, (b % 16) as usize);
    let running = m.running;
    outcome::goes_on(c, running, m.refilled, m.written)
}

// Phase 4: the access, when one clock of the uncached charge, base charge + 4, is left.
pub fn end_wait(
    c: Scalars,
    regs: &mut [u32; 16],
    cache: &mut Cache,
    store: &mut [u32],
    w: u32,
    input: u32,
) -> Clocked
    requires { (Good w (length store.old) c regs.old cache.old)
        × (c.running.phase ≡ 4) × (c.running.count + 1 ≡ charge_of (operation w) + 4) }
    ensures { Works w c input regs.old cache.old store.old result regs.new cache.new store.new }
{
    let a = operands::target_of(c, regs, w, store.len() as u64) as usize;
    if operands::is_store(w) {
        store[a] = operands::stored_word(c, regs, w);
        return outcome::carried(execute::pass(c, regs, w));
    }
    let x = cache.peek(store, a);
    outcome::carried(execute::load(c, regs, w, x))
}
