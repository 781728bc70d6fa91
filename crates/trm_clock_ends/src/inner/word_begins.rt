// The first clock, in phase 0, of operations 8 to 11 and 13: an instruction of one clock executes, any other begins.
// Paper: the clock table.
// The first clocks of the other operations are in trm_run_words, and for a listing in trm_list_rows.
ghost use Rattle.std.specs.Prelude.{◌≡◌, length, ◌≤◌, ◌<◌};
ghost use Rattle.trm_word.specs.Fields.{operation};
ghost use Rattle.trm_clock_laws.specs.Good.{Good};
ghost use Rattle.trm_clock_laws.specs.Made.{Works};

use trm_cache::record::Cache;
use trm_clock_bursts::inner::burst_clock;
use trm_clock_execute::inner::execute;
use trm_clock_laws::inner::outcome;
use trm_clock_laws::inner::outcome::Clocked;
use trm_clock_operands::inner::operands;
use trm_clock_scalars::inner::steps;
use trm_core::record::Scalars;
use trm_word::inner::address::Place;

// 8 to 10: 8 and 9 take their first step, 10 executes. The operation decides, without a read of the charge table, for speed (D-23).
pub fn first_arithmetic(
    c: Scalars,
    regs: &mut [u32; 16],
    cache: &mut Cache,
    store: &mut [u32],
    w: u32,
    input: u32,
) -> Clocked
    requires { (Good w (length store.old) c regs.old cache.old)
        × (c.running.phase ≡ 0) × (8 ≤ operation w) × (operation w < 11) }
    ensures { Works w c input regs.old cache.old store.old result regs.new cache.new store.new }
{
    if w / 0x4000 % 16 == 10 {
        return outcome::carried(execute::rotate(c, regs, w));
    }
    outcome::goes_on(c, steps::first_step(c, regs, w), 0, 0)
}

// 11: after a jump's first clock its last is due; turning the cache off first writes the dirty lines back; else the status is set now.
pub fn first_control(
    c: Scalars,
    regs: &mut [u32; 16],
    cache: &mut Cache,
    store: &mut [u32],
    w: u32,
    input: u32,
) -> Clocked
    requires { (Good w (length store.old) c regs.old cache.old)
        × (c.running.phase ≡ 0) × (operation w ≡ 11) }
    ensures { Works w c input regs.old cache.old store.old result regs.new cache.new store.new }
{
    if w / 1024 % 2 == 1 {
        return outcome::enters(c, 5, 0);
    }
    if !operands::turns_cache_off(c, regs, w) {
        return outcome::carried(execute::set_status(c, regs, w));
    }
    let d = cache.dirty_lines();
    if d.count == 0 {
        cache.empty_all();
        return outcome::carried(execute::set_status(c, regs, w));
    }
    outcome::enters(c, 2, 1) // the first wait of the first burst
}

// 13 ST: to a device or on a hit it executes in this clock; uncached, or on a miss, it begins.
pub fn first_store(
    c: Scalars,
    regs: &mut [u32; 16],
    cache: &mut Cache,
    store: &mut [u32],
    w: u32,
    input: u32,
) -> Clocked
    requires { (Good w (length store.old) c regs.old cache.old)
        × (c.running.phase ≡ 0) × (operation w ≡ 13) }
    ensures { Works w c input regs.old cache.old store.old result regs.new cache.new store.new }
{
    let place = operands::place_of_word(c, regs, w, store.len() as u64);
    match place {
        Place::Device(d) => {
            let x = operands::stored_word(c, regs, w);
            let after = execute::pass(c, regs, w);
            Clocked {
                scalars: after,
                byte: (d * 4 + 2) as u8,
                word: x,
                finished: 1,
            }
        }
        Place::Memory(a) => {
            if !operands::cache_on(c, regs) {
                return outcome::enters(c, 4, 1);
            }
            let b = a / 8;
            let l = (b % 16) as usize;
            if !cache.line_holds(l, b) {
                let m = burst_clock::miss(cache, l);
                let running = m.running;
                return outcome::goes_on(c, running, m.refilled, m.written);
            }
            let x = operands::stored_word(c, regs, w);
            cache.store_to(l, (a % 8) as usize, x);
            outcome::carried(execute::pass(c, regs, w))
        }
    }
}
