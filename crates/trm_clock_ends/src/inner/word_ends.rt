// The last clock of an instruction in phase 5: its memory access, its answer, and its execution.
// Paper: "What a programmer sees changes only in an instruction's last clock; a device is read or written only in that clock".
// Memory is read before it is written, and the answer is computed before the registers change.
ghost use Rattle.std.specs.Prelude.{◌≡◌, length};
ghost use Rattle.trm_word.specs.Fields.{operation};
ghost use Rattle.trm_clock_laws.specs.Good.{Good};
ghost use Rattle.trm_clock_laws.specs.Made.{WorksLast, Late};

use trm_cache::record::Cache;
use trm_clock_execute::inner::execute;
use trm_clock_laws::inner::outcome;
use trm_clock_laws::inner::outcome::Clocked;
use trm_clock_operands::inner::operands;
use trm_core::record::Scalars;
use trm_word::inner::address::Place;

// 11: a jump, or turning the cache off.
fn last_control(
    c: Scalars,
    regs: &mut [u32; 16],
    cache: &mut Cache,
    store: &mut [u32],
    w: u32,
    input: u32,
) -> Clocked
    requires { (Good w (length store.old) c regs.old cache.old)
        × (Late w (length store.old) c regs.old) × (operation w ≡ 11) }
    ensures { WorksLast w c input regs.old cache.old store.old result regs.new cache.new store.new }
{
    if w / 1024 % 2 == 1 {
        return outcome::carried(execute::jump(c, regs, w));
    }
    cache.empty_all();
    outcome::carried(execute::set_status(c, regs, w))
}

// 12 LD: from a device it loads the input word.
fn last_load(
    c: Scalars,
    regs: &mut [u32; 16],
    cache: &mut Cache,
    store: &mut [u32],
    w: u32,
    input: u32,
) -> Clocked
    requires { (Good w (length store.old) c regs.old cache.old)
        × (Late w (length store.old) c regs.old) × (operation w ≡ 12) }
    ensures { WorksLast w c input regs.old cache.old store.old result regs.new cache.new store.new }
{
    let place = operands::place_of_word(c, regs, w, store.len() as u64);
    match place {
        Place::Device(d) => {
            let after = execute::load(c, regs, w, input);
            Clocked {
                scalars: after,
                byte: (d * 4 + 1) as u8,
                word: input,
                finished: 1,
            }
        }
        Place::Memory(a) => {
            let x = cache.peek(store, a as usize);
            outcome::carried(execute::load(c, regs, w, x))
        }
    }
}

// 13 ST: in phase 5 the cache is on and the block is in its line.
fn last_store(
    c: Scalars,
    regs: &mut [u32; 16],
    cache: &mut Cache,
    store: &mut [u32],
    w: u32,
    input: u32,
) -> Clocked
    requires { (Good w (length store.old) c regs.old cache.old)
        × (Late w (length store.old) c regs.old) × (operation w ≡ 13) }
    ensures { WorksLast w c input regs.old cache.old store.old result regs.new cache.new store.new }
{
    let a = operands::target_of(c, regs, w, store.len() as u64) as usize;
    let x = operands::stored_word(c, regs, w);
    cache.store_to(a / 8 % 16, a % 8, x);
    outcome::carried(execute::pass(c, regs, w))
}

// The last clock of an instruction in phase 5, by operation.
pub fn last_clock(
    c: Scalars,
    regs: &mut [u32; 16],
    cache: &mut Cache,
    store: &mut [u32],
    w: u32,
    input: u32,
) -> Clocked
    requires { (Good w (length store.old) c regs.old cache.old)
        × (Late w (length store.old) c regs.old) }
    ensures { WorksLast w c input regs.old cache.old store.old result regs.new cache.new store.new }
{
    let op = w / 0x4000 % 16;
    match op {
        11 => last_control(c, regs, cache, store, w, input),
        12 => last_load(c, regs, cache, store, w, input),
        13 => last_store(c, regs, cache, store, w, input),
        14 => outcome::carried(execute::branch(c, regs, w)),
        _ => outcome::carried(execute::call(c, regs, w)),
    }
}
