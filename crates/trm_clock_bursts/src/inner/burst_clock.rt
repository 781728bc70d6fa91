// What a clock changes in the cache and the store: the last word of a burst, the tag check; and the line of a write-back.
// Paper: phases 2 and 3; "A line is empty while it refills and clean after either ten".
// These functions take no scalars: they return the next `running` and whether they finished a burst.
ghost use Rattle.std.specs.Prelude.{◌≡◌, true, ℕ, ◌+◌, ◌*◌, ◌≤◌, ◌<◌, length, List};
ghost use Rattle.trm_word.specs.Address.{store_length_ok};
ghost use Rattle.trm_reference.specs.Charge.{turns_cache_off};
ghost use Rattle.trm_reference.specs.Geometry.{paper_geometry};
ghost use Rattle.trm_cache.specs.Cache.{line_at};
ghost use Rattle.trm_core.specs.declared.record.Scalars.{Scalars};
ghost use Rattle.trm_core.specs.Record.{gathered};
ghost use Rattle.trm_core.specs.Clock.{moved, written, writing, filling, missing, write_line};

use trm_cache::record::Cache;
use trm_clock_operands::inner::operands;
use trm_clock_scalars::inner::scalars;
use trm_core::record::{Running, Scalars};

// The next `running`; `refilled` and `written` are 1 if this clock finished a refill, a write-back.
#[derive(Clone, Copy)]
pub struct Motion {
    pub running: Running,
    pub refilled: u64,
    pub written: u64,
}

fn moves(phase: u64, count: u64, refilled: u64, written: u64) -> Motion
    ensures { result ≡ record {
      running = record { phase = phase; count = count; product = 0; remainder = 0; quotient = 0 };
      refilled = refilled;
      written = written;
    } }
{
    let running = scalars::in_phase(phase, count);
    Motion {
        running,
        refilled,
        written,
    }
}

// After the write-back of line l: the next dirty line if the cache is turned off, else line l is emptied and refilled.
fn written_back(cache: &mut Cache, clears: bool, l: usize) -> Motion
    requires { l < 16 }
    ensures { ((c : Scalars) (s : List ℕ) → moved c result.running cache.new s result.refilled result.written
        ≡ written paper_geometry clears l c cache.old s)
        × (result.refilled ≤ 1) × (result.written ≤ 1) }
{
    if clears {
        let d = cache.dirty_lines();
        if d.count == 0 {
            return moves(5, 0, 0, 1);
        }
        return moves(2, 0, 0, 1);
    }
    cache.empty_line(l);
    moves(3, 0, 0, 1)
}

// The tenth and last clock of the write-back of line l.
pub fn end_write_back(cache: &mut Cache, store: &mut [u32], clears: bool, l: usize) -> Motion
    requires { (l < 16)
        × ((line_at paper_geometry cache.old l).block * 8 + 8 ≤ length store.old) }
    ensures { ((c : Scalars) → moved c result.running cache.new store.new result.refilled result.written
        ≡ writing paper_geometry clears l 9 c cache.old store.old)
        × (result.refilled ≤ 1) × (result.written ≤ 1) }
{
    cache.write_word(store, l, 9);
    cache.clean_line(l);
    written_back(cache, clears, l)
}

// The tenth and last clock of the refill of line l with block b.
pub fn end_refill(cache: &mut Cache, store: &[u32], b: u64, l: usize) -> Motion
    requires { (l < 16) × (b < 65536) × (b * 8 + 8 ≤ length store.now) }
    ensures { ((c : Scalars) → moved c result.running cache.new store.now result.refilled result.written
        ≡ filling paper_geometry b l 9 c cache.old store.now)
        × (result.refilled ≤ 1) × (result.written ≤ 1) }
{
    cache.fill_word(store, l, b, 9);
    cache.fill_line(l, b);
    moves(5, 0, 1, 0)
}

// The tag-check clock of a miss: a dirty line is written back first, any other line is emptied now.
pub fn miss(cache: &mut Cache, l: usize) -> Motion
    requires { l < 16 }
    ensures { ((c : Scalars) (s : List ℕ) → moved c result.running cache.new s result.refilled result.written
        ≡ missing paper_geometry l c cache.old s)
        × (result.refilled ≤ 1) × (result.written ≤ 1) }
{
    if cache.line_dirty(l) {
        return moves(2, 0, 0, 0);
    }
    cache.empty_line(l);
    moves(3, 0, 0, 0)
}

// The line that phase 2 writes back: the lowest dirty one when the cache is turned off, else the line of the access.
pub fn line_of_burst(
    c: Scalars,
    regs: &[u32; 16],
    cache: &Cache,
    w: u32,
    n: u64,
    clears: bool,
) -> usize
    requires { (store_length_ok n ≡ true) × (clears ≡ turns_cache_off w (gathered c regs.now)) }
    ensures { (result ≡ write_line paper_geometry w n (gathered c regs.now) cache.now) × (result < 16) }
{
    if clears {
        let d = cache.dirty_lines();
        return d.first;
    }
    let a = operands::target_of(c, regs, w, n);
    (a / 8 % 16) as usize
}
