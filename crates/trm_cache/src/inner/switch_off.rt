// Turning the cache off: the number of dirty lines, the lowest of them, and emptying all lines.
// Paper: "10 for each dirty line, lowest line first"; "then one last clock, which empties all lines".
// The loops visit the sixteen lines in rising order, as the definitions do.
ghost use Rattle.std.specs.Prelude.{◌≡◌, cond, ◌+◌, ◌<◌, eqb};
ghost use Rattle.trm_reference.specs.Geometry.{paper_geometry};
ghost use Rattle.trm_cache.specs.Cache.{count_dirty, first_dirty, all_emptied};

use crate::record::Cache;

// The number of dirty lines, and the lowest of them, 0 if there is none.
#[derive(Clone, Copy)]
pub struct Dirty {
    pub count: u64,
    pub first: usize,
}

fn count_one(count: u64, d: bool) -> u64
    requires { count < 16 }
    ensures { result ≡ count + cond d 1 0 }
{
    if d { count + 1 } else { count }
}

fn lower(count: u64, first: usize, i: usize, d: bool) -> usize
    requires { (first < 16) × (i < 16) }
    ensures { (result ≡ cond (eqb count 0) (cond d i 0) first) × (result < 16) }
{
    if count != 0 {
        return first;
    }
    if d { i } else { 0 }
}

impl Cache {
    pub fn dirty_lines(&self) -> Dirty
        ensures { (result.count ≡ count_dirty paper_geometry self.now) × (result.first ≡ first_dirty paper_geometry self.now)
            × (result.first < 16) × (result.count < 17) }
    {
        let mut count: u64 = 0;
        let mut first: usize = 0;
        for i in 0..16 {
            let d = self.line_dirty(i);
            first = lower(count, first, i, d);
            count = count_one(count, d);
        }
        Dirty { count, first }
    }

    pub fn empty_all(&mut self)
        ensures { self.new ≡ all_emptied paper_geometry self.old }
    {
        for i in 0..16 {
            self.empty_line(i);
        }
    }
}
