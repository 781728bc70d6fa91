// One cache line: its fields, memory as seen through it, and emptying it, filling it and storing to it.
// Paper: "a full line's word standing before the store's"; "An empty line is clean with block 0, its old words staying until overwritten".
// Full and dirty are numbers; they are set if they are 1.
ghost use Rattle.std.specs.Prelude.{◌≡◌, ◌<◌, length};
ghost use Rattle.trm_reference.specs.Geometry.{paper_geometry};
ghost use Rattle.trm_cache.specs.Cache.{Sized, line_at, holds, view, emptied, cleaned, filled, stored_to};

use crate::record::Cache;

// A block as a u64: the cast, proved here once.
fn wide(x: u16) -> u64
    ensures { (result ≡ x) × (result < 65536) }
{
    u64::from(x)
}

impl Cache {
    // Does nothing: the contract says what the types of the arrays fix, for a caller that has the cache behind a reference (D-31).
    pub fn sized(&self)
        ensures { Sized self.now }
    {}

    // Whether the line is full.
    pub fn line_full(&self, l: usize) -> bool
        requires { l < 16 }
        ensures { result ≡ (line_at paper_geometry self.now l).full }
    {
        self.full[l] == 1
    }

    // Whether the line is dirty.
    pub fn line_dirty(&self, l: usize) -> bool
        requires { l < 16 }
        ensures { result ≡ (line_at paper_geometry self.now l).dirty }
    {
        self.dirty[l] == 1
    }

    // The line's block.
    pub fn line_block(&self, l: usize) -> u64
        requires { l < 16 }
        ensures { (result ≡ (line_at paper_geometry self.now l).block) × (result < 65536) }
    {
        wide(self.block[l])
    }

    // Whether the line is full with block b.
    pub fn line_holds(&self, l: usize, b: u64) -> bool
        requires { l < 16 }
        ensures { result ≡ holds (line_at paper_geometry self.now l) b }
    {
        self.line_full(l) && self.line_block(l) == b
    }

    // Word a of memory: from its line on a hit, else from the store.
    pub fn peek(&self, store: &[u32], a: usize) -> u32
        requires { a < length store.now }
        ensures { result ≡ view paper_geometry self.now store.now a }
    {
        let b = a / 8;
        let l = b % 16;
        if self.line_holds(l, b as u64) {
            return self.words[l * 8 + a % 8];
        }
        store[a]
    }

    // Empties the line; its words stay.
    pub fn empty_line(&mut self, l: usize)
        requires { l < 16 }
        ensures { self.new ≡ emptied self.old l }
    {
        self.full[l] = 0;
        self.dirty[l] = 0;
        self.block[l] = 0;
    }

    // Marks the line clean.
    pub fn clean_line(&mut self, l: usize)
        requires { l < 16 }
        ensures { self.new ≡ cleaned self.old l }
    {
        self.dirty[l] = 0; // its words are in the store
    }

    // Marks the line full with block b, and clean.
    pub fn fill_line(&mut self, l: usize, b: u64)
        requires { (l < 16) × (b < 65536) }
        ensures { self.new ≡ filled self.old l b }
    {
        self.full[l] = 1;
        self.dirty[l] = 0; // clean after either ten
        self.block[l] = b as u16;
    }

    // ST that hits: writes the word and marks the line dirty.
    pub fn store_to(&mut self, l: usize, i: usize, x: u32)
        requires { (l < 16) × (i < 8) }
        ensures { self.new ≡ stored_to paper_geometry self.old l i x }
    {
        self.dirty[l] = 1;
        self.words[l * 8 + i] = x;
    }
}
