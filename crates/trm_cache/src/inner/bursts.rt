// One clock of a write-back or refill, `k` clocks of which are done: two waits, then the block's words in rising order.
// Paper: "Each ten is two waits and eight words in rising order".
// `put_in_block` and `word_in_block` borrow the block as a slice of the store; `put_word` and `word_of` take a slice of any length.
ghost use Rattle.std.specs.Prelude.{◌≡◌, ◌+◌, ◌*◌, ◌≤◌, ◌<◌, length, get_or, set};
ghost use Rattle.trm_reference.specs.Geometry.{paper_geometry};
ghost use Rattle.trm_cache.specs.Cache.{line_at, write_word, fill_word};

use crate::record::Cache;

// Word k of the borrowed block.
fn put_word(part: &mut [u32], k: usize, x: u32)
    requires { k < length part.old }
    ensures { part.new ≡ set part.old k x }
{
    part[k] = x;
}

fn word_of(part: &[u32], k: usize) -> u32
    requires { k < length part.now }
    ensures { result ≡ get_or part.now k 0 }
{
    part[k]
}

// Word k of block b; a block has n words.
fn put_in_block(store: &mut [u32], b: usize, n: usize, k: usize, x: u32)
    requires { (k < n) × (n ≤ 64) × (b < 65536) × (b * n + n ≤ length store.old) }
    ensures { store.new ≡ set store.old (b * n + k) x }
{
    let a = b * n;
    let e = a + n;
    put_word(&mut store[a..e], k, x);
}

fn word_in_block(store: &[u32], b: usize, n: usize, k: usize) -> u32
    requires { (k < n) × (n ≤ 64) × (b < 65536) × (b * n + n ≤ length store.now) }
    ensures { result ≡ get_or store.now (b * n + k) 0 }
{
    let a = b * n;
    let e = a + n;
    word_of(&store[a..e], k)
}

impl Cache {
    // The store after one clock of the write-back of line l.
    pub fn write_word(&self, store: &mut [u32], l: usize, k: u64)
        requires { (l < 16) × (k < 10) × ((line_at paper_geometry self.now l).block * 8 + 8 ≤ length store.old) }
        ensures { store.new ≡ write_word paper_geometry (line_at paper_geometry self.now l) store.old k }
    {
        if k < 2 {
            return;
        }
        let j = (k - 2) as usize;
        let b = self.line_block(l) as usize;
        put_in_block(store, b, 8, j, self.words[l * 8 + j]);
    }

    // The cache after one clock of the refill of line l with block b.
    pub fn fill_word(&mut self, store: &[u32], l: usize, b: u64, k: u64)
        requires { (l < 16) × (k < 10) × (b < 65536) × (b * 8 + 8 ≤ length store.now) }
        ensures { self.new ≡ fill_word paper_geometry self.old l store.now b k }
    {
        if k < 2 {
            return;
        }
        let i = (k - 2) as usize;
        self.words[l * 8 + i] = word_in_block(store, b as usize, 8, i);
    }
}
