// Data memory as a caller sees it: one word, and all words.
// Paper: "A look gives one word of data memory .. a full line's word standing before the store's"; "a copy fills a buffer with all of it".
// Both read through the cache by `peek`; neither changes the cache or the store.
ghost use Rattle.std.specs.Prelude.{◌≡◌, true, ◌%◌, length};
ghost use Rattle.trm_word.specs.Address.{store_length_ok};
ghost use Rattle.trm_reference.specs.Geometry.{paper_geometry};
ghost use Rattle.trm_cache.specs.Cache.{view, copy_of};

use trm_cache::record::Cache;

// The word at an address, taken mod the store's length.
#[tactic(auto, using(crate::proofs::Laws::Accepted::legal_length))]
pub fn look(cache: &Cache, store: &[u32], address: u32) -> u32
    requires { store_length_ok (length store.now) ≡ true }
    ensures { result ≡ view paper_geometry cache.now store.now (address % length store.now) }
{
    let a = address as usize % store.len();
    cache.peek(store, a)
}

// All words, in address order.
#[tactic(auto, using(crate::proofs::Laws::Loops::copying))]
pub fn copy(cache: &Cache, store: &[u32], buffer: &mut [u32])
    requires { length buffer.old ≡ length store.now }
    ensures { buffer.new ≡ copy_of paper_geometry cache.now store.now }
{
    for i in 0..store.len() {
        buffer[i] = cache.peek(store, i);
    }
}
