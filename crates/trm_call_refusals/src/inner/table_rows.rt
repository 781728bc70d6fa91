// Rows 3, 4 and 8, and rows 6 and 7 of a run, one function each. The clock's row 6, the copy's row 7, and row 9 are in `call_refusals`.
// Paper: "Where calls are turned down", rows 3, 4, 6, 7 and 8.
// The test of program words stops at the first sixteen in which one fails (D-59).
ghost use Rattle.std.specs.Prelude.{◌≡◌, not, ◌&&◌, ◌||◌, ◌+◌, ◌^◌, ◌<◌, length, eqb, ltb};
ghost use Rattle.trm_word.specs.Address.{store_length_ok};
ghost use Rattle.trm_core.specs.Refusals.{all_at_most, program_ok};

// Whether none of a few words is above the limit; without an early exit, so that they are compared at once.
fn part_at_most(part: &[u32], limit: u32) -> bool
    ensures { result ≡ all_at_most limit part.now }
{
    part.iter().fold(0, |most, w| most.max(*w)) <= limit
}

// Whether no word is above the limit: sixteen words after sixteen, up to the first part with such a word (D-59).
pub fn all_at_most_words(list: &[u32], limit: u32) -> bool
    ensures { result ≡ all_at_most limit list.now }
{
    for part in list.chunks(16) {
        if !part_at_most(part, limit) {
            return false;
        }
    }
    true
}

// Whether no byte is above the limit; without an early exit, so that many bytes are compared at once (D-59).
pub fn all_at_most_bytes(list: &[u8], limit: u8) -> bool
    ensures { result ≡ all_at_most limit list.now }
{
    list.iter().fold(0, |most, b| most.max(*b)) <= limit
}

// Row 3: "no word, over 4,096, or one above 3FFFFH".
#[tactic(auto, unfolding(trm_core::specs::Refusals::program_ok))]
pub fn program_ok(program: &[u32]) -> bool
    ensures { result ≡ program_ok program.now }
{
    1 <= program.len() && program.len() <= 4096 && all_at_most_words(program, 0x3FFFF)
}

// Row 4: "length no power of two in 64-32,768, or other than at reset".
pub fn store_ok(size: u32, store: &[u32]) -> bool
    ensures { result ≡ (store_length_ok (length store.now) && eqb (length store.now) size) }
{
    let n = store.len() as u64;
    trm_word::inner::address::store_length_ok(n) && n == size as u64
}

// Row 6: "other length than the input words, over 65,536, or a byte above 7". The inputs of a clock are a word or, on the board, a byte.
pub fn line_bytes_refused<T>(pins: &[u8], inputs: &[T]) -> bool
    ensures { result ≡ (not (eqb (length pins.now) (length inputs.now)) || ltb 65536 (length pins.now)
        || not (all_at_most 7 pins.now)) }
{
    pins.len() != inputs.len() || pins.len() > 65536 || !all_at_most_bytes(pins, 7)
}

// Row 7: "other length than the run", for both answer buffers.
pub fn buffers_refused(pins: &[u8], bytes: &[u8], outs: &[u32]) -> bool
    ensures { result ≡ (not (eqb (length bytes.now) (length pins.now)) || not (eqb (length outs.now) (length pins.now))) }
{
    bytes.len() != pins.len() || outs.len() != pins.len()
}

// Row 8: "would pass 4,294,967,295", for `more` clocks after `clocks`.
pub fn clocks_refused(clocks: u64, more: u64) -> bool
    requires { (clocks < 2 ^ 32) × (more < 2 ^ 32) }
    ensures { result ≡ ltb 4294967295 (clocks + more) }
{
    4294967295 < clocks + more
}
