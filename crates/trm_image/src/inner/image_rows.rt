// The refusal table for one record: a function per row, and `fault_at`, which tries them in the table's order.
// Paper: "Where calls are turned down", rows 1, 2, 3, 4 and 6.
// The test of program words ends at the first word that fails.
ghost use Rattle.std.specs.Prelude.{◌≡◌, not, ◌||◌, ◌+◌, ◌≤◌, ◌<◌, ◌%◌, length, eqb, ltb};
ghost use Rattle.trm_word.specs.Address.{store_length_ok};
ghost use Rattle.trm_core.specs.Refusals.{all_at_most};
ghost use Rattle.trm_image.specs.Records.{words_at};
ghost use Rattle.trm_image.specs.Numbers.{refusal_number};
ghost use Rattle.trm_image.specs.Refused.{cut_short, length_wrong, count_wrong, in_order, word_wrong, line_byte_wrong, fault_at};

use crate::fault::Fault;
use crate::inner::bytes;
use trm_word::inner::address;

// 1: "a record cut short".
#[tactic(auto, unfolding(crate::specs::Refused::cut_short))]
pub fn cut_short(s: &[u8], at: usize) -> bool
    requires { (at ≤ length s.now) × (at ≤ 65536) }
    ensures { result ≡ cut_short s.now at }
{
    s.len() - at < 6 || s.len() - (at + 6) < bytes::word_at(s, at) as usize
}

// Kind 1: "4 to 16,384 bytes".
fn program_length_wrong(length: usize) -> bool
    ensures { result ≡ (ltb length 4 || ltb 16384 length || not (eqb (length % 4) 0)) }
{
    length < 4 || length > 16384 || length % 4 != 0
}

// 1: "a length wrong for its kind".
#[tactic(auto, unfolding(crate::specs::Refused::length_wrong))]
fn length_wrong(kind: u32, length: usize, words: usize) -> bool
    ensures { result ≡ length_wrong words kind length }
{
    match kind {
        1 => program_length_wrong(length),
        2 => length / 4 > words || length % 4 != 0,
        3 => length != 9,
        _ => false,
    }
}

// 1: "a kind 3 count of 0 or above 65,536".
#[tactic(auto, unfolding(crate::specs::Refused::count_wrong))]
fn count_wrong(s: &[u8], at: usize) -> bool
    requires { at ≤ 65536 }
    ensures { result ≡ count_wrong s.now at }
{
    if bytes::half_at(s, at + 4) != 3 {
        return false;
    }
    let count = bytes::word_at(s, at + 6);
    count == 0 || count > 65536
}

// 2: "kind unknown, repeated or out of order".
#[tactic(auto, unfolding(crate::specs::Refused::in_order))]
fn in_order(before: u32, kind: u32) -> bool
    ensures { result ≡ in_order before kind }
{
    match kind {
        1 => before == 0,
        2 => before == 1,
        3 => before != 0,
        _ => false,
    }
}

// Whether none of the next `words` words is above 3FFFFH.
fn words_fit(s: &[u8], at: usize, words: usize) -> bool
    requires { (at ≤ 65542) × (words ≤ 1073741824) }
    ensures { result ≡ all_at_most 0x3FFFF (words_at s.now at words) }
{
    for i in 0..words {
        if bytes::word_at(s, at + i * 4) > 0x3FFFF {
            return false;
        }
    }
    true
}

// 3: "one above 3FFFFH".
#[tactic(auto, unfolding(crate::specs::Refused::word_wrong))]
fn word_wrong(s: &[u8], at: usize) -> bool
    requires { at ≤ 65536 }
    ensures { result ≡ word_wrong s.now at }
{
    bytes::half_at(s, at + 4) == 1 && !words_fit(s, at + 6, bytes::word_at(s, at) as usize / 4)
}

// 4: "length no power of two in 64-32,768".
fn store_wrong(words: usize) -> bool
    ensures { result ≡ not (store_length_ok words) }
{
    !address::store_length_ok(words as u64)
}

// 6: "a byte above 7".
#[tactic(auto, unfolding(crate::specs::Refused::line_byte_wrong))]
fn line_byte_wrong(s: &[u8], at: usize) -> bool
    requires { at ≤ 65536 }
    ensures { result ≡ line_byte_wrong s.now at }
{
    bytes::half_at(s, at + 4) == 3 && bytes::byte_at(s, at + 10) > 7
}

// The first row that the record at `at` fails, if any; `before` is the kind of the record before it, 0 for none. Nothing is read before
// the record is known to be whole: after that no byte of its header needs a test of its own (P-35).
#[tactic(auto, unfolding(crate::specs::Refused::fault_at))]
pub fn fault_at(s: &[u8], before: u32, at: usize, words: usize) -> Result<(), Fault>
    requires { (at ≤ length s.now) × (at ≤ 65536) }
    ensures { refusal_number result ≡ fault_at words s.now before at }
{
    if cut_short(s, at) {
        return Err(Fault::Frame);
    }
    let kind = bytes::half_at(s, at + 4);
    let length = bytes::word_at(s, at) as usize;
    if length_wrong(kind, length, words) || count_wrong(s, at) {
        return Err(Fault::Frame);
    }
    if !in_order(before, kind) {
        return Err(Fault::Kind);
    }
    if word_wrong(s, at) {
        return Err(Fault::Program);
    }
    if store_wrong(words) {
        return Err(Fault::Store);
    }
    if line_byte_wrong(s, at) {
        return Err(Fault::LineBytes);
    }
    Ok(())
}
