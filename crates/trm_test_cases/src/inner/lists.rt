// Lists of bytes and words that a script lends: making them, limiting a length, filling a part, printing a word.
// An index outside a list is ignored.
// A length is given as a word.
ghost use Rattle.std.specs.Prelude.{◌≤◌, ◌≡◌, length};

use crate::inner::print;
use std::io;

// 65,537 bytes or words of one value. The contract gives only the length, which keeps the check of the callers small.
pub fn filled<T: Copy>(value: T) -> [T; 65537]
    ensures { 65537 ≡ length result }
{
    [value; 65537]
}

// 65,537 bytes: bits 7-0 of w, except bits 15-8 at the index that bits 31-16 give.
pub fn bytes_but_one(w: u32) -> [u8; 65537]
    ensures { 65537 ≡ length result }
{
    let mut list = filled((w % 256) as u8);
    list[(w / 65536) as usize] = (w / 256 % 256) as u8;
    list
}

// The length n + more - 1, mod 65,538.
pub fn length_of(n: u32, more: u32) -> usize
    ensures { result ≤ 65537 }
{
    (n as usize + more as usize + 65537) % 65538
}

// n, or the length of the list if that is less.
pub fn within(list: &[u32], n: u32) -> usize
    ensures { result ≤ length list.now }
{
    list.len().min(n as usize)
}

// Sets `count` words from index `from` on to a value.
pub fn fill(list: &mut [u32], from: u32, count: u32, value: u32) {
    let at = within(list, from);
    let n = within(&list[at..], count);
    list[at..at + n].fill(value);
}

pub fn show(rt: &impl Print, list: &[u32], at: u32) -> io::Result<()> {
    match list.get(at as usize) {
        Some(w) => print::word(rt, *w),
        None => Ok(()),
    }
}
