// Digests, by which one output line shows that a whole record, store or buffer is as expected.
// Paper: a refused call "writes nothing"; what an accepted one leaves is held against a second machine.
// A value enters as its low and its high 32 bits: for each half the digest is multiplied by 31 and the half added, mod 4,294,967,291.

// The digest with one more half.
fn mixed_half(d: u64, half: u64) -> u64 {
    (d % 4294967291 * 31 + half % 0x1_0000_0000) % 4294967291
}

pub fn mixed(d: u64, value: u64) -> u64 {
    mixed_half(mixed_half(d, value), value / 0x1_0000_0000)
}

// The digest of all bytes or words of a list, in order.
pub fn of<T: Copy>(list: &[T]) -> u64
where
    u64: From<T>,
{
    list.iter().fold(0, |d, x| mixed_half(d, u64::from(*x)))
}
