// Printing of answers: every part is printed after a space.
// Hexadecimal numbers have lower-case digits, with zeros in front up to a width.
// Each function takes `rt`, as std's `print!` does: a struct that holds it would stand in the same signatures, and is no plainer.
use std::io;

pub fn text(rt: &impl Print, s: &[u8]) -> io::Result<()> {
    rt.write_all(b" ")?;
    rt.write_all(s)
}

pub fn hex(rt: &impl Print, n: u64, width: usize) -> io::Result<()> {
    print!(rt; " {n:0width$x}")
}

pub fn word(rt: &impl Print, w: u32) -> io::Result<()> {
    hex(rt, w as u64, 8)
}

pub fn decimal(rt: &impl Print, n: u64) -> io::Result<()> {
    print!(rt; " {n}")
}
