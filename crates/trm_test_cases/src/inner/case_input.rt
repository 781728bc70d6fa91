// Reading of cases: one input line each.
// A line is printed as it is read, with its label, so that the answer can follow it.
ghost use Rattle.std.specs.Prelude.{◌≢◌, IfOk, IfSome};

use crate::inner::case_text::Case;
use std::io;
use std::io::{ErrorKind, Read};

// Fills the buffer with the next bytes; false if the input ends before.
fn is_filled(input: &mut impl Read, buf: &mut [u8]) -> io::Result<bool> {
    match input.read_exact(buf) {
        Ok(()) => Ok(true),
        Err(e) if e.kind() == ErrorKind::UnexpectedEof => Ok(false),
        Err(e) => Err(e),
    }
}

// Reads the next case and prints it with its label. Of a line that begins with the byte 0 the case has kind 0.
pub fn next_case(rt: &impl Print, input: &mut impl Read) -> io::Result<Option<Case>> {
    let mut text = [0u8; 37];
    let mut label = [0u8; 18];
    let mut end = [0u8; 1];
    if !is_filled(input, &mut text)?
        || !is_filled(input, &mut label)?
        || !is_filled(input, &mut end)?
    {
        return Ok(None);
    }
    rt.write_all(&text)?;
    rt.write_all(&label)?;
    rt.write_all(b" ->")?;
    Ok(Some(Case::from(&text)))
}

// As `next_case`, but a line that begins with the byte 0 is printed and is no case: it ends them.
pub fn next_before_zero(rt: &impl Print, input: &mut impl Read) -> io::Result<Option<Case>>
    ensures { IfOk result (λ next. IfSome next (λ case. case.kind ≢ 0)) }
{
    Ok(next_case(rt, input)?.filter(|case| case.kind != 0))
}
