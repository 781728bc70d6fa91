// Tests of what no contract says: which input lines are cases.
use crate::inner::case_input;
use std::fmt::Display;
use std::io;
use std::test::*;

// Prints nothing.
struct Silent;

impl Print for Silent {
    fn print<D: Display + Drop>(&self, _: D) -> io::Result<()> {
        Ok(())
    }

    fn println<D: Display + Drop>(&self, _: D) -> io::Result<()> {
        Ok(())
    }

    fn write_all(&self, _: &[u8]) -> io::Result<()> {
        Ok(())
    }
}

// A line that begins with a letter, then two that begin with the byte 0: `next_case` reads all, `next_before_zero` ends at the second.
#[test]
fn lines_that_begin_with_the_byte_0(rt: HostRuntime) -> Result<(), Fail> {
    let mut lines = [0u8; 168];
    lines[0] = b'A';
    let mut input = lines.as_slice();
    for kind in [b'A', 0, 0] {
        let next = case_input::next_case(&Silent, &mut input)?;
        assert_eq!(rt; next.map(|case| case.kind), Some(kind));
    }
    assert!(rt; case_input::next_case(&Silent, &mut input)?.is_none());
    let mut input = lines.as_slice();
    let next = case_input::next_before_zero(&Silent, &mut input)?;
    assert_eq!(rt; next.map(|case| case.kind), Some(b'A'));
    assert!(rt; case_input::next_before_zero(&Silent, &mut input)?.is_none());
    Ok(())
}
