// A case as an input line of fixed width: a letter, then four words, each a space and eight hexadecimal digits.
// What follows, a label and the line feed, is read separately.
// A byte that is not a digit counts as 0.
ghost use Rattle.std.specs.Prelude.{◌<◌, ◌≤◌, ◌+◌};

#[derive(Clone, Copy)]
pub struct Case {
    pub kind: u8,
    pub w0: u32,
    pub w1: u32,
    pub w2: u32,
    pub w3: u32,
}

// No `char::to_digit`, which would also read lower-case letters.
fn digit(c: u8) -> u32
    ensures { result < 16 }
{
    match c {
        b'0'..=b'9' => (c - b'0') as u32,
        b'A'..=b'F' => (c - b'A') as u32 + 10,
        _ => 0,
    }
}

// A word from eight digits.
fn word_at(s: &[u8; 37], at: usize) -> u32
    requires { at + 8 ≤ 37 }
{
    s[at..at + 8]
        .iter()
        .fold(0, |word, c| word % 0x1000_0000 * 16 + digit(*c))
}

impl From<&[u8; 37]> for Case {
    fn from(s: &[u8; 37]) -> Case {
        Case {
            kind: s[0],
            w0: word_at(s, 2),
            w1: word_at(s, 11),
            w2: word_at(s, 20),
            w3: word_at(s, 29),
        }
    }
}
