// The rows by which a call can be refused.
// Paper: "Where calls are turned down", rows 3 to 9.
// Their numbers are in specs/Numbers.antt; `inner::refusal_number` gives them in code.
#[derive(Clone, Copy, Debug, PartialEq, Eq)]
pub enum Refusal {
    Program,
    Store,
    Record,
    LineBytes,
    Buffers,
    Clocks,
    Place,
}
