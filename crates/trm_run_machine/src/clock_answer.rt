// What one clock call returns.
// Paper: "The clock call takes the record and returns it, with the answer byte and word that a run writes for that clock".
// The record comes first, so that no copy of it is unaligned (D-76).
use crate::machine::Machine;

// The record, the byte and word that a run would write for this clock; `finished` is 1 if an instruction ended.
#[derive(Clone, Copy)]
pub struct Clock {
    pub machine: Machine,
    pub byte: u8,
    pub word: u32,
    pub finished: u64,
}
