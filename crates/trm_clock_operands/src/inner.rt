// Functions shared by the crates that use this one; a function here may have a `requires`.
// `c` are the record's scalars, `regs` the two register banks, `w` the word at PC, `n` the store's length.
// Each contract cites a definition of trm_reference, applied to the architectural state `gathered c regs`.
pub mod operands;
