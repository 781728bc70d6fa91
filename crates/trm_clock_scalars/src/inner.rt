// Functions shared by the crates that use this one; a function here may have a `requires`.
// `c` are the record's scalars, `regs` the two register banks, `w` the word at PC.
// Each contract cites a definition of trm_core, or one of trm_reference applied to the architectural state `gathered c regs`.
pub mod interrupt;
pub mod packed_unit;
pub mod scalars;
pub mod steps;
pub mod zero_scalars;
