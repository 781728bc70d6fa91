// The last clock of each phase, a function for each of phases 1 to 4.
// `c` are the scalars, by value, and the registers and the cache are borrowed; `w` is the word at PC.
// A function here may have a `requires`: parts of the record rule. Each has one caller or is small, so that it is inlined (D-53).
pub mod phase_ends;
