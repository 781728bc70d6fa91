// One clock of an instruction: its first (`word_begins`), or its last in phase 5 (`word_ends`). Phases 1 to 4 are in trm_clock_phases.
// `c` are the scalars, by value, and the registers and the cache are borrowed; `w` is the word at PC.
// A function here may have a `requires`: parts of the record rule. Each has one caller or is small, so that it is inlined (D-53).
pub mod word_begins;
pub mod word_ends;
