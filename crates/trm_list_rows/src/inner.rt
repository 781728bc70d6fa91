// `first_clock`: a word begins; `listed`: the state of a listing within a run; `row_clocks`: the clocks of a run with their rows.
// The registers and the cache are borrowed; `w` is the word at PC.
// A function here may have a `requires`: parts of the record rule, and room in the buffer for a row.
mod first_clock;
pub mod listed;
mod phase_clock;
pub mod row_clocks;
