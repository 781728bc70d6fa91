// `going` has the state of a run; `phase_clocks` and `step_clocks` loop over the clocks of one phase.
// `g` is the run's state, by value, and the registers and the cache are borrowed; `w` is the word at PC.
// A function here may have a `requires`. Each has one caller or is small, so that it is inlined (D-53).
pub mod going;
pub mod phase_clocks;
pub mod step_clocks;
