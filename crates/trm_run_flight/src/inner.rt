// `flight_turn` has a function for each phase, and the choice between them.
// `g` is the run's state, by value, and the registers and the cache are borrowed; `w` is the word at PC.
// A function here may have a `requires`. Each has one caller or is small, so that it is inlined (D-53).
pub mod flight_turn;
