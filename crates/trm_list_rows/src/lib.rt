// The clocks of one run of an image, with their rows written to a buffer.
// Paper: the fields of a row; "an unfinished instruction has no line; an interrupt has the saved PC and `irq0` or `irq1` as its word".
// Every function is used by crates above and is in `inner`.
#![tactic(auto)]

pub mod inner;
