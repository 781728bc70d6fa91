// The serial board with the core of document 01 inside: reset, one clock and a run, with the line given or joined to itself.
// Request A1: "Each of its clocks takes the serial line, the switches, interrupt 1 and stall".
// No call has a `requires`; a refused call returns the refusal alone, and changes no borrowed buffer.
#![tactic(auto)]

pub mod board_answers;
pub mod board_calls;
pub mod board_record;
pub mod inner;
