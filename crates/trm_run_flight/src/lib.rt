// A turn of a run with a word in flight: the clocks of its phase.
// Paper: "In 1 to 4 the count is the clocks of that phase done".
// A turn is some consecutive clocks of the clock history; the loop over turns is in trm_run_machine.
#![tactic(auto)]

pub mod inner;
