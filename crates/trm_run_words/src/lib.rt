// A turn of a run that starts in phase 0: instruction after instruction.
// Paper: "A run carries out one clock per line byte".
// A turn is some consecutive clocks of the clock history; the loop over turns is in trm_run_machine.
#![tactic(auto)]

pub mod inner;
