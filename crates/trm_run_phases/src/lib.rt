// The state of a run in progress (specs/Reached.antt), and the loops over the clocks of one phase.
// Paper: "A run carries out one clock per line byte".
// The turns of a run build on these; the loop over turns is in trm_run_machine.
#![tactic(auto)]

pub mod inner;
