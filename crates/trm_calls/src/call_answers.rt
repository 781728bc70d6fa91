// What an accepted run returns. A reset returns the machine, and a clock trm_run_machine's `Clock`.
// Paper: "reports the clocks used and instructions finished".
// A refused call returns the `Refusal` alone; the caller still has the record that it passed.
use trm_run_machine::machine::Machine;

// A run: the record, the clocks used and the instructions finished.
#[derive(Clone, Copy)]
pub struct Run {
    pub machine: Machine,
    pub used: u64,
    pub finished: u64,
}
