// What a clock returns beside the arrays: the scalars and the answer.
// Paper: "with the answer byte and word that a run writes for that clock"; "both zero without an access".
// Only an instruction's last clock that accesses a device has an answer.
ghost use Rattle.std.specs.Prelude.{◌≡◌, true, ◌≤◌};
ghost use Rattle.trm_core.specs.Record.{in_phase, advanced};
ghost use Rattle.trm_core.specs.Rule.{counts_ok};

use trm_clock_scalars::inner::scalars;
use trm_core::record::{Running, Scalars};

// `finished` is 1 if an instruction ended in this clock.
#[derive(Clone, Copy)]
pub struct Clocked {
    pub scalars: Scalars,
    pub byte: u8,
    pub word: u32,
    pub finished: u64,
}

// A clock that ends no instruction has no answer.
pub fn quiet(c: Scalars) -> Clocked
    ensures { result ≡ record { scalars = c; byte = 0; word = 0; finished = 0 } }
{
    Clocked {
        scalars: c,
        byte: 0, // ends no instruction
        word: 0,
        finished: 0,
    }
}

// The last clock of an instruction that accesses no device.
pub fn carried(c: Scalars) -> Clocked
    ensures { result ≡ record { scalars = c; byte = 0; word = 0; finished = 1 } }
{
    Clocked {
        scalars: c,
        byte: 0,
        word: 0,
        finished: 1,
    }
}

// A clock that is not the instruction's last: the new `running`, and the refills and write-backs it finished.
pub fn goes_on(c: Scalars, running: Running, refilled: u64, written: u64) -> Clocked
    requires { (counts_ok c.counts ≡ true) × (refilled ≤ 1) × (written ≤ 1) }
    ensures { result ≡ record { scalars = advanced c running refilled written; byte = 0; word = 0; finished = 0 } }
{
    quiet(scalars::advance(c, running, refilled, written))
}

// The same, entering this phase and count.
pub fn enters(c: Scalars, phase: u64, count: u64) -> Clocked
    requires { counts_ok c.counts ≡ true }
    ensures { result ≡ record { scalars = advanced c (in_phase phase count) 0 0; byte = 0; word = 0; finished = 0 } }
{
    goes_on(c, scalars::in_phase(phase, count), 0, 0)
}
