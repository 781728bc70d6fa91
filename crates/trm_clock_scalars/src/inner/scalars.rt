// The scalars after a clock: one in the middle of an instruction, a held one, or one after which nothing is in flight.
// Paper: "it adds one to the clock and held counts and does nothing else"; "Outside phase 1 .. these registers are zero".
// By the record rule every count is at most the clock count, which has 32 bits; so no count overflows its u64.
ghost use Rattle.std.specs.Prelude.{◌≡◌, true, [], ◌≤◌};
ghost use Rattle.trm_core.specs.Record.{gathered, in_phase, advanced, ended, waited};
ghost use Rattle.trm_core.specs.Rule.{counts_ok};

use trm_core::record::{Running, Scalars};

// A phase and count, with the multiplier and divider registers zero.
pub fn in_phase(phase: u64, count: u64) -> Running
    ensures { result ≡ in_phase phase count }
{
    Running {
        phase,
        count,
        product: 0,
        remainder: 0,
        quotient: 0,
    }
}

// A clock that is not the instruction's last: the new `running`, and the refills and write-backs it finished.
#[tactic(auto, unfolding(trm_core::specs::Rule::counts_ok))]
pub fn advance(mut c: Scalars, running: Running, refilled: u64, written: u64) -> Scalars
    requires { (counts_ok c.counts ≡ true) × (refilled ≤ 1) × (written ≤ 1) }
    ensures { result ≡ advanced c running refilled written }
{
    c.running = running;
    c.counts.clocks += 1; // a step, too, is a clock
    c.counts.refills += refilled;
    c.counts.writebacks += written;
    c
}

// A held clock.
#[tactic(auto, unfolding(trm_core::specs::Rule::counts_ok))]
pub fn hold(mut c: Scalars) -> Scalars
    requires { counts_ok c.counts ≡ true }
    ensures { result ≡ waited c }
{
    c.counts.clocks += 1;
    c.counts.held += 1;
    c
}

// A clock after which nothing is in flight: the end of an instruction or an interrupt.
#[tactic(auto, unfolding(trm_core::specs::Rule::counts_ok))]
pub fn settle(mut c: Scalars) -> Scalars
    requires { counts_ok c.counts ≡ true }
    ensures { result ≡ ended c (gathered c []) }
{
    c.running = in_phase(0, 0);
    c.counts.clocks += 1; // an acknowledgement, too, is a clock
    c
}

// The same where nothing was in flight before.
#[tactic(auto, unfolding(trm_core::specs::Rule::counts_ok))]
pub fn tick(mut c: Scalars) -> Scalars
    requires { (counts_ok c.counts ≡ true) × (c.running ≡ in_phase 0 0) }
    ensures { result ≡ ended c (gathered c []) }
{
    c.counts.clocks += 1;
    c
}
