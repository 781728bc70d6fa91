// Which method the next clock of a record needs: `acknowledge`, `multiplier_step`, `divider_step`, or none of these.
// Paper: "An unheld clock with no instruction in flight takes an interrupt if .."; "33: 32 steps, then the result".
// The number of steps comes from the table of base charges.
ghost use Rattle.std.specs.Prelude.{◌≡◌, ◌<◌};
ghost use Rattle.trm_run_machine.specs.Next.{Acknowledges, StepsOne};

use crate::clock_answer::Clock;
use crate::machine::Machine;
use trm_clock_scalars::inner::interrupt;
use trm_core::record::Scalars;

// A unit that takes several clocks, one step in each.
#[derive(Clone, Copy, Debug, PartialEq, Eq)]
pub enum Stepper {
    Multiplier,
    Divider,
}

// The PC of the interrupt that this clock takes, if it takes one.
pub fn interrupt_now(c: Scalars, pins: u8) -> Option<u64>
    ensures { Acknowledges c pins result }
{
    if interrupt::is_stalled(pins) || c.running.phase != 0 {
        return None;
    }
    match interrupt::interrupt_chosen(c.status, pins) {
        0 => None,
        to => Some(to),
    }
}

// The unit that steps in this clock, if one does; w is the word at PC, and no interrupt is taken.
pub fn unit_now(c: Scalars, w: u32, pins: u8) -> Option<Stepper>
    requires { c.running.count < 33 }
    ensures { StepsOne c w pins result }
{
    let op = w / 0x4000 % 16;
    if interrupt::is_stalled(pins)
        || c.running.count + 1 == trm_word::inner::charge::base_charge(op as usize)
    {
        return None; // held, or the instruction's last clock
    }
    match op {
        8 => Some(Stepper::Multiplier),
        9 => Some(Stepper::Divider),
        _ => None,
    }
}

// A clock that ends no instruction has no answer.
pub fn quiet(m: Machine) -> Clock
    ensures { result ≡ record { machine = m; byte = 0; word = 0; finished = 0 } }
{
    Clock {
        machine: m,
        byte: 0,
        word: 0,
        finished: 0,
    }
}
