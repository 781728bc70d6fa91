// Reset, clock and run, for any caller and any input.
// Paper: "Checks go down the table .. It returns the number only and writes nothing".
// Arguments are checked first; nothing is written unless the call is accepted. A run takes its buffers one by one, as C lends them.
ghost use Rattle.trm_calls.specs.Promises.{ResetHolds, ClockHolds, RunHolds};

use crate::call_answers::Run;
use trm_call_refusals::inner::call_refusals;
use trm_call_refusals::refusal::Refusal;
use trm_run_machine::clock_answer::Clock;
use trm_run_machine::inner::zero_record;
use trm_run_machine::machine::Machine;

// The record after a reset, for this store; the store is not changed.
#[tactic(auto, using(trm_call_refusals::proofs::Laws::reset_short), unfolding(crate::specs::Promises::reset_gives))]
pub fn reset(store: &[u32]) -> Result<Machine, Refusal>
    ensures { ResetHolds store.now result }
{
    call_refusals::reset_refusal(store)?;
    Ok(zero_record::zero_record(store))
}

// One clock.
#[tactic(auto, using(trm_call_refusals::proofs::Laws::refused), unfolding(crate::specs::Promises::clock_gives))]
pub fn clock(
    m: Machine,
    program: &[u32],
    store: &mut [u32],
    pins: u8,
    input: u32,
) -> Result<Clock, Refusal>
    ensures { ClockHolds m program.now store.old pins input result store.new }
{
    call_refusals::clock_refusal(m.scalars, program, &m.regs, &m.cache, store, pins)?;
    Ok(m.clock(program, store, pins, input))
}

// One clock for each line byte.
#[tactic(auto, using(trm_call_refusals::proofs::Laws::refused), unfolding(crate::specs::Promises::run_gives))]
pub fn run(
    m: Machine,
    program: &[u32],
    store: &mut [u32],
    pins: &[u8],
    inputs: &[u32],
    bytes: &mut [u8],
    words: &mut [u32],
) -> Result<Run, Refusal>
    ensures { RunHolds m program.now store.old pins.now inputs.now bytes.old words.old result store.new bytes.new words.new }
{
    call_refusals::run_refusal(
        m.scalars, program, &m.regs, &m.cache, store, pins, inputs, bytes, words,
    )?;
    let f = m.run(program, store, pins, inputs, bytes, words);
    let machine = f.machine;
    Ok(Run {
        machine: machine,
        used: pins.len() as u64,
        finished: f.finished,
    })
}
