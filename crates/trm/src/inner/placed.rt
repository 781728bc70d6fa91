// One clock on the parts of a record, in place: checks the arguments first. The lent entry calls it.
// Paper: "Later a second entry lends the record itself for one clock, with the same outcome".
// The scalars go by value; registers, cache and store are changed in place.
ghost use Rattle.trm_run_machine.specs.Machine.{parts};
ghost use Rattle.trm.specs.Promises.{ClockNumbered, with_parts};

use trm_cache::record::Cache;
use trm_call_refusals::inner::call_refusals;
use trm_call_refusals::refusal::Refusal;
use trm_clock_laws::inner::outcome::Clocked;
use trm_core::record::Scalars;
use trm_run_machine::inner::one_clock;

// Returns the scalars after the clock, and its answer; a refused clock changes nothing.
#[tactic(auto, using(trm_call_refusals::proofs::Laws::refused), unfolding(trm_calls::specs::Promises::clock_gives))]
pub fn clock(
    c: Scalars,
    program: &[u32],
    regs: &mut [u32; 16],
    cache: &mut Cache,
    store: &mut [u32],
    pins: u8,
    input: u32,
) -> Result<Clocked, Refusal>
    ensures { ClockNumbered (parts c regs.old cache.old) program.now store.old pins input
        (with_parts c result regs.new cache.new) store.new }
{
    call_refusals::clock_refusal(c, program, regs, cache, store, pins)?;
    Ok(one_clock::one_clock(c, program, regs, cache, store, pins, input))
}
