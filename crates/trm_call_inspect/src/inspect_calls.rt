// Look, copy and watch, for any caller and any input.
// Paper: "A look gives one word of data memory .. a copy fills a buffer with all of it"; "the watch names a clock, from 0, ..".
// Arguments are checked first. None of them changes the record, so look and copy do not return it.
ghost use Rattle.trm_call_inspect.specs.Promises.{LookHolds, CopyHolds, WatchHolds};

use crate::inner::{find_write, memory};
use trm_call_refusals::inner::call_refusals;
use trm_call_refusals::refusal::Refusal;
use trm_run_machine::machine::Machine;

// One word of data memory.
#[tactic(auto, using(crate::proofs::Laws::Accepted::accepted), unfolding(crate::specs::Promises::look_gives))]
pub fn look(m: Machine, program: &[u32], store: &[u32], address: u32) -> Result<u32, Refusal>
    ensures { LookHolds m program.now store.now address result }
{
    call_refusals::look_refusal(m.scalars, program, &m.regs, &m.cache, store, address)?;
    Ok(memory::look(&m.cache, store, address))
}

// All of data memory, into a buffer as long as the store.
#[tactic(auto, using(crate::proofs::Laws::Accepted::accepted), unfolding(crate::specs::Promises::copy_gives))]
pub fn copy(m: Machine, program: &[u32], store: &[u32], buffer: &mut [u32]) -> Result<(), Refusal>
    ensures { CopyHolds m program.now store.now buffer.old result buffer.new }
{
    call_refusals::copy_refusal(m.scalars, program, &m.regs, &m.cache, store, buffer)?;
    memory::copy(&m.cache, store, buffer);
    Ok(())
}

// A clock of a run whose answer byte shows the device written, if there is one.
pub fn watch(bytes: &[u8], device: u32) -> Result<Option<u64>, Refusal>
    ensures { WatchHolds bytes.now device result }
{
    call_refusals::watch_refusal(device)?;
    Ok(find_write::find_write(bytes, device))
}
