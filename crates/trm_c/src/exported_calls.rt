// The calls, exported to C: each is the function of that name of the crate trm, with its clauses.
ghost use Rattle.trm.specs.Promises.{ResetNumbered, ClockNumbered, RunNumbered, LookNumbered, CopyNumbered, WatchNumbered};

use trm::exported_answers::{ClockAnswer, LookAnswer, ResetAnswer, RunAnswer, WatchAnswer};
use trm_run_machine::machine::Machine;

// The record after a reset, for this store.
#[unsafe(no_mangle)]
pub extern "C" fn trm_reset(store: &[u32]) -> ResetAnswer
    ensures { ResetNumbered store.now result }
{
    trm::exported_calls::trm_reset(store)
}

// One clock, with the record by value.
#[unsafe(no_mangle)]
pub extern "C" fn trm_clock_value(
    m: Machine,
    program: &[u32],
    store: &mut [u32],
    pins: u8,
    input: u32,
) -> ClockAnswer
    ensures { ClockNumbered m program.now store.old pins input result store.new }
{
    trm::exported_calls::trm_clock_value(m, program, store, pins, input)
}

// One clock for each line byte.
#[unsafe(no_mangle)]
pub extern "C" fn trm_run(
    m: Machine,
    program: &[u32],
    store: &mut [u32],
    pins: &[u8],
    inputs: &[u32],
    bytes: &mut [u8],
    words: &mut [u32],
) -> RunAnswer
    ensures { RunNumbered m program.now store.old pins.now inputs.now
        bytes.old words.old result store.new bytes.new words.new }
{
    trm::exported_calls::trm_run(m, program, store, pins, inputs, bytes, words)
}

// One word of data memory, as seen through the cache.
#[unsafe(no_mangle)]
pub extern "C" fn trm_look(m: Machine, program: &[u32], store: &[u32], address: u32) -> LookAnswer
    ensures { LookNumbered m program.now store.now address result }
{
    trm::exported_calls::trm_look(m, program, store, address)
}

// All of data memory, as seen through the cache; returns only the refusal number.
#[unsafe(no_mangle)]
pub extern "C" fn trm_copy(m: Machine, program: &[u32], store: &[u32], buffer: &mut [u32]) -> u32
    ensures { CopyNumbered m program.now store.now buffer.old result buffer.new }
{
    trm::exported_calls::trm_copy(m, program, store, buffer)
}

// A clock whose answer byte shows a write to the device, if there is one.
#[unsafe(no_mangle)]
pub extern "C" fn trm_watch(bytes: &[u8], device: u32) -> WatchAnswer
    ensures { WatchNumbered bytes.now device result }
{
    trm::exported_calls::trm_watch(bytes, device)
}
