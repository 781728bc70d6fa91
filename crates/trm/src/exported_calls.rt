// The calls for C: a slice is a pointer and a length, the record is passed by value.
// Paper: "Where calls are turned down"; "The clock call takes the record and returns it"; runs, look, copy and watch.
// Each is the call of trm_calls or trm_call_inspect with the refusal number in place of the enum.
ghost use Rattle.trm.specs.Promises.{ResetNumbered, ClockNumbered, RunNumbered, LookNumbered, CopyNumbered, WatchNumbered};

use crate::exported_answers::{ClockAnswer, LookAnswer, ResetAnswer, RunAnswer, WatchAnswer};
use crate::inner::empty;
use trm_run_machine::machine::Machine;

// The record after a reset, for this store.
#[tactic(auto, using(trm_call_refusals::proofs::Laws::refused), unfolding(trm_calls::specs::Promises::reset_gives))]
pub fn trm_reset(store: &[u32]) -> ResetAnswer
    ensures { ResetNumbered store.now result }
{
    match trm_calls::machine_calls::reset(store) {
        Ok(machine) => ResetAnswer {
            machine: machine,
            number: 0,
        },
        Err(refused) => ResetAnswer {
            machine: empty::empty_record(),
            number: u32::from(refused),
        },
    }
}

// One clock, with the record by value.
pub fn trm_clock_value(
    m: Machine,
    program: &[u32],
    store: &mut [u32],
    pins: u8,
    input: u32,
) -> ClockAnswer
    ensures { ClockNumbered m program.now store.old pins input result store.new }
{
    match trm_calls::machine_calls::clock(m, program, store, pins, input) {
        Ok(r) => ClockAnswer {
            machine: r.machine,
            number: 0,
            byte: r.byte,
            word: r.word,
            finished: r.finished, // 0 or 1
        },
        Err(refused) => ClockAnswer {
            machine: m,
            number: u32::from(refused),
            byte: 0,
            word: 0,
            finished: 0,
        },
    }
}

// One clock for each line byte.
pub fn trm_run(
    m: Machine,
    program: &[u32],
    store: &mut [u32],
    pins: &[u8],
    inputs: &[u32],
    bytes: &mut [u8],
    words: &mut [u32],
) -> RunAnswer
    ensures { RunNumbered m program.now store.old pins.now inputs.now bytes.old words.old result store.new bytes.new words.new }
{
    match trm_calls::machine_calls::run(m, program, store, pins, inputs, bytes, words) {
        Ok(r) => RunAnswer {
            machine: r.machine,
            number: 0,
            used: r.used,
            finished: r.finished,
        },
        Err(refused) => RunAnswer {
            machine: m,
            number: u32::from(refused),
            used: 0,
            finished: 0,
        },
    }
}

// One word of data memory, as seen through the cache.
#[tactic(auto, using(trm_call_refusals::proofs::Laws::refused), unfolding(trm_call_inspect::specs::Promises::look_gives))]
pub fn trm_look(m: Machine, program: &[u32], store: &[u32], address: u32) -> LookAnswer
    ensures { LookNumbered m program.now store.now address result }
{
    match trm_call_inspect::inspect_calls::look(m, program, store, address) {
        Ok(word) => LookAnswer {
            number: 0,
            word: word,
        },
        Err(refused) => LookAnswer {
            number: u32::from(refused),
            word: 0,
        },
    }
}

// All of data memory, as seen through the cache; returns only the refusal number.
pub fn trm_copy(m: Machine, program: &[u32], store: &[u32], buffer: &mut [u32]) -> u32
    ensures { CopyNumbered m program.now store.now buffer.old result buffer.new }
{
    match trm_call_inspect::inspect_calls::copy(m, program, store, buffer) {
        Ok(()) => 0,
        Err(refused) => u32::from(refused),
    }
}

// A clock whose answer byte shows a write to the device, if there is one.
pub fn trm_watch(bytes: &[u8], device: u32) -> WatchAnswer
    ensures { WatchNumbered bytes.now device result }
{
    match trm_call_inspect::inspect_calls::watch(bytes, device) {
        Ok(Some(k)) => WatchAnswer {
            number: 0,
            found: 1,
            clock: k,
        },
        Ok(None) => WatchAnswer {
            number: 0,
            found: 0,
            clock: 0,
        },
        Err(refused) => WatchAnswer {
            number: u32::from(refused),
            found: 0,
            clock: 0,
        },
    }
}
