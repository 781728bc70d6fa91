// The kinds of case on the machine of a script: reset, run, look, copy and watch, with any lengths.
// Paper: "The clock call takes the record and returns it"; "A run carries out one clock per line byte"; "A look gives one word ..".
// R: reset. Z: a run, with the words described at `run`. O address: look. Y length at: copy. H at: prints a word of the store itself.
// K, L, J, F and V are those of any script (script.rt of trm_test_cases). Answer buffers hold A5H in every byte before a call.
use std::io;
use trm_call_inspect::inspect_calls as inspect;
use trm_calls::call_answers::Run;
use trm_calls::machine_calls;
use trm_run_machine::inner::zero_record;
use trm_run_machine::machine::Machine;
use trm_test_cases::inner::case_text::Case;
use trm_test_cases::inner::script::Lent;
use trm_test_cases::inner::{digest, lists, print, script};

// The record of a reset with 64 words.
pub fn start() -> Machine {
    let store = [0u32; 64];
    zero_record::zero_record(&store)
}

// A reset: prints its number. If refused, the script keeps its record.
fn reset(rt: &impl Print, m: Machine, store: &[u32]) -> io::Result<Machine> {
    let outcome = machine_calls::reset(store);
    print::decimal(rt, script::number_in(&outcome))?;
    let next = outcome.unwrap_or(m);
    script::show_all(rt, next, store)?;
    Ok(next)
}

fn show_run(rt: &impl Print, r: Run, store: &[u32]) -> io::Result<()> {
    print::decimal(rt, r.used)?;
    print::decimal(rt, r.finished)?;
    script::show_all(rt, r.machine, store)
}

// Prints digests of both answer buffers, and the watch over the answer bytes.
fn show_buffers(rt: &impl Print, bytes: &[u8], words: &[u32], device: u32) -> io::Result<()> {
    print::hex(rt, digest::of(bytes), 8)?;
    print::hex(rt, digest::of(words), 8)?;
    show_watch(rt, bytes, device)
}

// A run, and then the watch.
fn run_watched(
    rt: &impl Print,
    m: Machine,
    program: &[u32],
    store: &mut [u32],
    pins: &[u8],
    inputs: &[u32],
    bytes: &mut [u8],
    words: &mut [u32],
    device: u32,
) -> io::Result<Machine> {
    let outcome = machine_calls::run(m, program, store, pins, inputs, bytes, words);
    print::decimal(rt, script::number_in(&outcome))?;
    let r = outcome.unwrap_or(Run {
        machine: m,
        used: 0,
        finished: 0,
    });
    show_run(rt, r, store)?;
    show_buffers(rt, bytes, words, device)?;
    Ok(r.machine)
}

// A run of c.w0 clocks, at most 65,537. Of c.w1 bits 3-0 give the number of input words: c.w0 plus these bits less 1; bits 7-4 likewise
// the answer bytes, bits 11-8 the answer words; the bits above are the device that is watched. Of c.w2 bits 7-0 are the line byte of every
// clock except clock number bits 31-16, whose line byte is bits 15-8. c.w3 is the input word of every clock.
// Prints the number, the clocks used, the instructions finished, the digests, the buffers, the watch and the answer of clock c.w2 / 65536.
fn run(
    rt: &impl Print,
    c: Case,
    m: Machine,
    program: &[u32],
    store: &mut [u32],
) -> io::Result<Machine> {
    let at = (c.w2 / 65536) as usize;
    let pins = lists::bytes_but_one(c.w2);
    let inputs = lists::filled(c.w3);
    let mut bytes = lists::filled(0xA5);
    let mut words = lists::filled(0xA5A5A5A5);
    let n = lists::length_of(c.w0, 1);
    let i = lists::length_of(c.w0, c.w1 % 16);
    let j = lists::length_of(c.w0, c.w1 / 16 % 16);
    let k = lists::length_of(c.w0, c.w1 / 256 % 16);
    let next = run_watched(
        rt,
        m,
        program,
        store,
        &pins[..n],
        &inputs[..i],
        &mut bytes[..j],
        &mut words[..k],
        c.w1 / 4096,
    )?;
    script::show_answer(rt, bytes[at], words[at])?;
    Ok(next)
}

// A look at one word of data memory.
fn look(
    rt: &impl Print,
    m: Machine,
    program: &[u32],
    store: &[u32],
    address: u32,
) -> io::Result<()> {
    let outcome = inspect::look(m, program, store, address);
    print::decimal(rt, script::number_in(&outcome))?;
    print::word(rt, outcome.unwrap_or(0))
}

// A copy into a buffer: prints the number and a digest of the buffer.
fn show_copy(
    rt: &impl Print,
    m: Machine,
    program: &[u32],
    store: &[u32],
    buffer: &mut [u32],
) -> io::Result<()> {
    let outcome = inspect::copy(m, program, store, buffer);
    print::decimal(rt, script::number_in(&outcome))?;
    print::hex(rt, digest::of(buffer), 8)
}

// A copy into a buffer of `length` words, at most 65,537; then prints word `at` of the buffer.
fn copy(
    rt: &impl Print,
    m: Machine,
    program: &[u32],
    store: &[u32],
    length: u32,
    at: u32,
) -> io::Result<()> {
    let mut buffer = lists::filled(0xA5A5A5A5);
    let n = length as usize % 65538;
    let i = at as usize % 65537;
    show_copy(rt, m, program, store, &mut buffer[..n])?;
    print::word(rt, buffer[i])
}

// Prints the watch's number, and the clock or `none`.
fn show_watch(rt: &impl Print, bytes: &[u8], device: u32) -> io::Result<()> {
    let outcome = inspect::watch(bytes, device);
    print::decimal(rt, script::number_in(&outcome))?;
    match outcome {
        Ok(Some(k)) => print::decimal(rt, k),
        _ => print::text(rt, b"none"),
    }
}

// A watch for a device over `length` answer bytes, at most 65,537; w gives them as it gives the line bytes of a run.
pub fn watch(rt: &impl Print, length: u32, device: u32, w: u32) -> io::Result<()> {
    let bytes = lists::bytes_but_one(w);
    let n = length as usize % 65538;
    show_watch(rt, &bytes[..n], device)
}

// The cases with the part of program and store that is lent.
pub fn on_lent(
    rt: &impl Print,
    c: Case,
    lent: Lent,
    m: Machine,
    program: &[u32],
    store: &mut [u32],
) -> io::Result<Machine> {
    let p = lists::within(program, lent.program);
    let n = lists::within(store, lent.store);
    called(rt, c, m, &program[..p], &mut store[..n])
}

fn called(
    rt: &impl Print,
    c: Case,
    m: Machine,
    program: &[u32],
    store: &mut [u32],
) -> io::Result<Machine> {
    match c.kind {
        b'R' => return reset(rt, m, store),
        b'K' => return script::clock(rt, c, m, program, store),
        b'Z' => return run(rt, c, m, program, store),
        b'O' => look(rt, m, program, store, c.w0)?,
        b'Y' => copy(rt, m, program, store, c.w0, c.w1)?,
        b'H' => lists::show(rt, store, c.w0)?,
        _ => {}
    }
    Ok(m)
}
