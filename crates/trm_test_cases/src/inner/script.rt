// The kinds of case that every script can have: record, program and store live from case to case; an input line with # is a heading.
// L program store: how many words of each are lent from now on. J list from count word: fills a part of the program (0) or of the
// store (1). F field high low: sets a field of the record; V field: prints one (fields.rt). K line input: the clock call.
// A call prints its refusal number (0: not refused), then what it reports.
use crate::inner::case_text::Case;
use crate::inner::{digest, fields, lists, print};
use std::io;
use trm_call_refusals::refusal::Refusal;
use trm_calls::machine_calls;
use trm_run_machine::clock_answer::Clock;
use trm_run_machine::machine::Machine;

// How many words of the program and of the store are lent.
// Program and store are no fields beside these: tried, and a function that lends a part of each through one `&mut` has no generated proof.
#[derive(Clone, Copy, Default)]
pub struct Lent {
    pub program: u32,
    pub store: u32,
}

// The case L.
pub fn lent_after(c: Case, lent: Lent) -> Lent {
    if c.kind == b'L' {
        Lent {
            program: c.w0,
            store: c.w1,
        }
    } else {
        lent
    }
}

// The case J.
pub fn fill(c: Case, program: &mut [u32], store: &mut [u32]) {
    match (c.kind, c.w0) {
        (b'J', 0) => lists::fill(program, c.w1, c.w2, c.w3),
        (b'J', _) => lists::fill(store, c.w1, c.w2, c.w3),
        _ => {}
    }
}

// The value that a case gives to a field.
pub fn value_of(c: Case) -> u64 {
    c.w1 as u64 * 0x1_0000_0000 + c.w2 as u64
}

// The cases F and V.
pub fn on_record(rt: &impl Print, c: Case, m: Machine) -> io::Result<Machine> {
    let which = c.w0 as usize;
    match c.kind {
        b'F' => return Ok(fields::with_field(m, which, value_of(c))),
        b'V' => print::hex(rt, fields::field(m, which), 1)?,
        _ => {}
    }
    Ok(m)
}

// The number of a call's result: 0 if it was accepted.
pub fn number_in<T>(outcome: &Result<T, Refusal>) -> u64 {
    match outcome {
        Ok(_) => 0,
        Err(refused) => u32::from(*refused) as u64,
    }
}

// Prints digests of the whole record and of the store.
pub fn show_all(rt: &impl Print, m: Machine, store: &[u32]) -> io::Result<()> {
    print::hex(rt, fields::digest_of(m), 8)?;
    print::hex(rt, digest::of(store), 8)
}

pub fn show_answer(rt: &impl Print, byte: u8, word: u32) -> io::Result<()> {
    print::hex(rt, byte as u64, 2)?;
    print::word(rt, word)
}

fn show_clock(rt: &impl Print, r: Clock, store: &[u32]) -> io::Result<()> {
    show_answer(rt, r.byte, r.word)?;
    print::decimal(rt, r.finished)?;
    show_all(rt, r.machine, store)
}

// The case K, c.w0 being the line byte and c.w1 the input word: prints the number, the answer byte and word, 1 if an instruction
// finished, and the digests.
pub fn clock(
    rt: &impl Print,
    c: Case,
    m: Machine,
    program: &[u32],
    store: &mut [u32],
) -> io::Result<Machine> {
    let outcome = machine_calls::clock(m, program, store, (c.w0 % 256) as u8, c.w1);
    print::decimal(rt, number_in(&outcome))?;
    let r = outcome.unwrap_or(Clock {
        machine: m,
        byte: 0,
        word: 0,
        finished: 0,
    });
    show_clock(rt, r, store)?;
    Ok(r.machine)
}
