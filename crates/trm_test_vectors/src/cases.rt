// The kinds of case: what each asks of the library, and how the answer is printed.
// A operation B A CV; M steps B A; D steps B A; C condition NZCV; E s register offset; P address length;
// T operation; W word; I form field field field; N; U length device bytes, the watch; the other letters belong to scripts
// (machine_cases.rt).
use crate::{arithmetic, machine_cases, word_cases};
use std::io;
use trm_test_cases::inner::case_text::Case;
use trm_test_cases::inner::print;
use trm_word::inner::address;
use trm_word::inner::address::Place;

// Answers a case that does not belong to a script; prints nothing for any other letter.
pub fn answer(rt: &impl Print, c: Case) -> io::Result<()> {
    match c.kind {
        b'A' => arithmetic::operation(rt, c.w0, c.w1, c.w2, c.w3),
        b'M' => arithmetic::multiplier(rt, c.w0, c.w1, c.w2),
        b'D' => arithmetic::divider(rt, c.w0, c.w1, c.w2),
        b'C' => condition(rt, c.w0, c.w1),
        b'E' => effective_address(rt, c.w0, c.w1, c.w2),
        b'P' => place(rt, c.w0, c.w1),
        b'T' => charge(rt, c.w0),
        b'W' => word_cases::decode(rt, c.w0),
        b'I' => word_cases::encode(rt, c.w0, c.w1, c.w2, c.w3),
        b'N' => word_cases::count_canonical(rt),
        b'U' => machine_cases::watch(rt, c.w0, c.w1, c.w2),
        _ => Ok(()),
    }
}

// The flags are bits 3-0, in the order N Z C V.
fn condition(rt: &impl Print, k: u32, flags: u32) -> io::Result<()> {
    let holds = trm_word::inner::condition::condition_holds(
        k as u64,
        (flags / 8 % 2) as u64,
        (flags / 4 % 2) as u64,
        (flags / 2 % 2) as u64,
        (flags % 2) as u64,
    );
    print::text(rt, if holds { b"holds" } else { b"fails" })
}

fn effective_address(rt: &impl Print, s: u32, register: u32, offset: u32) -> io::Result<()> {
    let base = address::base_of(s, register);
    print::hex(rt, address::effective_address(base, offset), 4)
}

fn place(rt: &impl Print, at: u32, length: u32) -> io::Result<()> {
    if !address::store_length_ok(length as u64) {
        return print::text(rt, b"no length");
    }
    match address::place_of(at as u64, length as u64) {
        Place::Device(n) => print!(rt; " device {n}"),
        Place::Memory(n) => print!(rt; " memory {n}"),
    }
}

fn charge(rt: &impl Print, operation: u32) -> io::Result<()> {
    if operation < 16 {
        print::decimal(rt, trm_word::inner::charge::base_charge(operation as usize))?;
    }
    Ok(())
}
