// The fields of the machine record by number: set, printed and digested, so that a script can build any record and check all of one.
// 0 PC, 1 H, 2 N, 3 Z, 4 C, 5 V, 6 status, 7 phase, 8 count, 9 product, 10 remainder, 11 quotient, 12 size, 13 clocks, 14 held,
// 15 refills, 16 write-backs; from 17 the registers; of each cache line from 33 full, from 49 dirty, from 65 block; from 81 the words.
use crate::inner::digest;
use trm_core::record::Scalars;
use trm_run_machine::machine::Machine;

const FIELDS: usize = 209;

fn low(x: u64) -> u32 {
    (x % 0x1_0000_0000) as u32
}

// A field that is not in an array; 0 for another number.
// Two matches, to read and to set: a reference to the field would have two types, u32 and u64, and is no plainer.
fn scalar(c: Scalars, which: usize) -> u64 {
    match which {
        0 => c.pc,
        1 => c.h as u64,
        2 => c.n,
        3 => c.z,
        4 => c.c,
        5 => c.v,
        6 => c.status,
        7 => c.running.phase,
        8 => c.running.count,
        9 => c.running.product,
        10 => c.running.remainder,
        11 => c.running.quotient,
        12 => c.size as u64,
        13 => c.counts.clocks,
        14 => c.counts.held,
        15 => c.counts.refills,
        16 => c.counts.writebacks,
        _ => 0,
    }
}

// Sets such a field, cut to its type.
fn with_scalar(mut c: Scalars, which: usize, value: u64) -> Scalars {
    match which {
        0 => c.pc = value,
        1 => c.h = low(value),
        2 => c.n = value,
        3 => c.z = value,
        4 => c.c = value,
        5 => c.v = value,
        6 => c.status = value,
        7 => c.running.phase = value,
        8 => c.running.count = value,
        9 => c.running.product = value,
        10 => c.running.remainder = value,
        11 => c.running.quotient = value,
        12 => c.size = low(value),
        13 => c.counts.clocks = value,
        14 => c.counts.held = value,
        15 => c.counts.refills = value,
        16 => c.counts.writebacks = value,
        _ => {}
    }
    c
}

// Any field; 0 if there is none of this number.
pub fn field(m: Machine, which: usize) -> u64 {
    match which {
        17..=32 => m.regs[which - 17] as u64,
        33..=48 => m.cache.full[which - 33] as u64,
        49..=64 => m.cache.dirty[which - 49] as u64,
        65..=80 => m.cache.block[which - 65] as u64,
        81..=208 => m.cache.words[which - 81] as u64,
        _ => scalar(m.scalars, which),
    }
}

// The record with one field set; unchanged if there is none of this number.
pub fn with_field(mut m: Machine, which: usize, value: u64) -> Machine {
    match which {
        17..=32 => m.regs[which - 17] = low(value),
        33..=48 => m.cache.full[which - 33] = (value % 256) as u8,
        49..=64 => m.cache.dirty[which - 49] = (value % 256) as u8,
        65..=80 => m.cache.block[which - 65] = (value % 65536) as u16,
        81..=208 => m.cache.words[which - 81] = low(value),
        _ => m.scalars = with_scalar(m.scalars, which, value),
    }
    m
}

// The digest of all fields, in the order of their numbers.
pub fn digest_of(m: Machine) -> u64 {
    (0..FIELDS).fold(0, |d, which| digest::mixed(d, field(m, which)))
}
