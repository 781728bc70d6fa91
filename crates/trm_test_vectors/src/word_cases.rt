// Cases on words: decode with the instruction's fields, encode of any fields, and a count over all words.
// Paper: the formats; "Unused bits encode as zero"; rows 3 and 10 of the refusals.
// Forms: 0 register, 1 literal, 2 MOV H, 3 status, 4 jump, 5 jump and link, 6 RTI, 7 LD, 8 ST, 9 branch, 10 call.
use std::io;
use trm_codec::instruction::{Instruction, Operand, Operation};
use trm_codec::{decoder, encoder};
use trm_test_cases::inner::print;

// Prints a form with its fields; those that it does not have are 0.
fn show(rt: &impl Print, form: u64, x: u32, y: u32, z: u32) -> io::Result<()> {
    print::decimal(rt, form)?;
    print::hex(rt, x as u64, 1)?;
    print::hex(rt, y as u64, 1)?;
    print::hex(rt, z as u64, 1)
}

fn show_instruction(rt: &impl Print, i: Instruction) -> io::Result<()> {
    match i {
        Instruction::Arithmetic {
            operation,
            d,
            operand: Operand::Register(s),
        } => show(rt, 0, u32::from(operation), d, s),
        Instruction::Arithmetic {
            operation,
            d,
            operand: Operand::Literal(n),
        } => show(rt, 1, u32::from(operation), d, n),
        Instruction::MoveHigh { d } => show(rt, 2, d, 0, 0),
        Instruction::SetStatus { status } => show(rt, 3, status, 0, 0),
        Instruction::Jump { s } => show(rt, 4, s, 0, 0),
        Instruction::JumpAndLink { d, s } => show(rt, 5, d, s, 0),
        Instruction::ReturnFromInterrupt { s } => show(rt, 6, s, 0, 0),
        Instruction::Load { d, s, offset } => show(rt, 7, d, s, offset),
        Instruction::Store { d, s, offset } => show(rt, 8, d, s, offset),
        Instruction::Branch { condition, offset } => show(rt, 9, condition, offset, 0),
        Instruction::Call { offset } => show(rt, 10, offset, 0, 0),
    }
}

fn show_encoded(rt: &impl Print, i: Instruction) -> io::Result<()> {
    match encoder::encode(i) {
        Some(w) => print::hex(rt, w as u64, 5),
        None => print::text(rt, b"refused 10"),
    }
}

// Prints the form and the fields of a word, then the word that the instruction encodes to.
pub fn decode(rt: &impl Print, w: u32) -> io::Result<()> {
    match decoder::decode(w) {
        Some(i) => {
            show_instruction(rt, i)?;
            show_encoded(rt, i)
        }
        None => print::text(rt, b"refused 3"),
    }
}

fn made(form: u32, x: u32, y: u32, z: u32) -> Instruction {
    match form {
        0 => Instruction::Arithmetic {
            operation: Operation::from_number(x),
            d: y,
            operand: Operand::Register(z),
        },
        1 => Instruction::Arithmetic {
            operation: Operation::from_number(x),
            d: y,
            operand: Operand::Literal(z),
        },
        2 => Instruction::MoveHigh { d: x },
        3 => Instruction::SetStatus { status: x },
        4 => Instruction::Jump { s: x },
        5 => Instruction::JumpAndLink { d: x, s: y },
        6 => Instruction::ReturnFromInterrupt { s: x },
        7 => Instruction::Load {
            d: x,
            s: y,
            offset: z,
        },
        8 => Instruction::Store {
            d: x,
            s: y,
            offset: z,
        },
        9 => Instruction::Branch {
            condition: x,
            offset: y,
        },
        _ => Instruction::Call { offset: x },
    }
}

pub fn encode(rt: &impl Print, form: u32, x: u32, y: u32, z: u32) -> io::Result<()> {
    show_encoded(rt, made(form, x, y, z))
}

// Whether a word decodes to an instruction that encodes to the same word.
fn canonical(w: u32) -> bool {
    decoder::decode(w).and_then(encoder::encode) == Some(w)
}

// How many of the 2^18 words have no unused bit set: as many as there are instructions.
pub fn count_canonical(rt: &impl Print) -> io::Result<()> {
    let count = (0..0x40000).filter(|w| canonical(*w)).count();
    print::decimal(rt, count as u64)
}
