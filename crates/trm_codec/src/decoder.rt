// Decode: the instruction that an 18-bit word encodes.
// Paper: "Operation = bits 17-14, d = bits 13-11, s = bits 2-0 ..", and the format of each operation after it.
// Total: gives the instruction, or `None`, the refusal 3, for a word above 3FFFFH.
ghost use Rattle.std.specs.Prelude.{◌≡◌};
ghost use Rattle.trm_word.specs.Fields.{moves_high};
ghost use Rattle.trm_codec.specs.Decode.{operand_of, arithmetic_of, control_of, instruction_of};
ghost use Rattle.trm_codec.specs.Promises.{Decodes};

use crate::instruction::{Instruction, Operand, Operation};

// The largest word of 18 bits.
const LARGEST: u32 = 0x3FFFF;

// Whether a word is MOV from H: operation 0 with bits 10 and 3 both set.
fn moves_high(word: u32) -> bool
    ensures { result ≡ moves_high word }
{
    word / 0x4000 % 16 == 0 && word / 0x400 % 2 == 1 && word / 8 % 2 == 1
}

// The operand A of operations 0-10.
fn operand_of(word: u32) -> Operand
    ensures { result ≡ operand_of word }
{
    if word / 0x400 % 2 == 1 {
        Operand::Register(word % 8)
    } else {
        Operand::Literal(word % 0x400)
    }
}

// The instruction of a word whose operation is 0-10.
#[tactic(auto, unfolding(crate::specs::Decode::arithmetic_of))]
fn arithmetic(word: u32) -> Instruction
    ensures { result ≡ arithmetic_of word }
{
    let d = word / 0x800 % 8;
    if moves_high(word) {
        return Instruction::MoveHigh { d };
    }
    Instruction::Arithmetic {
        operation: Operation::from_number(word / 0x4000 % 16),
        d,
        operand: operand_of(word),
    }
}

// The instruction of a word whose operation is 11.
#[tactic(auto, unfolding(crate::specs::Decode::control_of))]
fn control(word: u32) -> Instruction
    ensures { result ≡ control_of word }
{
    if word / 0x400 % 2 == 0 {
        return Instruction::SetStatus { status: word % 16 };
    }
    let s = word % 8;
    match word / 0x100 % 4 {
        0 => Instruction::Jump { s },
        2 => Instruction::JumpAndLink {
            d: word / 0x800 % 8,
            s,
        },
        _ => Instruction::ReturnFromInterrupt { s },
    }
}

// The instruction of a word of 18 bits.
#[tactic(auto, unfolding(crate::specs::Decode::instruction_of))]
fn instruction(word: u32) -> Instruction
    ensures { result ≡ instruction_of word }
{
    let number = word / 0x4000 % 16;
    match number {
        0..=10 => arithmetic(word),
        11 => control(word),
        12 => Instruction::Load {
            d: word / 0x800 % 8,
            s: word % 8,
            offset: word / 8 % 256,
        },
        13 => Instruction::Store {
            d: word / 0x800 % 8,
            s: word % 8,
            offset: word / 8 % 256,
        },
        14 => Instruction::Branch {
            condition: word / 0x400 % 16,
            offset: word % 0x400,
        },
        _ => Instruction::Call {
            offset: word % 0x1000,
        },
    }
}

// The instruction that a word encodes; `None` if refused.
#[tactic(auto, using(crate::proofs::Laws::Numbers::decodes), unfolding(crate::specs::Decode::decode_of))]
pub fn decode(word: u32) -> Option<Instruction>
    ensures { Decodes word result }
{
    if LARGEST < word {
        None
    } else {
        Some(instruction(word))
    }
}
