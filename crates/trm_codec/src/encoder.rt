// Encode: the 18-bit word of an instruction, its unused bits zero.
// Paper: "Unused bits encode as zero; RTI encodes as 01"; row 10 of the refusals, "a field outside its width".
// Total: gives the word, or `None`, the refusal 10.
ghost use Rattle.std.specs.Prelude.{◌≡◌, ltb, ◌+◌, ◌^◌, ◌<◌};
ghost use Rattle.trm_codec.specs.Encode.{encoded_as, operand_fits, operand_placed, memory_encoded};
ghost use Rattle.trm_codec.specs.Promises.{Encodes};

use crate::instruction::{Instruction, Operand};

// A field, if it fits its width; `limit` is the first value that does not.
fn within(field: u32, limit: u32) -> Option<u32>
    ensures { result ≡ encoded_as (ltb field limit) field }
{
    (field < limit).then_some(field)
}

// The operand A of an operation 0-10; bit 10 is set for a register.
fn operand_bits(operand: Operand) -> Option<u32>
    ensures { result ≡ encoded_as (operand_fits operand) (operand_placed operand) }
{
    match operand {
        Operand::Register(s) => Some(0x400 + within(s, 8)?),
        Operand::Literal(n) => within(n, 0x400),
    }
}

// The word of LD (12) or ST (13).
fn memory_word(number: u32, d: u32, s: u32, offset: u32) -> Option<u32>
    requires { number < 16 }
    ensures { result ≡ memory_encoded number d s offset }
{
    Some(number * 0x4000 + within(d, 8)? * 0x800 + within(offset, 0x100)? * 8 + within(s, 8)?)
}

// The word of an instruction, unused bits zero; `None` if refused.
#[tactic(auto, using(crate::proofs::Laws::Numbers::encodes), unfolding(crate::specs::Encode::encode_of))]
pub fn encode(instruction: Instruction) -> Option<u32>
    ensures { Encodes instruction result }
{
    match instruction {
        Instruction::Arithmetic {
            operation,
            d,
            operand,
        } => Some(u32::from(operation) * 0x4000 + within(d, 8)? * 0x800 + operand_bits(operand)?),
        Instruction::MoveHigh { d } => Some(within(d, 8)? * 0x800 + 0x408),
        Instruction::SetStatus { status } => Some(0x2C000 + within(status, 16)?),
        Instruction::Jump { s } => Some(0x2C400 + within(s, 8)?),
        Instruction::JumpAndLink { d, s } => Some(0x2C600 + within(d, 8)? * 0x800 + within(s, 8)?),
        Instruction::ReturnFromInterrupt { s } => Some(0x2C500 + within(s, 8)?),
        Instruction::Load { d, s, offset } => memory_word(12, d, s, offset),
        Instruction::Store { d, s, offset } => memory_word(13, d, s, offset),
        Instruction::Branch { condition, offset } => {
            Some(0x38000 + within(condition, 16)? * 0x400 + within(offset, 0x400)?)
        }
        Instruction::Call { offset } => Some(0x3C000 + within(offset, 0x1000)?),
    }
}
