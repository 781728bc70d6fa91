// An instruction as plain numbers: the number of its form, and a field for each part that some form has.
// Paper: "What a programmer sees", the format of each operation; row 10, "a field outside its width".
// A field that a form does not have must be 0.
ghost use Rattle.std.specs.Prelude.{◌≡◌};
ghost use Rattle.trm_codec.specs.Fields.{fields_of, instruction_at};

use crate::instruction::{Instruction, Operand, Operation};

// Forms: 0 an operation 0-10 on a register, 1 on a literal, 2 MOV from H, 3 a new status, 4 a jump, 5 a jump that links, 6 RTI, 7 LD,
// 8 ST, 9 a branch, 10 a call. `value` is the literal, the status or the offset, with the bits of the word.
// A number for the form and no enum: the C interface has this struct.
#[repr(C)]
#[derive(Clone, Copy, Default, PartialEq, Eq)]
pub struct Fields {
    pub form: u32,
    pub operation: u32,
    pub condition: u32,
    pub d: u32,
    pub s: u32,
    pub value: u32,
}

// The fields of an instruction.
impl From<Instruction> for Fields {
    ghost from_gives = { λ instruction fields. fields ≡ fields_of instruction };

    fn from(instruction: Instruction) -> Fields {
        let zeros = Fields::default();
        match instruction {
            Instruction::Arithmetic {
                operation,
                d,
                operand: Operand::Register(s),
            } => Fields {
                form: 0,
                operation: u32::from(operation),
                d,
                s,
                ..zeros
            },
            Instruction::Arithmetic {
                operation,
                d,
                operand: Operand::Literal(n),
            } => Fields {
                form: 1,
                operation: u32::from(operation),
                d,
                value: n,
                ..zeros
            },
            Instruction::MoveHigh { d } => Fields {
                form: 2,
                d,
                ..zeros
            },
            Instruction::SetStatus { status } => Fields {
                form: 3,
                value: status,
                ..zeros
            },
            Instruction::Jump { s } => Fields {
                form: 4,
                s,
                ..zeros
            },
            Instruction::JumpAndLink { d, s } => Fields {
                form: 5,
                d,
                s,
                ..zeros
            },
            Instruction::ReturnFromInterrupt { s } => Fields {
                form: 6,
                s,
                ..zeros
            },
            Instruction::Load { d, s, offset } => Fields {
                form: 7,
                d,
                s,
                value: offset,
                ..zeros
            },
            Instruction::Store { d, s, offset } => Fields {
                form: 8,
                d,
                s,
                value: offset,
                ..zeros
            },
            Instruction::Branch { condition, offset } => Fields {
                form: 9,
                condition,
                value: offset,
                ..zeros
            },
            Instruction::Call { offset } => Fields {
                form: 10,
                value: offset,
                ..zeros
            },
        }
    }
}

impl Fields {
    // The instruction of these fields; those that the form does not have are ignored.
    pub fn instruction(self) -> Instruction
        ensures { result ≡ instruction_at self }
    {
        match self.form {
            0 => Instruction::Arithmetic {
                operation: Operation::from_number(self.operation),
                d: self.d,
                operand: Operand::Register(self.s),
            },
            1 => Instruction::Arithmetic {
                operation: Operation::from_number(self.operation),
                d: self.d,
                operand: Operand::Literal(self.value),
            },
            2 => Instruction::MoveHigh { d: self.d },
            3 => Instruction::SetStatus { status: self.value },
            4 => Instruction::Jump { s: self.s },
            5 => Instruction::JumpAndLink {
                d: self.d,
                s: self.s,
            },
            6 => Instruction::ReturnFromInterrupt { s: self.s },
            7 => Instruction::Load {
                d: self.d,
                s: self.s,
                offset: self.value,
            },
            8 => Instruction::Store {
                d: self.d,
                s: self.s,
                offset: self.value,
            },
            9 => Instruction::Branch {
                condition: self.condition,
                offset: self.value,
            },
            _ => Instruction::Call { offset: self.value },
        }
    }
}
