// Instructions as values, and the numbers of the operations 0-10.
// Paper: "What a programmer sees", the format of each operation; "0 MOV .. 1 NOT A. 2 ADD. 3 SUB .." and so on to 10 ROR.
// Every field has a type wider than its width in the word, so encode checks each.
ghost use Rattle.std.specs.Prelude.{◌≡◌, ◌<◌};
ghost use Rattle.trm_codec.specs.Operations.{number_of, operation_at};

// The operations 0-10, in the order of their numbers.
#[derive(Clone, Copy)]
pub enum Operation {
    Mov,
    Not,
    Add,
    Sub,
    And,
    Bic,
    Or,
    Xor,
    Mul,
    Div,
    Ror,
}

impl Operation {
    // The operation 0-10 of this number; ROR, the last, for a number above 10.
    // Total, and no TryFrom: in the decoder, which gives it 0-10 only, no input would reach the error.
    pub fn from_number(number: u32) -> Operation
        ensures { result ≡ operation_at number }
    {
        match number {
            0 => Operation::Mov,
            1 => Operation::Not,
            2 => Operation::Add,
            3 => Operation::Sub,
            4 => Operation::And,
            5 => Operation::Bic,
            6 => Operation::Or,
            7 => Operation::Xor,
            8 => Operation::Mul,
            9 => Operation::Div,
            _ => Operation::Ror,
        }
    }
}

// The number of an operation 0-10.
impl From<Operation> for u32 {
    ghost from_gives = { λ operation number. (number ≡ number_of operation) × (number < 11) };

    fn from(operation: Operation) -> u32 {
        match operation {
            Operation::Mov => 0,
            Operation::Not => 1,
            Operation::Add => 2,
            Operation::Sub => 3,
            Operation::And => 4,
            Operation::Bic => 5,
            Operation::Or => 6,
            Operation::Xor => 7,
            Operation::Mul => 8,
            Operation::Div => 9,
            Operation::Ror => 10,
        }
    }
}

// The operand A of operations 0-10: R.s, or the literal without sign.
#[derive(Clone, Copy)]
pub enum Operand {
    Register(u32),
    Literal(u32),
}

// Each field has the bits of the word; the ten bits of a branch's offset are two's complement.
#[derive(Clone, Copy)]
pub enum Instruction {
    Arithmetic {
        operation: Operation,
        d: u32,
        operand: Operand,
    },
    MoveHigh {
        d: u32,
    },
    SetStatus {
        status: u32,
    },
    Jump {
        s: u32,
    },
    JumpAndLink {
        d: u32,
        s: u32,
    },
    ReturnFromInterrupt {
        s: u32,
    },
    Load {
        d: u32,
        s: u32,
        offset: u32,
    },
    Store {
        d: u32,
        s: u32,
        offset: u32,
    },
    Branch {
        condition: u32,
        offset: u32,
    },
    Call {
        offset: u32,
    },
}
