// The constant table of sixteen base charges by operation.
// Paper: "A constant table of sixteen base charges by operation, read by the clock engine and the charge definition".
// A definition cannot read a constant of the code, so specs/Charge.antt has the same list, proved equal (D-23).
ghost use Rattle.std.specs.Prelude.{◌≡◌, ◌<◌};
ghost use Rattle.trm_word.specs.Charge.{charges, charge_of};
ghost use Rattle.trm_word.specs.Fields.{operation};

pub const BASE_CHARGES: [u64; 16] = [
    1, // 0 MOV
    1, // 1 NOT
    1, // 2 ADD
    1, // 3 SUB
    1, // 4 AND
    1, // 5 BIC
    1, // 6 OR
    1, // 7 XOR
    33, // 8 MUL: 32 steps, then the result
    33, // 9 DIV: 32 steps, then the result
    1, // 10 ROR
    1, // 11 status
    2, // 12 LD, device or hit
    1, // 13 ST, device or hit
    1, // 14 branch, not taken
    2, // 15 call
];

// The base charge of an operation.
pub fn base_charge(operation: usize) -> u64
    requires { operation < 16 }
    ensures { result ≡ charge_of operation }
{
    BASE_CHARGES[operation]
}

// The table as a value: a loop over clocks makes it once and lends it (D-54).
#[derive(Clone, Copy)]
pub struct Charges {
    pub table: [u64; 16],
    pub ghost papers: { table ≡ charges },
}

impl Charges {
    pub fn new() -> Charges
        ensures { result.table ≡ charges }
    {
        Charges {
            table: BASE_CHARGES,
        }
    }

    // The base charge of a word.
    pub fn of(&self, w: u32) -> u64
        ensures { result ≡ charge_of (operation w) }
    {
        self.table[(w / 0x4000 % 16) as usize]
    }
}
