// What an instruction reads, in code: registers, operands, the address it accesses, and the tests of the clock table.
// Paper: "What a programmer sees"; the clock table.
// All functions are in `inner`; they take the scalars by value and the registers by reference.
#![tactic(auto)]

pub mod inner;
