// Instruction execution, in code: what an instruction does to the registers, H, the flags, the status and PC.
// Paper: "What a programmer sees", the list from 0 MOV to 15.
// All functions are in `inner`; they take the scalars by value and the registers by reference.
#![tactic(auto)]

pub mod inner;
