// Arithmetic functions that other crates use; a function in `inner` may have a `requires`.
// Operands: `a` is A, the register R.s, the literal, or H for MOV from H (`operand_a` of trm_reference); `b` is B, the register R.d.
// Flags are numbers, 0 or 1.
pub mod bits;
pub mod divide;
pub mod flags;
pub mod multiply;
pub mod pair;
pub mod sums;
