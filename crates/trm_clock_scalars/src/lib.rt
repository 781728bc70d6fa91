// The scalars after a reset and after a clock, in code; one step of the multiplier or the divider; taking an interrupt.
// Paper: "After k multiplier steps ..", "it adds one to the clock and held counts", "takes an interrupt if the mode is 0 ..".
// All functions are in `inner`; they take the scalars by value and the registers by reference.
#![tactic(auto)]

pub mod inner;
