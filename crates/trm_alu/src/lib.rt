// Arithmetic of the TRM: results and flags of operations 0-10, the multiplier and the divider step by step.
// Paper: "What a programmer sees" (operations 0-10), "Clock by clock" (the registers after k steps).
// Every function is shared with other crates and is in `inner`.
#![tactic(auto)]

pub mod inner;
