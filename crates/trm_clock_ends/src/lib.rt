// One clock in code, on the parts of the machine record: the first of an instruction, and the last in phase 5.
// Paper: "Clock by clock".
// All functions are in `inner`.
#![tactic(auto)]

pub mod inner;
