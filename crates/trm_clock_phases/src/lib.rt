// One clock of an instruction in flight, in code, on the parts of the machine record: phases 1 to 4.
// Paper: "Clock by clock".
// All functions are in `inner`.
#![tactic(auto)]

pub mod inner;
