// The machine record and its methods: a run, as a loop over turns of one or more clocks, and one clock.
// Paper: "Clock by clock".
// `machine`: the record as callers hold it; `clock_answer`: what a clock returns; `inner`: the methods, and the functions on parts.
#![tactic(auto)]

pub mod clock_answer;
pub mod inner;
pub mod machine;
