// The record rule in code: whether row 5 of the table accepts a record.
// Paper: "The record holds phase and count: ..", row 5 of "Where calls are turned down".
// All functions are in `inner`.
#![tactic(auto)]

pub mod inner;
