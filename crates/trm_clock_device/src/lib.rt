// One clock: which device it is about to read, so that a board can have the input word ready.
// Paper: "LD, ST to a device .. 2, 1"; "a device is read or written only in that clock".
// The function is used by crates above and is in `inner`.
#![tactic(auto)]

pub mod inner;
