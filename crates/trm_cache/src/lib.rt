// The cache in code: its lines as a value, and its methods, some of them with a slice of the store.
// Paper: "Each ten is two waits and eight words in rising order"; "10 for each dirty line, lowest line first".
// `record`: the struct; `inner`: its methods, which are all shared with other crates.
#![tactic(auto)]

pub mod inner;
pub mod record;
