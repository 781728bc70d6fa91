// What the programs that run cases share: reading a case, printing, digests, lists, the fields of a record, and the cases of any script.
// Paper: "Bench cases" and "Where calls are turned down"; request A1. The cases themselves are in the crates of the programs.
// All functions are in `inner` and serve trm_test_vectors or trm_test_board; no contract says what is printed. `tests`: which input lines
// are cases.
#![tactic(auto)]

pub mod inner;
#[cfg(test)]
mod tests;
