// The calls that run a machine, for any caller with any bytes, words, lengths or record: reset, clock, run.
// Paper: "Where calls are turned down"; "The clock call takes the record and returns it".
// No call has a `requires`; a refused call returns the refusal alone, and changes no borrowed buffer.
#![tactic(auto)]

pub mod call_answers;
pub mod machine_calls;
