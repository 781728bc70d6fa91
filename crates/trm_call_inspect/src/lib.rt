// The calls that inspect a machine, for any caller and any input: look, copy, watch. `inner` has what an accepted call does.
// Paper: "A look gives one word of data memory .. Look, copy and watch come under the second demand".
// No call has a `requires`, none changes the record, and a refused call changes no borrowed buffer.
#![tactic(auto)]

mod inner;
pub mod inspect_calls;
