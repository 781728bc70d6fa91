// Whether a call is refused, and by which row; the calls themselves are in trm_calls and trm_call_inspect.
// Paper: "Where calls are turned down": "Checks go down the table; a call skips rows about things it does not take."
// `refusal`: the type of a refusal; `inner`: the rows, and the table for each call.
#![tactic(auto)]

pub mod inner;
pub mod refusal;
