// The calls for C and Rust programs: each returns the paper's refusal number in place of an enum. trm_c exports them under these names.
// Paper: "Where calls are turned down"; "The clock call takes the record and returns it".
// `exported_calls`, `lent`, `codec`, `image_calls`, `exported_board`, `layout`: the exported functions; `exported_answers`: what they
// return; `inner`: the clock behind the lent entry.
#![tactic(auto)]

pub mod codec;
pub mod exported_answers;
pub mod exported_board;
pub mod exported_calls;
pub mod image_calls;
mod inner;
pub mod layout;
pub mod lent;
