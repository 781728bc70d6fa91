// The static library that C and Rust programs link: the functions of the crate trm under their C names, with the same clauses.
// Paper: "Where calls are turned down"; "The clock call takes the record and returns it".
// A crate is a library for other crates or a static library; trm is the library, and what is proved of its functions holds of these.
#![tactic(auto)]

pub mod codec;
pub mod exported_board;
pub mod exported_calls;
pub mod image_calls;
pub mod layout;
pub mod lent;
