// The listing's text: writes numbers and rows to a buffer.
// Paper: "Images and the listing program", the fields of a row.
// Every function is used by the listing and is in `inner`.
#![tactic(auto)]

pub mod inner;
