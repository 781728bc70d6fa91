// The reader of images: checks any bytes and returns payloads.
// Paper: "Images and the listing program"; "Where calls are turned down", rows 1, 2, 3, 4 and 6.
// `fault`: what is wrong with an image; `reader`: the calls; `inner`: what the listing and the library share.
#![tactic(auto)]

pub mod fault;
pub mod inner;
pub mod reader;
