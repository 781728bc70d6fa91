// The listing of an image: which rows it has, and their bytes, in pieces.
// Paper: "Images and the listing program".
// Its functions are in `inner`, because a later piece requires a listing that was begun (D-65).
#![tactic(auto)]

pub mod inner;
