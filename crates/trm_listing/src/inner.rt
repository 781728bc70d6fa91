// The listing of an image, with its rows written to a buffer.
// Paper: "Kind 3 ..: count .., line byte, input word".
// `runs`: run by run; `finish`: the last row; `pieces`: the whole listing in pieces.
pub mod finish;
pub mod pieces;
pub mod runs;
