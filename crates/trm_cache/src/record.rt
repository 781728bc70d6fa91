// The cache as a value: numbers only, so that any bytes are a cache, and row 5 decides whether it is valid.
// Paper: "The cache has 16 lines of 8 words, write-back".
// Its methods are in `inner`. Full and dirty are 0 or 1; a line is set if the number is 1.

// For each line full, dirty and block; the words of all lines, eight to a line, so that those of line l begin at `l * 8`.
#[repr(C)]
#[derive(Clone, Copy)]
pub struct Cache {
    pub full: [u8; 16],
    pub dirty: [u8; 16],
    pub block: [u16; 16],
    pub words: [u32; 128],
}
