// What an accepted clock and run of the board return: the board, and what the call reports. A reset returns the board alone.
// Request A1; document 01: "reports the clocks used and instructions finished". The board comes first, so that no copy of it is unaligned
// (D-76).
use crate::board_record::Board;

// A clock: the level sent in it, and the core's answer. `finished` is 1 if an instruction ended.
#[derive(Clone, Copy)]
pub struct BoardClock {
    pub board: Board,
    pub level: u8,
    pub byte: u8,
    pub word: u32,
    pub finished: u64,
}

// A run: the clocks used and the instructions finished.
#[derive(Clone, Copy)]
pub struct BoardRun {
    pub board: Board,
    pub used: u64,
    pub finished: u64,
}
