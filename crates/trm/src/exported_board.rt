// The calls of the serial board for C: a slice is a pointer and a length, the board is passed by value.
// Request A1: "Each of its clocks takes the serial line, the switches, interrupt 1 and stall"; "a line joined to itself".
// Each is the call of trm_board_calls with the refusal number in place of the enum.
ghost use Rattle.std.specs.Prelude.{true, false};
ghost use Rattle.trm.specs.BoardPromises.{BoardResetNumbered, BoardClockNumbered, BoardRunNumbered};

use crate::inner::empty;
use trm_board_calls::board_calls;
use trm_board_calls::board_record::Board;

#[repr(C)]
#[derive(Clone, Copy)]
pub struct BoardResetAnswer {
    pub board: Board,
    pub number: u32,
}

#[repr(C)]
#[derive(Clone, Copy)]
pub struct BoardClockAnswer {
    pub board: Board,
    pub number: u32,
    pub level: u8,
    pub byte: u8,
    pub word: u32,
    pub finished: u64,
}

#[repr(C)]
#[derive(Clone, Copy)]
pub struct BoardRunAnswer {
    pub board: Board,
    pub number: u32,
    pub used: u64,
    pub finished: u64,
}

// The board after a reset, for this store.
pub fn trm_board_reset(store: &[u32]) -> BoardResetAnswer
    ensures { BoardResetNumbered store.now result }
{
    match board_calls::reset(store) {
        Ok(board) => BoardResetAnswer {
            board: board,
            number: 0,
        },
        Err(refused) => BoardResetAnswer {
            board: board_calls::new_board(empty::empty_record()),
            number: u32::from(refused),
        },
    }
}

// One clock, the line joined or not.
fn board_clock(
    b: Board,
    program: &[u32],
    store: &mut [u32],
    joined: bool,
    given: u8,
    switches: u8,
) -> BoardClockAnswer
    ensures { BoardClockNumbered b program.now store.old joined given switches result store.new }
{
    match board_calls::clock(b, program, store, joined, given, switches) {
        Ok(r) => BoardClockAnswer {
            board: r.board,
            number: 0,
            level: r.level,
            byte: r.byte,
            word: r.word,
            finished: r.finished,
        },
        Err(refused) => BoardClockAnswer {
            board: b,
            number: u32::from(refused),
            level: 0,
            byte: 0,
            word: 0,
            finished: 0,
        },
    }
}

// One clock: `given` has the serial line in bit 0, interrupt 1 in bit 1 and stall in bit 2.
pub fn trm_board_clock(
    b: Board,
    program: &[u32],
    store: &mut [u32],
    given: u8,
    switches: u8,
) -> BoardClockAnswer
    ensures { BoardClockNumbered b program.now store.old false given switches result store.new }
{
    board_clock(b, program, store, false, given, switches)
}

// One clock with the line joined to itself.
pub fn trm_board_clock_joined(
    b: Board,
    program: &[u32],
    store: &mut [u32],
    given: u8,
    switches: u8,
) -> BoardClockAnswer
    ensures { BoardClockNumbered b program.now store.old true given switches result store.new }
{
    board_clock(b, program, store, true, given, switches)
}

// One clock for each byte of `given`, the line joined or not.
fn board_run(
    b: Board,
    program: &[u32],
    store: &mut [u32],
    joined: bool,
    given: &[u8],
    switches: &[u8],
    levels: &mut [u8],
    bytes: &mut [u8],
    words: &mut [u32],
) -> BoardRunAnswer
    ensures { BoardRunNumbered b program.now store.old joined given.now switches.now
        levels.old bytes.old words.old result store.new levels.new bytes.new words.new }
{
    match board_calls::run(
        b, program, store, joined, given, switches, levels, bytes, words,
    ) {
        Ok(r) => BoardRunAnswer {
            board: r.board,
            number: 0,
            used: r.used,
            finished: r.finished,
        },
        Err(refused) => BoardRunAnswer {
            board: b,
            number: u32::from(refused),
            used: 0,
            finished: 0,
        },
    }
}

// One clock for each byte of `given`.
pub fn trm_board_run(
    b: Board,
    program: &[u32],
    store: &mut [u32],
    given: &[u8],
    switches: &[u8],
    levels: &mut [u8],
    bytes: &mut [u8],
    words: &mut [u32],
) -> BoardRunAnswer
    ensures { BoardRunNumbered b program.now store.old false given.now switches.now
        levels.old bytes.old words.old result store.new levels.new bytes.new words.new }
{
    board_run(
        b, program, store, false, given, switches, levels, bytes, words,
    )
}

// One clock for each byte of `given`, with the line joined to itself.
pub fn trm_board_run_joined(
    b: Board,
    program: &[u32],
    store: &mut [u32],
    given: &[u8],
    switches: &[u8],
    levels: &mut [u8],
    bytes: &mut [u8],
    words: &mut [u32],
) -> BoardRunAnswer
    ensures { BoardRunNumbered b program.now store.old true given.now switches.now
        levels.old bytes.old words.old result store.new levels.new bytes.new words.new }
{
    board_run(
        b, program, store, true, given, switches, levels, bytes, words,
    )
}
