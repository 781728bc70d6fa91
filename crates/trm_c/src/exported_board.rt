// The calls of the serial board, exported to C: each is the function of that name of the crate trm, with its clauses.
ghost use Rattle.std.specs.Prelude.{true, false};
ghost use Rattle.trm.specs.BoardPromises.{BoardResetNumbered, BoardClockNumbered, BoardRunNumbered};

use trm::exported_board::{BoardClockAnswer, BoardResetAnswer, BoardRunAnswer};
use trm_board_calls::board_record::Board;

// The board after a reset, for this store.
#[unsafe(no_mangle)]
pub extern "C" fn trm_board_reset(store: &[u32]) -> BoardResetAnswer
    ensures { BoardResetNumbered store.now result }
{
    trm::exported_board::trm_board_reset(store)
}

// One clock: `given` has the serial line in bit 0, interrupt 1 in bit 1 and stall in bit 2.
#[unsafe(no_mangle)]
pub extern "C" fn trm_board_clock(
    b: Board,
    program: &[u32],
    store: &mut [u32],
    given: u8,
    switches: u8,
) -> BoardClockAnswer
    ensures { BoardClockNumbered b program.now store.old false given switches result store.new }
{
    trm::exported_board::trm_board_clock(b, program, store, given, switches)
}

// One clock with the line joined to itself.
#[unsafe(no_mangle)]
pub extern "C" fn trm_board_clock_joined(
    b: Board,
    program: &[u32],
    store: &mut [u32],
    given: u8,
    switches: u8,
) -> BoardClockAnswer
    ensures { BoardClockNumbered b program.now store.old true given switches result store.new }
{
    trm::exported_board::trm_board_clock_joined(b, program, store, given, switches)
}

// One clock for each byte of `given`.
#[unsafe(no_mangle)]
pub extern "C" fn trm_board_run(
    b: Board,
    program: &[u32],
    store: &mut [u32],
    given: &[u8],
    switches: &[u8],
    levels: &mut [u8],
    bytes: &mut [u8],
    words: &mut [u32],
) -> BoardRunAnswer
    ensures { BoardRunNumbered b program.now store.old false given.now switches.now
        levels.old bytes.old words.old result store.new levels.new bytes.new
        words.new }
{
    trm::exported_board::trm_board_run(b, program, store, given, switches, levels, bytes, words)
}

// One clock for each byte of `given`, with the line joined to itself.
#[unsafe(no_mangle)]
pub extern "C" fn trm_board_run_joined(
    b: Board,
    program: &[u32],
    store: &mut [u32],
    given: &[u8],
    switches: &[u8],
    levels: &mut [u8],
    bytes: &mut [u8],
    words: &mut [u32],
) -> BoardRunAnswer
    ensures { BoardRunNumbered b program.now store.old true given.now switches.now
        levels.old bytes.old words.old result store.new levels.new bytes.new
        words.new }
{
    trm::exported_board::trm_board_run_joined(
        b, program, store, given, switches, levels, bytes, words,
    )
}
