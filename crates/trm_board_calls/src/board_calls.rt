// Reset, clock and run of the board, for any caller and any input.
// Request A1: "Each of its clocks takes the serial line, the switches, interrupt 1 and stall"; "a line joined to itself".
// The level sent in a clock is the line of that very clock: a caller who feeds back a returned level is one clock late, so a clock and a
// run are told whether the line is `joined` to itself. Arguments are checked first; nothing is written unless the call is accepted. The
// buffers of a run are apart, as the C interface lends them.
ghost use Rattle.std.specs.Prelude.{◌≡◌};
ghost use Rattle.trm_board.specs.Board.{devices_reset};
ghost use Rattle.trm_board_calls.specs.Promises.{ResetHolds, ClockHolds, RunHolds};

use crate::board_answers::{BoardClock, BoardRun};
use crate::board_record::Board;
use crate::inner::{board_clocks, board_rows};
use trm_board::record::Devices;
use trm_call_refusals::refusal::Refusal;
use trm_run_machine::machine::Machine;
use trm_serial::record::Serial;

// A board with this core, its devices as after a reset: all zero.
pub fn new_board(machine: Machine) -> Board
    ensures { result ≡ record { machine = machine; devices = devices_reset } }
{
    let serial = Serial {
        left: 0,
        sent: 0,
        passed: 0,
        bits: 0,
        byte: 0,
        ready: 0,
    };
    let devices = Devices {
        serial: serial,
        tick: 0,
        lamps: 0,
    };
    Board {
        machine: machine,
        devices: devices,
    }
}

// A board to begin with, for this store; the store is not changed.
#[tactic(auto, unfolding(crate::specs::Promises::board_reset_gives))]
pub fn reset(store: &[u32]) -> Result<Board, Refusal>
    ensures { ResetHolds store.now result }
{
    Ok(new_board(trm_calls::machine_calls::reset(store)?))
}

// One clock, a run of one byte: `given` has the serial line in bit 0, interrupt 1 in bit 1 and stall in bit 2. If the line is joined, bit 0
// is not looked at.
pub fn clock(
    b: Board,
    program: &[u32],
    store: &mut [u32],
    joined: bool,
    given: u8,
    switches: u8,
) -> Result<BoardClock, Refusal>
    ensures { ClockHolds b program.now store.old joined given switches result store.new }
{
    let alone = [given; 1];
    let panel = [switches; 1];
    let mut levels = [0u8; 1];
    let mut bytes = [0u8; 1];
    let mut words = [0u32; 1];
    let r = run(
        b,
        program,
        store,
        joined,
        &alone,
        &panel,
        &mut levels,
        &mut bytes,
        &mut words,
    )?;
    let board = r.board;
    Ok(BoardClock {
        board: board,
        level: levels[0],
        byte: bytes[0],
        word: words[0],
        finished: r.finished,
    })
}

// A run: a byte of `given` and one of `switches` for each clock, as a clock takes them; levels, answer bytes and words are written to the
// buffers.
#[tactic(auto, using(trm_call_refusals::proofs::Laws::refused), unfolding(crate::specs::Promises::board_run_gives))]
pub fn run(
    mut b: Board,
    program: &[u32],
    store: &mut [u32],
    joined: bool,
    given: &[u8],
    switches: &[u8],
    levels: &mut [u8],
    bytes: &mut [u8],
    words: &mut [u32],
) -> Result<BoardRun, Refusal>
    ensures { RunHolds b program.now store.old joined given.now switches.now
        levels.old bytes.old words.old result store.new levels.new bytes.new words.new }
{
    board_rows::run_refusal(b, program, store, given, switches, levels, bytes, words)?;
    let g = board_clocks::board_clocks(
        b.machine.scalars,
        b.devices,
        program,
        &mut b.machine.regs,
        &mut b.machine.cache,
        store,
        joined,
        given,
        switches,
        levels,
        bytes,
        words,
    );
    b.machine.scalars = g.scalars;
    b.devices = g.devices;
    Ok(BoardRun {
        board: b,
        used: given.len() as u64,
        finished: g.finished,
    })
}
