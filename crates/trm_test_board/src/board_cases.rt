// The kinds of case on the serial board of a script: its core's record is the record of the script, and its own fields live beside it.
// Request A1: "Each of its clocks takes the serial line, the switches, interrupt 1 and stall".
// f field high low: sets a field of the board; v field: prints one. 0 left, 1 sent, 2 passed, 3 bits, 4 byte, 5 ready, 6 tick, 7 lamps.
// r: reset. k given switches joined: one clock, the line joined to itself if the last word is not 0. z: a run, as at `run`.
// K, L, J, F and V are those of any script (script.rt of trm_test_cases).
use std::io;
use trm_board::record::Devices;
use trm_board_calls::board_answers::{BoardClock, BoardRun};
use trm_board_calls::board_calls;
use trm_board_calls::board_record::Board;
use trm_run_machine::inner::zero_record;
use trm_test_cases::inner::case_text::Case;
use trm_test_cases::inner::script::Lent;
use trm_test_cases::inner::{digest, lists, print, script};

// The board of a reset with 64 words.
pub fn start() -> Board {
    let store = [0u32; 64];
    board_calls::new_board(zero_record::zero_record(&store))
}

// A field of the board.
fn field_of(d: &mut Devices, which: u32) -> Option<&mut u64> {
    match which {
        0 => Some(&mut d.serial.left),
        1 => Some(&mut d.serial.sent),
        2 => Some(&mut d.serial.passed),
        3 => Some(&mut d.serial.bits),
        4 => Some(&mut d.serial.byte),
        5 => Some(&mut d.serial.ready),
        6 => Some(&mut d.tick),
        7 => Some(&mut d.lamps),
        _ => None,
    }
}

// Its value; 0 if there is none of this number.
fn field(mut d: Devices, which: u32) -> u64 {
    field_of(&mut d, which).map_or(0, |field| *field)
}

// The board's fields with one set; unchanged if there is none of this number.
fn with_field(mut d: Devices, which: u32, value: u64) -> Devices {
    if let Some(field) = field_of(&mut d, which) {
        *field = value;
    }
    d
}

// The digest of all fields, in the order of their numbers.
fn digest_of(d: Devices) -> u64 {
    (0..8).fold(0, |n, which| digest::mixed(n, field(d, which)))
}

// The cases f and v.
fn on_devices(rt: &impl Print, c: Case, d: Devices) -> io::Result<Devices> {
    match c.kind {
        b'f' => Ok(with_field(d, c.w0, script::value_of(c))),
        b'v' => {
            print::hex(rt, field(d, c.w0), 1)?;
            Ok(d)
        }
        _ => Ok(d),
    }
}

// The cases on fields: those of the core's record, then those of the board.
pub fn on_fields(rt: &impl Print, c: Case, b: Board) -> io::Result<Board> {
    let machine = script::on_record(rt, c, b.machine)?;
    let devices = on_devices(rt, c, b.devices)?;
    Ok(Board { machine, devices })
}

// Prints digests of the board's own fields, of the record and of the store.
fn show_board(rt: &impl Print, b: Board, store: &[u32]) -> io::Result<()> {
    print::hex(rt, digest_of(b.devices), 8)?;
    script::show_all(rt, b.machine, store)
}

// A reset: prints its number. If refused, the script keeps its board.
fn reset(rt: &impl Print, b: Board, store: &[u32]) -> io::Result<Board> {
    let outcome = board_calls::reset(store);
    print::decimal(rt, script::number_in(&outcome))?;
    let next = outcome.unwrap_or(b);
    show_board(rt, next, store)?;
    Ok(next)
}

fn show_said(rt: &impl Print, level: u8, byte: u8, word: u32) -> io::Result<()> {
    print::decimal(rt, level as u64)?;
    script::show_answer(rt, byte, word)
}

fn show_clock(rt: &impl Print, r: BoardClock, store: &[u32]) -> io::Result<()> {
    show_said(rt, r.level, r.byte, r.word)?;
    print::decimal(rt, r.finished)?;
    show_board(rt, r.board, store)
}

// One clock: prints the number, the level, the answer byte and word, 1 if an instruction finished, and the digests.
fn clock(
    rt: &impl Print,
    c: Case,
    b: Board,
    program: &[u32],
    store: &mut [u32],
) -> io::Result<Board> {
    let given = (c.w0 % 256) as u8;
    let switches = (c.w1 % 256) as u8;
    let outcome = board_calls::clock(b, program, store, c.w2 != 0, given, switches);
    print::decimal(rt, script::number_in(&outcome))?;
    let r = outcome.unwrap_or(BoardClock {
        board: b,
        level: 0,
        byte: 0,
        word: 0,
        finished: 0,
    });
    show_clock(rt, r, store)?;
    Ok(r.board)
}

fn show_run(rt: &impl Print, r: BoardRun, store: &[u32]) -> io::Result<()> {
    print::decimal(rt, r.used)?;
    print::decimal(rt, r.finished)?;
    show_board(rt, r.board, store)
}

// A run, and then digests of its buffers.
fn run_shown(
    rt: &impl Print,
    b: Board,
    program: &[u32],
    store: &mut [u32],
    joined: bool,
    given: &[u8],
    switches: &[u8],
    levels: &mut [u8],
    bytes: &mut [u8],
    words: &mut [u32],
) -> io::Result<Board> {
    let outcome = board_calls::run(
        b, program, store, joined, given, switches, levels, bytes, words,
    );
    print::decimal(rt, script::number_in(&outcome))?;
    let r = outcome.unwrap_or(BoardRun {
        board: b,
        used: 0,
        finished: 0,
    });
    show_run(rt, r, store)?;
    print::hex(rt, digest::of(levels), 8)?;
    print::hex(rt, digest::of(bytes), 8)?;
    print::hex(rt, digest::of(words), 8)?;
    Ok(r.board)
}

// Prints level and answer of clock w / 65536.
fn show_at(
    rt: &impl Print,
    levels: &[u8; 65537],
    bytes: &[u8; 65537],
    words: &[u32; 65537],
    w: u32,
) -> io::Result<()> {
    let at = (w / 65536) as usize;
    show_said(rt, levels[at], bytes[at], words[at])
}

// A run of c.w0 clocks, at most 65,537. Of c.w1 bits 3-0 give the number of switch bytes: c.w0 plus these bits less 1; bits 7-4 likewise
// the levels, bits 11-8 the answer bytes, bits 15-12 the answer words; the line is joined if a bit above them is set. Of c.w2 bits 7-0 are
// the byte of line, interrupt 1 and stall of every clock except clock number bits 31-16, whose byte is bits 15-8. c.w3 gives the switches
// likewise.
// Prints the number, the clocks used, the instructions finished, the digests, those of the buffers, and level and answer of clock
// c.w2 / 65536.
fn run(
    rt: &impl Print,
    c: Case,
    b: Board,
    program: &[u32],
    store: &mut [u32],
) -> io::Result<Board> {
    let given = lists::bytes_but_one(c.w2);
    let switches = lists::bytes_but_one(c.w3);
    let mut levels = lists::filled(0xA5);
    let mut bytes = lists::filled(0xA5);
    let mut words = lists::filled(0xA5A5A5A5);
    let n = lists::length_of(c.w0, 1);
    let h = lists::length_of(c.w0, c.w1 % 16);
    let i = lists::length_of(c.w0, c.w1 / 16 % 16);
    let j = lists::length_of(c.w0, c.w1 / 256 % 16);
    let k = lists::length_of(c.w0, c.w1 / 4096 % 16);
    let next = run_shown(
        rt,
        b,
        program,
        store,
        65536 <= c.w1,
        &given[..n],
        &switches[..h],
        &mut levels[..i],
        &mut bytes[..j],
        &mut words[..k],
    )?;
    show_at(rt, &levels, &bytes, &words, c.w2)?;
    Ok(next)
}

// The clock call of the core itself: the board's own fields stay as they are.
fn core_clock(
    rt: &impl Print,
    c: Case,
    b: Board,
    program: &[u32],
    store: &mut [u32],
) -> io::Result<Board> {
    let machine = script::clock(rt, c, b.machine, program, store)?;
    Ok(Board {
        machine,
        devices: b.devices,
    })
}

// The calls, with the part of program and store that is lent.
pub fn on_lent(
    rt: &impl Print,
    c: Case,
    lent: Lent,
    b: Board,
    program: &[u32],
    store: &mut [u32],
) -> io::Result<Board> {
    let p = lists::within(program, lent.program);
    let n = lists::within(store, lent.store);
    called(rt, c, b, &program[..p], &mut store[..n])
}

fn called(
    rt: &impl Print,
    c: Case,
    b: Board,
    program: &[u32],
    store: &mut [u32],
) -> io::Result<Board> {
    match c.kind {
        b'K' => core_clock(rt, c, b, program, store),
        b'r' => reset(rt, b, store),
        b'k' => clock(rt, c, b, program, store),
        b'z' => run(rt, c, b, program, store),
        _ => Ok(b),
    }
}
