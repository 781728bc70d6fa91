// One clock of the board, on its parts, in place: the core is asked which device it is about to read, gets the reply with its clock, and
// the devices follow its answer.
// Request A1: "Each of its clocks takes the serial line, the switches, interrupt 1 and stall"; "The tick and reads of 4 to 6 show what
// stood when the clock began"; "Devices run in held clocks too".
ghost use Rattle.std.specs.Prelude.{◌≡◌, cond, ◌%◌, ◌≤◌};
ghost use Rattle.trm_reference.specs.Geometry.{paper_geometry};
ghost use Rattle.trm_run_machine.specs.Machine.{parts};
ghost use Rattle.trm_serial.specs.Timing.{paper_timing};
ghost use Rattle.trm_board.specs.Board.{inputs_of, board_clock};
ghost use Rattle.trm_board_calls.specs.Cores.{record_core};
ghost use Rattle.trm_board_calls.specs.Coded.{board_at, stepped, Ready};

use trm_board::inner::{device_clock, device_reads};
use trm_board::record::Devices;
use trm_cache::record::Cache;
use trm_clock_device::inner::device_read;
use trm_core::record::Scalars;
use trm_run_machine::inner::one_clock;
use trm_serial::inner::transmitter;

// The core's scalars and the devices after the clock, the level sent in it, and the core's answer.
#[derive(Clone, Copy)]
pub struct Stepped {
    pub scalars: Scalars,
    pub devices: Devices,
    pub level: u8,
    pub byte: u8,
    pub word: u32,
    pub finished: u64,
}

// The line of a clock: the level sent in that very clock if it is joined, else bit 0 of `given`.
pub fn line_of(joined: bool, level: u64, given: u8) -> u64
    requires { level ≤ 1 }
    ensures { (result ≡ cond joined level (given % 2)) × (result ≤ 1) }
{
    if joined { level } else { (given % 2) as u64 }
}

pub fn board_clock(
    c: Scalars,
    d: Devices,
    program: &[u32],
    regs: &mut [u32; 16],
    cache: &mut Cache,
    store: &mut [u32],
    joined: bool,
    given: u8,
    switches: u8,
) -> Stepped
    requires { Ready program.now (board_at (parts c regs.old cache.old) d store.old) 1 }
    ensures { stepped (parts result.scalars regs.new cache.new)
        result.devices store.new result.level result.byte result.word result.finished
        ≡ board_clock paper_timing (record_core paper_geometry program.now) (board_at (parts c regs.old cache.old)
        d store.old) (inputs_of joined given switches) }
{
    let serial = d.serial;
    let level = transmitter::level_sent(serial);
    let pins = device_reads::pins_byte(d.tick, given);
    let device = device_read::device_read(c, regs, program, store.len() as u64, pins);
    let input = device_reads::reply_of(serial, c.counts.clocks, switches, device);
    let t = one_clock::one_clock(c, program, regs, cache, store, pins, input);
    let line = line_of(joined, level, given);
    let devices = device_clock::device_clock(d, line, t.scalars.counts.clocks, t.byte, t.word);
    Stepped {
        scalars: t.scalars,
        devices,
        level: level as u8,
        byte: t.byte,
        word: t.word,
        finished: t.finished,
    }
}
