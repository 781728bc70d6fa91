// The devices after a clock of the core, by its answer byte and word.
// Request A1: "The tick is interrupt 0 and rises whenever the clock count comes to a multiple of 116,600; a rise in the clock of a clearing
// write wins"; "ten lamps out"; "Reading device 4 clears the received bit"; "Devices run in held clocks too".
ghost use Rattle.std.specs.Prelude.{◌≡◌, ◌≤◌};
ghost use Rattle.trm_serial.specs.Timing.{paper_timing};
ghost use Rattle.trm_serial.specs.Serial.{accessed};
ghost use Rattle.trm_board.specs.Board.{access_of, tick_after, lamps_after, devices_clock};
ghost use Rattle.trm_board.specs.Rule.{InRange};

use crate::record::Devices;
use trm_serial::inner::{receiver, transmitter};
use trm_serial::record::Serial;

// The serial part after the core's access: 17 reads device 4, 18 writes it; the answer byte is a number of the C interface.
#[tactic(auto, unfolding(crate::specs::Board::access_of))]
fn serial_access(s: Serial, byte: u8, word: u32) -> Serial
    ensures { result ≡ accessed paper_timing (access_of byte word) s }
{
    match byte {
        17 => transmitter::read_clock(s),
        18 => transmitter::write_clock(s, word),
        _ => transmitter::other_clock(s),
    }
}

// The tick after a clock that brought the count to this: 26 writes device 6.
#[tactic(auto, unfolding(crate::specs::Board::tick_after))]
fn tick_after(count: u64, byte: u8, tick: u64) -> u64
    ensures { result ≡ tick_after paper_timing count byte tick }
{
    if count % 116600 == 0 {
        1
    } else if byte == 26 {
        0
    } else {
        tick
    }
}

// The lamps after a clock: 30 writes device 7.
#[tactic(auto, unfolding(crate::specs::Board::lamps_after))]
fn lamps_after(byte: u8, word: u32, lamps: u64) -> u64
    ensures { result ≡ lamps_after byte word lamps }
{
    if byte == 30 {
        u64::from(word % 1024)
    } else {
        lamps
    }
}

// All of them; the line is at this level, and the clock brought the count to this.
#[tactic(auto, unfolding(trm_serial::specs::Serial::serial_clock))]
pub fn device_clock(d: Devices, line: u64, count: u64, byte: u8, word: u32) -> Devices
    requires { InRange d × (line ≤ 1) }
    ensures { result ≡ devices_clock paper_timing line count byte word d }
{
    let accessed = serial_access(d.serial, byte, word);
    Devices {
        serial: receiver::listen(accessed, line),
        tick: tick_after(count, byte, d.tick),
        lamps: lamps_after(byte, word, d.lamps),
    }
}
