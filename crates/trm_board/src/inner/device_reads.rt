// What a read of a device gives, and the core's line byte.
// Request A1: "5 is status (bit 0 byte received, bit 1 transmitter free), 6 reads milliseconds (the clock count over 116,600, rounded
// down) .., 7 is eight switches in"; "The tick and reads of 4 to 6 show what stood when the clock began"; "devices not named read zero".
ghost use Rattle.std.specs.Prelude.{◌≡◌, ◌+◌, ◌*◌, ◌/◌, ◌%◌, ◌≤◌, ◌<◌, unwrap_or};
ghost use Rattle.trm_serial.specs.Timing.{paper_timing};
ghost use Rattle.trm_serial.specs.Rule.{Narrow};
ghost use Rattle.trm_board.specs.Board.{status, reply};

use trm_serial::record::Serial;

// Device 5.
#[tactic(auto, unfolding(crate::specs::Board::status, trm_serial::specs::Serial::busy))]
fn status_of(s: Serial) -> u64
    requires { Narrow s }
    ensures { (result ≡ status s) × (result ≤ 3) }
{
    s.ready + 2 * u64::from(s.left == 0)
}

// What a read of the device gives; `count` is the clock count when the clock began. In the definition 64 stands for no device.
#[tactic(auto, unfolding(crate::specs::Board::reply))]
pub fn reply_of(s: Serial, count: u64, switches: u8, device: Option<u64>) -> u32
    requires { Narrow s × (count < 4294967296) }
    ensures { result ≡ reply paper_timing s count switches (unwrap_or device 64) }
{
    match device {
        Some(4) => s.byte as u32,
        Some(5) => status_of(s) as u32,
        Some(6) => (count / 116600) as u32,
        Some(7) => u32::from(switches),
        _ => 0,
    }
}

// The core's line byte: the tick is interrupt 0; `given` has interrupt 1 in bit 1 and stall in bit 2.
pub fn pins_byte(tick: u64, given: u8) -> u8
    requires { tick ≤ 1 }
    ensures { (result ≡ tick + 2 * (given / 2 % 2) + 4 * (given / 4 % 2)) × (result ≤ 7) }
{
    tick as u8 + 2 * (given / 2 % 2) + 4 * (given / 4 % 2)
}
