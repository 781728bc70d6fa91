// The transmitter: the level sent in a clock, and its record after the clock, by the access of the core to the serial data.
// Request A1: "A frame is a low start bit, eight data bits lowest first and a high stop bit, 1,012 clocks each"; "a write while the
// transmitter is busy is dropped. It is busy in the 10,120 clocks after that of an accepted write".
ghost use Rattle.std.specs.Prelude.{◌≡◌, ◌≤◌, get_or};
ghost use Rattle.trm_serial.specs.Timing.{paper_timing};
ghost use Rattle.trm_serial.specs.Serial.{reads, writes, others, levels, level, accessed};
ghost use Rattle.trm_serial.specs.Rule.{Narrow};

use crate::record::Serial;

// The level of a bit of the frame: 0 the start bit, 1 to 8 the data bits, 9 the stop bit.
fn bit_of_frame(byte: u64, place: u64) -> u64
    ensures { (result ≡ get_or (levels byte) place 1) × (result ≤ 1) }
{
    match place {
        0 => 0,
        1..=8 => (byte >> (place - 1)) % 2,
        _ => 1,
    }
}

// The level sent in the clock that begins now; high if the transmitter is free.
#[tactic(auto, unfolding(crate::specs::Serial::level, crate::specs::Serial::busy, crate::specs::Timing::frame))]
pub fn level_sent(s: Serial) -> u64
    requires { Narrow s }
    ensures { (result ≡ level paper_timing s) × (result ≤ 1) }
{
    if s.left == 0 {
        return 1;
    }
    bit_of_frame(s.sent, (10120 - s.left) / 1012)
}

// A clock in which the core reads the serial data: the received bit is cleared.
#[tactic(auto, unfolding(crate::specs::Serial::left_after, crate::specs::Serial::sent_after, crate::specs::Serial::ready_after))]
pub fn read_clock(mut s: Serial) -> Serial
    ensures { result ≡ accessed paper_timing reads s }
{
    s.left = s.left.saturating_sub(1);
    s.ready = 0;
    s
}

// A clock in which the core writes the serial data: if the transmitter is free, the word's low byte is accepted.
#[tactic(auto, unfolding(crate::specs::Serial::left_after, crate::specs::Serial::sent_after, crate::specs::Serial::ready_after))]
pub fn write_clock(mut s: Serial, word: u32) -> Serial
    ensures { result ≡ accessed paper_timing (writes word) s }
{
    if s.left != 0 {
        s.left -= 1; // dropped
        return s;
    }
    s.left = 10120;
    s.sent = u64::from(word % 256);
    s
}

// A clock without an access to the serial data.
#[tactic(auto, unfolding(crate::specs::Serial::left_after, crate::specs::Serial::sent_after, crate::specs::Serial::ready_after))]
pub fn other_clock(mut s: Serial) -> Serial
    ensures { result ≡ accessed paper_timing others s }
{
    s.left = s.left.saturating_sub(1);
    s
}
