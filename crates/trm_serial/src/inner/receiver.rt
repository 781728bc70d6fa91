// One clock of the receiver, after the core's access.
// Request A1: "sampled in the 506th. After reset or a stop sample the next low clock is a frame's first; start and stop samples are not
// judged"; "A byte is received, its bit set, in the clock that samples its stop bit, after any read in that clock".
ghost use Rattle.std.specs.Prelude.{◌≡◌, ◌≤◌, ◌<◌};
ghost use Rattle.trm_serial.specs.Timing.{paper_timing};
ghost use Rattle.trm_serial.specs.Serial.{waits, samples, gathered, listened};
ghost use Rattle.trm_serial.specs.Rule.{Narrow};

use crate::record::Serial;

// Whether the clock after so many of a frame samples a data bit; the last clock of a frame, 9613, samples its stop bit.
#[tactic(auto, unfolding(crate::specs::Serial::samples))]
fn samples_data(passed: u64) -> bool
    requires { passed < 9613 }
    ensures { result ≡ samples paper_timing passed }
{
    passed % 1012 + 1 == 506 && 1012 <= passed
}

// The shift register after a clock.
#[tactic(auto, unfolding(crate::specs::Serial::gathered))]
fn gather(line: u64, passed: u64, bits: u64) -> u64
    requires { (passed < 9613) × (line ≤ 1) × (bits ≤ 255) }
    ensures { result ≡ gathered paper_timing line passed bits }
{
    if samples_data(passed) {
        bits / 2 + 128 * line
    } else {
        bits
    }
}

// Whether no frame has begun and the line is high.
#[tactic(auto, unfolding(crate::specs::Serial::waits))]
fn waits_high(line: u64, passed: u64) -> bool
    ensures { result ≡ waits paper_timing line passed }
{
    passed == 0 && line != 0
}

// One clock with the line at this level.
#[tactic(auto, unfolding(crate::specs::Serial::listened, crate::specs::Serial::stops, crate::specs::Timing::stop_sample))]
pub fn listen(mut s: Serial, line: u64) -> Serial
    requires { Narrow s × (line ≤ 1) }
    ensures { result ≡ listened paper_timing line s }
{
    if waits_high(line, s.passed) {
        return s;
    }
    if s.passed + 1 == 9614 {
        s.passed = 0;
        s.byte = s.bits;
        s.ready = 1;
        return s;
    }
    s.bits = gather(line, s.passed, s.bits);
    s.passed += 1;
    s
}
