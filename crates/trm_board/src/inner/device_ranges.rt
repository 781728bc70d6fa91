// Row 5 for the board's own fields.
// Request A1: "A board field outside its range is refused with 5".
ghost use Rattle.std.specs.Prelude.{◌≡◌};
ghost use Rattle.trm_serial.specs.Timing.{paper_timing};
ghost use Rattle.trm_serial.specs.Rule.{serial_ok};
ghost use Rattle.trm_board.specs.Rule.{devices_ok};

use crate::record::Devices;
use trm_serial::record::Serial;

// The serial part.
#[tactic(auto, unfolding(trm_serial::specs::Rule::serial_ok, trm_serial::specs::Timing::frame, trm_serial::specs::Timing::stop_sample))]
fn serial_fits(s: Serial) -> bool
    ensures { result ≡ serial_ok paper_timing s }
{
    s.left <= 10120
        && s.sent <= 255
        && s.passed < 9614
        && s.bits <= 255
        && s.byte <= 255
        && s.ready <= 1
}

// All of them.
#[tactic(auto, unfolding(crate::specs::Rule::devices_ok))]
pub fn devices_fit(d: Devices) -> bool
    ensures { result ≡ devices_ok paper_timing d }
{
    serial_fits(d.serial) && d.tick <= 1 && d.lamps <= 1023
}
