// The devices of the board over clocks in which the core accesses none of them.
// Request A1: "Devices run in held clocks too"; "rises whenever the clock count comes to a multiple of 116,600".
// The core's line byte has the tick in bit 0, so such clocks go together only up to the next rise of the tick.
ghost use Rattle.std.specs.Prelude.{◌≡◌, List, ℕ, ◌+◌, ◌≤◌, length, take, drop};
ghost use Rattle.trm_core.specs.Record.{Lent};
ghost use Rattle.trm_board_calls.specs.Running.{Stage, stage, Running, lines_of, Coming, Expected};

use crate::inner::board_clock;
use trm_board::inner::{device_clock, device_reads};
use trm_board::record::Devices;
use trm_serial::inner::transmitter;

// The core's line bytes for k clocks from `at` on.
pub fn line_bytes(tick: u64, given: &[u8], at: usize, k: usize) -> [u8; 64]
    requires { (tick ≤ 1) × (k ≤ 64) × (at + k ≤ length given.now) × (length given.now ≤ 4294967295) }
    ensures { (take k result ≡ lines_of tick (take k (drop at given.now))) × (length result ≡ 64) }
{
    let mut lines = [0u8; 64];
    for i in 0..k {
        lines[i] = device_reads::pins_byte(tick, given[at + i]);
    }
    lines
}

// The devices after the clocks from `at` to `to`, each of which writes its level and an answer of zeros; `count` is the clock count before.
pub fn devices_ahead(
    mut d: Devices,
    mut count: u64,
    joined: bool,
    given: &[u8],
    levels: &mut [u8],
    bytes: &mut [u8],
    outs: &mut [u32],
    at: usize,
    to: usize,
) -> Devices
    requires { Expected joined given.now to d count at levels.old bytes.old outs.old }
    ensures { (p ws : List ℕ) (q₀ : Stage) (y : Lent) (total : ℕ)
        → Coming p joined given.now ws q₀ y total to d count at levels.old bytes.old outs.old
        → Running p joined given.now ws q₀ (stage (record { core = y; devices = result }) total to levels.new
        bytes.new outs.new) }
{
    for i in at..to {
        let serial = d.serial;
        let level = transmitter::level_sent(serial);
        let line = board_clock::line_of(joined, level, given[i]);
        count += 1;
        d = device_clock::device_clock(d, line, count, 0, 0);
        levels[i] = level as u8;
        bytes[i] = 0;
        outs[i] = 0;
    }
    d
}
