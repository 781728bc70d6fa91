// The clocks of a board one after another, on its parts, checked once before the first.
// Request A1: "Each of its clocks takes the serial line, the switches, interrupt 1 and stall".
// The core goes ahead up to its next access to a device, and the devices follow; then one clock is done for both, with the device's reply
// (P-30).
ghost use Rattle.std.specs.Prelude.{◌≡◌, List, ℕ, ◌+◌, ◌≤◌, ◌<◌, length};
ghost use Rattle.trm_run_machine.specs.Machine.{parts};
ghost use Rattle.trm_board_calls.specs.Coded.{board_at, Ready};
ghost use Rattle.trm_board_calls.specs.Run.{board_run_of};
ghost use Rattle.trm_board_calls.specs.Running.{stage, At, Some, Turned};

use crate::inner::{board_clock, quiet_devices};
use trm_board::inner::stretch;
use trm_board::record::Devices;
use trm_cache::record::Cache;
use trm_core::record::Scalars;
use trm_run_machine::inner::quiet_clocks;

// The core's scalars and the devices after the clocks done, their number, and the instructions finished.
#[derive(Clone, Copy)]
pub struct Gone {
    pub scalars: Scalars,
    pub devices: Devices,
    pub at: usize,
    pub finished: u64,
}

// Clocks up to the core's next access to a device, or none; at most 64.
fn quiet_ahead(
    g: Gone,
    program: &[u32],
    regs: &mut [u32; 16],
    cache: &mut Cache,
    store: &mut [u32],
    joined: bool,
    given: &[u8],
    levels: &mut [u8],
    bytes: &mut [u8],
    outs: &mut [u32],
) -> Gone
    requires { Some program.now joined given.now (stage (board_at (parts g.scalars regs.old cache.old) g.devices store.old)
        g.finished g.at levels.old bytes.old outs.old) }
    ensures { ((ws : List ℕ) → Turned program.now joined given.now ws (stage (board_at (parts g.scalars regs.old cache.old)
        g.devices store.old) g.finished g.at levels.old bytes.old outs.old) (stage
        (board_at (parts result.scalars regs.new cache.new)
        result.devices store.new) result.finished result.at levels.new bytes.new outs.new))
        × (g.at ≤ result.at) }
{
    let at = g.at;
    let count = g.scalars.counts.clocks;
    let k = stretch::stretch(at, given.len(), count);
    let lines = quiet_devices::line_bytes(g.devices.tick, given, at, k);
    let h = quiet_clocks::quiet_clocks(g.scalars, program, regs, cache, store, &lines[..k]);
    let to = at + h.at;
    let devices = quiet_devices::devices_ahead(
        g.devices, count, joined, given, levels, bytes, outs, at, to,
    );
    Gone {
        scalars: h.scalars,
        devices,
        at: to,
        finished: g.finished + h.finished,
    }
}

// The next clock, whatever it accesses.
fn next_clock(
    g: Gone,
    program: &[u32],
    regs: &mut [u32; 16],
    cache: &mut Cache,
    store: &mut [u32],
    joined: bool,
    given: &[u8],
    switches: &[u8],
    levels: &mut [u8],
    bytes: &mut [u8],
    outs: &mut [u32],
) -> Gone
    requires { At program.now joined given.now switches.now (stage
        (board_at (parts g.scalars regs.old cache.old) g.devices store.old)
        g.finished g.at levels.old bytes.old outs.old) × (g.at < length given.now) }
    ensures { Turned program.now joined given.now switches.now (stage (board_at (parts g.scalars regs.old cache.old)
        g.devices store.old) g.finished g.at levels.old bytes.old outs.old) (stage
        (board_at (parts result.scalars regs.new cache.new)
        result.devices store.new) result.finished result.at levels.new bytes.new outs.new)
        × (result.at ≡ g.at + 1) }
{
    let at = g.at;
    let t = board_clock::board_clock(
        g.scalars,
        g.devices,
        program,
        regs,
        cache,
        store,
        joined,
        given[at],
        switches[at],
    );
    levels[at] = t.level;
    bytes[at] = t.byte;
    outs[at] = t.word;
    Gone {
        scalars: t.scalars,
        devices: t.devices,
        at: at + 1,
        finished: g.finished + t.finished,
    }
}

// One clock for each byte of `given`; each writes its level, answer byte and word.
// Not a `for`: `quiet_ahead` does 0 to 64 clocks at a time.
pub fn board_clocks(
    c: Scalars,
    d: Devices,
    program: &[u32],
    regs: &mut [u32; 16],
    cache: &mut Cache,
    store: &mut [u32],
    joined: bool,
    given: &[u8],
    switches: &[u8],
    levels: &mut [u8],
    bytes: &mut [u8],
    outs: &mut [u32],
) -> Gone
    requires { Ready program.now (board_at (parts c regs.old cache.old) d store.old)
        (length given.now) × (length given.now ≡ length switches.now) × (length levels.old ≡ length given.now)
        × (length bytes.old ≡ length given.now) × (length outs.old ≡ length given.now) }
    ensures { record {
      state = board_at (parts result.scalars regs.new cache.new) result.devices store.new;
      used = length given.now;
      finished = result.finished;
      levels = levels.new;
      bytes = bytes.new;
      words = outs.new;
    } ≡ board_run_of program.now (board_at (parts c regs.old cache.old) d store.old) joined given.now switches.now }
{
    let mut g = Gone {
        scalars: c,
        devices: d,
        at: 0,
        finished: 0,
    };
    while g.at < given.len() {
        g = quiet_ahead(
            g, program, regs, cache, store, joined, given, levels, bytes, outs,
        );
        if g.at < given.len() {
            g = next_clock(
                g, program, regs, cache, store, joined, given, switches, levels, bytes, outs,
            );
        }
    }
    g
}
