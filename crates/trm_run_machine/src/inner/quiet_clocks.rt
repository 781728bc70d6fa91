// Clocks on the parts of a record, in place, up to the next access to a device, which is left to the caller.
// Paper: "a device is read or written only in that clock".
// The caller asks for the device's word only then. No clock here has an answer, so its buffers and input words are local zeros.
ghost use Rattle.std.specs.Prelude.{◌≤◌, length, take};
ghost use Rattle.trm_run_machine.specs.Machine.{lent, parts};
ghost use Rattle.trm_run_machine.specs.Quiet.{Silent, Able};

use crate::inner::turns;
use trm_cache::record::Cache;
use trm_core::record::Scalars;
use trm_run_phases::inner::going::Going;

// Returns the scalars, how many clocks were done (at most one for each line byte) and how many instructions they finished.
pub fn quiet_clocks(
    c: Scalars,
    program: &[u32],
    regs: &mut [u32; 16],
    cache: &mut Cache,
    store: &mut [u32],
    pins: &[u8],
) -> Going
    requires { Able program.now (lent (parts c regs.old cache.old) store.old) pins.now }
    ensures { (result.at ≤ length pins.now) × Silent program.now (take result.at pins.now) (lent (parts c regs.old cache.old)
        store.old) (lent (parts result.scalars regs.new cache.new) store.new) result.finished }
{
    let n = pins.len();
    let inputs = [0u32; 64];
    let mut bytes = [0u8; 64];
    let mut outs = [0u32; 64];
    let began = Going {
        scalars: c,
        at: 0,
        finished: 0,
    };
    turns::all_turns(
        began,
        program,
        regs,
        cache,
        store,
        pins,
        &inputs[..n],
        &mut bytes[..n],
        &mut outs[..n],
        true,
    )
}
