// The record after a reset: zeros, and the length of the store.
// Paper: "Reset makes everything zero and the cache empty; the store keeps its contents".
// For C a refused reset returns the record of an empty store; no legal store is empty, so every call refuses that record (D-37).
ghost use Rattle.std.specs.Prelude.{◌≡◌, ◌^◌, ◌<◌, length};
ghost use Rattle.trm_reference.specs.Geometry.{paper_geometry};
ghost use Rattle.trm_core.specs.Record.{reset_of};
ghost use Rattle.trm_run_machine.specs.Machine.{record_of};

use crate::machine::Machine;
use trm_cache::record::Cache;
use trm_clock_scalars::inner::zero_scalars;

pub fn zero_record(store: &[u32]) -> Machine
    requires { length store.now < 2 ^ 32 }
    ensures { record_of result ≡ reset_of paper_geometry store.now }
{
    let scalars = zero_scalars::zero_scalars(store);
    let cache = Cache {
        full: [0; 16],
        dirty: [0; 16],
        block: [0; 16],
        words: [0; 128],
    };
    Machine {
        scalars,
        regs: [0; 16],
        cache,
    }
}
