// The record that a refused reset returns: that of an empty store.
// Paper: "Reset makes everything zero and the cache empty".
// No legal store is empty, so every call refuses this record (D-37).
ghost use Rattle.std.specs.Prelude.{◌≡◌, []};
ghost use Rattle.trm_reference.specs.Geometry.{paper_geometry};
ghost use Rattle.trm_core.specs.Record.{reset_of};
ghost use Rattle.trm_run_machine.specs.Machine.{record_of};

use trm_run_machine::inner::zero_record;
use trm_run_machine::machine::Machine;

pub fn empty_record() -> Machine
    ensures { record_of result ≡ reset_of paper_geometry [] }
{
    let none: [u32; 0] = [];
    zero_record::zero_record(&none)
}
