// The scalars after a reset: zeros, and the length of the store.
// Paper: "Reset makes everything zero"; row 4, "other than at reset".
// The store is borrowed only for its length.
ghost use Rattle.std.specs.Prelude.{◌≡◌, ◌^◌, ◌<◌, length};
ghost use Rattle.trm_reference.specs.Geometry.{paper_geometry};
ghost use Rattle.trm_core.specs.Record.{reset_of};

use crate::inner::scalars;
use trm_core::record::{Counts, Scalars};

fn no_counts() -> Counts
    ensures { result ≡ record { clocks = 0; held = 0; refills = 0; writebacks = 0 } }
{
    Counts {
        clocks: 0,
        held: 0,
        refills: 0,
        writebacks: 0,
    }
}

#[tactic(auto, unfolding(trm_core::specs::Record::reset_of))]
pub fn zero_scalars(store: &[u32]) -> Scalars
    requires { length store.now < 2 ^ 32 }
    ensures { result ≡ (reset_of paper_geometry store.now).scalars }
{
    Scalars {
        status: 0,
        pc: 0,
        n: 0,
        z: 0,
        c: 0,
        v: 0,
        running: scalars::in_phase(0, 0),
        h: 0,
        size: store.len() as u32,
        counts: no_counts(),
    }
}
