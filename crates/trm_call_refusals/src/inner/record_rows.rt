// Rows 3, 4 and 5, which every call that takes the record checks first.
// Paper: "Where calls are turned down", rows 3 to 5; "Checks go down the table".
// One test for each row, in the table's order.
ghost use Rattle.std.specs.Prelude.{◌≡◌};
ghost use Rattle.trm_reference.specs.Geometry.{paper_geometry};
ghost use Rattle.trm_core.specs.Record.{whole};
ghost use Rattle.trm_core.specs.Refusals.{record_rows};
ghost use Rattle.trm_call_refusals.specs.Numbers.{number_in};

use crate::refusal::Refusal;
use trm_cache::record::Cache;
use trm_core::record::Scalars;

// Row 3 the program, row 4 the store, row 5 the record.
#[tactic(auto, using(crate::proofs::Laws::first_rows), unfolding(trm_core::specs::Refusals::record_rows))]
pub fn record_refusal(
    c: Scalars,
    program: &[u32],
    regs: &[u32; 16],
    cache: &Cache,
    store: &[u32],
) -> Result<(), Refusal>
    ensures { number_in result ≡ record_rows paper_geometry program.now (whole c regs.now cache.now) store.now 0 }
{
    if !super::table_rows::program_ok(program) {
        return Err(Refusal::Program);
    }
    if !super::table_rows::store_ok(c.size, store) {
        return Err(Refusal::Store);
    }
    if !trm_call_rule::inner::record_rule::record_ok(c, program, regs, cache, store.len() as u64) {
        return Err(Refusal::Record);
    }
    Ok(())
}
