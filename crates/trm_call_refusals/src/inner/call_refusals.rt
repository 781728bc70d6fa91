// The refusal of each call: reset, one clock, a run, look, copy, watch.
// Paper: "Checks go down the table; a call skips rows about things it does not take."
// A call that takes the record checks rows 3, 4 and 5 first, then its other rows, in the table's order.
ghost use Rattle.std.specs.Prelude.{◌≡◌};
ghost use Rattle.trm_reference.specs.Geometry.{paper_geometry};
ghost use Rattle.trm_core.specs.Record.{whole};
ghost use Rattle.trm_core.specs.Refusals.{reset_refusal, clock_refusal, run_refusal, look_refusal, copy_refusal, watch_refusal};
ghost use Rattle.trm_call_refusals.specs.Numbers.{number_in};

use crate::inner::{record_rows, table_rows};
use crate::refusal::Refusal;
use trm_cache::record::Cache;
use trm_core::record::Scalars;

// A reset, which takes only the store.
#[tactic(auto, unfolding(trm_core::specs::Refusals::reset_refusal))]
pub fn reset_refusal(store: &[u32]) -> Result<(), Refusal>
    ensures { number_in result ≡ reset_refusal store.now }
{
    if !trm_word::inner::address::store_length_ok(store.len() as u64) {
        return Err(Refusal::Store);
    }
    Ok(())
}

// One clock.
#[tactic(auto, using(crate::proofs::Laws::rows), unfolding(trm_core::specs::Refusals::clock_refusal))]
pub fn clock_refusal(
    c: Scalars,
    program: &[u32],
    regs: &[u32; 16],
    cache: &Cache,
    store: &[u32],
    pins: u8,
) -> Result<(), Refusal>
    ensures { number_in result ≡ clock_refusal paper_geometry program.now (whole c regs.now cache.now) store.now pins }
{
    record_rows::record_refusal(c, program, regs, cache, store)?;
    if pins > 7 {
        return Err(Refusal::LineBytes);
    }
    if table_rows::clocks_refused(c.counts.clocks, 1) {
        return Err(Refusal::Clocks);
    }
    Ok(())
}

// A run: a line byte and an input word for each clock, and two buffers for the answers.
#[tactic(auto, using(crate::proofs::Laws::rows), unfolding(trm_core::specs::Refusals::run_refusal))]
pub fn run_refusal(
    c: Scalars,
    program: &[u32],
    regs: &[u32; 16],
    cache: &Cache,
    store: &[u32],
    pins: &[u8],
    inputs: &[u32],
    bytes: &[u8],
    outs: &[u32],
) -> Result<(), Refusal>
    ensures { number_in result ≡ run_refusal paper_geometry program.now (whole c regs.now cache.now)
        store.now pins.now inputs.now bytes.now outs.now }
{
    record_rows::record_refusal(c, program, regs, cache, store)?;
    if table_rows::line_bytes_refused(pins, inputs) {
        return Err(Refusal::LineBytes);
    }
    if table_rows::buffers_refused(pins, bytes, outs) {
        return Err(Refusal::Buffers);
    }
    if table_rows::clocks_refused(c.counts.clocks, pins.len() as u64) {
        return Err(Refusal::Clocks);
    }
    Ok(())
}

// A look at one address.
#[tactic(auto, using(crate::proofs::Laws::rows), unfolding(trm_core::specs::Refusals::look_refusal))]
pub fn look_refusal(
    c: Scalars,
    program: &[u32],
    regs: &[u32; 16],
    cache: &Cache,
    store: &[u32],
    address: u32,
) -> Result<(), Refusal>
    ensures { number_in result ≡ look_refusal paper_geometry program.now (whole c regs.now cache.now) store.now address }
{
    record_rows::record_refusal(c, program, regs, cache, store)?;
    if address > 0xFFBF {
        return Err(Refusal::Place);
    }
    Ok(())
}

// A copy into a buffer.
#[tactic(auto, using(crate::proofs::Laws::rows), unfolding(trm_core::specs::Refusals::copy_refusal))]
pub fn copy_refusal(
    c: Scalars,
    program: &[u32],
    regs: &[u32; 16],
    cache: &Cache,
    store: &[u32],
    buffer: &[u32],
) -> Result<(), Refusal>
    ensures { number_in result ≡ copy_refusal paper_geometry program.now (whole c regs.now cache.now) store.now buffer.now }
{
    record_rows::record_refusal(c, program, regs, cache, store)?;
    if buffer.len() != store.len() {
        return Err(Refusal::Buffers);
    }
    Ok(())
}

// A watch of a device.
#[tactic(auto, unfolding(trm_core::specs::Refusals::watch_refusal))]
pub fn watch_refusal(device: u32) -> Result<(), Refusal>
    ensures { number_in result ≡ watch_refusal device }
{
    if device > 63 {
        return Err(Refusal::Place);
    }
    Ok(())
}
