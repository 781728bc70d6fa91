// The refusals of the board's calls: the core's rows, row 5 for the board's own fields, and rows 6 and 7 for the lists of a run.
// Request A1: "A board field outside its range is refused with 5"; document 01: "Checks go down the table".
ghost use Rattle.std.specs.Prelude.{◌≡◌, not, ◌||◌, length, eqb};
ghost use Rattle.trm_call_refusals.specs.Numbers.{number_in};
ghost use Rattle.trm_board_calls.specs.Coded.{board_of};
ghost use Rattle.trm_board_calls.specs.Refusals.{board_rows, board_run_refusal};

use crate::board_record::Board;
use trm_board::inner::device_ranges;
use trm_call_refusals::inner::{record_rows, table_rows};
use trm_call_refusals::refusal::Refusal;

// Rows 3, 4 and 5: the core's record, then the board's fields.
#[tactic(auto, using(trm_call_refusals::proofs::Laws::rows), unfolding(crate::specs::Refusals::board_rows))]
fn board_refusal(b: Board, program: &[u32], store: &[u32]) -> Result<(), Refusal>
    ensures { number_in result ≡ board_rows program.now (board_of b store.now) 0 }
{
    let m = b.machine;
    let d = b.devices;
    record_rows::record_refusal(m.scalars, program, &m.regs, &m.cache, store)?;
    if !device_ranges::devices_fit(d) {
        return Err(Refusal::Record);
    }
    Ok(())
}

// Row 7 of a run: "other length than the run", for its three buffers.
fn buffers_refused(given: &[u8], levels: &[u8], bytes: &[u8], words: &[u32]) -> bool
    ensures { result ≡ (not (eqb (length levels.now) (length given.now)) || not (eqb (length bytes.now) (length given.now))
        || not (eqb (length words.now) (length given.now))) }
{
    levels.len() != given.len() || bytes.len() != given.len() || words.len() != given.len()
}

// A run: row 6, whose input words are the switches here, row 7, then row 8 for all its clocks.
#[tactic(auto, using(crate::proofs::Laws::Rows::run_laws), unfolding(crate::specs::Refusals::board_run_refusal))]
pub fn run_refusal(
    b: Board,
    program: &[u32],
    store: &[u32],
    given: &[u8],
    switches: &[u8],
    levels: &[u8],
    bytes: &[u8],
    words: &[u32],
) -> Result<(), Refusal>
    ensures { number_in result ≡ board_run_refusal program.now (board_of b store.now)
        given.now switches.now levels.now bytes.now words.now }
{
    board_refusal(b, program, store)?;
    if table_rows::line_bytes_refused(given, switches) {
        return Err(Refusal::LineBytes);
    }
    if buffers_refused(given, levels, bytes, words) {
        return Err(Refusal::Buffers);
    }
    let m = b.machine;
    let c = m.scalars;
    if table_rows::clocks_refused(c.counts.clocks, given.len() as u64) {
        return Err(Refusal::Clocks);
    }
    Ok(())
}
