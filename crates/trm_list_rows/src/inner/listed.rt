// The state of a listing within a run, and one more clock with its row, if it has one.
// Paper: "clock count at the end, address and word .., unheld clocks".
// Held clocks do not occur here: all clocks of a run have the same line byte, and a held run is handled as a whole.
ghost use Rattle.std.specs.Prelude.{◌≡◌, cond, ◌+◌, ◌≤◌, ◌<◌, length, eqb};
ghost use Rattle.trm_list_text.specs.declared.inner.row_text.Shown.TheVariants.{Irq0, Irq1};
ghost use Rattle.trm_list_rows.specs.Onward.{Went, Interrupted};

use trm_clock_laws::inner::outcome::Clocked;
use trm_core::record::Scalars;
use trm_list_text::inner::row_text;
use trm_list_text::inner::row_text::Shown;

// The scalars; the clocks left of the run; the unheld clocks of the word in flight so far; how far the buffer is filled.
#[derive(Clone, Copy)]
pub struct Listed {
    pub scalars: Scalars,
    pub left: usize,
    pub took: u64,
    pub len: usize,
}

// One clock that takes no interrupt; r is its outcome, w the word at PC. An executed word has a row.
#[tactic(auto, using(trm_list_text::proofs::Laws::Wrote::wrote_none))]
pub fn went(l: Listed, r: Clocked, w: u32, buf: &mut [u8]) -> Listed
    requires { (l.len + 32 ≤ length buf.old) × (0 < l.left) × (l.took ≤ 4294967295) }
    ensures { Went l r w buf.old result buf.new }
{
    if r.finished != 1 {
        return Listed {
            scalars: r.scalars,
            left: l.left - 1,
            took: l.took + 1,
            ..l
        };
    }
    let len = row_text::put_row(
        buf,
        l.len,
        r.scalars.counts.clocks,
        l.scalars.pc,
        Shown::Word(w),
        l.took + 1,
    );
    Listed {
        scalars: r.scalars,
        left: l.left - 1,
        took: 0,
        len,
    }
}

// What the row of an interrupt that goes to this PC shows.
fn interrupt_shown(to: u64) -> Shown
    ensures { result ≡ cond (eqb to 2) Irq0 Irq1 }
{
    if to == 2 { Shown::Irq0 } else { Shown::Irq1 }
}

// One clock that takes an interrupt and goes to this PC; c are the scalars after it.
pub fn interrupted(l: Listed, c: Scalars, to: u64, buf: &mut [u8]) -> Listed
    requires { (l.len + 32 ≤ length buf.old) × (0 < l.left) }
    ensures { Interrupted l c to buf.old result buf.new }
{
    let shown = interrupt_shown(to);
    let len = row_text::put_row(buf, l.len, c.counts.clocks, l.scalars.pc, shown, 1);
    Listed {
        scalars: c,
        left: l.left - 1,
        took: 0,
        len,
    }
}
