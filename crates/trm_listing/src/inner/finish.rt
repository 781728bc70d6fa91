// The last row of a listing.
// Paper: "`end` ..", the clock count and the counts of held clocks, refills and write-backs.
// If there is no room for it, the next piece has it.
ghost use Rattle.std.specs.Prelude.{◌≤◌, length};
ghost use Rattle.trm_listing.specs.Pieces.{EndHolds};

use crate::inner::runs::Place;
use trm_list_text::inner::row_text;

// How far the buffer is filled, and whether the listing is over.
#[derive(Clone, Copy)]
pub struct Ended {
    pub len: usize,
    pub over: bool,
}

pub fn put_last(q: Place, buf: &mut [u8]) -> Ended
    requires { (q.listed.len ≤ length buf.old) × (128 ≤ length buf.old) }
    ensures { EndHolds q buf.old result buf.new }
{
    let l = q.listed;
    if l.left != 0 || buf.len() - l.len < 80 {
        return Ended {
            len: l.len,
            over: false,
        };
    }
    let c = l.scalars;
    let len = row_text::put_end(
        buf,
        l.len,
        c.counts.clocks,
        c.counts.held,
        c.counts.refills,
        c.counts.writebacks,
    );
    Ended { len, over: true }
}
