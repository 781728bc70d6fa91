// The runs of an image one by one: the clocks of the current run, then the next record.
// Paper: "Kind 3, any number: 9 bytes, count 1-65,536 (4), line byte, input word (4)"; "A clock with stall set is held".
// All clocks of a run have the same line byte, so a run is held as a whole or not at all.
ghost use Rattle.std.specs.Prelude.{◌≡◌, ◌≢◌, ◌+◌, ◌≤◌, ◌<◌, length};
ghost use Rattle.trm_image.specs.Records.{length_at};
ghost use Rattle.trm_image.specs.Refused.{count_at, line_byte_at, input_at};
ghost use Rattle.trm_list_rows.specs.Onward.{lent_of, Able, Onward};
ghost use Rattle.trm_listing.specs.Rest.{held_by, Stands, Along};

use trm_cache::record::Cache;
use trm_clock_scalars::inner::interrupt;
use trm_core::record::Scalars;
use trm_image::inner::{bytes, payload_part};
use trm_list_rows::inner::listed::Listed;
use trm_list_rows::inner::row_clocks;
use trm_word::inner::charge::Charges;

// The place of a listing in an image: within a run, and where the record after it begins.
#[derive(Clone, Copy)]
pub struct Place {
    pub listed: Listed,
    pub at: usize,
    pub pins: u8,
    pub input: u32,
}

// n held clocks.
fn hold_all(mut c: Scalars, n: usize) -> Scalars
    requires { (c.counts.clocks + n ≤ 4294967295) × (c.counts.held + n ≤ 8589934591) }
    ensures { result ≡ held_by c n }
{
    c.counts.clocks += n as u64;
    c.counts.held += n as u64;
    c
}

// Runs the clocks of the current run until none is left or the buffer has no room for a row.
fn run_clocks(
    l: Listed,
    program: &[u32],
    regs: &mut [u32; 16],
    cache: &mut Cache,
    store: &mut [u32],
    pins: u8,
    input: u32,
    base: &Charges,
    buf: &mut [u8],
) -> Listed
    requires { Able program.now (lent_of l regs.old cache.old store.old)
        l.took l.left (record { line_byte = pins; input = input })
        × (l.len ≤ length buf.old) }
    ensures { Onward program.now (record { line_byte = pins; input = input })
        l (lent_of l regs.old cache.old store.old) buf.old result (lent_of result regs.new cache.new store.new) buf.new
        × (result.left ≢ 0 → length buf.old < result.len + 32) }
{
    if interrupt::is_stalled(pins) {
        return Listed {
            scalars: hold_all(l.scalars, l.left),
            left: 0,
            ..l
        };
    }
    row_clocks::list_clocks(l, program, regs, cache, store, pins, input, base, buf)
}

// Reads the next record, a run, from the nine bytes of its payload.
fn next_run(q: Place, image: &[u8]) -> Place
    requires { (length_at image.now q.at ≡ 9) × (q.at + 15 ≤ length image.now) }
    ensures { result ≡ record {
      listed = record {
        scalars = q.listed.scalars;
        left = count_at image.now q.at;
        took = q.listed.took;
        len = q.listed.len;
      };
      at = q.at + 15;
      pins = line_byte_at image.now q.at;
      input = input_at image.now q.at;
    } }
{
    let payload = payload_part::part_at(image, q.at);
    let count = bytes::word_at(payload, 0);
    let listed = Listed {
        left: count as usize,
        ..q.listed
    };
    Place {
        listed,
        at: q.at + 15,
        pins: bytes::byte_at(payload, 4),
        input: bytes::word_at(payload, 5),
    }
}

// Runs the clocks of the current run and returns the new place.
fn run_here(
    q: Place,
    image: &[u8],
    program: &[u32],
    regs: &mut [u32; 16],
    cache: &mut Cache,
    store: &mut [u32],
    base: &Charges,
    buf: &mut [u8],
) -> Place
    requires { Stands image.now program.now q (lent_of q.listed regs.old cache.old store.old) buf.old }
    ensures { Along image.now program.now q (lent_of q.listed regs.old cache.old store.old) buf.old result
        (lent_of result.listed regs.new cache.new store.new) buf.new
        × (result.listed.left ≢ 0 → length buf.old < result.listed.len + 32) × (result.at ≡ q.at) }
{
    let listed = run_clocks(
        q.listed, program, regs, cache, store, q.pins, q.input, base, buf,
    );
    Place { listed, ..q }
}

// Runs the current run and all later ones, until none is left or the buffer has no room for a row. Not a `for`: it may stop in the middle
// of a run, and the next piece goes on there.
pub fn list_runs(
    q: Place,
    image: &[u8],
    program: &[u32],
    regs: &mut [u32; 16],
    cache: &mut Cache,
    store: &mut [u32],
    base: &Charges,
    buf: &mut [u8],
) -> Place
    requires { Stands image.now program.now q (lent_of q.listed regs.old cache.old store.old) buf.old }
    ensures { Along image.now program.now q (lent_of q.listed regs.old cache.old store.old) buf.old result
        (lent_of result.listed regs.new cache.new store.new) buf.new
        × (result.listed.left ≢ 0 → length buf.old < result.listed.len + 32)
        × (result.listed.left ≡ 0 → length image.now ≤ result.at) }
{
    let mut p = run_here(q, image, program, regs, cache, store, base, buf);
    while p.at < image.len() {
        if p.listed.left != 0 {
            return p;
        }
        let next = next_run(p, image);
        p = run_here(next, image, program, regs, cache, store, base, buf);
    }
    p
}
