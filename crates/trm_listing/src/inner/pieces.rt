// The listing of an image in pieces: each call writes the next bytes to the buffer.
// Paper: "reads an image .. with a store of 2,048 words, checks it whole, and runs it".
// The program is checked once, by the check of the image; words are read from payloads; the caller takes each piece before the next call.
ghost use Rattle.std.specs.Prelude.{◌≡◌, ◌≤◌, length};
ghost use Rattle.trm_listing.specs.Loaded.{Loadable, Loaded};
ghost use Rattle.trm_listing.specs.Pieces.{Ready, StartHolds, PieceHolds};

use crate::inner::runs::Place;
use crate::inner::{finish, runs};
use trm_image::inner::{bytes, load_words as load, payload_part};
use trm_image::reader;
use trm_list_rows::inner::listed::Listed;
use trm_list_text::inner::row_text;
use trm_run_machine::inner::zero_record as reset;
use trm_run_machine::machine::Machine;
use trm_word::inner::charge::Charges;

// The machine; the number of its program's words; where the next record begins; of the current run the clocks left, line byte and input
// word; the unheld clocks of the word in flight; how far the buffer is filled, and whether the listing is over.
#[derive(Clone, Copy)]
pub struct Listing {
    pub machine: Machine,
    pub words: usize,
    pub at: usize,
    pub left: usize,
    pub pins: u8,
    pub input: u32,
    pub took: u64,
    pub len: usize,
    pub over: bool,
}

// Loads the first data words of an accepted image into the store; returns where its first run begins.
fn load_store(image: &[u8], store: &mut [u32]) -> usize
    requires { Loadable image.now store.old }
    ensures { Loaded image.now store.new result }
{
    let at = 6 + bytes::word_at(image, 0) as usize;
    if bytes::half_at(image, at + 4) != 2 {
        load::load_words(image, at, 0, store);
        return at;
    }
    let payload = payload_part::part_at(image, at);
    load::load_words(payload, 0, payload.len() / 4, store);
    at + 6 + payload.len()
}

// Checks the whole image; then loads program and store and writes the header, or writes the row of the refusal.
pub fn first_piece(image: &[u8], program: &mut [u32], store: &mut [u32], buf: &mut [u8]) -> Listing
    requires { (length program.old ≡ 4096) × (length store.old ≡ 2048) × (128 ≤ length buf.old) }
    ensures { StartHolds image.now program.old store.old buf.old result program.new store.new buf.new }
{
    if let Err(refusal) = reader::check(image, 2048) {
        let number = u64::from(u32::from(refusal.fault));
        let len = row_text::put_refused(buf, 0, number, refusal.at as u64);
        return Listing {
            machine: reset::zero_record(store),
            words: 0,
            at: 0,
            left: 0,
            pins: 0,
            input: 0,
            took: 0,
            len,
            over: true,
        };
    }
    let payload = payload_part::part_at(image, 0);
    let words = payload.len() / 4;
    load::load_words(payload, 0, words, program);
    let at = load_store(image, store);
    let machine = reset::zero_record(store);
    let len = row_text::put_header(buf, 0);
    Listing {
        machine,
        words,
        at,
        left: 0,
        pins: 0,
        input: 0,
        took: 0,
        len,
        over: false,
    }
}

// Writes the next piece from the beginning of the buffer on; nothing once the listing is over.
pub fn next_piece(
    l: Listing,
    image: &[u8],
    program: &[u32],
    store: &mut [u32],
    buf: &mut [u8],
) -> Listing
    requires { Ready image.now program.now store.old l × (128 ≤ length buf.old) }
    ensures { PieceHolds image.now program.now store.old buf.old l result store.new buf.new }
{
    if l.over {
        return Listing { len: 0, ..l };
    }
    let mut m = l.machine;
    let q = Place {
        listed: Listed {
            scalars: m.scalars,
            left: l.left,
            took: l.took,
            len: 0,
        },
        at: l.at,
        pins: l.pins,
        input: l.input,
    };
    let base = Charges::new();
    let r = runs::list_runs(
        q,
        image,
        program,
        &mut m.regs,
        &mut m.cache,
        store,
        &base,
        buf,
    );
    let end = finish::put_last(r, buf);
    m.scalars = r.listed.scalars;
    Listing {
        machine: m,
        at: r.at,
        left: r.listed.left,
        pins: r.pins,
        input: r.input,
        took: r.listed.took,
        len: end.len,
        over: end.over,
        ..l
    }
}
