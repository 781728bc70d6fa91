// Writes whole rows of the listing to a buffer; each function requires the room of its longest row.
// Paper: "Fields: clock count at the end, address and word .., unheld clocks, the counts in decimal".
// specs/Rows.antt defines their bytes. `at` is how far the buffer is filled; each returns how far it is filled afterwards, which a listing
// keeps from one row to the next.
ghost use Rattle.std.specs.Prelude.{◌≡◌, ◌+◌, ◌≤◌, length};
ghost use Rattle.trm_list_text.specs.Rows.{header, shown_bytes, row_bytes, end_bytes, refused_bytes};
ghost use Rattle.trm_list_text.specs.Wrote.{Wrote};

use crate::inner::buffer_text::Text;

// What a row shows as its word: the executed word, or the interrupt of line 0 or 1.
#[derive(Clone, Copy)]
pub enum Shown {
    Word(u32),
    Irq0,
    Irq1,
}

#[tactic(auto, unfolding(crate::specs::Rows::shown_bytes))]
fn put_shown(text: &mut Text, shown: Shown)
    requires { text.old.len + 5 ≤ length text.old.buf.now }
    ensures same_buffer { text.new.buf.ghost_name ≡ text.old.buf.ghost_name }
    ensures wrote { Wrote text.old.buf.now text.old.len (shown_bytes shown) text.new.buf.now text.new.len }
    ensures short { text.new.len ≤ text.old.len + 5 }
{
    match shown {
        Shown::Word(w) => text.put_hex(5, u64::from(w)),
        Shown::Irq0 => text.put_text(b"irq0"),
        Shown::Irq1 => text.put_text(b"irq1"),
    }
}

// The row of an executed word or of an interrupt.
pub fn put_row(buf: &mut [u8], at: usize, clock: u64, pc: u64, shown: Shown, took: u64) -> usize
    requires { at + 32 ≤ length buf.old }
    ensures { Wrote buf.old at (row_bytes (record { clock = clock; at = pc; shown = shown; took = took }))
        buf.new result × (result ≤ at + 32) }
{
    let mut text = Text { buf, len: at };
    text.put_decimal(clock);
    text.put_byte(b' ');
    text.put_hex(3, pc);
    text.put_byte(b' ');
    put_shown(&mut text, shown);
    text.put_byte(b' ');
    text.put_decimal(took);
    text.put_byte(b'\n');
    text.len
}

pub fn put_header(buf: &mut [u8], at: usize) -> usize
    requires { at + 19 ≤ length buf.old }
    ensures { Wrote buf.old at header buf.new result × (result ≡ at + 19) }
{
    let mut text = Text { buf, len: at };
    text.put_text(b"clock at word took\n");
    text.len
}

pub fn put_end(
    buf: &mut [u8],
    at: usize,
    clocks: u64,
    held: u64,
    refills: u64,
    writebacks: u64,
) -> usize
    requires { at + 80 ≤ length buf.old }
    ensures { Wrote buf.old at (end_bytes clocks held refills writebacks) buf.new result × (result ≤ at + 80) }
{
    let mut text = Text { buf, len: at };
    text.put_text(b"end ");
    text.put_decimal(clocks);
    text.put_text(b" held ");
    text.put_decimal(held);
    text.put_text(b" refills ");
    text.put_decimal(refills);
    text.put_text(b" writebacks ");
    text.put_decimal(writebacks);
    text.put_byte(b'\n');
    text.len
}

#[tactic(auto, using(crate::proofs::Laws::Wrote::wrote_then), unfolding(crate::specs::Rows::refused_bytes))]
pub fn put_refused(buf: &mut [u8], at: usize, number: u64, offset: u64) -> usize
    requires { at + 32 ≤ length buf.old }
    ensures { Wrote buf.old at (refused_bytes number offset) buf.new result × (result ≤ at + 32) }
{
    let mut text = Text { buf, len: at };
    text.put_text(b"refused ");
    text.put_decimal(number);
    text.put_byte(b' ');
    text.put_decimal(offset);
    text.put_byte(b'\n');
    text.len
}
