// Writes the digits of a number over the whole of a slice.
// Paper: "three and five capital hexadecimal digits .. in decimal".
// The base is a constant, so the compiler replaces the divisions.
ghost use Rattle.std.specs.Prelude.{◌≡◌, ◌≤◌, ◌<◌, length};
ghost use Rattle.trm_list_text.specs.Numbers.{digits};
ghost use Rattle.trm_list_text.specs.Numbers.{glyph as Numbers·glyph, places as Numbers·places};

const GLYPHS: [u8; 16] = *b"0123456789ABCDEF";

// A digit below 16, as a capital.
fn glyph(d: u64) -> u8
    requires { d < 16 }
    ensures { result ≡ Numbers·glyph d }
{
    GLYPHS[d as usize]
}

// A digit below 10, computed: a constant table is built anew wherever it is read.
fn figure(d: u64) -> u8
    requires { d < 10 }
    ensures { result ≡ Numbers·glyph d }
{
    b'0' + d as u8
}

// The last decimal digits, the lowest first, two per turn, so that a turn waits for one division by 100 and not for two by 10: a `while`.
pub fn spell_decimal(out: &mut [u8], n: u64)
    ensures { out.new ≡ digits 10 (length out.old) n }
{
    let mut i = out.len();
    let mut rest = n;
    while 1 < i {
        let high = rest / 10;
        i -= 1;
        out[i] = figure(rest % 10);
        i -= 1;
        out[i] = figure(high % 10);
        rest = high / 10;
    }
    if i == 1 {
        out[0] = figure(rest % 10);
    }
}

// The last hexadecimal digits, the lowest first.
pub fn spell_hex(out: &mut [u8], n: u64)
    ensures { out.new ≡ digits 16 (length out.old) n }
{
    let mut rest = n;
    for i in (0..out.len()).rev() {
        out[i] = glyph(rest % 16);
        rest /= 16;
    }
}

// How many decimal digits a number has: first the test for one, which most counts have, then by halves.
#[tactic(auto, unfolding(crate::specs::Numbers::places))]
pub fn places(n: u64) -> usize
    ensures { (result ≡ Numbers·places n) × (result ≤ 10) }
{
    if n < 10 {
        1
    } else if n < 10000 {
        if n < 100 {
            2
        } else if n < 1000 {
            3
        } else {
            4
        }
    } else if n < 1000000 {
        if n < 100000 { 5 } else { 6 }
    } else if n < 100000000 {
        if n < 10000000 { 7 } else { 8 }
    } else if n < 1000000000 {
        9
    } else {
        10
    }
}
