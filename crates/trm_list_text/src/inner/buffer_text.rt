// Text in a buffer that is lent: each method writes behind the text that is there.
// Paper: "three and five capital hexadecimal digits .. in decimal".
// Each keeps the buffer itself, so that its lender sees the text.
ghost use Rattle.std.specs.Prelude.{◌≡◌, [], ◌∷◌, ◌+◌, ◌≤◌, ◌<◌, length};
ghost use Rattle.trm_list_text.specs.Numbers.{decimal, hex};
ghost use Rattle.trm_list_text.specs.Wrote.{Wrote};

use crate::inner::number_text;

// The first `len` bytes of the buffer.
#[derive(Drop)]
pub struct Text<'a> {
    pub buf: &'a mut [u8],
    pub len: usize,
}

impl Text<'_> {
    pub fn put_byte(&mut self, b: u8)
        requires { self.old.len < length self.old.buf.now }
        ensures same_buffer { self.new.buf.ghost_name ≡ self.old.buf.ghost_name }
        ensures wrote { Wrote self.old.buf.now self.old.len (b ∷ []) self.new.buf.now self.new.len }
    {
        self.buf[self.len] = b;
        self.len += 1;
    }

    // The bytes of a list.
    pub fn put_text(&mut self, text: &[u8])
        requires { self.old.len + length text.now ≤ length self.old.buf.now }
        ensures same_buffer { self.new.buf.ghost_name ≡ self.old.buf.ghost_name }
        ensures wrote { Wrote self.old.buf.now self.old.len text.now self.new.buf.now self.new.len }
    {
        let end = self.len + text.len();
        self.buf[self.len..end].copy_from_slice(text);
        self.len = end;
    }

    #[tactic(auto, using(crate::proofs::Laws::Digits::digits_long), unfolding(crate::specs::Numbers::decimal))]
    pub fn put_decimal(&mut self, n: u64)
        requires { self.old.len + 10 ≤ length self.old.buf.now }
        ensures same_buffer { self.new.buf.ghost_name ≡ self.old.buf.ghost_name }
        ensures wrote { Wrote self.old.buf.now self.old.len (decimal n) self.new.buf.now self.new.len }
        ensures short { self.new.len ≤ self.old.len + 10 }
    {
        let end = self.len + number_text::places(n);
        number_text::spell_decimal(&mut self.buf[self.len..end], n);
        self.len = end;
    }

    // The last k hexadecimal digits.
    #[tactic(auto, using(crate::proofs::Laws::Digits::digits_long), unfolding(crate::specs::Numbers::hex))]
    pub fn put_hex(&mut self, k: usize, n: u64)
        requires { self.old.len + k ≤ length self.old.buf.now }
        ensures same_buffer { self.new.buf.ghost_name ≡ self.old.buf.ghost_name }
        ensures wrote { Wrote self.old.buf.now self.old.len (hex k n) self.new.buf.now self.new.len }
        ensures long { self.new.len ≡ self.old.len + k }
    {
        let end = self.len + k;
        number_text::spell_hex(&mut self.buf[self.len..end], n);
        self.len = end;
    }
}
