// Reading bytes and little-endian numbers of an image at any offset; bytes past the end read as 0.
// Paper: "Words are 4 bytes, little-endian like the rest".
// specs/Records.antt defines the numbers read.
ghost use Rattle.std.specs.Prelude.{◌≡◌, ◌+◌, ◌≤◌, get_or};
ghost use Rattle.trm_image.specs.Records.{le2, le4};

pub fn byte_at(s: &[u8], at: usize) -> u8
    ensures { result ≡ get_or s.now at 0 }
{
    s.get(at).copied().unwrap_or(0)
}

pub fn word_at(s: &[u8], at: usize) -> u32
    requires { at + 4 ≤ 18446744073709551615 }
    ensures { result ≡ le4 s.now at }
{
    u32::from_le_bytes([
        byte_at(s, at),
        byte_at(s, at + 1),
        byte_at(s, at + 2),
        byte_at(s, at + 3),
    ])
}

pub fn half_at(s: &[u8], at: usize) -> u32
    requires { at + 4 ≤ 18446744073709551615 }
    ensures { result ≡ le2 s.now at }
{
    u32::from(u16::from_le_bytes([byte_at(s, at), byte_at(s, at + 1)]))
}
