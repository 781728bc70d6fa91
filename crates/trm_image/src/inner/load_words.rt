// Copies words of an image into an array and clears the rest of the array.
// Paper: "first data words, .. the rest being zero".
// Every word of the array is written, the first one first.
ghost use Rattle.std.specs.Prelude.{◌≡◌, ◌++◌, ◌-◌, ◌≤◌, length, replicate};
ghost use Rattle.trm_image.specs.Records.{words_at};

use crate::inner::bytes;

pub fn load_words(image: &[u8], at: usize, count: usize, out: &mut [u32])
    requires { (at ≤ 131072) × (count ≤ length out.old) × (length out.old ≤ 65536) }
    ensures { out.new ≡ words_at image.now at count ++ replicate (length out.old - count) 0 }
{
    for (i, word) in out[..count].iter_mut().enumerate() {
        *word = bytes::word_at(image, at + i * 4);
    }
    out[count..].fill(0);
}
