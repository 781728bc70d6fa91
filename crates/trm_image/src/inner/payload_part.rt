// A record of an image: whether one begins at an offset, and its payload as a slice of the image.
// Paper: "The image reader returns a part of the caller's byte slice, from payload start to payload end".
// The reader returns this slice, and the listing reads words and runs from it.
ghost use Rattle.std.specs.Prelude.{◌≡◌, ◌+◌, ◌≤◌, length};
ghost use Rattle.trm_image.specs.Records.{length_at, payload_at, record_at};

use crate::inner::bytes;

// Goes from record to record until one begins at `at` or the image ends. A `while`, as each record says where the next one begins.
pub fn record_at(image: &[u8], at: usize) -> bool
    ensures { result ≡ record_at image.now at }
{
    let mut place: usize = 0;
    while place < image.len() {
        if at == place {
            return true;
        }
        place += 6 + bytes::word_at(image, place) as usize;
    }
    false
}

// The payload of the record at `at`, which must not be cut short.
#[tactic(auto, unfolding(crate::specs::Records::payload_at))]
pub fn part_at(image: &[u8], at: usize) -> &[u8]
    requires { at + 6 + length_at image.now at ≤ length image.now }
    ensures { result.now ≡ payload_at image.now at }
{
    let start = at + 6;
    let end = start + bytes::word_at(image, at) as usize;
    &image[start..end]
}
