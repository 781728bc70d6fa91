// The calls on an image: the check of a whole image, and a record's payload as a slice of the image.
// Paper: "checks it whole"; "The reader hands back the payload as a part of the image itself".
// Any bytes, any offset and any store length give a result; nothing is written.
ghost use Rattle.std.specs.Prelude.{◌≡◌};
ghost use Rattle.trm_image.specs.Numbers.{refusal_number};
ghost use Rattle.trm_image.specs.Refused.{payload_fault};
ghost use Rattle.trm_image.specs.Promises.{CheckHolds, payload_gives};

use crate::fault::{Fault, Refusal};
use crate::inner::{bytes, image_rows, payload_part};

// Checks a whole image for a store of `words` words: the first fault, if any, and where its record begins.
// A `while`, as each record says where the next one begins.
#[tactic(auto, unfolding(crate::specs::Refused::image_fault, crate::specs::Records::records_of))]
pub fn check(image: &[u8], words: usize) -> Result<(), Refusal>
    ensures { CheckHolds words image.now result }
{
    if image.len() > 65536 {
        return Err(Refusal::of_image(Fault::Frame));
    }
    if image.is_empty() {
        return Err(Refusal::of_image(Fault::Kind));
    }
    let mut at: usize = 0;
    let mut before: u32 = 0;
    while at < image.len() {
        if let Err(fault) = image_rows::fault_at(image, before, at, words) {
            return Err(Refusal { fault, at });
        }
        before = bytes::half_at(image, at + 4);
        at += 6 + bytes::word_at(image, at) as usize;
    }
    Ok(())
}

// Whether the payload of the record at `at` is refused: the image is too long, no record begins there, or the record is cut short.
#[tactic(auto, unfolding(crate::specs::Refused::payload_fault))]
pub fn payload_fault(image: &[u8], at: usize) -> Result<(), Fault>
    ensures { refusal_number result ≡ payload_fault image.now at }
{
    if image.len() > 65536 {
        return Err(Fault::Frame);
    }
    if !payload_part::record_at(image, at) {
        return Err(Fault::Kind);
    }
    if image_rows::cut_short(image, at) {
        return Err(Fault::Frame); // its end is missing
    }
    Ok(())
}

// The payload of the record at `at` as a slice of the image; empty if it is refused.
#[tactic(auto, unfolding(crate::specs::Promises::payload_gives))]
pub fn payload(image: &[u8], at: usize) -> &[u8]
    ensures { result.now ≡ payload_gives image.now at }
{
    match payload_fault(image, at) {
        Ok(()) => payload_part::part_at(image, at),
        Err(_) => &image[0..0],
    }
}
