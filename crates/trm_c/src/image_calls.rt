// The check of an image and the payload of a record, exported to C: each is the function of that name of the crate trm, with its clauses.
ghost use Rattle.trm.specs.Promises.{ImageNumbered, PayloadPart};

use trm::image_calls::{ImageAnswer, PartAnswer};

// Checks a whole image for a store of `words` words.
#[unsafe(no_mangle)]
pub extern "C" fn trm_image_check(image: &[u8], words: usize) -> ImageAnswer
    ensures { ImageNumbered words image.now result }
{
    trm::image_calls::trm_image_check(image, words)
}

// The payload of the record that begins at this offset.
#[unsafe(no_mangle)]
pub extern "C" fn trm_image_payload(image: &[u8], at: usize) -> PartAnswer
    ensures { PayloadPart image.now at result }
{
    trm::image_calls::trm_image_payload(image, at)
}
