// The check of an image and the payload of a record, for C.
// Paper: "Images and the listing program"; "Records are checked one after another, each down the table, and the first fault counts".
// They are `check` and `payload` of trm_image, with a number in place of the result, and the payload given by its start and length (D-75).
ghost use Rattle.trm.specs.Promises.{ImageNumbered, PayloadPart};

use trm_image::reader;

// `at` is the offset where the record at fault begins; 0 if accepted, too long or empty.
#[repr(C)]
#[derive(Clone, Copy)]
pub struct ImageAnswer {
    pub number: u32,
    pub at: u64,
}

// Checks a whole image for a store of `words` words.
pub fn trm_image_check(image: &[u8], words: usize) -> ImageAnswer
    ensures { ImageNumbered words image.now result }
{
    match reader::check(image, words) {
        Ok(()) => ImageAnswer { number: 0, at: 0 },
        Err(refusal) => ImageAnswer {
            number: u32::from(refusal.fault),
            at: refusal.at as u64,
        },
    }
}

// A part of the image: where it begins, and how many bytes it has; both 0 if refused.
#[repr(C)]
#[derive(Clone, Copy)]
pub struct PartAnswer {
    pub number: u32,
    pub start: u64,
    pub length: u64,
}

// The payload of the record that begins at this offset.
pub fn trm_image_payload(image: &[u8], at: usize) -> PartAnswer
    ensures { PayloadPart image.now at result }
{
    let payload = reader::payload(image, at);
    match reader::payload_fault(image, at) {
        Ok(()) => PartAnswer {
            number: 0,
            start: (at + 6) as u64,
            length: payload.len() as u64,
        },
        Err(fault) => PartAnswer {
            number: u32::from(fault),
            start: 0,
            length: 0,
        },
    }
}
