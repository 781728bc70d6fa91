// Decode and encode for C: the instruction as plain numbers, and the refusal number beside it.
// Paper: "What a programmer sees", the format of each operation; rows 3 and 10 of the refusals.
// Each calls the one with enums; encode also refuses a nonzero field that the form does not have.
ghost use Rattle.std.specs.Prelude.{◌≡◌};
ghost use Rattle.trm_codec.specs.Encode.{encoded_as, placed};
ghost use Rattle.trm_codec.specs.Fields.{instruction_at, fields_fit};
ghost use Rattle.trm_codec.specs.Promises.{DecodesPlain, EncodesPlain};

use crate::plain_fields::Fields;
use crate::{decoder, encoder};

// A number beside the fields, and no Option: the C interface has this struct.
#[repr(C)]
#[derive(Clone, Copy)]
pub struct PlainDecoded {
    pub fields: Fields,
    pub number: u32,
}

// A number beside the word, and no Option: the C interface has this struct.
#[repr(C)]
#[derive(Clone, Copy)]
pub struct PlainEncoded {
    pub number: u32,
    pub word: u32,
}

// The fields of the instruction that a word encodes; zeros if refused.
#[tactic(auto, using(crate::proofs::Laws::Fields::shown))]
pub fn decode_fields(word: u32) -> PlainDecoded
    ensures { DecodesPlain word result }
{
    match decoder::decode(word) {
        Some(i) => PlainDecoded {
            fields: Fields::from(i),
            number: 0,
        },
        None => PlainDecoded {
            fields: Fields::default(),
            number: 3,
        },
    }
}

// The word of fields that are those of an instruction and fit their widths.
#[tactic(auto, unfolding(crate::specs::Fields::fields_fit, crate::specs::Encode::encode_of))]
fn word_of(f: Fields) -> Option<u32>
    ensures { result ≡ encoded_as (fields_fit f) (placed (instruction_at f)) }
{
    let i = f.instruction();
    if f == Fields::from(i) {
        encoder::encode(i)
    } else {
        None
    }
}

// The word of an instruction, unused bits zero; 0 if refused.
pub fn encode_fields(f: Fields) -> PlainEncoded
    ensures { EncodesPlain f result }
{
    match word_of(f) {
        Some(w) => PlainEncoded { number: 0, word: w },
        None => PlainEncoded {
            number: 10,
            word: 0,
        },
    }
}
