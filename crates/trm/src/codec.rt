// Decode and encode for C.
// Paper: "What a programmer sees", the format of each operation; rows 3 and 10 of the refusals.
// They are the calls of trm_codec on an instruction as plain numbers.
ghost use Rattle.trm_codec.specs.Promises.{DecodesPlain, EncodesPlain};

use trm_codec::plain_codec::{PlainDecoded, PlainEncoded};
use trm_codec::plain_fields::Fields;

// The instruction that a word encodes; 3 for a word above 3FFFFH.
pub fn trm_decode(word: u32) -> PlainDecoded
    ensures { DecodesPlain word result }
{
    trm_codec::plain_codec::decode_fields(word)
}

// The word of an instruction, its unused bits zero; 10 if a field is outside its width.
pub fn trm_encode(f: Fields) -> PlainEncoded
    ensures { EncodesPlain f result }
{
    trm_codec::plain_codec::encode_fields(f)
}
