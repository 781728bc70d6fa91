// Decode and encode, exported to C: each is the function of that name of the crate trm, with its clauses.
ghost use Rattle.trm_codec.specs.Promises.{DecodesPlain, EncodesPlain};

use trm_codec::plain_codec::{PlainDecoded, PlainEncoded};
use trm_codec::plain_fields::Fields;

// The instruction that a word encodes; 3 for a word above 3FFFFH.
#[unsafe(no_mangle)]
pub extern "C" fn trm_decode(word: u32) -> PlainDecoded
    ensures { DecodesPlain word result }
{
    trm::codec::trm_decode(word)
}

// The word of an instruction, its unused bits zero; 10 if a field is outside its width.
#[unsafe(no_mangle)]
pub extern "C" fn trm_encode(f: Fields) -> PlainEncoded
    ensures { EncodesPlain f result }
{
    trm::codec::trm_encode(f)
}
