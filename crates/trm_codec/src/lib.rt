// Decode and encode: from 18-bit words to instructions and back.
// Paper: "What a programmer sees", the format of each operation. README, demand 2: the two are inverse.
// Read `decoder::decode` and `encoder::encode`; `plain_codec` has both for C callers.
#![tactic(auto)]

pub mod decoder;
pub mod encoder;
pub mod instruction;
pub mod plain_codec;
pub mod plain_fields;
