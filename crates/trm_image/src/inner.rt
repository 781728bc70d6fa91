// What the reader, the listing and the library share; a function here may have a `requires`.
// Paper: "Words are 4 bytes, little-endian like the rest".
// `bytes`: reading bytes and words, 0 past the end; `image_rows`: the rows of the refusal table; `load_words`: copying words into an array;
// `payload_part`: the payload of a record.
pub mod bytes;
pub mod image_rows;
pub mod load_words;
pub mod payload_part;
