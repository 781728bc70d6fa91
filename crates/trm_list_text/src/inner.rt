// Writing text to a buffer: numbers, then whole rows; a function here requires room in the buffer.
// Paper: "three and five capital hexadecimal digits .. in decimal".
// `number_text`: digits; `buffer_text`: bytes, texts and numbers behind those already written; `row_text`: the rows.
pub mod buffer_text;
pub mod number_text;
pub mod row_text;
