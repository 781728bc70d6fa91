// The parts of a program that runs cases, from the input line to the cases that every script can have.
// A case is a letter, four words of eight hexadecimal digits, and in 17 columns the ids in docs/CLAIMS.md of the sentences that it tests.
pub mod case_input;
pub mod case_text;
pub mod digest;
pub mod fields;
pub mod lists;
pub mod print;
pub mod script;
