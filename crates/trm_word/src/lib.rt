// The 18-bit words of the TRM, as the machine reads them: conditions, addresses, base charges.
// Paper: "What a programmer sees", conditions and addresses; "Clock by clock", the table of clocks.
// Every function is shared with other crates and is in `inner`; the fields of a word are defined in specs/Fields.antt.
#![tactic(auto)]

pub mod inner;
