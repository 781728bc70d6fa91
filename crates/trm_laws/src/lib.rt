// General laws that the other crates use: no functions, and no definitions that a contract cites.
// In `proofs/`: the default arm of a match, a table's rows from one computed test, Bool tests.
// Nothing here need be read to know what is claimed.
#![tactic(auto)]
