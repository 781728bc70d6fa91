// Every claim of the project in one record with one value; no code.
// Paper: the three demands.
// The record is specs/Claims.antt, the value proofs/Theorems.antt.
#![tactic(auto)]
