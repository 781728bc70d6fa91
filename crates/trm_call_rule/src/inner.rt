// The record rule, shared by the crates that use this one; a function here may have a `requires`.
// `access`: what row 5 looks at, as one value, and the tests on the word at PC; `record_rule`: the rule, as methods of that value.
// Each contract cites a definition of trm_reference or trm_core.
pub mod access;
pub mod record_rule;
