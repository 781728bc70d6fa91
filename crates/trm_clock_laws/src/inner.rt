// What a clock returns beside the arrays, shared by the functions of one clock.
// Paper: "both zero without an access".
// A function here may have a `requires`: a part of the record rule.
pub mod outcome;
