// What a clock does, by the phase and the word at PC, as definitions and laws; and in code, what it returns beside the arrays.
// Paper: the clock table and the phases.
// The functions of one clock, in trm_clock_ends and trm_clock_phases, cite them.
#![tactic(auto)]

pub mod inner;
