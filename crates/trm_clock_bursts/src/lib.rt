// What a clock changes in the cache and the store, in code.
// Paper: phases 2 and 3.
// All functions are in `inner`.
#![tactic(auto)]

pub mod inner;
