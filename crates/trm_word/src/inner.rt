// Functions on words that other crates use; a function in `inner` may have a `requires`.
// Paper: conditions 0-15, the address of LD and ST, the base charges by operation.
// Registers and offsets are u32; flags, conditions, addresses and charges are u64.
pub mod address;
pub mod charge;
pub mod condition;
