// Reading one word of data memory, reading all of it, finding a write to a device; a function here may have a `requires`.
// `full`, `dirty`, `block` and `words` are the record's cache.
// Each contract cites a definition of trm_cache or trm_core.
pub mod find_write;
pub mod memory;
