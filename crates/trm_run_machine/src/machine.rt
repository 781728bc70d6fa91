// The machine record as callers hold it: numbers only, so that any bytes are a record, which row 5 then checks.
// Paper: "The record holds phase and count"; two banks of registers; sixteen lines of eight words.
// The scalars are trm_core's, the cache is trm_cache's; `record_of` in specs/Machine.antt maps this to the record of the definitions.
// C programs see it flat, as include/trm.h declares it: a struct within a struct has its fields at the same places.

// The scalars; bank 0 and bank 1 of the registers; the cache.
#[repr(C)]
#[derive(Clone, Copy)]
pub struct Machine {
    pub scalars: trm_core::record::Scalars,
    pub regs: [u32; 16],
    pub cache: trm_cache::record::Cache,
}
