// The scalars of the record: numbers only, so any bytes are a record, and row 5 decides whether it is valid.
// Paper: "The record holds phase and count"; "The record also counts finished refills and write-backs".
// All scalars except H and `size` are 64 bits wide, for speed; row 5 checks each against its own width, and row 4 checks `size`.

// The counts: clocks, held clocks, finished refills and write-backs.
#[repr(C)]
#[derive(Clone, Copy)]
pub struct Counts {
    pub clocks: u64,
    pub held: u64,
    pub refills: u64,
    pub writebacks: u64,
}

// What is in flight: phase and count, and the multiplier's and divider's registers.
#[repr(C)]
#[derive(Clone, Copy)]
pub struct Running {
    pub phase: u64,
    pub count: u64,
    pub product: u64,
    pub remainder: u64,
    pub quotient: u64,
}

// All fields that are not arrays. `size` is the store's length at reset; H uses the full width of its type. These two u32 share a 64-bit
// word because they seldom change; next to a scalar that changes often, a u32 would be packed and unpacked in every clock.
#[repr(C)]
#[derive(Clone, Copy)]
pub struct Scalars {
    pub status: u64,
    pub pc: u64,
    pub n: u64,
    pub z: u64,
    pub c: u64,
    pub v: u64,
    pub running: Running,
    pub h: u32,
    pub size: u32,
    pub counts: Counts,
}
