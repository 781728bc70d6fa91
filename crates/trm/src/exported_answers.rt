// What the exported calls return: the record, the paper's refusal number (0: not refused), and what the call reports.
// Paper: "It returns the number only and writes nothing"; "reports the clocks used and instructions finished".
// A struct with a record has it first, so that the record is aligned (D-76).
use trm_run_machine::machine::Machine;

#[repr(C)]
#[derive(Clone, Copy)]
pub struct ResetAnswer {
    pub machine: Machine,
    pub number: u32,
}

#[repr(C)]
#[derive(Clone, Copy)]
pub struct ClockAnswer {
    pub machine: Machine,
    pub number: u32,
    pub byte: u8,
    pub word: u32,
    pub finished: u64,
}

// The same without the record, for the caller who lends it.
#[repr(C)]
#[derive(Clone, Copy)]
pub struct LentAnswer {
    pub number: u32,
    pub byte: u8,
    pub word: u32,
    pub finished: u64,
}

#[repr(C)]
#[derive(Clone, Copy)]
pub struct RunAnswer {
    pub machine: Machine,
    pub number: u32,
    pub used: u64,
    pub finished: u64,
}

#[repr(C)]
#[derive(Clone, Copy)]
pub struct LookAnswer {
    pub number: u32,
    pub word: u32,
}

// `found` is 1 if `clock` is a clock that writes the device; else both are 0.
#[repr(C)]
#[derive(Clone, Copy)]
pub struct WatchAnswer {
    pub number: u32,
    pub found: u32,
    pub clock: u64,
}
