// The board's record as callers hold it: the core's record and the devices, numbers only.
// Request A1: "A board field outside its range is refused with 5".

#[repr(C)]
#[derive(Clone, Copy)]
pub struct Board {
    pub machine: trm_run_machine::machine::Machine,
    pub devices: trm_board::record::Devices,
}
