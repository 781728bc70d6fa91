// The board's own fields: numbers only, so that any bytes are a record, which row 5 then checks.
// Request A1: "A board field outside its range is refused with 5".

// The serial part; the tick, which is interrupt 0; the ten lamps.
#[repr(C)]
#[derive(Clone, Copy)]
pub struct Devices {
    pub serial: trm_serial::record::Serial,
    pub tick: u64,
    pub lamps: u64,
}
