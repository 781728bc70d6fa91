// The transmitter and the receiver: numbers only, so that any bytes are a record, which row 5 then checks.
// Request A1: "A board field outside its range is refused with 5".

// Transmitter: `left`, clocks of its frame still to come, 0 if it is free; `sent`, the byte last accepted.
// Receiver: `passed`, clocks of its frame gone by, 0 if none has begun; `bits`, its last eight data samples, the latest highest (a shift
// register); `byte`, the last byte received; `ready`, the received bit.
#[repr(C)]
#[derive(Clone, Copy)]
pub struct Serial {
    pub left: u64,
    pub sent: u64,
    pub passed: u64,
    pub bits: u64,
    pub byte: u64,
    pub ready: u64,
}
