// The serial line of the board: its record, the transmitter and the receiver, one clock of each, and the loop-back theorem.
// Request A1: "A frame is a low start bit, eight data bits lowest first and a high stop bit"; "a line joined to itself".
// It knows nothing of the core: an access to the serial data is an argument. Every function is used by crates above and is in `inner`.
#![tactic(auto)]

pub mod inner;
pub mod record;
