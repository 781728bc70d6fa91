// `transmitter`: the level sent, and one clock of the transmitter with the core's access; `receiver`: one clock of the receiver.
// A function here may have a `requires`: the fields are in their ranges.
pub mod receiver;
pub mod transmitter;
