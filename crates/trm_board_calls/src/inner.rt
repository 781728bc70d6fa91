// `board_clock`: one clock on the board's parts; `board_clocks`: one after another; `quiet_devices`: the devices over clocks without an
// access; `board_rows`: the refusals of the board's calls.
// `c` are the core's scalars, by value, and the registers and the cache are borrowed; `d` are the devices.
// A function here may have a `requires`: the call is accepted.
pub mod board_clock;
pub mod board_clocks;
pub mod board_rows;
mod quiet_devices;
