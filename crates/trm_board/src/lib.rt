// The devices of the serial board beside any core: serial data, status, milliseconds and tick, switches and lamps.
// Request A1: "The first board goes out with the core inside, as a crate of its own that sees the core through its contracts".
// A core is an argument of every definition here; the calls over the core of document 01 are in trm_board_calls.
#![tactic(auto)]

pub mod inner;
pub mod record;
