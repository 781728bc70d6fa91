// `device_read`: the query that a board asks before each clock.
pub mod device_read;
