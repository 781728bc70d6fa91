// `device_reads`: what a read gives; `device_clock`: the devices after a clock of the core; `device_ranges`: row 5 for their fields;
// `stretch`: how many clocks can go together.
// A function here may have a `requires`: the fields are in their ranges.
pub mod device_clock;
pub mod device_ranges;
pub mod device_reads;
pub mod stretch;
