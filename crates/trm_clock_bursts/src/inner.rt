// The last word of a burst, the tag-check clock of a miss, and the line that a burst writes back.
// A function here may have a `requires`: parts of the record rule. Each has one caller or is small, so that it is inlined (D-53).
pub mod burst_clock;
