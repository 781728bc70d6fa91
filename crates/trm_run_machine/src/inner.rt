// `methods`: the methods of the machine record; `next_clock`: which of them a clock is; `one_clock`: one clock on the record's parts;
// `quiet_clocks`: clocks up to the next access to a device;
// `turns`: the loop of a run; `zero_record`: a reset. `c` are the scalars, by value; the arrays are borrowed in the order regs, full,
// dirty, block, words; `w` is the word at PC. A function here may have a `requires`: parts of the record rule.
pub mod methods;
mod next_clock;
pub mod one_clock;
pub mod quiet_clocks;
mod turns;
pub mod zero_record;
