// The reference machine ("plain machine" of the paper): definitions only, no functions.
// Its state is what a programmer sees, a flat memory, a history of accesses, clocks left and counts.
// The definitions are in specs/, in the order of the paper; specs/Lib.antt lists them.
#![tactic(auto)]
