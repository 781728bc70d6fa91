// How many clocks of the core can go together before its devices follow.
// Request A1: "The tick is interrupt 0 and rises whenever the clock count comes to a multiple of 116,600": the core's line byte has the
// tick in bit 0, so a stretch ends with the clock in which the tick can rise.
ghost use Rattle.std.specs.Prelude.{◌+◌, ◌%◌, ◌≤◌};

// How many of the clocks from `at` to `n` to do in one go: at most 64, and none after the next rise of the tick.
pub fn stretch(at: usize, n: usize, count: u64) -> usize
    requires { at ≤ n }
    ensures { (result ≤ 64) × (at + result ≤ n) × (count % 116600 + result ≤ 116600) }
{
    let to_tick = (116600 - count % 116600) as usize;
    (n - at).min(64).min(to_tick)
}
