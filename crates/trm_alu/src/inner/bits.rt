// The operations on bits, and the results of all operations that take one clock.
// Paper: "1 NOT A .. 4 AND. 5 BIC, B and not A. 6 OR. 7 XOR. 10 ROR, B rotated right by A mod 32".
// The results of MUL and DIV come from their registers: see `multiply` and `divide`.
ghost use Rattle.std.specs.Prelude.{◌≡◌};
ghost use Rattle.trm_alu.specs.Results.{short_result, ror};

// B rotated right by A mod 32.
pub fn rotate(a: u32, b: u32) -> u32
    ensures { result ≡ ror a b }
{
    b.rotate_right(a)
}

// The result of operation 0 to 7, or of 10; not called for 8 and 9.
#[tactic(auto, unfolding(crate::specs::Results::short_result))]
pub fn short_result(operation: u64, a: u32, b: u32) -> u32
    ensures { result ≡ short_result operation a b }
{
    match operation {
        0 => a,
        1 => !a,
        2 => super::sums::add(a, b),
        3 => super::sums::subtract(a, b),
        4 => b & a,
        5 => b & !a,
        6 => b | a,
        7 => b ^ a,
        _ => rotate(a, b),
    }
}
