// The sixteen conditions of operation 14, by number.
// Paper: "Conditions 0-15: Z; not Z; C; not C; N; not N; V; not V; C and not Z; its opposite; .."
// A flag is a number, as in the record that C programs hold; it is set if it is 1.
ghost use Rattle.std.specs.Prelude.{◌≡◌};
ghost use Rattle.trm_word.specs.Condition.{condition_holds};

// Whether the condition holds for these flags.
pub fn condition_holds(condition: u64, n: u64, z: u64, c: u64, v: u64) -> bool
    ensures { result ≡ condition_holds condition n z c v }
{
    let n = n == 1;
    let z = z == 1;
    let c = c == 1;
    let v = v == 1;
    match condition {
        0 => z,
        1 => !z,
        2 => c,
        3 => !c,
        4 => n,
        5 => !n,
        6 => v,
        7 => !v,
        8 => c && !z,
        9 => !(c && !z),
        10 => n == v,
        11 => n != v,
        12 => n == v && !z,
        13 => !(n == v && !z),
        14 => true,
        _ => false,
    }
}
