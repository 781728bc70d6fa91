// Cases on arithmetic: an operation with its flags, and the registers of multiplier and divider after some steps.
// Paper: operations 0-10; "After k multiplier steps .."; "the divider holds ..".
// MUL and DIV are computed by their 32 steps, never by one multiplication or division.
ghost use Rattle.std.specs.Prelude.{◌≡◌, ◌≤◌};
ghost use Rattle.trm_alu.specs.Divide.{divided, divider_at};

use std::io;
use trm_alu::inner::divide::{Divided, Divider};
use trm_alu::inner::{bits, flags, multiply};
use trm_test_cases::inner::print;

// The multiplier's register after `steps` steps.
fn multiplied(a: u32, b: u32, steps: u32) -> u64 {
    (0..steps).fold(a as u64, |acc, k| multiply::step(acc, b, k == 31))
}

// The divider's registers after `steps` steps.
fn divided_so_far(a: u32, b: u32, steps: u32) -> Divider
    ensures { steps ≤ 32 → result ≡ divider_at a b steps }
{
    let mut d = Divider::start(a, b);
    for _k in 0..steps {
        d = d.step(a);
    }
    d
}

// DIV by 32 steps and the finish.
fn divide_whole(a: u32, b: u32) -> Divided
    ensures { result ≡ divided a b }
{
    let d = divided_so_far(a, b, 32);
    d.finish(a, b)
}

// Prints R.d and the four flags; `before` has C and V before the operation in bits 1 and 0.
fn show(rt: &impl Print, number: u32, b: u32, a: u32, before: u32, res: u32) -> io::Result<()> {
    let c = (before / 2 % 2) as u64;
    let v = (before % 2) as u64;
    let f = flags::flags_after(number as u64, a, b, res, c, v);
    print!(rt; " {res:08x} {} {} {} {}", f.n, f.z, f.c, f.v)
}

// Prints R.d, N, Z, C, V; for MUL and DIV also H.
pub fn operation(rt: &impl Print, number: u32, b: u32, a: u32, before: u32) -> io::Result<()> {
    match number {
        8 => {
            let acc = multiplied(a, b, 32);
            show(rt, number, b, a, before, (acc % 0x1_0000_0000) as u32)?;
            print::hex(rt, acc / 0x1_0000_0000, 8)
        }
        9 => {
            let d = divide_whole(a, b);
            show(rt, number, b, a, before, d.quotient)?;
            print::hex(rt, d.remainder as u64, 8)
        }
        _ => show(
            rt,
            number,
            b,
            a,
            before,
            bits::short_result(number as u64, a, b),
        ),
    }
}

// Prints the register by the steps, and by its closed form.
pub fn multiplier(rt: &impl Print, steps: u32, b: u32, a: u32) -> io::Result<()> {
    print::hex(rt, multiplied(a, b, steps), 16)?;
    print::hex(rt, multiply::after(a, b, steps as u64), 16)
}

// Prints the registers by the steps, and by their closed form.
pub fn divider(rt: &impl Print, steps: u32, b: u32, a: u32) -> io::Result<()> {
    let d = divided_so_far(a, b, steps);
    print::hex(rt, d.rem, 8)?;
    print::hex(rt, d.quot, 8)?;
    if steps <= 32 {
        let e = Divider::after(a, b, steps as u64);
        print::hex(rt, e.rem, 8)?;
        print::hex(rt, e.quot, 8)?;
    }
    Ok(())
}
