// Runs the cases of its standard input, one per input line, and prints each with the library's answer.
// Paper: "Bench cases", the edges of operations, conditions, addresses, words and fields beside them, and "Where calls are turned down".
// How an input line is read: case_input.rt and case_text.rt of trm_test_cases.
#![tactic(auto)]

mod arithmetic;
mod cases;
mod machine_cases;
mod word_cases;

use std::io;
use std::io::Read;
use trm_test_cases::inner::script::Lent;
use trm_test_cases::inner::{case_input, script};

fn main(rt: HostRuntime) -> io::Result<()> {
    let mut program = [0u32; 4097];
    let mut store = [0u32; 65536];
    run_all(&rt, &mut rt.stdin(), &mut program, &mut store)
}

// Prints every whole input line with its answer after it; at most a million.
fn run_all(
    rt: &impl Print,
    input: &mut impl Read,
    program: &mut [u32],
    store: &mut [u32],
) -> io::Result<()> {
    let mut m = machine_cases::start();
    let mut lent = Lent::default();
    for _ in 0..1_000_000 {
        let Some(c) = case_input::next_before_zero(rt, input)? else {
            break;
        };
        cases::answer(rt, c)?;
        script::fill(c, program, store);
        lent = script::lent_after(c, lent);
        m = script::on_record(rt, c, m)?;
        m = machine_cases::on_lent(rt, c, lent, m, program, store)?;
        rt.write_all(b"\n")?;
    }
    Ok(())
}
