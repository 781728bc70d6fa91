// Prints the name and the listing of each image in data/ that an argument names.
// Paper: "the others and the listing are executed and held against this paper"; the cases are made from it by tests/images.
// An argument is a file name; the first missing one ends the program.
#![tactic(auto)]

use std::io::writer;
use std::rt::{Env, Files};
use std::{fs, io, str};

fn main(rt: HostRuntime) -> io::Result<()> {
    for i in 1..1000 {
        if !one(&rt, i)? {
            break;
        }
    }
    Ok(())
}

// Lists the image that argument i names; false if there is no such argument, it is not text, or the file cannot be opened.
fn one(rt: &(impl Env + Files + Print + Eprint), i: usize) -> io::Result<bool> {
    let mut path = [0u8; 4096];
    let length = rt.arg(i, &mut path).unwrap_or(0);
    if length == 0 {
        return Ok(false);
    }
    let Ok(name) = str::from_utf8(&path[..length]) else {
        eprintln!(rt; "argument {i} is not text")?;
        return Ok(false);
    };
    let mut file = match fs::open(rt, name) {
        Ok(file) => file,
        Err(e) => {
            eprintln!(rt; "{name}: {e}")?;
            return Ok(false);
        }
    };
    let mut bytes = [0u8; 65537];
    let n = trm_list_output::read_full(&mut file, &mut bytes)?;
    println!(rt; "== {name}")?;
    trm_list_output::write_listing(&mut writer(rt), &bytes[..n])?;
    Ok(true)
}
