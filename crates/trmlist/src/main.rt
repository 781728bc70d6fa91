// Lists the image of its standard input: `trmlist < IMAGE`.
// Paper: "The program `trmlist` reads an image from standard input with a store of 2,048 words, checks it whole, and runs it".
// It reads up to one byte more than an image may have, so that a longer image is refused as too long. A failed read or write is reported
// on standard error, but for a reader who has left, and a failed read prints no listing; the exit status stays 0.
#![tactic(auto)]

use std::io::ErrorKind;

fn main(rt: HostRuntime) {
    let mut bytes = [0u8; 65537];
    let Ok(n) = trm_list_output::read_full(&mut rt.stdin(), &mut bytes) else {
        let _ = eprintln!(rt; "trmlist: standard input could not be read");
        return;
    };
    match trm_list_output::write_listing(&mut rt.stdout(), &bytes[..n]) {
        Err(e) if e.kind() != ErrorKind::BrokenPipe => {
            let _ = eprintln!(rt; "trmlist: the listing could not be written");
        }
        _ => {}
    }
}
