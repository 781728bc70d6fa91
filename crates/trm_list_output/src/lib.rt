// Reads an image, and writes the listing of one, piece by piece.
// Paper: "reads an image .. with a store of 2,048 words, checks it whole, and runs it".
// Each piece is written before the next is computed; a failed write ends the listing. A call that a signal interrupts counts as failed.
#![tactic(auto)]

ghost use Rattle.std.specs.Prelude.{◌≡◌, ◌<◌, ◌≤◌, take, length, IfOk, OnOk, OnErr};
ghost use Rattle.std.specs.Io.KnownBytes.{Appends, Consumes, IsAtEnd};
ghost use Rattle.trm_list_output.specs.Moved.{AppendsFirst, ConsumesFirst};
ghost use Rattle.trm_listing.specs.Listing.{output_of};

use std::io;
use std::io::{ErrorKind, Read, Write};
use trm_listing::inner::pieces;

// Reads until the buffer is full or the input ends; returns the number of bytes that it read. A loop: the library's `read_exact` fails
// where the input ends before.
pub fn read_full<R: Read>(input: &mut R, buf: &mut [u8]) -> io::Result<usize>
    ensures within { IfOk result (λ n. n ≤ length buf.new) }
    ensures taken { IfOk result (λ n. Consumes (R.remaining input.old) (R.remaining input.new) (take n buf.new)) }
    ensures failed { OnErr result (ConsumesFirst (R.remaining input.old) (R.remaining input.new) buf.new) }
    ensures whole { IfOk result (λ n. n < length buf.new → IsAtEnd (R.remaining input.new)) }
{
    let mut done = 0;
    while done < buf.len() {
        let n = input.read(&mut buf[done..])?;
        if n == 0 {
            break;
        }
        done += n;
    }
    Ok(done)
}

// Writes all of a piece. A loop: the library's `write_all` does not say what a write that fails leaves.
fn write_piece<W: Write>(out: &mut W, piece: &[u8]) -> io::Result<()>
    ensures ok { OnOk result (Appends (W.contents out.old) (W.contents out.new) piece.now) }
    ensures err { OnErr result (AppendsFirst (W.contents out.old) (W.contents out.new) piece.now) }
{
    let mut done = 0;
    while done < piece.len() {
        let n = out.write(&piece[done..])?;
        if n == 0 {
            return Err(io::Error::from(ErrorKind::WriteZero));
        }
        done += n;
    }
    Ok(())
}

// Writes all pieces; lent are the program's words, the store and the buffer.
fn write_pieces<W: Write>(
    out: &mut W,
    image: &[u8],
    program: &mut [u32],
    store: &mut [u32],
    buf: &mut [u8],
) -> io::Result<()>
    requires { (length program.old ≡ 4096) × (length store.old ≡ 2048) × (128 ≤ length buf.old) }
    ensures ok { OnOk result (Appends (W.contents out.old) (W.contents out.new) (output_of image.now)) }
    ensures err { OnErr result (AppendsFirst (W.contents out.old) (W.contents out.new) (output_of image.now)) }
{
    let mut l = pieces::first_piece(image, program, store, buf);
    write_piece(out, &buf[..l.len])?;
    while !l.over {
        l = pieces::next_piece(l, image, &program[..l.words], store, buf);
        write_piece(out, &buf[..l.len])?;
    }
    Ok(())
}

// Writes the listing of an image.
pub fn write_listing<W: Write>(out: &mut W, image: &[u8]) -> io::Result<()>
    ensures ok { OnOk result (Appends (W.contents out.old) (W.contents out.new) (output_of image.now)) }
    ensures err { OnErr result (AppendsFirst (W.contents out.old) (W.contents out.new) (output_of image.now)) }
{
    let mut program = [0u32; 4096];
    let mut store = [0u32; 2048];
    let mut buf = [0u8; 65536];
    write_pieces(out, image, &mut program, &mut store, &mut buf)
}
