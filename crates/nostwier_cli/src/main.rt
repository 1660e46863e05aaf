// The program: a case, then a certificate, on standard input; what `report` makes of them goes to standard output.
#![tactic(auto)]

ghost use Rattle.std.specs.Prelude.{◌≤◌, IfOk, length};

use std::io;
use std::io::{Read, Write};

// Fills the buffer from its start until it is full or nothing more comes; how many bytes came.
fn read_full<R: Read>(from: &mut R, buf: &mut [u8]) -> io::Result<usize>
    ensures { IfOk result (λ n. n ≤ length buf.new) }
{
    let mut got = 0;
    for _ in 0..buf.len() {
        let more = from.read(&mut buf[got..])?;
        if more == 0 {
            break;
        }
        got += more;
    }
    Ok(got)
}

fn main(rt: HostRuntime) -> io::Result<()> {
    // one byte more than the program takes, so that a longer input is told from a full one
    let mut input = [0u8; report::MOST_INPUT + 1];
    let got = read_full(&mut rt.stdin(), &mut input)?;
    let mut out = [0u8; report::MOST_TEXT];
    let count = report::report(&input[..got], &mut out);
    rt.stdout().write_all(&out[..count])
}
