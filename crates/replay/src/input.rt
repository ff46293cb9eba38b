// Reading from the input.
ghost use Rattle.std.specs.Prelude.{◌≤◌, length, IfOk};

use std::io;
use std::io::Read;

// Reads until the bytes are full or the input ends: how many have been read.
pub fn read_full<R: Read>(input: &mut R, bytes: &mut [u8]) -> io::Result<usize>
    ensures { IfOk result (λ n. n ≤ length bytes.new) }
{
    let mut got = 0;
    while got < bytes.len() {
        let more = input.read(&mut bytes[got..])?;
        if more == 0 {
            break;
        }
        got += more;
    }
    Ok(got)
}
