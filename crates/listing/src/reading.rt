// Reading a message into memory that is lent.
ghost use Rattle.std.specs.Prelude.{◌<◌, length, take, IfOk};
ghost use Rattle.std.specs.Io.{ReadsAtMost};
ghost use Rattle.std.specs.Io.KnownBytes.{Consumes, IsAtEnd};

use std::io;
use std::io::Read;

// Read as much as there is, or as there is room for: how many bytes. An error is that of a read that failed.
pub fn read_message<R: Read>(input: &mut R, space: &mut [u8]) -> io::Result<usize>
    ensures many { ReadsAtMost result space.new }
    ensures bytes { IfOk result (λ n. Consumes (R.remaining input.old) (R.remaining input.new) (take n space.new)) }
    ensures end { IfOk result (λ n. n < length space.new → IsAtEnd (R.remaining input.new)) }
{
    let mut n: usize = 0;
    while n < space.len() {
        let more = input.read(&mut space[n..])?;
        if more == 0 {
            return Ok(n);
        }
        n += more;
    }
    Ok(n)
}
