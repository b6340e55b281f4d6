// Standard input, into a buffer of the caller's.
ghost use Rattle.std.specs.Prelude.{◌≤◌, ◌<◌, length, take, IfOk};
ghost use Rattle.std.specs.Io.KnownBytes.{Consumes, IsAtEnd};

use std::io;
use std::io::Read;

// Reads until the buffer is full or the reader ends, and returns how many bytes it put at the buffer's start; a read that fails is
// the answer, and the buffer then holds any bytes.
pub fn fill<R: Read>(from: &mut R, buffer: &mut [u8]) -> io::Result<usize>
    ensures bound { IfOk result (λ n. n ≤ length buffer.new) }
    ensures bytes { IfOk result (λ n. Consumes (R.remaining from.old) (R.remaining from.new) (take n buffer.new)) }
    ensures end { IfOk result (λ n. n < length buffer.new → IsAtEnd (R.remaining from.new)) }
{
    let mut done = 0;
    // A read may give fewer bytes than there is room for, so the place moves by what it gave.
    while done < buffer.len() {
        let n = from.read(&mut buffer[done..])?;
        if n == 0 {
            break;
        }
        done += n;
    }
    Ok(done)
}

// The same of standard input.
pub fn read_full(rt: &impl Input, buffer: &mut [u8]) -> io::Result<usize>
    ensures { IfOk result (λ n. n ≤ length buffer.new) }
{
    fill(&mut rt.reader(), buffer)
}
