// A read whose failure is told, and a buffer read full.
ghost use Rattle.std.specs.Prelude.{◌≤◌, length, take};
ghost use Rattle.std.specs.Io.{ReadsAtMost};
ghost use Rattle.std.specs.Io.KnownBytes.{Consumes, ReadConsumes};

use crate::telling::tell;
use std::io;
use std::io::{ErrorKind, Read};

// Reads once, into the buffer's start. A read that failed is told, unless a signal interrupted it, and is never taken for
// the end of the input.
pub fn read_once<R: Read>(
    rt: HostRuntime,
    from: &mut R,
    buffer: &mut [u8],
    what: &str,
) -> io::Result<usize>
    ensures in_buffer { ReadsAtMost result buffer.new }
    ensures bytes { ReadConsumes (R.remaining from.old) (R.remaining from.new) result buffer.new }
{
    from.read(buffer)
        .inspect_err(|why| tell_failure(rt, what, why))
}

fn tell_failure(rt: HostRuntime, what: &str, why: &io::Error) {
    if why.kind() != ErrorKind::Interrupted {
        let _ = tell(&mut rt.stderr(), what, why);
    }
}

// Reads until the buffer is full, the input ends or a read fails, and answers how many bytes stand at the buffer's start.
pub fn read_full<R: Read>(from: &mut R, buffer: &mut [u8]) -> usize
    ensures in_bounds { result ≤ length buffer.new }
    ensures bytes { Consumes (R.remaining from.old) (R.remaining from.new) (take result buffer.new) }
{
    let mut done: usize = 0;
    while done < buffer.len() {
        match from.read(&mut buffer[done..]) {
            Ok(0) => return done,
            Ok(n) => done += n,
            Err(_) => return done,
        }
    }
    done
}
