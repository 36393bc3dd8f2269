// An argument as a path.
ghost use Rattle.std.specs.Prelude.{MatchResult};
ghost use Rattle.std.specs.IoError.{error_kind};
ghost use Rattle.streams.specs.Paths.{IsNoPath, IsPath};

use std::env::FillError;
use std::io;
use std::io::ErrorKind;
use std::str::from_utf8;

// No path of the system is longer.
pub const PATH_ROOM: usize = 4_096;

// The path that an argument is, by the answer to the asking for it into a buffer. Paths are UTF-8 here, as std's are. The
// caller asks: of a function that asked too a contract could say only that there was some answer.
pub fn path_of(answer: Result<usize, FillError>, buffer: &[u8]) -> io::Result<&str>
    ensures { MatchResult result (λ path. IsPath answer buffer.now path.now)
        (λ why. IsNoPath answer buffer.now (error_kind why)) }
{
    match answer {
        Ok(n) => from_utf8(&buffer[..n.min(buffer.len())]).map_err(|_| io::Error::new(
            ErrorKind::InvalidInput,
            "The name is not UTF-8",
        )),
        Err(FillError::TooLong) => Err(io::Error::new(
            ErrorKind::InvalidFilename,
            "File name too long",
        )),
        Err(FillError::NotPresent) => Err(io::Error::from(ErrorKind::NotFound)),
    }
}
