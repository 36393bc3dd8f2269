// How far a reading has come, by what each of its reads answered.
ghost use Rattle.std.specs.Prelude.{◌≡◌};
ghost use Rattle.credit_book.specs.Turns.{progress};

use std::io;
use std::io::ErrorKind;

// Why a read gave no bytes: a signal interrupted it, or it failed, which was told.
#[derive(Clone, Copy)]
pub enum Lapse {
    Interrupted,
    Failed,
}

impl From<io::Error> for Lapse {
    ghost use Rattle.credit_book.specs.Turns.{LapseBy};

    ghost from_gives = { λ why lapse. LapseBy why lapse };

    fn from(why: io::Error) -> Lapse {
        match why.kind() {
            ErrorKind::Interrupted => Lapse::Interrupted,
            _ => Lapse::Failed,
        }
    }
}

// Whether there may be more to read, or the end was come to, or something failed.
#[derive(Clone, Copy)]
pub enum Progress {
    More,
    Ended,
    Failed,
}

// After a read, and a write of what was said to its bytes, which was fine or not. A short read is not the end of the
// input, and a read that a signal interrupted is tried again.
pub fn progress_after(read: Result<usize, Lapse>, fine: bool) -> Progress
    ensures { result ≡ progress read fine }
{
    if !fine {
        return Progress::Failed;
    }
    match read {
        Ok(0) => Progress::Ended,
        Ok(_) | Err(Lapse::Interrupted) => Progress::More,
        Err(Lapse::Failed) => Progress::Failed,
    }
}
