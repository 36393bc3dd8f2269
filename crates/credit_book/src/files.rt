// A file read into a lent buffer, to its end or until the buffer is full: in bounded memory, whatever the file's size.
// The contracts speak of values, since none can say what a call of the system read (specs/Files.antt).
ghost use Rattle.std.specs.Prelude.{◌≤◌, ◌≡◌, length};
ghost use Rattle.credit_book.specs.Files.{AddedBy, TextReadBy, unless_full};

use crate::progress::{Lapse, Progress, progress_after};
use book::answers::Refusal;
use std::fs::File;
use streams::reading::read_once;

// Why a file gives nothing: its text is refused, or it cannot be read, which was told.
#[derive(Clone, Copy)]
pub enum Unusable {
    Refused(Refusal),
    Unreadable,
}

impl From<Refusal> for Unusable {
    ghost use Rattle.std.specs.Prelude.{◌≡◌};
    ghost use Rattle.credit_book.specs.declared.files.Unusable.{Unusable};

    ghost from_gives = { λ why r. r ≡ Unusable.Refused why };

    fn from(why: Refusal) -> Unusable {
        Unusable::Refused(why)
    }
}

// Reads once, into what is left of the buffer; it is lent whole, since what was read before stands too. A read that failed
// is told of `what`.
fn add_some(
    rt: HostRuntime,
    file: &mut File,
    what: &str,
    text: &mut [u8],
    at: usize,
) -> Result<usize, Lapse>
    requires { at ≤ length text.old }
    ensures { AddedBy at text.old result text.new }
{
    Ok(read_once(rt, file, &mut text[at..], what)?)
}

// With so many bytes in a buffer: a full one is an end too.
fn unless_full(progress: Progress, len: usize, room: usize) -> Progress
    ensures { result ≡ unless_full room len progress }
{
    match progress {
        Progress::More if len >= room => Progress::Ended,
        _ => progress,
    }
}

// How many bytes of a file were read, and in how many reads.
#[derive(Clone, Copy)]
pub struct TextRead {
    pub len: usize,
    pub turns: u64,
}

// What was read before a reading broke off is no file's text.
impl From<TextRead> for Unusable {
    ghost use Rattle.std.specs.Prelude.{◌≡◌};
    ghost use Rattle.credit_book.specs.declared.files.Unusable.{Unusable};

    ghost from_gives = { λ read why. why ≡ Unusable.Unreadable };

    fn from(_read: TextRead) -> Unusable {
        Unusable::Unreadable
    }
}

// Reads a file to its end, or until the buffer is full, and closes it: what was read. If it did not come so far, that is
// told: a read that failed told it, and used-up turns are told here. As to the turns, see `read_all`.
#[tactic(auto, using(crate::proofs::FileLaws::none_yet, crate::proofs::FileLaws::next, crate::proofs::FileLaws::whole, crate::proofs::FileLaws::failed, crate::proofs::FileLaws::used_up))]
pub fn read_text(
    rt: HostRuntime,
    mut file: File,
    what: &str,
    text: &mut [u8],
) -> Result<TextRead, TextRead>
    ensures { TextReadBy result text.new }
{
    let mut len: usize = 0;
    for turns in 0..u64::MAX {
        let read = add_some(rt, &mut file, what, text, len);
        len += read.unwrap_or(0);
        let turns = turns + 1;
        match unless_full(progress_after(read, true), len, text.len()) {
            Progress::More => {}
            Progress::Ended => return Ok(TextRead { len, turns }),
            Progress::Failed => return Err(TextRead { len, turns }),
        }
    }
    let _ = eprintln!(rt; "{what}: Too many reads");
    let turns = u64::MAX;
    Err(TextRead { len, turns })
}
