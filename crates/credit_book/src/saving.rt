// Card 8: the book of a run written out at its end, in the place of the file named after `--write`. It goes to a new file
// beside it, which is synced and then renamed over the file: so a failure at any moment leaves the old file whole. What
// failed is told.
ghost use Rattle.std.specs.Prelude.{◌≤◌, length};
ghost use Rattle.credit_book.specs.Turns.{out_room};
ghost use Rattle.credit_book.specs.Saving.{SavedBy, SavesBook};

use crate::arguments::named_path;
use crate::console::{Closed, Wrote};
use book::ledger::Book;
use std::fs::{File, OpenOptions};
use std::io::{ErrorKind, Write};
use std::os::unix::fs::OpenOptionsExt;
use std::{fs, io};
use streams::arguments::PATH_ROOM;
use text::writing::write_book;

// The new file's name is the file's with a dot after it, and a number of six digits that no other file has.
const ENDING: usize = 7;

const NUMBERS: u32 = 1_000_000;

// What is told that failed.
const WHAT: &str = "credit-book: --write";

// Writes a text to an open file, syncs it and closes it.
fn fill_file(mut file: File, text: &[u8]) -> io::Result<()> {
    file.write_all(text)?;
    file.sync_all()
}

// A new file beside the one of a name, open for writing, and for its owner alone; and its own name.
fn create_temp(rt: HostRuntime, name: &str) -> io::Result<(File, String)> {
    for number in 0..NUMBERS {
        let beside = format!(in rt.alloc(); "{name}.{number:06}")?;
        let made = OpenOptions::new()
            .write(true)
            .create_new(true)
            .mode(0o600)
            .open(&rt, beside.as_str());
        match made {
            Ok(file) => return Ok((file, beside)),
            Err(why) if why.kind() != ErrorKind::AlreadyExists => return Err(why),
            Err(_) => {}
        }
    }
    Err(io::Error::from(ErrorKind::AlreadyExists))
}

// A new file beside the one of a name, with the text; then it is given the name.
fn replace(rt: HostRuntime, name: &str, text: &[u8]) -> io::Result<()> {
    let (file, beside) = create_temp(rt, name)?;
    let done = fill_file(file, text).and_then(|()| fs::rename(&rt, beside.as_str(), name));
    if done.is_err() {
        let _ = fs::remove_file(&rt, beside.as_str());
    }
    done
}

// Puts a text in the place of the file that an argument names.
fn save_named(rt: HostRuntime, name: usize, text: &[u8]) -> io::Result<()> {
    let mut buffer = [0u8; PATH_ROOM];
    let path = named_path(rt, name, &mut buffer)?;
    if path.len() > PATH_ROOM - ENDING {
        return Err(io::Error::new(ErrorKind::InvalidFilename, "the name is too long"));
    }
    replace(rt, path, text)
}

// Hands the text of a book to the file that an argument names. If that does not go well, that is told.
fn save_book(rt: HostRuntime, name: usize, book: &Book, out: &mut [u8]) -> Option<Wrote>
    requires { out_room ≤ length out.old }
    ensures { SavesBook book.now result out.new }
{
    let handed = write_book(out, book).ok()?;
    let done = save_named(rt, name, &out[..handed]);
    Some(Wrote::told(rt, WHAT, handed, done))
}

// The book after a run, unless no file is named or something failed before.
pub fn save(
    rt: HostRuntime,
    name: Option<usize>,
    closed: Option<Closed>,
    out: &mut [u8],
) -> Option<Wrote>
    requires { out_room ≤ length out.old }
    ensures { SavedBy name closed result }
{
    let name = name?;
    let closed = closed?;
    let listed = closed.listed?;
    if !listed.fine {
        return None;
    }
    save_book(rt, name, &closed.book, out)
}
