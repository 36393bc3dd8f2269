// Card 7: "The file `std.txt` (built-in table where it is absent)", read before anything else. Of a file of any size its
// first bytes decide, and no more of them are read.
// The contracts speak of values, since none can say what a call of the system read (specs/StdFile.antt).
ghost use Rattle.credit_book.specs.StdFile.{FromFile, Opened, StdFileBy};

use crate::files::{Unusable, read_text};
use figuring::tables::Table;
use std::fs::File;
use std::io::ErrorKind;
use std::{fs, io};
use streams::telling::tell;
use text::tables::{TABLE_ROOM, read_table};

// What is told that failed.
const WHAT: &str = "credit-book: std.txt";

// The table of a file that was opened. It and the book's stay two, of three lines each: a generic one was proved, and took
// two `requires`, two definitions and a law more, since its contract speaks of the reader's calls.
fn load_file(rt: HostRuntime, file: File) -> Result<Table, Unusable>
    ensures { FromFile result }
{
    let mut text = [0u8; TABLE_ROOM];
    let read = read_text(rt, file, WHAT, &mut text)?;
    Ok(read_table(&text[..read.len])?)
}

// By what the opening answered: the file, or why it was not opened.
fn load_opened(rt: HostRuntime, opened: io::Result<File>) -> Result<Option<Table>, Unusable>
    ensures { Opened opened result }
{
    match opened {
        Ok(file) => load_file(rt, file).map(Some),
        Err(why) if why.kind() == ErrorKind::NotFound => Ok(None),
        Err(why) => {
            let _ = tell(&mut rt.stderr(), WHAT, &why);
            Err(Unusable::Unreadable)
        }
    }
}

// The table of std.txt, where there is such a file.
pub fn load_std_file(rt: HostRuntime) -> Result<Option<Table>, Unusable>
    ensures { StdFileBy result }
{
    load_opened(rt, fs::open(&rt, "std.txt"))
}
