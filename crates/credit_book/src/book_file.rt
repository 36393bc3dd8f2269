// Card 8: the book that the program begins with: that of the file named after `--read`, or a fresh one where none is named.
// Of a file of any size its first bytes decide, and no more of them are read.
// The contracts speak of values, since none can say what a call of the system read (specs/BookFile.antt).
ghost use Rattle.credit_book.specs.BookFile.{FirstBookBy, FromBookFile};

use crate::arguments::open_named;
use crate::files::{Unusable, read_text};
use book::ledger::Book;
use std::fs::File;
use streams::telling::told;
use text::reading::{TEXT_ROOM, read_book};

// What is told that failed.
const WHAT: &str = "credit-book: --read";

// The book of a file that was opened; as to its twin see `load_file`.
fn load_book(rt: HostRuntime, file: File) -> Result<Book, Unusable>
    ensures { FromBookFile result }
{
    let mut text = [0u8; TEXT_ROOM];
    let read = read_text(rt, file, WHAT, &mut text)?;
    Ok(read_book(&text[..read.len])?)
}

// The name is the place of the file's name among the arguments.
pub fn first_book(rt: HostRuntime, name: Option<usize>) -> Result<Book, Unusable>
    ensures { FirstBookBy name result }
{
    let Some(name) = name else {
        return Ok(Book::fresh());
    };
    let file = told(rt, WHAT, open_named(rt, name)).ok_or(Unusable::Unreadable)?;
    load_book(rt, file)
}
