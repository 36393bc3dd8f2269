// The two files that may lie beside a session's: NAME.std, the text of its table, and NAME.book, that of its first book.
// One that is there and cannot be opened is said, as a missing session is.
use crate::say;
use book::answers::Refusal;
use book::ledger::Book;
use figuring::tables::Table;
use std::fs;
use std::fs::File;
use std::io::ErrorKind;
use streams::reading::read_full;
use text::reading::{TEXT_ROOM, read_book};
use text::tables::{TABLE_ROOM, read_table};

// Opens the file whose name is a name with an ending behind it; nothing where there is none.
fn open_beside(rt: HostRuntime, name: &str, ending: &str) -> Option<File> {
    let Ok(path) = format!(in rt.alloc(); "{name}{ending}") else {
        say(rt, b" unreadable");
        return None;
    };
    fs::open(&rt, path.as_str())
        .inspect_err(|why| {
            if why.kind() != ErrorKind::NotFound {
                say(rt, b" unreadable");
            }
        })
        .ok()
}

// What a reader makes of the text of the file with this ending, where there is one: of as much of it as the buffer holds,
// which is enough to decide of any longer one.
fn read_beside<T, F: Fn(&[u8]) -> Result<T, Refusal>>(
    rt: HostRuntime,
    name: &str,
    ending: &str,
    text: &mut [u8],
    reader: F,
) -> Result<Option<T>, Refusal>
    requires { F.IsAlwaysCallable reader }
{
    let Some(mut file) = open_beside(rt, name, ending) else {
        return Ok(None);
    };
    let n = read_full(&mut file, text);
    reader(&text[..n]).map(Some)
}

pub(crate) fn stored_table(rt: HostRuntime, name: &str) -> Result<Option<Table>, Refusal> {
    read_beside(rt, name, ".std", &mut [0u8; TABLE_ROOM], read_table)
}

// The book to begin with.
pub(crate) fn stored_book(rt: HostRuntime, name: &str) -> Result<Option<Book>, Refusal> {
    read_beside(rt, name, ".book", &mut [0u8; TEXT_ROOM], read_book)
}
