// Runs the stored sessions: for each name among its arguments, the file of that name is a session's input. Where there is
// a file NAME.std, that is the text of its table of standards; where there is a file NAME.book, that of the book that it
// begins with. Writes a line `== NAME`, then what the session gives and, where there is a NAME.book, the text of the book
// at its end; or `(no N)` alone where the table or the book is refused. The file `stdout` beside has what the second
// implementation wrote.
#![tactic(auto)]

mod files;
mod sessions;

use book::answers::Refusal;
use figuring::grid::printed_grid;
use files::{stored_book, stored_table};
use sessions::{ROOM, answer_session};
use std::env::Env;
use std::fs;
use std::fs::File;
use std::io::ErrorKind;
use streams::arguments::{PATH_ROOM, path_of};
use streams::telling::told;

// What is told that failed.
const WHAT: &str = "stored_sessions: standard output";

fn say(rt: HostRuntime, text: &[u8]) {
    told(rt, WHAT, rt.write_all(text));
}

fn say_refusal(rt: HostRuntime, why: Refusal) {
    let number = u64::from(why);
    told(rt, WHAT, print!(rt; "\n(no {number})\n"));
}

// The session of an open file of this name, with the table that is stored for it, or else the built-in one.
fn answer_file(
    rt: HostRuntime,
    file: File,
    name: &str,
    out: &mut [u8; ROOM],
) -> Result<(), Refusal> {
    let table = stored_table(rt, name)?.unwrap_or(printed_grid());
    let book = stored_book(rt, name)?;
    answer_session(rt, file, table, book, out);
    Ok(())
}

// Nothing where there is no such argument, which ends the run: an Option, as of any next one. A file that is missing is said where the session's text would stand.
fn answer_argument(rt: HostRuntime, i: usize, out: &mut [u8; ROOM]) -> Option<()> {
    let mut buffer = [0u8; PATH_ROOM];
    let answer = rt.arg(i, &mut buffer);
    let name = match path_of(answer, &buffer) {
        Ok(name) => name,
        Err(why) if why.kind() == ErrorKind::NotFound => return None,
        Err(_) => {
            say(rt, b"== ");
            say(rt, b" missing\n");
            return Some(());
        }
    };
    say(rt, b"== ");
    say(rt, name.as_bytes());
    match fs::open(&rt, name) {
        Ok(file) => answer_file(rt, file, name, out).unwrap_or_else(|why| say_refusal(rt, why)),
        Err(_) => say(rt, b" missing\n"),
    }
    Some(())
}

fn main(rt: HostRuntime) {
    let mut out = [0u8; ROOM];
    // by number: std's list of the arguments is made on the heap, and can fail to be
    for i in 1..usize::MAX {
        if answer_argument(rt, i, &mut out).is_none() {
            return;
        }
    }
}
