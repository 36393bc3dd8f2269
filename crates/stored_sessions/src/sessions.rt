// What a session gives. From a fresh book it is answered whole, by `session`; from a stored one by the desk and the
// listing, since its book is written at its end.
ghost use Rattle.std.specs.Prelude.{◌≤◌, IfSome, length};

use crate::{say, say_refusal};
use book::ledger::Book;
use figuring::tables::Table;
use std::fs::File;
use streams::reading::read_full;
use text::answering::ANSWER_ROOM;
use text::desk::Desk;
use text::listing::{LISTING_ROOM, put_listing};
use text::session::session;
use text::writing::write_book;

// A session's most bytes.
const LONGEST: usize = 32_768;

// Room for what a session of that length can give; the text of a book takes less.
pub(crate) const ROOM: usize = ANSWER_ROOM * (LONGEST + 1) + LISTING_ROOM;

// A session that is too long is said where its text would stand, so that no run passes without it.
pub(crate) fn answer_session(
    rt: HostRuntime,
    mut file: File,
    table: Table,
    stored: Option<Book>,
    out: &mut [u8; ROOM],
) {
    let mut input = [0u8; LONGEST + 1];
    let n = read_full(&mut file, &mut input);
    if n > LONGEST {
        say(rt, b" too long\n");
        return;
    }
    say(rt, b"\n");
    match stored {
        Some(book) => say_stored(rt, table, book, &input[..n], out),
        None => {
            let said = session(table, Book::fresh(), &input[..n], out);
            say_first(rt, said, out);
        }
    }
}

// The answers to the lines, that to a last one that lacks its line feed, the listing, and the text of the book.
fn say_stored(rt: HostRuntime, table: Table, book: Book, input: &[u8], out: &mut [u8; ROOM]) {
    let mut desk = Desk::open(book);
    let answered = desk.take_in(table, input, out);
    say_first(rt, answered, out);
    let ended = desk.last(table, out);
    say_first(rt, ended, out);
    let listed = put_listing(out, desk.book);
    say_first(rt, listed, out);
    match write_book(out, &desk.book) {
        Ok(n) => say_first(rt, Some(n), out),
        Err(why) => say_refusal(rt, why),
    }
}

// The first bytes of the buffer, as many as were put: nothing where there was no room.
fn say_first(rt: HostRuntime, put: Option<usize>, out: &[u8])
    requires { IfSome put (λ n. n ≤ length out.now) }
{
    if let Some(n) = put {
        say(rt, &out[..n]);
    }
}
