// A whole session on slices: what the program of document 01 writes for an input.
ghost use Rattle.std.specs.Prelude.{◌≤◌, ◌≡◌, length, take, IfSome};
ghost use Rattle.text.specs.Placing.{Adds, HasRoom, Puts, room_for};
ghost use Rattle.text.specs.Program.{session_room, terminal};

use crate::answering::ANSWER_ROOM;
use crate::desk::Desk;
use crate::listing::{LISTING_ROOM, list_cells};
use crate::page::Page;
use book::ledger::Book;
use figuring::tables::Table;

// Begun on any book, with any table: the answers to the input's lines, then the listing, at out's start, and the place
// after them. out has room if it has ANSWER_ROOM bytes for each byte of the input and for one line more, and
// LISTING_ROOM; if not, it is as it was.
#[tactic(auto, using(crate::proofs::WholeLaws::terminal_length, crate::proofs::StoreLaws::in_bounds))]
pub fn session(table: Table, book: Book, input: &[u8], out: &mut [u8]) -> Option<usize>
    ensures puts { Puts (room_for (session_room (length input.now)) 0 out.old)
        (terminal table book input.now) 0 out.old result out.new }
    ensures at_in_bounds { IfSome result (λ at. (at ≤ length out.new) × (at ≡ length (take at out.new))) }
{
    if out.len() < LISTING_ROOM + ANSWER_ROOM {
        return None;
    }
    // divided, since a product of any length could wrap
    if (out.len() - LISTING_ROOM - ANSWER_ROOM) / ANSWER_ROOM < input.len() {
        return None;
    }
    let mut page = Page::new(out);
    put_session(table, book, input, &mut page);
    Some(page.at)
}

fn put_session(table: Table, book: Book, input: &[u8], page: &mut Page)
    requires { HasRoom (session_room (length input.now)) page.old }
    ensures { Adds (terminal table book input.now) page.old page.new }
{
    let mut desk = Desk::open(book);
    desk.take_chunk(table, input, page);
    desk.take_end(table, page);
    list_cells(page, &desk.book);
}
