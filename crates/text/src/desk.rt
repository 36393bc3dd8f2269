// The input to its lines: a desk takes any chunk of bytes, and answers each line that ends in it. The table of standards
// is one for the whole run; a desk does not hold it, so each call is handed it.
ghost use Rattle.std.specs.Prelude.{◌≡◌, ◌*◌, ◌/◌, leb, length};
ghost use Rattle.text.specs.Answers.{answer_room, posted_line, text_of};
ghost use Rattle.text.specs.Desk.{RepliedBy, ServedBy, at_desk, ends, held_in, in_line, open_desk, takes_all};
ghost use Rattle.text.specs.Placing.{Adds, HasRoom};

use crate::answering::{ANSWER_ROOM, line_in, write_answer};
use crate::held::Held;
use crate::page::Page;
use book::kinds::Call;
use book::ledger::Book;
use figuring::tables::Table;

// The book, which each call is posted to in place, and what is held of a line that has not ended yet. Two desks are
// compared by what they hold: `ByWhatIsHeld`. A caller may keep a desk as it stands, and go on from it later: a copy is
// the same desk (`desk_is_copied`, `copies_are_same`).
#[derive(Clone, Copy)]
pub struct Desk {
    pub book: Book,
    held: Held,
}

impl Desk {
    // A desk that begins with this book.
    pub fn open(book: Book) -> Desk
        ensures { result ≡ open_desk book }
    {
        Desk {
            book,
            held: Held::new(),
        }
    }

    // A desk that begins with this book, and in the midst of a line: as many of its bytes are held as there is room for.
    pub fn with_line(book: Book, line: &[u8]) -> Desk
        ensures { at_desk result ≡ in_line book line.now }
    {
        Desk {
            book,
            held: Held::of(line),
        }
    }

    // What is held of a line that has not ended yet; nothing where none has begun.
    pub fn held(&self) -> &[u8]
        ensures { result.now ≡ held_in self.now.held }
    {
        self.held.as_slice()
    }

    // The next bytes of the input: each line that ends in them is answered, with the table, and the book that the one
    // before left. Gives how many bytes of answers stand at out's start, a
    // count as std's `read` gives. out has room if it has ANSWER_ROOM bytes for each
    // byte of the chunk; if not, nothing is done.
    pub fn take_in(&mut self, table: Table, chunk: &[u8], out: &mut [u8]) -> Option<usize>
        ensures { RepliedBy (leb (length chunk.now) (length out.old / answer_room)) self.old
            (takes_all table (at_desk self.old) chunk.now) out.old result self.new out.new }
    {
        if out.len() / ANSWER_ROOM < chunk.len() {
            return None;
        }
        let mut page = Page::new(out);
        self.take_chunk(table, chunk, &mut page);
        Some(page.at)
    }

    // The end of the input: a last line that lacks its line feed is answered. out has room if it has ANSWER_ROOM bytes.
    pub fn last(&mut self, table: Table, out: &mut [u8]) -> Option<usize>
        ensures { RepliedBy (leb answer_room (length out.old)) self.old
            (ends table (at_desk self.old)) out.old result self.new out.new }
    {
        if out.len() < ANSWER_ROOM {
            return None;
        }
        let mut page = Page::new(out);
        self.take_end(table, &mut page);
        Some(page.at)
    }

    // `take_in` on a page with the room.
    #[tactic(auto, using(crate::proofs::ServeLaws::next))]
    pub(crate) fn take_chunk(&mut self, table: Table, chunk: &[u8], page: &mut Page)
        requires { HasRoom (answer_room * length chunk.now) page.old }
        ensures { ServedBy (takes_all table (at_desk self.old) chunk.now) self.new page.old page.new }
    {
        let mut left = chunk;
        while let Some((line, rest)) = self.held.next_line(left) {
            self.answer(table, line, page);
            left = rest;
        }
    }

    // `last` on a page with the room.
    pub(crate) fn take_end(&mut self, table: Table, page: &mut Page)
        requires { HasRoom answer_room page.old }
        ensures { ServedBy (ends table (at_desk self.old)) self.new page.old page.new }
    {
        if self.held.is_empty() {
            return;
        }
        let line = self.held.end_line();
        self.answer(table, line, page);
    }

    // Answers a line that has ended: the book is posted to in place.
    fn answer(&mut self, table: Table, line: Option<Call>, page: &mut Page)
        requires { HasRoom answer_room page.old }
        ensures book { self.new.book ≡ (posted_line table self.old.book line).book }
        ensures held { self.new.held ≡ self.old.held }
        ensures text { Adds (text_of (posted_line table self.old.book line).answer) page.old page.new }
    {
        let answer = line_in(&mut self.book, table, line);
        write_answer(page, answer);
    }
}
