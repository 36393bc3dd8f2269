// Card 8: the book of a text, read line by line and put in place of the one lent.
ghost use Rattle.std.specs.Prelude.{◌≡◌};
ghost use Rattle.text.specs.Lines.{lines_of};
ghost use Rattle.text.specs.Loads.{kept, loading_of};
ghost use Rattle.text.specs.Entries.{empty_at};
ghost use Rattle.text.specs.BookReading.{all_ended, book_in, only_if, read_book};
ghost use Rattle.text.specs.EntryReading.{entered_text};

use crate::entries::{rank_of, store_entry};
use crate::entry_lines::{BOOK_DIGITS, entry_of};
use crate::first_line::split_once;
use crate::patterns::fitted;
use crate::writing::BOOK_ROOM;
use book::answers::Refusal;
use book::ledger::Book;

// So many bytes of a text decide, whatever its length: `first_bytes` of Room. A reader needs no more of them.
pub const TEXT_ROOM: usize = BOOK_ROOM + 1;

// Reads the text of a book, for any bytes. The lent book, whatever it was, becomes the one read, or stays as it was. It and
// `load_table` stay two: what they share is this storing, and one for both would be handed the reader.
pub fn read_in(book: &mut Book, text: &[u8]) -> Result<(), Refusal>
    ensures { (result ≡ loading_of (read_book text.now))
        × (book.new ≡ kept (read_book text.now) book.old) }
{
    let read = read_book(text)?;
    *book = read;
    Ok(())
}

// The same by value.
#[tactic(auto, unfolding(crate::specs::BookReading::read_book))]
pub fn read_book(text: &[u8]) -> Result<Book, Refusal>
    ensures { result ≡ read_book text.now }
{
    let book = text_book(text).ok_or(Refusal::NotABook)?;
    if !book.is_sound() {
        return Err(Refusal::UnsoundBook);
    }
    Ok(book)
}

// The book that a text is, sound or not: the open year, and then the entries.
#[tactic(auto, unfolding(crate::specs::Pattern::hashes), using(crate::proofs::ReadingLaws::reads_open))]
fn text_book(text: &[u8]) -> Option<Book>
    ensures { result ≡ only_if (all_ended text.now) (book_in (lines_of text.now)) }
{
    let (line, rest) = split_once(text, b'\n')?;
    let [year] = fitted::<1>(b"(open #)", line, BOOK_DIGITS)?;
    enter_lines(rest, year)
}

// The lines of a text, entered one after the other into a book that has nothing but its open year.
#[tactic(auto, using(crate::proofs::ReadingLaws::reads_lines))]
fn enter_lines(text: &[u8], year: u64) -> Option<Book>
    ensures { result ≡ entered_text 0 (empty_at year) text.now }
{
    let mut book = Book {
        open_year: year,
        ..Book::fresh()
    };
    let mut least = 0;
    let mut rest = text;
    while !rest.is_empty() {
        let (line, after) = split_once(rest, b'\n')?;
        let entry = entry_of(line)?;
        let rank = rank_of(entry)?;
        if rank < least {
            return None;
        }
        store_entry(&mut book, entry);
        least = rank + 1;
        rest = after;
    }
    Some(book)
}
