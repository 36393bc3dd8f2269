// Records of a text: as many bytes follow as the first argument says. They are read as the text of a book that is to stand
// in the place of the record's, by value, as `read_in` does with a lent one; and then the record's book, as it came, is
// written into them.
ghost use Rattle.std.specs.Prelude.{◌≡◌, ◌*◌, length};
ghost use Rattle.book_probe.specs.Sizes.{answer_bytes, text_bytes};

use crate::records::{Answered, Record, book_of, put_answer};
use book::answers::Refusal;
use book::ledger::Book;
use streams::reading::read_full;
use text::reading::{TEXT_ROOM, read_book};
use text::writing::write_book;

// Reads the bytes of a record, and writes its answer and the bytes after it; nothing as `turn` says.
pub(crate) fn text_turn(
    rt: HostRuntime,
    input: &Record,
    count: u64,
    bytes: &mut [u8; TEXT_ROOM],
    out: &mut Answered,
) -> Option<()>
    requires { (text_bytes ≡ length bytes.old) × (answer_bytes ≡ 8 * length out.old) }
{
    if count > TEXT_ROOM as u64 {
        let _ = eprintln!(rt; "book_probe: too many bytes");
        return None;
    }
    let bytes = &mut bytes[..count as usize];
    if read_full(&mut rt.stdin(), bytes) < bytes.len() {
        return None;
    }
    answer_text(input, bytes, out);
    rt.write_all(out.as_flattened()).ok()?;
    rt.write_all(bytes).ok()
}

// The reading comes first, since the writing changes the bytes.
fn answer_text(input: &Record, bytes: &mut [u8], out: &mut Answered)
    requires { answer_bytes ≡ 8 * length out.old }
{
    let book = book_of(input);
    let read = read_book(bytes);
    let wrote = write_book(bytes, &book);
    let figures = text_figures(wrote, read);
    put_answer(out, book.is_sound(), figures, &read.unwrap_or(book));
}

// The refusal when written, or 0 and the length; and the refusal when read, or 0.
fn text_figures(wrote: Result<usize, Refusal>, read: Result<Book, Refusal>) -> [u64; 3] {
    let not_read = read.map_or_else(u64::from, |_| 0);
    match wrote {
        Ok(n) => [0, n as u64, not_read],
        Err(why) => [u64::from(why), 0, not_read],
    }
}
