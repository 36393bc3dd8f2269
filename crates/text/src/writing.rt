// Card 8: a book's text, written into a lent buffer.
ghost use Rattle.std.specs.Prelude.{◌+◌, ◌*◌, ◌≤◌, ◌≡◌, length};
ghost use Rattle.book.specs.Sizes.{all_parts, places};
ghost use Rattle.text.specs.Gather.{gather};
ghost use Rattle.text.specs.Pattern.{hashes};
ghost use Rattle.text.specs.Placing.{Adds, HasRoom};
ghost use Rattle.text.specs.Listing.{entry_room};
ghost use Rattle.text.specs.BookText.{book_room, book_text, entry_lines};
ghost use Rattle.text.specs.Writing.{buffer_after, family_if, family_line, mg_line, wrote_of};

use crate::listing::{ENTRY_ROOM, put_entry};
use crate::page::Page;
use crate::placing::put_bytes;
use book::answers::Refusal;
use book::ledger::{Book, PARTS, PLACES, is_marked};
use book::places::{Family, Place};

// No book's text is longer: the first line, and one for each part, lot and shortage. One byte more of a text decides that
// it is no book's.
pub const BOOK_ROOM: usize = ENTRY_ROOM * (1 + PARTS + 2 * PLACES);

// Writes a book's text at out's start, for any book and any buffer, and gives its length; a buffer just as long is
// enough. Where it is refused, out is as it was.
pub fn write_book(out: &mut [u8], book: &Book) -> Result<usize, Refusal>
    ensures { (result ≡ wrote_of book.now out.old) × (out.new ≡ buffer_after book.now out.old) }
{
    if !book.is_sound() {
        return Err(Refusal::UnsoundBook);
    }
    let mut text = [0u8; BOOK_ROOM];
    let mut page = Page::new(&mut text);
    put_book(&mut page, book);
    put_bytes(out, 0, page.written()).ok_or(Refusal::ShortBuffer)
}

#[tactic(auto, using(crate::proofs::FillLaws::filled_length), unfolding(crate::specs::Pattern::hashes))]
fn put_book(page: &mut Page, book: &Book)
    requires { HasRoom book_room page.old }
    ensures { Adds (book_text book.now) page.old page.new }
{
    page.fill(b"(open #)\n", &[book.open_year]);
    put_families(page, book);
    put_mgs(page, b"(lot # # # #)\n", &book.lots);
    put_mgs(page, b"(short # # # #)\n", &book.shortages);
}

// Puts the lines of the filed families.
fn put_families(page: &mut Page, book: &Book)
    requires { HasRoom (all_parts * entry_room) page.old }
    ensures { Adds (gather all_parts (family_line book.now.marks book.now.parts)) page.old page.new }
{
    for (index, part) in book.parts.iter().enumerate() {
        // There is a family: each part has its own.
        if let Some(family) = Family::nth(index) {
            put_family(page, family, book.marks[family.cell.index()], *part);
        }
    }
}

// Puts the line of a family, where it is filed.
#[tactic(auto, using(crate::proofs::ListingLaws::entry_length), unfolding(crate::specs::Pattern::hashes))]
fn put_family(page: &mut Page, family: Family, mark: u64, part: i64)
    requires { HasRoom entry_room page.old }
    ensures { Adds (entry_lines (family_if mark family.cell.maker family.cell.set family.number part)) page.old page.new }
{
    let Family { cell, number } = family;
    if !is_marked(mark, number) {
        return;
    }
    page.fill_by_sign(
        part,
        b"(family # # # -#)\n",
        b"(family # # # #)\n",
        &[cell.maker, cell.set, number, part.unsigned_abs()],
    );
}

// Puts the lines of the lots or of the shortages, by the pattern of their lines, where their Mg are above 0.
fn put_mgs(page: &mut Page, pattern: &[u8], figures: &[u64; PLACES])
    requires room { HasRoom (places * entry_room) page.old }
    requires of_a_line { (4 ≡ hashes pattern.now) × (length pattern.now + 26 ≤ entry_room) }
    ensures { Adds (gather places (mg_line pattern.now figures.now)) page.old page.new }
{
    for (index, mg) in figures.iter().enumerate() {
        // There is a place: each figure has its own.
        if 0 < *mg
            && let Some(at) = Place::nth(index)
        {
            put_entry(page, at, pattern, *mg);
        }
    }
}
