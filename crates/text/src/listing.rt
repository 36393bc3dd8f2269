// The listing of a book's cells, over what the book layer says there is to show of a cell and a year.
ghost use Rattle.std.specs.Prelude.{◌+◌, ◌*◌, ◌<◌, ◌≤◌, ◌≡◌, [], ◌∷◌, length, take, IfSome};
ghost use Rattle.book.specs.Sizes.{makers, sets, years};
ghost use Rattle.text.specs.Pattern.{filled, hashes};
ghost use Rattle.text.specs.Placing.{Adds, HasRoom, Puts, room_for};
ghost use Rattle.text.specs.Listing.{cell_text, listing, lot_text, maker_text};
ghost use Rattle.text.specs.Listing.{entry_room, listing_room, shortage_text};

use crate::page::Page;
use book::ledger::{Book, MAKERS, PLACES, SETS};
use book::listing::{LotEntry, ShortageEntry, lot_entry, shortage_entry};
use book::places::{Cell, Place};
use figuring::years::{FIRST_YEAR, LAST_YEAR};

// No line of a listing, or of a book's text, is longer.
pub(crate) const ENTRY_ROOM: usize = 64;

// Room for any book's listing: a lot's line and a shortage's for each place.
pub const LISTING_ROOM: usize = 2 * PLACES * ENTRY_ROOM;

// Puts the lines of all cells at out's start, and gives the place after them. Where out is shorter than LISTING_ROOM
// there is none, and out is as it was.
#[tactic(auto, using(crate::proofs::ListingLaws::listing_length, crate::proofs::StoreLaws::in_bounds))]
pub fn put_listing(out: &mut [u8], book: Book) -> Option<usize>
    ensures puts { Puts (room_for listing_room 0 out.old) (listing book) 0
        out.old result out.new }
    ensures at_in_bounds { IfSome result (λ at. (at ≤ length out.new) × (at ≡ length (take at out.new))) }
{
    if out.len() < LISTING_ROOM {
        return None;
    }
    let mut page = Page::new(out);
    list_cells(&mut page, &book);
    Some(page.at)
}

// `put_listing` on a page with the room.
pub(crate) fn list_cells(page: &mut Page, book: &Book)
    requires { HasRoom listing_room page.old }
    ensures { Adds (listing book.now) page.old page.new }
{
    for maker in 0..MAKERS {
        put_maker(page, book, maker);
    }
}

fn put_maker(page: &mut Page, book: &Book, maker: u64)
    requires room { HasRoom (sets * (years * entry_room + years * entry_room)) page.old }
    requires of_the_book { maker < makers }
    ensures { Adds (maker_text book.now maker) page.old page.new }
{
    for set in 0..SETS {
        put_cell(page, book, Cell { maker, set });
    }
}

// The lots of a cell, and then its shortages. What there is to show is the book's to say, of plain numbers.
fn put_cell(page: &mut Page, book: &Book, cell: Cell)
    requires { HasRoom (years * entry_room + years * entry_room) page.old }
    ensures { Adds (cell_text book.now cell.maker cell.set) page.old page.new }
{
    for year in FIRST_YEAR..=LAST_YEAR {
        let entry = lot_entry(book.open_year, &book.lots, cell.maker, cell.set, year);
        put_lot(page, Place { cell, year }, entry);
    }
    for year in FIRST_YEAR..=LAST_YEAR {
        let entry = shortage_entry(book.open_year, &book.shortages, cell.maker, cell.set, year);
        put_shortage(page, Place { cell, year }, entry);
    }
}

// Puts the line of a lot, where there is one to show.
#[tactic(auto, unfolding(crate::specs::Pattern::hashes))]
fn put_lot(page: &mut Page, at: Place, entry: Option<LotEntry>)
    requires { HasRoom entry_room page.old }
    ensures { Adds (lot_text at.cell.maker at.cell.set at.year entry) page.old page.new }
{
    match entry {
        Some(LotEntry::Live(mg)) => put_entry(page, at, b"(lot # # # live #)\n", mg.0),
        Some(LotEntry::Expired(mg)) => put_entry(page, at, b"(lot # # # expired #)\n", mg.0),
        None => {}
    }
}

// Puts the line of a shortage, where there is one to show. It is of another type and other words than a lot's: what the two
// share is `put_entry`.
#[tactic(auto, unfolding(crate::specs::Pattern::hashes))]
fn put_shortage(page: &mut Page, at: Place, entry: Option<ShortageEntry>)
    requires { HasRoom entry_room page.old }
    ensures { Adds (shortage_text at.cell.maker at.cell.set at.year entry) page.old page.new }
{
    match entry {
        Some(ShortageEntry::Open(mg)) => put_entry(page, at, b"(short # # # open #)\n", mg.0),
        Some(ShortageEntry::Overdue(mg)) => put_entry(page, at, b"(short # # # overdue #)\n", mg.0),
        None => {}
    }
}

// Puts a place's line, by its pattern: of a listing here, of a book's text in `writing`.
#[tactic(auto, using(crate::proofs::ListingLaws::entry_length))]
pub(crate) fn put_entry(page: &mut Page, at: Place, pattern: &[u8], mg: u64)
    requires room { HasRoom entry_room page.old }
    requires of_a_line { (4 ≡ hashes pattern.now) × (length pattern.now + 26 ≤ entry_room) }
    ensures { Adds (filled pattern.now (at.cell.maker ∷ at.cell.set ∷ at.year ∷ mg ∷ [])) page.old page.new }
{
    page.fill(pattern, &[at.cell.maker, at.cell.set, at.year, mg]);
}
