// The entries of a book: what the lines of its text say, other than the first. An entry has a place in the order of the
// lines, its rank, and is stored where its maker, set, and number or year say.
ghost use Rattle.std.specs.Prelude.{◌≡◌, ◌<◌, true, Some, IfSome};
ghost use Rattle.text.specs.BookReading.{only_if};
ghost use Rattle.text.specs.Entries.{all_entries, enter, in_book, rank};

use book::ledger::{Book, PARTS, PLACES};
use book::places::{Cell, Family, Place};
use figuring::units::Part;

// Its figures are plain numbers, in the order of the card's line. They stay bare, and not a family or a place: an entry may
// name a maker, a set, a number or a year that is not the book's, and whether it does is asked of it by 22.
#[derive(Clone, Copy)]
pub enum Entry {
    // Maker, set, number, part.
    Family(u64, u64, u64, i64),
    // Maker, set, year, Mg.
    Lot(u64, u64, u64, u64),
    Shortage(u64, u64, u64, u64),
}

// Where an entry ranks, the families before the lots, and these before the shortages; nowhere where its maker, set, and
// number or year are not the book's.
#[tactic(auto, unfolding(crate::specs::Entries::rank, crate::specs::Entries::in_book))]
pub(crate) fn rank_of(e: Entry) -> Option<u64>
    ensures rank { result ≡ only_if (in_book e) (Some (rank e)) }
    ensures in_range { IfSome result (λ r. r < all_entries) }
{
    match e {
        Entry::Family(maker, set, number, _) => Some(
            Family::of(maker, set, number)?.index() as u64,
        ),
        Entry::Lot(maker, set, year, _) => Some(
            (PARTS + Place::of(maker, set, year)?.index()) as u64,
        ),
        Entry::Shortage(maker, set, year, _) => {
            Some((PARTS + PLACES + Place::of(maker, set, year)?.index()) as u64)
        }
    }
}

// Stores an entry into a book.
pub(crate) fn store_entry(book: &mut Book, e: Entry)
    requires { in_book e ≡ true }
    ensures { book.new ≡ enter book.old e }
{
    match e {
        Entry::Family(maker, set, number, part) => {
            let cell = Cell { maker, set };
            let family = Family { cell, number };
            book.store(family, Part(part));
        }
        Entry::Lot(maker, set, year, mg) => {
            let cell = Cell { maker, set };
            let place = Place { cell, year };
            book.lots[place.index()] = mg;
        }
        Entry::Shortage(maker, set, year, mg) => {
            let cell = Cell { maker, set };
            let place = Place { cell, year };
            book.shortages[place.index()] = mg;
        }
    }
}
