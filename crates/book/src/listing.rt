// What a listing shows of a maker, a set and a year, for any three numbers and any book. An array is lent, and numbers are
// handed over, so that a caller need have no book and no place. Lots and shortages have a type and a function each: one
// type for both would still want two states, and one function both tests and what they give, which is all but its frame.
ghost use Rattle.std.specs.Prelude.{◌≡◌};
ghost use Rattle.book.specs.Listing.{is_cell_year, lot_entry, shortage_entry};

use crate::ledger::{PLACES, figure_at};
use crate::places::Place;
use figuring::life::{is_expired, is_live, is_open, is_overdue};
use figuring::units::Mg;

// A lot above 0.
#[derive(Clone, Copy)]
pub enum LotEntry {
    Live(Mg),
    Expired(Mg),
}

// A shortage above 0.
#[derive(Clone, Copy)]
pub enum ShortageEntry {
    Open(Mg),
    Overdue(Mg),
}

#[tactic(auto, unfolding(crate::specs::Listing::lot_entry, crate::specs::Listing::is_cell_year))]
pub fn lot_entry(
    open_year: u64,
    lots: &[u64; PLACES],
    maker: u64,
    set: u64,
    vintage: u64,
) -> Option<LotEntry>
    ensures { result ≡ lot_entry open_year lots.now maker set vintage }
{
    let lot = figure_at(lots, Place::of(maker, set, vintage)?);
    if lot == 0 {
        None
    } else if is_live(open_year, vintage) {
        Some(LotEntry::Live(Mg(lot)))
    } else if is_expired(open_year, vintage) {
        Some(LotEntry::Expired(Mg(lot)))
    } else {
        None
    }
}

#[tactic(auto, unfolding(crate::specs::Listing::shortage_entry, crate::specs::Listing::is_cell_year))]
pub fn shortage_entry(
    open_year: u64,
    shortages: &[u64; PLACES],
    maker: u64,
    set: u64,
    year: u64,
) -> Option<ShortageEntry>
    ensures { result ≡ shortage_entry open_year shortages.now maker set year }
{
    let shortage = figure_at(shortages, Place::of(maker, set, year)?);
    if shortage == 0 {
        None
    } else if is_open(open_year, year) {
        Some(ShortageEntry::Open(Mg(shortage)))
    } else if is_overdue(open_year, year) {
        Some(ShortageEntry::Overdue(Mg(shortage)))
    } else {
        None
    }
}

// Whether a maker, a set and a year are the book's.
#[tactic(auto, unfolding(crate::specs::Listing::is_cell_year))]
pub fn is_cell_year(maker: u64, set: u64, year: u64) -> bool
    ensures { result ≡ is_cell_year maker set year }
{
    Place::of(maker, set, year).is_some()
}
