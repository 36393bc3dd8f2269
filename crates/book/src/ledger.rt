// The book of document 01, as a struct by value, in that paper's form: flat arrays of plain numbers, parts in part units,
// lots and shortages in Mg. Part and Mg are the types of every call's results. A copy of it is 29 KB. So a step works on
// the book that it was given by value, and all below it is lent that book.
ghost use Rattle.std.specs.Prelude.{Ok, ◌≡◌, ◌+◌, ◌-◌, ◌^◌, ◌<◌, ◌≤◌, nat_lt};
ghost use Rattle.std.specs.List.{list_any};
ghost use Rattle.book.specs.Ledger.{cell, figure_at, lower, raise, has_shortage, marked};
ghost use Rattle.book.specs.Places.{key_of};
ghost use Rattle.book.specs.Postings.{fresh_book, stored};
ghost use Rattle.book.specs.Rules.{answered};

use crate::answers::Answer;
use crate::places::{Cell, Family, Place};
use figuring::grid::YEARS;
use figuring::units::Part;
use figuring::years::FIRST_YEAR;

// Calls name makers, sets and families by any u64, so these are u64 too; what an array holds is a usize.
pub const MAKERS: u64 = 8;

pub const SETS: u64 = 4;

pub const FAMILIES: u64 = 64;

// What the arrays hold: one mark for each cell, one part for each cell and family, one figure for each cell and year.
pub const CELLS: usize = (MAKERS * SETS) as usize;

pub const PARTS: usize = CELLS * FAMILIES as usize;

pub const PLACES: usize = CELLS * YEARS;

// The open year once all years are closed.
pub const ALL_CLOSED: u64 = 2038;

#[derive(Clone, Copy)]
pub struct Book {
    pub open_year: u64,
    // For each cell a filing mark, one bit a family.
    pub marks: [u64; CELLS],
    // For each cell and family its part in the open year.
    pub parts: [i64; PARTS],
    // For each cell and year its lot and its shortage.
    pub lots: [u64; PLACES],
    pub shortages: [u64; PLACES],
}

impl Book {
    // A book with nothing in it, open in the first year.
    #[tactic(auto, unfolding(crate::specs::Postings::fresh_book))]
    pub fn fresh() -> Book
        ensures { result ≡ fresh_book }
    {
        Book {
            open_year: FIRST_YEAR,
            marks: [0; CELLS],
            parts: [0; PARTS],
            lots: [0; PLACES],
            shortages: [0; PLACES],
        }
    }

    // Stores a family's part and sets its bit in the mark of its cell: what a filing does, and what it answers.
    #[tactic(auto, unfolding(crate::specs::Postings::stored))]
    pub fn store(&mut self, family: Family, part: Part) -> Answer
        ensures { answered (Ok result) self.new
            ≡ stored self.old (cell family.cell.maker family.cell.set) family.number part.0 }
    {
        let cell = family.cell.index();
        let mark = family.marked_in(self.marks[cell]);
        self.marks[cell] = mark;
        self.parts[family.index()] = part.0;
        // The number of ones in the mark.
        let count = u64::from(mark.count_ones());
        Answer::Filed(part, count)
    }
}

// The figure of a place.
#[tactic(auto, unfolding(crate::specs::Ledger::figure_at))]
pub(crate) fn figure_at(figures: &[u64; PLACES], at: Place) -> u64
    ensures { result ≡ figure_at figures.now (key_of at) }
{
    figures[at.index()]
}

// A figure lowered by some Mg; what is left of it.
#[tactic(auto, unfolding(crate::specs::Ledger::figure_at, crate::specs::Ledger::lower))]
pub(crate) fn lower_figure(figures: &mut [u64; PLACES], at: Place, mg: u64) -> u64
    requires { mg ≤ figure_at figures.old (key_of at) }
    ensures left { result ≡ figure_at figures.old (key_of at) - mg }
    ensures figures { figures.new ≡ lower figures.old (key_of at) mg }
{
    let left = figures[at.index()] - mg;
    figures[at.index()] = left;
    left
}

// A figure raised by some Mg.
#[tactic(auto, unfolding(crate::specs::Ledger::figure_at, crate::specs::Ledger::raise))]
pub(crate) fn raise_figure(figures: &mut [u64; PLACES], at: Place, mg: u64)
    requires { figure_at figures.old (key_of at) + mg < 2 ^ 64 }
    ensures { figures.new ≡ raise figures.old (key_of at) mg }
{
    figures[at.index()] += mg;
}

// Whether a cell has a shortage above 0 in any year.
#[tactic(auto, unfolding(crate::specs::Ledger::has_shortage))]
pub(crate) fn has_shortage(shortages: &[u64; PLACES], cell: Cell) -> bool
    ensures { result ≡ has_shortage shortages.now cell.maker cell.set }
{
    let first = cell.index() * YEARS;
    any_above_0(&shortages[first..first + YEARS])
}

fn any_above_0(figures: &[u64]) -> bool
    ensures { result ≡ list_any (λ mg. nat_lt 0 mg) figures.now }
{
    figures.iter().any(|mg| *mg > 0)
}

// Whether a family's bit of a mark is one. A mark has 64 bits.
#[tactic(auto, using(crate::proofs::MarkLaws::none_above), unfolding(crate::specs::Ledger::marked))]
pub fn is_marked(mark: u64, number: u64) -> bool
    ensures { result ≡ marked mark number }
{
    number < FAMILIES && (mark >> number) % 2 == 1
}
