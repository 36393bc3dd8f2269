// Where the book keeps what: a cell is one maker and one set; it has a lot and a shortage for each year, and a part for
// each family's number.
ghost use Rattle.std.specs.Prelude.{◌≡◌, ◌+◌, ◌*◌, ◌<◌, ◌≤◌, false, MatchOption};
ghost use Rattle.figuring.specs.Years.{first_year, last_year};
ghost use Rattle.book.specs.Sizes.{makers, sets, cells, families, places, all_parts};
ghost use Rattle.book.specs.Ledger.{In, key, cell, place, is_cell, is_family, with_mark};
ghost use Rattle.book.specs.Listing.{is_cell_year};

use crate::ledger::{FAMILIES, MAKERS, SETS};
use figuring::grid::YEARS;
use figuring::years::{FIRST_YEAR, LAST_YEAR};

// A maker and a set of the book.
#[derive(Clone, Copy)]
pub struct Cell {
    pub maker: u64,
    pub set: u64,
    pub ghost maker_in: { maker < makers },
    pub ghost set_in: { set < sets },
}

impl Cell {
    // The cell of any two numbers, if they are the book's. No `then` here, nor in the two `of` below: what its closure
    // asks is inferred from the calls in it, and not from the ghost fields of what it makes.
    #[tactic(auto, unfolding(crate::specs::Ledger::is_cell))]
    pub fn of(maker: u64, set: u64) -> Option<Cell>
        ensures { MatchOption result (is_cell maker set ≡ false)
            (λ c. (c.maker ≡ maker) × (c.set ≡ set)) }
    {
        if maker < MAKERS && set < SETS {
            Some(Cell { maker, set })
        } else {
            None
        }
    }

    // The cell that stands there among the cells.
    #[tactic(auto, unfolding(crate::specs::Ledger::is_cell))]
    pub fn nth(index: usize) -> Option<Cell>
        ensures { MatchOption result (cells ≤ index) (λ c. cell c.maker c.set ≡ index) }
    {
        let index = index as u64;
        Cell::of(index / SETS, index % SETS)
    }

    // Where it stands among the cells.
    pub fn index(self) -> usize
        ensures at { result ≡ cell self.maker self.set }
        ensures inside { result < cells }
    {
        (self.maker * SETS + self.set) as usize
    }
}

// A cell and a year of the book.
#[derive(Clone, Copy)]
pub struct Place {
    pub cell: Cell,
    pub year: u64,
    pub ghost from: { first_year ≤ year },
    pub ghost upto: { year ≤ last_year },
}

impl Place {
    // The place of any three numbers, if they are the book's.
    #[tactic(auto, unfolding(crate::specs::Ledger::is_cell, crate::specs::Listing::is_cell_year))]
    pub fn of(maker: u64, set: u64, year: u64) -> Option<Place>
        ensures { MatchOption result (is_cell_year maker set year ≡ false)
            (λ p. key p.cell.maker p.cell.set p.year ≡ key maker set year) }
    {
        let cell = Cell::of(maker, set)?;
        if (FIRST_YEAR..=LAST_YEAR).contains(&year) {
            Some(Place { cell, year })
        } else {
            None
        }
    }

    // The place whose figure stands there, among the lots and among the shortages.
    pub fn nth(index: usize) -> Option<Place>
        ensures { MatchOption result (places ≤ index) (λ p. place (key p.cell.maker p.cell.set p.year) ≡ index) }
    {
        let cell = Cell::nth(index / YEARS)?;
        let year = FIRST_YEAR + (index % YEARS) as u64;
        Some(Place { cell, year })
    }

    // The place of a maker, a set and a year that are known to be the book's. A call's verdict names it to look and its
    // step to write, in a line each: a verdict promises a row of its table, and one that gave the places too would be
    // taken apart in each step.
    pub(crate) fn at(maker: u64, set: u64, year: u64) -> Place
        requires { In (key maker set year) }
        ensures { key result.cell.maker result.cell.set result.year ≡ key maker set year }
    {
        let cell = Cell { maker, set };
        Place { cell, year }
    }

    // Where its figure stands, among the lots and among the shortages.
    pub fn index(self) -> usize
        ensures at { result ≡ place (key self.cell.maker self.cell.set self.year) }
        ensures inside { result < places }
    {
        self.cell.index() * YEARS + (self.year - FIRST_YEAR) as usize
    }
}

// A cell and a family number of the book.
#[derive(Clone, Copy)]
pub struct Family {
    pub cell: Cell,
    pub number: u64,
    pub ghost number_in: { number < families },
}

impl Family {
    // The family of any three numbers, if they are the book's.
    #[tactic(auto, unfolding(crate::specs::Ledger::is_cell, crate::specs::Ledger::is_family))]
    pub fn of(maker: u64, set: u64, number: u64) -> Option<Family>
        ensures { MatchOption result (is_family maker set number ≡ false)
            (λ f. (f.cell.maker ≡ maker) × (f.cell.set ≡ set) × (f.number ≡ number)) }
    {
        let cell = Cell::of(maker, set)?;
        if number < FAMILIES {
            Some(Family { cell, number })
        } else {
            None
        }
    }

    // The family whose part stands there among the parts.
    pub fn nth(index: usize) -> Option<Family>
        ensures { MatchOption result (all_parts ≤ index)
            (λ f. cell f.cell.maker f.cell.set * families + f.number ≡ index) }
    {
        let cell = Cell::nth(index / FAMILIES as usize)?;
        let number = (index % FAMILIES as usize) as u64;
        Some(Family { cell, number })
    }

    // The family of a maker, a set and a number that are known to be the book's; named by verdict and step, as a place is.
    pub(crate) fn at(maker: u64, set: u64, number: u64) -> Family
        requires { (maker < makers) × (set < sets) × (number < families) }
        ensures { (result.cell.maker ≡ maker) × (result.cell.set ≡ set) × (result.number ≡ number) }
    {
        let cell = Cell { maker, set };
        Family { cell, number }
    }

    // Where its part stands among the parts.
    pub fn index(self) -> usize
        ensures at { result ≡ cell self.cell.maker self.cell.set * families + self.number }
        ensures inside { result < all_parts }
    {
        self.cell.index() * FAMILIES as usize + self.number as usize
    }

    // The mark of its cell with the family's bit set.
    #[tactic(auto, unfolding(crate::specs::Ledger::with_mark))]
    pub fn marked_in(self, mark: u64) -> u64
        ensures { result ≡ with_mark mark self.number }
    {
        mark | (1 << self.number)
    }
}
