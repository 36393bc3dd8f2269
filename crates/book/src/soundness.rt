// Soundness, decided for any book whatever.
ghost use Rattle.std.specs.Prelude.{◌≡◌};
ghost use Rattle.book.specs.Soundness.{sound, cells_sound, totals_sound, part_sound, figures_sound, year_in_range};
ghost use Rattle.book.specs.declared.ledger.Book.{Book};

use crate::ledger::{ALL_CLOSED, Book, FAMILIES, MAKERS, PLACES, SETS, figure_at, is_marked};
use crate::places::{Cell, Family, Place};
use figuring::netting::NET_MOST;
use figuring::parts::PART_MOST;
use figuring::years::{FIRST_YEAR, LAST_YEAR};

// "every shortage at most 2.5 × 10^10": a bound of what a cell's parts come to.
const SHORTAGE_MOST: u64 = NET_MOST;

const LOTS_MOST: u64 = 200_000_000_000;

impl Book {
    #[tactic(auto, unfolding(crate::specs::Soundness::sound))]
    pub fn is_sound(&self) -> bool
        ensures { result ≡ sound self.now }
    {
        year_in_range(self.open_year) && cells_sound(self) && totals_sound(&self.lots)
    }
}

#[tactic(auto, unfolding(crate::specs::Soundness::year_in_range))]
fn year_in_range(open_year: u64) -> bool
    ensures { result ≡ year_in_range open_year }
{
    (FIRST_YEAR..=ALL_CLOSED).contains(&open_year)
}

// The walk over makers, sets and years, in document 01's form: nested loops that end by their label at the first fault.
#[tactic(auto, unfolding(figuring::specs::Below::all_below))]
fn cells_sound(book: &Book) -> bool
    ensures { result ≡ cells_sound book.now }
{
    let mut good = true;
    'walk: for maker in 0..MAKERS {
        for set in 0..SETS {
            let cell = Cell { maker, set };
            let mark = book.marks[cell.index()];
            for number in 0..FAMILIES {
                let family = Family { cell, number };
                let part = book.parts[family.index()];
                if !part_sound(mark, number, part) {
                    good = false;
                    break 'walk;
                }
            }
            for year in FIRST_YEAR..=LAST_YEAR {
                let place = Place { cell, year };
                let lot = figure_at(&book.lots, place);
                let shortage = figure_at(&book.shortages, place);
                if !figures_sound(book.open_year, year, lot, shortage) {
                    good = false;
                    break 'walk;
                }
            }
        }
    }
    good
}

// A family's part: within its bound, and zero where its mark is not set.
#[tactic(auto, unfolding(crate::specs::Soundness::part_sound))]
fn part_sound(mark: u64, family: u64, part: i64) -> bool
    ensures { result ≡ part_sound mark family part }
{
    part == 0 || ((-PART_MOST..=PART_MOST).contains(&part) && is_marked(mark, family))
}

// A cell's lot and shortage of a year.
#[tactic(auto, unfolding(crate::specs::Soundness::figures_sound))]
fn figures_sound(open_year: u64, year: u64, lot: u64, shortage: u64) -> bool
    ensures { result ≡ figures_sound open_year year lot shortage }
{
    shortage <= SHORTAGE_MOST && (year < open_year || lot == 0 && shortage == 0)
}

// The same form, over sets, years and makers.
#[tactic(auto, unfolding(figuring::specs::Below::all_below, crate::specs::Below::sum_below))]
fn totals_sound(lots: &[u64; PLACES]) -> bool
    ensures { result ≡ totals_sound lots.now }
{
    let mut good = true;
    'walk: for set in 0..SETS {
        for year in FIRST_YEAR..=LAST_YEAR {
            let mut sum = 0;
            for maker in 0..MAKERS {
                let lot = figure_at(lots, Place::at(maker, set, year));
                if lot > LOTS_MOST - sum {
                    good = false;
                    break 'walk;
                }
                sum += lot;
            }
        }
    }
    good
}
