// Card 7: the tables of standards that are accepted.
ghost use Rattle.std.specs.Prelude.{◌≡◌};
ghost use Rattle.figuring.specs.Tables.{accepted_table, entry_fits, is_standard, row_fits};

use crate::grid::{COLUMNS, YEARS};

// A row for each model year from 2014 on, an entry for each column, in g/hp-hr.
pub type Table = [[u64; COLUMNS]; YEARS];

// The limits of an entry that is not 0.
pub const STANDARD_LEAST: u64 = 432;

pub const STANDARD_MOST: u64 = 769;

// Whether any table is within the limits and does not rise: each row is held against the one before, and
// the first against none.
pub fn table_accepted(table: Table) -> bool
    ensures { result ≡ accepted_table table }
{
    row_fits([0; COLUMNS], table[0]) && table.is_sorted_by(|before, row| row_fits(*before, *row))
}

// Whether a row may follow the row of the year before.
pub fn row_fits(before: [u64; COLUMNS], row: [u64; COLUMNS]) -> bool
    ensures { result ≡ row_fits before row }
{
    before
        .iter()
        .zip(&row)
        .all(|(b, entry)| entry_fits(*b, *entry))
}

// Whether an entry may follow the one of the year before: 0, or within the limits and no rise but from 0.
#[tactic(auto, unfolding(crate::specs::Tables::entry_fits))]
fn entry_fits(before: u64, entry: u64) -> bool
    ensures { result ≡ entry_fits before entry }
{
    (entry == 0 || is_standard(entry)) && (before == 0 || entry <= before)
}

// Whether an entry is within the limits of a standard.
#[tactic(auto, unfolding(crate::specs::Tables::is_standard, crate::specs::Parts::between))]
pub(crate) fn is_standard(entry: u64) -> bool
    ensures { result ≡ is_standard entry }
{
    (STANDARD_LEAST..=STANDARD_MOST).contains(&entry)
}
