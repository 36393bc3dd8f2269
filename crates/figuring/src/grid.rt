// Card 2: the standards as the service desk reads them, off a grid.
ghost use Rattle.std.specs.Prelude.{◌≡◌, ◌≤◌, ◌<◌, MatchOption};
ghost use Rattle.figuring.specs.Grid.{grid_years, printed_grid, row_of, column_of, in_grid};
ghost use Rattle.figuring.specs.Years.{first_year};

use crate::tables::Table;
use crate::years::{FIRST_YEAR, LAST_YEAR};

pub const YEARS: usize = 24;

pub const COLUMNS: usize = 6;

// The standards of 2014 to 2037 in g/hp-hr, 0 for none: a line a year, its year beside it. The columns are set 0,
// set 1, medium vocational, heavy vocational, medium tractor, heavy tractor.
const STANDARDS: Table = [
    // 0    1    2    3    2    3      set
    // 0    0    0    0    1    1      use
    [0, 600, 600, 567, 502, 475], // 2014
    [0, 600, 600, 567, 502, 475], // 2015
    [627, 600, 600, 567, 502, 475], // 2016
    [627, 576, 576, 555, 487, 460], // 2017
    [627, 576, 576, 555, 487, 460], // 2018
    [627, 576, 576, 555, 487, 460], // 2019
    [627, 576, 576, 555, 487, 460], // 2020
    [627, 563, 545, 513, 473, 447], // 2021
    [627, 563, 545, 513, 473, 447], // 2022
    [627, 563, 545, 513, 473, 447], // 2023
    [627, 555, 538, 506, 461, 436], // 2024
    [627, 555, 538, 506, 461, 436], // 2025
    [627, 555, 538, 506, 461, 436], // 2026
    [627, 552, 535, 503, 457, 432], // 2027
    [627, 552, 535, 503, 457, 432], // 2028
    [627, 552, 535, 503, 457, 432], // 2029
    [627, 552, 535, 503, 457, 432], // 2030
    [627, 552, 535, 503, 457, 432], // 2031
    [627, 552, 535, 503, 457, 432], // 2032
    [627, 552, 535, 503, 457, 432], // 2033
    [627, 552, 535, 503, 457, 432], // 2034
    [627, 552, 535, 503, 457, 432], // 2035
    [627, 552, 535, 503, 457, 432], // 2036
    [627, 552, 535, 503, 457, 432], // 2037
];

// The grid, which is the printed one: the built-in table of card 7.
pub fn printed_grid() -> Table
    ensures { result ≡ printed_grid }
{
    STANDARDS
}

// The row of a year, from the first on; every later year is read in the last.
pub(crate) fn row_of(year: u64) -> Option<usize>
    ensures { MatchOption result (year < first_year) (λ r. (first_year ≤ year) × (r ≡ row_of year) × (r < grid_years)) }
{
    let row = year.min(LAST_YEAR).checked_sub(FIRST_YEAR)?;
    Some(row as usize)
}

// The column of a set and a use, where there is one.
#[tactic(auto, unfolding(crate::specs::Grid::column_of))]
pub(crate) fn column_of(set: u64, vehicle_use: u64) -> Option<usize>
    ensures { result ≡ in_grid (column_of set vehicle_use) }
{
    match (vehicle_use, set) {
        (0, 0) => Some(0),
        (0, 1) => Some(1),
        (0, 2) => Some(2),
        (0, 3) => Some(3),
        (1, 2) => Some(4),
        (1, 3) => Some(5),
        _ => None,
    }
}
