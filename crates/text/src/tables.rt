// Card 7: the text of a table of standards, `std.txt`, read line by line into rows, each held against the one before.
ghost use Rattle.std.specs.Prelude.{◌≡◌};
ghost use Rattle.text.specs.Loads.{kept, loading_of};
ghost use Rattle.text.specs.TableText.{row_in, table_of};

use crate::first_line::split_line;
use crate::lines::{LONGEST_LINE, MOST_DIGITS};
use crate::patterns::fitted;
use book::answers::Refusal;
use figuring::grid::{COLUMNS, YEARS};
use figuring::tables::{Table, row_fits};
use figuring::years::FIRST_YEAR;

// So many bytes of a text decide, whatever its length: `first_bytes` of TableTexts. A reader needs no more of them.
pub const TABLE_ROOM: usize = 3_865;

// Reads the text of a table, for any bytes. The lent table becomes the one read, or stays as it was. As to its twin see
// `read_in`.
pub fn load_table(text: &[u8], table: &mut Table) -> Result<(), Refusal>
    ensures { (result ≡ loading_of (table_of text.now))
        × (table.new ≡ kept (table_of text.now) table.old) }
{
    let read = read_table(text)?;
    *table = read;
    Ok(())
}

// The same by value.
#[tactic(auto, using(crate::proofs::LoadLaws::reads_table))]
pub fn read_table(text: &[u8]) -> Result<Table, Refusal>
    ensures { result ≡ table_of text.now }
{
    let mut grid = [[0; COLUMNS]; YEARS];
    let mut before = [0; COLUMNS];
    let mut rest = text;
    // An invariant can read the rows through `enumerate`; through a `zip` with the years it could not.
    for (i, slot) in grid.iter_mut().enumerate() {
        // At the end of the text the line is empty, and no row: so a line that is missing is refused as well.
        let (line, after) = split_line(rest);
        let row = year_row(line, FIRST_YEAR + i as u64).ok_or(Refusal::NotATable)?;
        if !row_fits(before, row) {
            return Err(Refusal::UnfitTable);
        }
        *slot = row;
        before = row;
        rest = after;
    }
    if !rest.is_empty() {
        return Err(Refusal::NotATable);
    }
    Ok(grid)
}

// The row of a line, if it has the form and is the year's.
#[tactic(auto, unfolding(crate::specs::Pattern::hashes), using(crate::proofs::LoadLaws::reads_row))]
fn year_row(line: &[u8], year: u64) -> Option<[u64; COLUMNS]>
    ensures { result ≡ row_in year line.now }
{
    if LONGEST_LINE < line.len() {
        return None;
    }
    let [y, a, b, c, d, e, f] = fitted::<7>(b"(std # # # # # # #)", line, MOST_DIGITS)?;
    if y != year {
        return None;
    }
    Some([a, b, c, d, e, f])
}
