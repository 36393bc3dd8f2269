// Close: nets the open year's parts into lots and shortages, and opens the next year.
ghost use Rattle.std.specs.Prelude.{◌≡◌, true, ℕ, ◌-◌, ◌<◌, ◌≤◌, ltb, nat_abs, length, get_or, pos};
ghost use Rattle.figuring.specs.Tables.{Table};
ghost use Rattle.figuring.specs.Years.{first_year, last_year};
ghost use Rattle.figuring.specs.Parts.{part_most};
ghost use Rattle.book.specs.Sizes.{cells, families};
ghost use Rattle.book.specs.Below.{count_below, sum_below_ℤ};
ghost use Rattle.book.specs.Soundness.{sound};
ghost use Rattle.book.specs.Refusals.{first_refusal};
ghost use Rattle.book.specs.Postings.{netted, earned_by, short_by, moved};
ghost use Rattle.book.specs.Rules.{answered, posted, rows_for};
ghost use Rattle.book.specs.declared.kinds.Call.{Call};

use crate::answers::{Answer, Posted, Refusal};
use crate::head::head_verdict;
use crate::ledger::{ALL_CLOSED, Book, CELLS, FAMILIES, PARTS};
use figuring::grid::YEARS;
use figuring::netting::net_of;
use figuring::units::Part;
use figuring::years::FIRST_YEAR;

pub fn close(mut book: Book, year: u64) -> Posted
    ensures { (table : Table) → result ≡ posted table book (Call.Close year) }
{
    let answer = closed(&mut book, year);
    Posted { answer, book }
}

#[tactic(auto, using(crate::proofs::TableLaws::refused_so))]
fn closed(book: &mut Book, year: u64) -> Result<Answer, Refusal>
    ensures { (table : Table) → answered result book.new ≡ posted table book.old (Call.Close year) }
{
    close_verdict(book, year)?;
    let short = net_cells(book);
    book.open_year += 1;
    book.marks = [0; CELLS];
    book.parts = [0; PARTS];
    Ok(Answer::Closed(short))
}

#[tactic(auto, unfolding(crate::specs::Rules::rows_for, crate::specs::Rules::head_rows, crate::specs::Rules::own_rows, crate::specs::Rules::close_rows))]
fn close_verdict(book: &Book, year: u64) -> Result<(), Refusal>
    ensures { (table : Table) → result ≡ first_refusal (rows_for table book.now (Call.Close year)) }
{
    head_verdict(book.is_sound())?;
    if year != book.open_year {
        return Err(Refusal::YearNotOpen);
    }
    if book.open_year == ALL_CLOSED {
        return Err(Refusal::YearNotOpen);
    }
    Ok(())
}

// Writes the lots and the shortages of the year closed; how many cells closed short. Both figures go to one place, by its
// index: of rows lent by `chunks_exact_mut` a proof learns how long they are, and not what was written.
fn net_cells(book: &mut Book) -> u64
    requires { (sound book.old ≡ true) × (book.old.open_year ≤ last_year) }
    ensures book { book.new ≡ moved book.old
        (netted (book.old.open_year - first_year) (earned_by book.old) cells book.old.lots)
        (netted (book.old.open_year - first_year) (short_by book.old) cells book.old.shortages) }
    ensures short { result ≡ count_below cells (λ c. ltb 0 (short_by book.old c)) }
{
    let i = (book.open_year - FIRST_YEAR) as usize;
    let mut short = 0;
    for (cell, parts) in book.parts.chunks_exact(FAMILIES as usize).enumerate() {
        let net = net_of(sum_of(parts));
        let lacks = net.shortfall().0;
        let at = cell * YEARS + i;
        book.lots[at] = net.earned().0;
        book.shortages[at] = lacks;
        short += u64::from(lacks > 0);
    }
    short
}

// The sum of a cell's parts.
fn sum_of(parts: &[i64]) -> Part
    requires { (length parts.now ≤ families) × ((f : ℕ) → f < families → nat_abs (get_or parts.now f (pos 0)) ≤ part_most) }
    ensures { result.0 ≡ sum_below_ℤ (length parts.now) (λ f. get_or parts.now f (pos 0)) }
{
    Part(parts.iter().sum())
}
