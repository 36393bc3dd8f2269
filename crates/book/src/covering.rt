// Cover: pays a cell's oldest open shortage from its oldest live lot until either kind is used up (card 9).
ghost use Rattle.std.specs.Prelude.{[], ◌∷◌, ◌≡◌, min};
ghost use Rattle.figuring.specs.Life.{live, open_short};
ghost use Rattle.figuring.specs.Tables.{Table};
ghost use Rattle.book.specs.Below.{only};
ghost use Rattle.book.specs.Places.{cell_of};
ghost use Rattle.book.specs.Refusals.{first_refusal};
ghost use Rattle.book.specs.Coverage.{turn};
ghost use Rattle.book.specs.Rules.{answered, posted, rows_for};
ghost use Rattle.book.specs.Paying.{Paid, Payable, all_turns, turns_of};
ghost use Rattle.book.specs.declared.kinds.Call.{Call};

use crate::answers::{Answer, Posted, Refusal};
use crate::head::head_verdict;
use crate::kinds::Cover;
use crate::ledger::{Book, MAKERS, SETS, figure_at, lower_figure};
use crate::places::Place;
use figuring::life::{is_live, is_open};
use figuring::units::Mg;
use figuring::years::{FIRST_YEAR, LAST_YEAR};

pub fn cover(mut book: Book, c: Cover) -> Posted
    ensures { (table : Table) → result ≡ posted table book (Call.Cover c) }
{
    let answer = covered(&mut book, c);
    Posted { answer, book }
}

#[tactic(auto, using(crate::proofs::TableLaws::refused_so))]
fn covered(book: &mut Book, c: Cover) -> Result<Answer, Refusal>
    ensures { (table : Table) → answered result book.new ≡ posted table book.old (Call.Cover c) }
{
    cover_verdict(book, c)?;
    let moved = pay_all(book, c);
    Ok(Answer::Covered(Mg(moved)))
}

#[tactic(auto, unfolding(crate::specs::Rules::rows_for, crate::specs::Rules::head_rows, crate::specs::Rules::own_rows, crate::specs::Rules::cover_rows))]
fn cover_verdict(book: &Book, c: Cover) -> Result<(), Refusal>
    ensures { (table : Table) → result ≡ first_refusal (rows_for table book.now (Call.Cover c)) }
{
    head_verdict(book.is_sound())?;
    if c.maker >= MAKERS {
        return Err(Refusal::UnknownMaker);
    }
    if c.set >= SETS {
        return Err(Refusal::UnknownSet);
    }
    Ok(())
}

// Each shortage in turn, the oldest first; the Mg moved.
fn pay_all(book: &mut Book, c: Cover) -> u64
    requires { Payable book.old c all_turns }
    ensures { Paid book.old c all_turns book.new result }
{
    let mut moved = 0;
    for year in FIRST_YEAR..=LAST_YEAR {
        moved += pay_shortage(book, Place::at(c.maker, c.set, year));
    }
    moved
}

// One shortage, from each lot in turn, the oldest first.
fn pay_shortage(book: &mut Book, shortage: Place) -> u64
    requires { Payable book.old (cell_of shortage) (turns_of shortage.year) }
    ensures { Paid book.old (cell_of shortage) (turns_of shortage.year) book.new result }
{
    let mut moved = 0;
    if is_open(book.open_year, shortage.year) {
        for vintage in FIRST_YEAR..=LAST_YEAR {
            let lot = Place {
                cell: shortage.cell,
                year: vintage,
            };
            moved += pay_turn(book, lot, shortage);
        }
    }
    moved
}

// One shortage from one lot of its cell, as far as the smaller of the two goes.
fn pay_turn(book: &mut Book, lot: Place, shortage: Place) -> u64
    requires { cell_of lot ≡ cell_of shortage }
    ensures { Paid book.old (cell_of shortage) (turn shortage.year lot.year ∷ []) book.new result }
{
    let has = figure_at(&book.lots, lot);
    let lacks = figure_at(&book.shortages, shortage);
    let mg = turn_amount(book.open_year, has, lot.year, lacks, shortage.year);
    lower_figure(&mut book.lots, lot, mg);
    lower_figure(&mut book.shortages, shortage, mg);
    mg
}

// What a lot pays to a shortage: the smaller of the two where one is live and the other open. A rule of numbers, which knows
// no place.
#[tactic(auto, unfolding(crate::specs::Below::only))]
fn turn_amount(open_year: u64, lot: u64, vintage: u64, shortage: u64, year: u64) -> u64
    ensures { result ≡ min (only (live open_year vintage) lot) (only (open_short open_year year) shortage) }
{
    if !is_live(open_year, vintage) {
        return 0;
    }
    if !is_open(open_year, year) {
        return 0;
    }
    lot.min(shortage)
}
