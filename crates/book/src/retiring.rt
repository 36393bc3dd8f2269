// Retire: lowers a lot.
ghost use Rattle.std.specs.Prelude.{◌≡◌};
ghost use Rattle.figuring.specs.Tables.{Table};
ghost use Rattle.book.specs.Refusals.{first_refusal};
ghost use Rattle.book.specs.Rules.{answered, posted, rows_for};
ghost use Rattle.book.specs.declared.kinds.Call.{Call};

use crate::answers::{Answer, Posted, Refusal};
use crate::head::head_verdict;
use crate::kinds::Retirement;
use crate::ledger::{Book, MAKERS, SETS, figure_at, has_shortage, lower_figure};
use crate::places::Place;
use figuring::life::is_live;
use figuring::units::Mg;

pub fn retire(mut book: Book, p: Retirement) -> Posted
    ensures { (table : Table) → result ≡ posted table book (Call.Retire p) }
{
    let answer = retired(&mut book, p);
    Posted { answer, book }
}

#[tactic(auto, using(crate::proofs::TableLaws::refused_so, crate::proofs::MoveFacts::retirement_facts))]
fn retired(book: &mut Book, p: Retirement) -> Result<Answer, Refusal>
    ensures { (table : Table) → answered result book.new ≡ posted table book.old (Call.Retire p) }
{
    retire_verdict(book, p)?;
    let lot = Place::at(p.maker, p.set, p.vintage);
    let left = lower_figure(&mut book.lots, lot, p.mg);
    Ok(Answer::Left(Mg(left)))
}

#[tactic(auto, unfolding(crate::specs::Rules::rows_for, crate::specs::Rules::head_rows, crate::specs::Rules::own_rows, crate::specs::Rules::retire_rows))]
fn retire_verdict(book: &Book, p: Retirement) -> Result<(), Refusal>
    ensures { (table : Table) → result ≡ first_refusal (rows_for table book.now (Call.Retire p)) }
{
    head_verdict(book.is_sound())?;
    if p.maker >= MAKERS {
        return Err(Refusal::UnknownMaker);
    }
    if p.set >= SETS {
        return Err(Refusal::UnknownSet);
    }
    if !is_live(book.open_year, p.vintage) {
        return Err(Refusal::VintageNotLive);
    }
    if p.mg == 0 {
        return Err(Refusal::ZeroAmount);
    }
    let lot = Place::at(p.maker, p.set, p.vintage);
    if has_shortage(&book.shortages, lot.cell) {
        return Err(Refusal::HasShortage);
    }
    if p.mg > figure_at(&book.lots, lot) {
        return Err(Refusal::AboveLot);
    }
    Ok(())
}
