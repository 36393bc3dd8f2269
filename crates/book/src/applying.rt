// Apply: lowers a lot, and a shortage of the same maker and set by as much.
ghost use Rattle.std.specs.Prelude.{◌≡◌};
ghost use Rattle.figuring.specs.Tables.{Table};
ghost use Rattle.book.specs.Refusals.{first_refusal};
ghost use Rattle.book.specs.Rules.{answered, posted, rows_for};
ghost use Rattle.book.specs.declared.kinds.Call.{Call};

use crate::answers::{Answer, Posted, Refusal};
use crate::head::head_verdict;
use crate::kinds::Application;
use crate::ledger::{Book, MAKERS, SETS, figure_at, lower_figure};
use crate::places::Place;
use figuring::life::{is_live, is_open};
use figuring::units::Mg;

pub fn apply(mut book: Book, p: Application) -> Posted
    ensures { (table : Table) → result ≡ posted table book (Call.Apply p) }
{
    let answer = applied(&mut book, p);
    Posted { answer, book }
}

#[tactic(auto, using(crate::proofs::TableLaws::refused_so, crate::proofs::MoveFacts::application_facts))]
fn applied(book: &mut Book, p: Application) -> Result<Answer, Refusal>
    ensures { (table : Table) → answered result book.new ≡ posted table book.old (Call.Apply p) }
{
    apply_verdict(book, p)?;
    let lot = Place::at(p.maker, p.set, p.vintage);
    let shortage = Place::at(p.maker, p.set, p.year);
    let left = lower_figure(&mut book.lots, lot, p.mg);
    lower_figure(&mut book.shortages, shortage, p.mg);
    Ok(Answer::Left(Mg(left)))
}

#[tactic(auto, unfolding(crate::specs::Rules::rows_for, crate::specs::Rules::head_rows, crate::specs::Rules::own_rows, crate::specs::Rules::apply_rows))]
fn apply_verdict(book: &Book, p: Application) -> Result<(), Refusal>
    ensures { (table : Table) → result ≡ first_refusal (rows_for table book.now (Call.Apply p)) }
{
    head_verdict(book.is_sound())?;
    if p.maker >= MAKERS {
        return Err(Refusal::UnknownMaker);
    }
    if p.set >= SETS {
        return Err(Refusal::UnknownSet);
    }
    if !is_live(book.open_year, p.vintage) {
        return Err(Refusal::VintageNotLive);
    }
    if p.mg == 0 {
        return Err(Refusal::ZeroAmount);
    }
    if !is_open(book.open_year, p.year) {
        return Err(Refusal::NoOpenShortage);
    }
    let lot = Place::at(p.maker, p.set, p.vintage);
    let shortage = Place::at(p.maker, p.set, p.year);
    let lacks = figure_at(&book.shortages, shortage);
    if lacks == 0 {
        return Err(Refusal::NoOpenShortage);
    }
    if p.mg > figure_at(&book.lots, lot) {
        return Err(Refusal::AboveLot);
    }
    if p.mg > lacks {
        return Err(Refusal::AboveShortage);
    }
    Ok(())
}
