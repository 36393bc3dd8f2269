// Trade: moves Mg between two makers' lots of one set and vintage.
ghost use Rattle.std.specs.Prelude.{◌≡◌};
ghost use Rattle.figuring.specs.Tables.{Table};
ghost use Rattle.book.specs.Refusals.{first_refusal};
ghost use Rattle.book.specs.Rules.{answered, posted, rows_for};
ghost use Rattle.book.specs.declared.kinds.Call.{Call};

use crate::answers::{Answer, Posted, Refusal};
use crate::head::head_verdict;
use crate::kinds::Trade;
use crate::ledger::{Book, MAKERS, SETS, figure_at, has_shortage, lower_figure, raise_figure};
use crate::places::Place;
use figuring::life::is_live;
use figuring::units::Mg;

pub fn trade(mut book: Book, t: Trade) -> Posted
    ensures { (table : Table) → result ≡ posted table book (Call.Trade t) }
{
    let answer = traded(&mut book, t);
    Posted { answer, book }
}

#[tactic(auto, using(crate::proofs::TableLaws::refused_so, crate::proofs::MoveFacts::trade_facts))]
fn traded(book: &mut Book, t: Trade) -> Result<Answer, Refusal>
    ensures { (table : Table) → answered result book.new ≡ posted table book.old (Call.Trade t) }
{
    trade_verdict(book, t)?;
    let seller = Place::at(t.from, t.set, t.vintage);
    let buyer = Place::at(t.to, t.set, t.vintage);
    let left = lower_figure(&mut book.lots, seller, t.mg);
    raise_figure(&mut book.lots, buyer, t.mg);
    Ok(Answer::Left(Mg(left)))
}

#[tactic(auto, unfolding(crate::specs::Rules::rows_for, crate::specs::Rules::head_rows, crate::specs::Rules::own_rows, crate::specs::Rules::trade_rows))]
fn trade_verdict(book: &Book, t: Trade) -> Result<(), Refusal>
    ensures { (table : Table) → result ≡ first_refusal (rows_for table book.now (Call.Trade t)) }
{
    head_verdict(book.is_sound())?;
    if t.from >= MAKERS {
        return Err(Refusal::UnknownMaker);
    }
    if t.to >= MAKERS {
        return Err(Refusal::UnknownMaker);
    }
    if t.set >= SETS {
        return Err(Refusal::UnknownSet);
    }
    if !is_live(book.open_year, t.vintage) {
        return Err(Refusal::VintageNotLive);
    }
    if t.mg == 0 {
        return Err(Refusal::ZeroAmount);
    }
    if t.from == t.to {
        return Err(Refusal::SameMaker);
    }
    let seller = Place::at(t.from, t.set, t.vintage);
    if has_shortage(&book.shortages, seller.cell) {
        return Err(Refusal::HasShortage);
    }
    if t.mg > figure_at(&book.lots, seller) {
        return Err(Refusal::AboveLot);
    }
    Ok(())
}
