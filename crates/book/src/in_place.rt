// "The terminal owns one book and posts to it in place": thin functions that take the book by reference, call the
// proved by-value step and store the result back; `post_in` passes the book on to the call's own. A refusal leaves
// the book exactly as it was, so of one nothing is stored. Filings alone read the table of standards, so the other
// calls take none, and their contracts hold for every table.
// The six are public and a line each; the one for all of them is `post_in`.
ghost use Rattle.std.specs.Prelude.{◌≡◌};
ghost use Rattle.figuring.specs.Tables.{Table};
ghost use Rattle.book.specs.Rules.{answered, posted};
ghost use Rattle.book.specs.declared.kinds.Call.{Call};

use crate::answers::{Answer, Refusal};
use crate::applying::apply;
use crate::closing::close;
use crate::covering::cover;
use crate::filing::file;
use crate::kinds::{Application, Call, Cover, Filing, Retirement, Trade};
use crate::ledger::Book;
use crate::retiring::retire;
use crate::trading::trade;
use figuring::tables::Table;

// A filing, under any pair of limits, or an amendment.
#[tactic(auto, using(crate::proofs::RefusalLaws::stored_so))]
pub fn file_in(book: &mut Book, table: Table, f: Filing) -> Result<Answer, Refusal>
    ensures { answered result book.new ≡ posted table book.old (Call.File f) }
{
    file(*book, table, f).store(book)
}

#[tactic(auto, using(crate::proofs::RefusalLaws::stored_so))]
pub fn close_in(book: &mut Book, year: u64) -> Result<Answer, Refusal>
    ensures { (table : Table)
        → answered result book.new ≡ posted table book.old (Call.Close year) }
{
    close(*book, year).store(book)
}

#[tactic(auto, using(crate::proofs::RefusalLaws::stored_so))]
pub fn trade_in(book: &mut Book, t: Trade) -> Result<Answer, Refusal>
    ensures { (table : Table)
        → answered result book.new ≡ posted table book.old (Call.Trade t) }
{
    trade(*book, t).store(book)
}

#[tactic(auto, using(crate::proofs::RefusalLaws::stored_so))]
pub fn apply_in(book: &mut Book, p: Application) -> Result<Answer, Refusal>
    ensures { (table : Table)
        → answered result book.new ≡ posted table book.old (Call.Apply p) }
{
    apply(*book, p).store(book)
}

#[tactic(auto, using(crate::proofs::RefusalLaws::stored_so))]
pub fn retire_in(book: &mut Book, p: Retirement) -> Result<Answer, Refusal>
    ensures { (table : Table)
        → answered result book.new ≡ posted table book.old (Call.Retire p) }
{
    retire(*book, p).store(book)
}

#[tactic(auto, using(crate::proofs::RefusalLaws::stored_so))]
pub fn cover_in(book: &mut Book, c: Cover) -> Result<Answer, Refusal>
    ensures { (table : Table)
        → answered result book.new ≡ posted table book.old (Call.Cover c) }
{
    cover(*book, c).store(book)
}

// Any call, posted in place.
pub fn post_in(book: &mut Book, table: Table, call: Call) -> Result<Answer, Refusal>
    ensures { answered result book.new ≡ posted table book.old call }
{
    match call {
        Call::File(f) => file_in(book, table, f),
        Call::Close(year) => close_in(book, year),
        Call::Trade(t) => trade_in(book, t),
        Call::Apply(p) => apply_in(book, p),
        Call::Retire(p) => retire_in(book, p),
        Call::Cover(c) => cover_in(book, c),
    }
}
