// Any call, posted in place to a book of its own: plain parameters, so that its callers need no proof by hand.
ghost use Rattle.std.specs.Prelude.{◌≡◌};
ghost use Rattle.book.specs.Rules.{posted};

use crate::answers::Posted;
use crate::in_place::post_in;
use crate::kinds::Call;
use crate::ledger::Book;
use figuring::tables::Table;

pub fn post(mut book: Book, table: Table, call: Call) -> Posted
    ensures { result ≡ posted table book call }
{
    let answer = post_in(&mut book, table, call);
    Posted { answer, book }
}
