// A line answered with a book and a table of standards, and an answer as text.
ghost use Rattle.std.specs.Prelude.{◌≡◌, length};
ghost use Rattle.book.specs.Rules.{answered};
ghost use Rattle.book.specs.declared.answers.Answer.{Answer};
ghost use Rattle.text.specs.Answers.{answer_room, answer_to, posted_line, text_of};
ghost use Rattle.text.specs.Placing.{Adds, HasRoom, Puts, room_for};

use crate::page::Page;
use crate::placing::put_bytes;
use crate::reader::read_line;
use book::answers::{Answer, Posted, Refusal};
use book::in_place::post_in;
use book::kinds::Call;
use book::ledger::Book;
use figuring::tables::Table;

// No answer's line is longer.
pub const ANSWER_ROOM: usize = 64;

// The answer to a line, for any bytes (without the line feed) and any table, and the book after it.
#[tactic(auto, unfolding(crate::specs::Answers::answer_to))]
pub fn answer_line(book: Book, table: Table, line: &[u8]) -> Posted
    ensures { result ≡ answer_to table book line.now }
{
    let mut own = book;
    let answer = line_in(&mut own, table, read_line(line));
    Posted { answer, book: own }
}

// A line that has been read, answered in place. A line that is no form leaves the book untouched.
pub fn line_in(book: &mut Book, table: Table, line: Option<Call>) -> Result<Answer, Refusal>
    ensures { answered result book.new ≡ posted_line table book.old line }
{
    match line {
        Some(call) => post_in(book, table, call),
        None => Err(Refusal::NotAForm),
    }
}

// Puts the answer to a filing: its part, and its count.
#[tactic(auto, using(crate::proofs::FillLaws::filled_length), unfolding(crate::specs::Pattern::hashes))]
fn put_filed(page: &mut Page, part: i64, k: u64)
    requires { HasRoom answer_room page.old }
    ensures { Adds (text_of (Ok (Answer.Filed (record { 0 = part }) k))) page.old page.new }
{
    page.fill_by_sign(
        part,
        b"(ok -# #)\n",
        b"(ok # #)\n",
        &[part.unsigned_abs(), k],
    );
}

// Puts an answer's line on a page with the room.
#[tactic(auto, using(crate::proofs::AnswerLaws::texts), unfolding(crate::specs::Pattern::hashes))]
pub(crate) fn write_answer(page: &mut Page, answer: Result<Answer, Refusal>)
    requires { HasRoom answer_room page.old }
    ensures { Adds (text_of answer) page.old page.new }
{
    match answer {
        Err(why) => page.fill(b"(no #)\n", &[u64::from(why)]),
        Ok(Answer::Filed(part, k)) => put_filed(page, part.0, k),
        Ok(Answer::Closed(k)) => page.fill(b"(ok #)\n", &[k]),
        Ok(Answer::Left(mg) | Answer::Covered(mg)) => page.fill(b"(ok #)\n", &[mg.0]),
    }
}

// Puts an answer's line into any buffer from any place on, and gives the place after it, from which a caller may put the
// next. Where it does not fit there is none, and out is as it was.
pub fn put_answer(out: &mut [u8], at: usize, answer: Result<Answer, Refusal>) -> Option<usize>
    ensures { Puts (room_for (length (text_of answer)) at out.old) (text_of answer) at
        out.old result out.new }
{
    let mut text = [0u8; ANSWER_ROOM];
    let mut page = Page::new(&mut text);
    write_answer(&mut page, answer);
    put_bytes(out, at, page.written())
}
