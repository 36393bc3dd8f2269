// Records: a book, a call and a table in, whether the book is sound, the answer and the book after it out. What a record
// of a text gets is in texts.rt.
ghost use Rattle.std.specs.Prelude.{◌≡◌, ◌≤◌, ◌*◌, length};
ghost use Rattle.book_probe.specs.Sizes.{answer_bytes, book_bytes};

use crate::words::{Word, put_numbers, read_numbers};
use book::answers::{Answer, Refusal};
use book::kinds::{Application, Call, Cover, Filing, Limits, Purpose, Retirement, Trade};
use book::ledger;
use book::ledger::Book;
use book::posting::post;
use figuring::grid::{COLUMNS, YEARS};
use figuring::tables::Table;

// Where the book's arrays begin, in words, after its open year, and where it ends.
const MARKS: usize = 1;

const PARTS: usize = MARKS + ledger::CELLS;

const LOTS: usize = PARTS + ledger::PARTS;

const SHORTAGES: usize = LOTS + ledger::PLACES;

const BOOK: usize = SHORTAGES + ledger::PLACES;

// A call's kind, after the book; then its twelve arguments, in document 01's order, a filing's pair of limits last. The kind
// is a number, and a refusal's is 0 where there is none: so the second implementation writes and reads them.
const KIND: usize = BOOK;

const ARGUMENTS: usize = KIND + 1;

// The table that the call is handed, row by row.
const TABLE: usize = ARGUMENTS + 12;

pub(crate) const RECORD: usize = TABLE + COLUMNS * YEARS;

// Where the book begins in an answer: after its soundness, its refusal and two values.
const AFTER: usize = 4;

pub(crate) const ANSWER: usize = AFTER + BOOK;

pub type Record = [Word; RECORD];

pub type Answered = [Word; ANSWER];

// What a record asks: a call, or a text of so many bytes.
#[derive(Clone, Copy)]
pub enum Asked {
    Post(Call),
    Text(u64),
}

pub(crate) fn answer_call(input: &Record, call: Call, out: &mut Answered)
    requires { answer_bytes ≡ 8 * length out.old }
{
    let book = book_of(input);
    let posted = post(book, table_of(input), call);
    put_answer(
        out,
        book.is_sound(),
        figures_of(posted.answer),
        &posted.book,
    );
}

// The words of an answer: whether the book is sound, the refusal and two values, and the book after it.
pub(crate) fn put_answer(out: &mut Answered, sound: bool, figures: [u64; 3], after: &Book)
    requires { answer_bytes ≡ 8 * length out.old }
{
    out[0] = u64::from(sound).to_le_bytes();
    put_numbers(out, 1, u64::to_le_bytes, &figures);
    put_book(&mut out[AFTER..], after);
}

fn put_book(out: &mut [Word], book: &Book)
    requires { book_bytes ≤ 8 * length out.old }
{
    out[0] = book.open_year.to_le_bytes();
    put_numbers(out, MARKS, u64::to_le_bytes, &book.marks);
    put_numbers(out, PARTS, i64::to_le_bytes, &book.parts);
    put_numbers(out, LOTS, u64::to_le_bytes, &book.lots);
    put_numbers(out, SHORTAGES, u64::to_le_bytes, &book.shortages);
}

pub(crate) fn book_of(input: &Record) -> Book {
    let mut book = Book::fresh();
    book.open_year = u64::from_le_bytes(input[0]);
    read_numbers(input, MARKS, u64::from_le_bytes, &mut book.marks);
    read_numbers(input, PARTS, i64::from_le_bytes, &mut book.parts);
    read_numbers(input, LOTS, u64::from_le_bytes, &mut book.lots);
    read_numbers(input, SHORTAGES, u64::from_le_bytes, &mut book.shortages);
    book
}

fn table_of(input: &Record) -> Table {
    let mut table = [[0; COLUMNS]; YEARS];
    read_numbers(input, TABLE, u64::from_le_bytes, table.as_flattened_mut());
    table
}

pub(crate) fn asked_of(input: &Record) -> Option<Asked> {
    let kind = u64::from_le_bytes(input[KIND]);
    let mut arguments = [0; 10];
    read_numbers(input, ARGUMENTS, u64::from_le_bytes, &mut arguments);
    let mut limits = [0; 2];
    read_numbers(input, ARGUMENTS + 10, u64::from_le_bytes, &mut limits);
    let [number, volume] = limits;
    let [a, b, c, d, e, ..] = arguments;
    let call = match kind {
        0 => Call::File(Filing::of(Purpose::File(Limits::LARGE), arguments)),
        1 => Call::Close(a),
        2 => Call::Trade(Trade::from([a, b, c, d, e])),
        3 => Call::Apply(Application::from([a, b, c, d, e])),
        4 => Call::Retire(Retirement::from([a, b, c, d])),
        5 => Call::File(Filing::of(Purpose::Amend, arguments)),
        6 => return Some(Asked::Text(a)),
        7 => Call::Cover(Cover::from([a, b])),
        8 => Call::File(Filing::of(Purpose::File(Limits { number, volume }), arguments)),
        _ => return None,
    };
    Some(Asked::Post(call))
}

// An answer in numbers: the refusal's and no values, or 0 and the values.
fn figures_of(answer: Result<Answer, Refusal>) -> [u64; 3] {
    match answer {
        Err(why) => [u64::from(why), 0, 0],
        Ok(Answer::Filed(part, count)) => [0, part.0.cast_unsigned(), count],
        Ok(Answer::Closed(short)) => [0, short, 0],
        Ok(Answer::Left(mg) | Answer::Covered(mg)) => [0, mg.0, 0],
    }
}
