// A run of the terminal: standard input is read in chunks, and each is answered on standard output; at its end a last line
// that lacks its line feed is, and the cells are listed.
// The contracts speak of values, since none can say what a call of the system read or wrote (specs/Turns.antt).
ghost use Rattle.std.specs.Prelude.{◌≤◌, true, ◌≡◌, length, take, Some, IsSomeAnd, is_ok};
ghost use Rattle.text.specs.Desk.{at_desk, ends, open_desk, takes_all};
ghost use Rattle.text.specs.Listing.{listing};
ghost use Rattle.text.specs.Placing.{Stands};
ghost use Rattle.credit_book.specs.declared.progress.Progress.{Progress};
ghost use Rattle.credit_book.specs.Turns.{ClosedBy, Delivered, RanBy, ReadBy, Turned};
ghost use Rattle.credit_book.specs.Turns.{chunk_room, count, out_room};

use crate::progress::{Lapse, Progress, progress_after};
use book::ledger::Book;
use figuring::tables::Table;
use std::io;
use streams::reading::read_once;
use streams::telling::told;
use text::answering::ANSWER_ROOM;
use text::desk::Desk;
use text::listing::put_listing;

// The most bytes of a read, and room for the answers to them; a listing takes less.
const CHUNK: usize = 4_096;

pub const OUT_ROOM: usize = ANSWER_ROOM * CHUNK;

// How many bytes were handed over to a file or to standard output, and whether it took them all. That many were handed
// over even where a part of them was not taken.
#[derive(Clone, Copy)]
pub struct Wrote {
    pub handed: usize,
    pub fine: bool,
}

impl Wrote {
    // So many bytes were handed over, by what came of it. That they were not all taken is told.
    pub(crate) fn told(rt: HostRuntime, what: &str, handed: usize, done: io::Result<()>) -> Wrote
        ensures { (result.handed ≡ handed) × (result.fine ≡ is_ok done) }
    {
        Wrote {
            handed,
            fine: told(rt, what, done).is_some(),
        }
    }
}

// What a read answered, and the writing of the answers.
#[derive(Clone, Copy)]
pub struct Turn {
    pub read: Result<usize, Lapse>,
    pub wrote: Wrote,
}

// The desk after the reads, how many there were, and how far they came.
#[derive(Clone, Copy)]
pub struct Input {
    pub desk: Desk,
    pub turns: u64,
    pub progress: Progress,
}

// The writing of the last line's answer, and of the listing, if there was one; the book after the last line.
#[derive(Clone, Copy)]
pub struct Closed {
    pub last: Wrote,
    pub listed: Option<Wrote>,
    pub book: Book,
}

// The input as it was read, and what was written at its end, if it came to it.
#[derive(Clone, Copy)]
pub struct Ran {
    pub input: Input,
    pub closed: Option<Closed>,
}

// Writes what was put at the buffer's start to standard output. If that does not take it, that is told. All that the
// program says goes this way, by the count that the text layer gives of it: it is unwrapped here alone.
pub(crate) fn say(rt: HostRuntime, out: &[u8; OUT_ROOM], put: Option<usize>) -> Wrote
    requires { IsSomeAnd put (λ n. n ≤ out_room) }
    ensures { put ≡ Some result.handed }
{
    let handed = put.unwrap();
    let done = rt.write_all(&out[..handed]);
    Wrote::told(rt, "credit-book: standard output", handed, done)
}

// Reads once from standard input. A read that failed was told.
fn read_chunk(rt: HostRuntime, chunk: &mut [u8; CHUNK]) -> Result<usize, Lapse>
    ensures { count result ≤ chunk_room }
{
    Ok(read_once(rt, &mut rt.stdin(), chunk, "credit-book: standard input")?)
}

// The desk, the one table of its run, and the buffer that all it says goes through. The buffer is borrowed before a call on
// the desk: the borrow checker has no rule for it once the desk is borrowed.
#[derive(Drop)]
struct Console<'a> {
    rt: HostRuntime,
    desk: Desk,
    table: Table,
    out: &'a mut [u8; OUT_ROOM],
}

impl Console<'_> {
    // Answers a chunk, and writes what the desk said.
    fn answer_chunk(&mut self, chunk: &[u8]) -> Wrote
        requires { length chunk.now ≤ chunk_room }
        ensures { Delivered (takes_all self.old.table (at_desk self.old.desk) chunk.now) self.old result self.new }
    {
        let out = &mut *self.out;
        let put = self.desk.take_in(self.table, chunk, out);
        say(self.rt, self.out, put)
    }

    // The answer to a last line that lacks its line feed.
    fn answer_last(&mut self) -> Wrote
        ensures { Delivered (ends self.old.table (at_desk self.old.desk)) self.old result self.new }
    {
        let out = &mut *self.out;
        let put = self.desk.last(self.table, out);
        say(self.rt, self.out, put)
    }

    // The cells of the book. It takes the writing before, so that nothing is listed after one that failed.
    fn list_cells(&mut self, last: Wrote) -> Wrote
        requires { last.fine ≡ true }
        ensures { Stands (listing self.old.desk.book) 0 self.old.out.now result.handed self.new.out.now }
    {
        let book = self.desk.book;
        let put = put_listing(self.out, book);
        say(self.rt, self.out, put)
    }

    // Answers as many bytes at the buffer's start as the read gave, be it none.
    fn answer_read(&mut self, buffer: &[u8; CHUNK], read: Result<usize, Lapse>) -> Wrote
        requires { count read ≤ chunk_room }
        ensures { Delivered (takes_all self.old.table (at_desk self.old.desk) (take (count read) buffer.now))
            self.old result self.new }
    {
        self.answer_chunk(&buffer[..read.unwrap_or(0)])
    }

    // Reads once, and answers what came.
    fn read_some(&mut self) -> Turn
        ensures { Turned self.old result self.new }
    {
        let mut chunk = [0u8; CHUNK];
        let read = read_chunk(self.rt, &mut chunk);
        let wrote = self.answer_read(&chunk, read);
        Turn { read, wrote }
    }

    // Reads the input to its end or a failure, into a desk that has just been opened. A proved loop has to end, and nothing
    // says that the input does: it counts its turns up to a number no run reaches.
    #[tactic(auto, using(crate::proofs::TurnLaws::none_yet, crate::proofs::TurnLaws::next, crate::proofs::TurnLaws::read_by))]
    fn read_all(&mut self) -> Input
        requires { self.old.desk ≡ open_desk self.old.desk.book }
        ensures read { ReadBy self.old.table self.old.desk.book result }
        ensures same_desk { self.new.desk ≡ result.desk }
        ensures same_table { self.new.table ≡ self.old.table }
    {
        for turns in 0..u64::MAX {
            let turn = self.read_some();
            let progress = progress_after(turn.read, turn.wrote.fine);
            match progress {
                Progress::More => {}
                _ => return self.input(turns + 1, progress),
            }
        }
        self.input(u64::MAX, Progress::More)
    }

    // The input after so many reads that came so far.
    fn input(&self, turns: u64, progress: Progress) -> Input
        ensures { result ≡ record { desk = self.now.desk; turns = turns; progress = progress } }
    {
        Input {
            desk: self.desk,
            turns,
            progress,
        }
    }

    // The end of the input: the last line's answer, then the cells. It takes the input, so that nothing is answered or
    // listed after one that failed.
    fn close(&mut self, input: Input) -> Closed
        requires { input.progress ≡ Progress.Ended }
        ensures { ClosedBy self.old.table (at_desk self.old.desk) result }
    {
        let last = self.answer_last();
        let book = self.desk.book;
        let listed = if last.fine {
            Some(self.list_cells(last))
        } else {
            None
        };
        Closed { last, listed, book }
    }
}

// A run with this table, begun on this book.
pub fn run(rt: HostRuntime, table: Table, book: Book, out: &mut [u8; OUT_ROOM]) -> Ran
    ensures { RanBy table book result }
{
    let desk = Desk::open(book);
    let mut console = Console {
        rt,
        desk,
        table,
        out,
    };
    let input = console.read_all();
    let closed = match input.progress {
        Progress::Ended => Some(console.close(input)),
        _ => None,
    };
    Ran { input, closed }
}
