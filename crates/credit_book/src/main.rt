// The program of document 01: from a fresh book, or from that of a file, reads standard input to its end, answers each line,
// lists the cells; then it writes the book out to a file, where one is named.
// All that answers is handed one table of standards: that of the file std.txt, or the built-in one.
// The contracts speak of values, since none can say what a call of the system read or wrote (specs/Whole.antt).
#![tactic(auto)]

mod arguments;
mod book_file;
mod console;
mod files;
mod progress;
mod saving;
mod start;
mod std_file;

ghost use Rattle.credit_book.specs.Start.{refusal_of};
ghost use Rattle.credit_book.specs.Whole.{AnsweredBy, ProgramBy};

use arguments::{Asked, named_files};
use console::{OUT_ROOM, Ran, Wrote, run, say};
use figuring::grid::printed_grid;
use saving::save;
use start::{Halt, Start, prepare};
use text::answering::put_answer;

// A run, what it began with, and the writing out of its book, if there was one; or what was asked for, why there is no run,
// and the writing of a refused text's answer. No `Result`: the program ends with either, and hands neither on.
#[derive(Clone, Copy)]
pub enum Outcome {
    Ran(Start, Ran, Option<Wrote>),
    Halted(Option<Asked>, Halt, Option<Wrote>),
}

// The answer of a refused table or book, alone; none where it was told why there is no run.
#[tactic(auto, using(text::proofs::AnswerLaws::text_length))]
fn answer_halt(rt: HostRuntime, halt: Halt, out: &mut [u8; OUT_ROOM]) -> Option<Wrote>
    ensures { AnsweredBy (refusal_of halt) out.old result out.new }
{
    let why = halt.refusal()?;
    let put = put_answer(out, 0, Err(why));
    Some(say(rt, out, put))
}

fn program(rt: HostRuntime, out: &mut [u8; OUT_ROOM]) -> Outcome
    ensures { ProgramBy out.old result out.new }
{
    let asked = named_files(rt);
    match prepare(rt, asked) {
        Ok(start) => {
            let table = start.table.unwrap_or(printed_grid());
            let ran = run(rt, table, start.book, out);
            let saved = save(rt, start.asked.write, ran.closed, out);
            Outcome::Ran(start, ran, saved)
        }
        Err(halt) => {
            let answer = answer_halt(rt, halt, out);
            Outcome::Halted(asked, halt, answer)
        }
    }
}

fn main(rt: HostRuntime) {
    let mut out = [0u8; OUT_ROOM];
    program(rt, &mut out);
}
