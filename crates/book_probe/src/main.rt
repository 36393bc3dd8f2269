// Puts calls to books that no session reaches, whatever their figures, to hold a second implementation against the
// calls and soundness. Standard input holds records of 3,774 words, each a book, a call and a table of standards; for
// each record it writes 3,621 words: whether the book is sound, the answer, and the book after the call. A word is 64
// bits, low byte first. In the place of a call a record may name a number of bytes that follow it: they are read as the
// text of a book, and the book is written into them (texts.rt).
// A last record that is cut short is ignored. A kind that is not known, or too many bytes, end the run, with a message.
#![tactic(auto)]

mod records;
mod texts;
mod words;

ghost use Rattle.std.specs.Prelude.{◌≡◌, ◌*◌, length};
ghost use Rattle.book_probe.specs.Sizes.{record_bytes};

use records::{ANSWER, Answered, Asked, RECORD, Record, answer_call, asked_of};
use streams::reading::read_full;
use text::reading::TEXT_ROOM;
use texts::text_turn;

// The record, before one is read.
fn blank_record() -> Record
    ensures { record_bytes ≡ 8 * length result }
{
    [[0; 8]; RECORD]
}

// Reads one record and writes its answer; nothing, which ends the run (an Option, as its reads and writes are made by `ok`)
// and was told if it is a fault, at the input's end, at a kind that is not known or too many bytes, or if a write fails.
fn turn(
    rt: HostRuntime,
    input: &mut Record,
    bytes: &mut [u8; TEXT_ROOM],
    out: &mut Answered,
) -> Option<()> {
    let input_bytes = input.as_flattened_mut();
    if read_full(&mut rt.stdin(), input_bytes) < input_bytes.len() {
        return None;
    }
    let Some(asked) = asked_of(input) else {
        let _ = eprintln!(rt; "book_probe: not a kind of call");
        return None;
    };
    match asked {
        Asked::Post(call) => {
            answer_call(input, call, out);
            rt.write_all(out.as_flattened()).ok()
        }
        Asked::Text(count) => text_turn(rt, input, count, bytes, out),
    }
}

fn main(rt: HostRuntime) {
    let mut input = blank_record();
    let mut bytes = [0u8; TEXT_ROOM];
    let mut out = [[0u8; 8]; ANSWER];
    // a proved loop has to end: this one counts up to a number that no input reaches
    for _ in 0..u64::MAX {
        if turn(rt, &mut input, &mut bytes, &mut out).is_none() {
            return;
        }
    }
}
