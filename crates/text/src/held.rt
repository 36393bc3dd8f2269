// A line of the input as its bytes come, until it ends.
ghost use Rattle.std.specs.Prelude.{◌≡◌, [], eqb, length, fold, take};
ghost use Rattle.text.specs.Line.{line_of};
ghost use Rattle.text.specs.Desk.{held_with};
ghost use Rattle.text.specs.Held.{held_in, most_held, nothing_held};
ghost use Rattle.text.specs.Serving.{NextLine};

use crate::first_line::split_once;
use crate::lines::LONGEST_LINE;
use crate::reader::read_line;
use book::kinds::Call;

// A line is held up to this many bytes, one more than the longest form has: they stand for any longer line.
const MOST_HELD: usize = LONGEST_LINE + 1;

// What is held of a line that has not ended yet: the first `len` bytes. A contract says it as the list of those bytes,
// `held_in`, and nothing of what lies past them. No model: a type that has one is not copied where it is handed over.
#[derive(Clone, Copy)]
pub(crate) struct Held {
    bytes: [u8; MOST_HELD],
    len: usize,
}

impl Held {
    pub(crate) fn new() -> Held
        ensures { result ≡ nothing_held }
    {
        Held {
            bytes: [0; MOST_HELD],
            len: 0,
        }
    }

    // These bytes, as many as there is room for.
    #[tactic(auto, using(crate::proofs::HeldLaws::first_held))]
    pub(crate) fn of(line: &[u8]) -> Held
        ensures { held_in result ≡ take most_held line.now }
    {
        let mut held = Held::new();
        held.hold(line);
        held
    }

    // The bytes that are held.
    #[tactic(auto, using(crate::proofs::HeldLaws::within))]
    pub(crate) fn as_slice(&self) -> &[u8]
        ensures { result.now ≡ held_in self.now }
    {
        &self.bytes[..self.len.min(MOST_HELD)]
    }

    pub(crate) fn is_empty(&self) -> bool
        ensures { result ≡ eqb (length (held_in self.now)) 0 }
    {
        self.as_slice().is_empty()
    }

    // The next bytes of the line, as many as there is room for.
    fn hold(&mut self, more: &[u8])
        ensures { held_in self.new ≡ fold held_with (held_in self.old) more.now }
    {
        let start = self.len.min(MOST_HELD);
        let n = more.len().min(MOST_HELD - start);
        let end = start + n;
        self.bytes[start..end].copy_from_slice(&more[..n]);
        self.len = end;
    }

    // The end of the line: what it is read as. Of the next one nothing is held yet.
    pub(crate) fn end_line(&mut self) -> Option<Call>
        ensures { (result ≡ line_of (held_in self.old)) × (held_in self.new ≡ []) }
    {
        let line = read_line(self.as_slice());
        self.len = 0;
        line
    }

    // Takes a chunk's bytes up to the end of a line: what that line is, and the bytes after its line feed. Where no line
    // ends in the chunk, it is taken whole.
    pub(crate) fn next_line<'a>(&mut self, chunk: &'a [u8]) -> Option<(Option<Call>, &'a [u8])>
        ensures { NextLine (held_in self.old) chunk.now result (held_in self.new) }
    {
        let Some((line, rest)) = split_once(chunk, b'\n') else {
            self.hold(chunk);
            return None;
        };
        self.hold(line);
        Some((self.end_line(), rest))
    }
}
