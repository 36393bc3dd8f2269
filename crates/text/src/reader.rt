// "A reader carries the lent line along with its place": the line's slice and a position. Few thin functions: they take
// it apart and call the covered reader of a slice and a number. `read_line` has a plain parameter, so that its callers
// need no proof by hand.
ghost use Rattle.std.specs.Prelude.{◌≡◌};
ghost use Rattle.text.specs.Line.{line_at, line_of};

use crate::lines::form_at;
use book::kinds::Call;

#[derive(Clone, Copy)]
pub struct Reader<'a> {
    pub line: &'a [u8],
    pub at: usize,
}

impl<'a> Reader<'a> {
    // A reader at a line's start.
    pub fn new(line: &'a [u8]) -> Self
        ensures { (result.line ≡ line.entry) × (result.at ≡ 0) }
    {
        Reader { line, at: 0 }
    }

    // The form that stands at the reader's place, to the line's end.
    pub fn form(self) -> Option<Call>
        ensures { result ≡ line_at self.entry.line.now self.entry.at }
    {
        form_at(self.line, self.at)
    }
}

// The call that a line is, for any bytes (without the line feed).
#[tactic(auto, unfolding(crate::specs::Line::line_of))]
pub fn read_line(line: &[u8]) -> Option<Call>
    ensures { result ≡ line_of line.now }
{
    Reader::new(line).form()
}
