// The claims of the text layer, each a function whose contract is the statement of specs/ for all its arguments. A
// theorem that goes missing, or is proved of less, leaves its function here unproved, so the gate holds it.
ghost use Rattle.std.specs.Prelude.{true, ◌≡◌, Ok};
ghost use Rattle.text.specs.Answers.{ByText};
ghost use Rattle.text.specs.BookExamples.{BookEdges};
ghost use Rattle.text.specs.BookOrder.{RankOrders};
ghost use Rattle.text.specs.EachEntry.{EachEntry};
ghost use Rattle.text.specs.Desk.{ByWhatIsHeld};
ghost use Rattle.text.specs.Examples.{Edges, Fields, Run};
ghost use Rattle.text.specs.Lines.{Lines};
ghost use Rattle.text.specs.OneForm.{OneForm};
ghost use Rattle.text.specs.Program.{AnyChunks};
ghost use Rattle.text.specs.Rendered.{CanBeTyped, Reads, WhichHaveLines};
ghost use Rattle.text.specs.RoundTrip.{Exact, Room, RoundTrip};
ghost use Rattle.text.specs.TableText.{TableTexts};
ghost use Rattle.figuring.specs.Tables.{Table};
ghost use Rattle.book.specs.declared.ledger.Book.{Book};
ghost use Rattle.book.specs.declared.kinds.Filing.{Filing};

use crate::desk::Desk;
use std::alloc::AllocError;

// A line is read as a call exactly where it is that call's text, of at most 160 bytes and with figures of at most 12
// digits; any other line is no form.
pub fn calls_by_their_text() -> bool
    ensures { (result ≡ true) × Reads }
{
    true
}

// Which calls have a line; and a filing that has one and that some book accepts with some table has a text of at most 160
// bytes, which is read as it.
pub fn filings_can_be_typed() -> bool
    ensures { (result ≡ true) × WhichHaveLines
        × ((t : Table) (b : Book) (f : Filing) → CanBeTyped t b f) }
{
    true
}

// A line is answered by the call whose text it is, and with refusal 1 where it is no call's.
pub fn answers_by_the_text() -> bool
    ensures { (result ≡ true) × ByText }
{
    true
}

// A line is any bytes up to a line feed, or up to the input's end if there are any.
pub fn lines_by_line_feeds() -> bool
    ensures { (result ≡ true) × Lines }
{
    true
}

// A text is read as an accepted table exactly where it is that table's text, which may lack its last line feed; any
// other is refused by 19 or 20. Its first 3,865 bytes decide.
pub fn tables_by_their_text() -> bool
    ensures { (result ≡ true) × TableTexts }
{
    true
}

// With whatever table, and in whatever chunks an input comes, what is written is the answers to its lines and then the
// listing.
pub fn any_chunks() -> bool
    ensures { (result ≡ true) × AnyChunks }
{
    true
}

// Two desks that hold the same give the same; what else they have in memory, no contract sees.
pub fn desks_by_what_they_hold() -> bool
    ensures { (result ≡ true) × ByWhatIsHeld }
{
    true
}

// Of document 01's run a line of each form, an answer of each kind and the lines of its listing; and each figure in the
// field that is named before it.
pub fn run_of_the_paper() -> bool
    ensures { (result ≡ true) × Run × Fields }
{
    true
}

// What lies at the edges of a form and of a line.
pub fn edges_of_the_forms() -> bool
    ensures { (result ≡ true) × Edges }
{
    true
}

// A sound book written and read is the same book, and an accepted text written again has the same bytes. What is read in
// is sound. A text gets 22 exactly where no book is written as it, of the figures that a text can hold.
pub fn books_by_their_text() -> bool
    ensures { (result ≡ true) × RoundTrip × Exact }
{
    true
}

// No line fits two of the forms of an entry: its entry is by the one that it fits, whichever is tried first.
pub fn entries_by_one_form() -> bool
    ensures { (result ≡ true) × OneForm }
{
    true
}

// The lines of a book's text are those of its filed families, its lots and its shortages above 0, in the order of the
// card's groups, each rising by its first three figures; and so does the rank by which the reader compares them.
pub fn lines_in_order() -> bool
    ensures { (result ≡ true) × ((b : Book) → EachEntry b) × RankOrders }
{
    true
}

// No book's text is longer than BOOK_ROOM, so a longer text gets 22 by its length alone, and its first BOOK_ROOM + 1
// bytes decide.
pub fn room_of_a_book() -> bool
    ensures { (result ≡ true) × Room }
{
    true
}

// What lies at the edges of a book's text.
pub fn edges_of_a_book() -> bool
    ensures { (result ≡ true) × BookEdges }
{
    true
}

// A clone of a desk is the same desk, and cloning never fails.
pub fn copies_are_same(desk: &Desk) -> Result<Desk, AllocError>
    ensures { result ≡ Ok desk.now }
{
    desk.clone()
}

// And so is a copy.
pub fn desk_is_copied(desk: &Desk) -> Desk
    ensures { result ≡ desk.now }
{
    *desk
}
