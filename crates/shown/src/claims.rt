// The claims about what the terminal shows, each a function whose contract is the statement of specs/Shown or
// specs/Moving for every table, every book that the terminal begins with (a sound one where the claim says so; `Sized`
// and `Marks64` are what the struct's type says of each) and every input. A theorem that goes missing, or is proved of
// less, leaves its function here unproved, so the gate holds it.
ghost use Rattle.std.specs.Prelude.{ℕ, true, List, [], ◌∷◌, ◌++◌, ◌≡◌};
ghost use Rattle.figuring.specs.Tables.{Table};
ghost use Rattle.book.specs.Companions.{Sized};
ghost use Rattle.book.specs.Postings.{fresh_book};
ghost use Rattle.book.specs.Soundness.{sound};
ghost use Rattle.book.specs.declared.ledger.Book.{Book};
ghost use Rattle.text.specs.BookReading.{read_book};
ghost use Rattle.text.specs.Desk.{line_feed};
ghost use Rattle.text.specs.Loads.{accepted};
ghost use Rattle.text.specs.RoundTrip.{Marks64};
ghost use Rattle.shown.specs.Shown.{ByCalls, Demands, FiledInAnyOrder, FromFresh, JournalKept, OnScreen};
ghost use Rattle.shown.specs.Moving.{FromText, MovedAsText, MovesOn, WrittenOut};

// The terminal's book and answers are those of the input's calls.
pub fn by_calls() -> bool
    ensures { (result ≡ true) × ((t : Table) (b : Book) (input : List ℕ) → ByCalls t b input) }
{
    true
}

// No answer is refusal 2, and demand 3 holds of the terminal's book.
pub fn demands() -> bool
    ensures { (result ≡ true)
        × ((t : Table) (b : Book) (input : List ℕ) → Sized b → sound b ≡ true → Demands t b input) }
{
    true
}

// The sentence on the screen: every Mg shown is the balance of opening figures and accepted postings, or what a cover
// moved by their accounts.
pub fn on_screen() -> bool
    ensures { (result ≡ true)
        × ((t : Table) (b : Book) (input : List ℕ) → Sized b → sound b ≡ true → OnScreen t b input) }
{
    true
}

// The same of the program's terminal, which starts from a fresh book: of accepted postings alone.
pub fn from_fresh() -> bool
    ensures { (result ≡ true) × ((t : Table) (input : List ℕ) → FromFresh t input) }
{
    true
}

// With the same table and the same book to begin with, the journal of the accepted calls leads to the same book and
// listing.
pub fn journal_kept() -> bool
    ensures { (result ≡ true) × ((t : Table) (b : Book) (input : List ℕ) → JournalKept t b input) }
{
    true
}

// The order of filings does not reach the book, nor the listing.
pub fn filed_in_any_order() -> bool
    ensures { (result ≡ true)
        × ((t : Table) (b : Book) (input other : List ℕ) → Sized b → FiledInAnyOrder t b input other) }
{
    true
}

// A new terminal, begun with the book that another left after some whole lines, goes on as that one would.
pub fn moves_on() -> bool
    ensures { (result ≡ true)
        × ((t : Table) (b : Book) (p q : List ℕ) → MovesOn t b (p ++ line_feed ∷ []) q) }
{
    true
}

// The text of the terminal's book, after any input, is read as that very book: begun with the fresh book, or with any
// sound one.
pub fn written_out() -> bool
    ensures { (result ≡ true)
        × ((t : Table) (b : Book) (input : List ℕ) → Sized b → Marks64 b → sound b ≡ true → WrittenOut t b input)
        × ((t : Table) (input : List ℕ) → WrittenOut t fresh_book input) }
{
    true
}

// Card 8: "Moving to a new terminal needs the whole book as text". A new terminal, begun with what that text is read as,
// goes on as the one that it was written at would.
pub fn moved_as_text() -> bool
    ensures { (result ≡ true)
        × ((t : Table) (b : Book) (p q : List ℕ) → Sized b → Marks64 b → sound b ≡ true
        → MovedAsText t b (p ++ line_feed ∷ []) q) }
{
    true
}

// A terminal that begins with a book read in, from whatever text, shows what is claimed of sound books.
pub fn from_text() -> bool
    ensures { (result ≡ true)
        × ((t : Table) (s : List ℕ) (b : Book) (input : List ℕ) → read_book s ≡ accepted b → FromText t b input) }
{
    true
}
