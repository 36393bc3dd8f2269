// The claims of the book layer, each a function whose contract is the statement of specs/ for all its arguments. A
// theorem that goes missing, or is proved of less, leaves its function here unproved, so the gate holds it.
ghost use Rattle.std.specs.Prelude.{ℕ, true, List, ◌≡◌};
ghost use Rattle.figuring.specs.Tables.{Table};
ghost use Rattle.book.specs.Ledger.{Key, In};
ghost use Rattle.book.specs.Soundness.{sound};
ghost use Rattle.book.specs.Rules.{CheckingOrder, Request};
ghost use Rattle.book.specs.Accounts.{Accounts, Entry, Opening};
ghost use Rattle.book.specs.Demand1.{Demand1};
ghost use Rattle.book.specs.Demand3.{Demand3};
ghost use Rattle.book.specs.Companions.{KeepsSound, NeverUnsound, Sized, Stays, StrikeOut};
ghost use Rattle.book.specs.BegunAnew.{BegunFresh, FreshBegins, OpeningStays};
ghost use Rattle.book.specs.FilingOrder.{FilingOrder, EachAlone, Lodged, SaysNoLess};
ghost use Rattle.book.specs.FiveDecimals.{SameSessions, SoundParts};
ghost use Rattle.book.specs.Editions.{ElseTheSame, Reaches6, SixThenSeventeen, UnderNamed};
ghost use Rattle.book.specs.Amendments.{Amended, CountsLast, LastCounts, StandsInPlaceOf9};
ghost use Rattle.book.specs.Limits.{large_limits, small_limits};
ghost use Rattle.book.specs.SmallMakers.{UnderAnyPair, CountsAsLarge, TwoEntries};
ghost use Rattle.book.specs.OwnStandards.{AsBefore, ReadNoTable, Twenty, WithinBound};
ghost use Rattle.book.specs.OldestFirst.{AcceptedExactly, AsInBook, CountsAsMade, NoneBetter, OldestFirst, OwnYear};
ghost use Rattle.book.specs.Marked.{MarkedFigures};
ghost use Rattle.book.specs.EachAccount.{EachAccount};
ghost use Rattle.book.specs.declared.ledger.Book.{Book};
ghost use Rattle.book.specs.declared.kinds.Call.{Call};
ghost use Rattle.book.specs.declared.kinds.Cover.{Cover};
ghost use Rattle.book.specs.declared.kinds.Filing.{Filing};
ghost use Rattle.book.specs.declared.kinds.Limits.{Limits};

use crate::kinds::Limits;

// Demand 1: its result or one numbered refusal, which leaves the book as it was.
pub fn answers_or_refuses() -> bool
    ensures { (result ≡ true) × ((t : Table) (b : Book) (c : Call) → Demand1 t b c) }
{
    true
}

// The tables by the paper's numbers.
pub fn checking_order() -> bool
    ensures { (result ≡ true) × CheckingOrder }
{
    true
}

// Demand 3, of any list begun on any book: that its arrays are as long as they are is said by the struct's type.
pub fn reconciles() -> bool
    ensures { (result ≡ true) × ((b : Book) → Sized b → (rs : List Request) → Demand3 b rs) }
{
    true
}

// Card 8: no call moves the opening figures; a fresh book is sound and has none, so that demand 3 begun on it is
// document 01's.
pub fn begins_anew() -> bool
    ensures { (result ≡ true) × ((o : Opening) (es : List Entry) → OpeningStays o es)
        × FreshBegins
        × ((rs : List Request) → BegunFresh rs) }
{
    true
}

// A call leaves a sound book sound.
pub fn keeps_sound() -> bool
    ensures { (result ≡ true) × ((t : Table) (b : Book) (c : Call) → KeepsSound t b c) }
{
    true
}

// No list begun on a sound book meets refusal 2.
pub fn never_unsound() -> bool
    ensures { (result ≡ true)
        × ((b : Book) → Sized b → sound b ≡ true → (rs : List Request) → NeverUnsound b rs) }
{
    true
}

// Refused calls may be struck out.
pub fn strike_out() -> bool
    ensures { (result ≡ true) × ((b : Book) (rs : List Request) → StrikeOut b rs) }
{
    true
}

// An expired lot and an overdue shortage stay.
pub fn stays() -> bool
    ensures { (result ≡ true) × ((b : Book) (rs : List Request) (k : Key) → In k → Stays b rs k) }
{
    true
}

// Each account by itself.
pub fn each_account() -> bool
    ensures { (result ≡ true) × EachAccount }
{
    true
}

// P1 to P12.
pub fn marked_figures() -> bool
    ensures { (result ≡ true) × MarkedFigures }
{
    true
}

// Card 1: the order of filings changes neither the book nor what each filing gets.
pub fn filing_order() -> bool
    ensures { (result ≡ true) × ((b : Book) (fs gs : List Lodged) → FilingOrder b fs gs) }
{
    true
}

// The reason: each filing gets what it gets alone, and together they make one book.
pub fn each_alone() -> bool
    ensures { (result ≡ true) × ((b : Book) (fs : List Lodged) → EachAlone b fs) }
{
    true
}

// The words of card 1's theorem say no less than the card's.
pub fn says_no_less() -> bool
    ensures { (result ≡ true) × SaysNoLess }
{
    true
}

// Card 4: its bound of a part; and that a session restated, CF times 10, is answered as it was, and leaves the same lots
// and shortages.
pub fn same_sessions() -> bool
    ensures { (result ≡ true) × SoundParts × SameSessions }
{
    true
}

// Card 5: an accepted filing is figured under the standard that it named; 6 goes by the ordinary one, before 17; and an
// edition that 17 lets pass changes nothing but the part.
pub fn under_named() -> bool
    ensures { (result ≡ true) × ((t : Table) (b : Book) (f : Filing) → UnderNamed t b f)
        × ((t : Table) (b : Book) (f : Filing) → Reaches6 t b f → SixThenSeventeen t b f)
        × ((t : Table) (b : Book) (f : Filing) → ElseTheSame t b f) }
{
    true
}

// Card 6: an accepted amendment replaces the part, and leaves the marks, the count and all else; 18 stands in place of 9.
pub fn amended() -> bool
    ensures { (result ≡ true) × ((t : Table) (b : Book) (f : Filing) → Amended t b f)
        × ((t : Table) (b : Book) (f : Filing) → StandsInPlaceOf9 t b f) }
{
    true
}

// A family counts with its last accepted figures of the year, in the book and in the accounts.
pub fn last_counts() -> bool
    ensures { (result ≡ true) × ((t u : Table) (b : Book) (f g : Filing) → LastCounts t u b f g)
        × ((o : Opening) (es : List Entry) (k : Key) (family : ℕ) → CountsLast o es k family) }
{
    true
}

// The two pairs of limits that the code names are those of the rules.
pub fn entries() -> (Limits, Limits)
    ensures { result ≡ (large_limits, small_limits) }
{
    (Limits::LARGE, Limits::SMALL)
}

// Card 10: a filing under any pair of limits gets what the large entry gives, but 7 or 8 over its limits, in their places;
// the two entries are two of these pairs.
pub fn small_makers() -> bool
    ensures { (result ≡ true) × ((t : Table) (b : Book) (f : Filing) (l : Limits) → UnderAnyPair t b f l)
        × ((t : Table) (b : Book) (f : Filing) (l : Limits) → CountsAsLarge t b f l)
        × ((t : Table) (b : Book) (f : Filing) → TwoEntries t b f) }
{
    true
}

// Card 7: 20 comes after 2 and before all else, of filings and amendments alone; and a part stays within its bound.
pub fn tables_judged() -> bool
    ensures { (result ≡ true) × ((t : Table) (b : Book) (f : Filing) → Twenty t b f)
        × ((t u : Table) (b : Book) → ReadNoTable t u b)
        × ((t : Table) (b : Book) (f : Filing) → WithinBound t b f) }
{
    true
}

// With the built-in table every answer and every book is what it was before.
pub fn as_before() -> bool
    ensures { (result ≡ true) × ((b : Book) (c : Call) → AsBefore b c) }
{
    true
}

// Card 9: a cover is accepted just where 2, 3 and 4 do not apply. It pays the oldest open shortage from the oldest live lot
// until either kind is used up, and is the applications that it makes, each accepted in its turn; the Mg moved are the
// smaller of the two totals.
pub fn oldest_first() -> bool
    ensures { (result ≡ true) × ((t : Table) (b : Book) (c : Cover) → AcceptedExactly t b c)
        × ((t : Table) (b : Book) (c : Cover) → OldestFirst t b c) }
{
    true
}

// No other list of the maker's applications in the set that covers as many Mg leaves more in the younger lots.
pub fn none_better() -> bool
    ensures { (result ≡ true) × ((t : Table) (b : Book) (c : Cover) → NoneBetter t b c) }
{
    true
}

// In the accounts a cover counts as the applications that it made in the book, which they figure by themselves.
pub fn counts_as_made() -> bool
    ensures { (result ≡ true) × ((t : Table) (a : Accounts) (c : Cover) → CountsAsMade t a c)
        × ((t : Table) (b : Book) (rs : List Request) (c : Cover) → AsInBook t b rs c)
        × ((o : Opening) (es : List Entry) → OwnYear o es) }
{
    true
}
