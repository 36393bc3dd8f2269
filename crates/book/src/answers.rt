// What a call answers. specs/Refusals.antt gives document 01's number and values for each case.
ghost use Rattle.std.specs.Prelude.{◌≡◌, cond, is_ok};
ghost use Rattle.book.specs.Refusals.{number_of};

use crate::ledger::Book;
use figuring::units::{Mg, Part};

// The refusal list: each variant has the list's number.
#[derive(Clone, Copy, Debug, PartialEq, Eq)]
pub enum Refusal {
    NotAForm = 1,
    UnsoundBook = 2,
    UnknownMaker = 3,
    UnknownSet = 4,
    YearNotOpen = 5,
    NoStandard = 6,
    UnknownFamily = 7,
    OutOfLimits = 8,
    AlreadyFiled = 9,
    VintageNotLive = 10,
    ZeroAmount = 11,
    SameMaker = 12,
    HasShortage = 13,
    NoOpenShortage = 14,
    AboveLot = 15,
    AboveShortage = 16,
    NoEdition = 17,
    NotFiled = 18,
    NotATable = 19,
    UnfitTable = 20,
    ShortBuffer = 21,
    NotABook = 22,
}

// The number of a refusal.
impl From<Refusal> for u64 {
    ghost from_gives = { λ why number. number ≡ number_of why };

    fn from(why: Refusal) -> u64 {
        why as u64
    }
}

// What an accepted call gives.
#[derive(Clone, Copy)]
pub enum Answer {
    // The part, and how many families of the cell are now filed.
    Filed(Part, u64),
    // How many cells closed short.
    Closed(u64),
    // What is left in the paying lot.
    Left(Mg),
    // What a cover moved.
    Covered(Mg),
}

// The answer to a call, or what refuses it; and the book after it. Each step by value works on the book that it was handed
// and gives it back so, in two lines: one function for all of them would be handed the step as a closure, in as many.
#[derive(Clone, Copy)]
pub struct Posted {
    pub answer: Result<Answer, Refusal>,
    pub book: Book,
}

impl Posted {
    // Stores the book of an accepted call in the place of the one that it was handed. A refusal leaves that as it was, so
    // of one nothing is stored.
    #[inline(always)]
    pub(crate) fn store(self, book: &mut Book) -> Result<Answer, Refusal>
        ensures answer { result ≡ self.answer }
        ensures stored { book.new ≡ cond (is_ok self.answer) self.book book.old }
    {
        if self.answer.is_ok() {
            *book = self.book;
        }
        self.answer
    }
}
