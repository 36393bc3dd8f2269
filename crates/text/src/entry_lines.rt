// A line of a book's text to its entry.
#![tactic(auto, unfolding(crate::specs::Pattern::hashes))]

ghost use Rattle.std.specs.Prelude.{◌≡◌};
ghost use Rattle.text.specs.BookText.{family, family_below, lot, short};
ghost use Rattle.text.specs.BookReading.{book_digits, entry_in, entry_of};
ghost use Rattle.text.specs.EntryReading.{above_0};
ghost use Rattle.text.specs.Pattern.{fit, hashes};

use crate::entries::Entry;
use crate::patterns::fitted;

// "Numbers are as before but of up to 18 digits".
pub(crate) const BOOK_DIGITS: usize = 18;

// The entry of a line, by the first form that it fits.
#[tactic(auto, unfolding(crate::specs::BookReading::entry_of))]
pub(crate) fn entry_of(line: &[u8]) -> Option<Entry>
    ensures { result ≡ entry_of line.now }
{
    family(line)
        .or_else(|| family_below(line))
        .or_else(|| lot(line))
        .or_else(|| short(line))
}

#[tactic(auto, unfolding(crate::specs::Pattern::hashes), using(crate::proofs::ReadingLaws::reads_family))]
fn family(line: &[u8]) -> Option<Entry>
    ensures { result ≡ entry_in family line.now }
{
    let [maker, set, number, part] = fitted::<4>(b"(family # # # #)", line, BOOK_DIGITS)?;
    Some(Entry::Family(maker, set, number, part as i64))
}

// What a part below 0, a lot and a shortage share is `above_0`: one function for the three would be handed the pattern, and
// a closure for what each makes of its figures.
#[tactic(auto, unfolding(crate::specs::Pattern::hashes), using(crate::proofs::ReadingLaws::reads_below))]
fn family_below(line: &[u8]) -> Option<Entry>
    ensures { result ≡ entry_in family_below line.now }
{
    let [maker, set, number, size] = above_0(b"(family # # # -#)", line)?;
    Some(Entry::Family(maker, set, number, -(size as i64)))
}

fn lot(line: &[u8]) -> Option<Entry>
    ensures { result ≡ entry_in lot line.now }
{
    let [maker, set, year, mg] = above_0(b"(lot # # # #)", line)?;
    Some(Entry::Lot(maker, set, year, mg))
}

fn short(line: &[u8]) -> Option<Entry>
    ensures { result ≡ entry_in short line.now }
{
    let [maker, set, year, mg] = above_0(b"(short # # # #)", line)?;
    Some(Entry::Shortage(maker, set, year, mg))
}

// The figures of a line by a pattern of four, if the fourth is not 0: -0 and 0 Mg are malformed.
fn above_0(pattern: &[u8], line: &[u8]) -> Option<[u64; 4]>
    requires { hashes pattern.now ≡ 4 }
    ensures { result ≡ above_0 (fit book_digits pattern.now line.now) }
{
    fitted::<4>(pattern, line, BOOK_DIGITS).filter(|n| n[3] != 0)
}
