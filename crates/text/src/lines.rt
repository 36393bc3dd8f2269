// The forms of document 01 and of the cards: a line to a call.
#![tactic(auto, unfolding(crate::specs::Pattern::hashes))]

ghost use Rattle.std.specs.Prelude.{◌≡◌, option_map};
ghost use Rattle.book.specs.declared.kinds.Call.{Call};
ghost use Rattle.text.specs.Pattern.{fit, hashes};
ghost use Rattle.text.specs.Line.{file, small, amend, close, trade, apply, retire, cover, forms, filing_call, most_digits, call_in, first_form, line_at};

use crate::patterns::fitted;
use book::kinds::{Application, Call, Cover, Filing, Limits, Purpose, Retirement, Trade};

// The most bytes of a line before its line feed, and the most digits of a number in it.
pub const LONGEST_LINE: usize = 160;

pub const MOST_DIGITS: usize = 12;

// What stands from a place of a line on, for any bytes (without the line feed) and any place. The limit is the line's:
// a longer one is no form, wherever it is read from.
pub fn form_at(line: &[u8], at: usize) -> Option<Call>
    ensures { result ≡ line_at line.now at }
{
    if LONGEST_LINE < line.len() {
        return None;
    }
    first_form(line.get(at..)?)
}

// The first of the forms that a text fits, however long it is.
fn first_form(line: &[u8]) -> Option<Call>
    ensures { result ≡ first_form forms line.now }
{
    file(line)
        .or_else(|| small(line))
        .or_else(|| amend(line))
        .or_else(|| close(line))
        .or_else(|| trade(line))
        .or_else(|| apply(line))
        .or_else(|| retire(line))
        .or_else(|| cover(line))
}

fn file(line: &[u8]) -> Option<Call>
    ensures { result ≡ call_in file line.now }
{
    filing(
        Purpose::File(Limits::LARGE),
        b"(file (maker #) (set #) (year #) (use #) (edition #) (family #) (fcl #) (cf #) (volume #) (life #))",
        line,
    )
}

fn small(line: &[u8]) -> Option<Call>
    ensures { result ≡ call_in small line.now }
{
    filing(
        Purpose::File(Limits::SMALL),
        b"(small (maker #) (set #) (year #) (use #) (edition #) (family #) (fcl #) (cf #) (volume #) (life #))",
        line,
    )
}

fn amend(line: &[u8]) -> Option<Call>
    ensures { result ≡ call_in amend line.now }
{
    filing(
        Purpose::Amend,
        b"(amend (maker #) (set #) (year #) (use #) (edition #) (family #) (fcl #) (cf #) (volume #) (life #))",
        line,
    )
}

fn filing(purpose: Purpose, pattern: &[u8], line: &[u8]) -> Option<Call>
    requires { hashes pattern.now ≡ 10 }
    ensures { result ≡ option_map (filing_call purpose) (fit most_digits pattern.now line.now) }
{
    let figures = fitted::<10>(pattern, line, MOST_DIGITS)?;
    Some(Call::File(Filing::of(purpose, figures)))
}

// A form is its pattern and the call of its figures, two lines: one function for these would be handed the pattern, the type
// and the variant.
fn close(line: &[u8]) -> Option<Call>
    ensures { result ≡ call_in close line.now }
{
    let [year] = fitted::<1>(b"(close (year #))", line, MOST_DIGITS)?;
    Some(Call::Close(year))
}

fn trade(line: &[u8]) -> Option<Call>
    ensures { result ≡ call_in trade line.now }
{
    let figures = fitted::<5>(
        b"(trade (from #) (to #) (set #) (vintage #) (mg #))",
        line,
        MOST_DIGITS,
    )?;
    Some(Call::Trade(Trade::from(figures)))
}

fn apply(line: &[u8]) -> Option<Call>
    ensures { result ≡ call_in apply line.now }
{
    let figures = fitted::<5>(
        b"(apply (maker #) (set #) (vintage #) (year #) (mg #))",
        line,
        MOST_DIGITS,
    )?;
    Some(Call::Apply(Application::from(figures)))
}

fn retire(line: &[u8]) -> Option<Call>
    ensures { result ≡ call_in retire line.now }
{
    let figures = fitted::<4>(
        b"(retire (maker #) (set #) (vintage #) (mg #))",
        line,
        MOST_DIGITS,
    )?;
    Some(Call::Retire(Retirement::from(figures)))
}

fn cover(line: &[u8]) -> Option<Call>
    ensures { result ≡ call_in cover line.now }
{
    let figures = fitted::<2>(b"(cover (maker #) (set #))", line, MOST_DIGITS)?;
    Some(Call::Cover(Cover::from(figures)))
}
