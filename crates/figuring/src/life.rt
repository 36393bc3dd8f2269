// Live, expired, open, overdue: for any two years, with no sum that could wrap.
#![tactic(auto, unfolding(crate::specs::Life::closed_year, crate::specs::Life::age, crate::specs::Life::live, crate::specs::Life::expired, crate::specs::Life::open_short, crate::specs::Life::overdue))]

ghost use Rattle.std.specs.Prelude.{◌≡◌};
ghost use Rattle.figuring.specs.Life.{live, expired, open_short, overdue, age};

use crate::years::FIRST_YEAR;

// How many years after its own a lot is live.
const LOT_LIFE: u64 = 6;

// How many years after its own a shortage is open.
const SHORTAGE_LIFE: u64 = 4;

// Live and expired, open and overdue are document 01's four words, each asked for by its name. All that two of them share
// is `age`: one function that is handed the years of a life would be the same line once more.
pub fn is_live(open_year: u64, vintage: u64) -> bool
    ensures { result ≡ live open_year vintage }
{
    age(open_year, vintage).is_some_and(|years| years <= LOT_LIFE)
}

pub fn is_expired(open_year: u64, vintage: u64) -> bool
    ensures { result ≡ expired open_year vintage }
{
    age(open_year, vintage).is_some_and(|years| years > LOT_LIFE)
}

pub fn is_open(open_year: u64, year: u64) -> bool
    ensures { result ≡ open_short open_year year }
{
    age(open_year, year).is_some_and(|years| years <= SHORTAGE_LIFE)
}

pub fn is_overdue(open_year: u64, year: u64) -> bool
    ensures { result ≡ overdue open_year year }
{
    age(open_year, year).is_some_and(|years| years > SHORTAGE_LIFE)
}

// How many years ago a closed year is; a year that is not closed has no age.
fn age(open_year: u64, year: u64) -> Option<u64>
    ensures { result ≡ age open_year year }
{
    (FIRST_YEAR..open_year)
        .contains(&year)
        .then(|| open_year - year)
}
