// The calls of document 01 and of the cards, with the arguments other than the book. What is made of figures takes them
// in the papers' order of the arguments.
ghost use Rattle.std.specs.Prelude.{◌≡◌};
ghost use Rattle.book.specs.Calls.{filing_of, trade_of, application_of, retirement_of, cover_of};
ghost use Rattle.book.specs.Limits.{limits_of, amends};

use crate::ledger::FAMILIES;
use figuring::parts::VOLUME_MOST;

// The largest family number and the largest volume of a filing (card 10), any two figures. A number above 63 and a volume
// above 100,000 are refused whatever the pair, so a limit above these counts as these.
#[derive(Clone, Copy)]
pub struct Limits {
    pub number: u64,
    pub volume: u64,
}

impl Limits {
    // Document 01's limits, those of the large entry.
    pub const LARGE: Limits = Limits {
        number: FAMILIES - 1,
        volume: VOLUME_MOST,
    };
    // Those of the small makers' entry.
    pub const SMALL: Limits = Limits {
        number: 15,
        volume: 5_000,
    };
}

// What a filing does with its family: it files it, under a pair of limits, or amends it, under the large ones.
#[derive(Clone, Copy)]
pub enum Purpose {
    File(Limits),
    Amend,
}

impl Purpose {
    pub fn limits(self) -> Limits
        ensures { result ≡ limits_of self }
    {
        match self {
            Purpose::File(limits) => limits,
            Purpose::Amend => Limits::LARGE,
        }
    }

    pub fn amends(self) -> bool
        ensures { result ≡ amends self }
    {
        match self {
            Purpose::File(_) => false,
            Purpose::Amend => true,
        }
    }
}

// A filing, under any pair of limits (card 10); or an amendment, which has the same fields (card 6).
// They are one struct by the project's rule that calls which differ in a figure are one call, with one list of rows and one
// step: the rows of limits and the last row alone tell them apart.
#[derive(Clone, Copy)]
pub struct Filing {
    pub purpose: Purpose,
    pub maker: u64,
    pub set: u64,
    pub year: u64,
    pub vehicle_use: u64,
    pub edition: u64,
    pub family: u64,
    pub fcl: u64,
    pub cf: u64,
    pub volume: u64,
    pub life: u64,
}

impl Filing {
    // The filing of ten figures, or the amendment. Its purpose is none of them: so this is no `From`.
    pub fn of(purpose: Purpose, figures: [u64; 10]) -> Filing
        ensures { result ≡ filing_of purpose figures }
    {
        let [
            maker,
            set,
            year,
            vehicle_use,
            edition,
            family,
            fcl,
            cf,
            volume,
            life,
        ] = figures;
        Filing {
            purpose,
            maker,
            set,
            year,
            vehicle_use,
            edition,
            family,
            fcl,
            cf,
            volume,
            life,
        }
    }
}

#[derive(Clone, Copy)]
pub struct Trade {
    pub from: u64,
    pub to: u64,
    pub set: u64,
    pub vintage: u64,
    pub mg: u64,
}

impl From<[u64; 5]> for Trade {
    ghost from_gives = { λ figures trade. trade ≡ trade_of figures };

    fn from([from, to, set, vintage, mg]: [u64; 5]) -> Trade {
        Trade {
            from,
            to,
            set,
            vintage,
            mg,
        }
    }
}

#[derive(Clone, Copy)]
pub struct Application {
    pub maker: u64,
    pub set: u64,
    pub vintage: u64,
    pub year: u64,
    pub mg: u64,
}

impl From<[u64; 5]> for Application {
    ghost from_gives = { λ figures application. application ≡ application_of figures };

    fn from([maker, set, vintage, year, mg]: [u64; 5]) -> Application {
        Application {
            maker,
            set,
            vintage,
            year,
            mg,
        }
    }
}

#[derive(Clone, Copy)]
pub struct Retirement {
    pub maker: u64,
    pub set: u64,
    pub vintage: u64,
    pub mg: u64,
}

impl From<[u64; 4]> for Retirement {
    ghost from_gives = { λ figures retirement. retirement ≡ retirement_of figures };

    fn from([maker, set, vintage, mg]: [u64; 4]) -> Retirement {
        Retirement {
            maker,
            set,
            vintage,
            mg,
        }
    }
}

// Oldest credits first (card 9).
#[derive(Clone, Copy)]
pub struct Cover {
    pub maker: u64,
    pub set: u64,
}

impl From<[u64; 2]> for Cover {
    ghost from_gives = { λ figures cover. cover ≡ cover_of figures };

    fn from([maker, set]: [u64; 2]) -> Cover {
        Cover { maker, set }
    }
}

#[derive(Clone, Copy)]
pub enum Call {
    File(Filing),
    Close(u64),
    Trade(Trade),
    Apply(Application),
    Retire(Retirement),
    Cover(Cover),
}
