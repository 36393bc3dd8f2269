// Card 5: the alternative standards of 2024 to 2026, in two editions.
ghost use Rattle.std.specs.Prelude.{◌≡◌};
ghost use Rattle.figuring.specs.Editions.{alternative_sets, alternative_years, in_table, alternative_for};
ghost use Rattle.figuring.specs.Editions.{standard_under, no_edition};

// The two tables in g/hp-hr: medium vocational, heavy vocational, medium tractor, heavy tractor.
//                         2    3    2    3      set
//                         0    0    1    1      use
const EARLIER: [u16; 4] = [538, 506, 467, 442];

const LATER: [u16; 4] = [542, 510, 467, 442];

// The standard that a family names, for any edition, set, use and year: 0 is the ordinary one.
#[tactic(auto, unfolding(crate::specs::Editions::standard_under))]
pub fn standard_under(
    ordinary: Option<u16>,
    edition: u64,
    set: u64,
    vehicle_use: u64,
    year: u64,
) -> Option<u16>
    ensures { result ≡ standard_under ordinary edition set vehicle_use year }
{
    if edition == 0 {
        return ordinary;
    }
    alternative_for(edition, set, vehicle_use, year)
}

// Whether refusal 17 concerns an edition in a set and a year. An edition stays the number that a filing hands over, which
// may be any: an enum of three would have to be read off it first.
#[tactic(auto, unfolding(crate::specs::Editions::no_edition))]
pub fn no_edition(edition: u64, set: u64, year: u64) -> bool
    ensures { result ≡ no_edition edition set year }
{
    match edition {
        0 => false,
        1 | 2 => !in_alternative_sets(set) || !in_alternative_years(year),
        _ => true,
    }
}

// The alternative standard of an edition from 1 on.
#[tactic(auto, unfolding(crate::specs::Editions::alternative_for))]
fn alternative_for(edition: u64, set: u64, vehicle_use: u64, year: u64) -> Option<u16>
    ensures { result ≡ alternative_for edition set vehicle_use year }
{
    if !in_alternative_years(year) {
        return None;
    }
    match edition {
        1 => in_table(EARLIER, set, vehicle_use),
        2 => in_table(LATER, set, vehicle_use),
        _ => None,
    }
}

// The standard in a table for a set and a use.
#[tactic(auto, unfolding(crate::specs::Editions::in_table))]
fn in_table(table: [u16; 4], set: u64, vehicle_use: u64) -> Option<u16>
    ensures { result ≡ in_table table set vehicle_use }
{
    match (vehicle_use, set) {
        (0, 2) => Some(table[0]),
        (0, 3) => Some(table[1]),
        (1, 2) => Some(table[2]),
        (1, 3) => Some(table[3]),
        _ => None,
    }
}

// Medium and heavy.
#[tactic(auto, unfolding(crate::specs::Editions::alternative_sets))]
fn in_alternative_sets(set: u64) -> bool
    ensures { result ≡ alternative_sets set }
{
    (2..=3).contains(&set)
}

#[tactic(auto, unfolding(crate::specs::Editions::alternative_years))]
fn in_alternative_years(year: u64) -> bool
    ensures { result ≡ alternative_years year }
{
    (2024..=2026).contains(&year)
}
