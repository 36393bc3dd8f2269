// File: sets a family's mark and part in the open year. An amendment is a filing of a family that is filed: its mark
// stays, and its part is replaced. Both are handed a table of standards (card 7), and read in it whether it is accepted
// and the ordinary standard of their set, use and year.
ghost use Rattle.std.specs.Prelude.{[], ◌∷◌, ◌≡◌};
ghost use Rattle.figuring.specs.Parts.{family_part};
ghost use Rattle.figuring.specs.Standards.{grams_of};
ghost use Rattle.figuring.specs.Editions.{standard_under};
ghost use Rattle.book.specs.Postings.{ordinary_for};
ghost use Rattle.book.specs.Refusals.{first_refusal};
ghost use Rattle.book.specs.Rules.{answered, posted, rows_for, filed_row};
ghost use Rattle.book.specs.declared.kinds.Call.{Call};

use crate::answers::{Answer, Posted, Refusal};
use crate::head::filing_head;
use crate::kinds::Filing;
use crate::ledger::{ALL_CLOSED, Book, FAMILIES, MAKERS, SETS, is_marked};
use crate::places::Family;
use figuring::editions::{no_edition, standard_under};
use figuring::parts::{family_part, within_limits};
use figuring::standards::ordinary_in;
use figuring::tables::{Table, table_accepted};
use figuring::units::Part;

pub fn file(mut book: Book, table: Table, f: Filing) -> Posted
    ensures { result ≡ posted table book (Call.File f) }
{
    let answer = filed(&mut book, &table, f);
    Posted { answer, book }
}

#[tactic(auto, using(crate::proofs::TableLaws::refused_so))]
fn filed(book: &mut Book, table: &Table, f: Filing) -> Result<Answer, Refusal>
    ensures { answered result book.new ≡ posted table.now book.old (Call.File f) }
{
    file_verdict(book, table, f)?;
    let part = part_of(table, f).ok_or(Refusal::OutOfLimits)?;
    let family = Family::at(f.maker, f.set, f.family);
    Ok(book.store(family, part))
}

// A filing's part, from the standard that it names beside the ordinary one; out of limits where document 01 says so. Where
// there is no standard 0 stands for it, as in the rule (`grams_of`; docs/DECISIONS.md): 6 or 17 refuses such a filing.
fn part_of(table: &Table, f: Filing) -> Option<Part>
    ensures { result ≡ family_part
        (grams_of (standard_under (ordinary_for table.now f) f.edition f.set f.vehicle_use f.year))
        f.fcl f.cf f.volume f.life }
{
    let ordinary = ordinary_in(*table, f.set, f.vehicle_use, f.year);
    let standard = standard_under(ordinary, f.edition, f.set, f.vehicle_use, f.year);
    family_part(standard.unwrap_or(0), f.fcl, f.cf, f.volume, f.life)
}

#[tactic(auto, unfolding(crate::specs::Rules::rows_for, crate::specs::Rules::head_rows, crate::specs::Rules::own_rows, crate::specs::Rules::file_rows))]
fn file_verdict(book: &Book, table: &Table, f: Filing) -> Result<(), Refusal>
    ensures { result ≡ first_refusal (rows_for table.now book.now (Call.File f)) }
{
    filing_head(book.is_sound(), table_accepted(*table))?;
    if f.maker >= MAKERS {
        return Err(Refusal::UnknownMaker);
    }
    if f.set >= SETS {
        return Err(Refusal::UnknownSet);
    }
    if f.year != book.open_year {
        return Err(Refusal::YearNotOpen);
    }
    if book.open_year == ALL_CLOSED {
        return Err(Refusal::YearNotOpen);
    }
    if ordinary_in(*table, f.set, f.vehicle_use, f.year).is_none() {
        return Err(Refusal::NoStandard);
    }
    if no_edition(f.edition, f.set, f.year) {
        return Err(Refusal::NoEdition);
    }
    let limits = f.purpose.limits();
    if f.family >= FAMILIES || limits.number < f.family {
        return Err(Refusal::UnknownFamily);
    }
    if !within_limits(f.fcl, f.cf, f.volume, f.life) || limits.volume < f.volume {
        return Err(Refusal::OutOfLimits);
    }
    let family = Family::at(f.maker, f.set, f.family);
    filed_verdict(
        f.purpose.amends(),
        is_marked(book.marks[family.cell.index()], family.number),
    )
}

// Whether the family is filed: a filing's must not be, an amendment's must.
fn filed_verdict(amends: bool, filed: bool) -> Result<(), Refusal>
    ensures { result ≡ first_refusal (filed_row amends filed ∷ []) }
{
    match (amends, filed) {
        (false, false) => Ok(()),
        (false, true) => Err(Refusal::AlreadyFiled),
        (true, false) => Err(Refusal::NotFiled),
        (true, true) => Ok(()),
    }
}
