// The head of the refusals: what comes before all that a call tests itself, decided in one place for every call. Of the
// book it asks whether it is sound, of the table beside a filing whether it is accepted. Other rows that several calls have
// stand in the verdict of each, as in the rules: a verdict is its call's table, read down with a test for each row. The head
// is handed the tests, and not the book: with the walk of soundness in one function it was compiled to a slower loop.
ghost use Rattle.std.specs.Prelude.{◌≡◌, [], ◌∷◌};
ghost use Rattle.book.specs.Refusals.{first_refusal};
ghost use Rattle.book.specs.Rules.{fit_row, head_rows};

use crate::answers::Refusal;

#[tactic(auto, unfolding(crate::specs::Rules::head_rows))]
pub(crate) fn head_verdict(sound: bool) -> Result<(), Refusal>
    ensures { result ≡ first_refusal (head_rows sound []) }
{
    if !sound {
        return Err(Refusal::UnsoundBook);
    }
    Ok(())
}

// The head of a filing or an amendment.
#[tactic(auto, unfolding(crate::specs::Rules::head_rows))]
pub(crate) fn filing_head(sound: bool, fit: bool) -> Result<(), Refusal>
    ensures { result ≡ first_refusal (head_rows sound (fit_row fit ∷ [])) }
{
    head_verdict(sound)?;
    if !fit {
        return Err(Refusal::UnfitTable);
    }
    Ok(())
}
