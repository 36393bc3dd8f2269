// A lent text at the first place of a byte, and by its first line.
ghost use Rattle.std.specs.Prelude.{◌≡◌, MatchOption};
ghost use Rattle.text.specs.Lines.{Lacks};
ghost use Rattle.text.specs.FirstLine.{Parted, first_line, after_line};

// What stands before the first such byte, and what behind it, as std says it of a str; none of a text that lacks it.
pub(crate) fn split_once(text: &[u8], byte: u8) -> Option<(&[u8], &[u8])>
    ensures { MatchOption result (Lacks byte text.now) (λ r. Parted byte text.now r.0.now r.1.now) }
{
    let n = text.iter().position(|b| *b == byte)?;
    Some((&text[..n], &text[n + 1..]))
}

// The first line, and what follows its line feed: nothing, where it is the last and lacks it.
pub(crate) fn split_line(text: &[u8]) -> (&[u8], &[u8])
    ensures { (result.0.now ≡ first_line text.now) × (result.1.now ≡ after_line text.now) }
{
    split_once(text, b'\n').unwrap_or((text, &[]))
}
