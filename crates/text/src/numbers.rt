// Decimal numbers, read; `Page::put_number` writes them.
ghost use Rattle.std.specs.Prelude.{◌≡◌, ◌≤◌, length};
ghost use Rattle.text.specs.Numeral.{leading, number, value};

// How many digits a text starts with.
fn digits(s: &[u8]) -> usize
    ensures { result ≡ length (leading s.now) }
{
    s.iter().take_while(|c| c.is_ascii_digit()).count()
}

// What digits are worth. Not by std's `parse`, which would look again whether they are a text, are digits and fit.
fn value(digits: &[u8]) -> u64
    requires digits { leading digits.now ≡ digits.now }
    requires few { length digits.now ≤ 18 }
    ensures { result ≡ value digits.now }
{
    let mut worth = 0;
    for &digit in digits {
        worth = worth * 10 + u64::from(digit - b'0');
    }
    worth
}

// The number of at most `most` digits that a text starts with: its value, and how many digits it has.
#[tactic(auto, using(crate::proofs::DigitLaws::reads_number))]
pub(crate) fn number(s: &[u8], most: usize) -> Option<(u64, usize)>
    requires { most ≤ 18 }
    ensures { result ≡ number most s.now }
{
    let k = digits(s);
    if k == 0 || most < k {
        return None;
    }
    if 1 < k && s[0] == b'0' {
        return None;
    }
    Some((value(&s[..k]), k))
}
