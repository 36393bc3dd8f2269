// Patterns: texts in which # stands for a number. `fitted` reads any pattern, from number to number; `Page::fill` writes
// any.
ghost use Rattle.std.specs.Prelude.{◌≡◌, ◌≤◌};
ghost use Rattle.text.specs.Pattern.{ToNumber, fit, hashes};

use crate::numbers::number;

// Goes on to a pattern's next #: what is left of the pattern behind it, and of the text, if it goes with the pattern so
// far.
fn to_number<'p, 't>(form: &'p [u8], text: &'t [u8]) -> Option<(&'p [u8], &'t [u8])>
    ensures { ToNumber form.now text.now result }
{
    let mut left = form;
    let mut rest = text;
    while let Some((p, after)) = left.split_first() {
        if *p == b'#' {
            return Some((after, rest));
        }
        let (b, more) = rest.split_first()?;
        if b != p {
            return None;
        }
        left = after;
        rest = more;
    }
    None
}

// Reads a text against a pattern, in which # stands for a number of at most `most` digits, any other byte for itself: the
// N numbers in the places of the pattern's #, if the text fits.
#[tactic(auto, using(crate::proofs::PatternLaws::reads_pattern))]
pub(crate) fn fitted<const N: usize>(pattern: &[u8], text: &[u8], most: usize) -> Option<[u64; N]>
    requires { (hashes pattern.now ≡ N) × (most ≤ 18) }
    ensures { result ≡ fit most pattern.now text.now }
{
    // Each byte and each number of the pattern takes a byte of the text or more, by which most lines of another form go.
    if text.len() < pattern.len() {
        return None;
    }
    let mut n = [0; N];
    let mut form = pattern;
    let mut rest = text;
    for slot in n.iter_mut() {
        // There is one more: the pattern has N of them.
        let (after, here) = to_number(form, rest)?;
        let (v, d) = number(here, most)?;
        *slot = v;
        form = after;
        rest = &here[d..];
    }
    (rest == form).then_some(n)
}
