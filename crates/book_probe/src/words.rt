// Words of 64 bits, low byte first.
ghost use Rattle.std.specs.Prelude.{◌+◌, ◌≤◌, length};

pub type Word = [u8; 8];

// Fills numbers from the words from a place on; in place, since a book's arrays are long.
pub(crate) fn read_numbers<T: Copy, F: Fn(Word) -> T>(
    words: &[Word],
    at: usize,
    number: F,
    numbers: &mut [T],
)
    requires room { at + length numbers.old ≤ length words.now }
    requires any { F.IsAlwaysCallable number }
{
    for (n, word) in numbers.iter_mut().zip(&words[at..]) {
        *n = number(*word);
    }
}

// Puts numbers as words from a place on.
pub(crate) fn put_numbers<T: Copy, F: Fn(T) -> Word>(
    words: &mut [Word],
    at: usize,
    word: F,
    numbers: &[T],
)
    requires room { at + length numbers.now ≤ length words.old }
    requires any { F.IsAlwaysCallable word }
{
    for (w, n) in words[at..].iter_mut().zip(numbers) {
        *w = word(*n);
    }
}
