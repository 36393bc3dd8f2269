// A lent buffer that is written from its start: bytes, numbers, and patterns with their numbers.
ghost use Rattle.std.specs.Prelude.{◌≡◌, ◌+◌, ◌≤◌, length, take, [], ◌∷◌};
ghost use Rattle.text.specs.Numeral.{numeral};
ghost use Rattle.text.specs.Pattern.{filled, hashes};
ghost use Rattle.text.specs.Placing.{Adds, HasRoom, by_sign};

// What stands before `at` is written. Each method, and each function that is lent a page, needs room for all that it puts,
// which is another for each: so the type cannot say it, and none of them can fail. Not std's `Cursor`: its `write` cuts
// off what has no room and answers a count, and of its `write_all` and `write!` no contract says that they succeed, or
// what then stands in the buffer.
#[derive(Drop)]
pub(crate) struct Page<'a> {
    out: &'a mut [u8],
    pub(crate) at: usize,
}

impl<'a> Page<'a> {
    pub(crate) fn new(out: &'a mut [u8]) -> Page<'a>
        ensures same_buffer { result.out.ghost_name ≡ out.entry.ghost_name }
        ensures untouched { result.out.now ≡ out.old }
        ensures at_start { result.at ≡ 0 }
    {
        Page { out, at: 0 }
    }

    // What is written.
    pub(crate) fn written(&self) -> &[u8]
        requires { HasRoom 0 self.now }
        ensures { result.now ≡ take self.now.at self.now.out.now }
    {
        &self.out[..self.at]
    }

    fn put_byte(&mut self, b: u8)
        requires { HasRoom 1 self.old }
        ensures { Adds (b ∷ []) self.old self.new }
    {
        self.out[self.at] = b;
        self.at += 1;
    }

    // Puts n's decimal digits. Not by `write!`: no contract says when that succeeds, so each function that puts would have
    // to answer a failure.
    fn put_number(&mut self, n: u64)
        requires { HasRoom (length (numeral n)) self.old }
        ensures { Adds (numeral n) self.old self.new }
    {
        if n < 10 {
            return self.put_byte(b'0' + n as u8);
        }
        self.put_number(n / 10);
        self.put_byte(b'0' + (n % 10) as u8);
    }

    // Puts a pattern, with the numbers of n in the places of its #. The patterns stay, in the place of `write!`: a
    // pattern is the one statement of a line's form that this writer and `fitted`, the reader, share.
    pub(crate) fn fill(&mut self, pattern: &[u8], n: &[u64])
        requires one_for_each { length n.now ≡ hashes pattern.now }
        requires room { HasRoom (length (filled pattern.now n.now)) self.old }
        ensures { Adds (filled pattern.now n.now) self.old self.new }
    {
        let mut left = n.iter();
        for &p in pattern {
            if p != b'#' {
                self.put_byte(p);
            } else if let Some(k) = left.next() {
                self.put_number(*k);
            }
        }
    }

    // Puts the pattern of a part's sign: `below`, which has its minus, or `other`. In n the part stands without a sign.
    pub(crate) fn fill_by_sign(&mut self, part: i64, below: &[u8], other: &[u8], n: &[u64])
        requires one_for_each { (length n.now ≡ hashes below.now) × (length n.now ≡ hashes other.now) }
        requires room { HasRoom (length (filled (by_sign part below.now other.now) n.now)) self.old }
        ensures { Adds (filled (by_sign part below.now other.now) n.now) self.old self.new }
    {
        if part < 0 {
            self.fill(below, n);
        } else {
            self.fill(other, n);
        }
    }
}
