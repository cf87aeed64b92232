// Words and numbers as text, put into lent bytes from a place on: each call answers where the next byte goes. And a lent text: such bytes with such a place.
// A place that is handed on stays in a register, a text's own is written after each byte: with the loops in its methods a list took up to 1.5 times as long.
ghost use Rattle.std.specs.Prelude.{◌≡◌, [], ◌∷◌, map, ◌+◌, ◌/◌, ◌%◌, ◌≤◌, ◌<◌, length};
ghost use Rattle.file.specs.Bytes.{over};
ghost use Rattle.desk.specs.Text.{decimal, ended};
ghost use Rattle.desk.specs.Puts.{Fits, Puts};

// The bytes of w.
#[inline(always)]
pub fn put_word(t: &mut [u8], at: usize, w: &[u8]) -> usize
    requires { at + length w.now ≤ length t.old }
    ensures { (result ≡ at + length w.now) × (t.new ≡ over t.old at w.now) }
{
    let end = at + w.len();
    t[at..end].copy_from_slice(w);
    end
}

// The two digits of a number below 100.
#[inline(always)]
fn put_pair(t: &mut [u8], at: usize, n: u64) -> usize
    requires { (at + 2 ≤ length t.old) × (n < 100) }
    ensures { (result ≡ at + 2) × (t.new ≡ over t.old at ((48 + n / 10) ∷ (48 + n % 10) ∷ [])) }
{
    t[at] = 48 + (n / 10) as u8;
    t[at + 1] = 48 + (n % 10) as u8;
    at + 2
}

// The digits of n: the last two go behind those of n / 100. By hand, as the kit's itoa fills a buffer that is then copied: a list took more than twice as long.
pub fn put_number(t: &mut [u8], at: usize, n: u64) -> usize
    requires { at + length (decimal n) ≤ length t.old }
    ensures { (result ≡ at + length (decimal n)) × (t.new ≡ over t.old at (decimal n)) }
{
    if n < 10 {
        t[at] = 48 + n as u8;
        return at + 1;
    }
    if n < 100 {
        return put_pair(t, at, n);
    }
    let front = put_number(t, at, n / 100);
    put_pair(t, front, n % 100)
}

// What stands on a line behind its first word: the numbers, each behind a blank, and the line's end.
pub fn put_rest(t: &mut [u8], at: usize, ns: &[u64]) -> usize
    requires { at + length (ended (map decimal ns.now)) ≤ length t.old }
    ensures { (result ≡ at + length (ended (map decimal ns.now)))
        × (t.new ≡ over t.old at (ended (map decimal ns.now))) }
{
    let mut o = at;
    for n in ns {
        t[o] = b' ';
        o = put_number(t, o + 1, *n);
    }
    t[o] = b'\n';
    o + 1
}

// The lent bytes, and where the next one goes.
#[derive(Drop)]
pub struct Text<'a> {
    pub bytes: &'a mut [u8],
    pub at: usize,
}

impl<'a> Text<'a> {
    pub fn new(bytes: &'a mut [u8]) -> Text<'a>
        ensures same { result.bytes.ghost_name ≡ bytes.entry.ghost_name }
        ensures at { result.at ≡ 0 }
        ensures now { result.bytes.now ≡ bytes.old }
    {
        Text { bytes, at: 0 }
    }

    #[inline(always)]
    pub fn word(&mut self, w: &str)
        requires { Fits self.old w.now }
        ensures { Puts self.old self.new w.now }
    {
        self.at = put_word(self.bytes, self.at, w.as_bytes());
    }

    #[inline(always)]
    pub fn number(&mut self, n: u64)
        requires { Fits self.old (decimal n) }
        ensures { Puts self.old self.new (decimal n) }
    {
        self.at = put_number(self.bytes, self.at, n);
    }

    // What stands on a line behind its first word: the numbers, each behind a blank, and the line's end.
    #[inline(always)]
    pub fn rest(&mut self, numbers: &[u64])
        requires { Fits self.old (ended (map decimal numbers.now)) }
        ensures { Puts self.old self.new (ended (map decimal numbers.now)) }
    {
        self.at = put_rest(self.bytes, self.at, numbers);
    }
}
