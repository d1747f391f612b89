// Text and decimal numbers (RULES "Numbers"), written one after another into a byte slice that has room for them.
#![tactic(auto)]

ghost use Rattle.std.specs.Prelude.{ℕ, List, [], ◌∷◌, ◌≤◌, ◌≡◌, length};
ghost use Rattle.text.specs.Decimal.{spell_nat, spell_int};
ghost use Rattle.write.specs.Digits.{at_least};
ghost use Rattle.write.specs.Written.{slice_bytes, slice_name, written_len, HasRoom, Wrote};

/// A lent slice, and how many bytes at its start are written. Each call asks for room for its own text, and leaves the bytes behind that as
/// they are.
#[derive(Drop)]
pub struct Writer<'a> {
    out: &'a mut [u8],
    at: usize,
}

impl<'a> Writer<'a> {
    /// A writer at the start of `out`, of which nothing is written yet.
    pub fn new(out: &'a mut [u8]) -> Writer<'a>
        ensures same_slice { slice_name result ≡ out.entry.ghost_name }
        ensures content { slice_bytes result ≡ out.old }
        ensures place { written_len result ≡ 0 }
    {
        Writer { out, at: 0 }
    }

    /// How many bytes are written.
    pub fn len(&self) -> usize
        ensures { result ≡ written_len self.now }
    {
        self.at
    }

    /// Writes these bytes.
    pub fn put(&mut self, bytes: &[u8])
        requires { HasRoom self.old (length bytes.now) }
        ensures { Wrote self.old bytes.now self.new }
    {
        let end = self.at + bytes.len();
        self.out[self.at..end].copy_from_slice(bytes);
        self.at = end;
    }

    /// Writes one byte.
    pub fn put_byte(&mut self, byte: u8)
        requires { HasRoom self.old 1 }
        ensures { Wrote self.old (byte ∷ []) self.new }
    {
        self.out[self.at] = byte;
        self.at += 1;
    }

    /// Writes the decimal text of a number.
    pub fn put_decimal<T: Decimal>(&mut self, number: T)
        requires { HasRoom self.old (length (T.spelling number)) }
        ensures { Wrote self.old (T.spelling number) self.new }
    {
        let end = self.at + number.text_len();
        number.put_text(&mut self.out[self.at..end]);
        self.at = end;
    }
}

/// A whole number that has a decimal text. Unlike std's `Display` it tells the length of the text before a byte is written, as refusal 8
/// needs it (RULES "Refusals").
pub trait Decimal: Copy {
    ghost spelling: { Self → List ℕ };

    /// How many bytes the text takes.
    fn text_len(self) -> usize
        ensures value { result ≡ length (spelling self) };

    /// Puts the text over the whole of `out`, which has its length.
    fn put_text(self, out: &mut [u8])
        requires { length out.old ≡ length (spelling self) }
        ensures { out.new ≡ spelling self };
}

impl Decimal for u64 {
    ghost spelling = { spell_nat };

    // Up to five digits are counted without a branch.
    fn text_len(self) -> usize
        ensures value { result ≡ length (spell_nat self) }
        ensures upper_bound { result ≤ 20 }
    {
        let n = self;
        if n < 100000 {
            return 1 + at_least(n, 10) + at_least(n, 100) + at_least(n, 1000) + at_least(n, 10000);
        }
        // this loop is faster than `ilog10` in its place, and than `ilog10` of all numbers
        let mut rest = n / 100000;
        let mut len = 6;
        while 10 <= rest {
            rest /= 10;
            len += 1;
        }
        len
    }

    // From the last digit to the first.
    fn put_text(self, out: &mut [u8]) {
        let mut rest = self;
        for i in (0..out.len()).rev() {
            out[i] = b'0' + (rest % 10) as u8;
            rest /= 10;
        }
    }
}

// A negative number has a sign before its digits.
impl Decimal for i64 {
    ghost spelling = { spell_int };

    fn text_len(self) -> usize
        ensures value { result ≡ length (spell_int self) }
        ensures upper_bound { result ≤ 21 }
    {
        self.unsigned_abs().text_len() + usize::from(self < 0)
    }

    fn put_text(self, out: &mut [u8]) {
        let digits = self.unsigned_abs();
        if self < 0 {
            out[0] = b'-';
            digits.put_text(&mut out[1..]);
        } else {
            digits.put_text(out);
        }
    }
}

// 1 where `n` is `least` or more, 0 below.
fn at_least(n: u64, least: u64) -> usize
    ensures value { result ≡ at_least n least }
    ensures upper_bound { result ≤ 1 }
{
    usize::from(least <= n)
}
