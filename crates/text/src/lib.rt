// Numbers (RULES "Numbers") and fixed keys at the start of a text, each with the text after it.
#![tactic(auto)]

ghost use Rattle.std.specs.Prelude.{◌≡◌, ◌^◌, ◌<◌, ◌∷◌, [], IfSome, option_copied, nat_abs};
ghost use Rattle.text.specs.Numeral.{natural, negative, number};
ghost use Rattle.text.specs.TextReading.{behind, FirstDigit, FirstDigits, natural_read, number_read};

// The first ten digits, or all where there are fewer: how many, and the number that they spell.
#[derive(Clone, Copy)]
struct DigitRun {
    count: usize,
    value: u64,
}

/// The text after its first byte, if that is `byte`.
pub fn after_byte(text: &[u8], byte: u8) -> Option<&[u8]>
    ensures { option_copied result ≡ behind (byte ∷ []) text.now }
{
    let (first, rest) = text.split_first()?;
    if *first == byte { Some(rest) } else { None }
}

/// The text after `key`, if it starts with these bytes.
pub fn after_key<'a>(text: &'a [u8], key: &[u8]) -> Option<&'a [u8]>
    ensures { option_copied result ≡ behind key.now text.now }
{
    text.strip_prefix(key)
}

// The digit that a text starts with, and the text after it.
fn digit(text: &[u8]) -> Option<(u64, &[u8])>
    ensures { FirstDigit text.now result }
{
    let (b, rest) = text.split_first()?;
    if b.is_ascii_digit() {
        Some(((*b - b'0') as u64, rest))
    } else {
        None
    }
}

// The digits that a text starts with, ten of them at most.
fn digits(text: &[u8]) -> DigitRun
    ensures { FirstDigits text.now result.count result.value }
{
    let mut value: u64 = 0;
    let mut rest = text;
    for count in 0..10 {
        let Some((d, others)) = digit(rest) else {
            return DigitRun { count, value };
        };
        value = value * 10 + d;
        rest = others;
    }
    DigitRun { count: 10, value }
}

// A number without a sign, and the text after it.
fn natural(text: &[u8]) -> Option<(u64, &[u8])>
    ensures number { natural_read result ≡ natural text.now }
    ensures nine_digits { IfSome result (λ r. r.0 < 10 ^ 9) }
{
    let run = digits(text);
    let count = run.count;
    if count < 1 || 9 < count {
        return None;
    }
    if 1 < count && after_byte(text, b'0').is_some() {
        return None;
    }
    let (_, rest) = text.split_at(count);
    Some((run.value, rest))
}

// What follows a `-`: a number other than 0, which it makes negative, and the text after it.
fn negative(text: &[u8]) -> Option<(i64, &[u8])>
    ensures number { number_read result ≡ negative text.now }
    ensures nine_digits { IfSome result (λ r. nat_abs r.0 < 10 ^ 9) }
{
    let (n, rest) = natural(text)?;
    if n == 0 {
        return None;
    }
    Some((-(n as i64), rest))
}

/// The number that a text starts with, and the text after it (RULES "Numbers"). None where it starts with none: also where ten digits stand
/// there, `-0`, or a zero in front of other digits.
pub fn number(text: &[u8]) -> Option<(i64, &[u8])>
    ensures number { number_read result ≡ number text.now }
    ensures nine_digits { IfSome result (λ r. nat_abs r.0 < 10 ^ 9) }
{
    if let Some(rest) = after_byte(text, b'-') {
        return negative(rest);
    }
    let (n, rest) = natural(text)?;
    Some((n as i64, rest))
}
