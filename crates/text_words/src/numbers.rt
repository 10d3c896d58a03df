// Digits read as a number, with one look at each: summed modulo 2 ^ 32, and capped once behind the last.
ghost use Rattle.std.specs.Prelude.{◌≡◌, true, ◌^◌, ◌<◌};
ghost use Rattle.text_words.specs.Words.{is_digit};
ghost use Rattle.text_words.specs.Scan.{value_more, digits_from, zero_led, value_by};

use crate::bytes::is_digit;

// Every larger number is over every range, and so is 65,536: it stands for all of them.
const CAP: u32 = 65536;

// Digits of a text: their value modulo 2 ^ 32, and the place behind them.
#[derive(Clone, Copy)]
pub struct Digits {
    pub value: u64,
    pub next: usize,
}

// The value of one digit more, modulo 2 ^ 32.
pub fn value_more(v: u64, b: u8) -> u64
    requires { (v < 2 ^ 32) × (is_digit b ≡ true) }
    ensures { (result ≡ value_more v b) × (result < 2 ^ 32) }
{
    (10 * v + (b - b'0') as u64) % 4294967296
}

// The digits from `at` on, behind digits of the value `before`.
pub fn digits_from(text: &[u8], before: u64, at: usize) -> Digits
    requires { before < 2 ^ 32 }
    ensures { result ≡ digits_from text.now before at }
{
    let end = at.max(text.len());
    let mut value = before;
    for i in at..end {
        let b = text[i];
        if !is_digit(b) {
            return Digits { value, next: i };
        }
        value = value_more(value, b);
    }
    Digits { value, next: end }
}

// Whether n digits, of which this is the first, have a leading 0.
pub fn has_leading_zero(first: u8, n: usize) -> bool
    ensures { result ≡ zero_led first n }
{
    if 1 < n { first == b'0' } else { false }
}

// The value of a number of n digits, by their value modulo 2 ^ 32: up to nine nothing is lost, and ten without a leading 0 are over the
// cap.
pub fn value_by(v: u64, n: usize) -> u32
    ensures { result ≡ value_by v n }
{
    if n < 10 {
        if v < CAP as u64 {
            return v as u32;
        }
    }
    CAP
}
