// Bytes to words: the lowest layer of the translator, document 01, 'Job text'. A text is read in place, one word at a time, from
// any place on; every text and every place is answered, and each byte of a word is looked at once.
#![tactic(auto)]

ghost use Rattle.std.specs.Prelude.{◌≡◌, true, false, ◌+◌, ◌<◌, ltb, length, get_or, drop};
ghost use Rattle.text_words.specs.Words.{is_blank, is_digit, is_allowed, in_word, run, word_at, first_not_allowed};
ghost use Rattle.text_words.specs.Scan.{letters_from, ends_at, number_by, word_from};

use crate::bytes::{is_allowed, is_blank, is_digit};
use crate::numbers::{digits_from, has_leading_zero, value_by, value_more};
use crate::table::kind_by;
use text_keys::key_more;

mod bytes;
mod numbers;
mod table;

// The kinds of words beside the reserved ones, whose kinds are 1 to 16 in the table's order.
pub const NO_WORD: u8 = 0;

pub const NUMBER: u8 = 17;

pub const OTHER_WORD: u8 = 18;

// A word of a text: its kind (NO_WORD where the text has ended, k + 1 for reserved word k, NUMBER, or OTHER_WORD), its
// value if it is a number and 0 otherwise, where it begins, and the place behind it.
#[derive(Clone, Copy)]
pub struct Word {
    pub kind: u8,
    pub value: u32,
    pub start: usize,
    pub next: usize,
}

// The bytes of a word: their key, and the place behind them.
#[derive(Clone, Copy)]
struct Letters {
    key: u64,
    next: usize,
}

// Whether a text has a byte that is not allowed. The walk has no early way out, so that the compiler takes sixteen bytes at a time.
fn any_not_allowed(text: &[u8]) -> bool
    ensures { result ≡ ltb (run is_allowed text.now) (length text.now) }
{
    let mut any = false;
    for b in text {
        any = any | !is_allowed(*b);
    }
    any
}

// The place of the first byte of a text that is not allowed: looked for only where there is one.
pub fn first_not_allowed(text: &[u8]) -> Option<usize>
    ensures { result ≡ first_not_allowed text.now }
{
    if any_not_allowed(text) {
        text.iter().position(|b| !is_allowed(*b))
    } else {
        None
    }
}

// The first place from `at` on that holds no blank: the text's end where only blanks are left, `at` itself past the end.
fn skip_blanks(text: &[u8], at: usize) -> usize
    ensures { result ≡ at + run is_blank (drop at text.now) }
{
    let end = at.max(text.len());
    for i in at..end {
        if !is_blank(text[i]) {
            return i;
        }
    }
    end
}

// Whether a word that comes to `at` ends there.
fn ends_at(text: &[u8], at: usize) -> bool
    ensures { result ≡ ends_at text.now at }
{
    if at < text.len() {
        is_blank(text[at])
    } else {
        true
    }
}

// The place behind the word that goes on at `at`.
fn word_end(text: &[u8], at: usize) -> usize
    ensures { result ≡ at + run in_word (drop at text.now) }
{
    let end = at.max(text.len());
    for i in at..end {
        if is_blank(text[i]) {
            return i;
        }
    }
    end
}

// The bytes from `at` to the word's end, gathered behind those of the key `before`.
fn letters_from(text: &[u8], before: u64, at: usize) -> Letters
    ensures { result ≡ letters_from text.now before at }
{
    let end = at.max(text.len());
    let mut key = before;
    for i in at..end {
        let b = text[i];
        if is_blank(b) {
            return Letters { key, next: i };
        }
        key = key_more(key, b);
    }
    Letters { key, next: end }
}

// "A number is digits only, with no leading 0 unless it is `0`": whether the n digits up to `next`, of which this is the first, are one.
fn is_number(text: &[u8], first: u8, n: usize, next: usize) -> bool
    ensures { result ≡ number_by text.now first n next }
{
    if has_leading_zero(first, n) {
        return false;
    }
    ends_at(text, next)
}

// The word that begins with a digit at `start`. No reserved word does, so that it never meets the table.
fn number_at(text: &[u8], start: usize) -> Word
    requires { (start < length text.now) × (is_digit (get_or text.now start 0) ≡ true) }
    ensures { result ≡ word_from text.now start }
{
    let first = text[start];
    let digits = digits_from(text, value_more(0, first), start + 1);
    let next = digits.next;
    let n = next - start;
    if is_number(text, first, n, next) {
        return Word {
            kind: NUMBER,
            value: value_by(digits.value, n),
            start,
            next,
        };
    }
    Word {
        kind: OTHER_WORD,
        value: 0,
        start,
        next: word_end(text, next),
    }
}

// The word that begins at `start` with a byte that is no blank and no digit, and so is no number.
fn letters_at(text: &[u8], start: usize) -> Word
    requires { (start < length text.now) × (is_blank (get_or text.now start 0) ≡ false) × (is_digit (get_or text.now start 0) ≡ false) }
    ensures { result ≡ word_from text.now start }
{
    let letters = letters_from(text, key_more(0, text[start]), start + 1);
    let next = letters.next;
    Word {
        kind: kind_by(letters.key, next - start),
        value: 0,
        start,
        next,
    }
}

// The word that begins at the first byte from `at` on that is no blank.
pub fn word_at(text: &[u8], at: usize) -> Word
    ensures { result ≡ word_at text.now at }
{
    let start = skip_blanks(text, at);
    if text.len() <= start {
        return Word {
            kind: NO_WORD,
            value: 0,
            start,
            next: start,
        };
    }
    if is_digit(text[start]) {
        return number_at(text, start);
    }
    letters_at(text, start)
}
