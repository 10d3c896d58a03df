// A text of blocks, line by line, and what a line tells: a word, two numbers, bytes. Every text is answered: the first line that is not
// the one due, or can't be read, ends the reading of its block.
ghost use Rattle.std.specs.Prelude.{◌≡◌, ◌≢◌, ℕ, ◌+◌, ◌-◌, ◌<◌, ◌≤◌, ◌↔◌, [], length, slice_index, slice_range, ◌==◌, ◌||◌, IsTrue, IfOk, IfErr, IfSome, Some, None, Ok, Err, if◌then◌else◌};
ghost use Rattle.schedule_vectors.specs.Lines.{FirstWord};
ghost use Rattle.schedule_vectors.specs.declared.lines.Line.{Line};
ghost use Rattle.schedule_vectors.specs.declared.lines.Difference.TheVariants.{Unread, OutOfMemory};

use image_rows::bytes::byte_at;
use std::alloc::{AllocError, Global};

// The most bytes that one line can tell. A line that tells more can't be read.
pub const ROOM: usize = 16384;

// The largest number that one more digit may be put behind.
const LARGEST: usize = 999999999;

// In what a block differs: the first of answer, state and records that is not the stored one, or a line that is not the one due.
#[derive(Clone, Copy)]
pub enum Difference {
    Return,
    State,
    Records,
    Unread(usize), // the line at this place of the block
    OutOfMemory,
}

impl From<AllocError> for Difference {
    ghost from_gives = { λ _ d. d ≡ OutOfMemory };

    fn from(_e: AllocError) -> Difference {
        Difference::OutOfMemory
    }
}

// A line that begins at `at` with its key. What it tells stands from `from` up to `to`, the blank behind the key included.
#[derive(Clone, Copy)]
pub struct Line {
    pub at: usize,
    pub from: usize,
    pub to: usize,
}

// A number, and the place behind its digits.
#[derive(Clone, Copy)]
struct Number {
    value: usize,
    next: usize,
}

// So many times the same byte, and the place behind what says so.
#[derive(Clone, Copy)]
struct Run {
    byte: u8,
    times: usize,
    next: usize,
}

// PARTS

// The bytes from one place up to another: none where there are no such places.
pub(crate) fn part(s: &[u8], from: usize, to: usize) -> &[u8]
    ensures there { from ≤ to → to ≤ length s.now → result.now ≡ slice_range s.now from to }
    ensures crossed { to < from → result.now ≡ [] }
    ensures past { length s.now < to → result.now ≡ [] }
{
    if from <= to && to <= s.len() {
        return &s[from..to];
    }
    &s[0..0]
}

// The first place from `at` on with this byte, or the text's end.
pub(crate) fn up_to(text: &[u8], at: usize, byte: u8) -> usize
    ensures ahead { at ≤ result }
    ensures within { at ≤ length text.now → result ≤ length text.now }
    ensures past { length text.now ≤ at → result ≡ at }
    ensures passed { (k : ℕ) → at ≤ k → k < result → slice_index text.now k ≢ byte }
    ensures found { result < length text.now → slice_index text.now result ≡ byte }
{
    for i in at..text.len() {
        if text[i] == byte {
            return i;
        }
    }
    at.max(text.len())
}

// LINES

// Where the word at `at` ends: at a blank, or with its line.
pub(crate) fn word_end(text: &[u8], at: usize) -> usize
    ensures ahead { at ≤ result }
    ensures within { at ≤ length text.now → result ≤ length text.now }
    ensures past { length text.now ≤ at → result ≡ at }
    ensures word { (k : ℕ) → at ≤ k → k < result → (slice_index text.now k ≢ 10) × (slice_index text.now k ≢ 32) }
    ensures ends { result < length text.now → slice_index text.now result ≢ 10 → slice_index text.now result ≡ 32 }
{
    let line_end = up_to(text, at, b'\n');
    up_to(part(text, 0, line_end), at, b' ')
}

// Where the line behind the one at `at` begins, or the text's end.
pub(crate) fn next_line(text: &[u8], at: usize) -> usize
    requires { at < length text.now }
    ensures ahead { at < result }
    ensures within { result ≤ length text.now }
    ensures line { (k : ℕ) → at ≤ k → k + 1 < result → slice_index text.now k ≢ 10 }
    ensures ends { result < length text.now → slice_index text.now (result - 1) ≡ 10 }
{
    let end = up_to(text, at, b'\n');
    if end < text.len() {
        end + 1
    } else {
        text.len()
    }
}

// Whether a line is empty or for people.
fn tells_nothing(text: &[u8], at: usize) -> bool
    ensures { result ≡ (slice_index text.now at == 10 || slice_index text.now at == 35) }
{
    let first = byte_at(text, at);
    first == b'\n' || first == b'#'
}

// Where the first line from `at` on that tells something begins, or the text's end.
// Kept, point 3: the walk goes from line to line, so no counted range has its places.
pub(crate) fn next_told(text: &[u8], at: usize) -> usize
    ensures ahead { at ≤ result }
    ensures past { length text.now ≤ at → result ≡ at }
    ensures within { at ≤ length text.now → result ≤ length text.now }
    ensures tells { result < length text.now → (slice_index text.now result ≢ 10) × (slice_index text.now result ≢ 35) }
    ensures begins { result ≢ at → result < length text.now → slice_index text.now (result - 1) ≡ 10 }
    ensures first { slice_index text.now at ≢ 10 → slice_index text.now at ≢ 35 → result ≡ at }
    ensures passed { (k : ℕ) → at < k → k < result → slice_index text.now (k - 1) ≡ 10 → slice_index text.now k ≢ 10 → slice_index text.now k ≡ 35 }
{
    let mut i = at;
    while i < text.len() {
        if !tells_nothing(text, i) {
            return i;
        }
        i = next_line(text, i);
    }
    i
}

// The next line that tells something: its first word, up to a blank or the line's end, and what stands behind it.
pub(crate) fn line_behind(text: &[u8], from: usize) -> Line
    ensures ahead { from ≤ result.at }
    ensures tells { result.at < length text.now → (slice_index text.now result.at ≢ 10) × (slice_index text.now result.at ≢ 35) }
    ensures word { result.at ≤ result.from }
    ensures first { FirstWord text.now result.at result.from }
    ensures within { result.at ≤ length text.now → result.from ≤ length text.now }
    ensures end { result.to < length text.now → slice_index text.now result.to ≡ 10 }
{
    let at = next_told(text, from);
    Line {
        at: at,
        from: word_end(text, at),
        to: up_to(text, at, b'\n'),
    }
}

// The same line where this holds; otherwise it can't be read.
pub(crate) fn held(line: Line, holds: bool) -> Result<Line, Difference>
    ensures { result ≡ (if holds then Ok line else Err (Unread line.at)) }
{
    if holds {
        Ok(line)
    } else {
        Err(Difference::Unread(line.at))
    }
}

// The next line that tells something, which has the key that is due there.
pub(crate) fn line_due(text: &[u8], from: usize, key: &[u8]) -> Result<Line, Difference>
    ensures ahead { IfOk result (λ l. from ≤ l.at) }
    ensures tells { IfOk result (λ l. l.at < length text.now → (slice_index text.now l.at ≢ 10) × (slice_index text.now l.at ≢ 35)) }
    ensures key { IfOk result (λ l. l.at ≤ length text.now → slice_range text.now l.at l.from ≡ key.now) }
    ensures end { IfOk result (λ l. l.to < length text.now → slice_index text.now l.to ≡ 10) }
    ensures other { IfErr result (λ d. (l : Line) × (d ≡ Unread l.at) × (from ≤ l.at) × FirstWord text.now l.at l.from × (l.at ≤ length text.now → slice_range text.now l.at l.from ≢ key.now)) }
{
    let line = line_behind(text, from);
    if part(text, line.at, line.from) == key {
        Ok(line)
    } else {
        Err(Difference::Unread(line.at))
    }
}

// WHAT A LINE TELLS

// What a line tells, as it stands in the text.
pub(crate) fn told(text: &[u8], line: Line) -> &[u8]
    ensures there { line.from ≤ line.to → line.to ≤ length text.now → result.now ≡ slice_range text.now line.from line.to }
    ensures crossed { line.to < line.from → result.now ≡ [] }
    ensures past { length text.now < line.to → result.now ≡ [] }
{
    part(text, line.from, line.to)
}

// A digit's value: 0 to 9 and a to f. A byte ahead of '0' or 'a' wraps round to a large number, and 16 stands for no digit, so that one
// test tells: the compiler chooses the value without a branch, which digits in no order would make it guess.
fn digit_of(byte: u8) -> Option<u8>
    ensures within { IfSome result (λ d. d < 16) }
    ensures decimal { 48 ≤ byte → byte ≤ 57 → result ≡ Some (byte - 48) }
    ensures letter { 97 ≤ byte → byte ≤ 102 → result ≡ Some (byte - 87) }
    ensures below { byte < 48 → result ≡ None }
    ensures between { 57 < byte → byte < 97 → result ≡ None }
    ensures above { 102 < byte → result ≡ None }
{
    let decimal = byte.wrapping_sub(b'0');
    let letter = byte.wrapping_sub(b'a');
    let digit = if decimal < 10 {
        decimal
    } else if letter < 6 {
        letter + 10
    } else {
        16
    };
    if digit < 16 { Some(digit) } else { None }
}

// The decimal number at a place, if a digit stands there and not too many.
fn number_at(told: &[u8], at: usize) -> Option<Number>
    ensures ahead { IfSome result (λ n. at < n.next) }
    ensures within { IfSome result (λ n. n.next ≤ length told.now) }
{
    let mut value: usize = 0;
    let mut next = at;
    for i in at..told.len() {
        let byte = told[i];
        if byte < b'0' || byte > b'9' {
            break;
        }
        if value > LARGEST {
            return None;
        }
        value = 10 * value + (byte - b'0') as usize;
        next = i + 1;
    }
    if at < next {
        Some(Number {
            value: value,
            next: next,
        })
    } else {
        None
    }
}

// Two numbers, a blank ahead of each, and nothing behind them.
pub(crate) fn two_numbers(told: &[u8]) -> Option<(usize, usize)> {
    let first = number_at(told, 1)?;
    let second = number_at(told, first.next + 1)?;
    let blanks = byte_at(told, 0) == b' ' && byte_at(told, first.next) == b' ';
    if blanks && second.next == told.len() {
        Some((first.value, second.value))
    } else {
        None
    }
}

// Two digits as the byte they tell.
fn byte_of(high: u8, low: u8) -> Option<u8> {
    Some(16 * digit_of(high)? + digit_of(low)?)
}

// The byte at a place: once, or as often as a number behind a star says. A blank is a byte no times.
fn run_at(told: &[u8], at: usize) -> Option<Run>
    requires { at < length told.now }
    ensures { IfSome result (λ r. at < r.next) }
{
    if told[at] == b' ' {
        return Some(Run {
            byte: 0,
            times: 0,
            next: at + 1,
        });
    }
    let byte = byte_of(told[at], byte_at(told, at + 1))?;
    if byte_at(told, at + 2) != b'*' {
        return Some(Run {
            byte: byte,
            times: 1,
            next: at + 2,
        });
    }
    let times = number_at(told, at + 3)?;
    Some(Run {
        byte: byte,
        times: times.value,
        next: times.next,
    })
}

// The bytes that a line tells; none where it can't be read. A line that tells no bytes says so by `-`.
// Kept, point 3: the walk goes from run to run, so no counted range has its places.
pub(crate) fn bytes_of(alloc: Global, told: &[u8]) -> Result<Option<Vec<u8>>, AllocError> {
    let mut bytes = Vec::new(alloc);
    if told == b" -".as_slice() {
        return Ok(Some(bytes));
    }
    let mut i = 0;
    while i < told.len() {
        let Some(run) = run_at(told, i) else {
            return Ok(None);
        };
        let end = bytes.len().saturating_add(run.times);
        if end > ROOM {
            return Ok(None);
        }
        // most runs are of one byte, for which `push` takes less time
        if run.times == 1 {
            bytes.push(run.byte)?;
        } else {
            bytes.resize(end, run.byte)?;
        }
        i = run.next;
    }
    if bytes.is_empty() {
        return Ok(None);
    }
    Ok(Some(bytes))
}
