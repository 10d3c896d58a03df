// What the listing program prints, document 01, 'A listing, whole': one line for each call, built up byte by byte.
#![tactic(auto)]

ghost use Rattle.std.specs.Prelude.{◌≡◌, ◌++◌, ◌∷◌, [], ◌+◌, ◌*◌, ◌≤◌, ◌<◌, length};
ghost use Rattle.meaning.specs.Events.{numbers};
ghost use Rattle.listing_lines.specs.Lines.{line_size, text_of, Blank, Adds, Shows, decimal_of, spaced, line_of, refused_line, turn_line, task_line, chan_line, stamp_line, bad_schedule_line, too_long_line};

use events::event_numbers;
use machine_records::{ChanState, TaskState};
use meaning::sizes::CELLS;
use meaning::{Chan, Event, Task};
use std::marker::Model;

// The longest line is a channel's: a word of four bytes, nineteen numbers of up to five digits, each behind a blank, and the newline.
pub const LINE_SIZE: usize = 128;

// A line: the first `len` of its bytes, newline included, with zeros behind. A contract sees the first alone.
// Kept, point 6: a line is `Copy`; the library's `ArrayVec` is not, and of its `ArrayString` the unused bytes are part of the value.
#[derive(Clone, Copy)]
pub struct Line {
    bytes: [u8; LINE_SIZE],
    len: usize,
}

impl Model for Line {
    ghost use Rattle.std.specs.Prelude.{◌≡◌, ◌≤◌, ◌-◌, ◌++◌, length, take, drop, replicate};
    ghost use Rattle.std.proofs.Common.{arith, length-take-le};
    ghost use Rattle.listing_lines.specs.Line.{Line as Shown};
    ghost use Rattle.listing_lines.specs.Laws.Padded.{padded};

    ghost Value = { Shown };

    ghost view = { λ l. record { bytes = take l.len l.bytes } };

    ghost invariant = { λ l. (l.len ≤ 128) × (length l.bytes ≡ 128) × (drop l.len l.bytes ≡ replicate (128 - l.len) 0) };

    ghost inverse = { λ l. record { bytes = l.bytes ++ replicate (128 - length l.bytes) 0; len = length l.bytes } };

    ghost inverse_ok = { λ l h i. record {
      bytes = padded l.bytes l.len h.0 h.1 h.2 i;
      len = length-take-le l.len l.bytes (omega (arith, h.0, h.1)) i;
    } };
}

// BUILDING

impl Line {
    fn blank() -> Line
        ensures { Blank result }
    {
        Line {
            bytes: [0; LINE_SIZE],
            len: 0,
        }
    }

    // What the line shows.
    pub fn text(&self) -> &[u8]
        ensures { result.now ≡ text_of self.now }
    {
        &self.bytes[..self.len]
    }

    fn byte(&mut self, b: u8)
        requires { length (text_of self.old) < line_size }
        ensures { Adds self.old (b ∷ []) self.new }
    {
        self.bytes[self.len] = b;
        self.len += 1;
    }

    fn word(&mut self, word: &[u8])
        requires { length (text_of self.old) + length word.now ≤ line_size }
        ensures shown { Adds self.old word.now self.new }
        ensures most { length (text_of self.new) ≤ line_size }
    {
        for &b in word {
            self.byte(b);
        }
    }

    // The digits of a number, the first first: those of a tenth of it, then the last.
    fn number(&mut self, n: u16)
        requires { length (text_of self.old) + 5 ≤ line_size }
        ensures digits { Adds self.old (decimal_of n) self.new }
        ensures most { length (text_of self.new) ≤ length (text_of self.old) + 5 }
    {
        if n < 10 {
            return self.byte(b'0' + n as u8);
        }
        self.number(n / 10);
        self.byte(b'0' + (n % 10) as u8);
    }

    // Numbers, each behind a blank.
    fn numbers(&mut self, ns: &[u16])
        requires { length (text_of self.old) + 6 * length ns.now ≤ line_size }
        ensures shown { Adds self.old (spaced ns.now) self.new }
        ensures most { length (text_of self.new) ≤ length (text_of self.old) + 6 * length ns.now }
    {
        for &n in ns {
            self.byte(b' ');
            self.number(n);
        }
    }

    // The last numbers of a line, and its newline.
    fn end(&mut self, ns: &[u16])
        requires { length (text_of self.old) + 6 * length ns.now < line_size }
        ensures shown { Adds self.old (spaced ns.now ++ (10 ∷ [])) self.new }
        ensures most { length (text_of self.new) ≤ line_size }
    {
        self.numbers(ns);
        self.byte(b'\n');
    }
}

// A word and its numbers.
fn named_line(word: &[u8], ns: &[u16]) -> Line
    requires { length word.now + 6 * length ns.now < line_size }
    ensures { Shows result (line_of word.now ns.now) }
{
    let mut line = Line::blank();
    line.word(word);
    line.end(ns);
    line
}

// LINES

pub fn refused_line(number: u8, place: u16) -> Line
    ensures { Shows result (refused_line number place) }
{
    named_line(b"refused", &[u16::from(number), place])
}

// Pair number, task, event, channel, value, partner.
pub fn turn_line(pair: u16, task: u8, event: Event) -> Line
    ensures { Shows result (turn_line pair task (numbers event)) }
{
    let e = event_numbers(event);
    let mut line = Line::blank();
    line.number(pair);
    line.end(&[
        u16::from(task),
        u16::from(e.number),
        u16::from(e.channel),
        e.value,
        u16::from(e.partner),
    ]);
    line
}

// Task, status, register, ok, row.
pub fn task_line(task: Task, x: TaskState) -> Line
    ensures { Shows result (task_line task x) }
{
    named_line(
        b"task",
        &[
            u16::from(task.0),
            u16::from(u8::from(x.status)),
            x.register,
            u16::from(x.ok),
            x.row.0,
        ],
    )
}

// Channel, closed, length, values oldest first. A length over what a channel can hold prints all that it can hold.
pub fn chan_line(chan: Chan, x: ChanState, values: [u16; CELLS as usize]) -> Line
    ensures { Shows result (chan_line chan x values) }
{
    let mut line = Line::blank();
    line.word(b"chan");
    line.numbers(&[u16::from(chan.0), u16::from(x.closed), u16::from(x.len)]);
    let shown = CELLS.min(x.len) as usize;
    line.end(&values[..shown]);
    line
}

pub fn stamp_line(stamp: u16, fault: u8) -> Line
    ensures { Shows result (stamp_line stamp fault) }
{
    named_line(b"stamp", &[stamp, u16::from(fault)])
}

pub fn bad_schedule_line() -> Line
    ensures { Shows result bad_schedule_line }
{
    let mut line = Line::blank();
    line.word(b"bad schedule\n");
    line
}

pub fn too_long_line() -> Line
    ensures { Shows result too_long_line }
{
    let mut line = Line::blank();
    line.word(b"input too long\n");
    line
}
