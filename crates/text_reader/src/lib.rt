// What a reader of a job text answers, word by word. The functions that answer stand above, in text_due, text_heads, text_blocks and
// text_jobs: each decides one word or a few, with the refusals that fall due there, and carries numbers alone: a place in the text, the
// rows so far, the depth, the channels. Pass 1 of the translator strings them together by recursive descent, as specs/Reading.antt
// does, and so has every refusal from them before a byte is written. `Ok` has a part that was read, `Ok(None)` says that no such part
// stands here, and `Err` is a refusal.
#![tactic(auto)]

ghost use Rattle.std.specs.Prelude.{◌≡◌};
ghost use Rattle.text_reader.specs.Answers.{fault_number, refused_at};

use meaning::{Op, Port};

pub mod kinds;

// Why a text is refused: document 01's refusals 1 to 10, in their order.
#[derive(Clone, Copy, PartialEq, Eq)]
pub enum Fault {
    TextTooLong,
    ByteNotAllowed,
    WordOutOfPlace,
    NumberDue,
    NumberOverRange,
    OneTooMany,
    TooDeep,
    RowsFull,
    CutShort,
    NoTask,
}

impl Fault {
    // The refusal's number in document 01.
    pub fn number(self) -> u8
        ensures { result ≡ fault_number self }
    {
        match self {
            Fault::TextTooLong => 1,
            Fault::ByteNotAllowed => 2,
            Fault::WordOutOfPlace => 3,
            Fault::NumberDue => 4,
            Fault::NumberOverRange => 5,
            Fault::OneTooMany => 6,
            Fault::TooDeep => 7,
            Fault::RowsFull => 8,
            Fault::CutShort => 9,
            Fault::NoTask => 10,
        }
    }

    // The refusal for this reason at a place.
    pub fn at(self, place: usize) -> Refused
        ensures { result ≡ refused_at self place }
    {
        Refused { why: self, place }
    }
}

// A text that is refused: why, and at which place.
#[derive(Clone, Copy)]
pub struct Refused {
    pub why: Fault,
    pub place: usize,
}

// What was read of the text, and the place behind it.
#[derive(Clone, Copy)]
pub struct Got<T> {
    pub value: T,
    pub next: usize,
}

// How far a text was read: the place behind the last part, and the rows so far.
#[derive(Clone, Copy)]
pub struct Position {
    pub at: usize,
    pub rows: u16,
}

// Several parts in a row: how many there are, and the position behind them.
#[derive(Clone, Copy)]
pub struct Counted {
    pub count: u8,
    pub behind: Position,
}

// The first words of a statement, down to its first body: which statement, and its operands.
#[derive(Clone, Copy)]
pub enum Head {
    Operate(Op),
    Close(Port),
    Stop,
    Range(Port),
    Repeat(u16),
    Ifok,
    Select,
}

// The first words of a case: its operation, and where its body begins.
#[derive(Clone, Copy)]
pub struct CaseHead {
    pub op: Op,
    pub body: Position,
}

// A whole text that is a job: its rows, channels and tasks, counted.
#[derive(Clone, Copy)]
pub struct JobSize {
    pub rows: u16,
    pub channels: u8,
    pub tasks: u8,
}
