// Notes: what pass 1 of the translator leaves of a text for pass 2, three numbers for each row in text order. Here a note is made: the
// numbers of a row, and their place in the array. Which rows there are is read above, in pass 1.
#![tactic(auto)]

ghost use Rattle.std.specs.Prelude.{◌≡◌, ◌+◌, ◌*◌, ◌≤◌};
ghost use Rattle.translate_notes.specs.Notes.{op_code, op_port, op_arg, noted};

use meaning::sizes::ROWS;
use meaning::{Op, Row};

// The length of an array of notes.
pub const NOTES: usize = 3 * (ROWS as usize);

// What is noted of a row: its op and its chan in one number, its arg, and how many rows the whole of it takes.
#[derive(Clone, Copy)]
pub struct RowNote {
    pub head: u16,
    pub arg: u16,
    pub size: u16,
}

// A row is noted; nothing where the row is past the limit.
pub fn note(notes: &mut [u16; NOTES], row: Row, note: RowNote)
    ensures { notes.new ≡ noted notes.old row.0 note.head note.arg note.size }
{
    if row.0 < ROWS {
        let at = 3 * (row.0 as usize);
        notes[at] = note.head;
        notes[at + 1] = note.arg;
        notes[at + 2] = note.size;
    }
}

// The first number of a note.
pub fn head_of(op: u8, chan: u8) -> u16
    ensures { result ≡ op + 256 * chan }
{
    (op as u16) + 256 * (chan as u16)
}

// The first number of an operation, its op counted from a base.
fn head_from(base: u8, o: Op) -> u16
    requires { base ≤ 8 }
    ensures { result ≡ base + op_code o + 256 * op_port o }
{
    match o {
        Op::Send(p, _) => head_of(base + 1, u8::from(p)),
        Op::Forward(p) => head_of(base + 2, u8::from(p)),
        Op::Recv(p) => head_of(base + 3, u8::from(p)),
    }
}

// The first number of an operation as a statement, op 1 to 3, and as a case, op 9 to 11.
pub fn op_head(o: Op) -> u16
    ensures { result ≡ op_code o + 256 * op_port o }
{
    head_from(0, o)
}

pub fn case_head(o: Op) -> u16
    ensures { result ≡ 8 + op_code o + 256 * op_port o }
{
    head_from(8, o)
}

// The second number of an operation, as a statement and as a case alike.
pub fn op_arg(o: Op) -> u16
    ensures { result ≡ op_arg o }
{
    match o {
        Op::Send(_, v) => v,
        Op::Forward(_) => 0,
        Op::Recv(_) => 0,
    }
}
