// Pass 2 of the translator: the rows of an accepted text from what pass 1 has noted of it; the text is not looked at. A part is noted
// from row r on, in text order, and written from row i on, where the image has it; j or `after` is the row to which it leads.
ghost use Rattle.std.specs.Prelude.{◌≡◌};
ghost use Rattle.translate_fields.specs.Rows.{first_of};
ghost use Rattle.translate_rows.specs.Stored.{StmtThere, BodyThere, BodiesThere, CasesThere, StmtStored, BodyStored, BodiesStored, CasesStored};

use meaning::Row;
use translate_fields::{leads_to, put_case, put_statement};
use translate_notes::NOTES;

// What follows a statement: the next one of its body, where so many rows are left of it, or the row to which the body leads.
fn following(left: u16, next: Row, j: Row) -> Row
    ensures { result.0 ≡ first_of left next.0 j.0 }
{
    if 0 < left { next } else { j }
}

// The case rows of so many cases noted from row `from` on; their bodies stand from row start on.
fn lay_cases(
    notes: &[u16; NOTES],
    from: u16,
    cases: u16,
    top: Row,
    start: Row,
    after: Row,
    out: &mut [u8],
)
    requires { CasesThere notes.now from cases top.0 start.0 }
    ensures { CasesStored notes.now from cases top.0 start.0 after.0 out.old out.new }
{
    let mut r = from;
    let mut left = cases;
    let mut line = top.0;
    let mut i = start.0;
    // Kept, point 3: a `for` is no plainer, as it would hand on the line alone: r and i go on by the size of each note.
    while 0 < left {
        let at = 3 * (r as usize);
        let head = notes[at];
        let arg = notes[at + 1];
        let size = notes[at + 2];
        put_case(out, Row(line), head, arg, size, Row(i), after);
        r = r + size;
        i = i + (size - 1);
        line = line + 1;
        left = left - 1;
    }
}

// The bodies of so many cases noted from row `from` on, and what is noted behind them up to row end, the default's.
#[cycle(laying)]
fn lay_bodies(
    notes: &[u16; NOTES],
    from: u16,
    cases: u16,
    end: u16,
    start: Row,
    after: Row,
    out: &mut [u8],
)
    requires { BodiesThere notes.now from cases end start.0 }
    ensures { BodiesStored notes.now from cases end start.0 after.0 out.old out.new }
{
    let mut r = from;
    let mut left = cases;
    let mut i = start.0;
    // Kept, point 3: a `for` is no plainer, as it would hand on nothing that is used: r and i go on by the size of each note.
    while 0 < left {
        let size = notes[3 * (r as usize) + 2];
        lay_body(notes, r + 1, r + size, Row(i), after, out);
        r = r + size;
        i = i + (size - 1);
        left = left - 1;
    }
    lay_body(notes, r, end, Row(i), after, out);
}

// The statement of so many rows noted at row r: its row, then what is inside it.
#[cycle(laying)]
fn lay_stmt(notes: &[u16; NOTES], r: u16, size: u16, i: Row, after: Row, out: &mut [u8])
    requires { StmtThere notes.now r size i.0 }
    ensures { StmtStored notes.now r size i.0 after.0 out.old out.new }
{
    let at = 3 * (r as usize);
    let head = notes[at];
    let arg = notes[at + 1];
    put_statement(out, i, head, arg, size, after);
    if size <= 1 {
        return;
    }
    let op = head % 256;
    let to = leads_to(head, i, after);
    let first = i.0 + 1;
    if op < 7 {
        lay_body(notes, r + 1, r + size, Row(first), to, out);
        return;
    }
    if op == 7 {
        let mid = r + 1 + arg;
        lay_body(notes, r + 1, mid, Row(first), to, out);
        lay_body(notes, mid, r + size, Row(first + arg), to, out);
        return;
    }
    let cases = head / 256;
    let start = first + cases;
    lay_cases(notes, r + 1, cases, Row(first), Row(start), to, out);
    lay_bodies(notes, r + 1, cases, r + size, Row(start), to, out);
}

// The body noted from row `from` up to row end.
#[cycle(laying)]
pub(crate) fn lay_body(
    notes: &[u16; NOTES],
    from: u16,
    end: u16,
    start: Row,
    j: Row,
    out: &mut [u8],
)
    requires { BodyThere notes.now from end start.0 }
    ensures { BodyStored notes.now from end start.0 j.0 out.old out.new }
{
    let mut r = from;
    let mut i = start.0;
    // Kept, point 3: each lap goes on by the size of its note, not by one.
    while r < end {
        let size = notes[3 * (r as usize) + 2];
        let behind = r + size;
        let next = i + size;
        let after = following(end - behind, Row(next), j);
        lay_stmt(notes, r, size, Row(i), after, out);
        r = behind;
        i = next;
    }
}
