// A row of a step image: eight bytes, five fields, one statement. The table of document 01, 'Step image', read.
ghost use Rattle.std.specs.Prelude.{◌≡◌, ◌+◌, ◌≤◌, length};
ghost use Rattle.meaning.specs.Image.{row_no};
ghost use Rattle.meaning.specs.Bytes.{otherwise_of, statement_of, fields_at, fields_of_row, rows_in, capacity_in, first_row_in};

use crate::bytes::{byte_at, two_at, two_of};
use meaning::ops::RowKind;
use meaning::sizes::ROW_SIZE;
use meaning::{Chan, Fields, Op, Otherwise, Port, Row, Statement, Task};

// The fields of the eight bytes from i on.
fn fields_at(body: &[u8], i: usize) -> Fields
    requires { i + 8 ≤ length body.now }
    ensures { result ≡ fields_at body.now i }
{
    let op = body[i];
    let chan = body[i + 1];
    let arg = two_of(body[i + 2], body[i + 3]);
    let next = two_of(body[i + 4], body[i + 5]);
    let other = two_of(body[i + 6], body[i + 7]);
    Fields {
        op,
        chan,
        arg,
        next,
        other,
    }
}

// The fields of the row at number n of an image that begins with row 0; all 0 where the slice ends ahead of the row's end. The number
// of a case row is counted on from its select's and may be more than a `Row` can say.
#[tactic(auto, unfolding(meaning::specs::Bytes::fields_of_row))]
pub fn fields_no(body: &[u8], n: u32) -> Fields
    ensures { result ≡ fields_of_row body.now (row_no n) }
{
    let at = ROW_SIZE * (n as usize);
    if at + ROW_SIZE <= body.len() {
        return fields_at(body, at);
    }
    Fields {
        op: 0,
        chan: 0,
        arg: 0,
        next: 0,
        other: 0,
    }
}

// The fields of a row.
pub fn fields_of_row(body: &[u8], r: Row) -> Fields
    ensures { result ≡ fields_of_row body.now r }
{
    fields_no(body, r.0 as u32)
}

// The statement that five fields read as.
// Kept, point 4: a From<Fields> would have to stand in crate meaning, whose both kinds are, below the crates that read and write rows.
#[tactic(auto, unfolding(meaning::specs::Bytes::statement_of))]
pub fn statement_of(f: Fields) -> Statement
    ensures { result ≡ statement_of f }
{
    let p = Port::from(f.chan);
    let arg = f.arg;
    let next = Row(f.next);
    let other = Row(f.other);
    match RowKind::try_from(f.op) {
        Ok(RowKind::Send) => Statement::Do(Op::Send(p, arg), next),
        Ok(RowKind::Forward) => Statement::Do(Op::Forward(p), next),
        Ok(RowKind::Recv) => Statement::Do(Op::Recv(p), next),
        Ok(RowKind::Close) => Statement::Close(p, next),
        Ok(RowKind::Range) => Statement::Range(p, next, other),
        Ok(RowKind::Repeat) => Statement::Repeat(f.chan, arg, next, other),
        Ok(RowKind::Ifok) => Statement::Ifok(next, other),
        Ok(RowKind::Select) => Statement::Select(f.chan, otherwise_of(arg, next)),
        Ok(RowKind::CaseSend) => Statement::Case(Op::Send(p, arg), next),
        Ok(RowKind::CaseForward) => Statement::Case(Op::Forward(p), next),
        Ok(RowKind::CaseRecv) => Statement::Case(Op::Recv(p), next),
        Ok(RowKind::Stop) | Err(_) => Statement::Stop,
    }
}

fn otherwise_of(arg: u16, next: Row) -> Otherwise
    ensures { result ≡ otherwise_of arg next }
{
    if arg == 1 {
        Otherwise::Go(next)
    } else {
        Otherwise::Wait
    }
}

// The statement at a row.
#[tactic(auto, unfolding(meaning::specs::Bytes::rows_in))]
pub fn statement_at(body: &[u8], r: Row) -> Statement
    ensures { result ≡ rows_in body.now r }
{
    statement_of(fields_of_row(body, r))
}

// The capacity of channel c, behind so many rows.
#[tactic(auto, unfolding(meaning::specs::Bytes::capacity_in))]
pub fn capacity_in(body: &[u8], rows: u16, c: Chan) -> u8
    ensures { result ≡ capacity_in body.now rows c }
{
    byte_at(body, ROW_SIZE * (rows as usize) + (c.0 as usize))
}

// The first row of task t, behind so many rows and channels.
#[tactic(auto, unfolding(meaning::specs::Bytes::first_row_in))]
pub fn first_row_in(body: &[u8], rows: u16, channels: u8, t: Task) -> Row
    ensures { result ≡ first_row_in body.now rows channels t }
{
    Row(two_at(
        body,
        8 * (rows as u32) + (channels as u32) + 2 * (t.0 as u32),
    ))
}
