// A row of a step image written: the five fields of a statement, and their eight bytes. The table of document 01, 'Step image', from
// statements to bytes.
#![tactic(auto)]

ghost use Rattle.std.specs.Prelude.{◌≡◌, ◌+◌, ◌≤◌, length};
ghost use Rattle.std.proofs.lemmas.List.Edits.{sets};
ghost use Rattle.image_rows.specs.Rows.{fields_put, row_put};
ghost use Rattle.image_put.specs.Kinds.{Select};
ghost use Rattle.image_put.specs.Fields.{op_fields};
ghost use Rattle.meaning.specs.Bytes.{fields_of, bytes_of};
ghost use Rattle.meaning.specs.Ops.{op_number};

use meaning::ops::RowKind;
use meaning::sizes::ROW_SIZE;
use meaning::{Fields, Op, Otherwise, Row, Statement};

// The fields of an operation, alone or as a case, of these three kinds.
#[tactic(auto, unfolding(crate::specs::Fields::op_fields))]
fn op_fields(send: RowKind, forward: RowKind, recv: RowKind, o: Op, next: Row) -> Fields
    ensures { result ≡ op_fields (op_number send) (op_number forward) (op_number recv) o next }
{
    let (kind, port, arg) = match o {
        Op::Send(p, v) => (send, p, v),
        Op::Forward(p) => (forward, p, 0),
        Op::Recv(p) => (recv, p, 0),
    };
    Fields {
        op: u8::from(kind),
        chan: u8::from(port),
        arg,
        next: next.0,
        other: 0,
    }
}

// The fields of a select: its default's first row, where it has one.
#[tactic(auto, unfolding(meaning::specs::Bytes::fields_of))]
fn select_fields(cases: u8, e: Otherwise) -> Fields
    ensures { result ≡ fields_of (Select cases e) }
{
    let (arg, next) = match e {
        Otherwise::Wait => (0, 0),
        Otherwise::Go(n) => (1, n.0),
    };
    Fields {
        op: u8::from(RowKind::Select),
        chan: cases,
        arg,
        next,
        other: 0,
    }
}

// The fields that the table writes for a statement.
// Kept, point 4: a From<Statement> would have to stand in crate meaning, whose both kinds are, below the crates that read and write rows.
#[tactic(auto, unfolding(meaning::specs::Bytes::fields_of, crate::specs::Fields::op_fields))]
pub fn fields_of(s: Statement) -> Fields
    ensures { result ≡ fields_of s }
{
    match s {
        Statement::Do(o, n) => op_fields(RowKind::Send, RowKind::Forward, RowKind::Recv, o, n),
        Statement::Close(p, n) => Fields {
            op: u8::from(RowKind::Close),
            chan: u8::from(p),
            arg: 0,
            next: n.0,
            other: 0,
        },
        Statement::Range(p, n, a) => Fields {
            op: u8::from(RowKind::Range),
            chan: u8::from(p),
            arg: 0,
            next: n.0,
            other: a.0,
        },
        Statement::Repeat(d, k, n, a) => Fields {
            op: u8::from(RowKind::Repeat),
            chan: d,
            arg: k,
            next: n.0,
            other: a.0,
        },
        Statement::Ifok(n, a) => Fields {
            op: u8::from(RowKind::Ifok),
            chan: 0,
            arg: 0,
            next: n.0,
            other: a.0,
        },
        Statement::Select(k, e) => select_fields(k, e),
        Statement::Case(o, n) => op_fields(
            RowKind::CaseSend,
            RowKind::CaseForward,
            RowKind::CaseRecv,
            o,
            n,
        ),
        Statement::Stop => Fields {
            op: u8::from(RowKind::Stop),
            chan: 0,
            arg: 0,
            next: 0,
            other: 0,
        },
    }
}

// The eight bytes of a row's fields from i on.
fn put_eight(out: &mut [u8], i: usize, f: Fields)
    requires { i + 8 ≤ length out.old }
    ensures { out.new ≡ sets out.old i (bytes_of f) }
{
    let arg = f.arg.to_le_bytes();
    let next = f.next.to_le_bytes();
    let other = f.other.to_le_bytes();
    out[i] = f.op;
    out[i + 1] = f.chan;
    out[i + 2] = arg[0];
    out[i + 3] = arg[1];
    out[i + 4] = next[0];
    out[i + 5] = next[1];
    out[i + 6] = other[0];
    out[i + 7] = other[1];
}

// Stores row r of an image that begins with row 0 at the buffer's start: eight bytes, and no other. Where they would pass
// the buffer's end, nothing is stored.
#[tactic(auto, unfolding(image_rows::specs::Rows::fields_put))]
pub fn put_fields(out: &mut [u8], r: Row, f: Fields)
    ensures { out.new ≡ fields_put out.old r f }
{
    let at = ROW_SIZE * (r.0 as usize);
    if at + ROW_SIZE <= out.len() {
        put_eight(out, at, f);
    }
}

// The same of the row of a statement.
#[tactic(auto, unfolding(image_rows::specs::Rows::row_put))]
pub fn put_row(out: &mut [u8], r: Row, s: Statement)
    ensures { out.new ≡ row_put out.old r s }
{
    put_fields(out, r, fields_of(s));
}
