// A note written as its row: which rows the fields name is decided here and nowhere else. Where each row stands is counted above, in
// pass 2.
#![tactic(auto)]

ghost use Rattle.std.specs.Prelude.{◌≡◌, ◌+◌, ◌-◌, ◌/◌, ◌%◌};
ghost use Rattle.meaning.specs.Bytes.{fields, bytes_of};
ghost use Rattle.image_rows.specs.Rows.{fields_put};
ghost use Rattle.translate_fields.specs.Rows.{first_of, leads_to, select_fields, note_fields, case_fields};

use image_put::put_fields;
use meaning::{Fields, Row};

// The two bytes of a note's first number.
fn op_in(head: u16) -> u8
    ensures { result ≡ head % 256 }
{
    (head % 256) as u8
}

fn chan_in(head: u16) -> u8
    ensures { result ≡ head / 256 }
{
    (head / 256) as u8
}

// Where the end of what is inside a statement leads: of a loop's body to the loop's row i, of any other (ifok, case, default) to the
// row that follows.
pub fn leads_to(head: u16, i: Row, after: Row) -> Row
    ensures { result.0 ≡ leads_to head i.0 after.0 }
{
    let op = head % 256;
    if op == 5 {
        return i;
    }
    if op == 6 {
        return i;
    }
    after
}

// The row that a field names for a part of n rows: row i, or the row that follows where the part is empty.
fn first_of(n: u32, i: u32, after: u32) -> u32
    ensures { result ≡ first_of n i after }
{
    if 0 < n { i } else { after }
}

// n less k, and 0 where k is more.
fn less(n: u32, k: u32) -> u32
    ensures { result ≡ n - k }
{
    if k < n { n - k } else { 0 }
}

// The fields of a row, of next and other what two bytes hold.
fn fields_by(op: u8, chan: u8, arg: u16, next: u32, other: u32) -> Fields
    ensures { bytes_of result ≡ bytes_of (fields op chan arg next other) }
{
    Fields {
        op: op,
        chan: chan,
        arg: arg,
        next: (next % 65536) as u16,
        other: (other % 65536) as u16,
    }
}

// range and repeat: the body, or the loop itself where it is empty; and what follows.
fn loop_fields(i: Row, op: u8, chan: u8, arg: u16, size: u16, after: Row) -> Fields
    ensures { bytes_of result ≡ bytes_of (fields op chan arg (first_of (size - 1) (i.0 + 1) i.0) after.0) }
{
    let row = i.0 as u32;
    let body = first_of(less(size as u32, 1), row + 1, row);
    fields_by(op, chan, arg, body, after.0 as u32)
}

// ifok: its two bodies, the first of arg rows.
fn ifok_fields(i: Row, arg: u16, size: u16, after: Row) -> Fields
    ensures { bytes_of result ≡ bytes_of (fields 7 0 0 (first_of arg (i.0 + 1) after.0) (first_of (size - 1 - arg) (i.0 + 1 + arg) after.0)) }
{
    let row = (i.0 as u32) + 1;
    let rows = arg as u32;
    let follows = after.0 as u32;
    let first = first_of(rows, row, follows);
    let second = first_of(less(less(size as u32, 1), rows), row + rows, follows);
    fields_by(7, 0, 0, first, second)
}

// select: its default's body stands last in it.
fn select_fields(i: Row, cases: u8, arg: u16, size: u16, after: Row) -> Fields
    ensures { bytes_of result ≡ bytes_of (select_fields i.0 cases arg size after.0) }
{
    if arg == 0 {
        return fields_by(8, cases, 0, 0, 0);
    }
    let rows = (arg as u32) - 1;
    let end = (i.0 as u32) + (size as u32);
    let first = first_of(rows, less(end, rows), after.0 as u32);
    fields_by(8, cases, 1, first, 0)
}

fn statement_fields(i: Row, head: u16, arg: u16, size: u16, after: Row) -> Fields
    ensures { bytes_of result ≡ bytes_of (note_fields i.0 head arg size after.0) }
{
    let op = op_in(head);
    let chan = chan_in(head);
    if op < 5 {
        return fields_by(op, chan, arg, after.0 as u32, 0);
    }
    if op < 7 {
        return loop_fields(i, op, chan, arg, size, after);
    }
    if op == 7 {
        return ifok_fields(i, arg, size, after);
    }
    if op == 8 {
        return select_fields(i, chan, arg, size, after);
    }
    fields_by(12, 0, 0, 0, 0)
}

// The row i of a statement, by its note; row `after` follows the statement.
pub fn put_statement(out: &mut [u8], i: Row, head: u16, arg: u16, size: u16, after: Row)
    ensures { out.new ≡ fields_put out.old i (note_fields i.0 head arg size after.0) }
{
    put_fields(out, i, statement_fields(i, head, arg, size, after));
}

// The row of a case, by its note; its body stands from row start on, and row `after` follows the select.
pub fn put_case(out: &mut [u8], line: Row, head: u16, arg: u16, size: u16, start: Row, after: Row)
    ensures { out.new ≡ fields_put out.old line (case_fields head arg size start.0 after.0) }
{
    let body = first_of(less(size as u32, 1), start.0 as u32, after.0 as u32);
    put_fields(
        out,
        line,
        fields_by(op_in(head), chan_in(head), arg, body, 0),
    );
}
