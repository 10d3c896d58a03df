// Who waits for what: the waiting tasks with which an operation could be paired, found by the rows at which they stand. A row, and
// each case row of a select, is asked by two of its bytes, its op and its channel; only the one that serves is decoded. `body` is the
// image from row 0 on.
#![tactic(auto)]

ghost use Rattle.std.specs.Prelude.{◌≡◌, ◌+◌};
ghost use Rattle.meaning.specs.Image.{row_no};
ghost use Rattle.meaning.specs.Machine.{is_on};
ghost use Rattle.meaning.specs.Bytes.{port_of, rows_in};
ghost use Rattle.machine_records.specs.Waiters.{matched_at, first_waiter};
ghost use Rattle.machine_store.specs.Store.{records_of};
ghost use Rattle.machine_waiters.specs.Served.{head_of, op_serves, case_serves, first_serving, served_at, row_offer, miss_of};

use image_rows::table::fields_no;
use machine_records::{Offer, Side, Waiter};
use machine_store::State;
use meaning::sizes::{NIL, ROW_SIZE, TASKS};
use meaning::{Chan, Op, Port, Row};

// The op of a select.
const SELECT: u8 = 8;

// The two bytes of a row that are asked.
#[derive(Clone, Copy)]
pub struct Head {
    pub op: u8,
    pub chan: u8,
}

// Both 0 where the slice ends ahead of the row's end.
#[tactic(auto, unfolding(meaning::specs::Bytes::fields_of_row))]
fn head_at(body: &[u8], n: u32) -> Head
    ensures { result ≡ head_of body.now n }
{
    let at = ROW_SIZE * (n as usize);
    if at + ROW_SIZE <= body.len() {
        return Head {
            op: body[at],
            chan: body[at + 1],
        };
    }
    Head { op: 0, chan: 0 }
}

// Whether the channel byte of a row names the channel; 255 names none.
#[tactic(auto, unfolding(meaning::specs::Machine::is_on))]
fn is_on(c: Chan, chan: u8) -> bool
    ensures { result ≡ is_on c (port_of chan) }
{
    chan != NIL && c.0 == chan
}

// Whether a statement of this op stands on a side of its channel: recv and range receive, send and forward send.
fn op_serves(side: Side, op: u8) -> bool
    ensures { result ≡ op_serves side op }
{
    match side {
        Side::Receiving => op == 3 || op == 5,
        Side::Sending => op == 1 || op == 2,
    }
}

// The same of a case row.
fn case_serves(side: Side, op: u8) -> bool
    ensures { result ≡ case_serves side op }
{
    match side {
        Side::Receiving => op == 11,
        Side::Sending => op == 9 || op == 10,
    }
}

// The first of the k case rows behind a row that serves.
fn first_case(body: &[u8], side: Side, c: Chan, k: u8, row: Row) -> Option<u32>
    ensures { result ≡ first_serving body.now side c k (row.0 + 1) }
{
    let first = row.0 as u32 + 1;
    for i in 0..k {
        let at = first + i as u32;
        let h = head_at(body, at);
        if is_on(c, h.chan) {
            if case_serves(side, h.op) {
                return Some(at);
            }
        }
    }
    None
}

// The number of the row, or case row, by which a task that waits at a row is served on this side of the channel; a select's by its
// first matching case.
#[tactic(auto, unfolding(crate::specs::Served::served_at))]
fn served_at(body: &[u8], side: Side, c: Chan, row: Row) -> Option<u32>
    ensures { result ≡ served_at body.now side c row }
{
    let n = row.0 as u32;
    let h = head_at(body, n);
    if h.op == SELECT {
        return first_case(body, side, c, h.chan, row);
    }
    if is_on(c, h.chan) {
        if op_serves(side, h.op) {
            return Some(n);
        }
    }
    None
}

// The operation of the row by which a task is served. Its op tells, so that no statement is made of it: range, 5, receives and leads
// behind its loop with ok off.
fn offer_at(body: &[u8], n: u32) -> Option<Offer>
    ensures { result ≡ row_offer (rows_in body.now (row_no n)) }
{
    let f = fields_no(body, n);
    let p = Port::from(f.chan);
    let next = Row(f.next);
    let (op, miss) = match f.op {
        1 | 9 => (Op::Send(p, f.arg), next),
        2 | 10 => (Op::Forward(p), next),
        3 | 11 => (Op::Recv(p), next),
        5 => (Op::Recv(p), Row(f.other)),
        _ => return None,
    };
    Some(Offer {
        op,
        hit: next,
        miss,
    })
}

// The operation by which a task that waits at a row would be woken on this side of the channel. Laid into both of its callers, so that
// a row that serves nothing costs no answer in memory, and a close makes no operation.
#[inline(always)]
fn matched_at(body: &[u8], side: Side, c: Chan, row: Row) -> Option<Offer>
    ensures { result ≡ matched_at body.now side c row }
{
    offer_at(body, served_at(body, side, c, row)?)
}

// Where a task that waits at a row goes on if it is woken on this side of the channel with ok off.
pub fn missed_at(body: &[u8], side: Side, c: Chan, row: Row) -> Option<Row>
    ensures { result ≡ miss_of (matched_at body.now side c row) }
{
    Some(matched_at(body, side, c, row)?.miss)
}

// The task that has waited longest on this side of the channel.
#[inline(always)]
pub fn first_waiter(body: &[u8], state: &State, side: Side, c: Chan) -> Option<Waiter>
    ensures { result ≡ first_waiter body.now (records_of state.now) side c }
{
    for i in 0..(state.waiting() % (TASKS + 1)) {
        let task = state.name(i);
        let row = state.task(task).row;
        if let Some(offer) = matched_at(body, side, c, row) {
            return Some(Waiter { task, offer });
        }
    }
    None
}
