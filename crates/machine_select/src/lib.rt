// Which case a select takes: two walks over its case rows, one that counts the ready ones and one to the chosen one, and no array between
// them. Nothing is changed here. `body` is the image from row 0 on, `rows` the number of its rows.
#![tactic(auto)]

ghost use Rattle.std.specs.Prelude.{◌≡◌, false, ◌+◌, ltb, length, get_or};
ghost use Rattle.meaning.specs.Image.{row_no};
ghost use Rattle.meaning.specs.Bytes.{rows_in};
ghost use Rattle.machine_records.specs.Records.{chan_in};
ghost use Rattle.machine_store.specs.Store.{records_of};
ghost use Rattle.machine_records.specs.declared.Side.TheVariants.{Receiving, Sending};
ghost use Rattle.machine_records.specs.Waiters.{case_offer, first_waiter};
ghost use Rattle.machine_records.specs.Rules.{has_room, can_send, can_receive, send_ready, receive_ready, op_ready, row_ready, ready_rows, chosen_case};

use image_rows::table::{capacity_in, fields_no};
use machine_records::{Offer, Side};
use machine_store::State;
use machine_waiters::first_waiter;
use meaning::{Chan, Op, Port, Row};

// What a row offers as a case of a select, by its op.
fn case_offer(body: &[u8], n: u32) -> Option<Offer>
    ensures { result ≡ case_offer (rows_in body.now (row_no n)) }
{
    let f = fields_no(body, n);
    let p = Port::from(f.chan);
    let next = Row(f.next);
    let op = match f.op {
        9 => Op::Send(p, f.arg),
        10 => Op::Forward(p),
        11 => Op::Recv(p),
        _ => return None,
    };
    Some(Offer {
        op,
        hit: next,
        miss: next,
    })
}

fn can_send_on(body: &[u8], rows: u16, state: &State, c: Chan) -> bool
    ensures { result ≡ can_send (chan_in (records_of state.now).chans c).closed (first_waiter body.now (records_of state.now) Receiving c) (has_room body.now rows (records_of state.now) c) }
{
    let k = state.channel(c);
    if k.closed {
        return true;
    }
    let room = k.len < capacity_in(body, rows, c);
    match first_waiter(body, state, Side::Receiving, c) {
        Some(_) => true,
        None => room,
    }
}

#[tactic(auto, unfolding(machine_records::specs::Rules::send_ready))]
fn can_send(body: &[u8], rows: u16, state: &State, p: Port) -> bool
    ensures { result ≡ send_ready body.now rows (records_of state.now) p }
{
    match p {
        Port::Nil => false,
        Port::On(c) => can_send_on(body, rows, state, c),
    }
}

fn can_receive_on(body: &[u8], state: &State, c: Chan) -> bool
    ensures { result ≡ can_receive (ltb 0 (chan_in (records_of state.now).chans c).len) (first_waiter body.now (records_of state.now) Sending c) (chan_in (records_of state.now).chans c).closed }
{
    let k = state.channel(c);
    if 0 < k.len {
        return true;
    }
    match first_waiter(body, state, Side::Sending, c) {
        Some(_) => true,
        None => k.closed,
    }
}

#[tactic(auto, unfolding(machine_records::specs::Rules::receive_ready))]
fn can_receive(body: &[u8], rows: u16, state: &State, p: Port) -> bool
    ensures { result ≡ receive_ready body.now rows (records_of state.now) p }
{
    match p {
        Port::Nil => false,
        Port::On(c) => can_receive_on(body, state, c),
    }
}

fn op_ready(body: &[u8], rows: u16, state: &State, o: Op) -> bool
    ensures { result ≡ op_ready body.now rows (records_of state.now) o }
{
    match o {
        Op::Send(p, _) | Op::Forward(p) => can_send(body, rows, state, p),
        Op::Recv(p) => can_receive(body, rows, state, p),
    }
}

// A case is ready if its operation alone wouldn't wait.
fn row_ready(body: &[u8], rows: u16, state: &State, n: u32) -> bool
    ensures { result ≡ row_ready body.now rows (records_of state.now) n }
{
    match case_offer(body, n) {
        None => false,
        Some(offer) => op_ready(body, rows, state, offer.op),
    }
}

#[tactic(auto, unfolding(machine_records::specs::Rules::ready_rows))]
fn count_ready(body: &[u8], rows: u16, state: &State, k: u8, row: Row) -> u8
    ensures { result ≡ length (ready_rows body.now rows (records_of state.now) k (row.0 + 1)) }
{
    let first = row.0 as u32 + 1;
    let mut w: u8 = 0;
    for i in 0..k {
        if row_ready(body, rows, state, first + i as u32) {
            w += 1;
        }
    }
    w
}

// The row of the ready case with this number, counted from 0.
#[tactic(auto, unfolding(machine_records::specs::Rules::ready_rows))]
fn nth_ready(body: &[u8], rows: u16, state: &State, k: u8, row: Row, nth: u8) -> u32
    ensures { result ≡ get_or (ready_rows body.now rows (records_of state.now) k (row.0 + 1)) nth 0 }
{
    let first = row.0 as u32 + 1;
    let mut left = nth;
    for i in 0..k {
        let n = first + i as u32;
        if row_ready(body, rows, state, n) {
            if left == 0 {
                return n;
            }
            left -= 1;
        }
    }
    0
}

// The case that a select with the choice takes, nothing where none is ready.
pub fn chosen_case(
    body: &[u8],
    rows: u16,
    state: &State,
    k: u8,
    row: Row,
    choice: u8,
) -> Option<Offer>
    ensures { result ≡ chosen_case body.now rows (records_of state.now) k (row.0 + 1) choice }
{
    let n = count_ready(body, rows, state, k, row);
    if n == 0 {
        return None;
    }
    case_offer(body, nth_ready(body, rows, state, k, row, choice % n))
}
