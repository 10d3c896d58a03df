// Send, receive and close decided: each rule asks in document 01's order and answers the plan of the turn, to wait where nothing else
// is possible. Nothing is changed here. `body` is the image from row 0 on, `rows` the number of its rows.
#![tactic(auto)]

ghost use Rattle.std.specs.Prelude.{◌≡◌};
ghost use Rattle.meaning.specs.Machine.{payload};
ghost use Rattle.machine_exchange.specs.Kinds.{On};
ghost use Rattle.machine_records.specs.Rules.{send_to, receive_from, sent_by, attempt, close_port};
ghost use Rattle.machine_records.specs.Step.{or_wait};
ghost use Rattle.machine_store.specs.Store.{records_of};
ghost use Rattle.machine_exchange.specs.Exchange.{exchange_of, exchanged, received_from};

use image_rows::table::capacity_in;
use machine_buffer::oldest_in;
use machine_records::{Fault, Offer, Plan, Side, Waiter};
use machine_store::State;
use machine_waiters::first_waiter;
use meaning::sizes::{CELLS, CHANS};
use meaning::{Chan, Op, Port, Row};

// What an operation asks of its channel: to give a value, or to get one.
#[derive(Clone, Copy)]
pub enum Exchange {
    Gives(Port, u16),
    Gets(Port),
}

#[tactic(auto, unfolding(machine_records::specs::Rules::send_to))]
fn send_on(body: &[u8], rows: u16, state: &State, c: Chan, v: u16, next: Row) -> Plan
    ensures { result ≡ or_wait (send_to body.now rows (records_of state.now) (On c) v next) }
{
    let k = state.channel(c);
    if k.closed {
        return Plan::Fail(u8::from(Fault::SendOnClosed), Port::On(c));
    }
    if let Some(w) = first_waiter(body, state, Side::Receiving, c) {
        return Plan::Hand(c, v, next, w.task, w.offer.hit);
    }
    if k.len < capacity_in(body, rows, c) {
        Plan::Append(c, v, next)
    } else {
        Plan::Wait
    }
}

#[tactic(auto, unfolding(machine_records::specs::Rules::send_to))]
fn send_to(body: &[u8], rows: u16, state: &State, p: Port, v: u16, next: Row) -> Plan
    ensures { result ≡ or_wait (send_to body.now rows (records_of state.now) p v next) }
{
    match p {
        Port::Nil => Plan::Wait,
        Port::On(c) => send_on(body, rows, state, c, v, next),
    }
}

#[tactic(auto, unfolding(meaning::specs::Machine::payload))]
fn payload_of(o: Op, register: u16) -> u16
    ensures { result ≡ payload o register }
{
    match o {
        Op::Send(_, v) => v,
        Op::Forward(_) => register,
        Op::Recv(_) => 0,
    }
}

// What a waiting sender sends by its operation.
fn sent_by(state: &State, w: Waiter) -> u16
    ensures { result ≡ sent_by (records_of state.now) w }
{
    payload_of(w.offer.op, state.task(w.task).register)
}

// A receive whose buffer holds so many values, v the oldest, and on whose channel w waits to send.
fn receive_from(state: &State, c: Chan, hit: Row, v: u16, len: u8, w: Waiter) -> Plan
    ensures { result ≡ received_from (records_of state.now) c hit v len w }
{
    let sent = sent_by(state, w);
    if 0 < len {
        Plan::Refill(c, v, hit, w.task, sent, w.offer.hit)
    } else {
        Plan::Receive(c, sent, hit, w.task, w.offer.hit)
    }
}

#[tactic(auto, unfolding(machine_records::specs::Rules::receive_from))]
fn receive_on(
    body: &[u8],
    state: &State,
    values: &[[u16; CELLS as usize]; CHANS as usize],
    c: Chan,
    hit: Row,
    miss: Row,
) -> Plan
    ensures { result ≡ or_wait (receive_from body.now (records_of state.now) values.now (On c) hit miss) }
{
    let k = state.channel(c);
    let v = oldest_in(values, c);
    if let Some(w) = first_waiter(body, state, Side::Sending, c) {
        return receive_from(state, c, hit, v, k.len, w);
    }
    if 0 < k.len {
        return Plan::Take(c, v, hit);
    }
    if k.closed {
        Plan::Drain(c, miss)
    } else {
        Plan::Wait
    }
}

#[tactic(auto, unfolding(machine_records::specs::Rules::receive_from))]
fn receive_port(
    body: &[u8],
    state: &State,
    values: &[[u16; CELLS as usize]; CHANS as usize],
    p: Port,
    hit: Row,
    miss: Row,
) -> Plan
    ensures { result ≡ or_wait (receive_from body.now (records_of state.now) values.now p hit miss) }
{
    match p {
        Port::Nil => Plan::Wait,
        Port::On(c) => receive_on(body, state, values, c, hit, miss),
    }
}

fn exchange_of(o: Op, register: u16) -> Exchange
    ensures { result ≡ exchange_of o register }
{
    match o {
        Op::Send(p, v) => Exchange::Gives(p, v),
        Op::Forward(p) => Exchange::Gives(p, register),
        Op::Recv(p) => Exchange::Gets(p),
    }
}

// The plan of what a task with this register is offered. There is one place that sends, so that the compiler lays the rule into the turn.
pub fn operate(
    body: &[u8],
    rows: u16,
    state: &State,
    values: &[[u16; CELLS as usize]; CHANS as usize],
    register: u16,
    offer: Offer,
) -> Plan
    ensures { result ≡ or_wait (attempt body.now rows (records_of state.now) values.now register offer.op offer.hit offer.miss) }
{
    match exchange_of(offer.op, register) {
        Exchange::Gives(p, v) => send_to(body, rows, state, p, v, offer.hit),
        Exchange::Gets(p) => receive_port(body, state, values, p, offer.hit, offer.miss),
    }
}

#[tactic(auto, unfolding(machine_records::specs::Rules::close_port))]
fn close_on(body: &[u8], state: &State, c: Chan, next: Row) -> Plan
    ensures { result ≡ close_port body.now (records_of state.now) (On c) next }
{
    if state.channel(c).closed {
        return Plan::Fail(u8::from(Fault::CloseOfClosed), Port::On(c));
    }
    if let Some(_) = first_waiter(body, state, Side::Receiving, c) {
        return Plan::Shut(c, next);
    }
    match first_waiter(body, state, Side::Sending, c) {
        Some(_) => Plan::Fail(u8::from(Fault::CloseUnderSender), Port::On(c)),
        None => Plan::Shut(c, next),
    }
}

// The plan of a close.
#[tactic(auto, unfolding(machine_records::specs::Rules::close_port))]
pub fn close(body: &[u8], state: &State, p: Port, next: Row) -> Plan
    ensures { result ≡ close_port body.now (records_of state.now) p next }
{
    match p {
        Port::Nil => Plan::Fail(u8::from(Fault::CloseOfNil), Port::Nil),
        Port::On(c) => close_on(body, state, c, next),
    }
}
