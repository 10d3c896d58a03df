// A plan carried out where the state lies: one function for each plan of machine_records, each a few changes one behind the other and
// the stamp's tick. Every state and every plan is answered.
#![tactic(auto)]

ghost use Rattle.std.specs.Prelude.{true};
ghost use Rattle.machine_records.specs.Records.{chan_in, task_got, task_went, chan_longer, chan_shorter, left};
ghost use Rattle.machine_records.specs.Plans.{did, applied};
ghost use Rattle.machine_store.specs.Store.{MadeTurn};
ghost use Rattle.machine_moves.specs.Kinds.{Appended, Handed, Taken, Refilled, Received, Keep, Append, Take, Refill};

use machine_alone::{branch, drain, end, fail, lap, wait};
use machine_order::leave;
use machine_records::{ChanState, Change, Moved, Plan};
use machine_shut::shut;
use machine_store::State;
use meaning::sizes::CELLS;
use meaning::{Chan, Event, Row, Task};

// The value v goes to the waiting receiver w, which goes on at `on`.
fn hand(state: &mut State, me: Task, c: Chan, v: u16, next: Row, w: Task, on: Row) -> Moved
    ensures { MadeTurn state.old state.new result (λ s. did (Handed c v w) (left (task_got (task_went s me next) w v true on) w) Keep) }
{
    state.went(me, next);
    state.got(w, v, true, on);
    leave(state, w);
    state.done(Event::Handed(c, v, w), Change::Keep)
}

// The value v goes into the buffer of c.
fn append(state: &mut State, me: Task, c: Chan, v: u16, next: Row) -> Moved
    ensures { MadeTurn state.old state.new result (λ s. did (Appended c v) (task_went (chan_longer s c) me next) (Append c (chan_in s.chans c).len v)) }
{
    let k = state.channel(c);
    let longer = ChanState {
        closed: k.closed,
        len: k.len % CELLS + 1,
    };
    state.put_channel(c, longer);
    state.went(me, next);
    state.done(Event::Appended(c, v), Change::Append(c, k.len, v))
}

// The oldest value v comes from the buffer of c.
fn take(state: &mut State, me: Task, c: Chan, v: u16, hit: Row) -> Moved
    ensures { MadeTurn state.old state.new result (λ s. did (Taken c v) (task_got (chan_shorter s c) me v true hit) (Take c (chan_in s.chans c).len)) }
{
    let k = state.channel(c);
    let shorter = ChanState {
        closed: k.closed,
        len: k.len.saturating_sub(1),
    };
    state.put_channel(c, shorter);
    state.got(me, v, true, hit);
    state.done(Event::Taken(c, v), Change::Take(c, k.len))
}

// The same, and the waiting sender w, whose value takes the place behind the youngest, goes on at `on`.
fn refill(
    state: &mut State,
    me: Task,
    c: Chan,
    v: u16,
    hit: Row,
    w: Task,
    sent: u16,
    on: Row,
) -> Moved
    ensures { MadeTurn state.old state.new result (λ s. did (Refilled c v w) (left (task_went (task_got s me v true hit) w on) w) (Refill c (chan_in s.chans c).len sent)) }
{
    let k = state.channel(c);
    state.got(me, v, true, hit);
    state.went(w, on);
    leave(state, w);
    state.done(Event::Refilled(c, v, w), Change::Refill(c, k.len, sent))
}

// The value v comes from the waiting sender w, which goes on at `on`.
fn receive(state: &mut State, me: Task, c: Chan, v: u16, hit: Row, w: Task, on: Row) -> Moved
    ensures { MadeTurn state.old state.new result (λ s. did (Received c v w) (left (task_went (task_got s me v true hit) w on) w) Keep) }
{
    state.got(me, v, true, hit);
    state.went(w, on);
    leave(state, w);
    state.done(Event::Received(c, v, w), Change::Keep)
}

// The turn of `me` that a plan describes.
#[tactic(auto, unfolding(machine_records::specs::Plans::applied))]
pub fn apply(body: &[u8], state: &mut State, me: Task, p: Plan) -> Moved
    ensures { MadeTurn state.old state.new result (λ s. applied body.now s me p) }
{
    match p {
        Plan::Fail(f, q) => fail(state, me, f, q),
        Plan::Wait => wait(state, me),
        Plan::Branch(r) => branch(state, me, r),
        Plan::Lap(d, k, r) => lap(state, me, d, k, r),
        Plan::End => end(state, me),
        Plan::Hand(c, v, r, w, on) => hand(state, me, c, v, r, w, on),
        Plan::Append(c, v, r) => append(state, me, c, v, r),
        Plan::Take(c, v, r) => take(state, me, c, v, r),
        Plan::Refill(c, v, r, w, sent, on) => refill(state, me, c, v, r, w, sent, on),
        Plan::Receive(c, v, r, w, on) => receive(state, me, c, v, r, w, on),
        Plan::Drain(c, r) => drain(state, me, c, r),
        Plan::Shut(c, r) => shut(body, state, me, c, r),
    }
}
