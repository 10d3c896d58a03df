// A close carried out where the state lies: the channel is closed, its buffer kept, and all that wait to receive on it wake. Every
// state is answered.
#![tactic(auto)]

ghost use Rattle.machine_records.specs.Plans.{applied};
ghost use Rattle.machine_store.specs.Store.{MadeTurn};
ghost use Rattle.machine_shut.specs.Moves.{AllWoken};

use machine_order::put_order;
use machine_records::{ChanState, Change, Moved, Plan, Side};
use machine_store::{STATE_WORDS, State, row_in};
use machine_waiters::missed_at;
use meaning::sizes::TASKS;
use meaning::{Chan, Event, Row, Task};

// All that wait to receive on c wake in order with 0, ok off; those that wait for something else are kept. `before` has the rows at
// which the tasks stood when the turn began. Answers how many woke.
fn wake_all(body: &[u8], before: &[u16; STATE_WORDS], state: &mut State, c: Chan) -> u8
    ensures { AllWoken body.now c before.now state.old state.new result }
{
    let n = state.waiting() % (TASKS + 1);
    let mut kept = [Task(0); TASKS as usize];
    let mut w: u8 = 0;
    for i in 0..n {
        let t = state.name(i);
        match missed_at(body, Side::Receiving, c, row_in(before, t)) {
            Some(miss) => state.got(t, 0, false, miss),
            None => {
                kept[w as usize] = t;
                w += 1;
            }
        }
    }
    put_order(state, kept, w);
    n - w
}

// c is closed, its buffer kept, and all that wait to receive on it wake.
pub fn shut(body: &[u8], state: &mut State, me: Task, c: Chan, next: Row) -> Moved
    ensures { MadeTurn state.old state.new result (λ s. applied body.now s me (Plan.Shut c next)) }
{
    let before = state.words;
    let k = state.channel(c);
    state.put_channel(
        c,
        ChanState {
            closed: true,
            len: k.len,
        },
    );
    state.went(me, next);
    let woken = wake_all(body, &before, state, c);
    state.done(Event::Closed(c, woken), Change::Keep)
}
