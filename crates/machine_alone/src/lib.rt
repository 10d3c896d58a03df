// Plans that move the mover alone, carried out where the state lies: a fault, a task that waits, branches, begins a lap or ends, and a
// zero received from a closed and empty channel. Each is a few changes one behind the other and the stamp's tick. Every state is
// answered.
#![tactic(auto)]

ghost use Rattle.std.specs.Prelude.{false};
ghost use Rattle.machine_records.specs.Records.{halted, task_got, task_went, task_stood, task_lapped, joined};
ghost use Rattle.machine_records.specs.Plans.{did};
ghost use Rattle.machine_store.specs.Store.{MadeTurn};
ghost use Rattle.machine_alone.specs.Kinds.{Waiting, Ended, Drained, Waits, Branched, Finished, Faulted, Keep};

use machine_order::join;
use machine_records::{Change, Moved};
use machine_store::State;
use meaning::{Chan, Event, Port, Row, Status, Task};

// "Faults change nothing but the halt record (fault number, task named: the mover) and the stamp."
pub fn fail(state: &mut State, me: Task, f: u8, p: Port) -> Moved
    ensures { MadeTurn state.old state.new result (λ s. did (Faulted p f me) (halted s f me) Keep) }
{
    state.halt(f, me);
    state.done(Event::Faulted(p, f, me), Change::Keep)
}

pub fn wait(state: &mut State, me: Task) -> Moved
    ensures { MadeTurn state.old state.new result (λ s. did Waits (joined (task_stood s me Waiting) me) Keep) }
{
    state.stood(me, Status::Waiting);
    join(state, me);
    state.done(Event::Waits, Change::Keep)
}

pub fn branch(state: &mut State, me: Task, row: Row) -> Moved
    ensures { MadeTurn state.old state.new result (λ s. did Branched (task_went s me row) Keep) }
{
    state.went(me, row);
    state.done(Event::Branched, Change::Keep)
}

pub fn lap(state: &mut State, me: Task, d: u8, laps: u8, row: Row) -> Moved
    ensures { MadeTurn state.old state.new result (λ s. did Branched (task_went (task_lapped s me d laps) me row) Keep) }
{
    state.lapped(me, d, laps);
    state.went(me, row);
    state.done(Event::Branched, Change::Keep)
}

pub fn end(state: &mut State, me: Task) -> Moved
    ensures { MadeTurn state.old state.new result (λ s. did Finished (task_stood s me Ended) Keep) }
{
    state.stood(me, Status::Ended);
    state.done(Event::Finished, Change::Keep)
}

// A zero comes from the closed and empty c, ok off.
pub fn drain(state: &mut State, me: Task, c: Chan, miss: Row) -> Moved
    ensures { MadeTurn state.old state.new result (λ s. did (Drained c) (task_got s me 0 false miss) Keep) }
{
    state.got(me, 0, false, miss);
    state.done(Event::Drained(c), Change::Keep)
}
