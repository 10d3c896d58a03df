// The kinds that the machine's parts speak of, and in specs/ what a turn does, said over the records that a state reads as. There are
// but two conversions of code here: the parts above hold the state in cells, read and change it there, and promise what these definitions say.
#![tactic(auto)]

ghost use Rattle.std.specs.Prelude.{◌≡◌};
ghost use Rattle.machine_records.specs.Plans.{fault_number};
ghost use Rattle.machine_records.specs.Step.{refusal_number};

use meaning::sizes::DEPTH;
use meaning::{Chan, Event, Op, Port, Row, Status, Task};

// One task: its status, ok mark, register, row, and the laps that it has begun in each repeat around that row.
#[derive(Clone, Copy)]
pub struct TaskState {
    pub status: Status,
    pub ok: bool,
    pub register: u16,
    pub row: Row,
    pub laps: [u8; DEPTH as usize],
}

// One channel. Its capacity is the image's, its values stand beside the state.
#[derive(Clone, Copy)]
pub struct ChanState {
    pub closed: bool,
    pub len: u8,
}

// What a turn does to the values of a channel, with its length before the turn: nothing, append, take the oldest, or take the
// oldest and append.
// Kept, point 1: `Keep` is one of four changes; an Option of the other three would be taken apart twice wherever a change is stored.
#[derive(Clone, Copy)]
pub enum Change {
    Keep,
    Append(Chan, u8, u16),
    Take(Chan, u8),
    Refill(Chan, u8, u16),
}

// The side of a channel on which a task waits.
#[derive(Clone, Copy)]
pub enum Side {
    Receiving,
    Sending,
}

// An operation and the rows to which it leads: to `miss` after a receive with ok off.
#[derive(Clone, Copy)]
pub struct Offer {
    pub op: Op,
    pub hit: Row,
    pub miss: Row,
}

// A task that waits, with the operation by which it would be woken.
#[derive(Clone, Copy)]
pub struct Waiter {
    pub task: Task,
    pub offer: Offer,
}

// Why a turn stops the machine: a send on a closed channel, a close of nil, of a closed channel, or of one on which a task waits to send.
#[derive(Clone, Copy)]
pub enum Fault {
    SendOnClosed,
    CloseOfNil,
    CloseOfClosed,
    CloseUnderSender,
}

impl From<Fault> for u8 {
    ghost from_gives = { λ fault n. n ≡ fault_number fault };

    fn from(fault: Fault) -> u8 {
        match fault {
            Fault::SendOnClosed => 1,
            Fault::CloseOfNil => 2,
            Fault::CloseOfClosed => 3,
            Fault::CloseUnderSender => 4,
        }
    }
}

// What a turn is to do, decided before anything is changed. In this order: a value is followed by the row at which the mover goes
// on, a partner by the row at which it does.
//     Fail: a fault, on what; Wait: join the order; Branch: go on; Lap: a repeat's depth and laps begun, and go on; End
//     Hand: a value to a waiting receiver; Append: into the buffer
//     Take: the oldest value; Refill: the same, and a waiting sender's value behind it; Receive: a waiting sender's; Drain: a zero
//     Shut: close, and wake all that wait to receive
// Kept, point 1: `Wait` is a plan like the others, the task joins the order; `Fail` has the fault as a number, since `machine_alone::fail` answers every
// number and `fail_seen` (machine_laws/specs/Laws/Link) is proved of every number.
#[derive(Clone, Copy)]
pub enum Plan {
    Fail(u8, Port),
    Wait,
    Branch(Row),
    Lap(u8, u8, Row),
    End,
    Hand(Chan, u16, Row, Task, Row),
    Append(Chan, u16, Row),
    Take(Chan, u16, Row),
    Refill(Chan, u16, Row, Task, u16, Row),
    Receive(Chan, u16, Row, Task, Row),
    Drain(Chan, Row),
    Shut(Chan, Row),
}

// What a turn answers besides the state: its event, and what it does to the values.
#[derive(Clone, Copy)]
pub struct Moved {
    pub event: Event,
    pub change: Change,
}

// Why a turn is not made, behind the image's check and the state's: a machine that has halted, a number that is no task's, a task that
// waits or has ended.
#[derive(Clone, Copy)]
pub enum Refusal {
    Halted,
    NoSuchTask,
    IsWaiting,
    HasEnded,
}

impl From<Refusal> for u8 {
    ghost from_gives = { λ refusal n. n ≡ refusal_number refusal };

    fn from(refusal: Refusal) -> u8 {
        match refusal {
            Refusal::Halted => 13,
            Refusal::NoSuchTask => 14,
            Refusal::IsWaiting => 15,
            Refusal::HasEnded => 16,
        }
    }
}
