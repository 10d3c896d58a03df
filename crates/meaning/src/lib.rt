// The kinds that the code and the definitions share, in the forms that document 01 names.
// They stand here, below everything else, so that a definition in specs/ speaks of the very values that the code passes
// and answers, and no second set of kinds has to be related to the first.
#![tactic(auto)]

ghost use Rattle.std.specs.Prelude.{◌≡◌};
ghost use Rattle.meaning.specs.Bytes.{port_of};
ghost use Rattle.meaning.specs.Events.{port_number};
ghost use Rattle.meaning.specs.Statuses.{status_number, status_of};

pub mod ops;
pub mod sizes;

use sizes::NIL;

// Document 01, 'Step image': a task number and a channel number both run from 0 to 15 and are kept apart by kind; so is
// the number of a row.
#[derive(Clone, Copy, PartialEq, Eq)]
pub struct Task(pub u8);

#[derive(Clone, Copy, PartialEq, Eq)]
pub struct Chan(pub u8);

#[derive(Clone, Copy, PartialEq, Eq)]
pub struct Row(pub u16);

// A channel, or nil.
// Kept, point 1: document 01's nil is a channel on which every operation waits and a close faults, and no channel that lacks: `Nil` says so.
#[derive(Clone, Copy, PartialEq, Eq)]
pub enum Port {
    Nil,
    On(Chan),
}

// Document 01, 'Job text': "Each case holds one operation of three kinds: send with its value, forward or recv."
// The statements send, forward and recv carry the same operation.
#[derive(Clone, Copy)]
pub enum Op {
    Send(Port, u16),
    Forward(Port),
    Recv(Port),
}

// What a select does when no case is ready: wait, or go on at the first row of its default.
// Kept, point 1: `Wait` says what a select without a default does; `None` would say only that it has no row.
#[derive(Clone, Copy)]
pub enum Otherwise {
    Wait,
    Go(Row),
}

// A row of a step image, as the table of document 01, 'Step image', reads it.
#[derive(Clone, Copy)]
pub enum Statement {
    Do(Op, Row), // next
    Close(Port, Row), // next
    Range(Port, Row, Row), // body, after
    Repeat(u8, u16, Row, Row), // depth, N, body, after
    Ifok(Row, Row), // first body, second body
    Select(u8, Otherwise), // number of cases, default
    Case(Op, Row), // body
    Stop,
}

// The five fields of a row, as its eight bytes hold them: "op, chan, arg (2), next (2), other (2)".
#[derive(Clone, Copy)]
pub struct Fields {
    pub op: u8,
    pub chan: u8,
    pub arg: u16,
    pub next: u16,
    pub other: u16,
}

// The three states of a task that a listing prints as 0, 1, 2, and a state's cells hold so.
#[derive(Clone, Copy)]
pub enum Status {
    Able,
    Waiting,
    Ended,
}

impl From<Status> for u8 {
    ghost from_gives = { λ status n. n ≡ status_number status };

    fn from(status: Status) -> u8 {
        match status {
            Status::Able => 0,
            Status::Waiting => 1,
            Status::Ended => 2,
        }
    }
}

// A number over 2 reads as 2 does.
impl From<u8> for Status {
    ghost from_gives = { λ n status. status ≡ status_of n };

    fn from(number: u8) -> Status {
        match number {
            0 => Status::Able,
            1 => Status::Waiting,
            _ => Status::Ended,
        }
    }
}

// What a turn reports. specs/Events.antt gives document 01's four numbers for each.
// Kept, point 1: fault and refusal are numbers here, as `halt` and `refused` of specs/Machine have them; the enums stand above, with whoever refuses, and give their numbers.
#[derive(Clone, Copy)]
pub enum Event {
    Appended(Chan, u16),
    Handed(Chan, u16, Task), // to this waiting receiver
    Taken(Chan, u16), // from the buffer
    Refilled(Chan, u16, Task), // the same, and this sender refilled the buffer
    Received(Chan, u16, Task), // from this waiting sender
    Drained(Chan), // from closed and empty
    Closed(Chan, u8), // with this many tasks woken
    Waits,
    Branched,
    Finished,
    Faulted(Port, u8, Task), // the channel, the fault, the task named
    Refused(u8), // a refused turn's number
}

// The four numbers by which document 01 tells an event.
#[derive(Clone, Copy)]
pub struct EventNumbers {
    pub number: u8,
    pub channel: u8,
    pub value: u16,
    pub partner: u8,
}

// A channel's number, 255 for nil: in a row and in an event alike.
impl From<Port> for u8 {
    ghost from_gives = { λ port n. n ≡ port_number port };

    fn from(port: Port) -> u8 {
        match port {
            Port::Nil => NIL,
            Port::On(c) => c.0,
        }
    }
}

// The port that a channel byte names; 255 is nil.
impl From<u8> for Port {
    ghost from_gives = { λ n port. port ≡ port_of n };

    fn from(n: u8) -> Port {
        if n == NIL {
            Port::Nil
        } else {
            Port::On(Chan(n))
        }
    }
}
