// What a turn reports, as others take it: document 01's four numbers of an event, and the six bytes of an event record, "event, task,
// channel, value (2, low byte first), partner". Listing, schedule and firmware all take an event from here.
#![tactic(auto)]

ghost use Rattle.std.specs.Prelude.{◌≡◌, ◌+◌, ◌≤◌, length};
ghost use Rattle.std.proofs.lemmas.List.Edits.{sets};
ghost use Rattle.meaning.specs.Events.{event, numbers};
ghost use Rattle.events.specs.Record.{event_record, record_put};

use meaning::{Event, EventNumbers, Task};

// The bytes of an event record.
pub const RECORD_SIZE: usize = 6;

fn numbers_of(number: u8, channel: u8, value: u16, partner: u8) -> EventNumbers
    ensures { result ≡ event number channel value partner }
{
    EventNumbers {
        number,
        channel,
        value,
        partner,
    }
}

// The number, channel, value and partner of an event.
#[tactic(auto, unfolding(meaning::specs::Events::numbers))]
pub fn event_numbers(event: Event) -> EventNumbers
    ensures { result ≡ numbers event }
{
    match event {
        Event::Appended(c, v) => numbers_of(1, c.0, v, 255),
        Event::Handed(c, v, q) => numbers_of(2, c.0, v, q.0),
        Event::Taken(c, v) => numbers_of(3, c.0, v, 255),
        Event::Refilled(c, v, q) => numbers_of(3, c.0, v, q.0),
        Event::Received(c, v, q) => numbers_of(4, c.0, v, q.0),
        Event::Drained(c) => numbers_of(5, c.0, 0, 255),
        Event::Closed(c, n) => numbers_of(6, c.0, u16::from(n), 255),
        Event::Waits => numbers_of(7, 255, 0, 255),
        Event::Branched => numbers_of(8, 255, 0, 255),
        Event::Finished => numbers_of(9, 255, 0, 255),
        Event::Faulted(p, f, t) => numbers_of(10, u8::from(p), u16::from(f), t.0),
        Event::Refused(n) => numbers_of(n, 255, 0, 255),
    }
}

// The six bytes of a record from i on.
fn put_six(out: &mut [u8], i: usize, task: Task, e: EventNumbers)
    requires { i + 6 ≤ length out.old }
    ensures { out.new ≡ sets out.old i (event_record task e) }
{
    let value = e.value.to_le_bytes();
    out[i] = e.number;
    out[i + 1] = task.0;
    out[i + 2] = e.channel;
    out[i + 3] = value[0];
    out[i + 4] = value[1];
    out[i + 5] = e.partner;
}

// The record of an event of this task, the task that was asked for, at a place of a slice. Where it has no room there, the slice
// stays as it is.
#[tactic(auto, unfolding(crate::specs::Record::record_put))]
pub fn put_record(out: &mut [u8], at: usize, task: Task, event: Event)
    ensures { out.new ≡ record_put out.old at task (numbers event) }
{
    let size = out.len();
    if at <= size {
        if RECORD_SIZE <= size - at {
            put_six(out, at, task, event_numbers(event));
        }
    }
}
