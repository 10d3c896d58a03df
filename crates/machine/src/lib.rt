// The machine as its callers see it: a fresh start, one turn, and the values after it, over an image, a state and the values by
// value. Every image, state, task number and choice is answered.
#![tactic(auto)]

ghost use Rattle.std.specs.Prelude.{◌≡◌, true, ◌≤◌, Ok};
ghost use Rattle.meaning.specs.Bytes.{body_of, start_of};
ghost use Rattle.meaning.specs.Numbers.{task_limit};
ghost use Rattle.image_rows.specs.Rows.{counts_of};
ghost use Rattle.image_check.specs.Check.{checked};
ghost use Rattle.machine_records.specs.Values.{changed};
ghost use Rattle.machine_records.specs.View.{view};
ghost use Rattle.machine_store.specs.Store.{records_of};
ghost use Rattle.machine_fit.specs.Fitted.{fitting_in};
ghost use Rattle.machine.specs.Public.{no_state, fresh_state, started_as, started, fresh_values, refused_turn, stepped_turn, turned_after, turned, Means};

use image_check::{ImageFault, check};
use image_rows::Counts;
use image_rows::bytes::{body_of, counts_in, trailer_of};
use image_rows::table::first_row_in;
use machine_fit::fits;
use machine_records::Change;
use machine_step::step_in;
use machine_store::{STATE_CELLS, STATE_WORDS, State};
use meaning::sizes::{CELLS, CHANS};
use meaning::{Event, Task};

// The state does not fit the image.
pub const UNFIT: u8 = 17;

// A start's answer: the check's, and the fresh state; a state with no task where the image is refused.
#[derive(Clone, Copy)]
pub struct Started {
    pub answer: Result<(), ImageFault>,
    pub state: State,
}

// A turn's event, the state after it, and what it does to the values.
#[derive(Clone, Copy)]
pub struct Turned {
    pub event: Event,
    pub state: State,
    pub change: Change,
}

// A state with no task: all 0.
fn no_state() -> State
    ensures { result ≡ no_state }
{
    State {
        words: [0u16; STATE_WORDS],
        cells: [0u8; STATE_CELLS],
    }
}

// The tasks at their first rows, all else 0.
fn fresh(body: &[u8], k: Counts) -> State
    requires { k.tasks ≤ task_limit }
    ensures { result ≡ fresh_state body.now k }
{
    let mut state = no_state();
    state.put_counts(k.tasks, k.channels);
    for t in 0..k.tasks {
        let row = first_row_in(body, k.rows, k.channels, Task(t));
        state.went(Task(t), row);
    }
    state
}

fn start_as(body: &[u8], k: Counts, answer: Result<(), ImageFault>) -> Started
    requires { answer ≡ Ok tt → k.tasks ≤ task_limit }
    ensures { result ≡ started_as body.now k answer }
{
    let state = match answer {
        Ok(()) => fresh(body, k),
        Err(_) => no_state(),
    };
    Started { answer, state }
}

// A fresh start: the image check's refusal, or the machine at the beginning.
pub fn start(image: &[u8]) -> Started
    ensures { (result ≡ started image.now) × (checked image.now ≡ Ok tt → view image.now (records_of result.state) fresh_values ≡ start_of image.now) }
{
    let answer = check(image);
    start_as(body_of(image), counts_in(trailer_of(image)), answer)
}

// All buffers empty.
pub fn fresh_values() -> [[u16; CELLS as usize]; CHANS as usize]
    ensures { result ≡ fresh_values }
{
    [[0u16; CELLS as usize]; CHANS as usize]
}

// The values after a turn.
pub fn stored(
    values: [[u16; CELLS as usize]; CHANS as usize],
    change: Change,
) -> [[u16; CELLS as usize]; CHANS as usize]
    ensures { result ≡ changed values change }
{
    machine_buffer::stored(values, change)
}

fn refuse(s: State, number: u8) -> Turned
    ensures { result ≡ refused_turn s number }
{
    Turned {
        event: Event::Refused(number),
        state: s,
        change: Change::Keep,
    }
}

// The turn of a state that fits, made where it lies.
fn step(
    body: &[u8],
    k: Counts,
    mut s: State,
    values: &[[u16; CELLS as usize]; CHANS as usize],
    task: Task,
    choice: u8,
) -> Turned
    requires { fitting_in body.now k s.words s.cells ≡ true }
    ensures { result ≡ stepped_turn body.now k.rows s values.now task choice }
{
    let m = step_in(body, k.rows, &mut s, values, task, choice);
    Turned {
        event: m.event,
        state: s,
        change: m.change,
    }
}

// The turn once the image's own answer is known.
fn turn_after(
    body: &[u8],
    k: Counts,
    s: State,
    values: [[u16; CELLS as usize]; CHANS as usize],
    task: Task,
    choice: u8,
    answer: Result<(), ImageFault>,
) -> Turned
    ensures { result ≡ turned_after body.now k s values task choice answer }
{
    if let Err(fault) = answer {
        return refuse(s, fault.number());
    }
    if fits(body, k, &s) {
        return step(body, k, s, &values, task, choice);
    }
    refuse(s, UNFIT)
}

// One turn of a task with a choice: the event, the state after it, and what it does to the values. Refused by the image check's
// own number, 17, 13, 14, 16 or 15, in this order, it returns every cell of the state as it stood.
pub fn turn(
    image: &[u8],
    s: State,
    values: [[u16; CELLS as usize]; CHANS as usize],
    task: Task,
    choice: u8,
) -> Turned
    ensures { (result ≡ turned image.now s values task choice) × (checked image.now ≡ Ok tt → fitting_in (body_of image.now) (counts_of image.now) s.words s.cells ≡ true → Means image.now s values task choice result) }
{
    let answer = check(image);
    turn_after(
        body_of(image),
        counts_in(trailer_of(image)),
        s,
        values,
        task,
        choice,
        answer,
    )
}
