// One turn on the rows of an image, made where the state lies: refused, or the plan of the mover's statement, decided first and then
// carried out. `body` is the image from row 0 on, `rows` the number of its rows. Whether the image is good and the state fits it is
// asked above; here every value is answered.
#![tactic(auto)]

ghost use Rattle.std.specs.Prelude.{◌≡◌, ◌+◌, if◌then◌else◌};
ghost use Rattle.machine_records.specs.Records.{task_in};
ghost use Rattle.machine_records.specs.Step.{repeated, no_case, offer_of, plan_alone, plan_by, plan_of, refusal_of, refused_by, stepped};
ghost use Rattle.machine_step.specs.Kinds.{Plan};
ghost use Rattle.machine_store.specs.Store.{records_of, MadeTurn};

use image_rows::table::statement_at;
use machine_exchange::{close, operate};
use machine_moves::apply;
use machine_records::{Change, Moved, Offer, Plan, Refusal};
use machine_select::chosen_case;
use machine_store::State;
use meaning::sizes::{CELLS, CHANS};
use meaning::{Event, Op, Otherwise, Row, Statement, Status, Task};

// A lap is begun while fewer than n are; otherwise the laps are forgotten.
#[tactic(auto, unfolding(machine_records::specs::Step::repeated))]
fn repeat(state: &State, me: Task, d: u8, n: u16, first: Row, after: Row) -> Plan
    ensures { result ≡ repeated (task_in (records_of state.now).tasks me) d n first after }
{
    let lap = state.lap(me, d);
    if (lap as u16) < n {
        Plan::Lap(d, lap.wrapping_add(1), first)
    } else {
        Plan::Lap(d, 0, after)
    }
}

fn ifok(state: &State, me: Task, first: Row, second: Row) -> Plan
    ensures { result ≡ Plan.Branch (if (task_in (records_of state.now).tasks me).ok then first else second) }
{
    if state.task(me).ok {
        Plan::Branch(first)
    } else {
        Plan::Branch(second)
    }
}

// What a select without a ready case does.
fn no_case(e: Otherwise) -> Plan
    ensures { result ≡ no_case e }
{
    match e {
        Otherwise::Wait => Plan::Wait,
        Otherwise::Go(row) => Plan::Branch(row),
    }
}

// The operation that a statement comes to: its own, or a select's chosen case.
fn offer_of(
    body: &[u8],
    rows: u16,
    state: &State,
    row: Row,
    statement: Statement,
    choice: u8,
) -> Option<Offer>
    ensures { result ≡ offer_of body.now rows (records_of state.now) (row.0 + 1) choice statement }
{
    match statement {
        Statement::Do(op, n) => Some(Offer {
            op,
            hit: n,
            miss: n,
        }),
        Statement::Range(p, n, a) => Some(Offer {
            op: Op::Recv(p),
            hit: n,
            miss: a,
        }),
        Statement::Select(k, _) => chosen_case(body, rows, state, k, row, choice),
        _ => None,
    }
}

// The plan of a statement that comes to no operation.
fn plan_alone(body: &[u8], rows: u16, state: &State, me: Task, statement: Statement) -> Plan
    ensures { result ≡ plan_alone body.now rows (records_of state.now) (task_in (records_of state.now).tasks me) statement }
{
    match statement {
        Statement::Close(p, n) => close(body, state, p, n),
        Statement::Repeat(d, k, n, a) => repeat(state, me, d, k, n, a),
        Statement::Ifok(n, a) => ifok(state, me, n, a),
        Statement::Select(_, e) => no_case(e),
        _ => Plan::End,
    }
}

// There is one place for all operations, so that the compiler lays the rules into the turn.
fn plan_by(
    body: &[u8],
    rows: u16,
    state: &State,
    values: &[[u16; CELLS as usize]; CHANS as usize],
    me: Task,
    statement: Statement,
    f: Option<Offer>,
) -> Plan
    ensures { result ≡ plan_by body.now rows (records_of state.now) values.now (task_in (records_of state.now).tasks me) statement f }
{
    match f {
        None => plan_alone(body, rows, state, me, statement),
        Some(offer) => operate(body, rows, state, values, state.task(me).register, offer),
    }
}

// The plan of the mover, with a choice.
#[tactic(auto, unfolding(machine_records::specs::Step::plan_of))]
fn plan_of(
    body: &[u8],
    rows: u16,
    state: &State,
    values: &[[u16; CELLS as usize]; CHANS as usize],
    me: Task,
    choice: u8,
) -> Plan
    ensures { result ≡ plan_of body.now rows (records_of state.now) values.now (task_in (records_of state.now).tasks me) choice }
{
    let row = state.task(me).row;
    let statement = statement_at(body, row);
    let f = offer_of(body, rows, state, row, statement, choice);
    plan_by(body, rows, state, values, me, statement, f)
}

fn refusal_of(status: Status) -> Option<Refusal>
    ensures { result ≡ refusal_of status }
{
    match status {
        Status::Able => None,
        Status::Waiting => Some(Refusal::IsWaiting),
        Status::Ended => Some(Refusal::HasEnded),
    }
}

// Why a turn of task t is refused, if it is.
#[tactic(auto, unfolding(machine_records::specs::Step::refused_by))]
fn refused_by(fault: u8, taskcount: u8, t: Task, status: Status) -> Option<Refusal>
    ensures { result ≡ refused_by fault taskcount t status }
{
    if fault == 0 {
        if t.0 < taskcount {
            return refusal_of(status);
        }
        return Some(Refusal::NoSuchTask);
    }
    Some(Refusal::Halted)
}

// One turn of task me with a choice: its event and what it does to the values, the state changed where it lies. A refused turn leaves
// every cell as it stood.
#[tactic(auto, unfolding(machine_records::specs::Step::stepped))]
pub fn step_in(
    body: &[u8],
    rows: u16,
    state: &mut State,
    values: &[[u16; CELLS as usize]; CHANS as usize],
    me: Task,
    choice: u8,
) -> Moved
    ensures { MadeTurn state.old state.new result (λ s. stepped body.now rows s values.now me choice) }
{
    let status = state.task(me).status;
    if let Some(refusal) = refused_by(state.fault(), state.task_count(), me, status) {
        return Moved {
            event: Event::Refused(u8::from(refusal)),
            change: Change::Keep,
        };
    }
    let p = plan_of(body, rows, state, values, me, choice);
    apply(body, state, me, p)
}
