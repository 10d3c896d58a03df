// A whole schedule in one call (document 02, E1): pairs of task and choice from a slice, a record of six bytes for each turn. The
// image is checked and the state held to it once, ahead of the first turn; behind that every turn is one step, in place.
#![tactic(auto)]

ghost use Rattle.std.specs.Prelude.{◌≡◌};
ghost use Rattle.machine_turns.specs.Schedule.{outcome, scheduled, values_after, records_after};
ghost use Rattle.machine_turns.specs.Loop.{Sixteen, Ready, Ran};

use events::put_record;
use image_check::check;
use image_rows::bytes::{body_of, counts_in, trailer_of};
use machine_buffer::store_in;
use machine_fit::fits;
use machine_step::step_in;
use machine_store::State;
use machine_turns::{Scheduled, Unmade, outcome_of};
use meaning::Task;
use meaning::sizes::{CELLS, CHANS};

// The values are sixteen rows of sixteen. It compiles to nothing.
// Kept, point 5: what the rows of an array of arrays behind a `&mut` hold the check does not know; a value says it.
fn sixteen(values: [[u16; CELLS as usize]; CHANS as usize]) -> bool
    ensures { Sixteen values }
{
    true
}

// The turns of all pairs, each a step where the state and the values lie, and its record.
fn run_in(
    image: &[u8],
    state: &mut State,
    values: &mut [[u16; CELLS as usize]; CHANS as usize],
    pairs: &[u8],
    records: &mut [u8],
)
    requires { Ready image.now state.old values.old pairs.now records.old }
    ensures { Ran image.now state.old values.old pairs.now records.old state.new values.new records.new }
{
    let body = body_of(image);
    let k = counts_in(trailer_of(image));
    for i in 0..(pairs.len() / 2) {
        let task = Task(pairs[2 * i]);
        let choice = pairs[2 * i + 1];
        let m = step_in(body, k.rows, state, values, task, choice);
        store_in(values, m.change);
        put_record(records, 6 * i, task, m.event);
    }
}

// The answer of a call, decided ahead of the first turn: the image check's own number, 17, 30, 31, or the bytes that its records take.
#[tactic(auto, unfolding(machine_turns::specs::Schedule::outcome, image_rows::specs::Rows::counts_of))]
fn decide(image: &[u8], state: &State, pairs: usize, room: usize) -> Result<usize, Unmade>
    ensures { result ≡ outcome image.now state.now pairs room }
{
    check(image)?;
    if fits(body_of(image), counts_in(trailer_of(image)), state) {
        return outcome_of(pairs, room);
    }
    Err(Unmade::Unfit)
}

// The turns of all pairs of a schedule, in order, from a state and the values beside it, which is lent. Refused by the image check's own
// number, 17, 30 or 31, in this order, it makes no turn and changes nothing; a turn that is refused makes a record too. Bytes of
// `records` behind the last record stay as they are.
pub fn schedule(
    image: &[u8],
    mut s: State,
    values: &mut [[u16; CELLS as usize]; CHANS as usize],
    pairs: &[u8],
    records: &mut [u8],
) -> Scheduled
    ensures { (result ≡ scheduled image.now s values.old pairs.now records.old) × (values.new ≡ values_after image.now s values.old pairs.now records.old) × (records.new ≡ records_after image.now s values.old pairs.now records.old) }
{
    let outcome = decide(image, &s, pairs.len(), records.len());
    if let Ok(_) = outcome {
        let _all = sixteen(*values);
        run_in(image, &mut s, values, pairs, records);
    }
    Scheduled { outcome, state: s }
}
