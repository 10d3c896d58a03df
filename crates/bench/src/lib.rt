// Rounds of one turn, for counting instructions: a job is started, brought by a schedule to the turn that is asked about, and that
// turn is then made again and again from the same state. The rounds of a fit are crate bench_fit's, so that the turn is the fit's
// only caller here, as in the product. A benchmark and no test; tests/count runs it.
#![tactic(auto)]

ghost use Rattle.std.specs.Prelude.{◌≡◌};
ghost use Rattle.meaning.specs.Image.{task_no};
ghost use Rattle.machine_records.specs.Step.{stepped};
ghost use Rattle.machine_store.specs.Store.{records_of};
ghost use Rattle.bench.specs.Bench.{step_rounds, turn_rounds, rounds_of, after_pairs};
ghost use Rattle.machine.specs.Public.{started, fresh_values};

use image_rows::bytes::{body_of, counts_in, trailer_of};
use machine::{fresh_values, start, stored, turn};
use machine_step::step_in;
use machine_store::State;
use meaning::Task;
use meaning::sizes::{CELLS, CHANS};

pub mod translation;

// The ways of `bench_rounds`: by value, and whole turns; any other is in place.
// Kept, point 1: C gives the way as a number (crate bench_c).
const BY_VALUE: u8 = 1;

const WHOLE: u8 = 2;

// Kept, point 2: three loops of one shape, so that the compiler lays each turn into its own, as in the product; one loop over a closure
// would be another thing to count.

// The same turn in place again and again, each on a copy of one state. Answers the stamp behind the last one.
#[tactic(auto, using(crate::specs::Laws::Bench::rounds_begin, crate::specs::Laws::Bench::rounds_again, crate::specs::Laws::Bench::rounds_end))]
fn step_rounds(
    body: &[u8],
    rows: u16,
    from: State,
    values: &[[u16; CELLS as usize]; CHANS as usize],
    t: Task,
    choice: u8,
    n: u32,
) -> u16
    ensures { result ≡ step_rounds body.now rows values.now t choice n from }
{
    let mut stamp = from.stamp();
    for made in 0..n {
        let mut s = from;
        let _m = step_in(body, rows, &mut s, values, t, choice);
        stamp = s.stamp();
    }
    stamp
}

// One step by value: a copy in, a copy out.
fn step_by_value(
    body: &[u8],
    rows: u16,
    mut s: State,
    values: &[[u16; CELLS as usize]; CHANS as usize],
    t: Task,
    choice: u8,
) -> State
    ensures { records_of result ≡ (stepped body.now rows (records_of s) values.now t choice).after }
{
    let _m = step_in(body, rows, &mut s, values, t, choice);
    s
}

// The same turn by value again and again.
#[tactic(auto, using(crate::specs::Laws::Bench::rounds_begin, crate::specs::Laws::Bench::rounds_again, crate::specs::Laws::Bench::rounds_end))]
fn value_rounds(
    body: &[u8],
    rows: u16,
    from: State,
    values: &[[u16; CELLS as usize]; CHANS as usize],
    t: Task,
    choice: u8,
    n: u32,
) -> u16
    ensures { result ≡ step_rounds body.now rows values.now t choice n from }
{
    let mut stamp = from.stamp();
    for made in 0..n {
        let after = step_by_value(body, rows, from, values, t, choice);
        stamp = after.stamp();
    }
    stamp
}

// The same of whole turns by value.
#[tactic(auto, using(crate::specs::Laws::Bench::rounds_begin, crate::specs::Laws::Bench::rounds_again, crate::specs::Laws::Bench::rounds_end))]
fn turn_rounds(
    image: &[u8],
    from: State,
    values: [[u16; CELLS as usize]; CHANS as usize],
    t: Task,
    choice: u8,
    n: u32,
) -> u16
    ensures { result ≡ turn_rounds image.now values t choice n from }
{
    let mut stamp = from.stamp();
    for made in 0..n {
        let r = turn(image, from, values, t, choice);
        let after = r.state;
        stamp = after.stamp();
    }
    stamp
}

// Bare steps, or whole turns with the image check and the fit.
fn rounds_of(
    image: &[u8],
    way: u8,
    s: State,
    values: [[u16; CELLS as usize]; CHANS as usize],
    t: Task,
    choice: u8,
    rounds: u32,
) -> u16
    ensures { result ≡ rounds_of image.now t choice rounds way s values }
{
    if way == WHOLE {
        return turn_rounds(image, s, values, t, choice, rounds);
    }
    let k = counts_in(trailer_of(image));
    if way == BY_VALUE {
        return value_rounds(body_of(image), k.rows, s, &values, t, choice, rounds);
    }
    step_rounds(body_of(image), k.rows, s, &values, t, choice, rounds)
}

// Starts the image, makes the turns of the pairs, and then the rounds.
fn after_pairs(image: &[u8], pairs: &[u8], way: u8, task: Task, choice: u8, rounds: u32) -> u16
    ensures { result ≡ after_pairs image.now task choice rounds way pairs.now (started image.now).state fresh_values }
{
    let begun = start(image);
    let mut s = begun.state;
    let mut values = fresh_values();
    for i in 0..(pairs.len() / 2) {
        let r = turn(image, s, values, Task(pairs[2 * i]), pairs[2 * i + 1]);
        let after = stored(values, r.change);
        values = after;
        s = r.state;
    }
    rounds_of(image, way, s, values, task, choice, rounds)
}

// One start. Answers the stamp, 0.
pub fn bench_start(image: &[u8]) -> u16
    ensures { result ≡ (records_of (started image.now).state).stamp }
{
    let begun = start(image);
    let s = begun.state;
    s.stamp()
}

// Rounds of one turn: bare steps, or whole turns with the image check and the fit. Answers the stamp.
pub fn bench_rounds(image: &[u8], pairs: &[u8], way: u8, task: u8, choice: u8, rounds: u32) -> u16
    ensures { result ≡ after_pairs image.now (task_no task) choice rounds way pairs.now (started image.now).state fresh_values }
{
    after_pairs(image, pairs, way, Task(task), choice, rounds)
}
