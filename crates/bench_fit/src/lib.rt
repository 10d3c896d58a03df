// Rounds of one fit, for counting instructions: a job is started, led by a schedule to the state that is asked about, and its fit
// is then asked again and again. A crate of its own, led on by bare steps: with a turn in it the fit would have two callers, and
// would be laid into neither, as it is in the product. A benchmark and no test; tests/count runs it.
#![tactic(auto)]

ghost use Rattle.std.specs.Prelude.{◌≡◌};
ghost use Rattle.machine.specs.Public.{fresh_values};
ghost use Rattle.bench_fit.specs.FitRounds.{fit_rounds, led_on, FitsCounted};
ghost use Rattle.machine_store.specs.Store.{Made};

use image_rows::Counts;
use image_rows::bytes::{body_of, counts_in, trailer_of};
use machine::{fresh_values, start};
use machine_buffer::store_in;
use machine_fit::fits;
use machine_step::step_in;
use machine_store::{STATE_CELLS, STATE_WORDS, State};
use meaning::Task;

// The steps of the pairs, task and choice, made where the state lies.
fn lead_on(body: &[u8], rows: u16, state: &mut State, pairs: &[u8])
    ensures { Made state.old state.new (λ s. led_on body.now rows pairs.now s fresh_values) }
{
    let mut values = fresh_values();
    for i in 0..(pairs.len() / 2) {
        let m = step_in(
            body,
            rows,
            state,
            &values,
            Task(pairs[2 * i]),
            pairs[2 * i + 1],
        );
        store_in(&mut values, m.change);
    }
}

// How many rounds say yes. Behind a no the state is cleared: one that never changed the compiler would test once, ahead of the loop.
fn fit_rounds(body: &[u8], k: Counts, from: State, n: u32) -> u16
    ensures { result ≡ fit_rounds body.now k n 0 from.words from.cells }
{
    let mut state = from;
    let mut count: u16 = 0;
    for asked in 0..n {
        if fits(body, k, &state) {
            count = count.wrapping_add(1);
        } else {
            state = State {
                words: [0u16; STATE_WORDS],
                cells: [0u8; STATE_CELLS],
            };
        }
    }
    count
}

// Rounds of the fit of the state that the pairs lead to. Answers how many said yes, modulo 65,536.
pub fn bench_fit(image: &[u8], pairs: &[u8], rounds: u32) -> u16
    ensures { FitsCounted image.now pairs.now rounds result }
{
    let body = body_of(image);
    let k = counts_in(trailer_of(image));
    let begun = start(image);
    let mut state = begun.state;
    lead_on(body, k.rows, &mut state, pairs);
    fit_rounds(body, k, state, rounds)
}
