// One schedule from a fresh start, for counting the instructions of a turn in its loop: an archive of its own, so that the step has
// one caller, as in the product. A benchmark and no test; tests/count runs it.
#![tactic(auto)]

ghost use Rattle.std.specs.Prelude.{◌≡◌};
ghost use Rattle.machine.specs.Public.{started, fresh_values};
ghost use Rattle.machine_turns.specs.Schedule.{decided, records_after};
ghost use Rattle.bench_schedule.specs.Number.{number_of};

use machine::{fresh_values, start};
use machine_schedule::schedule;
use machine_turns::Unmade;

// A refusal's number; 0 where the turns are made.
fn number_of(outcome: Result<usize, Unmade>) -> u8
    ensures { result ≡ number_of outcome }
{
    match outcome {
        Ok(_) => 0,
        Err(why) => why.number(),
    }
}

// The turns of the pairs from a fresh start, and their records. Answers a refusal's number, or 0.
pub fn bench_schedule(image: &[u8], pairs: &[u8], records: &mut [u8]) -> u8
    ensures { (result ≡ number_of (decided image.now (started image.now).state pairs.now records.old)) × (records.new ≡ records_after image.now (started image.now).state fresh_values pairs.now records.old) }
{
    let begun = start(image);
    let s = begun.state;
    let mut values = fresh_values();
    let made = schedule(image, s, &mut values, pairs, records);
    let outcome = made.outcome;
    number_of(outcome)
}
