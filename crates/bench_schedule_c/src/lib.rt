// The schedule of crate `bench_schedule` for callers in C (tests/count). A crate of its own, so that in its archive the step has one
// caller, as in the product.
#![tactic(auto)]

ghost use Rattle.std.specs.Prelude.{◌≡◌};
ghost use Rattle.machine.specs.Public.{started, fresh_values};
ghost use Rattle.machine_turns.specs.Schedule.{decided, records_after};
ghost use Rattle.bench_schedule.specs.Number.{number_of};

// The turns of the pairs from a fresh start, and their records. Answers a refusal's number, or 0.
#[unsafe(no_mangle)]
pub extern "C" fn bench_schedule(image: &[u8], pairs: &[u8], records: &mut [u8]) -> u8
    ensures { (result ≡ number_of (decided image.now (started image.now).state pairs.now records.old)) × (records.new ≡ records_after image.now (started image.now).state fresh_values pairs.now records.old) }
{
    bench_schedule::bench_schedule(image, pairs, records)
}
