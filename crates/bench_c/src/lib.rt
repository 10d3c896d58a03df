// The rounds of crate `bench` for callers in C (tests/count): each export makes the library's call and promises what that does.
#![tactic(auto)]

ghost use Rattle.std.specs.Prelude.{◌≡◌, length};
ghost use Rattle.meaning.specs.Image.{task_no};
ghost use Rattle.image_check.specs.Check.{checked};
ghost use Rattle.translate.specs.Translated.{translated, written};
ghost use Rattle.machine_store.specs.Store.{records_of};
ghost use Rattle.machine.specs.Public.{started, fresh_values};
ghost use Rattle.bench.specs.Bench.{after_pairs};
ghost use Rattle.bench.specs.Translation.{length_of, refusal_of};

// One start. Answers the stamp, 0.
#[unsafe(no_mangle)]
pub extern "C" fn bench_start(image: &[u8]) -> u16
    ensures { result ≡ (records_of (started image.now).state).stamp }
{
    bench::bench_start(image)
}

// Rounds of one turn: bare steps, or whole turns with the image check and the fit. Answers the stamp.
#[unsafe(no_mangle)]
pub extern "C" fn bench_rounds(
    image: &[u8],
    pairs: &[u8],
    way: u8,
    task: u8,
    choice: u8,
    rounds: u32,
) -> u16
    ensures { result ≡ after_pairs image.now (task_no task) choice rounds way pairs.now (started image.now).state fresh_values }
{
    bench::bench_rounds(image, pairs, way, task, choice, rounds)
}

// The image's length, or 0 where the text is refused.
#[unsafe(no_mangle)]
pub extern "C" fn bench_translate(text: &[u8], image: &mut [u8]) -> usize
    ensures { (result ≡ length_of (translated text.now (length image.old))) × (image.new ≡ written text.now image.old) }
{
    bench::translation::bench_translate(text, image)
}

// The number and 256 times the place of the check's refusal, or 0.
#[unsafe(no_mangle)]
pub extern "C" fn bench_check(image: &[u8]) -> u32
    ensures { result ≡ refusal_of (checked image.now) }
{
    bench::translation::bench_check(image)
}
