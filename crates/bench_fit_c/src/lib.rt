// The rounds of crate `bench_fit` for callers in C (tests/count). A crate of its own, so that in its archive the fit has one caller, as
// in the product.
#![tactic(auto)]

ghost use Rattle.bench_fit.specs.FitRounds.{FitsCounted};

// Rounds of the fit of the state that the pairs lead to. Answers how many said yes, modulo 65,536.
#[unsafe(no_mangle)]
pub extern "C" fn bench_fit(image: &[u8], pairs: &[u8], rounds: u32) -> u16
    ensures { FitsCounted image.now pairs.now rounds result }
{
    bench_fit::bench_fit(image, pairs, rounds)
}
