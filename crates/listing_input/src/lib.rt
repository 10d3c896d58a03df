// What the listing program is given: a job text up to a line `run`, then a schedule. Both are read in place.
#![tactic(auto)]

ghost use Rattle.std.specs.Prelude.{◌≡◌, ◌&&◌};
ghost use Rattle.listing_input.specs.Input.{first_line, is_run, split_of, is_byte, ended, schedule_of, pair_at};

use text_words::{NO_WORD, NUMBER, Word, word_at};

// Where the job text ends, and where the schedule begins.
#[derive(Clone, Copy)]
pub struct Split {
    pub text: usize,
    pub rest: usize,
}

// A pair of a schedule, and the place behind it.
#[derive(Clone, Copy)]
pub struct Pair {
    pub task: u8,
    pub choice: u8,
    pub next: usize,
}

// The line that begins a text: up to its newline, or the text's end.
fn first_line(text: &[u8]) -> &[u8]
    ensures { result.now ≡ first_line text.now }
{
    let end = text.iter().position(|&b| b == b'\n').unwrap_or(text.len());
    &text[..end]
}

// Whether that line is exactly `run`, where a line begins there.
fn begins_run(text: &[u8], begins: bool) -> bool
    ensures { result ≡ (begins && is_run text.now) }
{
    begins && first_line(text) == b"run".as_slice()
}

// `begins` says that a line begins at place i. The schedule stands behind the line `run` and its newline, which may lack at the input's
// end.
#[tactic(auto, using(crate::specs::Laws::Input::text_more, crate::specs::Laws::Input::text_stop, crate::specs::Laws::Input::text_end), unfolding(crate::specs::Input::split_of))]
pub fn split_at_run(input: &[u8]) -> Split
    ensures { result ≡ split_of input.now }
{
    let mut begins = true;
    for i in 0..input.len() {
        if begins_run(&input[i..], begins) {
            return Split {
                text: i,
                rest: input.len().min(i + 4),
            };
        }
        begins = input[i] == b'\n';
    }
    Split {
        text: input.len(),
        rest: input.len(),
    }
}

// A number from 0 to 255.
fn is_byte(w: Word) -> bool
    ensures { result ≡ is_byte w }
{
    w.kind == NUMBER && w.value <= 255
}

// How many pairs a schedule of n numbers is: none where one number is left over.
fn ended_at(n: usize) -> Option<usize>
    ensures { result ≡ ended n }
{
    if n % 2 == 0 { Some(n / 2) } else { None }
}

// How many pairs a schedule has; none where it is bad or odd.
// Kept, point 3: the walk goes from word to word, so no counted range has its places.
#[tactic(auto, using(crate::specs::Laws::Input::word_ends, crate::specs::Laws::Input::judged_end, crate::specs::Laws::Input::judged_more, crate::specs::Laws::Input::judged_bad), unfolding(crate::specs::Input::schedule_of, crate::specs::Input::words_of))]
pub fn read_schedule(rest: &[u8]) -> Option<usize>
    ensures { result ≡ schedule_of rest.now }
{
    let mut at = 0;
    let mut n = 0;
    loop {
        let w = word_at(rest, at);
        if w.kind == NO_WORD {
            return ended_at(n);
        }
        if !is_byte(w) {
            return None;
        }
        at = w.next;
        n += 1;
    }
}

// The two numbers from `at` on. In a schedule that is not bad each is a byte and the remainder changes nothing.
#[tactic(auto, unfolding(crate::specs::Input::pair_at))]
pub fn pair_at(rest: &[u8], at: usize) -> Pair
    ensures { result ≡ pair_at rest.now at }
{
    let task = word_at(rest, at);
    let choice = word_at(rest, task.next);
    Pair {
        task: (task.value % 256) as u8,
        choice: (choice.value % 256) as u8,
        next: choice.next,
    }
}
