// What an input of the listing program comes to, document 01, 'A listing, whole', in the order of the answers: too long, a refused
// text, a bad schedule, a run.
#![tactic(auto)]

ghost use Rattle.std.specs.Prelude.{◌≡◌, ◌%◌, length, take, drop};
ghost use Rattle.listing_answer.specs.Answer.{scheduled, answered, image_after};

use listing_input::{read_schedule, split_at_run};
use translate::translate;

// A run: how long its image is, how many pairs its schedule has, and where that begins in the input.
#[derive(Clone, Copy)]
pub struct Run {
    pub length: usize,
    pub pairs: u16,
    pub from: usize,
}

// Why an input runs nothing: each is answered by one line that stands alone.
// Kept, point 1: a refused text has number and place, not the translator's own reason, since `refused` of listing_session/specs/Laws/Whole
// says of every number and every place which line it is.
#[derive(Clone, Copy)]
pub enum Unlisted {
    TooLong,
    Refused(u8, u16), // number, place
    BadSchedule,
}

const INPUT_LIMIT: usize = 48000;

// Room for an input and one byte more, by which one that is too long is noticed; and for the largest image, of 1,024 rows, 16
// channels and 16 tasks.
pub const INPUT_ROOM: usize = 48001;

pub const IMAGE_ROOM: usize = 8248;

// PARTS

// The first n bytes: all of a slice that is shorter.
pub fn first(s: &[u8], n: usize) -> &[u8]
    ensures { result.now ≡ take n s.now }
{
    &s[..n.min(s.len())]
}

// What stands from place n on: nothing of a slice that is shorter.
pub fn behind(s: &[u8], n: usize) -> &[u8]
    ensures { result.now ≡ drop n s.now }
{
    &s[n.min(s.len())..]
}

// THE ANSWER

// A place, or a number of pairs, in two bytes. Neither is over 48,000, so that the remainder changes nothing (specs/Laws/Places).
// Kept, point 4: no conversion of the library takes a remainder, and `try_from` would make a refusal that never comes.
fn narrow(n: usize) -> u16
    ensures { result ≡ n % 65536 }
{
    (n % 65536) as u16
}

#[tactic(auto, unfolding(crate::specs::Answer::scheduled))]
fn scheduled_as(length: usize, from: usize, given: Option<usize>) -> Result<Run, Unlisted>
    ensures { result ≡ scheduled length from given }
{
    let pairs = given.ok_or(Unlisted::BadSchedule)?;
    Ok(Run {
        length: length,
        pairs: narrow(pairs),
        from: from,
    })
}

// What an input comes to: a run, or the line that stands alone. The image of an accepted text then stands at the buffer's start.
#[tactic(auto, unfolding(crate::specs::Answer::answered, crate::specs::Answer::image_after))]
pub fn answer_of(input: &[u8], image: &mut [u8]) -> Result<Run, Unlisted>
    ensures { (result ≡ answered input.now (length image.old)) × (image.new ≡ image_after input.now image.old) }
{
    if INPUT_LIMIT < input.len() {
        return Err(Unlisted::TooLong);
    }
    let parts = split_at_run(input);
    match translate(first(input, parts.text), image) {
        Err(why) => Err(Unlisted::Refused(why.number(), narrow(why.place()))),
        Ok(n) => {
            let given = read_schedule(behind(input, parts.rest));
            scheduled_as(n, parts.rest, given)
        }
    }
}
