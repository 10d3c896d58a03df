// What is held of an image at its opening, and what is asked of the slice and of what is held. The struct that holds both is
// thin_image's.
#![tactic(auto)]

ghost use Rattle.std.specs.Prelude.{◌≡◌};
ghost use Rattle.thin_held.specs.Asked.{counts_held, held_of, row_asked, capacity_asked, first_row_asked};

use image_check::{ImageFault, check};
use image_rows::Counts;
use image_rows::bytes::{body_of, counts_in, trailer_of};
use image_rows::table::{capacity_in, first_row_in, statement_at};
use meaning::{Chan, Row, Statement, Task};

// What the check answered, and what the trailer counts: nothing, where the check refused.
#[derive(Clone, Copy)]
pub struct Held {
    pub answer: Result<(), ImageFault>,
    pub counts: Counts,
}

#[tactic(auto, unfolding(crate::specs::Asked::counts_held))]
fn counts_held(answer: Result<(), ImageFault>, k: Counts) -> Counts
    ensures { result ≡ counts_held answer k }
{
    match answer {
        Ok(()) => k,
        Err(_) => Counts {
            rows: 0,
            channels: 0,
            tasks: 0,
            back: 0,
        },
    }
}

// The whole image check, and what the trailer counts where it passes.
#[tactic(auto, unfolding(crate::specs::Asked::held_of, image_rows::specs::Rows::counts_of))]
pub fn hold(image: &[u8]) -> Held
    ensures { result ≡ held_of image.now }
{
    let answer = check(image);
    Held {
        answer,
        counts: counts_held(answer, counts_in(trailer_of(image))),
    }
}

// The row, the capacity or the first row asked for, where there is such a row, channel or task.
#[tactic(auto, unfolding(crate::specs::Asked::row_asked, meaning::specs::Bytes::rows_of))]
pub fn row_asked(image: &[u8], h: Held, n: Row) -> Option<Statement>
    ensures { result ≡ row_asked image.now h n }
{
    let k = h.counts;
    if n.0 < k.rows {
        return Some(statement_at(body_of(image), n));
    }
    None
}

#[tactic(auto, unfolding(crate::specs::Asked::capacity_asked))]
pub fn capacity_asked(image: &[u8], h: Held, c: Chan) -> Option<u8>
    ensures { result ≡ capacity_asked image.now h c }
{
    let k = h.counts;
    if c.0 < k.channels {
        return Some(capacity_in(body_of(image), k.rows, c));
    }
    None
}

#[tactic(auto, unfolding(crate::specs::Asked::first_row_asked))]
pub fn first_row_asked(image: &[u8], h: Held, t: Task) -> Option<Row>
    ensures { result ≡ first_row_asked image.now h t }
{
    let k = h.counts;
    if t.0 < k.tasks {
        return Some(first_row_in(body_of(image), k.rows, k.channels, t));
    }
    None
}
