// The image check of document 01, 'What comes back': refusals 21 to 28 in their order, with their places. One pass over the rows, in
// place: each is asked of crate image_row, and the number of case rows still to come is all that is carried from row to row. Once
// the counts are good and the distance does not reach ahead of the slice, every byte that is read is there. The row test answers
// every slice and so asks again whether it is; that does not change along the pass, and the compiler asks it once.
#![tactic(auto)]

ghost use Rattle.std.specs.Prelude.{◌≡◌, ◌+◌, ◌*◌, ◌≤◌, length};
ghost use Rattle.meaning.specs.Bytes.{row_size, span_of};
ghost use Rattle.image_check.specs.Check.{row_bad, capacity_bad, first_row_bad, first_of, body_checked, counts_good, checked, fault_number, fault_place};

use image_row::{is_target, owed_behind, row_passes};
use image_rows::Counts;
use image_rows::bytes::{body_of, byte_at, counts_in, trailer_of, two_of};
use meaning::sizes::{
    BAD_CAPACITY, BAD_COUNTS, BAD_DISTANCE, BAD_FIRST_ROW, BAD_MARK, BAD_ROW, BAD_VERSION, CELLS,
    CHANS, IMAGE_MARK, IMAGE_TOO_SHORT, IMAGE_VERSION, ROW_SIZE, ROWS, TASKS, TRAILER_SIZE,
};
use meaning::{Chan, Row, Task};

// Why an image is refused, and where: the first bad row, channel or task.
#[derive(Clone, Copy, PartialEq, Eq)]
pub enum ImageFault {
    TooShort,
    BadMark,
    BadVersion,
    BadCounts,
    BadDistance,
    BadRow(Row),
    BadCapacity(Chan),
    BadFirstRow(Task),
}

impl ImageFault {
    // Document 01's number of the refusal, and its place: 0 where it has none.
    pub fn number(self) -> u8
        ensures { result ≡ fault_number self }
    {
        match self {
            ImageFault::TooShort => IMAGE_TOO_SHORT,
            ImageFault::BadMark => BAD_MARK,
            ImageFault::BadVersion => BAD_VERSION,
            ImageFault::BadCounts => BAD_COUNTS,
            ImageFault::BadDistance => BAD_DISTANCE,
            ImageFault::BadRow(_) => BAD_ROW,
            ImageFault::BadCapacity(_) => BAD_CAPACITY,
            ImageFault::BadFirstRow(_) => BAD_FIRST_ROW,
        }
    }

    pub fn place(self) -> u16
        ensures { result ≡ fault_place self }
    {
        match self {
            ImageFault::BadRow(i) => i.0,
            ImageFault::BadCapacity(c) => u16::from(c.0),
            ImageFault::BadFirstRow(t) => u16::from(t.0),
            _ => 0,
        }
    }
}

// The three searches, each over a slice that holds what it reads.

#[tactic(auto, using(crate::proofs::Laws::first_step, crate::proofs::Laws::owed_step, image_row::specs::Laws::Row::held_passes), unfolding(crate::specs::Check::first_of, crate::specs::Check::row_bad, crate::specs::Check::owed_at))]
fn first_bad_row(body: &[u8], rows: u16, channels: u8) -> Option<u16>
    requires { row_size * rows ≤ length body.now }
    ensures { result ≡ first_of (row_bad body.now rows channels) rows 0 }
{
    let mut owed: u8 = 0;
    for i in 0..rows {
        if !row_passes(body, rows, channels, Row(i), owed) {
            return Some(i);
        }
        owed = owed_behind(body, Row(i), owed);
    }
    None
}

#[tactic(auto, using(crate::proofs::Laws::first_step), unfolding(crate::specs::Check::first_of, crate::specs::Check::capacity_bad, meaning::specs::Bytes::capacity_in))]
fn first_bad_capacity(body: &[u8], rows: u16, channels: u8) -> Option<u8>
    requires { row_size * rows + channels ≤ length body.now }
    ensures { result ≡ first_of (capacity_bad body.now rows) channels 0 }
{
    let capacities = ROW_SIZE * (rows as usize);
    for c in 0..channels {
        if CELLS < body[capacities + (c as usize)] {
            return Some(c);
        }
    }
    None
}

#[tactic(auto, using(crate::proofs::Laws::first_step), unfolding(crate::specs::Check::first_of, crate::specs::Check::first_row_bad, meaning::specs::Bytes::first_row_in))]
fn first_bad_first_row(body: &[u8], rows: u16, channels: u8, tasks: u8) -> Option<u8>
    requires { span_of rows channels tasks ≤ length body.now }
    ensures { result ≡ first_of (first_row_bad body.now rows channels) tasks 0 }
{
    let firsts = ROW_SIZE * (rows as usize) + (channels as usize);
    for t in 0..tasks {
        let at = firsts + 2 * (t as usize);
        if !is_target(body, rows, Row(two_of(body[at], body[at + 1]))) {
            return Some(t);
        }
    }
    None
}

// Refusals 26, 27 and 28, over the image from row 0 on.
#[tactic(auto, unfolding(crate::specs::Check::body_checked, crate::specs::Check::refused_at))]
fn check_body(body: &[u8], k: Counts) -> Result<(), ImageFault>
    requires { span_of k.rows k.channels k.tasks ≤ length body.now }
    ensures { result ≡ body_checked body.now k }
{
    if let Some(i) = first_bad_row(body, k.rows, k.channels) {
        return Err(ImageFault::BadRow(Row(i)));
    }
    if let Some(c) = first_bad_capacity(body, k.rows, k.channels) {
        return Err(ImageFault::BadCapacity(Chan(c)));
    }
    match first_bad_first_row(body, k.rows, k.channels, k.tasks) {
        Some(t) => Err(ImageFault::BadFirstRow(Task(t))),
        None => Ok(()),
    }
}

#[tactic(auto, unfolding(crate::specs::Check::counts_good))]
fn counts_good(k: Counts) -> bool
    ensures { result ≡ counts_good k }
{
    1 <= k.rows
        && k.rows <= ROWS
        && k.channels <= CHANS
        && 1 <= k.tasks
        && k.tasks <= TASKS
        && k.back == 8 * k.rows + (k.channels as u16) + 2 * (k.tasks as u16)
}

// Whether a slice ends with a step image, and if not, the refusal with its place. Every slice is answered.
#[tactic(auto, using(crate::specs::Laws::Sound::span_held), unfolding(crate::specs::Check::checked, meaning::specs::Bytes::mark_of, meaning::specs::Bytes::version_of, image_rows::specs::Rows::counts_of))]
pub fn check(image: &[u8]) -> Result<(), ImageFault>
    ensures { result ≡ checked image.now }
{
    let n = image.len();
    if n < TRAILER_SIZE {
        return Err(ImageFault::TooShort);
    }
    let trailer = trailer_of(image);
    if byte_at(trailer, 6) != IMAGE_MARK {
        return Err(ImageFault::BadMark);
    }
    if byte_at(trailer, 7) != IMAGE_VERSION {
        return Err(ImageFault::BadVersion);
    }
    let k = counts_in(trailer);
    if !counts_good(k) {
        return Err(ImageFault::BadCounts);
    }
    if n - TRAILER_SIZE < (k.back as usize) {
        return Err(ImageFault::BadDistance);
    }
    check_body(body_of(image), k)
}
