// The two passes of the translator. Pass 1 reads the text once, decides every refusal and leaves a note for each row; pass 2 writes the
// rows from the notes and never looks at the text.
#![tactic(auto)]

ghost use Rattle.std.specs.Prelude.{◌≡◌, IfOk};
ghost use Rattle.text_reader.specs.Answers.{told_job};
ghost use Rattle.text_reader.specs.Reading.{reading};
ghost use Rattle.translate_rows.specs.Passed.{sizes_of, firsts_of, rows_in};

use crate::laying::lay_body;
use crate::tasks::read;
use meaning::Row;
use meaning::sizes::{ROW_SIZE, TASKS, TRAILER_SIZE};
use text_reader::{JobSize, Refused};
use translate_notes::NOTES;

mod laying;
mod reading;
mod tasks;

// What the two passes answer of a job: its numbers, and the first row of each task, 0 past the last.
#[derive(Clone, Copy)]
pub struct Passed {
    pub size: JobSize,
    pub firsts: [u16; TASKS as usize],
}

// The rows of a text at the buffer's start, where the text is a job and its whole image has room; otherwise the buffer is as it was.
pub fn put_rows(text: &[u8], image: &mut [u8]) -> Result<Passed, Refused>
    ensures { (sizes_of result ≡ told_job (reading text.now)) × IfOk result (λ p. p.firsts ≡ firsts_of (reading text.now)) × (image.new ≡ rows_in image.old (reading text.now)) }
{
    let mut notes = [0u16; NOTES];
    let mut firsts = [0u16; TASKS as usize];
    let size = read(text, &mut notes, &mut firsts)?;
    let length = ROW_SIZE * (size.rows as usize)
        + (size.channels as usize)
        + 2 * (size.tasks as usize)
        + TRAILER_SIZE;
    if length <= image.len() {
        lay_body(&notes, 0, size.rows, Row(0), Row(size.rows), image);
    }
    Ok(Passed { size, firsts })
}
