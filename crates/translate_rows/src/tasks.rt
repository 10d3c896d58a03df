// Pass 1, a whole text: its channels, its tasks, and the refusals in document 01's order; its notes, and the first row of each task.
ghost use Rattle.std.specs.Prelude.{◌≡◌};
ghost use Rattle.text_reader.specs.Answers.{due_told, told_as, count_told, numbered, TaskTold, TasksTold, told_job};
ghost use Rattle.text_reader.specs.Reading.{job, reading};
ghost use Rattle.translate_rows.specs.Noted.{Unmoved, TaskNoted, TasksNoted, JobNoted};

use crate::reading::{STOP_HEAD, note_one, read_body};
use meaning::Row;
use meaning::sizes::TASKS;
use text_jobs::{read_chans, read_task_end, read_task_head};
use text_reader::kinds::TEXT_LIMIT;
use text_reader::{Counted, Fault, JobSize, Position, Refused};
use text_words::first_not_allowed;
use translate_notes::NOTES;

// `task` BODY `end`, where so many are left; nothing where the text has stopped. Its end is noted as a stop.
fn read_task(
    text: &[u8],
    channels: u8,
    from: Position,
    left: u8,
    notes: &mut [u16; NOTES],
) -> Result<Option<Position>, Refused>
    ensures { TaskTold text.now channels from.at from.rows left (told_as result) × TaskNoted text.now channels from.at from.rows left notes.old notes.new × Unmoved notes.old notes.new (told_as result) }
{
    let Some(inside) = read_task_head(text, from, left)? else {
        return Ok(None);
    };
    let body = read_body(text, channels, 0, inside, notes)?;
    note_one(notes, Row(body.rows), STOP_HEAD, 0);
    let end = read_task_end(text, body)?;
    Ok(Some(end))
}

// The tasks of a text, counted, from the position behind its channels; and the first row of each.
fn read_tasks(
    text: &[u8],
    channels: u8,
    from: Position,
    notes: &mut [u16; NOTES],
    firsts: &mut [u16; TASKS as usize],
) -> Result<Counted, Refused>
    ensures { TasksTold text.now channels from.at from.rows (count_told result) × TasksNoted text.now channels from.at from.rows notes.old notes.new firsts.old firsts.new }
{
    let mut behind = from;
    let mut count: u8 = 0;
    while let Some(task) = read_task(text, channels, behind, TASKS - count, notes)? {
        firsts[count as usize] = behind.rows;
        behind = task;
        count = count + 1;
    }
    Ok(Counted { count, behind })
}

// The words of a text from the left: 3 to 10.
fn read_job(
    text: &[u8],
    notes: &mut [u16; NOTES],
    firsts: &mut [u16; TASKS as usize],
) -> Result<JobSize, Refused>
    ensures { (numbered result ≡ told_job (job text.now)) × JobNoted (job text.now) notes.old notes.new firsts.old firsts.new }
{
    let chans = read_chans(text)?;
    let channels = chans.count;
    let all = read_tasks(text, channels, chans.behind, notes, firsts)?;
    if all.count == 0 {
        return Err(Fault::NoTask.at(text.len()));
    }
    Ok(JobSize {
        rows: all.behind.rows,
        channels,
        tasks: all.count,
    })
}

// A text: 1, then 2 over all of it, then its words.
pub(crate) fn read(
    text: &[u8],
    notes: &mut [u16; NOTES],
    firsts: &mut [u16; TASKS as usize],
) -> Result<JobSize, Refused>
    ensures { (numbered result ≡ told_job (reading text.now)) × JobNoted (reading text.now) notes.old notes.new firsts.old firsts.new }
{
    if TEXT_LIMIT < text.len() {
        return Err(Fault::TextTooLong.at(0));
    }
    match first_not_allowed(text) {
        Some(place) => Err(Fault::ByteNotAllowed.at(place)),
        None => read_job(text, notes, firsts),
    }
}
