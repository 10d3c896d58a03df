// The words of a job that stand in no body: the channels, and `task` and `end` around each body.
#![tactic(auto)]

ghost use Rattle.text_reader.specs.Answers.{part_of, due_told, told_as, count_told, ChanTold, ChansTold, TaskHeadTold, TaskEndTold};

use meaning::sizes::{CHANS, ROWS};
use text_due::{misplaced, read_number};
use text_reader::kinds::{CAPACITY_LIMIT, CHAN, END, TASK};
use text_reader::{Counted, Fault, Got, Position, Refused};
use text_words::{NO_WORD, word_at};

// `chan CAP`, where so many are left: the capacity; nothing where no `chan` stands.
pub fn read_chan(text: &[u8], at: usize, left: u8) -> Result<Option<Got<u16>>, Refused>
    ensures { ChanTold text.now at left (part_of 0 result) }
{
    let w = word_at(text, at);
    if w.kind != CHAN {
        return Ok(None);
    }
    if left == 0 {
        return Err(Fault::OneTooMany.at(w.start));
    }
    let capacity = read_number(text, CAPACITY_LIMIT, w.next)?;
    Ok(Some(capacity))
}

// The channels of a text, counted. They need no row.
pub fn read_chans(text: &[u8]) -> Result<Counted, Refused>
    ensures { ChansTold text.now (count_told result) }
{
    let mut at = 0;
    let mut count: u8 = 0;
    while let Some(capacity) = read_chan(text, at, CHANS - count)? {
        at = capacity.next;
        count = count + 1;
    }
    let behind = Position { at, rows: 0 };
    Ok(Counted { count, behind })
}

// `task`, where so many are left; nothing where the text has stopped, and 3 at any other word.
pub fn read_task_head(text: &[u8], from: Position, left: u8) -> Result<Option<Position>, Refused>
    ensures { TaskHeadTold text.now from.at from.rows left (told_as result) }
{
    let w = word_at(text, from.at);
    if w.kind == NO_WORD {
        return Ok(None);
    }
    if w.kind != TASK {
        return Err(Fault::WordOutOfPlace.at(w.start));
    }
    if left == 0 {
        return Err(Fault::OneTooMany.at(w.start));
    }
    Ok(Some(Position {
        at: w.next,
        rows: from.rows,
    }))
}

// The `end` of a task, which needs a row.
pub fn read_task_end(text: &[u8], from: Position) -> Result<Position, Refused>
    ensures { TaskEndTold text.now from.at from.rows (due_told result) }
{
    let end = word_at(text, from.at);
    if end.kind != END {
        return Err(misplaced(text, end));
    }
    if ROWS <= from.rows {
        return Err(Fault::RowsFull.at(end.start));
    }
    Ok(Position {
        at: end.next,
        rows: from.rows + 1,
    })
}
