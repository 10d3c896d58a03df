// Pass 1, bodies: read by functions that call each other as the definitions do, and noted. A statement or case that holds others is
// noted behind them, once all of its rows are known, so that every note is stored once. `depth` is the number of blocks around the
// body that is read; it needs no stack but the calls themselves, at most six blocks deep. Every refusal is decided below, in text_heads
// and text_blocks.
ghost use Rattle.std.specs.Prelude.{◌≡◌, ◌<◌, ◌≤◌};
ghost use Rattle.meaning.specs.Numbers.{row_limit};
ghost use Rattle.text_reader.specs.Answers.{due_told, told_as, count_told, BodyTold, BlockTold, SecondTold, IfokTold, CaseTold, CasesTold, LastTold, SelectTold, StmtTold};
ghost use Rattle.translate_notes.specs.Notes.{noted};
ghost use Rattle.translate_rows.specs.Noted.{BodyNoted, StmtNoted, BlockNoted, SecondNoted, IfokNoted, SelectNoted, CaseNoted, CasesNoted, LastNoted, Unmoved};

use meaning::Row;
use meaning::sizes::CASES;
use text_blocks::{read_case_head, read_end};
use text_heads::read_head;
use text_reader::kinds::{DEFAULT, ELSE};
use text_reader::{Counted, Head, Position, Refused};
use text_words::word_at;
use translate_notes::{NOTES, RowNote, case_head, head_of, note, op_arg, op_head};

// The ops of the rows that are no operation's, and the first number of those rows that have no chan.
const CLOSE_OP: u8 = 4;

const RANGE_OP: u8 = 5;

const REPEAT_OP: u8 = 6;

const IFOK_HEAD: u16 = 7;

const SELECT_OP: u8 = 8;

pub(crate) const STOP_HEAD: u16 = 12;

// A statement of one row is noted.
pub(crate) fn note_one(notes: &mut [u16; NOTES], row: Row, head: u16, arg: u16)
    ensures { notes.new ≡ noted notes.old row.0 head arg 1 }
{
    note(notes, row, RowNote { head, arg, size: 1 });
}

// A body and the `end` of its block, whose row and note are told.
#[cycle(reading)]
fn read_block(
    text: &[u8],
    channels: u8,
    depth: u8,
    from: Position,
    row: Row,
    head: u16,
    arg: u16,
    notes: &mut [u16; NOTES],
) -> Result<Position, Refused>
    requires { (row.0 < from.rows) × (row.0 < row_limit) }
    ensures { BlockTold text.now channels depth from.at from.rows (due_told result) × BlockNoted text.now channels depth from.at from.rows row.0 head arg notes.old notes.new }
{
    let body = read_body(text, channels, depth, from, notes)?;
    let size = body.rows - row.0;
    note(notes, row, RowNote { head, arg, size });
    read_end(text, body)
}

// Behind the first body of the ifok at a row: `else` and a second, or none.
#[cycle(reading)]
fn read_second(
    text: &[u8],
    channels: u8,
    depth: u8,
    from: Position,
    row: Row,
    notes: &mut [u16; NOTES],
) -> Result<Position, Refused>
    requires { (row.0 < from.rows) × (row.0 < row_limit) }
    ensures { SecondTold text.now channels depth from.at from.rows (due_told result) × SecondNoted text.now channels depth from.at from.rows row.0 notes.old notes.new }
{
    let w = word_at(text, from.at);
    let size = from.rows - row.0;
    let arg = size - 1;
    let head = IFOK_HEAD;
    if w.kind == ELSE {
        let second = Position { at: w.next, ..from };
        return read_block(text, channels, depth, second, row, head, arg, notes);
    }
    note(notes, row, RowNote { head, arg, size });
    read_end(text, from)
}

// The inside of ifok, whose row is the one ahead.
#[cycle(reading)]
fn read_ifok(
    text: &[u8],
    channels: u8,
    depth: u8,
    from: Position,
    notes: &mut [u16; NOTES],
) -> Result<Position, Refused>
    requires { (0 < from.rows) × (from.rows ≤ row_limit) }
    ensures { IfokTold text.now channels depth from.at from.rows (due_told result) × IfokNoted text.now channels depth from.at from.rows notes.old notes.new }
{
    let body = read_body(text, channels, depth, from, notes)?;
    read_second(text, channels, depth, body, Row(from.rows - 1), notes)
}

// `case`, its operation and its body, where so many cases are left; nothing where no `case` stands.
#[cycle(reading)]
fn read_case(
    text: &[u8],
    channels: u8,
    depth: u8,
    from: Position,
    left: u8,
    notes: &mut [u16; NOTES],
) -> Result<Option<Position>, Refused>
    ensures { CaseTold text.now channels depth from.at from.rows left (told_as result) × CaseNoted text.now channels depth from.at from.rows left notes.old notes.new × Unmoved notes.old notes.new (told_as result) }
{
    let Some(case) = read_case_head(text, channels, from, left)? else {
        return Ok(None);
    };
    let body = read_body(text, channels, depth, case.body, notes)?;
    let head = case_head(case.op);
    let arg = op_arg(case.op);
    let size = body.rows - from.rows;
    note(notes, Row(from.rows), RowNote { head, arg, size });
    Ok(Some(body))
}

// The cases of a select, counted: the place behind the last one, where `default` or `end` is due.
#[cycle(reading)]
fn read_cases(
    text: &[u8],
    channels: u8,
    depth: u8,
    from: Position,
    notes: &mut [u16; NOTES],
) -> Result<Counted, Refused>
    ensures { CasesTold text.now channels depth from.at from.rows (count_told result) × CasesNoted text.now channels depth from.at from.rows notes.old notes.new }
{
    let mut behind = from;
    let mut count: u8 = 0;
    while let Some(case) = read_case(text, channels, depth, behind, CASES - count, notes)? {
        behind = case;
        count = count + 1;
    }
    Ok(Counted { count, behind })
}

// Behind the n cases of the select at a row: `default` and its body, or nothing; and the note of the select.
#[cycle(reading)]
fn read_last(
    text: &[u8],
    channels: u8,
    depth: u8,
    from: Position,
    row: Row,
    n: u8,
    notes: &mut [u16; NOTES],
) -> Result<Position, Refused>
    requires { (row.0 < from.rows) × (row.0 < row_limit) }
    ensures { LastTold text.now channels depth from.at from.rows (due_told result) × LastNoted text.now channels depth from.at from.rows row.0 n notes.old notes.new }
{
    let w = word_at(text, from.at);
    let head = head_of(SELECT_OP, n);
    if w.kind == DEFAULT {
        let inside = Position { at: w.next, ..from };
        let body = read_body(text, channels, depth, inside, notes)?;
        let arg = body.rows - from.rows + 1;
        let size = body.rows - row.0;
        note(notes, row, RowNote { head, arg, size });
        return Ok(body);
    }
    let size = from.rows - row.0;
    note(notes, row, RowNote { head, arg: 0, size });
    Ok(from)
}

// The inside of select, whose row is the one ahead.
#[cycle(reading)]
fn read_select(
    text: &[u8],
    channels: u8,
    depth: u8,
    from: Position,
    notes: &mut [u16; NOTES],
) -> Result<Position, Refused>
    requires { (0 < from.rows) × (from.rows ≤ row_limit) }
    ensures { SelectTold text.now channels depth from.at from.rows (due_told result) × SelectNoted text.now channels depth from.at from.rows notes.old notes.new }
{
    let cases = read_cases(text, channels, depth, from, notes)?;
    let row = Row(from.rows - 1);
    let last = read_last(text, channels, depth, cases.behind, row, cases.count, notes)?;
    read_end(text, last)
}

// One statement; nothing where no statement begins.
#[cycle(reading)]
fn read_stmt(
    text: &[u8],
    channels: u8,
    depth: u8,
    from: Position,
    notes: &mut [u16; NOTES],
) -> Result<Option<Position>, Refused>
    ensures { StmtTold text.now channels depth from.at from.rows (told_as result) × StmtNoted text.now channels depth from.at from.rows notes.old notes.new × Unmoved notes.old notes.new (told_as result) }
{
    let Some(first) = read_head(text, channels, depth, from)? else {
        return Ok(None);
    };
    let row = Row(from.rows);
    let inside = Position {
        at: first.next,
        rows: from.rows + 1,
    };
    match first.value {
        Head::Operate(o) => {
            note_one(notes, row, op_head(o), op_arg(o));
            Ok(Some(inside))
        }
        Head::Close(p) => {
            let head = head_of(CLOSE_OP, u8::from(p));
            note_one(notes, row, head, 0);
            Ok(Some(inside))
        }
        Head::Stop => {
            note_one(notes, row, STOP_HEAD, 0);
            Ok(Some(inside))
        }
        Head::Range(p) => {
            let head = head_of(RANGE_OP, u8::from(p));
            let end = read_block(text, channels, depth + 1, inside, row, head, 0, notes)?;
            Ok(Some(end))
        }
        Head::Repeat(n) => {
            let head = head_of(REPEAT_OP, depth);
            let end = read_block(text, channels, depth + 1, inside, row, head, n, notes)?;
            Ok(Some(end))
        }
        Head::Ifok => Ok(Some(read_ifok(text, channels, depth + 1, inside, notes)?)),
        Head::Select => Ok(Some(read_select(text, channels, depth + 1, inside, notes)?)),
    }
}

// The statements from a position on, up to the first word that begins none.
#[cycle(reading)]
pub(crate) fn read_body(
    text: &[u8],
    channels: u8,
    depth: u8,
    from: Position,
    notes: &mut [u16; NOTES],
) -> Result<Position, Refused>
    ensures { BodyTold text.now channels depth from.at from.rows (due_told result) × BodyNoted text.now channels depth from.at from.rows notes.old notes.new }
{
    let mut behind = from;
    while let Some(next) = read_stmt(text, channels, depth, behind, notes)? {
        behind = next;
    }
    Ok(behind)
}
