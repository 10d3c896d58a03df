// The words of a block that no statement begins with: `end` behind what is inside it, and the `case` of a select, with the operation
// that is due behind that word.
#![tactic(auto)]

ghost use Rattle.std.specs.Prelude.{ℕ};
ghost use Rattle.text_reader.specs.Answers.{due_part, case_part, due_told, EndTold, CaseOpTold, CaseHeadTold};

use meaning::Op;
use meaning::sizes::ROWS;
use text_due::misplaced;
use text_heads::read_op;
use text_reader::kinds::{CASE, END};
use text_reader::{CaseHead, Fault, Got, Position, Refused};
use text_words::{Word, word_at};

// The `end` of a block.
pub fn read_end(text: &[u8], from: Position) -> Result<Position, Refused>
    ensures { EndTold text.now from.at from.rows (due_told result) }
{
    let w = word_at(text, from.at);
    if w.kind != END {
        return Err(misplaced(text, w));
    }
    Ok(Position {
        at: w.next,
        rows: from.rows,
    })
}

// The operation of a case, of which the word w has to be the first.
fn case_op(text: &[u8], channels: u8, w: Word) -> Result<Got<Op>, Refused>
    ensures { (rows : ℕ) → CaseOpTold text.now channels rows w (due_part rows result) }
{
    match read_op(text, channels, w)? {
        Some(op) => Ok(op),
        None => Err(misplaced(text, w)),
    }
}

// `case` and its operation, where so many cases are left; nothing where no `case` stands. 6 and 8 are judged at the word `case`, ahead
// of the operation.
pub fn read_case_head(
    text: &[u8],
    channels: u8,
    from: Position,
    left: u8,
) -> Result<Option<CaseHead>, Refused>
    ensures { CaseHeadTold text.now channels from.at from.rows left (case_part result) }
{
    let w = word_at(text, from.at);
    if w.kind != CASE {
        return Ok(None);
    }
    if left == 0 {
        return Err(Fault::OneTooMany.at(w.start));
    }
    if ROWS <= from.rows {
        return Err(Fault::RowsFull.at(w.start));
    }
    let op = case_op(text, channels, word_at(text, w.next))?;
    Ok(Some(CaseHead {
        op: op.value,
        body: Position {
            at: op.next,
            rows: from.rows + 1,
        },
    }))
}
