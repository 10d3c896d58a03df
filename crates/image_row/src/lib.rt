// One row of an image, judged: document 01, 'What comes back'. Whoever walks over rows asks here, in whatever order: the check all of
// them, one after another, the fit for targets alone. Every slice is answered; a slice that does not hold every row has none that
// passes, so that the lines of the table, below, count on every row being there.
#![tactic(auto)]

ghost use Rattle.std.specs.Prelude.{◌≡◌};
ghost use Rattle.meaning.specs.Bytes.{statement_of, fields_of_row};
ghost use Rattle.image_row.specs.Row.{is_target, owed_after, row_passes};

mod fields;
mod table;

use fields::Held;
use meaning::Row;
use meaning::ops::RowKind;
use meaning::sizes::ROW_SIZE;
use table::Judged;

// Whether a target is a row and no case row. A row that the slice does not hold has op 0 and is no case row.
#[tactic(auto, unfolding(crate::specs::Row::is_target, crate::specs::Row::is_case_row), using(crate::proofs::Laws::cut_row))]
pub fn is_target(body: &[u8], rows: u16, r: Row) -> bool
    ensures { result ≡ is_target body.now rows r }
{
    if rows <= r.0 {
        return false;
    }
    if ROW_SIZE * (r.0 as usize) + ROW_SIZE <= body.len() {
        !Held { body, at: r }.is_case()
    } else {
        true
    }
}

// How many of a select's case rows are still to come behind row i, where so many were ahead of it. Behind a row that the slice does
// not hold there are none.
#[tactic(auto, unfolding(crate::specs::Row::is_case_row), using(crate::proofs::Laws::cut_row, crate::specs::Laws::Table::owed_behind_lem))]
pub fn owed_behind(body: &[u8], i: Row, owed: u8) -> u8
    ensures { result ≡ owed_after owed (statement_of (fields_of_row body.now i)) }
{
    if body.len() < ROW_SIZE * (i.0 as usize) + ROW_SIZE {
        return 0;
    }
    let row = Held { body, at: i };
    if row.op() == u8::from(RowKind::Select) {
        return row.chan();
    }
    if row.is_case() {
        owed.saturating_sub(1)
    } else {
        0
    }
}

// Whether row i of so many passes: the slice holds every row, this is one of them, and it is good, where so many of a select's case
// rows were still to come ahead of it.
#[tactic(auto, unfolding(crate::specs::Row::row_passes))]
pub fn row_passes(body: &[u8], rows: u16, channels: u8, i: Row, owed: u8) -> bool
    ensures { result ≡ row_passes body.now rows channels i owed }
{
    if body.len() < ROW_SIZE * (rows as usize) {
        return false;
    }
    if rows <= i.0 {
        return false;
    }
    let row = Judged {
        row: Held { body, at: i },
        rows,
        channels,
    };
    row.good(owed)
}
