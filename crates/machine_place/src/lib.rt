// Whether one task, so often named in the waiting order, stands as a state that fits has it. `body` is the image from row 0 on.
#![tactic(auto)]

ghost use Rattle.std.specs.Prelude.{◌≡◌};
ghost use Rattle.machine_records.specs.Fitting.{can_wait};
ghost use Rattle.machine_place.specs.Places.{place_named, record_named};
ghost use Rattle.meaning.specs.Bytes.{rows_in};

use image_row::is_target;
use image_rows::table::fields_of_row;
use machine_records::TaskState;
use meaning::{Row, Status};

// Whether the operation of a row can wait. Its op tells, so that no statement is made of it: send, forward and recv are 1 to 3,
// range is 5, and a select, 8, waits unless it has a default.
#[tactic(auto, using(crate::proofs::Laws::op_waits_lem), unfolding(meaning::specs::Bytes::rows_in))]
fn can_wait(body: &[u8], row: Row) -> bool
    ensures { result ≡ can_wait (rows_in body.now row) }
{
    let f = fields_of_row(body, row);
    if f.op < 4 {
        return 0 < f.op;
    }
    if f.op == 8 {
        return f.arg != 1;
    }
    f.op == 5
}

// Whether a task of this status, at this row and so often named, stands in the order as it should.
fn place_fits(body: &[u8], row: Row, status: Status, named: u8) -> bool
    ensures { result ≡ place_named body.now row status named }
{
    match status {
        Status::Waiting => named == 1 && can_wait(body, row),
        Status::Able | Status::Ended => named == 0,
    }
}

// Whether a task that stands as x and is so often named fits.
pub fn task_fits(body: &[u8], rows: u16, x: TaskState, named: u8) -> bool
    ensures { result ≡ record_named body.now rows x named }
{
    is_target(body, rows, x.row) && place_fits(body, x.row, x.status, named)
}
