// All buffers together, a row of cells for each channel, beside the state. A row holds a channel's values, oldest first; the cells
// past its length are 0. What is done to one row is done, and proved, over a lent slice: for rows of any capacity.
#![tactic(auto)]

ghost use Rattle.std.specs.Prelude.{◌≡◌, ◌-◌, length, set, take, drop, replicate};
ghost use Rattle.machine_records.specs.Cells.{over};
ghost use Rattle.machine_records.specs.Values.{oldest, shifted, changed};

use machine_records::Change;
use meaning::Chan;
use meaning::sizes::{CELLS, CHANS};

// The value that a receive would take.
pub fn oldest_in(values: &[[u16; CELLS as usize]; CHANS as usize], c: Chan) -> u16
    ensures { result ≡ oldest values.now c }
{
    values[(c.0 % CHANS) as usize][0]
}

// A value at a place of a row. A row without such a place stays as it is.
pub fn append(row: &mut [u16], at: usize, v: u16)
    ensures { row.new ≡ set row.old at v }
{
    if at < row.len() {
        row[at] = v;
    }
}

// Every value one place ahead, a zero in the last cell.
fn move_up(row: &mut [u16])
    ensures { row.new ≡ over (drop 1 row.old) (replicate (length row.old) 0) }
{
    let size = row.len();
    if 0 < size {
        row.copy_within(1.., 0);
        row[size - 1] = 0;
    }
}

// Zeros from this cell on.
fn clear(row: &mut [u16], from: usize)
    ensures { row.new ≡ over (take from row.old) (replicate (length row.old) 0) }
{
    let size = row.len();
    row[from.min(size)..].fill(0);
}

// A row of len values without the oldest, zeros behind the others.
pub fn shift(row: &mut [u16], len: usize)
    ensures { row.new ≡ shifted row.old len }
{
    move_up(row);
    clear(row, len.saturating_sub(1));
}

// A row of len values without the oldest, and behind the others one more.
fn refill(row: &mut [u16], len: usize, v: u16)
    ensures { row.new ≡ set (shifted row.old len) (len - 1) v }
{
    shift(row, len);
    append(row, len.saturating_sub(1), v);
}

// The values after a turn's change, where they lie.
#[tactic(auto, using(crate::proofs::Rows::refill_law), unfolding(machine_records::specs::Values::changed))]
pub fn store_in(values: &mut [[u16; CELLS as usize]; CHANS as usize], change: Change)
    ensures { values.new ≡ changed values.old change }
{
    match change {
        Change::Keep => {},
        Change::Append(c, len, v) => {
            let k = (c.0 % CHANS) as usize;
            append(&mut values[k], (len % CELLS) as usize, v);
        },
        Change::Take(c, len) => {
            let k = (c.0 % CHANS) as usize;
            shift(&mut values[k], (len % (CELLS + 1)) as usize);
        },
        Change::Refill(c, len, v) => {
            let k = (c.0 % CHANS) as usize;
            refill(&mut values[k], (len % (CELLS + 1)) as usize, v);
        },
    }
}

// The same by value.
pub fn stored(
    values: [[u16; CELLS as usize]; CHANS as usize],
    change: Change,
) -> [[u16; CELLS as usize]; CHANS as usize]
    ensures { result ≡ changed values change }
{
    let mut after = values;
    store_in(&mut after, change);
    after
}
