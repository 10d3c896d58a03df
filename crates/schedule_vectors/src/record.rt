// A state told as bytes: document 02's record of E2 without its trailer, 757 bytes, low byte first. Every byte has one cell or value
// and, the two counts aside, every cell and value has its bytes, so that states are the same where their bytes are.
use image_rows::bytes::{byte_at, two_at};
use machine_store::{
    CHAN_COUNT, CLOSED, FAULT, LAP, LENGTH, NAMED, OK, ORDER, REGISTER, STAMP, STATE_CELLS,
    STATE_WORDS, State, TASK_COUNT, WAITING,
};
use meaning::sizes::{CELLS, CHANS, DEPTH, TASKS};

pub const RECORD_SIZE: usize = 757;

// Fault, task named, stamp (2), waiting count and the order come first, then the tasks, then the channels.
const ORDER_AT: usize = 5;

const TASKS_AT: u32 = 21;

const TASK_SIZE: u32 = 12;

const CHANS_AT: u32 = 213;

const CHAN_SIZE: u32 = 34;

// A place of the order; and a task: status, ok mark, register (2), row (2), six laps.
fn put_task(record: &[u8], t: u8, state: &mut State) {
    let i = (t % TASKS) as usize;
    let at = TASKS_AT + TASK_SIZE * ((t % TASKS) as u32);
    let first = at as usize;
    state.cells[ORDER + i] = byte_at(record, ORDER_AT + i);
    state.cells[i] = byte_at(record, first);
    state.cells[OK + i] = byte_at(record, first + 1);
    state.words[REGISTER + i] = two_at(record, at + 2);
    state.words[i] = two_at(record, at + 4);
    for d in 0..DEPTH as usize {
        state.cells[LAP + (DEPTH as usize) * i + d] = byte_at(record, first + 6 + d);
    }
}

// A channel's closed mark and length.
fn put_chan(record: &[u8], c: u8, state: &mut State) {
    let i = (c % CHANS) as usize;
    let at = (CHANS_AT + CHAN_SIZE * ((c % CHANS) as u32)) as usize;
    state.cells[CLOSED + i] = byte_at(record, at);
    state.cells[LENGTH + i] = byte_at(record, at + 1);
}

// The state that a record tells, with these counts of tasks and channels.
pub(crate) fn state_of(record: &[u8], tasks: u8, channels: u8) -> State {
    let mut state = State {
        words: [0; STATE_WORDS],
        cells: [0; STATE_CELLS],
    };
    state.cells[FAULT] = byte_at(record, 0);
    state.cells[NAMED] = byte_at(record, 1);
    state.words[STAMP] = two_at(record, 2);
    state.cells[WAITING] = byte_at(record, 4);
    state.cells[TASK_COUNT] = tasks;
    state.cells[CHAN_COUNT] = channels;
    for i in 0..TASKS {
        put_task(record, i, &mut state);
        put_chan(record, i, &mut state);
    }
    state
}

// A channel's values, behind its mark and length.
fn row_of(record: &[u8], c: u8) -> [u16; CELLS as usize] {
    let first = CHANS_AT + CHAN_SIZE * (c as u32) + 2;
    let mut row = [0u16; CELLS as usize];
    for k in 0..CELLS {
        row[k as usize] = two_at(record, first + 2 * (k as u32));
    }
    row
}

// The values that a record tells.
pub(crate) fn values_of(record: &[u8]) -> [[u16; CELLS as usize]; CHANS as usize] {
    let mut values = [[0u16; CELLS as usize]; CHANS as usize];
    for c in 0..CHANS {
        values[c as usize] = row_of(record, c);
    }
    values
}
