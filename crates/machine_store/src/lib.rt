// The machine's state where it lies: two arrays of numbers, lent and changed in place. The functions of this crate and of
// machine_order alone know the places, but for machine_fit's test of statuses and marks; what they do is said over `records_in`, the
// records that the two arrays read as. Task and channel numbers count by their remainder, so that every function answers every value.
#![tactic(auto)]

ghost use Rattle.std.specs.Prelude.{◌≡◌, ◌%◌, length, slice_index_or};
ghost use Rattle.meaning.specs.Image.{task_no};
ghost use Rattle.meaning.specs.Numbers.{task_limit};
ghost use Rattle.machine_records.specs.Records.{task_in, chan_in, lap_of, halted, ticked, with_counts, with_chan, task_got, task_went, task_stood, task_lapped};
ghost use Rattle.machine_records.specs.Plans.{did};
ghost use Rattle.machine_store.specs.Store.{records_of, RowIn, Made, MadeTurn};

use machine_records::{ChanState, Change, Moved, TaskState};
use meaning::sizes::{CHANS, DEPTH, TASKS};
use meaning::{Chan, Event, Row, Status, Task};

// Of `words`: each task's row, then each task's register, then the stamp.
pub const REGISTER: usize = TASKS as usize;

pub const STAMP: usize = REGISTER + (TASKS as usize);

pub const STATE_WORDS: usize = STAMP + 1;

// Of `cells`: each task's status and ok mark, the order, each channel's closed mark and length, six laps a task, and five numbers.
pub const OK: usize = TASKS as usize;

pub const ORDER: usize = OK + (TASKS as usize);

pub const CLOSED: usize = ORDER + (TASKS as usize);

pub const LENGTH: usize = CLOSED + (CHANS as usize);

pub const LAP: usize = LENGTH + (CHANS as usize);

pub const WAITING: usize = LAP + (DEPTH as usize) * (TASKS as usize);

pub const FAULT: usize = WAITING + 1;

pub const NAMED: usize = FAULT + 1;

pub const TASK_COUNT: usize = NAMED + 1;

pub const CHAN_COUNT: usize = TASK_COUNT + 1;

pub const STATE_CELLS: usize = CHAN_COUNT + 1;

// The state as its callers hold it. In one that fits an image a status is 0 to 2 and a mark 0 or 1, so that the cells hold nothing
// but what the records tell; every turn keeps that.
#[derive(Clone, Copy)]
pub struct State {
    pub words: [u16; STATE_WORDS],
    pub cells: [u8; STATE_CELLS],
}

// READING

// The row of task t, by the words alone.
pub fn row_in(words: &[u16; STATE_WORDS], t: Task) -> Row
    ensures { RowIn words.now t result }
{
    Row(words[(t.0 % TASKS) as usize])
}

#[tactic(auto, unfolding(crate::specs::Store::records_in))]
impl State {
    pub fn task(&self, t: Task) -> TaskState
        ensures { result ≡ task_in (records_of self.now).tasks t }
    {
        let i = (t.0 % TASKS) as usize;
        let k = LAP + (DEPTH as usize) * i;
        TaskState {
            status: Status::from(self.cells[i]),
            ok: self.cells[OK + i] != 0,
            register: self.words[REGISTER + i],
            row: Row(self.words[i]),
            laps: [
                self.cells[k],
                self.cells[k + 1],
                self.cells[k + 2],
                self.cells[k + 3],
                self.cells[k + 4],
                self.cells[k + 5],
            ],
        }
    }

    // The laps that task t has begun in the repeat at depth d.
    pub fn lap(&self, t: Task, d: u8) -> u8
        ensures { result ≡ lap_of (task_in (records_of self.now).tasks t) d }
    {
        let i = (t.0 % TASKS) as usize;
        let k = (d % DEPTH) as usize;
        self.cells[LAP + (DEPTH as usize) * i + k]
    }

    pub fn channel(&self, c: Chan) -> ChanState
        ensures { result ≡ chan_in (records_of self.now).chans c }
    {
        let i = (c.0 % CHANS) as usize;
        ChanState {
            closed: self.cells[CLOSED + i] != 0,
            len: self.cells[LENGTH + i],
        }
    }

    // The task at place i of the order.
    pub fn name(&self, i: u8) -> Task
        ensures { result ≡ slice_index_or (records_of self.now).order (i % task_limit) (task_no 0) }
    {
        Task(self.cells[ORDER + (i % TASKS) as usize])
    }

    pub fn waiting(&self) -> u8
        ensures { result ≡ (records_of self.now).waiting }
    {
        self.cells[WAITING]
    }

    pub fn fault(&self) -> u8
        ensures { result ≡ (records_of self.now).fault }
    {
        self.cells[FAULT]
    }

    pub fn named(&self) -> Task
        ensures { result ≡ (records_of self.now).named }
    {
        Task(self.cells[NAMED])
    }

    pub fn task_count(&self) -> u8
        ensures { result ≡ (records_of self.now).taskcount }
    {
        self.cells[TASK_COUNT]
    }

    pub fn channel_count(&self) -> u8
        ensures { result ≡ (records_of self.now).chancount }
    {
        self.cells[CHAN_COUNT]
    }

    pub fn stamp(&self) -> u16
        ensures { result ≡ (records_of self.now).stamp }
    {
        self.words[STAMP]
    }
}

// CHANGING

impl State {
    // The task has received v, with this mark, and moves on.
    pub fn got(&mut self, t: Task, v: u16, ok: bool, row: Row)
        ensures { Made self.old self.new (λ s. task_got s t v ok row) }
    {
        let i = (t.0 % TASKS) as usize;
        self.words[i] = row.0;
        self.words[REGISTER + i] = v;
        self.cells[i] = u8::from(Status::Able);
        self.cells[OK + i] = u8::from(ok);
    }

    // The task moves on, its register and mark kept.
    pub fn went(&mut self, t: Task, row: Row)
        ensures { Made self.old self.new (λ s. task_went s t row) }
    {
        let i = (t.0 % TASKS) as usize;
        self.words[i] = row.0;
        self.cells[i] = u8::from(Status::Able);
    }

    // The task stays where it is, with another status.
    pub fn stood(&mut self, t: Task, status: Status)
        ensures made { Made self.old self.new (λ s. task_stood s t status) }
        ensures words { self.new.words ≡ self.old.words }
    {
        self.cells[(t.0 % TASKS) as usize] = u8::from(status);
    }

    // So many laps are begun in the repeat at depth d.
    pub fn lapped(&mut self, t: Task, d: u8, laps: u8)
        ensures made { Made self.old self.new (λ s. task_lapped s t d laps) }
        ensures words { self.new.words ≡ self.old.words }
    {
        let i = (t.0 % TASKS) as usize;
        let k = (d % DEPTH) as usize;
        self.cells[LAP + (DEPTH as usize) * i + k] = laps;
    }

    pub fn put_channel(&mut self, c: Chan, x: ChanState)
        ensures made { Made self.old self.new (λ s. with_chan s c x) }
        ensures words { self.new.words ≡ self.old.words }
    {
        let i = (c.0 % CHANS) as usize;
        self.cells[CLOSED + i] = u8::from(x.closed);
        self.cells[LENGTH + i] = x.len;
    }

    // The halt record.
    pub fn halt(&mut self, fault: u8, t: Task)
        ensures made { Made self.old self.new (λ s. halted s fault t) }
        ensures words { self.new.words ≡ self.old.words }
    {
        self.cells[FAULT] = fault;
        self.cells[NAMED] = t.0;
    }

    // The image's counts of tasks and channels.
    pub fn put_counts(&mut self, tasks: u8, channels: u8)
        ensures made { Made self.old self.new (λ s. with_counts s tasks channels) }
        ensures words { self.new.words ≡ self.old.words }
    {
        self.cells[TASK_COUNT] = tasks;
        self.cells[CHAN_COUNT] = channels;
    }

    // "65,535 is followed by 0."
    pub fn tick(&mut self)
        ensures made { Made self.old self.new (λ s. ticked s) }
        ensures cells { self.new.cells ≡ self.old.cells }
    {
        self.words[STAMP] = self.words[STAMP].wrapping_add(1);
    }
    // The turn is done: the stamp rises, and this is what it answers.
    pub fn done(&mut self, event: Event, change: Change) -> Moved
        ensures { MadeTurn self.old self.new result (λ s. did event s change) }
    {
        self.tick();
        Moved { event, change }
    }
}
