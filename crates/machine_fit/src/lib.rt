// Whether a state fits an image, document 01's sentence test by test: refusal 17 is given exactly where this says no. `body` is
// the image from row 0 on and `k` its counts. A state that fits holds nothing in its cells but what its records tell. One walk over
// the waiting order counts how often each task is named, and one walk over the tasks holds each to its count.
#![tactic(auto)]

ghost use Rattle.std.specs.Prelude.{◌≡◌, true, ◌+◌, ◌≤◌, ◌<◌, take, replicate};
ghost use Rattle.machine_records.specs.Fitting.{every, name_fits, length_fits, task_fits, fitting};
ghost use Rattle.machine_store.specs.Store.{records_of};
ghost use Rattle.machine_fit.specs.Fitted.{all_at_most, plainly, fitting_in};
ghost use Rattle.machine_fit.specs.Walks.{Counted, walks_fit};
ghost use Rattle.meaning.specs.Numbers.{task_limit};
ghost use Rattle.meaning_laws.specs.Fits.{times};

use image_rows::Counts;
use image_rows::table::capacity_in;
use machine_place::task_fits;
use machine_store::{CLOSED, OK, STATE_CELLS, State};
use meaning::sizes::{CHANS, TASKS};
use meaning::{Chan, Task};

// The largest number that stands for a status, and for a mark.
const LAST_STATUS: u8 = 2;

const LAST_MARK: u8 = 1;

// Faults are 1 to 4.
const LAST_FAULT: u8 = 4;

// PLAIN CELLS

// Whether the n cells from this place on hold at most `top`. The largest is found ahead of the one test, so that the compiler can
// take sixteen cells at a time.
fn at_most(cells: &[u8; STATE_CELLS], from: usize, n: usize, top: u8) -> bool
    requires { from + n ≤ 181 }
    ensures { result ≡ all_at_most cells.now from n top }
{
    let mut most: u8 = 0;
    for i in 0..n {
        most = most.max(cells[from + i]);
    }
    most <= top
}

// Whether each status, from the first cell on, and each mark is a number that stands for one.
#[tactic(auto, unfolding(crate::specs::Fitted::plainly))]
fn plain(cells: &[u8; STATE_CELLS]) -> bool
    ensures { result ≡ plainly cells.now }
{
    at_most(cells, 0, TASKS as usize, LAST_STATUS)
        && at_most(cells, OK, TASKS as usize, LAST_MARK)
        && at_most(cells, CLOSED, CHANS as usize, LAST_MARK)
}

// THE WALKS

// How often a task stands among the first n of the order, by a walk of its own.
fn times_in(state: &State, n: u8, t: Task) -> u8
    requires { n ≤ task_limit }
    ensures { result ≡ times t (take n (records_of state.now).order) }
{
    let mut w: u8 = 0;
    for i in 0..n {
        if t == state.name(i) {
            w += 1;
        }
    }
    w
}

// How often a task stands among the first n of the order: its cell tells. Where the counts say more than sixteen tasks, as no image
// that passes the check does, two would share a cell, and the order is walked for each.
fn times_of(k: Counts, state: &State, n: u8, named: &[u8; TASKS as usize], t: Task) -> u8
    requires waiting { n ≤ task_limit }
    requires counted { k.tasks ≤ task_limit → Counted named.now (take n (records_of state.now).order) }
    requires below { t.0 < k.tasks }
    ensures { result ≡ times t (take n (records_of state.now).order) }
{
    if TASKS < k.tasks {
        return times_in(state, n, t);
    }
    named[(t.0 % TASKS) as usize]
}

// Whether each task fits, n of them waiting.
#[tactic(auto, unfolding(machine_records::specs::Fitting::every, machine_records::specs::Fitting::task_fits))]
fn tasks_fit(body: &[u8], k: Counts, state: &State, n: u8, named: &[u8; TASKS as usize]) -> bool
    requires waiting { n ≤ task_limit }
    requires all { n ≡ (records_of state.now).waiting }
    requires counted { k.tasks ≤ task_limit → Counted named.now (take n (records_of state.now).order) }
    ensures { result ≡ every (task_fits body.now k (records_of state.now)) k.tasks 0 }
{
    for i in 0..k.tasks {
        let x = state.task(Task(i));
        let times = times_of(k, state, n, named, Task(i));
        let fits = task_fits(body, k.rows, x, times);
        if !fits {
            return false;
        }
    }
    true
}

#[tactic(auto, unfolding(machine_records::specs::Fitting::every, machine_records::specs::Fitting::length_fits))]
fn lengths_fit(body: &[u8], k: Counts, state: &State) -> bool
    ensures { result ≡ every (length_fits body.now k (records_of state.now)) k.channels 0 }
{
    for c in 0..k.channels {
        let channel = state.channel(Chan(c));
        let capacity = capacity_in(body, k.rows, Chan(c));
        if capacity < channel.len {
            return false;
        }
    }
    true
}

// Whether each of the first n names in the order is a task's. The cells of `named`, which begin at 0, then tell how often each task
// is named.
fn names_fit(k: Counts, state: &State, n: u8, named: &mut [u8; TASKS as usize]) -> bool
    requires waiting { n ≤ task_limit }
    requires fresh { named.old ≡ replicate task_limit 0 }
    ensures fit { result ≡ every (name_fits k (records_of state.now)) n 0 }
    ensures counted { result ≡ true → k.tasks ≤ task_limit → Counted named.new (take n (records_of state.now).order) }
{
    for i in 0..n {
        let t = state.name(i);
        if k.tasks <= t.0 {
            return false;
        }
        named[(t.0 % TASKS) as usize] += 1;
    }
    true
}

// The three walks, n tasks waiting: over the order, the channels and the tasks.
fn walks_fit(body: &[u8], k: Counts, state: &State, n: u8) -> bool
    requires waiting { n ≤ task_limit }
    requires all { n ≡ (records_of state.now).waiting }
    ensures { result ≡ walks_fit body.now k (records_of state.now) }
{
    let mut named = [0u8; TASKS as usize];
    names_fit(k, state, n, &mut named)
        && lengths_fit(body, k, state)
        && tasks_fit(body, k, state, n, &named)
}

// Whether the records fit. The tests of single numbers stand first: the walks count on an order of at most sixteen.
#[tactic(auto, unfolding(machine_records::specs::Fitting::fitting))]
fn records_fit(body: &[u8], k: Counts, state: &State) -> bool
    ensures { result ≡ fitting body.now k (records_of state.now) }
{
    let n = state.waiting();
    state.task_count() == k.tasks
        && state.channel_count() == k.channels
        && state.fault() <= LAST_FAULT
        && n <= TASKS
        && walks_fit(body, k, state, n)
}

// Whether a state fits an image, for every body, counts and state.
#[tactic(auto, unfolding(crate::specs::Fitted::fitting_in))]
pub fn fits(body: &[u8], k: Counts, state: &State) -> bool
    ensures { result ≡ fitting_in body.now k state.now.words state.now.cells }
{
    plain(&state.cells) && records_fit(body, k, state)
}
