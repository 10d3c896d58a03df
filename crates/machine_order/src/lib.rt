// The waiting order where it lies: sixteen cells of the state, of which the first hold the waiting tasks, longest first, and the
// rest are 0. A task joins it, leaves it, or all of it is put anew.
#![tactic(auto)]

ghost use Rattle.std.specs.Prelude.{◌≡◌};
ghost use Rattle.machine_records.specs.Records.{with_order, joined, left};
ghost use Rattle.machine_store.specs.Store.{Made};

use machine_store::{ORDER, State, WAITING};
use meaning::Task;
use meaning::sizes::TASKS;

// The task waits, behind all others.
pub fn join(state: &mut State, t: Task)
    ensures made { Made state.old state.new (λ s. joined s t) }
    ensures words { state.new.words ≡ state.old.words }
{
    let n = state.cells[WAITING] % TASKS;
    state.cells[ORDER + (n as usize)] = t.0;
    state.cells[WAITING] = n + 1;
}

// These tasks stand in the order's cells, and so many of them wait.
pub fn put_order(state: &mut State, order: [Task; TASKS as usize], n: u8)
    ensures made { Made state.old state.new (λ s. with_order s order n) }
    ensures words { state.new.words ≡ state.old.words }
{
    for i in 0..(TASKS as usize) {
        state.cells[ORDER + i] = order[i].0;
    }
    state.cells[WAITING] = n;
}

// The task waits no longer.
pub fn leave(state: &mut State, t: Task)
    ensures made { Made state.old state.new (λ s. left s t) }
    ensures words { state.new.words ≡ state.old.words }
{
    let mut kept = [Task(0); TASKS as usize];
    let mut w: u8 = 0;
    for i in 0..(state.waiting() % (TASKS + 1)) {
        let x = state.name(i);
        let stays = t != x;
        if stays {
            kept[w as usize] = x;
            w += 1;
        }
    }
    put_order(state, kept, w);
}
