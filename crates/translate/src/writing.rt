// What stands behind the rows of an image: the capacities, which are read again from the text, two words each; the first rows, as
// pass 1 has found them; the trailer.
ghost use Rattle.std.specs.Prelude.{◌≤◌};
ghost use Rattle.meaning.specs.Numbers.{channel_limit, task_limit, row_limit};
ghost use Rattle.translate.specs.Stored.{CapacitiesStored, FirstsStored, RestStored};

use crate::bytes::{put_byte, put_trailer, put_two};
use meaning::sizes::TASKS;
use text_due::read_number;
use text_reader::JobSize;
use text_reader::kinds::CAPACITY_LIMIT;
use text_words::word_at;

// One byte of capacity for each of so many channels, from byte base on. Pass 1 has accepted each, so that a number is always there.
fn lay_capacities(text: &[u8], channels: u8, base: usize, out: &mut [u8])
    requires { (channels ≤ channel_limit) × (base ≤ 65000) }
    ensures { CapacitiesStored text.now channels base out.old out.new }
{
    let mut at = 0;
    for n in 0..channels {
        let w = word_at(text, at);
        let Ok(capacity) = read_number(text, CAPACITY_LIMIT, w.next) else {
            return;
        };
        put_byte(out, base + (n as usize), capacity.value as u8);
        at = capacity.next;
    }
}

// The first row of each of so many tasks, two bytes each, from byte base on.
fn lay_firsts(firsts: [u16; TASKS as usize], tasks: u8, base: usize, out: &mut [u8])
    requires { (tasks ≤ task_limit) × (base ≤ 65000) }
    ensures { FirstsStored firsts tasks base out.old out.new }
{
    for t in 0..tasks {
        let k = t as usize;
        put_two(out, base + 2 * k, firsts[k]);
    }
}

// All that stands behind the rows of a text that pass 1 has read as a job of this size.
pub(crate) fn lay_rest(text: &[u8], size: JobSize, firsts: [u16; TASKS as usize], out: &mut [u8])
    requires { (size.rows ≤ row_limit) × (size.channels ≤ channel_limit) × (size.tasks ≤ task_limit) }
    ensures { RestStored text.now size.rows size.channels size.tasks firsts out.old out.new }
{
    let capacities = 8 * (size.rows as usize);
    let places = capacities + (size.channels as usize);
    let trailer = places + 2 * (size.tasks as usize);
    lay_capacities(text, size.channels, capacities, out);
    lay_firsts(firsts, size.tasks, places, out);
    put_trailer(out, trailer, size);
}
