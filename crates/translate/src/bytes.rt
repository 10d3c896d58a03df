// What stands behind the rows: single bytes, two-byte numbers low byte first, and the trailer. A byte behind the buffer's end is not
// stored.
ghost use Rattle.std.specs.Prelude.{◌≡◌, ◌≤◌, set};
ghost use Rattle.std.proofs.lemmas.List.Edits.{sets};
ghost use Rattle.meaning.specs.Bytes.{two, trailer};
ghost use Rattle.meaning.specs.Numbers.{channel_limit, task_limit, row_limit};

use meaning::sizes::{IMAGE_MARK, IMAGE_VERSION};
use text_reader::JobSize;

pub fn put_byte(out: &mut [u8], i: usize, b: u8)
    ensures { out.new ≡ set out.old i b }
{
    if i < out.len() {
        out[i] = b;
    }
}

pub fn put_two(out: &mut [u8], i: usize, n: u16)
    requires { i ≤ 65536 }
    ensures { out.new ≡ sets out.old i (two n) }
{
    put_byte(out, i, (n % 256) as u8);
    put_byte(out, i + 1, (n / 256 % 256) as u8);
}

// The trailer of the image of a job of this size, from byte i on.
pub fn put_trailer(out: &mut [u8], i: usize, size: JobSize)
    requires { (i ≤ 65000) × (size.rows ≤ row_limit) × (size.channels ≤ channel_limit) × (size.tasks ≤ task_limit) }
    ensures { out.new ≡ sets out.old i (trailer size.rows size.channels size.tasks) }
{
    let body = 8 * size.rows + (size.channels as u16) + 2 * (size.tasks as u16);
    put_two(out, i, size.rows);
    put_byte(out, i + 2, size.channels);
    put_byte(out, i + 3, size.tasks);
    put_two(out, i + 4, body);
    put_byte(out, i + 6, IMAGE_MARK);
    put_byte(out, i + 7, IMAGE_VERSION);
}
