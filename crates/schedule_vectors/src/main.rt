// Runs stored calls of `schedule`: each argument names a file of blocks (data/README.md has the form). A line for each block says
// whether answer, state and records are the ones stored, or which of them differ; the last line counts.
#![tactic(auto)]

ghost use Rattle.std.specs.Prelude.{◌<◌, length};

use crate::block::{judge, name_line};
use crate::lines::{Difference, next_line, next_told, part, told, word_end};
use std::alloc::Global;
use std::fs::File;
use std::io::{Read, Write};
use std::rt::Files;
use std::{env, io};

mod block;
mod lines;
mod record;

// A file of so many bytes is too long.
const FILE_ROOM: usize = 65536;

// How many blocks were run, and how many of them, or of the files, differ.
#[derive(Clone, Copy)]
struct Tally {
    blocks: u64,
    differ: u64,
}

impl Tally {
    // One more block.
    fn block(&mut self) {
        self.blocks = self.blocks.wrapping_add(1);
    }

    // One more block, or file, that differs.
    fn difference(&mut self) {
        self.differ = self.differ.wrapping_add(1);
    }
}

// WHAT IS SAID

// The line that can't be read by its first word; a line that lacks at the block's end has none.
fn say_unread(out: &mut impl Write, block: &[u8], at: usize) -> io::Result<()> {
    if at < block.len() {
        out.write_all(b" unread line ")?;
        out.write_all(part(block, at, word_end(block, at)))
    } else {
        out.write_all(b" cut short")
    }
}

// In what a block differs.
fn say_difference(out: &mut impl Write, block: &[u8], difference: Difference) -> io::Result<()> {
    match difference {
        Difference::Return => out.write_all(b" return"),
        Difference::State => out.write_all(b" state"),
        Difference::Records => out.write_all(b" records"),
        Difference::Unread(at) => say_unread(out, block, at),
        Difference::OutOfMemory => out.write_all(b" out of memory"),
    }
}

// The line of a block.
fn say(out: &mut impl Write, block: &[u8], verdict: Result<(), Difference>) -> io::Result<()> {
    let name = told(block, name_line(block));
    match verdict {
        Ok(()) => {
            out.write_all(b"ok")?;
            out.write_all(name)?;
        }
        Err(difference) => {
            out.write_all(b"differs")?;
            out.write_all(name)?;
            say_difference(out, block, difference)?;
        }
    }
    out.write_all(b"\n")
}

// A file that is not run, and why.
fn say_file(out: &mut impl Write, path: &str, why: &str) -> io::Result<()> {
    writeln!(out, "differs {path} {why}")
}

// The last line.
fn say_tally(out: &mut impl Write, tally: Tally) -> io::Result<()> {
    writeln!(out, "{} blocks, {} differ", tally.blocks, tally.differ)
}

// THE BLOCKS

// Where the block that begins at `at` ends: ahead of the next line that names one, or with the text.
// Kept, point 3: the walk goes from line to line, so no counted range has its places.
fn block_end(text: &[u8], at: usize) -> usize
    requires { at < length text.now }
    ensures { at < result }
{
    let mut i = next_line(text, at);
    while i < text.len() {
        if part(text, i, word_end(text, i)) == b"==".as_slice() {
            return i;
        }
        i = next_line(text, i);
    }
    i
}

// One block: its verdict said and counted.
fn run_block(
    alloc: Global,
    out: &mut impl Write,
    block: &[u8],
    tally: &mut Tally,
) -> io::Result<()> {
    let verdict = judge(alloc, block);
    tally.block();
    if verdict.is_err() {
        tally.difference();
    }
    say(out, block, verdict)
}

// Every block of a text from `first` on.
// Kept, point 3: the walk goes from block to block, so no counted range has its places.
fn run_blocks(
    alloc: Global,
    out: &mut impl Write,
    text: &[u8],
    first: usize,
    tally: &mut Tally,
) -> io::Result<()> {
    let mut at = first;
    while at < text.len() {
        let end = block_end(text, at);
        run_block(alloc, out, part(text, at, end), tally)?;
        at = end;
    }
    Ok(())
}

// THE FILES

// The first bytes of a file, as many as are told apart. One that can't be opened counts as empty.
fn read<R: Files>(rt: &R, alloc: Global, path: &str) -> io::Result<Vec<u8>> {
    let mut bytes = Vec::new(alloc);
    if let Ok(file) = File::open(rt, path) {
        file.take(FILE_ROOM as u64).read_to_end(&mut bytes)?;
    }
    Ok(bytes)
}

// A file that is too long, and one without a block, as an empty one, don't pass.
fn run_file<R: Files>(
    rt: &R,
    alloc: Global,
    out: &mut impl Write,
    path: &str,
    tally: &mut Tally,
) -> io::Result<()> {
    let text = read(rt, alloc, path)?;
    if text.len() >= FILE_ROOM {
        tally.difference();
        return say_file(out, path, "too long");
    }
    let first = next_told(text.as_slice(), 0);
    if first >= text.len() {
        tally.difference();
        return say_file(out, path, "without a block");
    }
    run_blocks(alloc, out, text.as_slice(), first, tally)
}

// Runs every file named, in order.
fn main(rt: HostRuntime) -> io::Result<()> {
    let mut out = io::writer(&rt);
    let mut tally = Tally {
        blocks: 0,
        differ: 0,
    };
    for path in env::args(&rt)?.skip(1) {
        run_file(&rt, rt.alloc(), &mut out, path.as_str(), &mut tally)?;
    }
    say_tally(&mut out, tally)
}
