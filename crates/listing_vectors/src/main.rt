// Runs the stored cases: each argument names one, NAME.in with an input and NAME.out with its listing. A line says whether what is
// listed is what is stored, or at which byte the two part.
#![tactic(auto)]

ghost use Rattle.std.specs.Prelude.{◌+◌, ◌≤◌, length};

use listing_answer::{IMAGE_ROOM, INPUT_ROOM};
use listing_session::{begin, line_count, next};
use machine::fresh_values;
use machine_buffer::store_in;
use std::fs::File;
use std::io::Read;
use std::rt::Files;
use std::{env, io};

// The longest name of a case, and how many bytes of a stored listing are read.
const NAME_LIMIT: usize = 124;

const LISTING_ROOM: usize = 65536;

// THE COMPARISON

// How many bytes of a line stand in the expected listing from place `at` on.
fn found(expected: &[u8], at: usize, line: &[u8]) -> usize
    requires { at ≤ length expected.now }
    ensures { at + result ≤ length expected.now }
{
    let there = &expected[at..];
    let pairs = there.iter().zip(line);
    pairs.take_while(|(a, b)| a == b).count()
}

// The first byte at which an input's listing differs from the expected one.
fn first_difference(input: &[u8], expected: &[u8]) -> Option<usize> {
    let mut image = [0u8; IMAGE_ROOM];
    let mut session = begin(input, &mut image);
    let mut values = fresh_values();
    let mut at = 0;
    for i in 0..line_count(session) {
        let listed = next(input, &image, i, session, values);
        let line = listed.line.text();
        let k = found(expected, at, line);
        at += k;
        if k < line.len() {
            return Some(at);
        }
        store_in(&mut values, listed.change);
        session = listed.session;
    }
    if at < expected.len() { Some(at) } else { None }
}

// THE FILES

// The first bytes of a file, at most so many. One that can't be opened counts as empty, which no listing is.
fn read<R: Files + Alloc>(rt: &R, path: &str, most: usize) -> io::Result<Vec<u8, R::A>> {
    let mut bytes = Vec::new(rt.alloc());
    if let Ok(file) = File::open(rt, path) {
        file.take(most as u64).read_to_end(&mut bytes)?;
    }
    Ok(bytes)
}

fn say(rt: &impl Print, difference: Option<usize>, name: &str) -> io::Result<()> {
    match difference {
        None => println!(rt; "ok {name}"),
        Some(at) => println!(rt; "differs {name} at byte {at}"),
    }
}

fn run_case<R: Files + Print + Alloc>(rt: &R, name: &str) -> io::Result<()> {
    let input_path = format!(in rt.alloc(); "{name}.in")?;
    let input = read(rt, input_path.as_str(), INPUT_ROOM)?;
    let expected_path = format!(in rt.alloc(); "{name}.out")?;
    let expected = read(rt, expected_path.as_str(), LISTING_ROOM)?;
    let difference = first_difference(input.as_slice(), expected.as_slice());
    say(rt, difference, name)
}

// A longer name is passed over, and its line is then missing.
fn main(rt: HostRuntime) -> io::Result<()> {
    for name in env::args(&rt)?.skip(1) {
        if name.len() <= NAME_LIMIT {
            run_case(&rt, name.as_str())?;
        }
    }
    Ok(())
}
