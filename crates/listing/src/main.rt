// The listing program: standard input in, its listing out, line by line. What the lines are is decided in crate `listing_session`.
#![tactic(auto)]

use listing_answer::{IMAGE_ROOM, INPUT_ROOM};
use listing_session::{begin, line_count, next};
use machine::fresh_values;
use machine_buffer::store_in;
use std::io;
use std::io::{Read, Write};

// Each line is written as soon as it is known, so that of a listing that can't be written to its end the beginning stands.
fn list(out: &mut impl Write, input: &[u8]) -> io::Result<()> {
    let mut image = [0u8; IMAGE_ROOM];
    let mut session = begin(input, &mut image);
    let mut values = fresh_values();
    for i in 0..line_count(session) {
        let listed = next(input, &image, i, session, values);
        out.write_all(listed.line.text())?;
        store_in(&mut values, listed.change);
        session = listed.session;
    }
    Ok(())
}

// One byte more than an input may have is read, and nothing behind it: that one says that the input is too long.
fn main(rt: HostRuntime) -> io::Result<()> {
    let mut input = Vec::new(rt.alloc());
    rt.reader().take(INPUT_ROOM as u64).read_to_end(&mut input)?;
    list(&mut io::writer(&rt), input.as_slice())
}
