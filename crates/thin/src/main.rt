// Shows the two thin forms on the worked listing of document 01, one line for each answer. The image of its job is opened and
// asked, once as it is and three times with a fault in it; then a channel is appended to and taken from, at its limits too.
#![tactic(auto)]

use image_check::ImageFault;
use image_put::fields_of;
use meaning::{Chan, Row, Statement, Task};
use std::io;
use thin_channel::Channel;
use thin_image::answers_of;

// The image of `chan 1  task send 0 7 send 0 9 close 0 end  task range 0 end end`, behind three bytes that aren't read. Line by
// line: those three; rows 0 to 5, which are send 0 7, send 0 9, close 0, stop, range 0, stop; the capacity of channel 0; the
// first rows of tasks 0 and 1; the trailer.
fn listing() -> [u8; 64] {
    *b"\x01\x02\x03\
        \x01\x00\x07\x00\x01\x00\x00\x00\
        \x01\x00\x09\x00\x02\x00\x00\x00\
        \x04\x00\x00\x00\x03\x00\x00\x00\
        \x0C\x00\x00\x00\x00\x00\x00\x00\
        \x05\x00\x00\x00\x04\x00\x05\x00\
        \x0C\x00\x00\x00\x00\x00\x00\x00\
        \x01\
        \x00\x00\x04\x00\
        \x06\x00\x01\x02\x35\x00\x5A\x01"
}

// THE OPENED IMAGE

fn say_check(rt: &impl Print, a: Result<(), ImageFault>) -> io::Result<()> {
    match a {
        Ok(()) => println!(rt; "good"),
        Err(fault) => println!(rt; "refused {} {}", fault.number(), fault.place()),
    }
}

// The row's number, and its five fields as document 01's table writes them.
fn say_row(rt: &impl Print, n: u16, a: Option<Statement>) -> io::Result<()> {
    match a {
        Some(s) => {
            let f = fields_of(s);
            println!(rt;
                "row {n} {} {} {} {} {}",
                f.op, f.chan, f.arg, f.next, f.other
            )
        }
        None => println!(rt; "row {n} no"),
    }
}

fn say_capacity(rt: &impl Print, c: u8, a: Option<u8>) -> io::Result<()> {
    match a {
        Some(n) => println!(rt; "capacity {c} {n}"),
        None => println!(rt; "capacity {c} no"),
    }
}

fn say_first_row(rt: &impl Print, t: u8, a: Option<Row>) -> io::Result<()> {
    match a {
        Some(r) => println!(rt; "first {t} {}", r.0),
        None => println!(rt; "first {t} no"),
    }
}

// The answers of one opening: the check's, and the row, channel and task of this number.
fn say_asked(rt: &impl Print, image: &[u8], n: u8) -> io::Result<()> {
    let row = u16::from(n);
    let a = answers_of(image, Row(row), Chan(n), Task(n));
    say_check(rt, a.check)?;
    say_row(rt, row, a.row)?;
    say_capacity(rt, n, a.capacity)?;
    say_first_row(rt, n, a.start)
}

fn say_images(rt: &impl Print) -> io::Result<()> {
    let image = listing();
    // every row, channel and task of the listing, and past each end
    for n in 0..7 {
        say_asked(rt, &image, n)?;
    }
    // four bytes, too few for a trailer
    say_asked(rt, &image[60..], 0)?;
    // another mark
    let mut unmarked = image;
    unmarked[62] = 0;
    say_asked(rt, &unmarked, 0)?;
    // row 2 leads to row 6, which isn't there
    let mut astray = image;
    astray[23] = 6;
    say_asked(rt, &astray, 0)
}

// THE LENT CHANNEL

// Behind an answer: closed, length, and the first, second and last cell.
fn say_channel(rt: &impl Print, c: Channel) -> io::Result<()> {
    let closed = u8::from(c.closed);
    let v = c.values;
    println!(rt; " {closed} {} {} {} {}", c.len, v[0], v[1], v[15])
}

fn say_append(rt: &impl Print, c: &mut Channel, v: u16) -> io::Result<()> {
    let answer = if c.append(v) { "yes" } else { "no" };
    print!(rt; "append {v} {answer}")?;
    say_channel(rt, *c)
}

fn say_take(rt: &impl Print, c: &mut Channel) -> io::Result<()> {
    match c.take() {
        Some(v) => print!(rt; "take {v}")?,
        None => print!(rt; "take no")?,
    }
    say_channel(rt, *c)
}

fn channel(capacity: u8, closed: bool, len: u8, values: [u16; 16]) -> Channel {
    Channel {
        capacity,
        closed,
        len,
        values,
    }
}

fn say_channels(rt: &impl Print) -> io::Result<()> {
    // the listing's channel, of capacity 1: no value yet, then room for one
    let empty = [0u16; 16];
    let mut one = channel(1, false, 0, empty);
    say_take(rt, &mut one)?;
    say_append(rt, &mut one, 7)?;
    say_append(rt, &mut one, 9)?;
    say_take(rt, &mut one)?;
    say_take(rt, &mut one)?;
    // closed is not asked
    let mut closed = channel(1, true, 0, empty);
    say_append(rt, &mut closed, 9)?;
    say_take(rt, &mut closed)?;
    // capacity 16, full
    let values: [u16; 16] = [1, 2, 3, 4, 5, 6, 7, 8, 9, 10, 11, 12, 13, 14, 15, 16];
    let mut full = channel(16, false, 16, values);
    say_append(rt, &mut full, 17)?;
    say_take(rt, &mut full)?;
    say_append(rt, &mut full, 17)?;
    // capacity 0
    say_append(rt, &mut channel(0, false, 0, empty), 7)?;
    // a capacity over 16, and a length over its capacity
    say_append(rt, &mut channel(17, false, 2, values), 7)?;
    say_take(rt, &mut channel(17, false, 2, values))?;
    say_append(rt, &mut channel(1, false, 2, values), 7)?;
    say_take(rt, &mut channel(1, false, 2, values))
}

fn main(rt: HostRuntime) -> io::Result<()> {
    say_images(&rt)?;
    say_channels(&rt)
}
