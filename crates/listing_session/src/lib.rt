// A listing, line by line: document 01, 'A listing, whole'. An input that is too long, a refused text or a bad schedule is a listing
// of one line; any other has a line for each turn, each task, each
// channel and the stamp. Whoever lists an input asks for line after line and writes it, or compares it, and keeps nothing else.
// `listed_whole` in specs/Laws/Whole.antt says that these lines, one behind the other, are the listing of document 01.
#![tactic(auto)]

ghost use Rattle.std.specs.Prelude.{◌≡◌};
ghost use Rattle.listing_session.specs.Kinds.{Keep};
ghost use Rattle.listing_lines.specs.Lines.{Shows};
ghost use Rattle.listing_answer.specs.Answer.{image_after};
ghost use Rattle.listing_session.specs.Session.{image_length, pair_count, begun_as, begun, line_count, state_line, turn_of, turned_line, turned_session, run_line, run_session, run_change, line_alone, line_of, session_of, change_of};

use listing_answer::{Run, Unlisted, answer_of, behind, first};
use listing_input::pair_at;
use listing_lines::{
    Line, bad_schedule_line, chan_line, refused_line, stamp_line, task_line, too_long_line,
    turn_line,
};
use machine::{start, turn};
use machine_records::Change;
use machine_store::State;
use meaning::sizes::{CELLS, CHANS};
use meaning::{Chan, Task};

// How far a listing has come: the answer, the place of the next pair in the schedule, and the machine. The values stand beside
// it.
#[derive(Clone, Copy)]
pub struct Session {
    pub answer: Result<Run, Unlisted>,
    pub at: usize,
    pub state: State,
}

// A line, the session behind it, and what its turn does to the values.
#[derive(Clone, Copy)]
pub struct Listed {
    pub line: Line,
    pub session: Session,
    pub change: Change,
}

// BEGINNING

fn image_length(a: Result<Run, Unlisted>) -> usize
    ensures { result ≡ image_length a }
{
    match a {
        Ok(run) => run.length,
        Err(_) => 0,
    }
}

fn pair_count(a: Result<Run, Unlisted>) -> u16
    ensures { result ≡ pair_count a }
{
    match a {
        Ok(run) => run.pairs,
        Err(_) => 0,
    }
}

fn begin_as(image: &[u8], a: Result<Run, Unlisted>) -> Session
    ensures { result ≡ begun_as image.now a }
{
    let started = start(first(image, image_length(a)));
    let state = started.state;
    Session {
        answer: a,
        at: 0,
        state: state,
    }
}

// Judges an input and starts the machine; without a run it is the one that no image makes, with no task. In a buffer of less than
// IMAGE_ROOM bytes a text can be refused by 11.
pub fn begin(input: &[u8], image: &mut [u8]) -> Session
    ensures { (result ≡ begun input.now image.old) × (image.new ≡ image_after input.now image.old) }
{
    let a = answer_of(input, image);
    begin_as(image, a)
}

// How many lines the whole listing has, asked of a session at any line.
pub fn line_count(s: Session) -> u32
    ensures { result ≡ line_count s }
{
    let state = s.state;
    let tasks = u32::from(state.task_count());
    let channels = u32::from(state.channel_count());
    u32::from(pair_count(s.answer)) + tasks + channels + 1
}

// THE LINES

// Line i behind the turns: the tasks, the channels, the stamp.
#[tactic(auto, unfolding(crate::specs::Session::state_line))]
fn state_line(i: u32, s: State, values: [[u16; CELLS as usize]; CHANS as usize]) -> Line
    ensures { Shows result (state_line i s values) }
{
    let tasks = u32::from(s.task_count());
    if i < tasks {
        let task = Task((i % 256) as u8);
        return task_line(task, s.task(task));
    }
    let j = i - tasks;
    if j < u32::from(s.channel_count()) {
        let chan = Chan((j % 256) as u8);
        let held = values[(chan.0 % CHANS) as usize];
        return chan_line(chan, s.channel(chan), held);
    }
    stamp_line(s.stamp(), s.fault())
}

// The line that stands alone where nothing runs.
fn line_alone(why: Unlisted) -> Line
    ensures { Shows result (line_alone why) }
{
    match why {
        Unlisted::TooLong => too_long_line(),
        Unlisted::Refused(number, place) => refused_line(number, place),
        Unlisted::BadSchedule => bad_schedule_line(),
    }
}

fn quiet(line: Line, s: Session) -> Listed
    ensures { result ≡ record { line = line; session = s; change = Keep } }
{
    let change = Change::Keep;
    Listed {
        line: line,
        session: s,
        change: change,
    }
}

// The turn of pair i, at the session's place of a schedule.
fn turn_listed(
    rest: &[u8],
    image: &[u8],
    i: u16,
    s: Session,
    values: [[u16; CELLS as usize]; CHANS as usize],
) -> Listed
    ensures { (result.session ≡ turned_session rest.now image.now s values) × (result.change ≡ (turn_of rest.now image.now s values).change) × Shows result.line (turned_line rest.now image.now s values i) }
{
    let pair = pair_at(rest, s.at);
    let before = s.state;
    let turned = turn(image, before, values, Task(pair.task), pair.choice);
    let event = turned.event;
    let line = turn_line(i, pair.task, event);
    let answer = s.answer;
    let state = turned.state;
    let session = Session {
        answer: answer,
        at: pair.next,
        state: state,
    };
    let change = turned.change;
    Listed {
        line: line,
        session: session,
        change: change,
    }
}

// Line i of a run.
fn run_listed(
    rest: &[u8],
    image: &[u8],
    pairs: u16,
    i: u32,
    s: Session,
    values: [[u16; CELLS as usize]; CHANS as usize],
) -> Listed
    ensures { (result.session ≡ run_session rest.now image.now s values pairs i) × (result.change ≡ run_change rest.now image.now s values pairs i) × Shows result.line (run_line rest.now image.now s values pairs i) }
{
    if i < pairs as u32 {
        return turn_listed(rest, image, i as u16, s, values);
    }
    let state = s.state;
    quiet(state_line(i - pairs as u32, state, values), s)
}

// Line i of a listing, with the input and the buffer that it began with, and the session and values behind the line before.
pub fn next(
    input: &[u8],
    image: &[u8],
    i: u32,
    s: Session,
    values: [[u16; CELLS as usize]; CHANS as usize],
) -> Listed
    ensures { (result.session ≡ session_of input.now image.now i s values s.answer) × (result.change ≡ change_of input.now image.now i s values s.answer) × Shows result.line (line_of input.now image.now i s values s.answer) }
{
    match s.answer {
        Ok(run) => {
            let image_part = first(image, run.length);
            run_listed(behind(input, run.from), image_part, run.pairs, i, s, values)
        }
        Err(why) => quiet(line_alone(why), s),
    }
}
