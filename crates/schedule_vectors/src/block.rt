// One block: its call made, and the answer, the state and the records held to what the block tells. A block that can't be read to its
// end, line by line in the order due, is never the same.
ghost use Rattle.std.specs.Prelude.{◌≡◌, ◌≢◌, ◌<◌, ◌≤◌, length, slice_index};
ghost use Rattle.schedule_vectors.specs.Lines.{FirstWord};

use crate::lines::{
    Difference, Line, bytes_of, held, line_behind, line_due, next_told, told, two_numbers,
};
use crate::record::{RECORD_SIZE, state_of, values_of};
use machine::{fresh_values, start};
use machine_schedule::schedule;
use machine_store::State;
use machine_turns::Unmade;
use meaning::sizes::{CELLS, CHANS};
use std::alloc::Global;

// A state that a block gives to its call, with its counts of tasks and channels.
#[derive(Drop)]
struct Given {
    tasks: u8,
    channels: u8,
    record: Vec<u8>,
}

// What a call is made with. Where no state is given the image starts the machine. The lines that tell the state and the records can be
// named again behind the call.
#[derive(Drop)]
struct Inputs {
    image: Vec<u8>,
    given: Option<Given>,
    state_line: Line,
    pairs: Vec<u8>,
    records: Vec<u8>,
    records_line: Line,
}

// What is due from the call: the answer's two numbers, the state where there is a machine, and the records.
#[derive(Drop)]
struct Due {
    number: usize,
    place: usize,
    record: Option<Vec<u8>>,
    records: Vec<u8>,
}

// READING

// The line that names the block, or stands where that is due: there is none ahead of it.
pub(crate) fn name_line(block: &[u8]) -> Line
    ensures tells { result.at < length block.now → (slice_index block.now result.at ≢ 10) × (slice_index block.now result.at ≢ 35) }
    ensures key { FirstWord block.now result.at result.from }
    ensures within { result.at ≤ length block.now → result.from ≤ length block.now }
    ensures end { result.to < length block.now → slice_index block.now result.to ≡ 10 }
{
    line_behind(block, 0)
}

// The bytes that a line tells.
fn bytes_told(alloc: Global, block: &[u8], line: Line) -> Result<Vec<u8>, Difference> {
    bytes_of(alloc, told(block, line))?.ok_or(Difference::Unread(line.at))
}

// The next line, which has this key and tells bytes.
fn bytes_due(
    alloc: Global,
    block: &[u8],
    from: usize,
    key: &[u8],
) -> Result<(Line, Vec<u8>), Difference> {
    let line = line_due(block, from, key)?;
    let bytes = bytes_told(alloc, block, line)?;
    Ok((line, bytes))
}

// The lines `counts` and `state` behind a line `from state`, and the last of them.
fn given_by(alloc: Global, block: &[u8], from: usize) -> Result<(Line, Given), Difference> {
    let counts = line_due(block, from, b"counts")?;
    let (tasks, channels) = two_numbers(told(block, counts)).ok_or(Difference::Unread(counts.at))?;
    held(counts, tasks < 256 && channels < 256)?;
    let (line, record) = bytes_due(alloc, block, counts.to, b"state")?;
    held(line, record.len() == RECORD_SIZE)?;
    let given = Given {
        tasks: (tasks % 256) as u8,
        channels: (channels % 256) as u8,
        record: record,
    };
    Ok((line, given))
}

// The line `from`, and what is given behind it, if anything is.
fn origin_of(
    alloc: Global,
    block: &[u8],
    from: usize,
) -> Result<(Line, Option<Given>), Difference> {
    let line = line_due(block, from, b"from")?;
    if told(block, line) == b" start".as_slice() {
        return Ok((line, None));
    }
    held(line, told(block, line) == b" state".as_slice())?;
    let (last, given) = given_by(alloc, block, line.to)?;
    Ok((last, Some(given)))
}

// The lines up to the records.
fn inputs_of(alloc: Global, block: &[u8]) -> Result<Inputs, Difference> {
    let name = line_due(block, 0, b"==")?;
    let call = line_due(block, name.to, b"call")?;
    held(call, told(block, call) == b" schedule".as_slice())?;
    let (image_line, image) = bytes_due(alloc, block, call.to, b"image")?;
    let (state_line, given) = origin_of(alloc, block, image_line.to)?;
    let (pairs_line, pairs) = bytes_due(alloc, block, state_line.to, b"pairs")?;
    let (records_line, records) = bytes_due(alloc, block, pairs_line.to, b"records")?;
    Ok(Inputs {
        image: image,
        given: given,
        state_line: state_line,
        pairs: pairs,
        records: records,
        records_line: records_line,
    })
}

// The next line, which has this key and tells the bytes of a slice afterwards: with `same` those of the line that gave it.
fn after_due(
    alloc: Global,
    block: &[u8],
    from: usize,
    key: &[u8],
    given: Line,
) -> Result<(Line, Vec<u8>), Difference> {
    let line = line_due(block, from, key)?;
    let same = told(block, line) == b" same".as_slice();
    let source = if same { given } else { line };
    let bytes = bytes_of(alloc, told(block, source))?.ok_or(Difference::Unread(line.at))?;
    Ok((line, bytes))
}

// The lines behind the inputs, to the block's end. Where no machine was made none tells a state.
fn due_of(
    alloc: Global,
    block: &[u8],
    inputs: &Inputs,
    has_machine: bool,
) -> Result<Due, Difference> {
    let answer = line_due(block, inputs.records_line.to, b"return")?;
    let (number, place) = two_numbers(told(block, answer)).ok_or(Difference::Unread(answer.at))?;
    let mut behind = answer.to;
    let mut record = None;
    if has_machine {
        let (line, bytes) = after_due(alloc, block, behind, b"state-after", inputs.state_line)?;
        held(line, bytes.len() == RECORD_SIZE)?;
        behind = line.to;
        record = Some(bytes);
    }
    let (last, records) = after_due(alloc, block, behind, b"records-after", inputs.records_line)?;
    let end = next_told(block, last.to);
    if end < block.len() {
        return Err(Difference::Unread(end));
    }
    Ok(Due {
        number: number,
        place: place,
        record: record,
        records: records,
    })
}

// THE CALL

// Whether there is a machine to make turns: one is given, or the image starts one.
fn has_machine(image: &[u8], given: &Option<Given>) -> bool {
    given.is_some() || start(image).answer.is_ok()
}

// The state that the call is made with.
fn state_before(image: &[u8], given: &Option<Given>) -> State {
    match given {
        Some(g) => state_of(g.record.as_slice(), g.tasks, g.channels),
        None => start(image).state,
    }
}

// The values beside that state.
fn values_before(given: &Option<Given>) -> [[u16; CELLS as usize]; CHANS as usize] {
    match given {
        Some(g) => values_of(g.record.as_slice()),
        None => fresh_values(),
    }
}

// THE COMPARISON

// Whether this is the answer due. 0 stands for done alone: no refusal has that number.
fn is_due(outcome: Result<usize, Unmade>, due: &Due) -> bool {
    match outcome {
        Ok(n) => due.number == 0 && n == due.place,
        Err(why) => {
            let number = usize::from(why.number());
            due.number != 0 && due.number == number && why.place() == due.place
        }
    }
}

// Whether every word and every cell is the same.
// Kept, point 4: `State` derives no `==`, since nothing in the product compares states.
fn is_same_state(a: State, b: State) -> bool {
    a.words == b.words && a.cells == b.cells
}

// Makes the call with what the inputs tell, and holds it to the lines behind them. A state after is told by the cells of its record and
// the counts of the state before.
fn call(mut inputs: Inputs, due: &Due) -> Result<(), Difference> {
    let before = state_before(inputs.image.as_slice(), &inputs.given);
    let mut values = values_before(&inputs.given);
    let done = schedule(
        inputs.image.as_slice(),
        before,
        &mut values,
        inputs.pairs.as_slice(),
        inputs.records.as_mut_slice(),
    );
    if !is_due(done.outcome, due) {
        return Err(Difference::Return);
    }
    if let Some(record) = &due.record {
        let told = record.as_slice();
        let state = state_of(told, before.task_count(), before.channel_count());
        if !is_same_state(state, done.state) || values_of(told) != values {
            return Err(Difference::State);
        }
    }
    if inputs.records.as_slice() != due.records.as_slice() {
        return Err(Difference::Records);
    }
    Ok(())
}

// Whether a block is as stored, or in what it differs.
pub(crate) fn judge(alloc: Global, block: &[u8]) -> Result<(), Difference> {
    let inputs = inputs_of(alloc, block)?;
    let has_machine = has_machine(inputs.image.as_slice(), &inputs.given);
    let due = due_of(alloc, block, &inputs, has_machine)?;
    call(inputs, &due)
}
