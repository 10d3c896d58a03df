// What stands ahead of every body: operations, and the heads of statements with their limits. A limit is judged at the statement's
// word, ahead of the operands behind it.
#![tactic(auto)]

ghost use Rattle.std.specs.Prelude.{◌≡◌};
ghost use Rattle.meaning.specs.Numbers.{lap_limit};
ghost use Rattle.text_reader.specs.declared.Head.{Head};
ghost use Rattle.text_reader.specs.Reading.{number, port, op_by};
ghost use Rattle.text_reader.specs.Answers.{due_part, part_of, SendTold, ForwardTold, RecvTold, OpTold, is_op, is_block, is_statement, is_too_deep, head_of, operands_by, HeadTold};

use meaning::Op;
use meaning::sizes::{DEPTH, LAPS, ROWS};
use text_due::{read_number, read_port};
use text_reader::kinds::{
    CLOSE, FORWARD, IFOK, RANGE, RECV, REPEAT, SELECT, SEND, STOP, VALUE_LIMIT,
};
use text_reader::{Fault, Got, Head, Position, Refused};
use text_words::{Word, word_at};

// `C V` behind `send`.
fn read_send(text: &[u8], channels: u8, at: usize) -> Result<Got<Op>, Refused>
    ensures { SendTold text.now channels at result }
{
    let port = read_port(text, channels, at)?;
    let number = read_number(text, VALUE_LIMIT, port.next)?;
    Ok(Got {
        value: Op::Send(port.value, number.value),
        next: number.next,
    })
}

// `C` behind `forward`.
fn read_forward(text: &[u8], channels: u8, at: usize) -> Result<Got<Op>, Refused>
    ensures { ForwardTold text.now channels at result }
{
    let port = read_port(text, channels, at)?;
    Ok(Got {
        value: Op::Forward(port.value),
        next: port.next,
    })
}

// `C` behind `recv`.
fn read_recv(text: &[u8], channels: u8, at: usize) -> Result<Got<Op>, Refused>
    ensures { RecvTold text.now channels at result }
{
    let port = read_port(text, channels, at)?;
    Ok(Got {
        value: Op::Recv(port.value),
        next: port.next,
    })
}

// The operation of which the word w is the first, as a statement or in a case.
pub fn read_op(text: &[u8], channels: u8, w: Word) -> Result<Option<Got<Op>>, Refused>
    ensures { OpTold text.now channels w result }
{
    let kind = w.kind;
    let next = w.next;
    if kind == SEND {
        return Ok(Some(read_send(text, channels, next)?));
    }
    if kind == FORWARD {
        return Ok(Some(read_forward(text, channels, next)?));
    }
    if kind == RECV {
        return Ok(Some(read_recv(text, channels, next)?));
    }
    Ok(None)
}

fn is_op(kind: u8) -> bool
    ensures { result ≡ is_op kind }
{
    if kind == SEND {
        return true;
    }
    if kind == FORWARD {
        return true;
    }
    kind == RECV
}

fn is_block(kind: u8) -> bool
    ensures { result ≡ is_block kind }
{
    if kind == RANGE {
        return true;
    }
    if kind == REPEAT {
        return true;
    }
    if kind == IFOK {
        return true;
    }
    kind == SELECT
}

// Whether a word of this kind begins a statement, and so needs a row.
fn is_statement(kind: u8) -> bool
    ensures { result ≡ is_statement kind }
{
    if is_op(kind) {
        return true;
    }
    if kind == CLOSE {
        return true;
    }
    if kind == STOP {
        return true;
    }
    is_block(kind)
}

fn is_too_deep(kind: u8, depth: u8) -> bool
    ensures { result ≡ is_too_deep kind depth }
{
    if is_block(kind) {
        DEPTH <= depth
    } else {
        false
    }
}

fn operation_head(text: &[u8], channels: u8, w: Word) -> Result<Option<Got<Head>>, Refused>
    ensures { part_of 0 result ≡ head_of Head.Operate (op_by text.now channels 0 w) }
{
    let Some(op) = read_op(text, channels, w)? else {
        return Ok(None);
    };
    Ok(Some(Got {
        value: Head::Operate(op.value),
        next: op.next,
    }))
}

fn close_head(text: &[u8], channels: u8, at: usize) -> Result<Got<Head>, Refused>
    ensures { due_part 0 result ≡ head_of Head.Close (port text.now channels at 0) }
{
    let port = read_port(text, channels, at)?;
    Ok(Got {
        value: Head::Close(port.value),
        next: port.next,
    })
}

fn range_head(text: &[u8], channels: u8, at: usize) -> Result<Got<Head>, Refused>
    ensures { due_part 0 result ≡ head_of Head.Range (port text.now channels at 0) }
{
    let port = read_port(text, channels, at)?;
    Ok(Got {
        value: Head::Range(port.value),
        next: port.next,
    })
}

fn repeat_head(text: &[u8], at: usize) -> Result<Got<Head>, Refused>
    ensures { due_part 0 result ≡ head_of Head.Repeat (number text.now lap_limit at 0) }
{
    let laps = read_number(text, LAPS, at)?;
    Ok(Got {
        value: Head::Repeat(laps.value),
        next: laps.next,
    })
}

// The head of a statement by its first word, once its limits are kept.
fn read_operands(text: &[u8], channels: u8, w: Word) -> Result<Option<Got<Head>>, Refused>
    ensures { part_of 0 result ≡ operands_by text.now channels w }
{
    let kind = w.kind;
    let next = w.next;
    if is_op(kind) {
        return operation_head(text, channels, w);
    }
    if kind == CLOSE {
        return Ok(Some(close_head(text, channels, next)?));
    }
    if kind == STOP {
        return Ok(Some(Got {
            value: Head::Stop,
            next,
        }));
    }
    if kind == RANGE {
        return Ok(Some(range_head(text, channels, next)?));
    }
    if kind == REPEAT {
        return Ok(Some(repeat_head(text, next)?));
    }
    if kind == IFOK {
        return Ok(Some(Got {
            value: Head::Ifok,
            next,
        }));
    }
    if kind == SELECT {
        return Ok(Some(Got {
            value: Head::Select,
            next,
        }));
    }
    Ok(None)
}

// The head of the statement at a position, inside so many blocks: 7 and 8 come ahead of the operands.
pub fn read_head(
    text: &[u8],
    channels: u8,
    depth: u8,
    from: Position,
) -> Result<Option<Got<Head>>, Refused>
    ensures { HeadTold text.now channels depth from.at from.rows (part_of 0 result) }
{
    let w = word_at(text, from.at);
    let kind = w.kind;
    if !is_statement(kind) {
        return Ok(None);
    }
    if is_too_deep(kind, depth) {
        return Err(Fault::TooDeep.at(w.start));
    }
    if ROWS <= from.rows {
        return Err(Fault::RowsFull.at(w.start));
    }
    read_operands(text, channels, w)
}
