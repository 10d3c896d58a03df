// What is due at a word: a number, a channel, or a word that can stand there. Each function looks at one word, with the refusals that
// fall due at it.
#![tactic(auto)]

ghost use Rattle.std.specs.Prelude.{◌≡◌};
ghost use Rattle.text_reader.specs.Answers.{refusal, NumberTold, PortTold, out_of_place};

use meaning::{Chan, Port};
use text_reader::kinds::NIL;
use text_reader::{Fault, Got, Refused};
use text_words::{NO_WORD, NUMBER, Word, word_at};

// A number that is due, 0 to a limit.
pub fn read_number(text: &[u8], limit: u16, at: usize) -> Result<Got<u16>, Refused>
    ensures { NumberTold text.now limit at result }
{
    let w = word_at(text, at);
    let kind = w.kind;
    let value = w.value;
    let start = w.start;
    if kind == NO_WORD {
        return Err(Fault::CutShort.at(text.len()));
    }
    if kind != NUMBER {
        return Err(Fault::NumberDue.at(start));
    }
    if (limit as u32) < value {
        return Err(Fault::NumberOverRange.at(start));
    }
    Ok(Got {
        value: value as u16,
        next: w.next,
    })
}

// A channel that is due: a declared one, or nil.
pub fn read_port(text: &[u8], channels: u8, at: usize) -> Result<Got<Port>, Refused>
    ensures { PortTold text.now channels at result }
{
    let w = word_at(text, at);
    let kind = w.kind;
    let value = w.value;
    if kind == NO_WORD {
        return Err(Fault::CutShort.at(text.len()));
    }
    if kind == NIL {
        return Ok(Got {
            value: Port::Nil,
            next: w.next,
        });
    }
    if kind != NUMBER {
        return Err(Fault::NumberDue.at(w.start));
    }
    if channels as u32 <= value {
        return Err(Fault::NumberOverRange.at(w.start));
    }
    let c = Chan(value as u8);
    Ok(Got {
        value: Port::On(c),
        next: w.next,
    })
}

// The refusal of a word that can't stand here, or of a text that has stopped.
pub fn misplaced(text: &[u8], w: Word) -> Refused
    ensures { refusal result ≡ out_of_place text.now w }
{
    let kind = w.kind;
    if kind == NO_WORD {
        return Fault::CutShort.at(text.len());
    }
    Fault::WordOutOfPlace.at(w.start)
}
