// The sixteen reserved words in one fixed table, which is searched by number (`text_keys`).
ghost use Rattle.std.specs.Prelude.{◌≡◌};
ghost use Rattle.text_words.specs.Scan.{kind_by};

use crate::OTHER_WORD;
use text_keys::{PLACES, place_in};

// The words' bytes, filled up to eight, and how many of the eight count.
const WORDS: [[u8; 8]; PLACES as usize] = [
    *b"chan\0\0\0\0",
    *b"task\0\0\0\0",
    *b"send\0\0\0\0",
    *b"forward\0",
    *b"recv\0\0\0\0",
    *b"close\0\0\0",
    *b"range\0\0\0",
    *b"repeat\0\0",
    *b"ifok\0\0\0\0",
    *b"else\0\0\0\0",
    *b"select\0\0",
    *b"case\0\0\0\0",
    *b"default\0",
    *b"stop\0\0\0\0",
    *b"end\0\0\0\0\0",
    *b"nil\0\0\0\0\0",
];

const LENGTHS: [u8; PLACES as usize] = [4, 4, 4, 7, 4, 5, 5, 6, 4, 4, 6, 4, 7, 4, 3, 3];

// The kind of a word that is no number, by its key and its length: two words of one length, eight bytes at most, never share a key. The
// table is copied out first, so that it is laid down once and not at every row.
pub fn kind_by(key: u64, length: usize) -> u8
    ensures { result ≡ kind_by key length }
{
    let words = WORDS;
    let lengths = LENGTHS;
    match place_in(words, lengths, key, length) {
        Some(k) => k + 1,
        None => OTHER_WORD,
    }
}
