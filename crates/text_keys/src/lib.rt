// Words as numbers. The bytes of a word, gathered base 256 on the way to its end, are its key, and a table of words is searched by
// key: a row of the table holds a word's bytes, filled up to eight, and beside it stands how many of the eight count.
#![tactic(auto)]

ghost use Rattle.std.specs.Prelude.{◌≡◌};
ghost use Rattle.text_keys.specs.Keys.{key_more, key_of, cut_key, found, place_in};

// How many words a table has: the reserved words.
pub const PLACES: u8 = 16;

// The key of one byte more. The last eight bytes count (what stands here is 256 ^ 7), so that a word of any length has a key.
pub fn key_more(key: u64, b: u8) -> u64
    ensures { result ≡ key_more key b }
{
    key % 72057594037927936 * 256 + b as u64
}

fn key_of_row(row: [u8; 8]) -> u64
    ensures { result ≡ key_of row }
{
    let mut key: u64 = 0;
    for b in row {
        key = key_more(key, b);
    }
    key
}

// The key of a row's first n bytes, of all eight where n is more: eight are gathered and the others shifted out, so that no loop hangs
// on n, and the keys of a constant table are constants to the compiler.
fn key_of(row: [u8; 8], n: u8) -> u64
    ensures { result ≡ cut_key row n }
{
    let key = key_of_row(row);
    if n == 0 {
        return 0;
    }
    if n < 8 {
        return key >> (64 - 8 * n);
    }
    key
}

fn wide(n: u8) -> usize
    ensures { result ≡ n }
{
    n as usize
}

// The place in a table of the word with this key and this length, if there is one. The loop compares numbers, and asks for the length
// only where the key is found: over a constant table the compiler makes a tree of comparisons of it.
pub fn place_in(
    words: [[u8; 8]; PLACES as usize],
    lengths: [u8; PLACES as usize],
    key: u64,
    length: usize,
) -> Option<u8>
    ensures { result ≡ found (place_in words lengths key length) }
{
    for k in 0..PLACES {
        let row = words[k as usize];
        let n = lengths[k as usize];
        if key == key_of(row, n) {
            return if length == wide(n) { Some(k) } else { None };
        }
    }
    None
}
