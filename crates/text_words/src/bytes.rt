// A byte of a text: which of document 01's bytes it is, 'Job text'.
ghost use Rattle.std.specs.Prelude.{◌≡◌};
ghost use Rattle.text_words.specs.Words.{is_blank, is_digit, is_letter, is_allowed};

// Most bytes of a text are past the blank, so that this is asked first.
pub fn is_blank(b: u8) -> bool
    ensures { result ≡ is_blank b }
{
    if b' ' < b {
        return false;
    }
    if b == b' ' { true } else { b == b'\n' }
}

pub fn is_digit(b: u8) -> bool
    ensures { result ≡ is_digit b }
{
    if b'0' <= b { b <= b'9' } else { false }
}

fn is_letter(b: u8) -> bool
    ensures { result ≡ is_letter b }
{
    if b'a' <= b { b <= b'z' } else { false }
}

pub fn is_allowed(b: u8) -> bool
    ensures { result ≡ is_allowed b }
{
    if is_letter(b) {
        return true;
    }
    if is_digit(b) {
        return true;
    }
    is_blank(b)
}
