// The translator: job text to step image. Pass 1 reads the text and decides every refusal; only then does pass 2 write the rows, into
// the buffer lent to it and nowhere else; what stands behind the rows is written here.
#![tactic(auto)]

ghost use Rattle.std.specs.Prelude.{◌≡◌, length};
ghost use Rattle.translate.specs.declared.NoImage.TheVariants.{Refused};
ghost use Rattle.translate.specs.Translated.{number_of, place_of, answered, translated, written};

use crate::writing::lay_rest;
use text_reader::Refused;
use translate_rows::put_rows;

mod bytes;
mod writing;

// Why a translation gives no image: the text is refused, or the buffer is shorter than the image, whose length stands here.
#[derive(Clone, Copy)]
pub enum NoImage {
    Refused(Refused),
    BufferTooShort(usize),
}

impl NoImage {
    // The refusal's number in document 01.
    pub fn number(self) -> u8
        ensures { result ≡ number_of self }
    {
        match self {
            NoImage::Refused(refused) => refused.why.number(),
            NoImage::BufferTooShort(_) => 11,
        }
    }

    // The refusal's place: 11 has the length needed.
    pub fn place(self) -> usize
        ensures { result ≡ place_of self }
    {
        match self {
            NoImage::Refused(refused) => refused.place,
            NoImage::BufferTooShort(length) => length,
        }
    }
}

impl From<Refused> for NoImage {
    ghost from_gives = { λ r e. e ≡ Refused r };

    fn from(refused: Refused) -> NoImage {
        NoImage::Refused(refused)
    }
}

// The image stands at the buffer's start and later bytes are untouched, and its length is answered; or there is none, and the whole
// buffer is untouched.
pub fn translate(text: &[u8], image: &mut [u8]) -> Result<usize, NoImage>
    ensures { (answered result ≡ translated text.now (length image.old)) × (image.new ≡ written text.now image.old) }
{
    let passed = put_rows(text, image)?;
    let size = passed.size;
    let length = 8 * (size.rows as usize)
        + (size.channels as usize)
        + 2 * (size.tasks as usize)
        + 8;
    if image.len() < length {
        return Err(NoImage::BufferTooShort(length));
    }
    lay_rest(text, size, passed.firsts, image);
    Ok(length)
}
