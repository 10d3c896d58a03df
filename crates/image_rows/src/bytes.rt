// Bytes and two-byte numbers of a slice, 0 where the slice has ended; and the two parts in which an image is read, its trailer
// and what stands from row 0 on.
ghost use Rattle.std.specs.Prelude.{◌≡◌};
ghost use Rattle.meaning.specs.Bytes.{byte_at, two_of, two_at, trailer_of, body_of};
ghost use Rattle.image_rows.specs.Rows.{counts_in};

use crate::Counts;
use meaning::sizes::TRAILER_SIZE;

pub fn byte_at(s: &[u8], i: usize) -> u8
    ensures { result ≡ byte_at s.now i }
{
    if i < s.len() { s[i] } else { 0 }
}

// Low byte first.
pub fn two_of(low: u8, high: u8) -> u16
    ensures { result ≡ two_of low high }
{
    u16::from_le_bytes([low, high])
}

pub fn two_at(s: &[u8], i: u32) -> u16
    ensures { result ≡ two_at s.now i }
{
    let at = i as usize;
    two_of(byte_at(s, at), byte_at(s, at + 1))
}

// The last eight bytes of an image: all of a slice that is shorter.
#[tactic(auto, unfolding(meaning::specs::Bytes::trailer_of), using(crate::proofs::Laws::part_to_end))]
pub fn trailer_of(image: &[u8]) -> &[u8]
    ensures { result.now ≡ trailer_of image.now }
{
    let n = image.len();
    if n < TRAILER_SIZE {
        return image;
    }
    let at = n - TRAILER_SIZE;
    &image[at..]
}

// What a trailer says.
#[tactic(auto, unfolding(crate::specs::Rows::counts_in))]
pub fn counts_in(trailer: &[u8]) -> Counts
    ensures { result ≡ counts_in trailer.now }
{
    Counts {
        rows: two_at(trailer, 0),
        channels: byte_at(trailer, 2),
        tasks: byte_at(trailer, 3),
        back: two_at(trailer, 4),
    }
}

// An image from row 0 on: all of a slice whose trailer would reach ahead of it.
#[tactic(auto, unfolding(meaning::specs::Bytes::body_of, meaning::specs::Bytes::distance), using(crate::proofs::Laws::part_to_end))]
pub fn body_of(image: &[u8]) -> &[u8]
    ensures { result.now ≡ body_of image.now }
{
    let back = two_at(trailer_of(image), 4) as usize;
    let n = image.len();
    if n < TRAILER_SIZE + back {
        return image;
    }
    let at = n - TRAILER_SIZE - back;
    &image[at..]
}
