// An image opened once, and held with its counts while rows are asked of it. The whole image check runs at the opening and not
// again. A refused image opens nothing: it is held with the check's answer and no row, channel or task, and every question to
// it is answered `None`.
//
// `open` answers every image, so that the check's answer stands in the struct. Its fields are private, so that `open` alone makes one.
#![tactic(auto)]

ghost use Rattle.std.specs.Prelude.{◌≡◌};
ghost use Rattle.thin_held.specs.Asked.{row_asked, capacity_asked, first_row_asked};
ghost use Rattle.thin_image.specs.Opened.{opened_of, bytes_of, held_by, answers_of};

use image_check::ImageFault;
use meaning::{Chan, Row, Statement, Task};
use thin_held::{Held, capacity_asked, first_row_asked, hold, row_asked};

#[derive(Clone, Copy)]
pub struct Opened<'a> {
    image: &'a [u8],
    held: Held,
}

// The answers to a question of each kind.
#[derive(Clone, Copy)]
pub struct Answers {
    pub check: Result<(), ImageFault>,
    pub row: Option<Statement>,
    pub capacity: Option<u8>,
    pub start: Option<Row>,
}

impl<'a> Opened<'a> {
    pub fn open(image: &'a [u8]) -> Opened<'a>
        ensures { result ≡ opened_of image.entry }
    {
        Opened {
            image,
            held: hold(image),
        }
    }

    // What the check answered at the opening: good, or why the image is refused.
    pub fn answer(self) -> Result<(), ImageFault>
        ensures { result ≡ (held_by self.entry).answer }
    {
        self.held.answer
    }

    // Each takes the struct apart and asks a function of thin_held.

    pub fn row(self, n: Row) -> Option<Statement>
        ensures { result ≡ row_asked (bytes_of self.entry) (held_by self.entry) n }
    {
        row_asked(self.image, self.held, n)
    }

    pub fn capacity(self, c: Chan) -> Option<u8>
        ensures { result ≡ capacity_asked (bytes_of self.entry) (held_by self.entry) c }
    {
        capacity_asked(self.image, self.held, c)
    }

    pub fn first_row(self, t: Task) -> Option<Row>
        ensures { result ≡ first_row_asked (bytes_of self.entry) (held_by self.entry) t }
    {
        first_row_asked(self.image, self.held, t)
    }
}

// A question of each kind, of an image that is opened once for all of them. Whoever calls this has no such struct in hand.
#[tactic(auto, unfolding(thin_held::specs::Asked::held_of))]
pub fn answers_of(image: &[u8], n: Row, c: Chan, t: Task) -> Answers
    ensures { result ≡ answers_of image.now n c t }
{
    let opened = Opened::open(image);
    Answers {
        check: opened.answer(),
        row: opened.row(n),
        capacity: opened.capacity(c),
        start: opened.first_row(t),
    }
}
