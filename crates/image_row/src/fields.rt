// The five fields of a row, read where they lie in a slice that holds the row: "op, chan, arg (2), next (2), other (2)". Whoever makes
// one has seen that it does, so that no read asks for the slice's end.
ghost use Rattle.std.specs.Prelude.{◌≡◌, ◌+◌, ◌*◌, ◌≤◌, length};
ghost use Rattle.meaning.specs.Bytes.{row_size, fields_of_row};
ghost use Rattle.image_row.specs.Row.{is_case_row};

use image_rows::bytes::two_of;
use meaning::Row;
use meaning::sizes::ROW_SIZE;

// A row that the slice from row 0 on holds.
#[derive(Clone, Copy)]
pub(crate) struct Held<'a> {
    pub body: &'a [u8],
    pub at: Row,
    ghost whole: { row_size * at.0 + row_size ≤ length body.now },
}

impl<'a> Held<'a> {
    #[tactic(auto, unfolding(meaning::specs::Bytes::fields_of_row))]
    pub(crate) fn op(self) -> u8
        ensures { result ≡ (fields_of_row self.entry.body.now self.entry.at).op }
    {
        self.body[ROW_SIZE * (self.at.0 as usize)]
    }

    #[tactic(auto, unfolding(meaning::specs::Bytes::fields_of_row))]
    pub(crate) fn chan(self) -> u8
        ensures { result ≡ (fields_of_row self.entry.body.now self.entry.at).chan }
    {
        self.body[ROW_SIZE * (self.at.0 as usize) + 1]
    }

    #[tactic(auto, unfolding(meaning::specs::Bytes::fields_of_row))]
    pub(crate) fn arg(self) -> u16
        ensures { result ≡ (fields_of_row self.entry.body.now self.entry.at).arg }
    {
        let at = ROW_SIZE * (self.at.0 as usize);
        two_of(self.body[at + 2], self.body[at + 3])
    }

    #[tactic(auto, unfolding(meaning::specs::Bytes::fields_of_row))]
    pub(crate) fn next(self) -> u16
        ensures { result ≡ (fields_of_row self.entry.body.now self.entry.at).next }
    {
        let at = ROW_SIZE * (self.at.0 as usize);
        two_of(self.body[at + 4], self.body[at + 5])
    }

    #[tactic(auto, unfolding(meaning::specs::Bytes::fields_of_row))]
    pub(crate) fn other(self) -> u16
        ensures { result ≡ (fields_of_row self.entry.body.now self.entry.at).other }
    {
        let at = ROW_SIZE * (self.at.0 as usize);
        two_of(self.body[at + 6], self.body[at + 7])
    }

    // "case rows (ops 9 to 11)"
    // Kept, point 1: by `RowKind::try_from` a target costs six instructions more, and the fit of 16 tasks 773 for 660 (plain C 672).
    #[tactic(auto, unfolding(crate::specs::Row::is_case_row))]
    pub(crate) fn is_case(self) -> bool
        ensures { result ≡ is_case_row self.entry.body.now self.entry.at }
    {
        matches!(self.op(), 9..=11)
    }
}
