// The table of document 01's 'Step image', a method for each line: what its op asks of a row's fields. No statement is made of
// them, and a target costs one byte.
ghost use Rattle.std.specs.Prelude.{◌≡◌, suc, ◌*◌, ◌<◌, ◌≤◌, length};
ghost use Rattle.meaning.specs.Bytes.{row_size, port_of, fields_of_row};
ghost use Rattle.meaning.specs.Image.{row_no};
ghost use Rattle.image_row.specs.Row.{port_good, is_target, cases_follow, row_good};
ghost use Rattle.image_row.specs.Table.{targets_good, send_good, forward_good, range_good, repeat_good, ifok_good, default_good, select_good, stop_good};

use crate::fields::Held;
use crate::is_target;
use meaning::Row;
use meaning::sizes::{CASES, DEPTH, LAPS, NIL};

// A row of an image of so many rows and channels: the slice from row 0 on holds every row, and this is one of them.
#[derive(Clone, Copy)]
pub(crate) struct Judged<'a> {
    pub row: Held<'a>,
    pub rows: u16,
    pub channels: u8,
    ghost all: { row_size * rows ≤ length row.body.now },
    ghost below: { row.at.0 < rows },
}

// Nil or a declared channel.
#[tactic(auto, unfolding(crate::specs::Row::port_good))]
fn port_good(channels: u8, chan: u8) -> bool
    ensures { result ≡ port_good channels (port_of chan) }
{
    chan == NIL || chan < channels
}

impl<'a> Judged<'a> {
    // Whether a number is that of a row and of no case row.
    fn to(self, n: u16) -> bool
        ensures { result ≡ is_target self.entry.row.body.now self.entry.rows (row_no n) }
    {
        is_target(self.row.body, self.rows, Row(n))
    }

    // The two targets, next and other.
    fn targets_good(self) -> bool
        ensures { result ≡ targets_good self.entry.row.body.now self.entry.rows (fields_of_row self.entry.row.body.now self.entry.row.at) }
    {
        self.to(self.row.next()) && self.to(self.row.other())
    }

    // Send, alone or in a case: chan; arg = V; next.
    fn send_good(self) -> bool
        ensures { result ≡ send_good self.entry.row.body.now self.entry.rows self.entry.channels (fields_of_row self.entry.row.body.now self.entry.row.at) }
    {
        self.row.other() == 0
            && port_good(self.channels, self.row.chan())
            && self.to(self.row.next())
    }

    // Forward and recv, alone or in a case, and close: chan; next.
    fn forward_good(self) -> bool
        ensures { result ≡ forward_good self.entry.row.body.now self.entry.rows self.entry.channels (fields_of_row self.entry.row.body.now self.entry.row.at) }
    {
        self.row.arg() == 0 && self.send_good()
    }

    // Range: chan; next body, other after.
    fn range_good(self) -> bool
        ensures { result ≡ range_good self.entry.row.body.now self.entry.rows self.entry.channels (fields_of_row self.entry.row.body.now self.entry.row.at) }
    {
        self.row.arg() == 0 && port_good(self.channels, self.row.chan()) && self.targets_good()
    }

    // Repeat: chan = depth, 0 to 5; arg N, 0 to 255; next body, other after.
    fn repeat_good(self) -> bool
        ensures { result ≡ repeat_good self.entry.row.body.now self.entry.rows (fields_of_row self.entry.row.body.now self.entry.row.at) }
    {
        self.row.chan() < DEPTH && self.row.arg() <= LAPS && self.targets_good()
    }

    // Ifok: next first body, other second body.
    fn ifok_good(self) -> bool
        ensures { result ≡ ifok_good self.entry.row.body.now self.entry.rows (fields_of_row self.entry.row.body.now self.entry.row.at) }
    {
        self.row.chan() == 0 && self.row.arg() == 0 && self.targets_good()
    }

    // Whether the k rows behind it are case rows.
    #[tactic(auto, unfolding(crate::specs::Row::cases_follow), using(crate::proofs::Laws::follow_step))]
    fn cases_follow(self, k: u8) -> bool
        ensures { result ≡ cases_follow self.entry.row.body.now self.entry.rows k (suc self.entry.row.at.0) }
    {
        for n in 0..k {
            let at = self.row.at.0 + 1 + u16::from(n);
            if self.rows <= at {
                return false;
            }
            let follower = Held {
                body: self.row.body,
                at: Row(at),
            };
            if !follower.is_case() {
                return false;
            }
        }
        true
    }

    // A select's default: arg 1, next its body; without one both are 0.
    fn default_good(self) -> bool
        ensures { result ≡ default_good self.entry.row.body.now self.entry.rows (fields_of_row self.entry.row.body.now self.entry.row.at) }
    {
        let next = self.row.next();
        match self.row.arg() {
            0 => next == 0,
            1 => self.to(next),
            _ => false,
        }
    }

    // Select: chan = number of cases, 0 to 8, which follow at once; arg and next its default.
    fn select_good(self) -> bool
        ensures { result ≡ select_good self.entry.row.body.now self.entry.rows self.entry.row.at.0 (fields_of_row self.entry.row.body.now self.entry.row.at) }
    {
        let k = self.row.chan();
        self.row.other() == 0 && k <= CASES && self.default_good() && self.cases_follow(k)
    }

    // Stop: no field.
    fn stop_good(self) -> bool
        ensures { result ≡ stop_good (fields_of_row self.entry.row.body.now self.entry.row.at) }
    {
        self.row.chan() == 0 && self.row.arg() == 0 && self.row.next() == 0 && self.row.other() == 0
    }

    // Whether it is good, where so many of a select's case rows were still to come ahead of it: the line of its op.
    // Kept, point 1: by `RowKind::try_from` the check of 1,024 sends takes 35,980 instructions for 28,815 (plain C 32,885), of stops 23,728 for 21,668.
    #[tactic(auto, using(crate::specs::Laws::Table::send_row, crate::specs::Laws::Table::forward_row, crate::specs::Laws::Table::range_row, crate::specs::Laws::Table::repeat_row, crate::specs::Laws::Table::ifok_row, crate::specs::Laws::Table::select_row, crate::specs::Laws::Table::case_send_row, crate::specs::Laws::Table::case_forward_row, crate::specs::Laws::Table::stop_row_lem, crate::specs::Laws::Table::zero_row, crate::specs::Laws::Table::past_row))]
    pub(crate) fn good(self, owed: u8) -> bool
        ensures { result ≡ row_good self.entry.row.body.now self.entry.rows self.entry.channels self.entry.row.at.0 owed (fields_of_row self.entry.row.body.now self.entry.row.at) }
    {
        match self.row.op() {
            1 => self.send_good(),
            2 | 3 | 4 => self.forward_good(),
            5 => self.range_good(),
            6 => self.repeat_good(),
            7 => self.ifok_good(),
            8 => self.select_good(),
            9 => 0 < owed && self.send_good(),
            10 | 11 => 0 < owed && self.forward_good(),
            12 => self.stop_good(),
            _ => false,
        }
    }
}
