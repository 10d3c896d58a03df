// One channel record, lent for append and take and updated where it is.
#![tactic(auto)]

ghost use Rattle.std.specs.Prelude.{◌≡◌, is_some, unwrap_or};
ghost use Rattle.thin_channel.specs.Channels.{has_room, has_value, appended_to, taken_from, shortened};

use machine_buffer::shift;
use meaning::sizes::CELLS;

// The values stand oldest first, in the first `len` cells.
#[derive(Clone, Copy)]
pub struct Channel {
    pub capacity: u8,
    pub closed: bool,
    pub len: u8,
    pub values: [u16; CELLS as usize],
}

impl Channel {
    // A channel whose capacity or length can't be has no room.
    fn has_room(&self) -> bool
        ensures { result ≡ has_room self.now }
    {
        self.capacity <= CELLS && self.len < self.capacity
    }

    // Nor has it a value.
    fn has_value(&self) -> bool
        ensures { result ≡ has_value self.now }
    {
        self.capacity <= CELLS && self.len <= self.capacity && 0 < self.len
    }

    // Appends v behind the youngest value and answers true; where there is no room, changes nothing and answers false.
    pub fn append(&mut self, v: u16) -> bool
        ensures answer { result ≡ is_some (appended_to self.old v) }
        ensures after { self.new ≡ unwrap_or (appended_to self.old v) self.old }
    {
        if !self.has_room() {
            return false;
        }
        self.values[self.len as usize] = v;
        self.len += 1;
        true
    }

    // Takes the oldest value; where there is none, changes nothing and answers none.
    pub fn take(&mut self) -> Option<u16>
        ensures answer { result ≡ taken_from self.old }
        ensures after { self.new ≡ shortened self.old }
    {
        if !self.has_value() {
            return None;
        }
        let oldest = self.values[0];
        shift(&mut self.values, self.len as usize);
        self.len -= 1;
        Some(oldest)
    }
}
