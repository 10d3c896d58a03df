// Rows in bytes: the layer that turns a lent slice of bytes into statements; `image_put` turns statements into bytes. It reads in
// place and answers every slice; whether a slice is a step image at all is asked above, in `image_check`.
#![tactic(auto)]

pub mod bytes;
pub mod table;

// What an image's trailer says: how many rows, channels and tasks, and the distance back from the trailer to row 0.
#[derive(Clone, Copy)]
pub struct Counts {
    pub rows: u16,
    pub channels: u8,
    pub tasks: u8,
    pub back: u16,
}
