// Document 01's limits and numbers, for code: each under one name, as specs/Numbers and specs/Bytes have them for the definitions.
// That a number here is the document's is shown by each contract that rests on it.

// 'Step image': rows of 8 bytes, an 8-byte trailer with its mark and version; nil is chan 255.
pub const ROW_SIZE: usize = 8;

pub const TRAILER_SIZE: usize = 8;

pub const IMAGE_MARK: u8 = 0x5A;

pub const IMAGE_VERSION: u8 = 1;

pub const NIL: u8 = 255;

// 'Job text' and 'Step image': at most so many rows, channels, tasks, values in a channel, blocks around a statement, laps of a
// repeat and cases of a select.
pub const ROWS: u16 = 1024;

pub const CHANS: u8 = 16;

pub const TASKS: u8 = 16;

pub const CELLS: u8 = 16;

pub const DEPTH: u8 = 6;

pub const LAPS: u16 = 255;

pub const CASES: u8 = 8;

// 'What comes back', the image check, in its order.
pub const IMAGE_TOO_SHORT: u8 = 21;

pub const BAD_MARK: u8 = 22;

pub const BAD_VERSION: u8 = 23;

pub const BAD_COUNTS: u8 = 24;

pub const BAD_DISTANCE: u8 = 25;

pub const BAD_ROW: u8 = 26;

pub const BAD_CAPACITY: u8 = 27;

pub const BAD_FIRST_ROW: u8 = 28;
