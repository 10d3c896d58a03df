// The kinds of the reserved words and the limits of a text beside those of meaning::sizes, each number under one name.
use meaning::sizes::CELLS;

pub const CHAN: u8 = 1;

pub const TASK: u8 = 2;

pub const SEND: u8 = 3;

pub const FORWARD: u8 = 4;

pub const RECV: u8 = 5;

pub const CLOSE: u8 = 6;

pub const RANGE: u8 = 7;

pub const REPEAT: u8 = 8;

pub const IFOK: u8 = 9;

pub const ELSE: u8 = 10;

pub const SELECT: u8 = 11;

pub const CASE: u8 = 12;

pub const DEFAULT: u8 = 13;

pub const STOP: u8 = 14;

pub const END: u8 = 15;

pub const NIL: u8 = 16;

pub const TEXT_LIMIT: usize = 16384;

pub const CAPACITY_LIMIT: u16 = CELLS as u16;

pub const VALUE_LIMIT: u16 = 65535;
