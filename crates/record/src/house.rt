// The fields of the house record: their tags in ascending order, bytes as they stand in a record, and their limits.
pub const SUITE: u8 = 1;

pub const ROW: u8 = 2;

pub const NONCE: u8 = 3;

pub const NOTE: u8 = 4;

pub const CIPHER: u8 = 5;

pub const TAG: u8 = 6;

// Suites and rows count from one.
pub const MOST_SUITE: usize = 4;

pub const MOST_ROW: usize = 20;

pub const MOST_NOTE: usize = 1024;

pub const MOST_CIPHER: usize = 4096;

pub const TAG_BYTES: usize = 16;
