// Document 01's limits, and the sizes of tables and rows, named once. The definitions name them in specs/Limits and
// specs/Tables; a number that differs from them there is not proved.

// Amount of a call: 1 to the ceiling; lifetime deposits of one asset: at most the ceiling.
pub const CEILING: u64 = 1_000_000_000_000_000;
// Members, assets and domains are counted from 1.
pub const MEMBERS: u64 = 16;

pub const ASSETS: u64 = 8;

pub const DOMAINS: u64 = 8;

pub const HIGHEST_PAYEE: u64 = 65_535;

pub const HIGHEST_NUMBER: u64 = 4_294_967_295;

pub const HIGHEST_NEXT: u64 = 1024;
// A line has at most so many bytes before its line feed, and of one that comes in parts so many are held.
pub const MOST_BYTES: usize = 120;

pub const MOST_HELD: usize = 121;
// Inbox, outbox, history: 64, 32 and 1,024 rows, and how many numbers a row has.
pub const INBOX_ROWS: usize = 64;

pub const OUTBOX_ROWS: usize = 32;

pub const HISTORY_ROWS: usize = 1024;

pub const DEPOSIT_WIDTH: usize = 4;

pub const PAYMENT_WIDTH: usize = 4;

pub const RECORD_WIDTH: usize = 5;
// How many numbers each table has.
pub const INBOX_SIZE: usize = INBOX_ROWS * DEPOSIT_WIDTH;

pub const OUTBOX_SIZE: usize = OUTBOX_ROWS * PAYMENT_WIDTH;

pub const HISTORY_SIZE: usize = HISTORY_ROWS * RECORD_WIDTH;
