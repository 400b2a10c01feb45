// Made by tests/cases/history.py: the cases.

// The rules by which a history is made.
#[derive(Clone, Copy, PartialEq, Eq)]
pub enum Rule {
    // 400 lots go back and forth whole, 600 times, and then pay.
    Whole,
    // Two members pay each other back and forth, splitting as they go.
    Split,
    // One of each kind.
    Each,
    // All members and assets.
    Everyone,
    // No record at all.
    Nothing,
}

// A history, the place of a number of it that is changed, that number, and how many rows the work table and the
// pieces table have.
pub type Case = (Rule, usize, u64, usize, usize);

pub static CASES: [Case; 52] = [
    (Rule::Whole, 5120, 0, 1024, 1024),
    (Rule::Whole, 5120, 0, 1001, 1001),
    (Rule::Whole, 5120, 0, 1000, 1024),
    (Rule::Whole, 5120, 0, 1024, 1000),
    (Rule::Split, 5120, 0, 1024, 1024),
    (Rule::Split, 5120, 0, 1023, 1024),
    (Rule::Everyone, 5120, 0, 1024, 1024),
    (Rule::Nothing, 5120, 0, 0, 0),
    (Rule::Each, 5120, 0, 1024, 1024),
    (Rule::Each, 5120, 0, 6, 6),
    (Rule::Each, 5120, 0, 5, 6),
    (Rule::Each, 5120, 0, 6, 5),
    (Rule::Each, 5120, 0, 0, 0),
    (Rule::Split, 5117, 2001, 1024, 1024),
    (Rule::Everyone, 5115, 5, 1024, 1024),
    (Rule::Each, 0, 0, 1024, 1024),
    (Rule::Each, 20, 5, 1024, 1024),
    (Rule::Each, 25, 18446744073709551615, 1024, 1024),
    (Rule::Each, 26, 0, 1024, 1024),
    (Rule::Each, 26, 9, 1024, 1024),
    (Rule::Each, 27, 0, 1024, 1024),
    (Rule::Each, 27, 1000000000000001, 1024, 1024),
    (Rule::Each, 28, 0, 1024, 1024),
    (Rule::Each, 28, 17, 1024, 1024),
    (Rule::Each, 29, 0, 1024, 1024),
    (Rule::Each, 29, 4294967296, 1024, 1024),
    (Rule::Each, 29, 4294967295, 1024, 1024),
    (Rule::Each, 27, 1000000000000000, 1024, 1024),
    (Rule::Each, 6, 0, 1024, 1024),
    (Rule::Each, 7, 0, 1024, 1024),
    (Rule::Each, 8, 0, 1024, 1024),
    (Rule::Each, 9, 17, 1024, 1024),
    (Rule::Each, 9, 2, 1024, 1024),
    (Rule::Each, 7, 501, 1024, 1024),
    (Rule::Each, 8, 6, 1024, 1024),
    (Rule::Each, 7, 351, 1024, 1024),
    (Rule::Each, 7, 350, 1024, 1024),
    (Rule::Each, 11, 4, 1024, 1024),
    (Rule::Each, 12, 0, 1024, 1024),
    (Rule::Each, 13, 0, 1024, 1024),
    (Rule::Each, 14, 0, 1024, 1024),
    (Rule::Each, 14, 65536, 1024, 1024),
    (Rule::Each, 12, 451, 1024, 1024),
    (Rule::Each, 17, 351, 1024, 1024),
    (Rule::Each, 17, 350, 1024, 1024),
    (Rule::Each, 21, 0, 1024, 1024),
    (Rule::Each, 21, 9, 1024, 1024),
    (Rule::Each, 22, 2, 1024, 1024),
    (Rule::Each, 23, 0, 1024, 1024),
    (Rule::Each, 24, 17, 1024, 1024),
    (Rule::Each, 24, 1, 1024, 1024),
    (Rule::Each, 23, 3, 1024, 1024),
];
