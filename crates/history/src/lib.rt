// The trace of a payment. No function here writes a table of the book; trace writes only the two tables that it
// is lent.
#![tactic(auto)]

pub mod refusals;
pub mod trace;
