// Document 01, "Lines": from a line's bytes to one of the nine calls.
#![tactic(auto)]

pub mod read;
