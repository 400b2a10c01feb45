// The book runner: line after line, and read after read.
#![tactic(auto)]

pub mod feed;
mod find;
pub mod hold;
pub mod session;
