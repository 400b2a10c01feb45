// One call answered, its reply written, and the tally raised once.
#![tactic(auto)]

pub mod step;
pub mod tally;
pub mod traced;
