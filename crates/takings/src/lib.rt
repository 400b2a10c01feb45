// Lent tables of lots: lots that join the end, a taking from the front of a line, and a table cleared.
#![tactic(auto)]

pub mod rows;
pub mod work;
