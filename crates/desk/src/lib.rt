// What every call needs of a desk: the tests on fields, a balance, a holder, a total, and a refusal where it applies.
// Every function is total: outside the limits there is no balance, no holder and no total, so 0.
#![tactic(auto)]

pub mod answers;
pub mod fields;
pub mod keep;
