// No code: the demands as statements (specs/), and their proofs (proofs/).

#![tactic(auto)]
