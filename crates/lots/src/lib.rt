// No code: the laws of lots, lines, replay and trace over the rules, for any member and any asset.

#![tactic(auto)]
