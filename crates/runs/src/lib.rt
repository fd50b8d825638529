// No code: what a run of the replica is, and what holds of every run.
#![tactic(auto)]
