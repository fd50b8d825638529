// The handlers of core.rs that need no table of blocks.
//
// `votes` has VOTE and the vote for a block, `timeouts` TIMEOUT, TC and TICK, `proposals` PROPOSE up
// to its payload. Each takes the committee, the state, and the lent tallies and output.
#![tactic(auto)]

mod checks;
pub mod proposals;
pub mod timeouts;
pub mod votes;
