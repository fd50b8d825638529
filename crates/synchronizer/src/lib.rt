// The block table, the ancestors of a block, and the commits that a block brings: synchronizer.rs, and
// the part of core.rs's process_block and commit that touches the store.
//
// The table is a slice of slots that the caller lends.
#![tactic(auto)]

pub mod ancestors;
pub mod commit;
pub mod settle;
pub mod table;
