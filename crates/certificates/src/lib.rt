// Members, stake, leaders and certificates, and what a certificate's bytes are read by.
//
// `numbers` has the kinds of number, `num` the reads at a place of a slice, `config` stake, quorum
// and the limits of a setup, `committee` the members with the own place and the quorum, `leader` who
// leads, `signers` the sets of places, `messages` the checks of certificates, `error` the numbers that
// the host sees. A committee is a lent slice of its members' stakes. Every public function answers for
// every input.
#![tactic(auto)]

pub mod committee;
pub mod config;
pub mod error;
pub mod leader;
pub mod messages;
pub mod num;
pub mod numbers;
pub mod signers;
