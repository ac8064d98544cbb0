//! Calls of a round and their answers, as values; the definitions over lists of them; the lemmas
//! that tie what a round holds to the calls that it had; and what every list of calls promises. The
//! folders `specs` and `proofs` hold most of this crate.
#![tactic(auto)]

pub mod answers;
pub mod calls;
