//! Votes on their way to a certificate: a tracker keeps the first of each kind and signer, and a
//! verifier those that wait.
#![tactic(auto)]

mod per_kind;
pub mod verifier;
pub mod votes;
