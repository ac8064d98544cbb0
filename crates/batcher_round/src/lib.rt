//! One round: what it answers to votes, and the certificates that it makes of them.
#![tactic(auto)]

pub mod round;
