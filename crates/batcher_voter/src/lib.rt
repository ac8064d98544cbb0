//! A voter: a validator's node and the journal of its votes. It votes by a policy by which those
//! who follow it agree on what is final.
#![tactic(auto)]

mod ahead;
mod answers;
mod asking;
mod calls;
mod casting;
mod concluding;
mod knowledge;
mod learned;
mod moving;
mod reading;
mod starting;
mod voter;

pub use answers::{CastFault, FinalizeFault, Permission, Rule, StartFault};
pub use starting::{NotStarted, what_is_readable_starts};
pub use voter::Voter;
