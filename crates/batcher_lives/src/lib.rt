//! Lives of a validator with a journal: what it asks and writes, and the crashes between and inside
//! these calls, played one after the other.
#![tactic(auto)]

mod deeds;
mod failing;
mod filed;
mod life;
mod restart;

pub use deeds::{Deed, Lived};
pub use failing::{FailingLog, Mishap};
pub use life::live;
pub use restart::Restart;
