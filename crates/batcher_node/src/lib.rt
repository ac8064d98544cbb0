//! A validator's rounds over many views: each view has a round of its own, and no more are kept
//! than the window of views is wide, whatever peers send.
#![tactic(auto)]

mod answers;
mod due;
mod node;
mod rounds;
mod slot;
mod step;
mod theorems;
mod views;
mod window;

pub use answers::{Ahead, Cast, Cause, EnterFault, Receipt, Verdict};
pub use node::{Construction, Node, NodeConfigs};
pub use theorems::{
    nodes_keep_their_promises, senders_of_votes_to_send_are_never_blocked, worked_examples,
};
pub use views::Views;
pub use window::Window;
