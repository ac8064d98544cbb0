//! A validator: a voter that says what is to be done next, until nothing is. One of signatures as
//! bytes has a caller who verifies them and writes to the disk.
#![tactic(auto)]

mod announcing;
mod answering;
mod casting;
mod concluding;
mod decided;
mod due;
mod inputs;
mod next;
mod polling;
mod posing;
mod presence;
mod recalling;
mod resending;
mod shelf;
mod starting;
mod tally;
mod task;
mod unsigned;
mod validator;

pub use next::Next;
pub use polling::{each_comes_again, poll_comes_to_an_end};
pub use starting::DiskFault;
pub use task::{PollFault, Task};
pub use validator::Validator;
