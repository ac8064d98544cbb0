//! A validator's own votes, each of which is on a disk before it is sent. Over any crashes and
//! restarts no two votes that were handed out contradict each other, and none has two signatures.
#![tactic(auto)]

mod asking;
mod contents;
mod indexed;
mod journal;
mod owner;
mod records;

pub use asking::is_before;
pub use journal::{
    Answer, BeginFault, Journal, OpenFault, RaiseFault, Unopened, WriteFault,
    bytes_are_of_one_journal, handed_out_never_contradict,
};
pub use owner::Owner;
pub use records::Certified;
