//! Verdicts that come in parts: those on attestations that wait are kept until each has one, and
//! no attestation is asked about twice while it waits for one subject.
//!
//! And rounds over signatures as bytes, of either sort of scheme, each with its verdicts. A sort is
//! a type, and whether a scheme is batchable is known at run time alone where a caller says so. So
//! a value here is one of two, and a call is made of whichever it is.
#![tactic(auto)]

mod any_round;
mod calls;
mod construct;
mod either;
mod judged;
mod network;
mod nodes;
mod own;
mod questions;
mod recorded;
mod request;
mod requests;
mod rounds;
mod theorems;

pub use any_round::AnyRound;
pub use calls::{Ask, Call, OfBytes};
pub use construct::{Conclude, ConcludeTogether, RecordVerdicts};
pub use either::Either;
pub use judged::Judged;
pub use network::{AddNetwork, Forward, RecordCertificate, SetLeader};
pub use own::{AcceptVote, OwnRefusal};
pub use questions::{
    HasCertificate, HasNullify, IsMissingVoter, Leader, MissingVoters, Promises, Selected,
};
pub use requests::Requests;
pub use rounds::Verdicts;
pub use theorems::verdicts_stay_while_they_wait;
