//! A task, as a value.

use batcher::messages::{Kind, Proposal, Subject, Vote};
use batcher::positions::{Participant, Round, View};
use batcher_node::Cause;

/// What is to be done next.
#[derive(Clone, Copy, Debug, PartialEq, Eq)]
pub enum Task<G, D> {
    /// Block this participant, for this cause: drop what it sends, and close its connection.
    Block(Participant, Cause),
    /// This proposal is final, and so are those below it. No lower view is looked at any more.
    Final(Proposal<D>),
    /// Cast this vote of an earlier life again, once it is seen to attest. It is on the disk.
    Cast(Vote<G, D>),
    /// Send this vote of the validator's own to all others. It is on the disk.
    SendVote(Vote<G, D>),
    /// Send the certificate of this kind and round to all others: `certificate` lends it.
    SendCertificate(Kind, Round),
    /// Forward the payload of what is notarized in this round. Whoever isn't in its certificate,
    /// which was given to be sent before, may lack it.
    Forward(Round),
    /// Enter this view, with its leader, and start its timer.
    Enter(View),
    /// Have votes verified that wait for it: construct.
    Verify,
    /// Sign this with the key of the validator, and cast the vote.
    Sign(Subject<D>),
    /// Make a proposal of this view, whose parent is of that view, and say so by `propose`.
    Propose { view: View, parent: View },
    /// Judge whether this proposal is valid, and say so by `judge`.
    Judge(Proposal<D>),
}

/// Why a validator doesn't say what is to be done.
#[derive(Clone, Copy, Debug, PartialEq, Eq)]
pub enum PollFault {
    /// Nothing has changed.
    OutOfMemory,
    /// The finalization of the view that is to be the final one has too many bytes for the journal.
    Full,
    /// The disk failed, now or before. Start the validator again by what is on it.
    Closed,
}
