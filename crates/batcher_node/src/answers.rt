//! What a node answers.

ghost use Rattle.std.specs.Prelude.{◌≡◌, Some};
ghost use Rattle.batcher_node.specs.declared.answers.EnterFault.TheVariants.{OutOfMemory as OutOfMemoryFault};
ghost use Rattle.batcher_node.specs.declared.answers.EnterFault.TheVariants.{LeaderChanged as LeaderChangedFault};
ghost use Rattle.batcher_node.specs.Texts.{ahead_text, cause_text, verdict_text};

use batcher::messages::Activity;
use batcher::round::BlockReason;
use batcher::verifier::LeaderFault;
use std::alloc::AllocError;
use std::fmt;
use thiserror::Error;

/// What became of a peer's message, where `A` is what it is answered.
#[derive(Clone, Copy, Debug, PartialEq, Eq)]
pub enum Receipt<A> {
    /// Its view is in the window.
    Answered(A),
    /// It is of a view outside of the window, or of another epoch. That blocks nobody.
    Outside,
    /// The peer was blocked before, so the message wasn't looked at.
    Dropped,
    /// The peer takes no part, so the message wasn't looked at.
    Unknown,
}

impl<A: fmt::Display> fmt::Display for Receipt<A> {
    /// What the message is answered, or why there is no answer.
    fn fmt<W: fmt::Write>(&self, f: &mut fmt::Formatter<W>) -> fmt::Result {
        match self {
            Receipt::Answered(answer) => write!(f, "{answer}"),
            Receipt::Outside => f.write_str("outside"),
            Receipt::Dropped => f.write_str("dropped"),
            Receipt::Unknown => f.write_str("unknown"),
        }
    }
}

/// What became of a peer's certificate.
#[derive(Clone, Copy, Debug, PartialEq, Eq)]
pub enum Verdict {
    /// It certifies what it names. Of a notarization it says whether another proposal is selected
    /// than before; of any other certificate it says false, also where it selects one.
    Recorded(bool),
    /// It doesn't, and the peer is blocked.
    Forged,
    /// Its view has one of its kind, so it wasn't verified.
    Known,
}

impl fmt::Display for Verdict {
    ghost output = { λ verdict. Some (verdict_text verdict) };

    fn fmt<W: fmt::Write>(&self, f: &mut fmt::Formatter<W>) -> fmt::Result {
        f.write_str(match self {
            Verdict::Recorded(true) => "recorded, another proposal selected",
            Verdict::Recorded(false) => "recorded",
            Verdict::Forged => "forged",
            Verdict::Known => "known",
        })
    }
}

/// What became of a peer's certificate from beyond the window, which isn't recorded.
#[derive(Clone, Copy, Debug, PartialEq, Eq)]
pub enum Ahead {
    /// It certifies what it names.
    Certified,
    /// It doesn't, and the peer is blocked.
    Forged,
}

impl fmt::Display for Ahead {
    ghost output = { λ answer. Some (ahead_text answer) };

    fn fmt<W: fmt::Write>(&self, f: &mut fmt::Formatter<W>) -> fmt::Result {
        f.write_str(match self {
            Ahead::Certified => "certified",
            Ahead::Forged => "forged",
        })
    }
}

/// What became of a vote of the node's own.
#[derive(Clone, Copy, Debug, PartialEq, Eq)]
pub enum Cast<G, D> {
    /// It is the first of its kind and signer, and is to be sent to all. This is reported of it.
    ToSend(Activity<G, D>),
    /// There was one before: a nullify, or a vote of which nothing that is kept shows that the two
    /// differ. So it isn't to be sent: who has the earlier one would block the sender of another.
    Known,
    /// It is of a view outside of the window, or of another epoch, and wasn't looked at.
    Outside,
}

impl<G, D: fmt::Display> fmt::Display for Cast<G, D> {
    /// Whether the vote is to be sent, with what is reported of it.
    fn fmt<W: fmt::Write>(&self, f: &mut fmt::Formatter<W>) -> fmt::Result {
        match self {
            Cast::ToSend(report) => write!(f, "to send {report}"),
            Cast::Known => f.write_str("known"),
            Cast::Outside => f.write_str("outside"),
        }
    }
}

/// Why a peer is blocked.
#[derive(Clone, Copy, Debug, PartialEq, Eq)]
pub enum Cause {
    Vote(BlockReason),
    /// It sent a certificate that doesn't certify what it names.
    Certificate,
    /// A construction found that a vote that it sent doesn't attest.
    Signature,
}

impl fmt::Display for Cause {
    ghost output = { λ cause. Some (cause_text cause) };

    fn fmt<W: fmt::Write>(&self, f: &mut fmt::Formatter<W>) -> fmt::Result {
        match self {
            Cause::Vote(reason) => write!(f, "{reason}"),
            Cause::Certificate => write!(f, "a certificate that doesn't certify"),
            Cause::Signature => write!(f, "a vote that doesn't attest"),
        }
    }
}

/// Why a view isn't entered. Nothing changes then.
#[derive(Clone, Copy, Debug, PartialEq, Eq, Error)]
pub enum EnterFault {
    /// It is before the finalized view.
    #[error("view before the finalized one")]
    Passed,
    /// Another leader of the view was named before.
    #[error("leader changed within round")]
    LeaderChanged,
    #[error("out of memory")]
    OutOfMemory,
}

impl From<AllocError> for EnterFault {
    ghost from_gives = { λ _ fault. fault ≡ OutOfMemoryFault };

    fn from(_: AllocError) -> Self {
        EnterFault::OutOfMemory
    }
}

impl From<LeaderFault> for EnterFault {
    ghost from_gives = { λ _ fault. fault ≡ LeaderChangedFault };

    fn from(_: LeaderFault) -> Self {
        EnterFault::LeaderChanged
    }
}
