//! What a round answers, as values.

ghost use Rattle.std.specs.Prelude.{◌≡◌, Some};
ghost use Rattle.batcher_histories.specs.declared.answers.OwnFault.TheVariants.{OutOfMemory as OutOfMemoryFault};
ghost use Rattle.batcher_histories.specs.Reasons.{text_of};

use batcher_types::messages::{Activity, Certificate, Proposal};
use batcher_types::positions::Participants;
use batcher_votes::verifier::{Batch, LeaderFault};
use batcher_votes::votes::Outcome;
use std::alloc::AllocError;
use std::fmt;
use thiserror::Error;

/// Why the sender of a vote is blocked.
#[derive(Clone, Copy, Debug, PartialEq, Eq)]
pub enum BlockReason {
    /// The sender is no participant of the round's scheme.
    UnknownParticipant,
    /// The notarize names another signer than its sender.
    NotarizeSignerMismatch,
    /// The nullify names another signer than its sender.
    NullifySignerMismatch,
    /// The finalize names another signer than its sender.
    FinalizeSignerMismatch,
    /// An earlier notarize of the signer was for another proposal.
    ConflictingNotarize,
    /// The nullify differs from the one that is kept, which can only be in its signature.
    ConflictingNullify,
    /// An earlier finalize of the signer was for another proposal.
    ConflictingFinalize,
    /// The vote differs from the one that is kept in its signature alone.
    InvalidSignature,
    /// The signer of the nullify has finalized before.
    NullifyAfterFinalize,
    /// The signer of the finalize has nullified before.
    FinalizeAfterNullify,
}

impl fmt::Display for BlockReason {
    ghost output = { λ reason. Some (text_of reason) };

    fn fmt<W: fmt::Write>(&self, f: &mut fmt::Formatter<W>) -> fmt::Result {
        f.write_str(match self {
            BlockReason::UnknownParticipant => "unknown participant",
            BlockReason::NotarizeSignerMismatch => "notarize signer mismatch",
            BlockReason::NullifySignerMismatch => "nullify signer mismatch",
            BlockReason::FinalizeSignerMismatch => "finalize signer mismatch",
            BlockReason::ConflictingNotarize => "conflicting notarize",
            BlockReason::ConflictingNullify => "conflicting nullify",
            BlockReason::ConflictingFinalize => "conflicting finalize",
            BlockReason::InvalidSignature => "invalid signature",
            BlockReason::NullifyAfterFinalize => "nullify after finalize",
            BlockReason::FinalizeAfterNullify => "finalize after nullify",
        })
    }
}

/// Why a vote of the node's own is refused. Nothing changes then.
#[derive(Clone, Copy, Debug, PartialEq, Eq, Error)]
pub enum OwnFault {
    /// A notarize of its index is kept, equal to this one or not.
    #[error("duplicate notarize")]
    DuplicateNotarize,
    /// A finalize of its index is kept, equal to this one or not.
    #[error("duplicate finalize")]
    DuplicateFinalize,
    /// An earlier vote of its kind and index isn't kept, and only one of the two is for the
    /// selected proposal.
    #[error("conflicting constructed vote")]
    Conflicting,
    /// Memory was refused. The same call may succeed later.
    #[error("out of memory")]
    OutOfMemory,
    /// A finalize of its index was seen: who finalizes a view doesn't give up on it.
    #[error("nullify after finalize")]
    NullifyAfterFinalize,
    /// A nullify of its index was seen: who gave up on a view doesn't finalize it.
    #[error("finalize after nullify")]
    FinalizeAfterNullify,
}

impl From<AllocError> for OwnFault {
    ghost from_gives = { λ _ fault. fault ≡ OutOfMemoryFault };

    fn from(_: AllocError) -> Self {
        OwnFault::OutOfMemory
    }
}

/// The answer to a network vote. A block is of its sender; a report is new, or evidence.
#[derive(Clone, Copy, Debug, PartialEq, Eq)]
pub struct Admission<G, D> {
    pub added: bool,
    pub block: Option<BlockReason>,
    pub report: Option<Activity<G, D>>,
}

impl<G, D: fmt::Display> fmt::Display for Admission<G, D> {
    /// Whether the vote was added, the reason for a block and the report, each of them `none` where
    /// there is none.
    fn fmt<W: fmt::Write>(&self, f: &mut fmt::Formatter<W>) -> fmt::Result {
        f.write_str(if self.added { "added" } else { "refused" })?;
        match &self.block {
            Some(reason) => write!(f, ", block {reason}")?,
            None => write!(f, ", block none")?,
        }
        match &self.report {
            Some(report) => write!(f, ", report {report}"),
            None => write!(f, ", report none"),
        }
    }
}

/// The answer to a call, with certificates `C`.
#[derive(Clone, Debug, Drop, PartialEq, Eq)]
pub enum Answer<G, C, D> {
    Network(Admission<G, D>),
    Own(Outcome, Option<Activity<G, D>>),
    /// An own vote is refused, though there is memory.
    OwnRefused(OwnFault),
    Certificate(bool),
    Leader(Result<(), LeaderFault>),
    Construct(Option<Batch<Certificate<C, D>>>),
    Forward(Option<Proposal<D>>),
    Missing(Participants),
    /// Memory was refused, and the round is as it was before the call.
    OutOfMemory,
}
