//! What a voter answers.

use batcher::messages::Vote;
use batcher::positions::View;
use batcher::round::OwnFault;
use std::alloc::AllocError;

/// The rule by which a vote isn't cast.
#[derive(Clone, Copy, Debug, PartialEq, Eq)]
pub enum Rule<G, D> {
    /// It contradicts this vote, which was written.
    Contradicts(Vote<G, D>),
    /// The round was given up, by a nullify that was written: nothing more is notarized there.
    Nullified,
    /// No notarization of the proposal is known, so it isn't finalized.
    NotNotarized,
    /// The proposal's parent isn't of an earlier view.
    ParentNotEarlier,
    /// The parent is of a view before the final one, of which nothing is known any more.
    ParentBeforeFinal,
    /// No proposal of the parent's view is known to be notarized or final.
    ParentUnknown,
    /// This view between the two isn't known to be nullified.
    ViewNotNullified(View),
}

/// What is to be done about a subject.
#[derive(Clone, Copy, Debug, PartialEq, Eq)]
pub enum Permission<G, D> {
    /// It may be signed. Then cast the vote.
    Sign,
    /// This vote for it was written: cast it, and sign no other.
    Known(Vote<G, D>),
    /// It isn't to be signed, by this rule.
    Refused(Rule<G, D>),
    /// It is of a view outside of the window, or of another epoch.
    Outside,
    /// The disk failed, and nothing is known until the journal is opened again.
    Closed,
}

/// Why a vote wasn't cast. Nothing is handed out to be sent then.
#[derive(Clone, Copy, Debug, PartialEq, Eq)]
pub enum CastFault<G, D> {
    /// The vote isn't refused otherwise. Nothing has changed, or it was written and wasn't shown to
    /// the node: cast it again.
    OutOfMemory,
    /// The journal has no room for it. Nothing has changed. Finalize a later view.
    Full,
    /// It is signed by another participant. Nothing has changed.
    NotOwn,
    /// Its subject was signed before, as this vote. Nothing has changed.
    Signed(Vote<G, D>),
    /// By this rule. Nothing has changed.
    Refused(Rule<G, D>),
    /// The disk failed, now or before. Open the journal again.
    Closed,
    /// The node was shown this vote before, or one that excludes it, as it says. The vote is
    /// written, and isn't to be sent.
    Excluded(OwnFault),
}

/// Why a view isn't made the final one.
#[derive(Clone, Copy, Debug, PartialEq, Eq)]
pub enum FinalizeFault {
    /// Nothing has changed.
    OutOfMemory,
    /// The finalization has too many bytes for the journal. Nothing has changed.
    Full,
    /// It is no finalization, or one of another epoch. Nothing has changed.
    NotOfEpoch,
    /// A later view is final. Nothing has changed.
    Passed,
    /// It doesn't certify what it names: who sent it is to be blocked. Nothing has changed.
    Forged,
    /// The disk failed, now or before. Open the journal again.
    Closed,
}

impl From<AllocError> for FinalizeFault {
    ghost use Rattle.std.specs.Prelude.{◌≡◌};
    ghost use Rattle.batcher_voter.specs.declared.answers.FinalizeFault.TheVariants.{OutOfMemory};

    ghost from_gives = { λ _ fault. fault ≡ OutOfMemory };

    fn from(_: AllocError) -> Self {
        FinalizeFault::OutOfMemory
    }
}

/// Why a voter isn't made from a journal.
#[derive(Clone, Copy, Debug, PartialEq, Eq)]
pub enum StartFault {
    OutOfMemory,
    /// The floor is above the start of the epoch, and its finalization is missing.
    NotFinal,
    /// The finalization or a certificate isn't one, or is of another round than the journal says.
    Malformed,
    /// The finalization or a certificate doesn't certify what it names.
    Forged,
}

impl From<AllocError> for StartFault {
    ghost use Rattle.std.specs.Prelude.{◌≡◌};
    ghost use Rattle.batcher_voter.specs.declared.answers.StartFault.TheVariants.{OutOfMemory};

    ghost from_gives = { λ _ fault. fault ≡ OutOfMemory };

    fn from(_: AllocError) -> Self {
        StartFault::OutOfMemory
    }
}
