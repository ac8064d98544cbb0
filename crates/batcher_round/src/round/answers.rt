//! What a round answers to votes, by what is known of their signers.

ghost use Rattle.std.specs.Prelude.{◌≡◌, ◌&&◌};
ghost use Rattle.batcher_types.specs.declared.messages.Kind.TheVariants.{Notarization as NotarizeKind};
ghost use Rattle.batcher_types.specs.Votes.{is_kind};
ghost use Rattle.batcher_histories.specs.Admissions.{refusal, block_for, addition, report_of};
ghost use Rattle.batcher_histories.specs.Admissions.{mismatch_reason, conflict_reason};
ghost use Rattle.batcher_histories.specs.Admissions.{admission_of, admission_beside};
ghost use Rattle.batcher_histories.specs.Admissions.{admission_after, admission_after_facts};
ghost use Rattle.batcher_histories.specs.Steps.{fixed_by, is_added, is_kept, opposite_fault};
ghost use Rattle.batcher_histories.specs.Steps.{report_by, unopposed_result};

use crate::round::{Admission, BlockReason, OwnFault};
use batcher_types::messages::{Activity, Digest, Kind, Proposal, Vote};
use batcher_votes::votes::Outcome;

// The vote is refused, for no fault of its sender.
pub(super) fn refused<G, D>() -> Admission<G, D>
    ensures { result ≡ refusal }
{
    Admission {
        added: false,
        block: None,
        report: None,
    }
}

// The vote is refused and its sender blocked.
pub(super) fn blocked<G, D>(reason: BlockReason, report: Option<Activity<G, D>>) -> Admission<G, D>
    ensures { result ≡ block_for reason report }
{
    Admission {
        added: false,
        block: Some(reason),
        report,
    }
}

// What is answered to a vote that no kept one excludes, of which this came.
pub(super) fn admission_of<G: Copy, D: Copy>(outcome: Outcome, vote: &Vote<G, D>) -> Admission<G, D>
    ensures { result ≡ admission_of outcome vote.now }
{
    match outcome {
        Outcome::Added { .. } => added(vote),
        Outcome::Duplicate { .. } => refused(),
        Outcome::Conflicting => blocked(conflict_reason(vote.kind()), None),
    }
}

// The vote is added and reported.
pub(super) fn added<G: Copy, D: Copy>(vote: &Vote<G, D>) -> Admission<G, D>
    ensures { result ≡ addition vote.now }
{
    Admission {
        added: true,
        block: None,
        report: Some(report_of(*vote)),
    }
}

pub(super) fn report_of<G, D>(vote: Vote<G, D>) -> Activity<G, D>
    ensures { result ≡ report_of vote }
{
    match vote {
        Vote::Notarize(notarize) => Activity::Notarize(notarize),
        Vote::Nullify(nullify) => Activity::Nullify(nullify),
        Vote::Finalize(finalize) => Activity::Finalize(finalize),
    }
}

// A vote that is added is reported.
pub(super) fn report_by<G: Copy, D: Copy>(
    outcome: Outcome,
    vote: Vote<G, D>,
) -> Option<Activity<G, D>>
    ensures { result ≡ report_by outcome vote }
{
    match outcome {
        Outcome::Added { .. } => Some(report_of(vote)),
        Outcome::Duplicate { .. } | Outcome::Conflicting => None,
    }
}

// Whether a notarization changed the selected proposal.
pub(super) fn is_selected_anew(kind: Kind, changed: bool) -> bool
    ensures { result ≡ (is_kind NotarizeKind kind && changed) }
{
    match kind {
        Kind::Notarization => changed,
        Kind::Nullification | Kind::Finalization => false,
    }
}

// Whether a vote is added.
pub(super) fn is_added(outcome: Outcome) -> bool
    ensures { result ≡ is_added outcome }
{
    matches!(outcome, Outcome::Added { .. })
}

// Whether a vote is added and kept in full.
pub(super) fn is_kept(outcome: Outcome) -> bool
    ensures { result ≡ is_kept outcome }
{
    match outcome {
        Outcome::Added { retained } => retained,
        Outcome::Duplicate { .. } | Outcome::Conflicting => false,
    }
}

// The fault of an own vote that its index's other one of nullify and finalize excludes.
pub(super) fn opposite_fault(kind: Kind) -> OwnFault
    ensures { result ≡ opposite_fault kind }
{
    match kind {
        Kind::Notarization => OwnFault::FinalizeAfterNullify,
        Kind::Nullification => OwnFault::NullifyAfterFinalize,
        Kind::Finalization => OwnFault::FinalizeAfterNullify,
    }
}

// The proposal that an own vote fixes. A finalize does, since the node finalizes a proposal only
// once it knows it to be notarized: a quorum is behind it, as where a certificate is recorded.
// A notarize is for what the node has seen of the leader, who may have sent two.
pub(super) fn fixed_by<G, D: Copy>(vote: &Vote<G, D>) -> Option<Proposal<D>>
    ensures { result ≡ fixed_by vote.now }
{
    match vote {
        Vote::Notarize(_) => None,
        Vote::Nullify(_) => None,
        Vote::Finalize(finalize) => Some(finalize.proposal),
    }
}

// What comes of an own vote that isn't excluded so, or why it is refused. A node casts one notarize
// and one finalize in a view, so a second is a fault of its own. A repeated nullify is none: a
// driver casts it again at each retry, for peers that haven't got it.
pub(super) fn unopposed_result(kind: Kind, outcome: Outcome) -> Result<Outcome, OwnFault>
    ensures { result ≡ unopposed_result kind outcome }
{
    match outcome {
        Outcome::Added { .. } | Outcome::Duplicate { retained: false } => Ok(outcome),
        Outcome::Duplicate { retained: true } => match kind {
            Kind::Notarization => Err(OwnFault::DuplicateNotarize),
            Kind::Nullification => Ok(outcome),
            Kind::Finalization => Err(OwnFault::DuplicateFinalize),
        },
        Outcome::Conflicting => Err(OwnFault::Conflicting),
    }
}

pub(super) fn mismatch_reason(kind: Kind) -> BlockReason
    ensures { result ≡ mismatch_reason kind }
{
    match kind {
        Kind::Notarization => BlockReason::NotarizeSignerMismatch,
        Kind::Nullification => BlockReason::NullifySignerMismatch,
        Kind::Finalization => BlockReason::FinalizeSignerMismatch,
    }
}

pub(super) fn conflict_reason(kind: Kind) -> BlockReason
    ensures { result ≡ conflict_reason kind }
{
    match kind {
        Kind::Notarization => BlockReason::ConflictingNotarize,
        Kind::Nullification => BlockReason::ConflictingNullify,
        Kind::Finalization => BlockReason::ConflictingFinalize,
    }
}

// The answer to a vote after a kept one of the other of nullify and finalize.
pub(super) fn conflict_with_opposite<G: Copy, D: Copy>(
    earlier: Vote<G, D>,
    vote: Vote<G, D>,
) -> Admission<G, D>
    ensures { result ≡ admission_after earlier vote }
{
    match (earlier, vote) {
        (Vote::Finalize(finalize), Vote::Nullify(nullify)) => blocked(
            BlockReason::NullifyAfterFinalize,
            Some(Activity::NullifyFinalize(nullify, finalize)),
        ),
        (Vote::Nullify(nullify), Vote::Finalize(finalize)) => blocked(
            BlockReason::FinalizeAfterNullify,
            Some(Activity::NullifyFinalize(nullify, finalize)),
        ),
        (Vote::Notarize(_), _)
        | (Vote::Nullify(_), Vote::Notarize(_) | Vote::Nullify(_))
        | (Vote::Finalize(_), Vote::Notarize(_) | Vote::Finalize(_)) => refused(),
    }
}

// The same, where the earlier one isn't kept.
pub(super) fn conflict_with_facts<G: Copy, D: Copy>(vote: &Vote<G, D>) -> Admission<G, D>
    ensures { result ≡ admission_after_facts vote.now }
{
    match vote {
        Vote::Notarize(_) => refused(),
        Vote::Nullify(_) => blocked(BlockReason::NullifyAfterFinalize, None),
        Vote::Finalize(_) => blocked(BlockReason::FinalizeAfterNullify, None),
    }
}

// The answer to a vote beside the kept one of its kind and signer.
pub(super) fn compare_with_kept<G: Copy + Eq, D: Digest>(
    kept: Vote<G, D>,
    vote: Vote<G, D>,
) -> Admission<G, D>
    ensures { result ≡ admission_beside D.eq G.eq kept vote }
{
    match (kept, vote) {
        (Vote::Notarize(first), Vote::Notarize(second)) => {
            if first.proposal != second.proposal {
                let evidence = Activity::ConflictingNotarize(first, second);
                blocked(BlockReason::ConflictingNotarize, Some(evidence))
            } else if first == second {
                refused()
            } else {
                blocked(BlockReason::InvalidSignature, None)
            }
        }
        (Vote::Nullify(first), Vote::Nullify(second)) => {
            if first == second {
                refused()
            } else {
                blocked(BlockReason::ConflictingNullify, None)
            }
        }
        (Vote::Finalize(first), Vote::Finalize(second)) => {
            if first.proposal != second.proposal {
                let evidence = Activity::ConflictingFinalize(first, second);
                blocked(BlockReason::ConflictingFinalize, Some(evidence))
            } else if first == second {
                refused()
            } else {
                blocked(BlockReason::InvalidSignature, None)
            }
        }
        (Vote::Notarize(_), Vote::Nullify(_) | Vote::Finalize(_))
        | (Vote::Nullify(_), Vote::Notarize(_) | Vote::Finalize(_))
        | (Vote::Finalize(_), Vote::Notarize(_) | Vote::Nullify(_)) => refused(),
    }
}
