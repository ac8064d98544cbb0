//! What votes and certificates are about, and which of that contradicts each other.

ghost use Rattle.std.specs.Prelude.{◌≡◌};
ghost use Rattle.batcher.specs.Votes.{same_round};
ghost use Rattle.batcher.specs.Reports.{subjects_contradict};
ghost use Rattle.batcher_evidence.specs.Culprits.{certificates_contradict};

use batcher::messages::{Certificate, Digest, Subject};
use batcher::positions::Round;

/// Whether nobody honest signs both: different proposals of one round to notarize, or to finalize,
/// or a nullify and a finalize of one round.
///
/// To notarize one proposal and to finalize another don't contradict each other by themselves.
/// Nor do a notarize and a nullify, which the honest may sign both.
pub fn contradict<D: Digest>(a: Subject<D>, b: Subject<D>) -> bool
    ensures { result ≡ subjects_contradict D.eq a b }
{
    match (a, b) {
        (Subject::Notarize { proposal: p }, Subject::Notarize { proposal: q }) => {
            is_same_round(p.round, q.round) && p != q
        }
        (Subject::Finalize { proposal: p }, Subject::Finalize { proposal: q }) => {
            is_same_round(p.round, q.round) && p != q
        }
        (Subject::Nullify { round }, Subject::Finalize { proposal }) => {
            is_same_round(round, proposal.round)
        }
        (Subject::Finalize { proposal }, Subject::Nullify { round }) => {
            is_same_round(proposal.round, round)
        }
        (
            Subject::Notarize { .. } | Subject::Nullify { .. },
            Subject::Notarize { .. } | Subject::Nullify { .. },
        )
        | (Subject::Notarize { .. }, Subject::Finalize { .. })
        | (Subject::Finalize { .. }, Subject::Notarize { .. }) => false,
    }
}

/// Whether nobody honest signs what both certify. What they are worth is left out.
pub fn certificates_contradict<C, D: Digest>(a: &Certificate<C, D>, b: &Certificate<C, D>) -> bool
    ensures { result ≡ certificates_contradict D.eq a.now b.now }
{
    contradict(a.subject(), b.subject())
}

fn is_same_round(a: Round, b: Round) -> bool
    ensures { result ≡ same_round a b }
{
    a.epoch.0 == b.epoch.0 && a.view.0 == b.view.0
}
