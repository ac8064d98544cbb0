//! Why those who vote by the policy agree on what is final: over all views of an epoch, and over
//! restarts. And what it takes that two nodes construct certificates which contradict each other.
#![tactic(auto)]

mod cuts;
mod forks;

ghost use Rattle.std.specs.Prelude.{Bool, List, ℕ};
ghost use Rattle.batcher_agreement.specs.Agreement.{Agree};
ghost use Rattle.batcher_agreement.specs.Examples.{AgreementExamples};
ghost use Rattle.batcher_agreement.specs.Lives.{HasHeldInLives, Life as TheLife, conduct_of_lives};
ghost use Rattle.batcher_agreement.specs.Participants.{AreBacked, AreUnforged};
ghost use Rattle.batcher_agreement.specs.Voters.{AreFewFaulty, AreVoters};

use batcher::messages::Digest;
use batcher::scheme::Scheme;
use batcher_evidence::Accountable;
use batcher_node::{NodeConfigs, senders_of_votes_to_send_are_never_blocked};
pub use cuts::lives_keep_the_policy_by_their_disks;
pub use forks::nodes_fork_by_contradicting_votes;

/// Does nothing. Where fewer than a third of the participants are faulty, and each other one votes
/// by the policy (`AreVoters`), with nodes of one scheme and in however many lives, the honest
/// agree: what is final for one of them is in the chain of all that is notarized or final in the
/// same or a later view of its epoch.
///
/// It is supposed that behind each certificate that an honest one has are votes of a quorum, of
/// which nobody else made those of the honest (`AreBacked`).
pub fn honest_voters_agree<S: Scheme<D>, D: Digest>()
    ensures { (scheme : S) (is_faulty : ℕ → Bool)
        → (lives : ℕ → List (TheLife S D S.PublicKey S.Signature S.Certificate))
        → AreFewFaulty (S.meaning scheme) is_faulty
        → AreVoters S.meaning ⟦<S as NodeConfigs<D>>⟧.of (S.meaning scheme) is_faulty lives
        → AreBacked (S.meaning scheme) is_faulty
        (λ i. HasHeldInLives (lives i)) (λ i. conduct_of_lives (lives i))
        → Agree (S.meaning scheme) is_faulty (λ i. conduct_of_lives (lives i)) }
{
    senders_of_votes_to_send_are_never_blocked::<S, D>()
}

/// Does nothing. The same of a scheme whose certificates show attestations. It is supposed that
/// where one shows an attestation of an honest participant which attests, that one has voted so
/// (`AreUnforged`).
pub fn honest_voters_agree_unless_forged<S: Accountable<D>, D: Digest>()
    ensures { (scheme : S) (is_faulty : ℕ → Bool)
        → (lives : ℕ → List (TheLife S D S.PublicKey S.Signature S.Certificate))
        → AreFewFaulty (S.meaning scheme) is_faulty
        → AreVoters S.meaning ⟦<S as NodeConfigs<D>>⟧.of (S.meaning scheme) is_faulty lives
        → AreUnforged (S.meaning scheme) is_faulty S.shown
        (λ i. HasHeldInLives (lives i)) (λ i. conduct_of_lives (lives i))
        → Agree (S.meaning scheme) is_faulty (λ i. conduct_of_lives (lives i)) }
{
    honest_voters_agree::<S, D>()
}

/// Does nothing. Its contract has worked examples: four participants, of whom one is faulty, that
/// keep the policy, and whose certificates are backed, with a proposal that is final; and two lives
/// of a participant, of which the first loses a vote by a crash.
pub fn worked_examples()
    ensures { AgreementExamples }
{}
