//! What is promised of networks of validators, whatever they are called for, and over crashes.
#![tactic(auto)]

ghost use Rattle.std.specs.Prelude.{Bool, List, ℕ};
ghost use Rattle.batcher_agreement.specs.Lives.{HasHeldInLives};
ghost use Rattle.batcher_agreement.specs.Participants.{AreBacked, AreUnforged, IsHonest};
ghost use Rattle.batcher_agreement.specs.Voters.{AreFewFaulty};
ghost use Rattle.batcher_theorems.specs.Lives.{AreLives, ValidatorLife as TheLife};
ghost use Rattle.batcher_theorems.specs.Lives.{acts_in, voter_lives, AgreeOnFinals};
ghost use Rattle.batcher_theorems.specs.Calls.{AreLivesByCalls, CalledLife as Called};
ghost use Rattle.batcher_bytes.specs.Messages.{certificate_format};

use batcher::messages::Digest;
use batcher::scheme::Scheme;
use batcher_agreement::{honest_voters_agree, honest_voters_agree_unless_forged};
use batcher_bytes::{Codec, OwnedCodec};
use batcher_evidence::Accountable;
use batcher_node::NodeConfigs;

/// Does nothing. Its contract says that validators agree on what they give as final: where fewer
/// than a third of the participants are faulty, and each other one has lives of a `Validator`, of
/// any two proposals that any two of them gave as final in an epoch the one of the lower view is in
/// the chain of the other.
///
/// A life counts up to the last moment at which its disk had all that was cast, and the next one
/// goes on by that. It is supposed that behind each certificate that an honest one had by then are
/// votes of a quorum, of which nobody else made those of the honest (`AreBacked`).
pub fn validators_agree<S: Scheme<D>, D: Digest, L: Drop>()
    ensures { (scheme : S) (is_faulty : ℕ → Bool)
        → (lives : ℕ → List (TheLife S D S.PublicKey S.Signature S.Certificate L))
        → AreFewFaulty (S.meaning scheme) is_faulty
        → ((i : ℕ) → IsHonest (S.meaning scheme) is_faulty i
        → AreLives S.meaning ⟦<S as NodeConfigs<D>>⟧.of (S.meaning scheme) (lives i))
        → AreBacked (S.meaning scheme) is_faulty
        (λ i. HasHeldInLives (voter_lives (lives i))) (λ i. acts_in (lives i))
        → AgreeOnFinals (S.meaning scheme) is_faulty lives }
{
    honest_voters_agree::<S, D>()
}

/// Does nothing. The same of a scheme whose certificates show attestations. It is supposed that
/// where one shows an attestation of an honest participant which attests, that one has voted so
/// (`AreUnforged`).
pub fn validators_agree_unless_forged<S: Accountable<D>, D: Digest, L: Drop>()
    ensures { (scheme : S) (is_faulty : ℕ → Bool)
        → (lives : ℕ → List (TheLife S D S.PublicKey S.Signature S.Certificate L))
        → AreFewFaulty (S.meaning scheme) is_faulty
        → ((i : ℕ) → IsHonest (S.meaning scheme) is_faulty i
        → AreLives S.meaning ⟦<S as NodeConfigs<D>>⟧.of (S.meaning scheme) (lives i))
        → AreUnforged (S.meaning scheme) is_faulty S.shown
        (λ i. HasHeldInLives (voter_lives (lives i))) (λ i. acts_in (lives i))
        → AgreeOnFinals (S.meaning scheme) is_faulty lives }
{
    honest_voters_agree_unless_forged::<S, D>()
}

/// Does nothing. The lives of validators are made of their calls: each begins as `start` makes it
/// behind what was done in the lives before, and goes on by calls each of which keeps to its
/// contract, where `meets`, `gives`, `rests` and the like say what happened by it.
///
/// Its contract says that these are the lives of `validators_agree`.
pub fn calls_make_lives<S: Scheme<D>, D: Digest + Codec, L: Drop>()
where
    S::Certificate: OwnedCodec,
    ensures { (scheme : S)
        → (called : List (Called S D S.PublicKey S.Signature S.Certificate L))
        → (lives : List (TheLife S D S.PublicKey S.Signature S.Certificate L))
        → AreLivesByCalls ⟦<S as NodeConfigs<D>>⟧.of
        (certificate_format S.Certificate.format D.format) S.meaning (S.meaning scheme) called
        lives
        → AreLives S.meaning ⟦<S as NodeConfigs<D>>⟧.of (S.meaning scheme) lives }
{}
