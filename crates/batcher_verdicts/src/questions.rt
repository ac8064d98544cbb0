//! What is asked of a round.

use crate::calls::{Ask, OfBytes};
use batcher::messages::{Kind, Proposal, Sha256Digest};
use batcher::positions::{Participant, Participants};
use batcher::round::Round;
use batcher::run::possible_histories_are_promised;
use batcher_bytes::Truth;
use std::alloc::AllocError;

/// The leader, once it is set.
#[derive(Drop)]
pub struct Leader;

impl<T: Truth> Ask<T> for Leader {
    ghost use Rattle.std.specs.Prelude.{◌≡◌};
    ghost use Rattle.batcher_histories.specs.Selection.{leader_of};

    type Answer = Option<Participant>;

    ghost says = { λ question x past answer. answer ≡ leader_of past };

    fn ask<S: OfBytes<T>>(self, round: &Round<S, Sha256Digest>) -> Option<Participant> {
        round.leader()
    }
}

/// The selected proposal: the leader's, or one that evidence fixed.
#[derive(Drop)]
pub struct Selected;

impl<T: Truth> Ask<T> for Selected {
    ghost use Rattle.std.specs.Prelude.{◌≡◌};
    ghost use Rattle.batcher_histories.specs.Selection.{selected_proposal};

    type Answer = Option<Proposal<Sha256Digest>>;

    ghost says = { λ question x past answer. answer ≡ selected_proposal x past };

    fn ask<S: OfBytes<T>>(self, round: &Round<S, Sha256Digest>) -> Option<Proposal<Sha256Digest>> {
        round.proposal()
    }
}

/// Whether a certificate of the kind is there.
#[derive(Drop)]
pub struct HasCertificate {
    pub kind: Kind,
}

impl<T: Truth> Ask<T> for HasCertificate {
    ghost use Rattle.std.specs.Prelude.{◌≡◌};
    ghost use Rattle.batcher_histories.specs.Selection.{is_certified};

    type Answer = bool;

    ghost says = { λ question x past answer. answer ≡ is_certified past question.kind };

    fn ask<S: OfBytes<T>>(self, round: &Round<S, Sha256Digest>) -> bool {
        round.has_certificate(self.kind)
    }
}

/// Whether a nullify of the signer is kept in full.
#[derive(Drop)]
pub struct HasNullify {
    pub signer: Participant,
}

impl<T: Truth> Ask<T> for HasNullify {
    ghost use Rattle.std.specs.Prelude.{◌≡◌};
    ghost use Rattle.batcher_histories.specs.Answers.{keeps_nullify};

    type Answer = bool;

    ghost says = { λ question x past answer. answer ≡ keeps_nullify x past question.signer.0 };

    fn ask<S: OfBytes<T>>(self, round: &Round<S, Sha256Digest>) -> bool {
        round.has_nullify(self.signer)
    }
}

/// Whether the participant isn't known to have the block of the proposal.
#[derive(Drop)]
pub struct IsMissingVoter {
    pub proposal: Proposal<Sha256Digest>,
    pub participant: Participant,
}

impl<T: Truth> Ask<T> for IsMissingVoter {
    ghost use Rattle.std.specs.Prelude.{◌≡◌, not};
    ghost use Rattle.batcher_histories.specs.Comparison.{has_block};

    type Answer = bool;

    ghost says = { λ question x past answer.
        answer ≡ not (has_block x past question.participant.0 question.proposal) };

    fn ask<S: OfBytes<T>>(self, round: &Round<S, Sha256Digest>) -> bool {
        round.is_missing_voter(&self.proposal, self.participant)
    }
}

/// The participants that aren't known to have the block of the proposal, in ascending order.
#[derive(Drop)]
pub struct MissingVoters {
    pub proposal: Proposal<Sha256Digest>,
}

impl<T: Truth> Ask<T> for MissingVoters {
    ghost use Rattle.std.specs.Prelude.{◌≡◌, IfOk};
    ghost use Rattle.batcher_histories.specs.Answers.{missing_after};

    type Answer = Result<Participants, AllocError>;

    ghost says = { λ question x past answer.
        IfOk answer (λ list. list ≡ missing_after x past question.proposal) };

    fn ask<S: OfBytes<T>>(
        self,
        round: &Round<S, Sha256Digest>,
    ) -> Result<Participants, AllocError> {
        round.missing_voters(&self.proposal)
    }
}

/// Nothing, and its answer says that all that is promised of a round holds of its history.
#[derive(Drop)]
pub struct Promises;

impl<T: Truth> Ask<T> for Promises {
    ghost use Rattle.batcher.specs.RunContract.{IsPromised};

    type Answer = ();

    ghost says = { λ question x past answer. IsPromised x past };

    fn ask<S: OfBytes<T>>(self, round: &Round<S, Sha256Digest>) {
        let _ = round.number();
        possible_histories_are_promised::<S, Sha256Digest>();
    }
}
