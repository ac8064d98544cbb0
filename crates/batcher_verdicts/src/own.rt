//! Votes of the node's own.

use crate::calls::{Call, OfBytes};
use crate::judged::Judged;
use batcher::messages::{Activity, Sha256Digest, Vote};
use batcher::round::OwnFault;
use batcher::votes::Outcome;
use batcher_bytes::{Signature, Truth};

/// Why a vote of the node's own isn't taken in.
#[derive(Clone, Copy, Debug, PartialEq, Eq)]
pub enum OwnRefusal {
    /// It is of another round.
    Elsewhere,
    /// The verdict on it says that it doesn't attest.
    NotVerified,
    /// The round refuses it.
    Fault(OwnFault),
}

/// A vote of the node's own, and the verdict on it. A refusal leaves the round as it was.
#[derive(Drop)]
pub struct AcceptVote {
    pub vote: Vote<Signature, Sha256Digest>,
    pub attests: bool,
}

impl<T: Truth> Call<T> for AcceptVote {
    ghost use Rattle.std.specs.Prelude.{◌≡◌, true};
    ghost use Rattle.batcher_types.specs.Votes.{attestation_of, subject_of};
    ghost use Rattle.batcher_verdicts.specs.Calls.{Accepts};

    type Answer = Result<(Outcome, Option<Activity<Signature, Sha256Digest>>), OwnRefusal>;

    ghost needs = { λ call x keys. call.attests ≡ true
        → x.meaning.attests (subject_of call.vote) (attestation_of call.vote) ≡ true };

    ghost does = { λ call x keys old answer new. Accepts x old call.vote call.attests answer new };

    fn make<S: OfBytes<T>>(
        self,
        judged: &mut Judged<S>,
    ) -> Result<(Outcome, Option<Activity<Signature, Sha256Digest>>), OwnRefusal> {
        if !judged.round.belongs(&self.vote) {
            return Err(OwnRefusal::Elsewhere);
        }
        if !self.attests {
            return Err(OwnRefusal::NotVerified);
        }
        match judged.round.accept_vote(self.vote) {
            Ok(answer) => Ok(answer),
            Err(fault) => Err(OwnRefusal::Fault(fault)),
        }
    }
}
