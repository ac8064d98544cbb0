//! What comes from elsewhere: votes of peers, certificates, and who leads.

use crate::calls::{Call, OfBytes};
use crate::judged::Judged;
use batcher::messages::{Certificate, Proposal, Sha256Digest, Vote};
use batcher::positions::Participant;
use batcher::round::Admission;
use batcher::scheme::Name;
use batcher::verifier::LeaderFault;
use batcher_bytes::{Content, Signature, Truth};
use std::alloc::AllocError;

/// A peer sent a vote. None where it is of another round.
#[derive(Drop)]
pub struct AddNetwork {
    pub sender: Name,
    pub vote: Vote<Signature, Sha256Digest>,
}

impl<T: Truth> Call<T> for AddNetwork {
    ghost use Rattle.batcher_verdicts.specs.Calls.{Adds};

    type Answer = Result<Option<Admission<Signature, Sha256Digest>>, AllocError>;

    ghost needs = { λ call x keys. Unit {0} };

    ghost does = { λ call x keys old answer new. Adds x old call.sender call.vote answer new };

    fn make<S: OfBytes<T>>(
        self,
        judged: &mut Judged<S>,
    ) -> Result<Option<Admission<Signature, Sha256Digest>>, AllocError> {
        if !judged.round.belongs(&self.vote) {
            return Ok(None);
        }
        let admission = judged.round.add_network(self.sender, self.vote)?;
        Ok(Some(admission))
    }
}

/// A certificate that was verified. It says of a notarization whether another proposal is selected
/// than before. None where it is of another round.
#[derive(Drop)]
pub struct RecordCertificate<T: Truth> {
    pub certificate: Certificate<Content<T>, Sha256Digest>,
}

impl<T: Truth> Call<T> for RecordCertificate<T> {
    ghost use Rattle.batcher_verdicts.specs.Calls.{Takes};

    type Answer = Result<Option<bool>, AllocError>;

    ghost needs = { λ call x keys. Unit {0} };

    ghost does = { λ call x keys old answer new. Takes x old call.certificate answer new };

    fn make<S: OfBytes<T>>(self, judged: &mut Judged<S>) -> Result<Option<bool>, AllocError> {
        if !judged.round.belongs_certificate(&self.certificate) {
            return Ok(None);
        }
        let selected_anew = judged.round.record_certificate(&self.certificate)?;
        Ok(Some(selected_anew))
    }
}

/// The leader is named. The same one again changes nothing; another one is refused.
#[derive(Drop)]
pub struct SetLeader {
    pub leader: Participant,
}

impl<T: Truth> Call<T> for SetLeader {
    ghost use Rattle.batcher_verdicts.specs.Calls.{NamesLeader};

    type Answer = Result<(), LeaderFault>;

    ghost needs = { λ call x keys. Unit {0} };

    ghost does = { λ call x keys old answer new. NamesLeader x old call.leader answer new };

    fn make<S: OfBytes<T>>(self, judged: &mut Judged<S>) -> Result<(), LeaderFault> {
        judged.round.set_leader(self.leader)
    }
}

/// The selected proposal, to hand on by participant `me`: once at most, and not where it leads.
#[derive(Drop)]
pub struct Forward {
    pub me: Participant,
}

impl<T: Truth> Call<T> for Forward {
    ghost use Rattle.batcher_verdicts.specs.Calls.{HandsOn};

    type Answer = Option<Proposal<Sha256Digest>>;

    ghost needs = { λ call x keys. Unit {0} };

    ghost does = { λ call x keys old answer new. HandsOn x old call.me answer new };

    fn make<S: OfBytes<T>>(self, judged: &mut Judged<S>) -> Option<Proposal<Sha256Digest>> {
        judged.round.try_forward_proposal(self.me)
    }
}
