//! Verdicts that come, and constructions by them.

use crate::calls::{Call, OfBytes};
use crate::judged::{Judged, known_in};
use batcher::messages::{Attestation, Certificate, Sha256Digest, Subject};
use batcher::verifier::Batch;
use batcher_bytes::{Content, Signature, Truth};
use std::alloc::{AllocError, Global};

/// Verdicts on a list, of what the next construction wants verdicts on, from the first on. False
/// where the list isn't that: then nothing changes.
#[derive(Drop)]
pub struct RecordVerdicts<'l> {
    pub subject: Subject<Sha256Digest>,
    pub list: &'l [Attestation<Signature>],
    pub verdicts: &'l [bool],
}

impl<'l, T: Truth> Call<T> for RecordVerdicts<'l> {
    ghost use Rattle.std.specs.Prelude.{◌≡◌, map};
    ghost use Rattle.batcher_verdicts.specs.Calls.{Hears};

    type Answer = Result<bool, AllocError>;

    ghost needs = { λ call x keys.
        call.verdicts.now ≡ map (x.meaning.attests call.subject) call.list.now };

    ghost does = { λ call x keys old answer new.
        Hears x old call.subject call.list.now call.verdicts.now answer new };

    fn make<S: OfBytes<T>>(self, judged: &mut Judged<S>) -> Result<bool, AllocError> {
        judged
            .verdicts
            .record(&judged.round, self.subject, self.list, self.verdicts)
    }
}

/// The next construction, by the verdicts that are recorded. None where one is missing, or where no
/// kind is ready: then nothing changes.
#[derive(Drop)]
pub struct Conclude;

impl<T: Truth> Call<T> for Conclude {
    ghost use Rattle.batcher_verdicts.specs.Calls.{ConstructsNext};

    type Answer = Result<Option<Batch<Certificate<Content<T>, Sha256Digest>>>, AllocError>;

    ghost needs = { λ call x keys. Unit {0} };

    ghost does = { λ call x keys old answer new. ConstructsNext x old answer new };

    fn make<S: OfBytes<T>>(
        self,
        judged: &mut Judged<S>,
    ) -> Result<Option<Batch<Certificate<Content<T>, Sha256Digest>>>, AllocError> {
        judged.verdicts.try_construct(&mut judged.round)
    }
}

/// The next construction, of a quorum that passes as a whole: the attestations that are known to
/// attest, and then all that wait. None where the subject and the list aren't those of the next
/// construction, or where the list is no quorum: then nothing changes.
#[derive(Drop)]
pub struct ConcludeTogether<'l> {
    pub alloc: Global,
    pub subject: Subject<Sha256Digest>,
    pub list: &'l [Attestation<Signature>],
}

impl<'l, T: Truth> Call<T> for ConcludeTogether<'l> {
    ghost use Rattle.std.specs.Prelude.{◌≡◌, true};
    ghost use Rattle.batcher_verdicts.specs.Calls.{ConcludesTogether};

    type Answer = Result<Option<Batch<Certificate<Content<T>, Sha256Digest>>>, AllocError>;

    ghost needs = { λ call x keys. T.passes keys call.subject call.list.now ≡ true };

    ghost does = { λ call x keys old answer new.
        ConcludesTogether x old keys call.subject call.list.now answer new };

    fn make<S: OfBytes<T>>(
        self,
        judged: &mut Judged<S>,
    ) -> Result<Option<Batch<Certificate<Content<T>, Sha256Digest>>>, AllocError> {
        let Some(known) = known_in(&*judged.scheme, &judged.round, &self.subject, self.list) else {
            return Ok(None);
        };
        let (prior, fresh) = self.list.split_at(known);
        let certificate = judged
            .scheme
            .together(self.alloc, self.subject, prior, fresh)?;
        Ok(judged.round.conclude_with(self.subject, fresh, certificate))
    }
}
