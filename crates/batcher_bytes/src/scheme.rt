//! The scheme whose signatures are bytes.

ghost use Rattle.std.specs.Prelude.{◌≡◌, ◌++◌, ◌≤◌, true, length, IfOk, IfErr, OnOk};
ghost use Rattle.std.specs.Result.{result_ok};
ghost use Rattle.std.specs.List.{AllPass};
ghost use Rattle.batcher_types.specs.Attestations.{Sorts, IsQuorum};
ghost use Rattle.batcher_bytes.specs.Listings.{Passed, attests, listing_of};
ghost use Rattle.batcher_bytes.specs.Meanings.{certifies, made_of, made_at_once};

use crate::certificates::{Content, Listed};
use crate::signature::{Keys, Signature};
use crate::truth::Truth;
use batcher_types::messages::{Attestation, Sha256Digest, Subject};
use batcher_types::positions::Set;
use batcher_types::scheme::{Name, Scheme, Verification};
use rand_core::CryptoRng;
use std::alloc::{AllocError, Global};
use std::marker::PhantomData;

/// A scheme that verifies nothing by itself: its rounds are handed verdicts.
///
/// Whoever constructs without them is answered that memory is out, as often as a kind is ready.
#[derive(Drop)]
pub struct Bytes<T: Truth, const BATCHABLE: bool> {
    /// The participant of an index has this index as its name.
    pub participants: Set<Name>,
    pub keys: Keys,
    of: PhantomData<T>,
}

impl<T: Truth, const BATCHABLE: bool> Bytes<T, BATCHABLE> {
    /// The scheme of these participants.
    pub fn new(participants: Set<Name>, keys: Keys) -> Self
        ensures participants { result.participants ≡ participants }
        ensures keys { result.keys ≡ keys }
    {
        Bytes {
            participants,
            keys,
            of: PhantomData,
        }
    }

    /// The certificate of a quorum that passes as a whole, of a scheme that aggregates: the
    /// attestations that were verified before, and fresh ones. A round takes it by `conclude_with`.
    pub fn together(
        &self,
        alloc: Global,
        subject: Subject<Sha256Digest>,
        prior: &[Attestation<Signature>],
        fresh: &[Attestation<Signature>],
    ) -> Result<Content<T>, AllocError>
        requires quorum { IsQuorum (length self.now.participants) (prior.now ++ fresh.now) }
        requires passes { T.passes self.now.keys subject (prior.now ++ fresh.now) ≡ true }
        ensures made { IfOk result (λ certificate. certificate
            ≡ made_of self.now.keys (length self.now.participants) subject
            (prior.now ++ fresh.now)) }
        ensures certifies { IfOk result (λ certificate. certifies self.now.keys
            (length self.now.participants) subject certificate ≡ true) }
    {
        let certificate = self.listed(alloc, subject, prior, fresh)?;
        Ok(certificate)
    }

    // A certificate of what has passed.
    fn listed(
        &self,
        alloc: Global,
        subject: Subject<Sha256Digest>,
        prior: &[Attestation<Signature>],
        fresh: &[Attestation<Signature>],
    ) -> Result<Content<T>, AllocError>
        requires { Passed T.Truth (listing_of self.now.keys (length self.now.participants) subject
            (prior.now ++ fresh.now)) }
        ensures { IfOk result (λ certificate. certificate
            ≡ made_of self.now.keys (length self.now.participants) subject
            (prior.now ++ fresh.now)) }
    {
        let mut all = Vec::with_capacity(alloc, prior.len().saturating_add(fresh.len()))?;
        all.extend_from_slice(prior)?;
        all.extend_from_slice(fresh)?;
        let participants = self.participants.len() as u32;
        Ok(Content::Made(Listed::new(self.keys, participants, subject, all)))
    }
}

impl<T: Truth, const BATCHABLE: bool> Scheme<Sha256Digest> for Bytes<T, BATCHABLE> {
    type PublicKey = Name;

    type Signature = Signature;

    type Certificate = Content<T>;

    ghost meaning = { λ s. record {
      participants = s.participants;
      batchable = BATCHABLE;
      attests = λ subject a. attests T.Truth s.keys (length s.participants) subject a;
      certifies = λ subject c. certifies s.keys (length s.participants) subject c;
      left_by_verifying = λ subject pending stream. stream;
      assembled_at_once = λ subject pending verified stream. made_at_once s.keys
          (length s.participants) T.Truth subject pending verified stream;
      assembled = λ subject prior fresh. made_of s.keys (length s.participants) subject
          (prior ++ fresh);
    } };

    ghost use Rattle.batcher_bytes.specs.Certifying.{in_range, made, at_once_certifies};
    ghost use Rattle.batcher_bytes.specs.Certifying.{at_once_gives};

    ghost lawful = { λ s. record {
      signers_in_range = λ subject a h. in_range T.Truth s.keys (length s.participants) subject a h;
      optimistic_certifies = λ subject pending verified stream c may e. at_once_certifies T.Truth
          s.keys (length s.participants) subject pending verified stream c e;
      optimistic_gives = λ subject pending verified stream may all. at_once_gives T.Truth s.keys
          (length s.participants) subject pending verified stream all;
      assembled_certifies = λ subject prior fresh some quorum pass. made T.Truth s.keys
          (length s.participants) subject (prior ++ fresh);
    } };

    fn participants(&self) -> &Set<Name> {
        &self.participants
    }

    fn is_batchable() -> bool {
        BATCHABLE
    }

    /// Nobody asks it, so it answers that it can't.
    fn verify_attestations<R: CryptoRng>(
        &self,
        alloc: Global,
        rng: &mut R,
        subject: Subject<Sha256Digest>,
        pending: &[Attestation<Signature>],
    ) -> Result<Verification<Signature>, AllocError>
        ensures sorts { IfOk result (Sorts (attests T.Truth self.now.keys
            (length self.now.participants) subject) pending.now) }
        ensures stream { OnOk result (R.stream rng.new ≡ R.stream rng.old) }
    {
        let _ = alloc;
        let _ = rng;
        let _ = subject;
        let _ = pending;
        Err(AllocError)
    }

    /// Nobody asks it, so it answers that it can't.
    fn optimistic_assemble<R: CryptoRng>(
        &self,
        alloc: Global,
        rng: &mut R,
        subject: Subject<Sha256Digest>,
        pending: &[Attestation<Signature>],
        verified: &[Attestation<Signature>],
    ) -> Result<Result<Content<T>, Verification<Signature>>, AllocError>
        ensures sorts { IfOk result (λ answer. IfErr answer (Sorts (attests T.Truth self.now.keys
            (length self.now.participants) subject) pending.now)) }
        ensures function { IfOk result (λ answer. (result_ok answer, R.stream rng.new)
            ≡ made_at_once self.now.keys (length self.now.participants) T.Truth subject
            pending.now verified.now (R.stream rng.old)) }
    {
        let _ = alloc;
        let _ = rng;
        let _ = subject;
        let _ = pending;
        let _ = verified;
        Err(AllocError)
    }

    fn assemble(
        &self,
        alloc: Global,
        subject: Subject<Sha256Digest>,
        prior: &[Attestation<Signature>],
        fresh: &[Attestation<Signature>],
    ) -> Result<Content<T>, AllocError>
        requires some { 1 ≤ length self.now.participants }
        requires quorum { IsQuorum (length self.now.participants) (prior.now ++ fresh.now) }
        requires attested { AllPass (attests T.Truth self.now.keys (length self.now.participants)
            subject) (prior.now ++ fresh.now) }
        ensures function { IfOk result (λ certificate. certificate
            ≡ made_of self.now.keys (length self.now.participants) subject
            (prior.now ++ fresh.now)) }
    {
        self.listed(alloc, subject, prior, fresh)
    }

    fn verify_certificate(&self, subject: Subject<Sha256Digest>, certificate: &Content<T>) -> bool
        ensures { result ≡ certifies self.now.keys (length self.now.participants) subject
            certificate.now }
    {
        match certificate {
            Content::Made(listed) => listed.is_for(self.keys, self.participants.len(), subject),
            Content::Received(verified) => verified.is_for(self.keys, subject),
        }
    }
}
