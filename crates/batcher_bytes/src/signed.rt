//! The scheme whose certificates are kept with their verdicts.

ghost use Rattle.std.specs.Prelude.{◌≡◌, ◌++◌, ◌≤◌, length, IfOk, IfErr, OnOk};
ghost use Rattle.std.specs.Result.{result_ok};
ghost use Rattle.std.specs.List.{AllPass};
ghost use Rattle.batcher_types.specs.Attestations.{Sorts, IsQuorum};
ghost use Rattle.batcher_bytes.specs.Kept.{proof_of, proved_at_once, vouches};
ghost use Rattle.batcher_bytes.specs.Listings.{attests};

use crate::encode_list;
use crate::proof::Proof;
use crate::signature::{Keys, Signature};
use crate::truth::Truth;
use batcher_types::messages::{Attestation, Sha256Digest, Subject};
use batcher_types::positions::Set;
use batcher_types::scheme::{Name, Scheme, Verification};
use rand_core::CryptoRng;
use std::alloc::{AllocError, Global};
use std::marker::PhantomData;

/// A scheme that verifies nothing by itself, as `Bytes`, whose certificates can be kept on a disk:
/// a validator over it is handed verdicts. Whether one that is read again certifies is what the
/// disk says.
#[derive(Drop)]
pub struct Signed<T: Truth, const BATCHABLE: bool> {
    /// The participant of an index has this index as its name.
    pub participants: Set<Name>,
    pub keys: Keys,
    of: PhantomData<T>,
}

impl<T: Truth, const BATCHABLE: bool> Signed<T, BATCHABLE> {
    /// The scheme of these participants.
    pub fn new(participants: Set<Name>, keys: Keys) -> Self
        ensures participants { result.participants ≡ participants }
        ensures keys { result.keys ≡ keys }
    {
        Signed {
            participants,
            keys,
            of: PhantomData,
        }
    }
}

// The certificate of these attestations.
fn listed(
    alloc: Global,
    subject: Subject<Sha256Digest>,
    prior: &[Attestation<Signature>],
    fresh: &[Attestation<Signature>],
) -> Result<Proof, AllocError>
    ensures { IfOk result (λ certificate. certificate
        ≡ proof_of subject (prior.now ++ fresh.now)) }
{
    let mut all = Vec::with_capacity(alloc, prior.len().saturating_add(fresh.len()))?;
    all.extend_from_slice(prior)?;
    all.extend_from_slice(fresh)?;
    let mut bytes = Vec::new(alloc);
    encode_list(all.as_slice(), &mut bytes)?;
    Ok(Proof::new(subject, true, bytes))
}

impl<T: Truth, const BATCHABLE: bool> Scheme<Sha256Digest> for Signed<T, BATCHABLE> {
    type PublicKey = Name;

    type Signature = Signature;

    type Certificate = Proof;

    ghost meaning = { λ s. record {
      participants = s.participants;
      batchable = BATCHABLE;
      attests = λ subject a. attests T.Truth s.keys (length s.participants) subject a;
      certifies = λ subject c. vouches subject c;
      left_by_verifying = λ subject pending stream. stream;
      assembled_at_once = λ subject pending verified stream. proved_at_once T.Truth s.keys
          (length s.participants) subject pending verified stream;
      assembled = λ subject prior fresh. proof_of subject (prior ++ fresh);
    } };

    ghost use Rattle.batcher_bytes.specs.Kept.{proved_gives, vouched, vouched_at_once};
    ghost use Rattle.batcher_bytes.specs.Certifying.{in_range};

    ghost lawful = { λ s. record {
      signers_in_range = λ subject a h. in_range T.Truth s.keys (length s.participants) subject a h;
      optimistic_certifies = λ subject pending verified stream c may e. vouched_at_once T.Truth
          s.keys (length s.participants) subject pending verified stream c e;
      optimistic_gives = λ subject pending verified stream may all. proved_gives T.Truth s.keys
          (length s.participants) subject pending verified stream all;
      assembled_certifies = λ subject prior fresh some quorum pass. vouched T.Truth s.keys
          (length s.participants) subject (prior ++ fresh);
    } };

    fn participants(&self) -> &Set<Name> {
        &self.participants
    }

    fn is_batchable() -> bool {
        BATCHABLE
    }

    /// Nobody asks it, so it answers that it can't.
    fn verify_attestations<R: CryptoRng>(
        &self,
        alloc: Global,
        rng: &mut R,
        subject: Subject<Sha256Digest>,
        pending: &[Attestation<Signature>],
    ) -> Result<Verification<Signature>, AllocError>
        ensures sorts { IfOk result (Sorts (attests T.Truth self.now.keys
            (length self.now.participants) subject) pending.now) }
        ensures stream { OnOk result (R.stream rng.new ≡ R.stream rng.old) }
    {
        let _ = alloc;
        let _ = rng;
        let _ = subject;
        let _ = pending;
        Err(AllocError)
    }

    /// Nobody asks it, so it answers that it can't.
    fn optimistic_assemble<R: CryptoRng>(
        &self,
        alloc: Global,
        rng: &mut R,
        subject: Subject<Sha256Digest>,
        pending: &[Attestation<Signature>],
        verified: &[Attestation<Signature>],
    ) -> Result<Result<Proof, Verification<Signature>>, AllocError>
        ensures sorts { IfOk result (λ answer. IfErr answer (Sorts (attests T.Truth self.now.keys
            (length self.now.participants) subject) pending.now)) }
        ensures function { IfOk result (λ answer. (result_ok answer, R.stream rng.new)
            ≡ proved_at_once T.Truth self.now.keys (length self.now.participants) subject
            pending.now verified.now (R.stream rng.old)) }
    {
        let _ = alloc;
        let _ = rng;
        let _ = subject;
        let _ = pending;
        let _ = verified;
        Err(AllocError)
    }

    fn assemble(
        &self,
        alloc: Global,
        subject: Subject<Sha256Digest>,
        prior: &[Attestation<Signature>],
        fresh: &[Attestation<Signature>],
    ) -> Result<Proof, AllocError>
        requires some { 1 ≤ length self.now.participants }
        requires quorum { IsQuorum (length self.now.participants) (prior.now ++ fresh.now) }
        requires attested { AllPass (attests T.Truth self.now.keys (length self.now.participants)
            subject) (prior.now ++ fresh.now) }
        ensures function { IfOk result (λ certificate. certificate
            ≡ proof_of subject (prior.now ++ fresh.now)) }
    {
        listed(alloc, subject, prior, fresh)
    }

    fn verify_certificate(&self, subject: Subject<Sha256Digest>, certificate: &Proof) -> bool
        ensures { result ≡ vouches subject certificate.now }
    {
        certificate.is_for(subject)
    }
}
