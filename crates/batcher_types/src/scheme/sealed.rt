//! A scheme whose certificates are one hash. It gives one wherever a quorum attests, although
//! other attestations are bad: so it uses what the law of optimistic assembly leaves open.

ghost use Rattle.std.specs.Prelude.{◌≡◌, ◌++◌, ◌<◌, ◌≤◌, true, length, IfOk, IfErr, OnOk};
ghost use Rattle.std.specs.Result.{result_ok};
ghost use Rattle.std.specs.List.{AllPass};
ghost use Rattle.batcher_types.specs.Hashed.{is_signed, is_signed-range, hashed_signature, seal_of};
ghost use Rattle.batcher_types.specs.Attestations.{Sorts, IsQuorum};
ghost use Rattle.batcher_types.specs.Sealed.{is_sealed, sealed_at_once};

use crate::messages::{Attestation, Sha256Digest, Subject};
use crate::positions::{Participant, Set, quorum};
use crate::scheme::hashing::{attestation, seal};
use crate::scheme::keyed::{Name, verify_each};
use crate::scheme::{Scheme, Verification};
use rand_core::CryptoRng;
use std::alloc::{AllocError, Global};

/// A test scheme whose certificates are one hash. It protects nothing, since its keys follow from
/// the public root.
#[derive(Drop)]
pub struct Sealed {
    pub participants: Set<Name>,
    pub root: [u8; 32],
}

impl Sealed {
    /// It takes no memory.
    pub fn new(participants: Set<Name>, root: [u8; 32]) -> Self
        ensures keys { result.participants ≡ participants }
        ensures root { result.root ≡ root }
    {
        Sealed { participants, root }
    }

    /// The attestation of an index, which attests where the index is a participant's. It takes
    /// no memory.
    pub fn sign(&self, signer: Participant, subject: Subject<Sha256Digest>) -> Attestation<[u8; 32]>
        ensures signer { result.signer ≡ signer }
        ensures signature { result.signature ≡ hashed_signature self.now.root signer.0 subject }
        ensures attests { signer.0 < length self.now.participants
            → is_signed (length self.now.participants) self.now.root subject result ≡ true }
    {
        attestation(&self.root, signer, subject)
    }
}

impl Scheme<Sha256Digest> for Sealed {
    type PublicKey = Name;

    type Signature = [u8; 32];

    type Certificate = [u8; 32];

    ghost meaning = { λ s. record {
      participants = s.participants;
      batchable = true;
      attests = λ subject a. is_signed (length s.participants) s.root subject a;
      certifies = λ subject c. is_sealed (length s.participants) s.root subject c;
      left_by_verifying = λ subject pending stream. stream;
      assembled_at_once =
          λ subject pending verified stream. sealed_at_once (length s.participants) s.root subject
          pending verified stream;
      assembled = λ subject prior fresh. seal_of s.root subject;
    } };

    ghost use Rattle.batcher_types.specs.Lawful.{sealed, seal_certifies, seal_gives};

    ghost lawful = { λ s. record {
      signers_in_range = λ subject a h. is_signed-range (length s.participants) s.root subject a h;
      optimistic_certifies =
          λ subject pending verified stream c may e. seal_certifies (length s.participants) s.root
          subject pending verified stream c may.some e;
      optimistic_gives =
          λ subject pending verified stream may all. seal_gives (length s.participants) s.root
          subject pending verified stream may.quorum all;
      assembled_certifies =
          λ subject prior fresh some quorum pass. sealed (length s.participants) s.root subject
          some;
    } };

    fn participants(&self) -> &Set<Name> {
        &self.participants
    }

    fn is_batchable() -> bool {
        true
    }

    fn verify_attestations<R: CryptoRng>(
        &self,
        alloc: Global,
        rng: &mut R,
        subject: Subject<Sha256Digest>,
        pending: &[Attestation<[u8; 32]>],
    ) -> Result<Verification<[u8; 32]>, AllocError>
        ensures sorts { IfOk result (Sorts
            (is_signed (length self.now.participants) self.now.root subject) pending.now) }
        ensures stream { OnOk result (R.stream rng.new ≡ R.stream rng.old) }
        ensures drawn { R.stream rng.new ≡ R.stream rng.old }
    {
        let _ = rng;
        verify_each(alloc, self.participants.len(), &self.root, subject, pending)
    }

    fn optimistic_assemble<R: CryptoRng>(
        &self,
        alloc: Global,
        rng: &mut R,
        subject: Subject<Sha256Digest>,
        pending: &[Attestation<[u8; 32]>],
        verified: &[Attestation<[u8; 32]>],
    ) -> Result<Result<[u8; 32], Verification<[u8; 32]>>, AllocError>
        requires some { 1 ≤ length self.now.participants }
        requires quorum { IsQuorum (length self.now.participants) (verified.now ++ pending.now) }
        requires attested { AllPass (is_signed (length self.now.participants) self.now.root subject)
            verified.now }
        ensures sorts { IfOk result (λ answer. IfErr answer
            (Sorts (is_signed (length self.now.participants) self.now.root subject) pending.now)) }
        ensures function { IfOk result (λ answer. (result_ok answer, R.stream rng.new)
            ≡ sealed_at_once (length self.now.participants) self.now.root subject pending.now
            verified.now (R.stream rng.old)) }
        ensures drawn { R.stream rng.new ≡ R.stream rng.old }
    {
        let _ = rng;
        let n = self.participants.len();
        let found = verify_each(alloc, n, &self.root, subject, pending)?;
        if verified.len().saturating_add(found.verified.len()) >= quorum(n as u32) as usize {
            Ok(Ok(seal(&self.root, subject)))
        } else {
            Ok(Err(found))
        }
    }

    fn assemble(
        &self,
        alloc: Global,
        subject: Subject<Sha256Digest>,
        prior: &[Attestation<[u8; 32]>],
        fresh: &[Attestation<[u8; 32]>],
    ) -> Result<[u8; 32], AllocError>
        requires some { 1 ≤ length self.now.participants }
        requires quorum { IsQuorum (length self.now.participants) (prior.now ++ fresh.now) }
        requires attested { AllPass (is_signed (length self.now.participants) self.now.root subject)
            (prior.now ++ fresh.now) }
        ensures function { IfOk result (λ c. c ≡ seal_of self.now.root subject) }
    {
        let _ = alloc;
        let _ = prior;
        let _ = fresh;
        Ok(seal(&self.root, subject))
    }

    fn verify_certificate(&self, subject: Subject<Sha256Digest>, certificate: &[u8; 32]) -> bool
        ensures { result ≡ is_sealed (length self.now.participants) self.now.root subject
            certificate.now }
    {
        self.participants.len() >= 1 && *certificate == seal(&self.root, subject)
    }
}
