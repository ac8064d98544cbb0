//! The scheme: what attestations and certificates are worth. The batcher is proved over any
//! scheme that keeps the laws stated here.

ghost use Rattle.std.specs.Prelude.{◌≡◌, ◌≤◌, ◌++◌, length, IfOk, IfErr, OnOk};
ghost use Rattle.std.specs.List.{AllPass};
ghost use Rattle.std.specs.Result.{result_ok};
ghost use Rattle.batcher_types.specs.Attestations.{Sorts, IsQuorum};
ghost use Rattle.batcher_types.specs.Meaning.{Meaning, IsLawful};

mod counter;
mod hashing;
mod keyed;
mod sealed;

use crate::messages::{Attestation, Digest, Subject};
use crate::positions::{Participant, Set};
pub use counter::Counter;
pub use keyed::{AttestationList, Keyed, Name, names};
use rand_core::CryptoRng;
pub use sealed::Sealed;
use std::alloc::{AllocError, Global};

/// What a check of attestations finds: those that attest, and the signers of the others, both in
/// the order in which they were handed in.
#[derive(Clone, Debug, Drop, PartialEq, Eq)]
pub struct Verification<G> {
    pub verified: Vec<Attestation<G>>,
    pub invalid: Vec<Participant>,
}

/// A scheme of signatures and certificates over the digests `D`, for one set of participants.
///
/// `meaning` is all that callers know of it. It has the relations `attests` and `certifies`, and
/// what each call answers as a function of what goes in, the generator's stream included: so
/// equal inputs give equal answers, and leave equal streams. Out of memory is the only error.
pub trait Scheme<D: Digest>: Drop {
    type PublicKey: Copy + Ord;

    type Signature: Copy + Eq;

    type Certificate: Drop;

    ghost meaning: { Self → Meaning D Self.PublicKey Self.Signature Self.Certificate };

    /// The keys of the participants.
    fn participants(&self) -> &Set<Self::PublicKey>
        ensures { result.now ≡ (meaning self.now).participants };

    /// Whether it pays to wait for a quorum before attestations are verified.
    fn is_batchable() -> bool
        ensures { (s : Self) → (meaning s).batchable ≡ result };

    /// Verifies each attestation.
    fn verify_attestations<R: CryptoRng>(
        &self,
        alloc: Global,
        rng: &mut R,
        subject: Subject<D>,
        pending: &[Attestation<Self::Signature>],
    ) -> Result<Verification<Self::Signature>, AllocError>
        ensures sorts { IfOk result (Sorts ((meaning self.now).attests subject) pending.now) }
        ensures stream { OnOk result (R.stream rng.new
            ≡ (meaning self.now).left_by_verifying subject pending.now (R.stream rng.old)) };

    /// Gives a certificate of a quorum of attestations at once, or verifies the pending ones.
    ///
    /// A certificate says nothing of a single pending attestation, but where all of them attest
    /// there is one.
    fn optimistic_assemble<R: CryptoRng>(
        &self,
        alloc: Global,
        rng: &mut R,
        subject: Subject<D>,
        pending: &[Attestation<Self::Signature>],
        verified: &[Attestation<Self::Signature>],
    ) -> Result<Result<Self::Certificate, Verification<Self::Signature>>, AllocError>
        requires some { 1 ≤ length (meaning self.now).participants }
        requires quorum { IsQuorum (length (meaning self.now).participants)
            (verified.now ++ pending.now) }
        requires attested { AllPass ((meaning self.now).attests subject) verified.now }
        ensures sorts { IfOk result (λ answer. IfErr answer
            (Sorts ((meaning self.now).attests subject) pending.now)) }
        ensures function { IfOk result (λ answer. (result_ok answer, R.stream rng.new)
            ≡ (meaning self.now).assembled_at_once subject pending.now verified.now
            (R.stream rng.old)) };

    /// The certificate of a quorum of attestations that all attest.
    fn assemble(
        &self,
        alloc: Global,
        subject: Subject<D>,
        prior: &[Attestation<Self::Signature>],
        fresh: &[Attestation<Self::Signature>],
    ) -> Result<Self::Certificate, AllocError>
        requires some { 1 ≤ length (meaning self.now).participants }
        requires quorum { IsQuorum (length (meaning self.now).participants)
            (prior.now ++ fresh.now) }
        requires attested { AllPass ((meaning self.now).attests subject) (prior.now ++ fresh.now) }
        ensures function { IfOk result (λ certificate. certificate
            ≡ (meaning self.now).assembled subject prior.now fresh.now) };

    /// Whether the certificate certifies the subject.
    fn verify_certificate(&self, subject: Subject<D>, certificate: &Self::Certificate) -> bool
        ensures { result ≡ (meaning self.now).certifies subject certificate.now };

    // Signers in range, optimistic assembly and assembly, as laws of the meaning. Exact
    // verification, determinism and the certificate check are clauses above.
    ghost lawful: { (s : Self) → IsLawful (meaning s) };
}
