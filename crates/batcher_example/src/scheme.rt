//! The smallest scheme. It protects nothing: it takes the word of whoever signs.

ghost use Rattle.std.specs.Prelude.{◌≡◌, ◌&&◌, true, Option, Some, nat_lt, length, IfOk, IfErr};
ghost use Rattle.std.specs.Prelude.{OnOk};
ghost use Rattle.std.specs.Result.{result_ok};
ghost use Rattle.rand_core.specs.Stream.{Stream};
ghost use Rattle.batcher.specs.Attestations.{Sorts};

use batcher::messages::{Attestation, Sha256Digest, Subject};
use batcher::positions::Set;
use batcher::scheme::{Name, Scheme, Verification};
use rand_core::CryptoRng;
use std::alloc::{AllocError, Global};

/// A scheme in which a signature is the word of its signer, and a certificate a mere claim.
#[derive(Drop)]
pub struct Trusting {
    pub participants: Set<Name>,
}

impl Scheme<Sha256Digest> for Trusting {
    // What a participant is known by. Its index is the place of its key in ascending order.
    type PublicKey = Name;

    // What an attestation holds beside its signer: here whether it is to be good.
    type Signature = bool;

    // What a quorum makes, and a node that has seen none of the votes can check.
    type Certificate = ();

    // All that a caller knows of the scheme: the contracts below say that each call answers this.
    ghost meaning = { λ s. record {
      participants = s.participants;
      batchable = true;
      attests = λ subject a. nat_lt a.signer.0 (length s.participants) && a.signature;
      certifies = λ subject c. true;
      left_by_verifying = λ subject pending stream. stream;
      assembled_at_once = λ subject pending verified stream. (Some tt, stream);
      assembled = λ subject prior fresh. tt;
    } };

    ghost use Rattle.std.proofs.Common.{refl, arith};
    ghost use Rattle.std.proofs.lemmas.Bool.Decides.{nat_tests};

    // The laws, in this order: who attests takes part; a certificate that is given at once
    // certifies; where all attest one is given at once; what a quorum that attests is assembled
    // to certifies.
    ghost lawful = { λ s. record {
      signers_in_range = λ subject a h. Prim.grind (arith, nat_tests, h);
      optimistic_certifies = λ subject pending verified stream c may e. refl;
      optimistic_gives = λ subject pending verified stream may all. refl;
      assembled_certifies = λ subject prior fresh some quorum pass. refl;
    } };

    fn participants(&self) -> &Set<Name> {
        &self.participants
    }

    // True where many attestations cost less together than one by one: a round then waits for
    // as many as may be a quorum before it verifies any.
    fn is_batchable() -> bool {
        true
    }

    // Sorts attestations of which no quorum is there. `attests` decides of each by itself, so no
    // vote is good or bad because of those beside it.
    fn verify_attestations<R: CryptoRng>(
        &self,
        alloc: Global,
        rng: &mut R,
        subject: Subject<Sha256Digest>,
        pending: &[Attestation<bool>],
    ) -> Result<Verification<bool>, AllocError>
        ensures sorts { IfOk result (Sorts
            (λ a. nat_lt a.signer.0 (length self.now.participants) && a.signature) pending.now) }
        ensures stream { OnOk result (R.stream rng.new ≡ R.stream rng.old) }
    {
        let _ = rng;
        let _ = subject;
        let mut verified = Vec::new(alloc);
        let mut invalid = Vec::new(alloc);
        let n = self.participants.len();
        for attestation in pending {
            if (attestation.signer.0 as usize) < n && attestation.signature {
                verified.push(*attestation)?;
            } else {
                invalid.push(attestation.signer)?;
            }
        }
        Ok(Verification { verified, invalid })
    }

    // Tries a quorum at once. A scheme that finds a bad vote among them answers the sorted
    // attestations in place of a certificate; this one trusts that none is.
    fn optimistic_assemble<R: CryptoRng>(
        &self,
        alloc: Global,
        rng: &mut R,
        subject: Subject<Sha256Digest>,
        pending: &[Attestation<bool>],
        verified: &[Attestation<bool>],
    ) -> Result<Result<(), Verification<bool>>, AllocError>
        ensures sorts { IfOk result (λ answer. IfErr answer
            (Sorts (λ a. nat_lt a.signer.0 (length self.now.participants) && a.signature)
            pending.now)) }
        ensures function { IfOk result (λ answer. ◌≡◌ {A = Option (Unit {0}) × Stream}
            (result_ok answer, R.stream rng.new) (Some tt, R.stream rng.old)) }
    {
        let _ = alloc;
        let _ = rng;
        let _ = subject;
        let _ = pending;
        let _ = verified;
        Ok(Ok(()))
    }

    // Makes a certificate of a quorum that was verified: first those that were before, then
    // those that are now.
    fn assemble(
        &self,
        alloc: Global,
        subject: Subject<Sha256Digest>,
        prior: &[Attestation<bool>],
        fresh: &[Attestation<bool>],
    ) -> Result<(), AllocError>
        ensures function { IfOk result (λ certificate. certificate ≡ tt) }
    {
        let _ = alloc;
        let _ = subject;
        let _ = prior;
        let _ = fresh;
        Ok(())
    }

    // Checks a certificate that came from elsewhere, by itself.
    fn verify_certificate(&self, subject: Subject<Sha256Digest>, certificate: &()) -> bool
        ensures { result ≡ true }
    {
        let _ = subject;
        let _ = certificate;
        true
    }
}
