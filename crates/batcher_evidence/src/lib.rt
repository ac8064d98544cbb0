//! Who signed two things that contradict each other: out of two certificates, or out of a report.
//! docs/EVIDENCE.md says what each answer is worth.
#![tactic(auto)]

ghost use Rattle.std.specs.Prelude.{◌≡◌, true, List};
ghost use Rattle.batcher.specs.messages.Attestation.{Attestation as TheAttestation};
ghost use Rattle.batcher.specs.messages.Subject.{Subject as TheSubject};
ghost use Rattle.batcher_evidence.specs.SignedQuorums.{ShowsQuorum};

mod certificates;
mod forks;
mod keyed;
mod reports;
mod subjects;
mod theorems;

use batcher::messages::{Attestation, Digest};
use batcher::scheme::Scheme;
pub use certificates::{Culprit, culprits};
pub use forks::{Fork, fork_among};
pub use reports::{attests, convicted, convicted_with};
pub use subjects::{certificates_contradict, contradict};
pub use theorems::{forks_take_contradicting_votes, reports_convict, rounds_are_accountable};

/// A scheme whose certificates show the attestations that they are made of.
///
/// Both forms of `Keyed` are accountable. `Sealed` can't be: each of its certificates is one
/// signature of a master key, which is the same whoever voted, so it shows nobody.
pub trait Accountable<D: Digest>: Scheme<D> {
    ghost shown: { Self.Certificate → List (TheAttestation Self.Signature) };

    /// The attestations that the certificate is made of. Of a certificate that doesn't certify
    /// they may be any.
    fn attestations<'a>(
        &self,
        certificate: &'a Self::Certificate,
    ) -> &'a [Attestation<Self::Signature>]
        ensures { result.now ≡ shown certificate.now };

    // A certificate that certifies shows a quorum of attestations that attest, ascending. Not the
    // reverse: a scheme may ask more of a certificate.
    ghost shows: { (s : Self) (subject : TheSubject D) (c : Self.Certificate)
        → (Self.meaning s).certifies subject c ≡ true
        → ShowsQuorum (Self.meaning s) subject (shown c) };
}
