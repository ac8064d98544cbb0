//! What the test schemes hash. The bytes are in docs/FORMATS.md.

ghost use Rattle.std.specs.Prelude.{◌≡◌, ◌++◌, ◌<◌, ℕ, List, true};
ghost use Rattle.sha2.specs.Hashers.{Holds256};
ghost use Rattle.batcher_types.specs.Hashed.{key_of, hashed_signature, seal_of, hashed_subject};
ghost use Rattle.batcher_types.specs.Hashed.{round_bytes, proposal_bytes, is_signed};

use crate::messages::{Attestation, Proposal, Sha256Digest, Subject};
use crate::positions::{Participant, Round};
use sha2::{Digest, Sha256};

fn add_round(hasher: &mut Sha256, round: Round)
    ensures { (m : List ℕ) → Holds256 hasher.old m → Holds256 hasher.new (m ++ round_bytes round) }
{
    hasher.update(round.epoch.0.to_be_bytes().as_slice());
    hasher.update(round.view.0.to_be_bytes().as_slice());
}

fn add_proposal(hasher: &mut Sha256, proposal: Proposal<Sha256Digest>)
    ensures { (m : List ℕ) → Holds256 hasher.old m
        → Holds256 hasher.new (m ++ proposal_bytes proposal) }
{
    add_round(hasher, proposal.round);
    hasher.update(proposal.parent.0.to_be_bytes().as_slice());
    hasher.update(proposal.payload.0.as_slice());
}

fn add_subject(hasher: &mut Sha256, subject: Subject<Sha256Digest>)
    ensures { (m : List ℕ) → Holds256 hasher.old m
        → Holds256 hasher.new (m ++ hashed_subject subject) }
{
    match subject {
        Subject::Notarize { proposal } => {
            hasher.update([0u8].as_slice());
            add_proposal(hasher, proposal);
        }
        Subject::Nullify { round } => {
            hasher.update([1u8].as_slice());
            add_round(hasher, round);
        }
        Subject::Finalize { proposal } => {
            hasher.update([2u8].as_slice());
            add_proposal(hasher, proposal);
        }
    }
}

// The key of an index, of a participant or not.
fn key(root: &[u8; 32], index: u32) -> [u8; 32]
    ensures { result ≡ key_of root.now index }
{
    let mut hasher = Sha256::new();
    hasher.update(root.as_slice());
    hasher.update(index.to_be_bytes().as_slice());
    hasher.finalize()
}

// The signature of an index over a subject.
fn signature(root: &[u8; 32], index: u32, subject: Subject<Sha256Digest>) -> [u8; 32]
    ensures { result ≡ hashed_signature root.now index subject }
{
    let mut hasher = Sha256::new();
    let key = key(root, index);
    hasher.update(key.as_slice());
    add_subject(&mut hasher, subject);
    hasher.finalize()
}

// The seal of a subject.
pub(super) fn seal(root: &[u8; 32], subject: Subject<Sha256Digest>) -> [u8; 32]
    ensures { result ≡ seal_of root.now subject }
{
    let mut hasher = Sha256::new();
    let key = key(root, 0xffff_ffff);
    hasher.update(key.as_slice());
    add_subject(&mut hasher, subject);
    hasher.finalize()
}

// The attestation of an index over a subject.
pub(super) fn attestation(
    root: &[u8; 32],
    signer: Participant,
    subject: Subject<Sha256Digest>,
) -> Attestation<[u8; 32]>
    ensures signer { result.signer ≡ signer }
    ensures signature { result.signature ≡ hashed_signature root.now signer.0 subject }
    ensures attests { (n : ℕ) → signer.0 < n → is_signed n root.now subject result ≡ true }
{
    Attestation {
        signer,
        signature: signature(root, signer.0, subject),
    }
}

// Whether the attestation is of the subject, among `n` participants.
pub(super) fn is_signed_by(
    n: usize,
    root: &[u8; 32],
    subject: Subject<Sha256Digest>,
    attestation: &Attestation<[u8; 32]>,
) -> bool
    ensures { result ≡ is_signed n root.now subject attestation.now }
{
    (attestation.signer.0 as usize) < n
        && attestation.signature == signature(root, attestation.signer.0, subject)
}
