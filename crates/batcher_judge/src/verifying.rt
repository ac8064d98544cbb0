//! Verdicts by marks.

ghost use Rattle.std.specs.Prelude.{◌≡◌, length, map, IfOk};
ghost use Rattle.batcher_bytes.specs.Listings.{attests};
ghost use Rattle.batcher_judge.specs.Marks.{are_marked};
ghost use Rattle.batcher_judge.specs.contracts.marked.MarkedTruth.TheImpl.{ghosts};

use crate::marked::Marked;
use batcher::messages::{Attestation, Sha256Digest, Subject};
use batcher_bytes::{Bytes, Signature};
use std::alloc::{AllocError, Global};

/// A verdict on each attestation.
pub fn verify(
    alloc: Global,
    scheme: &Bytes<Marked, true>,
    subject: Subject<Sha256Digest>,
    list: &[Attestation<Signature>],
) -> Result<Vec<bool>, AllocError>
    ensures { IfOk result (λ verdicts. verdicts.items
        ≡ map (attests ghosts scheme.now.keys (length scheme.now.participants) subject)
        list.now) }
{
    let mut verdicts = Vec::new(alloc);
    for attestation in list {
        verdicts.push(attests_one(scheme, subject, attestation))?;
    }
    Ok(verdicts)
}

/// Whether one attests.
pub fn attests_one(
    scheme: &Bytes<Marked, true>,
    subject: Subject<Sha256Digest>,
    attestation: &Attestation<Signature>,
) -> bool
    ensures { result ≡ attests ghosts scheme.now.keys (length scheme.now.participants) subject
        attestation.now }
{
    // A mark is of no subject.
    let _ = subject;
    let takes_part = (attestation.signer.0 as usize) < scheme.participants.len();
    takes_part && attestation.signature.bytes[0] == scheme.keys.0[0]
}

/// Whether they pass as a whole.
pub fn pass(
    scheme: &Bytes<Marked, true>,
    subject: Subject<Sha256Digest>,
    list: &[Attestation<Signature>],
) -> bool
    ensures { result ≡ are_marked scheme.now.keys subject list.now }
{
    let _ = subject;
    list.iter().all(|attestation| attestation.signature.bytes[0] == scheme.keys.0[0])
}
