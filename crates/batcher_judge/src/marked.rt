//! Signatures of one byte, which is the first of the keys.

use batcher::messages::Attestation;
use batcher::positions::Participant;
use batcher_bytes::{Keys, Signature, Truth};

/// The truth of marks.
#[derive(Clone, Copy)]
pub struct Marked;

impl Truth for Marked {
    ghost use Rattle.batcher_judge.specs.Marks.{is_marked, are_marked, is_certificate};

    ghost attests = { is_marked };

    ghost passes = { are_marked };

    ghost certifies = { is_certificate };
}

/// A signature by the keys, whatever it is of.
pub fn sign(signer: Participant, keys: Keys) -> Attestation<Signature> {
    match Signature::new(&keys.0[..1]) {
        Some(signature) => Attestation { signer, signature },
        None => unreachable!(),
    }
}
