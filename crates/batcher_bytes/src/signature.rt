//! Signatures as bytes.

ghost use Rattle.std.specs.Prelude.{◌≡◌, ◌≤◌, true, is_some, length, IfSome};
ghost use Rattle.batcher_bytes.specs.Signatures.{are_zeros, signature_of};
ghost use Rattle.batcher_bytes.specs.declared.signature.TheConstants.{WIDTH};

use batcher_types::messages::Identical;
use std::marker::Model;

/// How many bytes a signature has at most: 96 are enough for Ed25519, and for both groups of BLS.
pub const WIDTH: usize = 96;

/// The bytes of a signature, and zeros after them. So those with the same bytes are equal, and
/// others aren't.
#[derive(Clone, Copy, Debug, PartialEq, Eq)]
pub struct Signature {
    pub length: u8,
    pub bytes: [u8; WIDTH],
}

impl Model for Signature {
    ghost use Rattle.batcher_bytes.specs.Signatures.{SignatureView, IsPadded};

    ghost Value = { SignatureView };

    ghost view = { λ s. record { length = s.length; bytes = s.bytes } };

    ghost invariant = { λ s. IsPadded (record { length = s.length; bytes = s.bytes }) };

    ghost inverse = { λ s. record { length = s.length; bytes = s.bytes } };
}

impl Signature {
    /// The signature of these bytes. None where they are more than `WIDTH`.
    pub fn new(bytes: &[u8]) -> Option<Signature>
        ensures fits { length bytes.now ≤ WIDTH → is_some result ≡ true }
        ensures bytes { IfSome result (λ signature. signature ≡ signature_of bytes.now) }
    {
        if bytes.len() > WIDTH {
            return None;
        }
        let mut padded = [0u8; WIDTH];
        padded[..bytes.len()].copy_from_slice(bytes);
        Some(Signature {
            length: bytes.len() as u8,
            bytes: padded,
        })
    }
}

// Whether all of these are zeros.
pub(crate) fn are_zeros(bytes: &[u8]) -> bool
    ensures { result ≡ are_zeros bytes.now }
{
    bytes.iter().all(|byte| *byte == 0)
}

impl Identical for Signature {
    ghost use Rattle.std.proofs.Common.{rules};

    ghost identical = { Prim.search rules };
}

/// Which keys the participants have: bytes that tell their list of keys from other lists, as its
/// hash does. Where a program has one list, any will do.
#[derive(Clone, Copy, Debug, PartialEq, Eq)]
pub struct Keys(pub [u8; 32]);
