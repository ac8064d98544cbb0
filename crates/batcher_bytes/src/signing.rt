//! What is signed: bytes that no other subject has, nor the same one in another namespace.

ghost use Rattle.std.specs.Prelude.{◌≡◌, ◌++◌, List, ℕ, IfOk, OnErr, OnOk};
ghost use Rattle.batcher_bytes.specs.Format.{StartsWith};
ghost use Rattle.batcher_bytes.specs.Lawful.{IsSignedOnce};
ghost use Rattle.batcher_bytes.specs.Messages.{signing_format};

use crate::codec::Codec;
use crate::owned::encode_bytes;
use batcher_types::messages::Subject;
use std::alloc::{AllocError, Global};

/// What has bytes to sign.
pub trait SigningBytes {
    ghost signing: { List ℕ → Self → List ℕ };

    /// The bytes to sign in a namespace, which keeps chains and programs apart.
    fn signing_bytes(&self, alloc: Global, namespace: &[u8]) -> Result<Vec<u8>, AllocError>
        ensures { IfOk result (λ bytes. bytes.items ≡ signing namespace.now self.now) };
}

impl<D: Codec> SigningBytes for Subject<D> {
    ghost signing = { λ namespace subject.
        (signing_format D.format).encoding (namespace, subject) };

    fn signing_bytes(&self, alloc: Global, namespace: &[u8]) -> Result<Vec<u8>, AllocError> {
        let mut bytes = Vec::new(alloc);
        put_signing_bytes(self, namespace, &mut bytes)?;
        Ok(bytes)
    }
}

#[tactic(auto, using(crate::specs::Starting::starts))]
fn put_signing_bytes<D: Codec>(
    subject: &Subject<D>,
    namespace: &[u8],
    out: &mut Vec<u8>,
) -> Result<(), AllocError>
    ensures ok { OnOk result (out.new.items
        ≡ out.old.items ++ (signing_format D.format).encoding (namespace.now, subject.now)) }
    ensures err { OnErr result (StartsWith out.old.items out.new.items) }
    ensures value { OnOk result ((signing_format D.format).IsValue (namespace.now, subject.now)) }
{
    encode_bytes(namespace, out)?;
    subject.encode(out)
}

/// What is signed for one namespace and subject is signed for no other.
pub fn nothing_is_signed_for_two<D: Codec>()
    ensures { IsSignedOnce D.format }
{}
