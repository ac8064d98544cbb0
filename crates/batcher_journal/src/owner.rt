//! Whose journal it is.

ghost use Rattle.std.specs.Prelude.{◌≡◌, ◌++◌, IfOk, List, ℕ, OnErr, OnOk};
ghost use Rattle.batcher_bytes.specs.Format.{Decodes, StartsWith};
ghost use Rattle.batcher_journal.specs.Text.{OwnerFields, fields_of, owner_format};

use batcher_bytes::{Codec, DecodeFault, VERSION, decode_bytes, encode_bytes};
use batcher_types::positions::Participant;
use std::alloc::{AllocError, Global};
use std::marker::Model;

/// Whose journal it is: a journal is opened by no other.
#[derive(Clone, Copy, Debug)]
pub struct Owner<'a> {
    /// The namespace in which the votes are signed.
    pub namespace: &'a [u8],
    /// What names the keys of the epoch, such as a hash of them.
    pub keys: &'a [u8],
    /// Whose votes they are.
    pub participant: Participant,
    /// How many bytes a digest has.
    pub digest_len: u32,
    /// How many bytes a signature has.
    pub signature_len: u32,
}

/// Whose journal it is, in memory.
#[derive(Drop)]
pub struct Whose {
    namespace: Vec<u8>,
    keys: Vec<u8>,
    participant: Participant,
    digest_len: u32,
    signature_len: u32,
}

impl Model for Whose {
    ghost Value = { OwnerFields };

    ghost view = { λ w. (
      w.digest_len,
      (w.signature_len, (w.participant.0, (w.keys.items, w.namespace.items))),
    ) };
}

impl Whose {
    pub fn of(alloc: Global, owner: &Owner) -> Result<Self, AllocError>
        ensures { IfOk result (λ it. it ≡ fields_of owner.now) }
    {
        let mut namespace = Vec::new(alloc);
        namespace.extend_from_slice(owner.namespace)?;
        let mut keys = Vec::new(alloc);
        keys.extend_from_slice(owner.keys)?;
        Ok(Whose {
            namespace,
            keys,
            participant: owner.participant,
            digest_len: owner.digest_len,
            signature_len: owner.signature_len,
        })
    }

    pub fn lend(&self) -> Owner<'_>
        ensures { fields_of result ≡ self.now }
    {
        Owner {
            namespace: &self.namespace,
            keys: &self.keys,
            participant: self.participant,
            digest_len: self.digest_len,
            signature_len: self.signature_len,
        }
    }
}

/// Writes whose journal it is. An `Err` may leave some of it there.
#[tactic(auto, using(batcher_bytes::specs::Starting::starts))]
pub fn put_owner(owner: &Owner, out: &mut Vec<u8>) -> Result<(), AllocError>
    ensures ok { OnOk result
        (out.new.items ≡ out.old.items ++ owner_format.encoding (fields_of owner.now)) }
    ensures value { OnOk result (owner_format.IsValue (fields_of owner.now)) }
{
    out.push(VERSION)?;
    owner.digest_len.encode(out)?;
    owner.signature_len.encode(out)?;
    owner.participant.0.encode(out)?;
    encode_bytes(owner.keys, out)?;
    encode_bytes(owner.namespace, out)
}

/// Reads whose journal it is, and lends the bytes after that.
pub fn owner_in(bytes: &[u8]) -> Result<(Owner<'_>, &[u8]), DecodeFault>
    ensures { Decodes (λ x. (fields_of x.0, x.1.now)) result (owner_format.decoding bytes.now) }
{
    match bytes {
        [] => Err(DecodeFault::Short),
        [1, rest @ ..] => {
            let (digest_len, rest) = u32::decode(rest)?;
            let (signature_len, rest) = u32::decode(rest)?;
            let (participant, rest) = u32::decode(rest)?;
            let (keys, rest) = decode_bytes(rest)?;
            let (namespace, rest) = decode_bytes(rest)?;
            let owner = Owner {
                namespace,
                keys,
                participant: Participant(participant),
                digest_len,
                signature_len,
            };
            Ok((owner, rest))
        }
        [_, ..] => Err(DecodeFault::Version),
    }
}
