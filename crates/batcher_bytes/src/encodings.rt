//! The bytes of signatures, and of certificates with their verdicts.

ghost use Rattle.std.specs.Prelude.{◌≡◌, ◌++◌, OnErr, OnOk};
ghost use Rattle.batcher_bytes.specs.Format.{Decodes, StartsWith};
ghost use Rattle.batcher_bytes.specs.Encodings.{flag_format, proof_format, proof_is_exact};
ghost use Rattle.batcher_bytes.specs.Encodings.{signature_format, signature_is_exact};

use crate::proof::Proof;
use crate::signature::{Signature, WIDTH, are_zeros};
use crate::{Codec, DecodeError, DecodeFault, OwnedCodec, decode_bytes, encode_bytes};
use batcher_types::messages::Subject;
use std::alloc::{AllocError, Global};

#[tactic(auto, using(crate::specs::Starting::starts))]
impl Codec for Signature {
    ghost format = { signature_format };

    ghost exact = { signature_is_exact };

    fn encode(&self, out: &mut Vec<u8>) -> Result<(), AllocError> {
        out.push(self.length)?;
        self.bytes.encode(out)
    }

    fn decode(bytes: &[u8]) -> Result<(Self, &[u8]), DecodeFault> {
        let Some((length, rest)) = bytes.split_first() else {
            return Err(DecodeFault::Short);
        };
        let length = *length;
        if length as usize > WIDTH {
            return Err(DecodeFault::Malformed);
        }
        let (bytes, rest) = <[u8; WIDTH]>::decode(rest)?;
        if !are_zeros(&bytes[length as usize..]) {
            return Err(DecodeFault::Malformed);
        }
        Ok((Signature { length, bytes }, rest))
    }
}

// Writes a byte for whether it is so.
fn encode_flag(flag: bool, out: &mut Vec<u8>) -> Result<(), AllocError>
    ensures ok { OnOk result (out.new.items ≡ out.old.items ++ flag_format.encoding flag) }
    ensures err { OnErr result (StartsWith out.old.items out.new.items) }
{
    out.push(u8::from(flag))?;
    Ok(())
}

// Whether it is so, by the first byte, and the bytes after it.
fn decode_flag(bytes: &[u8]) -> Result<(bool, &[u8]), DecodeFault>
    ensures { Decodes (λ x. (x.0, x.1.now)) result (flag_format.decoding bytes.now) }
{
    match bytes.split_first() {
        Some((0, rest)) => Ok((false, rest)),
        Some((1, rest)) => Ok((true, rest)),
        Some(_) => Err(DecodeFault::Kind),
        None => Err(DecodeFault::Short),
    }
}

#[tactic(auto, using(crate::specs::Starting::starts))]
impl OwnedCodec for Proof {
    ghost format = { proof_format };

    ghost exact = { proof_is_exact };

    fn encode(&self, out: &mut Vec<u8>) -> Result<(), AllocError> {
        self.subject().encode(out)?;
        encode_flag(self.certifies(), out)?;
        encode_bytes(self.bytes(), out)
    }

    fn decode(alloc: Global, bytes: &[u8]) -> Result<(Self, &[u8]), DecodeError> {
        let (subject, rest) = Subject::decode(bytes)?;
        let (certifies, rest) = decode_flag(rest)?;
        let (kept, rest) = decode_bytes(rest)?;
        let mut copy = Vec::new(alloc);
        copy.extend_from_slice(kept)?;
        Ok((Proof::new(subject, certifies, copy), rest))
    }
}
