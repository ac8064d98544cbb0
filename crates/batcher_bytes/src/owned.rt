//! What has bytes and takes memory: certificates, and the lists that they are made of.

ghost use Rattle.std.specs.Prelude.{◌≡◌, ◌++◌, List, ℕ, IfOk, Ok, OnErr, OnOk, drop, length};
ghost use Rattle.batcher_bytes.specs.Exact.{fixed_is_exact};
ghost use Rattle.batcher_bytes.specs.Format.{Decodes, Format, IsEncodedAt, IsExact, IsPrefixFree};
ghost use Rattle.batcher_bytes.specs.Format.{StartsWith, bytes_format, fixed, whole};
ghost use Rattle.batcher_bytes.specs.Lawful.{attestation_is_exact, certificate_is_exact};
ghost use Rattle.batcher_bytes.specs.Lists.{MayDecode, items_at, list_format, list_is_exact};
ghost use Rattle.batcher_bytes.specs.Messages.{attestation_format, certificate_format, versioned};

use crate::codec::{Codec, VERSION};
use crate::fault::{DecodeError, DecodeFault};
use batcher_types::messages::{Certificate, Subject};
use batcher_types::scheme::AttestationList;
use std::alloc::{AllocError, Global};

/// Values with bytes that take memory: each has one encoding, and none begins another.
pub trait OwnedCodec: Drop {
    ghost format: { Format Self };

    /// Writes the value at the end. An `Err` may leave some of it there, for the caller to cut off.
    fn encode(&self, out: &mut Vec<u8>) -> Result<(), AllocError>
        ensures ok { OnOk result (out.new.items ≡ out.old.items ++ format.encoding self.now) }
        ensures err { OnErr result (StartsWith out.old.items out.new.items) }
        ensures value { OnOk result (format.IsValue self.now) };

    /// Reads the value at the front, and lends the bytes after it. Memory is taken as values are
    /// read, and not for as many as the bytes claim.
    fn decode(alloc: Global, bytes: &[u8]) -> Result<(Self, &[u8]), DecodeError>
        ensures { MayDecode (λ x. (x.0, x.1.now)) result (format.decoding bytes.now) };

    ghost exact: { IsExact format };
}

/// Writes how many values there are, and then each. An `Err` may leave some of it there.
#[tactic(auto, using(crate::specs::Starting::starts))]
pub fn encode_list<T: Codec>(list: &[T], out: &mut Vec<u8>) -> Result<(), AllocError>
    ensures ok { OnOk result
        (out.new.items ≡ out.old.items ++ (list_format T.format).encoding list.now) }
    ensures err { OnErr result (StartsWith out.old.items out.new.items) }
    ensures value { OnOk result ((list_format T.format).IsValue list.now) }
{
    (list.len() as u64).encode(out)?;
    for item in list {
        item.encode(out)?;
    }
    Ok(())
}

/// Reads such a list, and lends the bytes after it. Memory is taken as values are read, and not for
/// as many as the bytes claim.
pub fn decode_list<T: Codec>(alloc: Global, bytes: &[u8]) -> Result<(Vec<T>, &[u8]), DecodeError>
    ensures { MayDecode (λ x. (x.0.items, x.1.now)) result
        ((list_format T.format).decoding bytes.now) }
{
    let (count, rest) = u64::decode(bytes)?;
    items_of(alloc, count, rest)
}

/// Writes how many bytes there are, and then they. An `Err` may leave some of it there.
#[tactic(auto, using(crate::specs::Starting::starts))]
pub fn encode_bytes(bytes: &[u8], out: &mut Vec<u8>) -> Result<(), AllocError>
    ensures ok { OnOk result (out.new.items ≡ out.old.items ++ bytes_format.encoding bytes.now) }
    ensures err { OnErr result (StartsWith out.old.items out.new.items) }
    ensures value { OnOk result (bytes_format.IsValue bytes.now) }
{
    (bytes.len() as u64).encode(out)?;
    out.extend_from_slice(bytes)
}

/// The bytes that were written so, which are lent, and those after them.
pub fn decode_bytes(bytes: &[u8]) -> Result<(&[u8], &[u8]), DecodeFault>
    ensures { Decodes (λ x. (x.0.now, x.1.now)) result (bytes_format.decoding bytes.now) }
{
    let (count, rest) = u64::decode(bytes)?;
    if (rest.len() as u64) < count {
        return Err(DecodeFault::Short);
    }
    Ok(rest.split_at(count as usize))
}

fn items_of<T: Codec>(
    alloc: Global,
    count: u64,
    bytes: &[u8],
) -> Result<(Vec<T>, &[u8]), DecodeError>
    ensures { MayDecode (λ x. (x.0.items, x.1.now)) result (items_at T.format count bytes.now) }
{
    let mut items = Vec::new(alloc);
    let mut rest = bytes;
    for _ in 0..count {
        let (item, after) = T::decode(rest)?;
        items.push(item)?;
        rest = after;
    }
    Ok((items, rest))
}

impl OwnedCodec for AttestationList {
    ghost format = { list_format (attestation_format (fixed 32)) };

    ghost exact = { list_is_exact (attestation_format (fixed 32))
        (attestation_is_exact (fixed 32) (fixed_is_exact 32)) };

    fn encode(&self, out: &mut Vec<u8>) -> Result<(), AllocError> {
        encode_list(self.attestations(), out)
    }

    fn decode(alloc: Global, bytes: &[u8]) -> Result<(Self, &[u8]), DecodeError> {
        let (attestations, rest) = decode_list(alloc, bytes)?;
        Ok((AttestationList::new(attestations), rest))
    }
}

#[tactic(auto, using(crate::specs::Starting::starts))]
impl<C: OwnedCodec, D: Codec> OwnedCodec for Certificate<C, D> {
    ghost format = { certificate_format C.format D.format };

    ghost exact = { certificate_is_exact C.format D.format C.exact D.exact };

    fn encode(&self, out: &mut Vec<u8>) -> Result<(), AllocError> {
        self.subject().encode(out)?;
        self.content().encode(out)
    }

    fn decode(alloc: Global, bytes: &[u8]) -> Result<(Self, &[u8]), DecodeError> {
        let (subject, rest) = Subject::<D>::decode(bytes)?;
        let (content, rest) = C::decode(alloc, rest)?;
        Ok((Certificate::new(subject, content), rest))
    }
}

/// Writes a value at the end, behind the version. An `Err` leaves all as it was.
pub fn encode_owned<T: OwnedCodec>(value: &T, out: &mut Vec<u8>) -> Result<(), AllocError>
    ensures ok { OnOk result
        (out.new.items ≡ out.old.items ++ (versioned T.format).encoding value.now) }
    ensures err { OnErr result (out.new.items ≡ out.old.items) }
    ensures value { OnOk result (T.format.IsValue value.now) }
{
    let start = out.len();
    let written = put(value, out);
    if written.is_err() {
        out.truncate(start);
    }
    written
}

#[tactic(auto, using(crate::specs::Starting::starts))]
fn put<T: OwnedCodec>(value: &T, out: &mut Vec<u8>) -> Result<(), AllocError>
    ensures ok { OnOk result
        (out.new.items ≡ out.old.items ++ (versioned T.format).encoding value.now) }
    ensures err { OnErr result (StartsWith out.old.items out.new.items) }
    ensures value { OnOk result (T.format.IsValue value.now) }
{
    out.push(VERSION)?;
    value.encode(out)
}

/// The value that the bytes are, unless memory runs out. Bytes after it are a fault.
pub fn decode_owned<T: OwnedCodec>(alloc: Global, bytes: &[u8]) -> Result<T, DecodeError>
    // They are the encoding of what is answered.
    ensures found { IfOk result (λ x. bytes.now ≡ (versioned T.format).encoding x) }
    // Each encoding is decoded.
    ensures again { (x : T) → T.format.IsValue x → bytes.now ≡ (versioned T.format).encoding x
        → MayDecode (λ y. y) result (Ok x) }
    // Which fault it is.
    ensures exact { MayDecode (λ x. x) result (whole (versioned T.format) bytes.now) }
{
    alone(alloc, bytes)
}

fn alone<T: OwnedCodec>(alloc: Global, bytes: &[u8]) -> Result<T, DecodeError>
    ensures { MayDecode (λ x. x) result (whole (versioned T.format) bytes.now) }
{
    let (value, rest) = after_version(alloc, bytes)?;
    if rest.is_empty() {
        Ok(value)
    } else {
        drop(value);
        Err(DecodeError::Fault(DecodeFault::Trailing))
    }
}

/// The value at the front of the bytes, and how many of them it takes, unless memory runs out.
pub fn decode_owned_front<T: OwnedCodec>(
    alloc: Global,
    bytes: &[u8],
) -> Result<(T, usize), DecodeError>
    // The first bytes are the encoding of what is answered.
    ensures found { IfOk result (λ x. IsEncodedAt (versioned T.format) bytes.now x.0 x.1) }
    // Each encoding is decoded, whatever follows it.
    ensures again { (x : T) (rest : List ℕ) → T.format.IsValue x
        → bytes.now ≡ (versioned T.format).encoding x ++ rest
        → MayDecode (λ y. y) result (Ok (x, length ((versioned T.format).encoding x))) }
    // Which fault it is.
    ensures exact { MayDecode (λ x. (x.0, drop x.1 bytes.now)) result
        ((versioned T.format).decoding bytes.now) }
{
    let (value, rest) = after_version(alloc, bytes)?;
    Ok((value, bytes.len() - rest.len()))
}

fn after_version<T: OwnedCodec>(alloc: Global, bytes: &[u8]) -> Result<(T, &[u8]), DecodeError>
    ensures { MayDecode (λ x. (x.0, x.1.now)) result ((versioned T.format).decoding bytes.now) }
{
    match bytes {
        [] => Err(DecodeError::Fault(DecodeFault::Short)),
        [1, rest @ ..] => T::decode(alloc, rest),
        [_, ..] => Err(DecodeError::Fault(DecodeFault::Version)),
    }
}
