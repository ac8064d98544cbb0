//! What has bytes and takes no memory.

ghost use Rattle.std.specs.Prelude.{◌≡◌, ◌++◌, List, ℕ, Ok, IfOk, OnErr, OnOk, drop, length};
ghost use Rattle.batcher_bytes.specs.Exact.{fixed_is_exact, u32_is_exact, u64_is_exact};
ghost use Rattle.batcher_bytes.specs.Format.{Decodes, Format, IsEncodedAt, IsExact, IsPrefixFree};
ghost use Rattle.batcher_bytes.specs.Format.{StartsWith, fixed, u32_format, u64_format, whole};
ghost use Rattle.batcher_bytes.specs.Messages.{versioned};

use crate::fault::DecodeFault;
use std::alloc::AllocError;

/// Values with bytes: each has one encoding, and none begins another.
pub trait Codec: Copy {
    ghost format: { Format Self };

    /// Writes the value at the end. An `Err` may leave some of it there, for the caller to cut off.
    fn encode(&self, out: &mut Vec<u8>) -> Result<(), AllocError>
        ensures ok { OnOk result (out.new.items ≡ out.old.items ++ format.encoding self.now) }
        ensures err { OnErr result (StartsWith out.old.items out.new.items) }
        ensures value { OnOk result (format.IsValue self.now) };

    /// Reads the value at the front, and lends the bytes after it.
    fn decode(bytes: &[u8]) -> Result<(Self, &[u8]), DecodeFault>
        ensures { Decodes (λ x. (x.0, x.1.now)) result (format.decoding bytes.now) };

    ghost exact: { IsExact format };
}

impl<const N: usize> Codec for [u8; N] {
    ghost format = { fixed N };

    ghost exact = { fixed_is_exact N };

    fn encode(&self, out: &mut Vec<u8>) -> Result<(), AllocError> {
        out.extend_from_slice(self.as_slice())
    }

    fn decode(bytes: &[u8]) -> Result<(Self, &[u8]), DecodeFault> {
        match bytes.split_first_chunk::<N>() {
            Some((front, rest)) => Ok((*front, rest)),
            None => Err(DecodeFault::Short),
        }
    }
}

#[tactic(auto, unfolding(crate::specs::Format::number_bytes))]
impl Codec for u32 {
    ghost format = { u32_format };

    ghost exact = { u32_is_exact };

    fn encode(&self, out: &mut Vec<u8>) -> Result<(), AllocError> {
        out.extend_from_slice(&self.to_be_bytes())
    }

    fn decode(bytes: &[u8]) -> Result<(Self, &[u8]), DecodeFault> {
        match bytes.split_first_chunk::<4>() {
            Some((front, rest)) => Ok((u32::from_be_bytes(*front), rest)),
            None => Err(DecodeFault::Short),
        }
    }
}

#[tactic(auto, unfolding(crate::specs::Format::number_bytes))]
impl Codec for u64 {
    ghost format = { u64_format };

    ghost exact = { u64_is_exact };

    fn encode(&self, out: &mut Vec<u8>) -> Result<(), AllocError> {
        out.extend_from_slice(&self.to_be_bytes())
    }

    fn decode(bytes: &[u8]) -> Result<(Self, &[u8]), DecodeFault> {
        match bytes.split_first_chunk::<8>() {
            Some((front, rest)) => Ok((u64::from_be_bytes(*front), rest)),
            None => Err(DecodeFault::Short),
        }
    }
}

/// The version of the formats, which is the first byte of what is sent or kept.
pub const VERSION: u8 = 1;

/// Writes a value at the end, behind the version. An `Err` leaves all as it was.
pub fn encode<T: Codec>(value: &T, out: &mut Vec<u8>) -> Result<(), AllocError>
    ensures ok { OnOk result
        (out.new.items ≡ out.old.items ++ (versioned T.format).encoding value.now) }
    ensures err { OnErr result (out.new.items ≡ out.old.items) }
    ensures value { OnOk result (T.format.IsValue value.now) }
{
    let start = out.len();
    let written = put(value, out);
    if written.is_err() {
        out.truncate(start);
    }
    written
}

#[tactic(auto, using(crate::specs::Starting::starts))]
fn put<T: Codec>(value: &T, out: &mut Vec<u8>) -> Result<(), AllocError>
    ensures ok { OnOk result
        (out.new.items ≡ out.old.items ++ (versioned T.format).encoding value.now) }
    ensures err { OnErr result (StartsWith out.old.items out.new.items) }
    ensures value { OnOk result (T.format.IsValue value.now) }
{
    out.push(VERSION)?;
    value.encode(out)
}

/// The value that the bytes are. Bytes after it are a fault.
pub fn decode<T: Codec>(bytes: &[u8]) -> Result<T, DecodeFault>
    // They are the encoding of what is answered.
    ensures found { IfOk result (λ x. bytes.now ≡ (versioned T.format).encoding x) }
    // Each encoding is decoded.
    ensures again { (x : T) → T.format.IsValue x → bytes.now ≡ (versioned T.format).encoding x
        → result ≡ Ok x }
    // Which fault it is.
    ensures exact { Decodes (λ x. x) result (whole (versioned T.format) bytes.now) }
{
    alone(bytes)
}

fn alone<T: Codec>(bytes: &[u8]) -> Result<T, DecodeFault>
    ensures { Decodes (λ x. x) result (whole (versioned T.format) bytes.now) }
{
    let (value, rest) = after_version(bytes)?;
    if rest.is_empty() {
        Ok(value)
    } else {
        Err(DecodeFault::Trailing)
    }
}

/// The value at the front of the bytes, and how many of them it takes.
pub fn decode_front<T: Codec>(bytes: &[u8]) -> Result<(T, usize), DecodeFault>
    // The first bytes are the encoding of what is answered.
    ensures found { IfOk result (λ x. IsEncodedAt (versioned T.format) bytes.now x.0 x.1) }
    // Each encoding is decoded, whatever follows it.
    ensures again { (x : T) (rest : List ℕ) → T.format.IsValue x
        → bytes.now ≡ (versioned T.format).encoding x ++ rest
        → result ≡ Ok (x, length ((versioned T.format).encoding x)) }
    // Which fault it is.
    ensures exact { Decodes (λ x. (x.0, drop x.1 bytes.now)) result
        ((versioned T.format).decoding bytes.now) }
{
    let (value, rest) = after_version(bytes)?;
    Ok((value, bytes.len() - rest.len()))
}

fn after_version<T: Codec>(bytes: &[u8]) -> Result<(T, &[u8]), DecodeFault>
    ensures { Decodes (λ x. (x.0, x.1.now)) result ((versioned T.format).decoding bytes.now) }
{
    match bytes {
        [] => Err(DecodeFault::Short),
        [1, rest @ ..] => T::decode(rest),
        [_, ..] => Err(DecodeFault::Version),
    }
}

/// No encoding begins another, and values that differ have encodings that differ.
pub fn no_encoding_begins_another<T: Codec>()
    ensures { IsPrefixFree (versioned T.format) }
{}
