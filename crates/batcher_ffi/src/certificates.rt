//! What the bytes of a certificate are the list of, and whether they certify.

ghost use Rattle.std.specs.Prelude.{◌≡◌, ◌==◌, ◌≤◌, ⊤, IfOk, MatchBool, None, OnErr, length};
ghost use Rattle.std.specs.Option.{option_map};
ghost use Rattle.std.specs.List.{list_all, list_any};
ghost use Rattle.batcher_ffi.specs.Certificates.{JudgesListing, is_quorum_among, listing_in};
ghost use Rattle.batcher_ffi.specs.Certificates.{signers_differ};

use crate::rounds::take_part;
use batcher_bytes::{Codec, DecodeError, Signature, decode_list};
use batcher_types::messages::Attestation;
use std::alloc::{AllocError, Global};

/// The attestations that bytes are the list of, where they are those of a quorum, each once.
pub fn listing_of(
    alloc: Global,
    bytes: &[u8],
    participants: usize,
) -> Result<Option<Vec<Attestation<Signature>>>, AllocError>
    ensures listed { IfOk result (λ found.
        option_map (λ all. all.items) found ≡ listing_in participants bytes.now) }
    ensures needed { OnErr result (1 ≤ length bytes.now) }
{
    if bytes.is_empty() || !is_within(bytes, participants) {
        return Ok(None);
    }
    match decode_list(alloc, bytes) {
        Ok((all, rest)) => {
            if rest.is_empty() && is_quorum_among(&all, participants) {
                return Ok(Some(all));
            }
            Ok(None)
        }
        Err(DecodeError::Fault(_)) => Ok(None),
        Err(DecodeError::OutOfMemory) => Err(AllocError),
    }
}

/// Whether bytes certify, by a verdict on each attestation that they list. None where there isn't
/// one on each.
pub fn certifies(
    alloc: Global,
    bytes: &[u8],
    verdicts: &[bool],
    participants: usize,
) -> Result<Option<bool>, AllocError>
    ensures judged { IfOk result (λ found.
        JudgesListing (listing_in participants bytes.now) verdicts.now found) }
    ensures needed { OnErr result (1 ≤ length bytes.now) }
{
    match listing_of(alloc, bytes, participants)? {
        Some(all) => {
            if all.len() == verdicts.len() {
                Ok(Some(all_attest(verdicts)))
            } else {
                Ok(None)
            }
        }
        None => Ok(Some(false)),
    }
}

// Whether they say that they are a list of at most so many. Only then are these read.
fn is_within(bytes: &[u8], participants: usize) -> bool
    ensures { MatchBool result ⊤ (listing_in participants bytes.now ≡ None) }
{
    match u64::decode(bytes) {
        Ok((count, _)) => {
            if count > participants as u64 {
                return false;
            }
            true
        }
        Err(_) => false,
    }
}

fn is_quorum_among(all: &[Attestation<Signature>], participants: usize) -> bool
    ensures { result ≡ is_quorum_among participants all.now }
{
    all.len() >= participants - participants.saturating_sub(1) / 3
        && all.len() <= participants
        && take_part(all, participants)
        && signers_differ(all)
}

fn signers_differ(all: &[Attestation<Signature>]) -> bool
    ensures { result ≡ signers_differ all.now }
{
    let mut rest = all;
    while let [first, others @ ..] = rest {
        if has_signer(others, first.signer.0) {
            return false;
        }
        rest = others;
    }
    true
}

/// Whether one of them is of this signer.
pub fn has_signer(all: &[Attestation<Signature>], signer: u32) -> bool
    ensures { result ≡ list_any (λ a. a.signer.0 == signer) all.now }
{
    all.iter().any(|attestation| attestation.signer.0 == signer)
}

/// Whether each verdict is yes.
pub fn all_attest(verdicts: &[bool]) -> bool
    ensures { result ≡ list_all (λ b. b) verdicts.now }
{
    verdicts.iter().all(|attests| *attests)
}
