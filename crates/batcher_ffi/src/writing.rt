//! What is written into the room that a caller hands in, and read from it.

ghost use Rattle.std.specs.Prelude.{◌≡◌, ◌≤◌, true, length, is_none, None, Some, Ok, IfOk, IfSome};
ghost use Rattle.std.specs.Prelude.{OnErr};
ghost use Rattle.std.specs.List.{list_any};
ghost use Rattle.batcher_types.specs.Keys.{participant};
ghost use Rattle.batcher_ffi.specs.Flat.{AreIn, attestation_in, raw_in, subject_in};
ghost use Rattle.batcher_ffi.specs.Output.{FillsRoom, WritesAll, WritesContent, WritesBatch};

use crate::caller::Caller;
use crate::codes::{DONE, SHORT};
use crate::flat::{FlatAttestation, FlatStep, flat_subject};
use batcher_bytes::{Content, Signature};
use batcher_types::messages::{Attestation, Certificate, Sha256Digest};
use batcher_types::positions::Participant;
use batcher_votes::verifier::{Batch, NextAttempt};
use std::alloc::{AllocError, Global};

/// The attestations on which verdicts are wanted, and those that are known to attest: of each as
/// many as there is room for.
pub fn write_wanted(
    wanted: &NextAttempt<'_, Signature, Sha256Digest>,
    step: &mut FlatStep,
    known: &mut [FlatAttestation],
    list: &mut [FlatAttestation],
)
    ensures subject { subject_in step.new.kind step.new.proposal ≡ Some wanted.now.subject }
    ensures listed { step.new.listed ≡ length wanted.now.pending.now }
    ensures verified { step.new.verified ≡ length wanted.now.verified.now }
    ensures known { FillsRoom raw_in wanted.now.verified.now known.old known.new }
    ensures list { FillsRoom raw_in wanted.now.pending.now list.old list.new }
{
    let (kind, proposal) = flat_subject(&wanted.subject);
    step.kind = kind;
    step.proposal = proposal;
    step.listed = wanted.pending.len() as u64;
    step.verified = wanted.verified.len() as u64;
    write_attestations(wanted.verified, known);
    write_attestations(wanted.pending, list);
}

/// What a construction gave, with as many attestations and signers as there is room for.
pub fn write_batch(
    batch: &Batch<Certificate<Content<Caller>, Sha256Digest>>,
    step: &mut FlatStep,
    list: &mut [FlatAttestation],
    signers: &mut [u32],
)
    ensures batch { WritesBatch step.new list.old list.new signers.old signers.new batch.now }
{
    step.processed = batch.processed as u64;
    step.fallback = batch.fallback;
    step.invalid = batch.invalid.len() as u64;
    write_signers(batch.invalid.as_slice(), signers);
    match &batch.certificate {
        Some(certificate) => {
            step.certified = true;
            let (kind, proposal) = flat_subject(&certificate.subject());
            step.kind = kind;
            step.proposal = proposal;
            write_content(certificate.content(), step, list);
        }
        None => step.certified = false,
    }
}

// The attestations that a certificate is made of. One that came from elsewhere shows none.
fn write_content(content: &Content<Caller>, step: &mut FlatStep, list: &mut [FlatAttestation])
    ensures content { WritesContent step.new list.old list.new content.now }
    ensures others { step.new ≡ record step.old { listed = step.new.listed } }
{
    match content {
        Content::Made(parts) => {
            let attestations = parts.attestations();
            step.listed = attestations.len() as u64;
            write_attestations(attestations, list);
        }
        Content::Received(_) => step.listed = 0,
    }
}

/// Writes as many as there is room for.
pub fn write_attestations(from: &[Attestation<Signature>], to: &mut [FlatAttestation])
    ensures { FillsRoom raw_in from.now to.old to.new }
{
    for index in 0..from.len().min(to.len()) {
        to[index] = FlatAttestation::of(&from[index]);
    }
}

/// Writes as many as there is room for.
pub fn write_signers(from: &[Participant], to: &mut [u32])
    ensures { FillsRoom participant from.now to.old to.new }
{
    for index in 0..from.len().min(to.len()) {
        to[index] = from[index].0;
    }
}

/// Writes the bytes, where they fit, and how many they are.
pub fn write_all(bytes: &[u8], room: &mut [u8], count: &mut u64) -> u8
    ensures { WritesAll bytes.now room.old room.new count.new result }
{
    *count = bytes.len() as u64;
    if room.len() < bytes.len() {
        return SHORT;
    }
    write_bytes(bytes, room);
    DONE
}

// Writes as many as there is room for.
fn write_bytes(from: &[u8], to: &mut [u8])
    ensures { FillsRoom (λ b. b) from.now to.old to.new }
{
    for index in 0..from.len().min(to.len()) {
        to[index] = from[index];
    }
}

/// The bytes on the heap. None of them takes no memory.
pub fn copied(alloc: Global, bytes: &[u8]) -> Result<Vec<u8>, AllocError>
    ensures copied { IfOk result (λ made. made.items ≡ bytes.now) }
    ensures needed { OnErr result (1 ≤ length bytes.now) }
{
    if bytes.is_empty() {
        return Ok(Vec::new(alloc));
    }
    Vec::from_slice(alloc, bytes)
}

/// The attestations of a list. None where a signature is longer than there are bytes.
pub fn attestations_of(
    alloc: Global,
    list: &[FlatAttestation],
) -> Result<Option<Vec<Attestation<Signature>>>, AllocError>
    ensures read { IfOk result (λ read. IfSome read (λ all. AreIn list.now all.items)) }
    ensures none { result ≡ Ok None
        → list_any (λ flat. is_none (attestation_in flat)) list.now ≡ true }
    ensures needed { OnErr result (1 ≤ length list.now) }
{
    if list.is_empty() {
        return Ok(Some(Vec::new(alloc)));
    }
    let mut all = Vec::with_capacity(alloc, list.len())?;
    for flat in list {
        let Some(attestation) = flat.attestation() else {
            return Ok(None);
        };
        all.push(attestation)?;
    }
    Ok(Some(all))
}
