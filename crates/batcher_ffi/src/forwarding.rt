//! Who may lack the payload of what is notarized.

ghost use Rattle.std.specs.Prelude.{◌≡◌, IfOk, MatchOption, None, length};
ghost use Rattle.batcher_ffi.specs.Certificates.{listing_in};
ghost use Rattle.batcher_ffi.specs.Forwarding.{AsksLacking, Lacks, ListsLacking, others_than};

use crate::caller::Caller;
use crate::certificates::{has_signer, listing_of};
use crate::codes::{DONE, IDLE, OUT_OF_MEMORY};
use crate::flat::FlatProposal;
use crate::validators::CValidator;
use crate::writing::write_signers;
use batcher::round::Round;
use batcher_bytes::{Proof, Signature, Signed};
use batcher_types::messages::{Attestation, Certificate, Kind, Notarization, Sha256Digest};
use batcher_types::positions::Participant;
use std::alloc::{AllocError, Global};

/// Who isn't known to have the payload of the proposal that is notarized in this round: neither a
/// vote that came shows it, nor the notarization.
pub fn lacking(
    it: &CValidator,
    alloc: Global,
    proposal: &FlatProposal,
    list: &mut [u32],
    count: &mut u64,
) -> u8
    ensures { AsksLacking it.now result proposal.now list.old list.new count.old count.new }
{
    match it.certificate(Kind::Notarization, proposal.round()) {
        Some(Certificate::Notarization(made)) => list_lacking(it, alloc, made, list, count),
        _ => IDLE,
    }
}

fn list_lacking(
    it: &CValidator,
    alloc: Global,
    made: &Notarization<Proof, Sha256Digest>,
    list: &mut [u32],
    count: &mut u64,
) -> u8
    ensures { ListsLacking it.now made.now result list.old list.new count.old count.new }
{
    let Some(round) = it.voter().node().round(made.proposal.round.view) else {
        return IDLE;
    };
    match lacking_in(alloc, round, made, it.participants()) {
        Ok(Some(lacking)) => {
            *count = lacking.len() as u64;
            write_signers(&lacking, list);
            DONE
        }
        Ok(None) => IDLE,
        Err(_) => OUT_OF_MEMORY,
    }
}

fn lacking_in(
    alloc: Global,
    round: &Round<Signed<Caller, true>, Sha256Digest>,
    made: &Notarization<Proof, Sha256Digest>,
    participants: usize,
) -> Result<Option<Vec<Participant>>, AllocError>
    requires { participants ≡ length round.now.scheme.participants }
    ensures { IfOk result (λ found. MatchOption found
        (listing_in participants made.now.certificate.bytes ≡ None)
        (λ lacking. Lacks round.now made.now participants lacking.items)) }
{
    let Some(listed) = listing_of(alloc, made.certificate.bytes(), participants)? else {
        return Ok(None);
    };
    let missing = round.missing_voters(&made.proposal)?;
    Ok(Some(others_than(alloc, &listed, missing.as_slice())?))
}

fn others_than(
    alloc: Global,
    listed: &[Attestation<Signature>],
    all: &[Participant],
) -> Result<Vec<Participant>, AllocError>
    ensures { IfOk result (λ others. others.items ≡ others_than listed.now all.now) }
{
    let mut others = Vec::with_capacity(alloc, all.len())?;
    for participant in all {
        if !has_signer(listed, participant.0) {
            others.push(*participant)?;
        }
    }
    Ok(others)
}
