//! What is in the bytes of a journal.

ghost use Rattle.std.specs.Prelude.{◌≡◌, ◌++◌, [], IfErr, IfOk, List, ℕ, OnOk};
ghost use Rattle.batcher_bytes.specs.Messages.{vote_format};
ghost use Rattle.batcher_journal.specs.Answers.{MayBeWrittenBehind};
ghost use Rattle.batcher_journal.specs.Causes.{Cause, Differ, SaysNoOwner, Unfollowed};
ghost use Rattle.batcher_journal.specs.Floors.{certified_from, from_floor};
ghost use Rattle.batcher_journal.specs.Ready.{begun, left_by_floor};
ghost use Rattle.batcher_journal.specs.Seen.{contents_of};
ghost use Rattle.batcher_journal.specs.Text.{IsText, fields_of};

use crate::asking::is_before;
use crate::indexed::IndexedVotes;
use crate::journal::OpenFault;
use crate::owner::{Owner, Whose, owner_in, put_owner};
use crate::records::{Certified, Records, certified_in, put_certified, put_records, records_in};
use batcher_bytes::{Codec, DecodeError, DecodeFault};
use batcher_types::messages::{Digest, Vote};
use batcher_types::positions::Round;
use std::alloc::{AllocError, Global};

/// What is in a journal, in memory.
#[derive(Drop)]
pub struct Kept<G: Copy, D: Digest> {
    pub owner: Whose,
    pub floor: Round,
    pub finalization: Vec<u8>,
    pub votes: IndexedVotes<G, D>,
    pub certificates: Vec<Certified>,
}

// Why bytes don't say whose journal they are.
fn unread(fault: DecodeFault) -> OpenFault
    ensures { SaysNoOwner fault result }
{
    match fault {
        DecodeFault::Version => OpenFault::OtherVersion,
        _ => OpenFault::Malformed,
    }
}

// Whether a journal is this owner's, and else what differs first.
fn check_owner(other: &Owner, owner: &Owner) -> Result<(), OpenFault>
    ensures ok { OnOk result (fields_of other.now ≡ fields_of owner.now) }
    ensures err { IfErr result (Differ (fields_of other.now) (fields_of owner.now)) }
{
    if other.digest_len != owner.digest_len {
        return Err(OpenFault::OtherLengths);
    }
    if other.signature_len != owner.signature_len {
        return Err(OpenFault::OtherLengths);
    }
    if other.participant.0 != owner.participant.0 {
        return Err(OpenFault::OtherParticipant);
    }
    if other.keys != owner.keys {
        return Err(OpenFault::OtherKeys);
    }
    if other.namespace != owner.namespace {
        return Err(OpenFault::OtherNamespace);
    }
    Ok(())
}

// The votes with an index, if each was to be signed as it was written.
fn indexed<G: Copy, D: Digest>(
    alloc: Global,
    floor: Round,
    votes: &[Vote<G, D>],
) -> Result<IndexedVotes<G, D>, OpenFault>
    ensures found { IfOk result (λ it. it ≡ votes.now) }
    ensures followed { OnOk result (MayBeWrittenBehind D.eq floor [] votes.now) }
    ensures refused { IfErr result (Unfollowed D.eq floor votes.now) }
{
    let mut all = IndexedVotes::of(Vec::new(alloc));
    for vote in votes {
        let subject = vote.subject();
        if is_before(floor, subject.round()) {
            return Err(OpenFault::Contradiction);
        }
        match all.find(&subject) {
            Some(_) => return Err(OpenFault::Contradiction),
            None => {}
        }
        all.push(*vote)?;
        all.index_more();
    }
    Ok(all)
}

/// What is in the bytes, if they are this owner's.
pub fn kept_in<G: Codec, D: Digest + Codec>(
    alloc: Global,
    bytes: &[u8],
    owner: &Owner,
) -> Result<Kept<G, D>, OpenFault>
    ensures found { IfOk result (λ it.
        IsText (vote_format G.format D.format) bytes.now (contents_of it)) }
    ensures owner { IfOk result (λ it. it.owner ≡ fields_of owner.now) }
    ensures followed { IfOk result (λ it. MayBeWrittenBehind D.eq it.floor [] it.votes) }
    ensures refused { IfErr result (Cause (vote_format G.format D.format) bytes.now
        (fields_of owner.now) D.eq) }
{
    if bytes.is_empty() {
        return Err(OpenFault::NotBegun);
    }
    let (other, rest) = match owner_in(bytes) {
        Ok(it) => it,
        Err(fault) => return Err(unread(fault)),
    };
    match check_owner(&other, owner) {
        Ok(()) => {}
        Err(fault) => return Err(fault),
    }
    let (floor, lent, rest) = match certified_in(rest) {
        Ok(it) => it,
        Err(_) => return Err(OpenFault::Malformed),
    };
    let Records {
        votes,
        certificates,
    } = match records_in::<G, D>(alloc, rest) {
        Ok(records) => records,
        Err(DecodeError::OutOfMemory) => return Err(OpenFault::OutOfMemory),
        Err(DecodeError::Fault(_)) => return Err(OpenFault::Malformed),
    };
    let votes = match indexed(alloc, floor, &votes) {
        Ok(votes) => votes,
        Err(fault) => return Err(fault),
    };
    Ok(Kept {
        owner: Whose::of(alloc, owner)?,
        floor,
        finalization: copy_of(alloc, lent)?,
        votes,
        certificates,
    })
}

/// The bytes of a journal in which nothing was signed.
pub fn first_text<G: Codec, D: Codec>(
    alloc: Global,
    owner: &Owner,
    floor: Round,
    finalization: &[u8],
) -> Result<Vec<u8>, AllocError>
    ensures { IfOk result (λ text. IsText (vote_format G.format D.format) text.items
        (begun (fields_of owner.now) floor finalization.now)) }
{
    let mut text = Vec::new(alloc);
    put_owner(owner, &mut text)?;
    put_certified(floor, finalization, &mut text)?;
    Ok(text)
}

/// What a floor leaves of a journal, in memory and as bytes.
pub struct Raised<G: Copy, D: Digest> {
    pub text: Vec<u8>,
    pub kept: Kept<G, D>,
}

/// What a floor leaves of votes and certificates.
pub fn raise<G: Codec, D: Digest + Codec>(
    alloc: Global,
    owner: &Owner,
    floor: Round,
    finalization: &[u8],
    votes: &[Vote<G, D>],
    certificates: &[Certified],
) -> Result<Raised<G, D>, AllocError>
    ensures text { IfOk result (λ it. IsText (vote_format G.format D.format) it.text.items
        (contents_of it.kept)) }
    ensures kept { IfOk result (λ it. contents_of it.kept
        ≡ left_by_floor (fields_of owner.now) floor finalization.now votes.now certificates.now) }
{
    let kept = Kept {
        owner: Whose::of(alloc, owner)?,
        floor,
        finalization: copy_of(alloc, finalization)?,
        votes: IndexedVotes::of(votes_from(alloc, floor, votes)?),
        certificates: certificates_from(alloc, floor, certificates)?,
    };
    let mut text = Vec::new(alloc);
    put_owner(owner, &mut text)?;
    put_certified(floor, finalization, &mut text)?;
    put_records(kept.votes.as_slice(), &kept.certificates, &mut text)?;
    Ok(Raised { text, kept })
}

fn copy_of(alloc: Global, bytes: &[u8]) -> Result<Vec<u8>, AllocError>
    ensures { IfOk result (λ it. it.items ≡ bytes.now) }
{
    let mut copy = Vec::new(alloc);
    copy.extend_from_slice(bytes)?;
    Ok(copy)
}

// The votes that a floor leaves.
fn votes_from<G: Copy, D: Digest>(
    alloc: Global,
    floor: Round,
    votes: &[Vote<G, D>],
) -> Result<Vec<Vote<G, D>>, AllocError>
    ensures { IfOk result (λ it. it.items ≡ from_floor floor votes.now) }
{
    let mut left = Vec::new(alloc);
    for vote in votes {
        if is_before(floor, vote.round()) {
            continue;
        }
        left.push(*vote)?;
    }
    Ok(left)
}

// The certificates that a floor leaves.
fn certificates_from(
    alloc: Global,
    floor: Round,
    certificates: &[Certified],
) -> Result<Vec<Certified>, AllocError>
    ensures { IfOk result (λ it. it.items ≡ certified_from floor certificates.now) }
{
    let mut left = Vec::new(alloc);
    for it in certificates {
        if is_before(floor, it.round()) {
            continue;
        }
        left.push(Certified::new(alloc, it.round(), it.certificate())?)?;
    }
    Ok(left)
}
