//! The votes that the disk of a validator shows, and the validator that goes on by it once each of
//! them is verified.

ghost use Rattle.std.specs.Prelude.{◌≡◌, ◌∷◌, ◌++◌, ◌⊎◌, [], IfErr, IfOk, map, true};
ghost use Rattle.std.specs.Option.{option_map};
ghost use Rattle.batcher_ffi.specs.Disks.{AreAllGood, AreVerifiedAt, FillsVotes, HoldsVerified};
ghost use Rattle.batcher_ffi.specs.Disks.{IsUnverified, ListsDisk, ListsVotes, WhyNoneIsMade};
ghost use Rattle.batcher_ffi.specs.Disks.{claim_of, claims_on, shown_by};
ghost use Rattle.batcher_ffi.specs.Validators.{IsMade};
ghost use Rattle.batcher_ffi.specs.Rounds.{is_one_of};

use crate::certificates::{all_attest, listing_of};
use crate::codes::{DONE, NOT_VERIFIED, OUT_OF_MEMORY, SHORT};
use crate::flat::FlatVote;
use crate::starting::{ValidatorOptions, made};
use crate::validators::CValidator;
use batcher_bytes::Signature;
use batcher_types::messages::{Attestation, Sha256Digest, Subject, Vote};
use std::alloc::{AllocError, Global};

/// A validator that begins, or that goes on by what its disk has, where each vote that this shows
/// attests. Else the code says why there is none.
pub fn started_by(
    alloc: Global,
    options: &ValidatorOptions,
    namespace: &[u8],
    disk: &[u8],
    verdicts: &[bool],
) -> Result<CValidator, u8>
    requires { AreVerifiedAt options.now namespace.now disk.now verdicts.now }
    ensures made { IfOk result (IsMade options.now namespace.now disk.now) }
    ensures verified { IfOk result HoldsVerified }
    ensures refused { IfErr result (WhyNoneIsMade options.now namespace.now disk.now
        verdicts.now) }
{
    match made(alloc, options, namespace, disk) {
        Ok(it) => verified(alloc, it, verdicts),
        Err(code) => Err(code),
    }
}

// The validator, where there is a verdict on each vote that its disk shows, and each is yes.
fn verified(alloc: Global, it: CValidator, verdicts: &[bool]) -> Result<CValidator, u8>
    ensures verified { IfOk result (λ made. (made ≡ it) × AreAllGood it verdicts.now) }
    ensures refused { IfErr result (λ code. (code ≡ OUT_OF_MEMORY)
        ⊎ ((code ≡ NOT_VERIFIED) × IsUnverified it verdicts.now)) }
{
    let code = verify(alloc, &it, verdicts);
    if code == DONE {
        return Ok(it);
    }
    drop(it);
    Err(code)
}

fn verify(alloc: Global, it: &CValidator, verdicts: &[bool]) -> u8
    ensures codes { is_one_of (DONE ∷ NOT_VERIFIED ∷ OUT_OF_MEMORY ∷ []) result ≡ true }
    ensures done { result ≡ DONE → AreAllGood it.now verdicts.now }
    ensures not_verified { result ≡ NOT_VERIFIED → IsUnverified it.now verdicts.now }
{
    match shown(alloc, it) {
        Ok(Some(votes)) => {
            if votes.len() == verdicts.len() && all_attest(verdicts) {
                DONE
            } else {
                NOT_VERIFIED
            }
        }
        Ok(None) => NOT_VERIFIED,
        Err(_) => OUT_OF_MEMORY,
    }
}

// The votes of its disk: its own, and those that its certificates list. None where one of these
// doesn't list a quorum.
fn shown(
    alloc: Global,
    it: &CValidator,
) -> Result<Option<Vec<Vote<Signature, Sha256Digest>>>, AllocError>
    ensures { IfOk result (λ found. option_map (λ votes. map claim_of votes.items) found
        ≡ shown_by it.now) }
{
    let mut votes = Vec::from_slice(alloc, it.earlier_votes())?;
    let participants = it.participants();
    let mut rest = it.certificates();
    while let [first, others @ ..] = rest {
        let Some(all) = listing_of(alloc, first.content().bytes(), participants)? else {
            return Ok(None);
        };
        push_claims(&mut votes, first.subject(), &all)?;
        rest = others;
    }
    Ok(Some(votes))
}

fn push_claims(
    votes: &mut Vec<Vote<Signature, Sha256Digest>>,
    subject: Subject<Sha256Digest>,
    all: &[Attestation<Signature>],
) -> Result<(), AllocError>
    ensures { IfOk result (λ _. map claim_of votes.new.items
        ≡ map claim_of votes.old.items ++ claims_on subject all.now) }
{
    for attestation in all {
        votes.push(Vote::new(subject, *attestation))?;
    }
    Ok(())
}

/// Lists the votes that a disk shows, of which the validator there begins or goes on.
pub fn list_disk(
    alloc: Global,
    options: &ValidatorOptions,
    namespace: &[u8],
    disk: &[u8],
    list: &mut [FlatVote],
    count: &mut u64,
) -> u8
    ensures { ListsDisk options.now namespace.now disk.now result list.old list.new count.old
        count.new }
{
    match made(alloc, options, namespace, disk) {
        Ok(it) => {
            let code = write_shown(alloc, &it, list, count);
            drop(it);
            code
        }
        Err(code) => code,
    }
}

fn write_shown(alloc: Global, it: &CValidator, list: &mut [FlatVote], count: &mut u64) -> u8
    ensures { ListsVotes (shown_by it.now) result list.old list.new count.old count.new }
{
    match shown(alloc, it) {
        Ok(Some(votes)) => {
            *count = votes.len() as u64;
            if list.len() < votes.len() {
                return SHORT;
            }
            write_votes(&votes, list);
            DONE
        }
        Ok(None) => NOT_VERIFIED,
        Err(_) => OUT_OF_MEMORY,
    }
}

// Writes as many as there is room for.
fn write_votes(from: &[Vote<Signature, Sha256Digest>], to: &mut [FlatVote])
    ensures { FillsVotes (map claim_of from.now) to.old to.new }
{
    for index in 0..from.len().min(to.len()) {
        to[index].write(&from[index]);
    }
}
