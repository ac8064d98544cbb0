//! Whom a report of a round convicts.

ghost use Rattle.std.specs.Prelude.{◌≡◌, ◌&&◌, cond, true, IfOk, IfSome, OnOk, OnErr, Some, None};
ghost use Rattle.batcher.specs.Votes.{subject_of, attestation_of};
ghost use Rattle.batcher_evidence.specs.Convictions.{AreVerdicts, IsProof, convicts, convicted_by};
ghost use Rattle.batcher_evidence.specs.Convictions.{convicted_where, may_convict, has_to_verify};
ghost use Rattle.batcher_evidence.specs.Convictions.{left_by, left_by_both, left_by_convicting};

use crate::subjects::contradict;
use batcher::messages::{Activity, Digest, Vote};
use batcher::positions::Participant;
use batcher::scheme::Scheme;
use rand_core::CryptoRng;
use std::alloc::{AllocError, Global};

/// The participant that a report convicts: the signer of two votes that contradict each other and
/// both attest.
///
/// A round reports conflicts of votes that nobody has verified, so only this makes evidence of a
/// report. It takes no one's word: who knows the scheme can ask it again. A report of one vote
/// convicts nobody, and takes no memory.
///
/// Nothing is drawn but by the scheme, which verifies each of two such votes by itself.
pub fn convicted<S: Scheme<D>, D: Digest, R: CryptoRng>(
    alloc: Global,
    scheme: &S,
    rng: &mut R,
    report: &Activity<S::Signature, D>,
) -> Result<Option<Participant>, AllocError>
    ensures exact { IfOk result (λ found. found
        ≡ convicted_by (S.meaning scheme.now) D.eq report.now) }
    ensures proof { IfOk result (λ found.
        IfSome found (IsProof (S.meaning scheme.now) D.eq report.now)) }
    ensures drawn { OnOk result (R.stream rng.new
        ≡ left_by_convicting (S.meaning scheme.now) D.eq report.now (R.stream rng.old)) }
    ensures needed { OnErr result (has_to_verify D.eq report.now ≡ true) }
{
    convicted_exactly(alloc, scheme, rng, report)
}

/// The same by verdicts from elsewhere: whether each of the report's two votes attests, in their
/// order. It takes no memory. The scheme is asked nothing; the verdicts have to be its own.
pub fn convicted_with<S: Scheme<D>, D: Digest>(
    scheme: &S,
    report: &Activity<S::Signature, D>,
    first_attests: bool,
    second_attests: bool,
) -> Option<Participant>
    requires { AreVerdicts (S.meaning scheme.now) report.now first_attests second_attests }
    ensures exact { result ≡ convicted_by (S.meaning scheme.now) D.eq report.now }
    ensures proof { IfSome result (IsProof (S.meaning scheme.now) D.eq report.now) }
{
    let _ = scheme;
    convicted_if(report, first_attests, second_attests)
}

// The same, by whether each vote attests.
fn convicted_if<G: Copy, D: Digest>(
    report: &Activity<G, D>,
    first: bool,
    second: bool,
) -> Option<Participant>
    ensures { result ≡ convicted_where D.eq report.now (first && second) }
{
    match *report {
        Activity::ConflictingNotarize(a, b) => {
            signer_if(&Vote::Notarize(a), &Vote::Notarize(b), first, second)
        }
        Activity::ConflictingFinalize(a, b) => {
            signer_if(&Vote::Finalize(a), &Vote::Finalize(b), first, second)
        }
        Activity::NullifyFinalize(a, b) => {
            signer_if(&Vote::Nullify(a), &Vote::Finalize(b), first, second)
        }
        Activity::Notarize(_) | Activity::Nullify(_) | Activity::Finalize(_) => None,
    }
}

// The signer of two votes that contradict each other, if both attest.
fn signer_if<G: Copy, D: Digest>(
    a: &Vote<G, D>,
    b: &Vote<G, D>,
    first: bool,
    second: bool,
) -> Option<Participant>
    ensures { result ≡ cond (may_convict D.eq a.now b.now && (first && second))
        (Some (attestation_of a.now).signer) None }
{
    if !may_convict(a, b) {
        return None;
    }
    if first && second {
        Some(a.signer())
    } else {
        None
    }
}

// The same, but for the proof.
fn convicted_exactly<S: Scheme<D>, D: Digest, R: CryptoRng>(
    alloc: Global,
    scheme: &S,
    rng: &mut R,
    report: &Activity<S::Signature, D>,
) -> Result<Option<Participant>, AllocError>
    ensures exact { IfOk result (λ found. found
        ≡ convicted_by (S.meaning scheme.now) D.eq report.now) }
    ensures drawn { OnOk result (R.stream rng.new
        ≡ left_by_convicting (S.meaning scheme.now) D.eq report.now (R.stream rng.old)) }
    ensures needed { OnErr result (has_to_verify D.eq report.now ≡ true) }
{
    match *report {
        Activity::ConflictingNotarize(a, b) => {
            convicted_of(alloc, scheme, rng, &Vote::Notarize(a), &Vote::Notarize(b))
        }
        Activity::ConflictingFinalize(a, b) => {
            convicted_of(alloc, scheme, rng, &Vote::Finalize(a), &Vote::Finalize(b))
        }
        Activity::NullifyFinalize(a, b) => {
            convicted_of(alloc, scheme, rng, &Vote::Nullify(a), &Vote::Finalize(b))
        }
        Activity::Notarize(_) | Activity::Nullify(_) | Activity::Finalize(_) => Ok(None),
    }
}

// The participant, where the two votes convict it.
fn convicted_of<S: Scheme<D>, D: Digest, R: CryptoRng>(
    alloc: Global,
    scheme: &S,
    rng: &mut R,
    a: &Vote<S::Signature, D>,
    b: &Vote<S::Signature, D>,
) -> Result<Option<Participant>, AllocError>
    ensures exact { IfOk result (λ found. found
        ≡ cond (convicts (S.meaning scheme.now) D.eq a.now b.now)
        (Some (attestation_of a.now).signer) None) }
    ensures drawn { OnOk result (R.stream rng.new ≡ cond (may_convict D.eq a.now b.now)
        (left_by_both (S.meaning scheme.now) a.now b.now (R.stream rng.old)) (R.stream rng.old)) }
    ensures needed { OnErr result (may_convict D.eq a.now b.now ≡ true) }
{
    if convicts(alloc, scheme, rng, a, b)? {
        Ok(Some(a.signer()))
    } else {
        Ok(None)
    }
}

// Whether two votes of one signer contradict each other and attest.
fn convicts<S: Scheme<D>, D: Digest, R: CryptoRng>(
    alloc: Global,
    scheme: &S,
    rng: &mut R,
    a: &Vote<S::Signature, D>,
    b: &Vote<S::Signature, D>,
) -> Result<bool, AllocError>
    ensures exact { IfOk result (λ yes. yes ≡ convicts (S.meaning scheme.now) D.eq a.now b.now) }
    ensures drawn { OnOk result (R.stream rng.new ≡ cond (may_convict D.eq a.now b.now)
        (left_by_both (S.meaning scheme.now) a.now b.now (R.stream rng.old)) (R.stream rng.old)) }
    ensures needed { OnErr result (may_convict D.eq a.now b.now ≡ true) }
{
    if !may_convict(a, b) {
        return Ok(false);
    }
    if !attests(alloc, scheme, rng, a)? {
        return Ok(false);
    }
    attests(alloc, scheme, rng, b)
}

// Whether two votes are of one signer and contradict each other.
fn may_convict<G: Copy, D: Digest>(a: &Vote<G, D>, b: &Vote<G, D>) -> bool
    ensures { result ≡ may_convict D.eq a.now b.now }
{
    a.signer().0 == b.signer().0 && contradict(a.subject(), b.subject())
}

/// Whether the vote's attestation attests what it votes for: of one that comes from elsewhere, as
/// from a disk, before it is cast.
pub fn attests<S: Scheme<D>, D: Digest, R: CryptoRng>(
    alloc: Global,
    scheme: &S,
    rng: &mut R,
    vote: &Vote<S::Signature, D>,
) -> Result<bool, AllocError>
    ensures exact { IfOk result (λ yes. yes
        ≡ (S.meaning scheme.now).attests (subject_of vote.now) (attestation_of vote.now)) }
    ensures drawn { OnOk result (R.stream rng.new
        ≡ left_by (S.meaning scheme.now) vote.now (R.stream rng.old)) }
{
    let mut pending = Vec::new(alloc);
    pending.push(vote.attestation())?;
    let found = scheme.verify_attestations(alloc, rng, vote.subject(), &pending)?;
    Ok(found.invalid.is_empty())
}
