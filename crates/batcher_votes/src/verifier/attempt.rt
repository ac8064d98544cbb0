//! One attempt at a certificate.

ghost use Rattle.std.specs.Prelude.{◌≡◌, ◌≤◌, ◌++◌, ◌&&◌, [], Bool, not, Some, false, length, map};
ghost use Rattle.std.specs.Prelude.{nat_le, IfOk};
ghost use Rattle.std.specs.List.{AllPass};
ghost use Rattle.rand_core.specs.Stream.{Stream};
ghost use Rattle.batcher_types.specs.declared.messages.Attestation.{Attestation as TheAttestation};
ghost use Rattle.batcher_types.specs.Quorum.{quorum_of};
ghost use Rattle.batcher_types.specs.Lists.{EachOnce, is_empty};
ghost use Rattle.batcher_types.specs.Attestations.{index_of_signer, Sorts};
ghost use Rattle.batcher_types.specs.Attempts.{checked, attempt_of};
ghost use Rattle.batcher_votes.specs.Outcomes.{attempt_result};
ghost use Rattle.batcher_votes.specs.Verdicts.{judged};

use crate::verifier::Batch;
use batcher_types::messages::{Attestation, Digest, Subject};
use batcher_types::positions::{Participant, Participants};
use batcher_types::scheme::{Scheme, Verification};
use rand_core::CryptoRng;
use std::alloc::{AllocError, Global};

/// What an attempt did, and the attestations that it verified one by one. These join the verified
/// ones where there is no certificate.
#[derive(Drop)]
pub(crate) struct Attempted<C, G> {
    pub(crate) batch: Batch<C>,
    pub(crate) joining: Vec<Attestation<G>>,
}

impl<C, G> Attempted<C, G> {
    // What was found of so many pending attestations, with the certificate, if there is one.
    fn new(processed: usize, found: Verification<G>, certificate: Option<C>, fallback: bool) -> Self
        ensures batch { result.batch ≡ record {
          processed = processed;
          invalid = found.invalid.items;
          certificate = certificate;
          fallback = fallback;
        } }
        ensures joining { result.joining ≡ found.verified }
    {
        Attempted {
            batch: Batch {
                processed,
                invalid: Participants::from(found.invalid),
                certificate,
                fallback,
            },
            joining: found.verified,
        }
    }

    /// What an attempt did that was given a certificate of so many pending attestations. It takes
    /// no memory.
    pub(crate) fn given(alloc: Global, processed: usize, certificate: C) -> Self
        ensures batch { result.batch ≡ record {
          processed = processed;
          invalid = [];
          certificate = Some certificate;
          fallback = false;
        } }
        ensures joining { result.joining.items ≡ [] }
    {
        let nothing = Verification {
            verified: Vec::new(alloc),
            invalid: Vec::new(alloc),
        };
        Attempted::new(processed, nothing, Some(certificate), false)
    }
}

/// The pending attestations that an attempt looks at: where the verified ones are a quorum by
/// themselves, to verify more of them would be work for nothing.
pub(crate) fn looked_at<'a, G>(
    quorum: usize,
    verified: &[Attestation<G>],
    pending: &'a [Attestation<G>],
) -> &'a [Attestation<G>]
    ensures { result.now ≡ checked quorum verified.now pending.now }
{
    if verified.len() >= quorum {
        &[]
    } else {
        pending
    }
}

/// Tries to make a certificate of the verified and the pending attestations of a subject.
pub(crate) fn attempt<S: Scheme<D>, D: Digest, R: CryptoRng>(
    alloc: Global,
    scheme: &S,
    rng: &mut R,
    subject: Subject<D>,
    quorum: usize,
    verified: &[Attestation<S::Signature>],
    pending: &[Attestation<S::Signature>],
) -> Result<Attempted<S::Certificate, S::Signature>, AllocError>
    requires some { 1 ≤ length (S.meaning scheme.now).participants }
    requires enough { quorum_of (length (S.meaning scheme.now).participants) ≤ quorum }
    requires once { EachOnce index_of_signer (verified.now ++ pending.now) }
    requires attested { AllPass ((S.meaning scheme.now).attests subject) verified.now }
    ensures attempt { IfOk result (λ a.
        (attempt_result verified.now a.batch a.joining.items, R.stream rng.new)
        ≡ attempt_of (S.meaning scheme.now) subject quorum verified.now pending.now
        (R.stream rng.old)) }
{
    let pending = looked_at(quorum, verified, pending);
    let processed = pending.len();
    if verified.len().saturating_add(processed) >= quorum {
        match scheme.optimistic_assemble(alloc, rng, subject, pending, verified)? {
            Ok(certificate) => Ok(Attempted::given(alloc, processed, certificate)),
            Err(found) => {
                if verified.len().saturating_add(found.verified.len()) >= quorum {
                    let certificate = scheme.assemble(
                        alloc,
                        subject,
                        verified,
                        found.verified.as_slice(),
                    )?;
                    Ok(Attempted::new(processed, found, Some(certificate), true))
                } else {
                    Ok(Attempted::new(processed, found, None, true))
                }
            }
        }
    } else {
        let found = scheme.verify_attestations(alloc, rng, subject, pending)?;
        Ok(Attempted::new(processed, found, None, false))
    }
}

/// Makes a certificate of the verified attestations of a subject and the pending ones that attest,
/// where they are a quorum, by verdicts on the pending ones that are looked at.
pub(crate) fn attempt_by_verdicts<S: Scheme<D>, D: Digest>(
    alloc: Global,
    scheme: &S,
    subject: Subject<D>,
    quorum: usize,
    verified: &[Attestation<S::Signature>],
    pending: &[Attestation<S::Signature>],
    verdicts: &[bool],
) -> Result<Attempted<S::Certificate, S::Signature>, AllocError>
    requires some { 1 ≤ length (S.meaning scheme.now).participants }
    requires enough { quorum_of (length (S.meaning scheme.now).participants) ≤ quorum }
    requires once { EachOnce index_of_signer (verified.now ++ pending.now) }
    requires attested { AllPass ((S.meaning scheme.now).attests subject) verified.now }
    requires verdicts { verdicts.now
        ≡ map ((S.meaning scheme.now).attests subject) (checked quorum verified.now pending.now) }
    ensures attempt { IfOk result (λ a. (stream : Stream)
        → (attempt_result verified.now a.batch a.joining.items, stream)
        ≡ attempt_of (judged (S.meaning scheme.now)) subject quorum verified.now pending.now
        stream) }
{
    let pending = looked_at(quorum, verified, pending);
    let processed = pending.len();
    let sorted = sorted_by(alloc, pending, verdicts)?;
    let most = verified.len().saturating_add(processed);
    let fallback = fell_back(most, quorum, sorted.invalid.as_slice());
    if verified.len().saturating_add(sorted.verified.len()) >= quorum {
        let certificate = scheme.assemble(alloc, subject, verified, sorted.verified.as_slice())?;
        Ok(Attempted::new(processed, sorted, Some(certificate), fallback))
    } else {
        Ok(Attempted::new(processed, sorted, None, fallback))
    }
}

// Whether so many could have been a quorum, but some are invalid.
fn fell_back(most: usize, quorum: usize, invalid: &[Participant]) -> bool
    ensures { result ≡ (nat_le quorum most && not (is_empty invalid.now)) }
{
    most >= quorum && !invalid.is_empty()
}

// Sorts attestations by the verdicts on them.
fn sorted_by<G: Copy>(
    alloc: Global,
    pending: &[Attestation<G>],
    verdicts: &[bool],
) -> Result<Verification<G>, AllocError>
    requires { length verdicts.now ≡ length pending.now }
    ensures { IfOk result (λ found. (test : TheAttestation G → Bool)
        → verdicts.now ≡ map test pending.now → Sorts test pending.now found) }
{
    let mut verified = Vec::new(alloc);
    let mut invalid = Vec::new(alloc);
    for index in 0..pending.len() {
        let attestation = pending[index];
        if verdicts[index] {
            verified.push(attestation)?;
        } else {
            invalid.push(attestation.signer)?;
        }
    }
    Ok(Verification { verified, invalid })
}
