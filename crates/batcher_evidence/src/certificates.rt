//! Who signed what each of two certificates certifies.

ghost use Rattle.std.specs.Prelude.{◌≡◌, true, IfOk, IfSome, OnErr, is_some};
ghost use Rattle.std.specs.Option.{option_map};
ghost use Rattle.batcher.specs.Ascending.{IsAscending};
ghost use Rattle.batcher.specs.Attestations.{index_of_signer};
ghost use Rattle.batcher.specs.Votes.{content_of};
ghost use Rattle.batcher.specs.Verifiers.{certifies_itself};
ghost use Rattle.batcher_evidence.specs.Culprits.{AreCulprits, culprits_of, signed_both};

use crate::Accountable;
use crate::subjects::certificates_contradict;
use batcher::messages::{Attestation, Certificate, Digest};
use batcher::scheme::Scheme;
use std::alloc::{AllocError, Global};

/// A participant that signed both of two things, by its attestations of the first and the second.
///
/// It is the signer of both. Who holds the two certified things and the scheme can check both
/// attestations, and needs no certificate.
#[derive(Clone, Copy, Debug, PartialEq, Eq)]
pub struct Culprit<G> {
    pub first: Attestation<G>,
    pub second: Attestation<G>,
}

/// Who signed what each of two certificates certifies, in ascending order, where both certify and
/// contradict each other; else `None`.
///
/// Two quorums are together more than all participants, by more than may be faulty: at least so
/// many are named. Nothing is asked of who made the certificates, or how they came. Where there are
/// none to name it takes no memory.
pub fn culprits<S: Accountable<D>, D: Digest>(
    alloc: Global,
    scheme: &S,
    a: &Certificate<S::Certificate, D>,
    b: &Certificate<S::Certificate, D>,
) -> Result<Option<Vec<Culprit<S::Signature>>>, AllocError>
    ensures exact { IfOk result (λ found. option_map (λ list. list.items) found
        ≡ culprits_of (S.meaning scheme.now) S.shown D.eq a.now b.now) }
    ensures proof { IfOk result (λ found. IfSome found (λ list.
        AreCulprits (S.meaning scheme.now) S.shown a.now b.now list.items)) }
    ensures needed { OnErr result (is_some (culprits_of (S.meaning scheme.now) S.shown D.eq
        a.now b.now) ≡ true) }
{
    if !certifies(scheme, a) || !certifies(scheme, b) || !certificates_contradict(a, b) {
        return Ok(None);
    }
    let found = signers_of_both(alloc, scheme, a, b)?;
    Ok(Some(found))
}

pub(crate) fn certifies<S: Scheme<D>, D: Digest>(
    scheme: &S,
    certificate: &Certificate<S::Certificate, D>,
) -> bool
    ensures { result ≡ certifies_itself (S.meaning scheme.now) certificate.now }
{
    scheme.verify_certificate(certificate.subject(), certificate.content())
}

// The attestations that the certificate shows.
fn shown<'a, S: Accountable<D>, D: Digest>(
    scheme: &S,
    certificate: &'a Certificate<S::Certificate, D>,
) -> &'a [Attestation<S::Signature>]
    requires { certifies_itself (S.meaning scheme.now) certificate.now ≡ true }
    ensures is { result.now ≡ S.shown (content_of certificate.now) }
    ensures ascending { IsAscending index_of_signer result.now }
{
    scheme.attestations(certificate.content())
}

// Who signed both of two things that are certified.
fn signers_of_both<S: Accountable<D>, D: Digest>(
    alloc: Global,
    scheme: &S,
    a: &Certificate<S::Certificate, D>,
    b: &Certificate<S::Certificate, D>,
) -> Result<Vec<Culprit<S::Signature>>, AllocError>
    requires first { certifies_itself (S.meaning scheme.now) a.now ≡ true }
    requires second { certifies_itself (S.meaning scheme.now) b.now ≡ true }
    ensures exact { IfOk result (λ list. list.items
        ≡ signed_both (S.shown (content_of a.now)) (S.shown (content_of b.now))) }
    ensures proof { IfOk result (λ list.
        AreCulprits (S.meaning scheme.now) S.shown a.now b.now list.items) }
{
    merge(alloc, shown(scheme, a), shown(scheme, b))
}

// Those who signed both lists, by going down both at once.
fn merge<G: Copy>(
    alloc: Global,
    first: &[Attestation<G>],
    second: &[Attestation<G>],
) -> Result<Vec<Culprit<G>>, AllocError>
    requires first { IsAscending index_of_signer first.now }
    requires second { IsAscending index_of_signer second.now }
    ensures { IfOk result (λ found. found.items ≡ signed_both first.now second.now) }
{
    let mut found = Vec::new(alloc);
    let mut left = first;
    let mut right = second;
    while let (Some((a, lefts)), Some((b, rights))) = (left.split_first(), right.split_first()) {
        if a.signer.0 < b.signer.0 {
            left = lefts;
        } else if b.signer.0 < a.signer.0 {
            right = rights;
        } else {
            found.push(Culprit {
                first: *a,
                second: *b,
            })?;
            left = lefts;
            right = rights;
        }
    }
    Ok(found)
}
