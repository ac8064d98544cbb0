//! Whom certificates of many views convict.

ghost use Rattle.std.specs.Prelude.{◌≡◌, IfOk, IfSome, List, MatchOption, None, Ok, OnErr, find};
ghost use Rattle.std.specs.Prelude.{is_some, true};
ghost use Rattle.std.specs.Option.{option_copied};
ghost use Rattle.batcher.specs.Verifiers.{certifies_itself};
ghost use Rattle.batcher.specs.messages.Certificate.{Certificate as TheCertificate};
ghost use Rattle.batcher.specs.messages.Proposal.{Proposal as TheProposal};
ghost use Rattle.batcher_evidence.specs.Culprits.{AreCulprits};
ghost use Rattle.batcher_evidence.specs.Forks.{AreShownCulprits, IsContradiction, IsFork};
ghost use Rattle.batcher_evidence.specs.Forks.{certify_and_contradict};

use crate::Accountable;
use crate::certificates::{Culprit, certifies, culprits};
use crate::subjects::certificates_contradict;
use batcher::messages::{Certificate, Digest, Subject};
use std::alloc::{AllocError, Global};

/// Who signed both of two subjects that contradict each other.
#[derive(Debug, Drop)]
pub struct Fork<G, D> {
    pub first: Subject<D>,
    pub second: Subject<D>,
    /// In ascending order, each with its attestations of the first and of the second.
    pub culprits: Vec<Culprit<G>>,
}

/// Who signed both of two of these certificates that contradict each other and certify. None where
/// no two do: then they show no fork, also none over views.
///
/// More participants are named than may be faulty. Of certificates that aren't here nothing is
/// known: a chain that is shown with gaps convicts nobody.
pub fn fork_among<S: Accountable<D>, D: Digest>(
    alloc: Global,
    scheme: &S,
    certificates: &[Certificate<S::Certificate, D>],
) -> Result<Option<Fork<S::Signature, D>>, AllocError>
    ensures culprits { IfOk result (λ found. IfSome found (λ fork. AreShownCulprits
        (S.meaning scheme.now) certificates.now S.shown D.eq fork.first fork.second
        fork.culprits.items)) }
    ensures none { result ≡ Ok None → (a b : TheCertificate S.Certificate D)
        → IsContradiction (S.meaning scheme.now) certificates.now D.eq a b → ⊥ }
    ensures forks { result ≡ Ok None
        → (final : TheProposal D) (chain : List (TheProposal D))
        → IsFork (S.meaning scheme.now) certificates.now final chain → ⊥ }
    ensures needed { OnErr result (((a b : TheCertificate S.Certificate D)
        → IsContradiction (S.meaning scheme.now) certificates.now D.eq a b → ⊥) → ⊥) }
{
    match contradicting(scheme, certificates) {
        Some((a, b)) => match culprits_of_two(alloc, scheme, a, b) {
            Ok(culprits) => Ok(Some(Fork {
                first: a.subject(),
                second: b.subject(),
                culprits,
            })),
            Err(fault) => Err(fault),
        },
        None => Ok(None),
    }
}

fn culprits_of_two<S: Accountable<D>, D: Digest>(
    alloc: Global,
    scheme: &S,
    a: &Certificate<S::Certificate, D>,
    b: &Certificate<S::Certificate, D>,
) -> Result<Vec<Culprit<S::Signature>>, AllocError>
    requires { certify_and_contradict (S.meaning scheme.now) D.eq a.now b.now ≡ true }
    ensures { IfOk result (λ list. AreCulprits (S.meaning scheme.now) S.shown a.now b.now
        list.items) }
{
    match culprits(alloc, scheme, a, b) {
        Ok(Some(list)) => Ok(list),
        Ok(None) => unreachable!(),
        Err(fault) => Err(fault),
    }
}

// The first two that contradict each other.
fn contradicting<'a, S: Accountable<D>, D: Digest>(
    scheme: &S,
    certificates: &'a [Certificate<S::Certificate, D>],
) -> Option<
    (
        &'a Certificate<S::Certificate, D>,
        &'a Certificate<S::Certificate, D>,
    ),
>
    ensures some { IfSome result (λ two. IsContradiction (S.meaning scheme.now) certificates.now
        D.eq two.0.now two.1.now) }
    ensures none { result ≡ None → (a b : TheCertificate S.Certificate D)
        → IsContradiction (S.meaning scheme.now) certificates.now D.eq a b → ⊥ }
{
    match contradicted(scheme, certificates) {
        Some(a) => match contrary_to(scheme, a, certificates) {
            Some(b) => Some((a, b)),
            None => unreachable!(),
        },
        None => None,
    }
}

// The first that another one contradicts.
fn contradicted<'a, S: Accountable<D>, D: Digest>(
    scheme: &S,
    certificates: &'a [Certificate<S::Certificate, D>],
) -> Option<&'a Certificate<S::Certificate, D>>
    ensures { option_copied result ≡ find (λ a. is_some (find
        (certify_and_contradict (S.meaning scheme.now) D.eq a) certificates.now))
        certificates.now }
{
    certificates
        .iter()
        .find(|a| contrary_to(scheme, a, certificates).is_some())
}

// The first that contradicts a certificate.
fn contrary_to<'a, S: Accountable<D>, D: Digest>(
    scheme: &S,
    a: &Certificate<S::Certificate, D>,
    certificates: &'a [Certificate<S::Certificate, D>],
) -> Option<&'a Certificate<S::Certificate, D>>
    ensures { option_copied result ≡ find (certify_and_contradict (S.meaning scheme.now) D.eq a.now)
        certificates.now }
{
    certificates
        .iter()
        .find(|b| are_contradicting(scheme, a, b))
}

// Whether two certificates contradict each other, and both certify.
fn are_contradicting<S: Accountable<D>, D: Digest>(
    scheme: &S,
    a: &Certificate<S::Certificate, D>,
    b: &Certificate<S::Certificate, D>,
) -> bool
    ensures { result ≡ certify_and_contradict (S.meaning scheme.now) D.eq a.now b.now }
{
    certificates_contradict(a, b) && certifies(scheme, a) && certifies(scheme, b)
}
