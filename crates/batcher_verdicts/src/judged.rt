//! A round, and what is known by verdicts of the attestations that wait in it.

ghost use Rattle.std.specs.Prelude.{◌≡◌, ◌≤◌, ◌↔◌, ◌++◌, [], true, length, is_some, Some, IfOk};
ghost use Rattle.std.specs.Prelude.{IfSome, IsTrue};
ghost use Rattle.batcher_verdicts.specs.Wholes.{IsWhole, MayBeWhole};
ghost use Rattle.batcher.specs.Attestations.{index_of_signer};
ghost use Rattle.batcher.specs.Config.{quorum_in};
ghost use Rattle.batcher.specs.Lists.{EachOnce};
ghost use Rattle.batcher.specs.Represents.{Represents};
ghost use Rattle.batcher_round.specs.Next.{subject_next, pending_next, verified_next};
ghost use Rattle.batcher_types.specs.declared.messages.Kind.{Kind as TheKind};
ghost use Rattle.batcher_votes.specs.RoundState.{of_kind};

use crate::Verdicts;
use batcher::messages::{Attestation, Digest, Identical, Sha256Digest, Subject, are_identical};
use batcher::positions;
use batcher::round::{Round, RoundConfigs};
use batcher::scheme::Scheme;
use batcher::verifier::NextAttempt;
use batcher::votes::Mode;
use batcher_bytes::Signature;
use std::alloc::{AllocError, Global};
use std::marker::Model;
use std::rc::Rc;

/// A round with its verdicts, each of which is the scheme's.
#[derive(Drop)]
pub struct Judged<S: Scheme<Sha256Digest>> {
    pub(crate) scheme: Rc<S>,
    pub(crate) round: Round<S, Sha256Digest>,
    pub(crate) verdicts: Verdicts<S::Signature, Sha256Digest>,
}

impl<S: Scheme<Sha256Digest>> Model for Judged<S> {
    ghost use Rattle.std.specs.Prelude.{◌≡◌};
    ghost use Rattle.batcher_verdicts.specs.Judging.{JudgedView};
    ghost use Rattle.batcher_types.specs.declared.messages.Sha256Digest.{Sha256Digest as TheDigest};
    ghost use Rattle.batcher_verdicts.specs.Rounds.{AllTrue};

    ghost Value = { JudgedView S S.Signature };

    ghost view = { λ j. record { round = j.round; verdicts = j.verdicts } };

    ghost invariant = { λ j. (j.round.scheme ≡ j.scheme.value)
        × AllTrue (S.meaning j.scheme.value).attests j.verdicts };
}

impl<S: Scheme<Sha256Digest>> Judged<S>
where
    S::Signature: Identical,
{
    /// A round in which nothing has happened, without a verdict. It takes memory for a count of
    /// those who use the scheme, and for nothing else.
    pub fn new(
        alloc: Global,
        number: positions::Round,
        scheme: &Rc<S>,
        mode: Mode,
    ) -> Result<Self, AllocError>
        requires { 1 ≤ length (S.meaning scheme.now.value).participants }
        ensures scheme { IfOk result (λ made. made.round.scheme ≡ scheme.now.value) }
        ensures number { IfOk result (λ made. made.round.number ≡ number) }
        ensures mode { IfOk result (λ made. made.round.mode ≡ mode) }
        ensures unknown { IfOk result (λ made. (kind : TheKind)
            → (of_kind made.verdicts kind).list ≡ []) }
        ensures represents { IfOk result (λ made. Represents
            (⟦<S as RoundConfigs<Sha256Digest>>⟧.of made.round) [] made.round.holds) }
    {
        let shared = Rc::clone(scheme)?;
        let own = Rc::clone(scheme)?;
        let round = Round::in_mode(alloc, number, shared, mode);
        Ok(Judged {
            scheme: own,
            round,
            verdicts: Verdicts::new(alloc),
        })
    }
}

// How many of the list are known to attest, where the list is all that the next construction of the
// round could make a certificate of, a quorum that attests the subject or waits to.
pub(crate) fn known_in<S: Scheme<Sha256Digest, Signature = Signature>>(
    scheme: &S,
    round: &Round<S, Sha256Digest>,
    subject: &Subject<Sha256Digest>,
    list: &[Attestation<Signature>],
) -> Option<usize>
    requires { round.now.scheme ≡ scheme.now }
    ensures whole { IfSome result (λ known. IsWhole
        (⟦<S as RoundConfigs<Sha256Digest>>⟧.of round.now) round.now.holds subject.now list.now
        known) }
    ensures within { IfSome result (λ known. known ≤ length list.now) }
    ensures found { MayBeWhole (⟦<S as RoundConfigs<Sha256Digest>>⟧.of round.now) round.now.holds
        subject.now list.now → is_some result ≡ true }
{
    let next = next_of(round, subject)?;
    if !is_parted(list, next.verified, next.pending) || list.len() < quorum_of(scheme, round) {
        return None;
    }
    Some(next.verified.len())
}

// How many attestations make a certificate.
fn quorum_of<S: Scheme<Sha256Digest>>(scheme: &S, round: &Round<S, Sha256Digest>) -> usize
    requires { round.now.scheme ≡ scheme.now }
    ensures { result ≡ quorum_in (⟦<S as RoundConfigs<Sha256Digest>>⟧.of round.now) }
{
    let _ = round.number();
    positions::quorum(scheme.participants().len() as u32) as usize
}

// What the next construction of a round looks at, where it is about the subject.
fn next_of<'r, S: Scheme<D>, D: Digest>(
    round: &'r Round<S, D>,
    subject: &Subject<D>,
) -> Option<NextAttempt<'r, S::Signature, D>>
    ensures next { is_some result ≡ true
        → subject_next (⟦<S as RoundConfigs<D>>⟧.of round.now) round.now.holds
        ≡ Some subject.now }
    ensures not_next { subject_next (⟦<S as RoundConfigs<D>>⟧.of round.now) round.now.holds
        ≡ Some subject.now → is_some result ≡ true }
    ensures pending { IfSome result (λ a. a.pending.now
        ≡ pending_next (⟦<S as RoundConfigs<D>>⟧.of round.now) round.now.holds) }
    ensures verified { IfSome result (λ a. a.verified.now
        ≡ verified_next (⟦<S as RoundConfigs<D>>⟧.of round.now) round.now.holds) }
    ensures once { IfSome result (λ a.
        EachOnce index_of_signer (a.verified.now ++ a.pending.now)) }
{
    let next = round.next_attempt()?;
    if next.subject.is_same(subject) {
        Some(next)
    } else {
        None
    }
}

// Whether the list is the one and then the other.
fn is_parted<G: Identical>(
    list: &[Attestation<G>],
    first: &[Attestation<G>],
    rest: &[Attestation<G>],
) -> bool
    ensures { IsTrue result ↔ (list.now ≡ first.now ++ rest.now) }
{
    if list.len() < first.len() {
        return false;
    }
    let (prior, fresh) = list.split_at(first.len());
    are_identical(prior, first) && are_identical(fresh, rest)
}
