//! Attempts at certificates by verdicts from elsewhere, or by a certificate from there.

ghost use Rattle.std.specs.Prelude.{◌≡◌, true, ◌↔◌, Ok, IsTrue, map, Some, None, is_some, IfOk};
ghost use Rattle.std.specs.Prelude.{IfSome, OnErr};
ghost use Rattle.batcher_votes.specs.RoundState.{of_kind, SameVerifier};
ghost use Rattle.batcher_types.specs.Attempts.{attempt_of};
ghost use Rattle.batcher_votes.specs.VerifierSteps.{attestations_of, certificate_for};
ghost use Rattle.batcher_votes.specs.AttemptInputs.{pending_tried, verified_tried};
ghost use Rattle.batcher_votes.specs.Outcomes.{IsFine, attempt_result};
ghost use Rattle.batcher_votes.specs.Verdicts.{judged, judged_in, judged_with_in, LooksAt};
ghost use Rattle.batcher_votes.specs.Verdicts.{MayBeQuorum};
ghost use Rattle.rand_core.specs.Stream.{Stream};
ghost use Rattle.batcher_votes.specs.Soundness.{IsSound};
ghost use Rattle.batcher_votes.specs.Verifiers.{subject_ready, Tries, IfGiven, BatchCertifies};
ghost use Rattle.batcher_votes.specs.Verifiers.{NamesSomebody};

use crate::verifier::attempt::{Attempted, attempt_by_verdicts, looked_at};
use crate::verifier::{Batch, Verifier};
use batcher_types::messages::{
    Attestation, Certificate, Digest, Identical, Kind, Subject, are_identical,
};
use batcher_types::scheme::Scheme;
use std::alloc::AllocError;

impl<S: Scheme<D>, D: Digest> Verifier<S, D>
where
    S::Signature: Identical,
{
    /// One attempt at a kind's certificate by verdicts from elsewhere, on the pending attestations
    /// that `next_attempt` lends. Where those that attest are a quorum with the verified ones,
    /// their certificate is assembled. It draws nothing.
    ///
    /// None where the subject and the list aren't those of the next attempt. Then nothing changes.
    pub fn conclude(
        &mut self,
        kind: Kind,
        subject: Subject<D>,
        list: &[Attestation<S::Signature>],
        verdicts: &[bool],
    ) -> Result<Option<Batch<Certificate<S::Certificate, D>>>, AllocError>
        requires { verdicts.now ≡ map ((S.meaning self.old.scheme).attests subject) list.now }
        ensures looks_at { IfGiven result (λ _.
            LooksAt S.meaning D.eq self.old kind subject list.now) }
        ensures not_stale { LooksAt S.meaning D.eq self.old kind subject list.now
            → IfOk result (λ given. is_some given ≡ true) }
        ensures stale { result ≡ Ok None → self.new ≡ self.old }
        ensures tries { IfGiven result (λ batch. (stream : Stream)
            → Tries (judged_in S.meaning) self.old kind stream batch stream self.new) }
        ensures certifies { IfGiven result (BatchCertifies (S.meaning self.old.scheme)) }
        ensures names { IfGiven result NamesSomebody }
        ensures sound { IsSound (S.meaning self.old.scheme) D.eq self.old.number self.old.quorum
            self.old.holds }
        ensures unchanged { OnErr result (self.new.holds ≡ self.old.holds) }
        ensures same { SameVerifier self.old self.new }
    {
        if !self.looks_at(kind, subject, list) {
            return Ok(None);
        }
        Ok(Some(self.construct_by_verdicts(kind, subject, verdicts)?))
    }

    /// One attempt at a kind's certificate by one that was made elsewhere of all that
    /// `next_attempt` lends, the pending attestations and the verified ones, as schemes that
    /// aggregate do. It takes no memory and draws nothing.
    ///
    /// None where the subject and the list aren't those of the next attempt, or are too few for a
    /// quorum. Then nothing changes.
    pub fn conclude_with(
        &mut self,
        kind: Kind,
        subject: Subject<D>,
        list: &[Attestation<S::Signature>],
        certificate: S::Certificate,
    ) -> Option<Batch<Certificate<S::Certificate, D>>>
        requires { (S.meaning self.old.scheme).certifies subject certificate ≡ true }
        ensures looks_at { is_some result ≡ true
            → LooksAt S.meaning D.eq self.old kind subject list.now }
        ensures not_stale { LooksAt S.meaning D.eq self.old kind subject list.now
            → MayBeQuorum self.old kind → is_some result ≡ true }
        ensures stale { result ≡ None → self.new ≡ self.old }
        ensures tries { IfSome result (λ batch. (stream : Stream)
            → Tries (judged_with_in S.meaning certificate) self.old kind stream batch stream
            self.new) }
        ensures gives { IfSome result (λ batch. batch.certificate
            ≡ Some (certificate_for subject certificate)) }
        ensures certifies { IfSome result (BatchCertifies (S.meaning self.old.scheme)) }
        ensures names { IfSome result NamesSomebody }
        ensures sound { IsSound (S.meaning self.old.scheme) D.eq self.old.number self.old.quorum
            self.old.holds }
        ensures same { SameVerifier self.old self.new }
    {
        if !self.looks_at(kind, subject, list) || !self.may_be_quorum(kind) {
            return None;
        }
        let tried = Attempted::given(self.alloc, list.len(), certificate);
        Some(self.take_in(kind, subject, tried).unwrap())
    }

    // Whether what the next attempt at the kind looks at could be a quorum.
    fn may_be_quorum(&self, kind: Kind) -> bool
        ensures { IsTrue result ↔ MayBeQuorum self.now kind }
    {
        let certification = self.kinds.get(kind);
        let verified = certification.verified();
        let checked = looked_at(self.quorum, verified, certification.pending());
        verified.len().saturating_add(checked.len()) >= self.quorum
    }

    // Whether the next attempt at the kind is about the subject, and looks at just these pending
    // attestations.
    fn looks_at(&self, kind: Kind, subject: Subject<D>, list: &[Attestation<S::Signature>]) -> bool
        ensures looks_at { IsTrue result
            ↔ LooksAt S.meaning D.eq self.now kind subject list.now }
        ensures sound { IsSound (S.meaning self.now.scheme) D.eq self.now.number self.now.quorum
            self.now.holds }
    {
        let Some(ready) = self.subject_ready(kind) else {
            return false;
        };
        let certification = self.kinds.get(kind);
        let pending = looked_at(
            self.quorum,
            certification.verified(),
            certification.pending(),
        );
        ready.is_same(&subject) && are_identical(pending, list)
    }
}

impl<S: Scheme<D>, D: Digest> Verifier<S, D> {
    // One attempt at the certificate of a subject, by verdicts on the pending votes that are looked
    // at.
    fn construct_by_verdicts(
        &mut self,
        kind: Kind,
        subject: Subject<D>,
        verdicts: &[bool],
    ) -> Result<Batch<Certificate<S::Certificate, D>>, AllocError>
        requires ready { subject_ready D.eq (S.meaning self.old.scheme).batchable self.old.quorum
            self.old.holds self.old.number kind ≡ Some subject }
        requires verdicts { verdicts.now ≡ map ((S.meaning self.old.scheme).attests subject)
            (pending_tried self.old.quorum self.old.holds kind) }
        ensures tries { IfOk result (λ batch. (stream : Stream)
            → Tries (judged_in S.meaning) self.old kind stream batch stream self.new) }
        ensures certifies { IfOk result (BatchCertifies (S.meaning self.old.scheme)) }
        ensures names { IfOk result NamesSomebody }
        ensures unchanged { OnErr result (self.new.holds ≡ self.old.holds) }
        ensures same { SameVerifier self.old self.new }
    {
        let tried = self.attempt_by_verdicts_at(kind, subject, verdicts)?;
        self.take_in(kind, subject, tried)
    }

    // An attempt with the votes of a kind, which it leaves as they are, by verdicts on the pending
    // ones that are looked at.
    fn attempt_by_verdicts_at(
        &self,
        kind: Kind,
        subject: Subject<D>,
        verdicts: &[bool],
    ) -> Result<Attempted<S::Certificate, S::Signature>, AllocError>
        requires ready { subject_ready D.eq (S.meaning self.now.scheme).batchable self.now.quorum
            self.now.holds self.now.number kind ≡ Some subject }
        requires verdicts { verdicts.now ≡ map ((S.meaning self.now.scheme).attests subject)
            (pending_tried self.now.quorum self.now.holds kind) }
        ensures attempt { IfOk result (λ a. (stream : Stream)
            → (attempt_result (verified_tried self.now.holds kind) a.batch a.joining.items, stream)
            ≡ attempt_of (judged (S.meaning self.now.scheme)) subject self.now.quorum
            (attestations_of (of_kind self.now.holds.verified kind))
            (attestations_of (of_kind self.now.holds.pending kind)) stream) }
        ensures fine { IfOk result (λ a. IsFine (S.meaning self.now.scheme) subject
            (attempt_result (verified_tried self.now.holds kind) a.batch a.joining.items)) }
    {
        let scheme: &S = &self.scheme;
        let certification = self.kinds.get(kind);
        attempt_by_verdicts(
            self.alloc,
            scheme,
            subject,
            self.quorum,
            certification.verified(),
            certification.pending(),
            verdicts,
        )
    }
}
