//! Verdicts that come late, as from another thread, while votes go on to come.

ghost use Rattle.std.specs.Prelude.{◌≡◌, ◌≢◌, ◌≤◌, ◌++◌, [], true, false, Bool, List, length, map};
ghost use Rattle.std.specs.Prelude.{None, Some, Ok, is_some, IfOk, IfSome, OnErr};
ghost use Rattle.std.specs.Option.{option_map};
ghost use Rattle.batcher_types.specs.declared.messages.Attestation.{Attestation as TheAttestation};
ghost use Rattle.batcher_types.specs.declared.messages.Kind.{Kind as TheKind};
ghost use Rattle.batcher_types.specs.declared.messages.Subject.{Subject as TheSubject};
ghost use Rattle.batcher_round.specs.RoundWords.{of_kind, subject_next, pending_next};
ghost use Rattle.batcher_round.specs.RoundWords.{verified_next, SameRound, IfGiven, BatchCertifies};
ghost use Rattle.batcher_round.specs.RoundWords.{IsRefusedForNeed, SimulatesAlways, ConstructCall};
ghost use Rattle.batcher_round.specs.RoundWords.{ConstructAnswer, AfterConstruct};
ghost use Rattle.batcher_round.specs.Verdicts.{judged_config, BatchIsAssembled};
ghost use Rattle.rand_core.specs.Stream.{Stream};
ghost use Rattle.batcher_verdicts.specs.Recorded.{Asks, AreTrue, AddsVerdicts, IsKnown};
ghost use Rattle.batcher_verdicts.specs.Recorded.{VerdictsNeed};
ghost use Rattle.batcher_verdicts.specs.Rounds.{recorded_of, kind_attested, AllTrue, AreComplete};
ghost use Rattle.batcher_verdicts.specs.Rounds.{AsksNext, ForgetsVerdicts, RecordingNeeds, Records};

use crate::recorded::KindVerdicts;
use batcher_round::round::{Round, RoundConfigs};
use batcher_types::messages::{Attestation, Certificate, Digest, Identical, Subject};
use batcher_types::scheme::Scheme;
use batcher_votes::verifier::{Batch, NextAttempt};
use std::alloc::{AllocError, Global};
use std::marker::Model;

/// The verdicts on attestations that wait in a round. They are kept apart from it, so its calls
/// leave them as they are: what a verdict is on is compared with what waits by then.
#[derive(Drop)]
pub struct Verdicts<G, D> {
    notarize: KindVerdicts<G, D>,
    nullify: KindVerdicts<G, D>,
    finalize: KindVerdicts<G, D>,
}

impl<G, D> Model for Verdicts<G, D> {
    ghost use Rattle.batcher_votes.specs.RoundState.{PerKind};
    ghost use Rattle.batcher_verdicts.specs.Recorded.{Recorded};

    ghost Value = { PerKind (Recorded G D) };

    ghost view = { λ v. record {
      notarize = v.notarize;
      nullify = v.nullify;
      finalize = v.finalize;
    } };
}

impl<G: Identical, D: Digest> Verdicts<G, D> {
    /// None. It takes no memory.
    pub fn new(alloc: Global) -> Self
        ensures none { (kind : TheKind) → (of_kind result kind).list ≡ [] }
        ensures truths { (attests : TheSubject D → TheAttestation G → Bool)
            → AllTrue attests result }
    {
        Verdicts {
            notarize: KindVerdicts::new(alloc),
            nullify: KindVerdicts::new(alloc),
            finalize: KindVerdicts::new(alloc),
        }
    }

    // Those on what attests the subject.
    pub(crate) fn of(&self, subject: &Subject<D>) -> &KindVerdicts<G, D>
        ensures { result.now ≡ recorded_of self.now subject.now }
    {
        match subject {
            Subject::Notarize { .. } => &self.notarize,
            Subject::Nullify { .. } => &self.nullify,
            Subject::Finalize { .. } => &self.finalize,
        }
    }

    // What the next construction of the round is about, and on how many attestations that it looks
    // at, from the first on, a verdict is recorded.
    pub(crate) fn known_next<S: Scheme<D, Signature = G>>(
        &self,
        round: &Round<S, D>,
    ) -> Option<(Subject<D>, usize)>
        ensures subject { option_map (λ k. k.0) result
            ≡ subject_next (⟦<S as RoundConfigs<D>>⟧.of round.now) round.now.holds }
        ensures known { IfSome result (λ k. IsKnown (recorded_of self.now k.0) k.0
            (pending_next (⟦<S as RoundConfigs<D>>⟧.of round.now) round.now.holds) k.1) }
        ensures within { IfSome result (λ k. k.1 ≤ length (recorded_of self.now k.0).list) }
    {
        let next = round.next_attempt()?;
        let known = self.of(&next.subject).known(&next.subject, next.pending);
        Some((next.subject, known))
    }

    // Records verdicts on a list, of what waits for the subject. False where the list isn't what is
    // asked about first.
    fn record_of(
        &mut self,
        subject: &Subject<D>,
        waiting: &[Attestation<G>],
        list: &[Attestation<G>],
        verdicts: &[bool],
    ) -> Result<bool, AllocError>
        requires { length verdicts.now ≡ length list.now }
        ensures asked { result ≡ Ok true → (rest : List (TheAttestation G))
            × (Asks (recorded_of self.old subject.now) subject.now waiting.now
            (list.now ++ rest)) }
        ensures not_stale { (rest : List (TheAttestation G))
            → Asks (recorded_of self.old subject.now) subject.now waiting.now (list.now ++ rest)
            → IfOk result (λ is_next. is_next ≡ true) }
        ensures adds { result ≡ Ok true → AddsVerdicts (recorded_of self.old subject.now)
            (recorded_of self.new subject.now) subject.now waiting.now list.now verdicts.now }
        ensures others { (kind : TheKind) → kind ≢ kind_attested subject.now
            → of_kind self.new kind ≡ of_kind self.old kind }
        ensures truths { (attests : TheSubject D → TheAttestation G → Bool)
            → AreTrue attests (recorded_of self.old subject.now)
            → verdicts.now ≡ map (attests subject.now) list.now
            → AreTrue attests (recorded_of self.new subject.now) }
        ensures needed { OnErr result (VerdictsNeed (recorded_of self.old subject.now) subject.now
            waiting.now list.now) }
        ensures stale { result ≡ Ok false → self.new ≡ self.old }
        ensures refused { OnErr result (self.new ≡ self.old) }
    {
        match subject {
            Subject::Notarize { .. } => self.notarize.record(subject, waiting, list, verdicts),
            Subject::Nullify { .. } => self.nullify.record(subject, waiting, list, verdicts),
            Subject::Finalize { .. } => self.finalize.record(subject, waiting, list, verdicts),
        }
    }

    // Forgets those on what attests the subject, once the construction is made by them.
    pub(crate) fn forget(&mut self, subject: &Subject<D>, is_made: bool)
        ensures forgets { is_made ≡ true → ForgetsVerdicts self.old self.new subject.now }
        ensures keeps { is_made ≡ false → self.new ≡ self.old }
        ensures truths { (attests : TheSubject D → TheAttestation G → Bool)
            → AllTrue attests self.old → AllTrue attests self.new }
    {
        if !is_made {
            return;
        }
        match subject {
            Subject::Notarize { .. } => self.notarize.forget(),
            Subject::Nullify { .. } => self.nullify.forget(),
            Subject::Finalize { .. } => self.finalize.forget(),
        }
    }

    /// What the next construction of the round wants verdicts on: those of the pending attestations
    /// on which none is recorded. It wants none where the list is empty.
    pub fn wanted<'r, S: Scheme<D, Signature = G>>(
        &self,
        round: &'r Round<S, D>,
    ) -> Option<NextAttempt<'r, G, D>>
        ensures subject { option_map (λ a. a.subject) result
            ≡ subject_next (⟦<S as RoundConfigs<D>>⟧.of round.now) round.now.holds }
        ensures asked { IfSome result (λ a. AsksNext (⟦<S as RoundConfigs<D>>⟧.of round.now)
            round.now.holds self.now a.subject a.pending.now) }
        ensures verified { IfSome result (λ a. a.verified.now
            ≡ verified_next (⟦<S as RoundConfigs<D>>⟧.of round.now) round.now.holds) }
    {
        let next = round.next_attempt()?;
        let pending = self.of(&next.subject).asked(&next.subject, next.pending);
        Some(NextAttempt {
            subject: next.subject,
            pending,
            verified: next.verified,
        })
    }

    /// Records verdicts on a list, of what `wanted` lends for this subject, from the first on.
    ///
    /// False where the list isn't that, as where another kind is next by now: then nothing changes.
    /// A refusal for memory changes nothing either. A verdict has to be the scheme's, or no
    /// construction may be made by it.
    pub fn record<S: Scheme<D, Signature = G>>(
        &mut self,
        round: &Round<S, D>,
        subject: Subject<D>,
        list: &[Attestation<G>],
        verdicts: &[bool],
    ) -> Result<bool, AllocError>
        requires one_each { length verdicts.now ≡ length list.now }
        ensures records { result ≡ Ok true → Records (⟦<S as RoundConfigs<D>>⟧.of round.now)
            round.now.holds self.old self.new subject list.now verdicts.now }
        ensures not_stale { (rest : List (TheAttestation G))
            → AsksNext (⟦<S as RoundConfigs<D>>⟧.of round.now) round.now.holds self.old subject
            (list.now ++ rest) → IfOk result (λ is_next. is_next ≡ true) }
        ensures truths { (attests : TheSubject D → TheAttestation G → Bool)
            → AllTrue attests self.old → verdicts.now ≡ map (attests subject) list.now
            → AllTrue attests self.new }
        ensures needed { OnErr result (RecordingNeeds (⟦<S as RoundConfigs<D>>⟧.of round.now)
            round.now.holds self.old subject list.now) }
        ensures stale { result ≡ Ok false → self.new ≡ self.old }
        ensures refused { OnErr result (self.new ≡ self.old) }
    {
        match waiting_for(round, &subject) {
            Some(waiting) => self.record_of(&subject, waiting, list, verdicts),
            None => Ok(false),
        }
    }

    /// Makes the next construction, where a verdict on each attestation that it looks at is
    /// recorded. These verdicts are forgotten then.
    ///
    /// None where one isn't recorded, or where no kind is ready: then nothing changes. A refusal
    /// for memory changes nothing either.
    pub fn try_construct<S: Scheme<D, Signature = G>>(
        &mut self,
        round: &mut Round<S, D>,
    ) -> Result<Option<Batch<Certificate<S::Certificate, D>>>, AllocError>
        requires truths { AllTrue (S.meaning round.old.scheme).attests self.old }
        ensures complete { (subject : TheSubject D)
            → AreComplete (⟦<S as RoundConfigs<D>>⟧.of round.old) round.old.holds self.old subject
            → IfOk result (λ given. is_some given ≡ true) }
        ensures made { IfGiven result (λ _. (subject : TheSubject D)
            × (AreComplete (⟦<S as RoundConfigs<D>>⟧.of round.old) round.old.holds self.old
            subject)) }
        ensures step { IfGiven result (λ batch. (stream : Stream)
            → AfterConstruct (judged_config (⟦<S as RoundConfigs<D>>⟧.of round.old)) round.old.holds
            stream (Some batch) round.new.holds stream) }
        ensures meets { IfGiven result (λ batch. SimulatesAlways ⟦<S as RoundConfigs<D>>⟧.of
            round.old (ConstructCall, ConstructAnswer (Some batch)) round.new.holds) }
        ensures needed { IsRefusedForNeed ⟦<S as RoundConfigs<D>>⟧.of round.old
            ConstructCall result }
        ensures certifies { IfGiven result (BatchCertifies (S.meaning round.old.scheme)) }
        ensures assembled { IfGiven result (BatchIsAssembled (S.meaning round.old.scheme)) }
        ensures truths { (attests : TheSubject D → TheAttestation G → Bool)
            → AllTrue attests self.old → AllTrue attests self.new }
        ensures forgets { IfGiven result (λ _. (subject : TheSubject D)
            → subject_next (⟦<S as RoundConfigs<D>>⟧.of round.old) round.old.holds ≡ Some subject
            → ForgetsVerdicts self.old self.new subject) }
        ensures waits { result ≡ Ok None → (self.new ≡ self.old) × (round.new ≡ round.old) }
        ensures refused { OnErr result ((self.new ≡ self.old) × (round.new ≡ round.old)) }
        ensures same { SameRound round.old round.new }
    {
        let Some((subject, known)) = self.known_next(round) else {
            return Ok(None);
        };
        let (list, verdicts) = self.of(&subject).first(known);
        let given = round.conclude(subject, list, verdicts)?;
        self.forget(&subject, given.is_some());
        Ok(given)
    }
}

// What waits for the subject, where the next construction of the round is about it.
fn waiting_for<'r, S: Scheme<D>, D: Digest>(
    round: &'r Round<S, D>,
    subject: &Subject<D>,
) -> Option<&'r [Attestation<S::Signature>]>
    ensures next { is_some result ≡ true
        → subject_next (⟦<S as RoundConfigs<D>>⟧.of round.now) round.now.holds
        ≡ Some subject.now }
    ensures not_next { subject_next (⟦<S as RoundConfigs<D>>⟧.of round.now) round.now.holds
        ≡ Some subject.now → is_some result ≡ true }
    ensures pending { IfSome result (λ waiting. waiting.now
        ≡ pending_next (⟦<S as RoundConfigs<D>>⟧.of round.now) round.now.holds) }
{
    let next = round.next_attempt()?;
    if next.subject.is_same(subject) {
        Some(next.pending)
    } else {
        None
    }
}
