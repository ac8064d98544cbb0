//! Constructions by verdicts, or by a certificate, from elsewhere: from another thread, say.

ghost use Rattle.std.specs.Prelude.{◌≡◌, ◌≤◌, ◌⊎◌, IfOk, IfSome, List, None, Ok, OnErr, false};
ghost use Rattle.std.specs.Prelude.{map, true, ℕ};
ghost use Rattle.batcher.specs.Verifiers.{IfGiven};
ghost use Rattle.batcher.specs.messages.Attestation.{Attestation as TheAttestation};
ghost use Rattle.batcher.specs.messages.Subject.{Subject as TheSubject};
ghost use Rattle.batcher_node.specs.Events.{constructed};
ghost use Rattle.batcher_node.specs.Nodes.{IsNext, slot_at};
ghost use Rattle.batcher_node.specs.Verdicts.{LooksAtKindThere, LooksAtThere, GivesByVerdicts};
ghost use Rattle.batcher_validator.specs.Histories.{answered};
ghost use Rattle.batcher_validator.specs.Running.{HasConstructed, RunMeets, SameRun, OnlyVoter};
ghost use Rattle.batcher_validator.specs.Running.{RunKeepsNode};
ghost use Rattle.batcher_voter.specs.Needing.{ConstructionNeeds};
ghost use Rattle.batcher_voter.specs.Voting.{VoterMeets, VoterStays, VoterKeepsNode};

use crate::inputs::certificate_of;
use crate::validator::Validator;
use batcher::messages::{Attestation, Digest, Identical, Kind, Subject};
use batcher::positions::View;
use batcher::round::RoundConfigs;
use batcher::scheme::Scheme;
use batcher::verifier::NextAttempt;
use batcher_bytes::{Codec, Log, OwnedCodec};
use batcher_node::{Construction, NodeConfigs, senders_of_votes_to_send_are_never_blocked};
use std::alloc::AllocError;

impl<S: Scheme<D>, D: Digest + Codec, L: Log> Validator<S, D, L>
where
    S::Signature: Codec + Identical,
    S::Certificate: OwnedCodec,
{
    /// The attestations that the next construction looks at, and what they attest. Where they are
    /// verified elsewhere, hand the verdicts to `conclude`. None where no kind is ready: then
    /// `try_construct` lets the view rest, and verifies nothing.
    pub fn next_attempt(&self) -> Option<NextAttempt<'_, S::Signature, D>>
        ensures looks_at { IfSome result (λ attempt. (view : ℕ)
            → IsNext self.now.voter.node.rounds view
            → LooksAtThere ⟦<S as RoundConfigs<D>>⟧.of (slot_at self.now.voter.node.rounds view)
            attempt.subject attempt.pending.now) }
        ensures none { result ≡ None → (view : ℕ) (subject : TheSubject D)
            (list : List (TheAttestation S.Signature)) → IsNext self.now.voter.node.rounds view
            → LooksAtThere ⟦<S as RoundConfigs<D>>⟧.of
            (slot_at self.now.voter.node.rounds view) subject list → ⊥ }
    {
        let node = self.voter.node();
        match node.next_view() {
            Some(view) => match node.round(view) {
                Some(round) => round.next_attempt(),
                None => None,
            },
            None => None,
        }
    }

    /// The same of an attempt at a kind of a view, whether or not it is the next one: its verdicts
    /// may be found meanwhile. None where the kind isn't ready.
    pub fn attempt_in(&self, view: View, kind: Kind) -> Option<NextAttempt<'_, S::Signature, D>>
        ensures looks_at { IfSome result (λ attempt.
            LooksAtKindThere ⟦<S as RoundConfigs<D>>⟧.of
            (slot_at self.now.voter.node.rounds view.0) kind attempt.subject
            attempt.pending.now) }
        ensures none { result ≡ None → (subject : TheSubject D)
            (list : List (TheAttestation S.Signature))
            → LooksAtKindThere ⟦<S as RoundConfigs<D>>⟧.of
            (slot_at self.now.voter.node.rounds view.0) kind subject list → ⊥ }
    {
        match self.voter.node().round(view) {
            Some(round) => round.attempt_of(kind),
            None => None,
        }
    }

    /// Makes the construction of the next view by verdicts on the attestations that `next_attempt`
    /// lends, and keeps its certificate. Where there is no memory to keep it for the disk too, that
    /// is done before the next vote is written, or the next construction made. Then poll.
    ///
    /// False where they aren't those of the next attempt any more, as where a vote came meanwhile.
    pub fn conclude(
        &mut self,
        subject: Subject<D>,
        list: &[Attestation<S::Signature>],
        verdicts: &[bool],
    ) -> Result<bool, AllocError>
        requires { verdicts.now
            ≡ map ((S.meaning self.old.voter.node.scheme).attests subject) list.now }
        ensures made { result ≡ Ok true → HasConstructed
            (⟦<S as NodeConfigs<D>>⟧.of self.old.voter.node) self.old self.new }
        ensures not_stale { (view : ℕ) → IsNext self.old.voter.node.rounds view
            → LooksAtThere ⟦<S as RoundConfigs<D>>⟧.of (slot_at self.old.voter.node.rounds view)
            subject list.now → IfOk result (λ made. made ≡ true) }
        ensures answered { result ≡ Ok false
            → RunMeets (⟦<S as NodeConfigs<D>>⟧.of self.old.voter.node) self.old self.new
            answered }
        ensures stale { result ≡ Ok false → self.new.voter.node ≡ self.old.voter.node }
        ensures needed { OnErr result ((self.old.shelf.room ≡ 0) ⊎ ConstructionNeeds
            (⟦<S as NodeConfigs<D>>⟧.of self.old.voter.node) self.old.voter) }
        ensures refused { OnErr result
            (RunKeepsNode (⟦<S as NodeConfigs<D>>⟧.of self.old.voter.node) self.old self.new) }
        ensures frame { SameRun L.is_copied_as self.old self.new }
    {
        match self.make_room() {
            Ok(()) => match self.conclude_with_room(subject, list, verdicts) {
                Ok(made) => Ok(made),
                Err(fault) => Err(fault),
            },
            Err(fault) => Err(fault),
        }
    }

    // The same where there is room for its certificate.
    fn conclude_with_room(
        &mut self,
        subject: Subject<D>,
        list: &[Attestation<S::Signature>],
        verdicts: &[bool],
    ) -> Result<bool, AllocError>
        requires room { 1 ≤ self.old.shelf.room }
        requires stirred { self.old.given.calm ≡ false }
        requires verdicts { verdicts.now
            ≡ map ((S.meaning self.old.voter.node.scheme).attests subject) list.now }
        ensures made { result ≡ Ok true → HasConstructed
            (⟦<S as NodeConfigs<D>>⟧.of self.old.voter.node) self.old self.new }
        ensures not_stale { (view : ℕ) → IsNext self.old.voter.node.rounds view
            → LooksAtThere ⟦<S as RoundConfigs<D>>⟧.of (slot_at self.old.voter.node.rounds view)
            subject list.now → IfOk result (λ made. made ≡ true) }
        ensures answered { result ≡ Ok false
            → RunMeets (⟦<S as NodeConfigs<D>>⟧.of self.old.voter.node) self.old self.new
            answered }
        ensures stale { result ≡ Ok false → self.new.voter.node ≡ self.old.voter.node }
        ensures needed { OnErr result (ConstructionNeeds
            (⟦<S as NodeConfigs<D>>⟧.of self.old.voter.node) self.old.voter) }
        ensures refused { OnErr result
            (RunKeepsNode (⟦<S as NodeConfigs<D>>⟧.of self.old.voter.node) self.old self.new) }
        ensures frame { SameRun L.is_copied_as self.old self.new }
    {
        senders_of_votes_to_send_are_never_blocked::<S, D>();
        self.begins();
        match self.call_conclude(subject, list, verdicts) {
            Ok(Some(made)) => match certificate_of(made) {
                Some(certificate) => {
                    self.shelve(certificate);
                    self.note_answer();
                    Ok(true)
                }
                None => {
                    self.note_answer();
                    Ok(true)
                }
            },
            Ok(None) => {
                self.note_answer();
                Ok(false)
            }
            Err(fault) => Err(fault),
        }
    }

    // The voter makes the construction.
    fn call_conclude(
        &mut self,
        subject: Subject<D>,
        list: &[Attestation<S::Signature>],
        verdicts: &[bool],
    ) -> Result<Option<Construction<S::Certificate, D>>, AllocError>
        requires { verdicts.now
            ≡ map ((S.meaning self.old.voter.node.scheme).attests subject) list.now }
        ensures meets { IfGiven result (λ one. VoterMeets
            (⟦<S as NodeConfigs<D>>⟧.of self.old.voter.node) self.old.voter self.new.voter
            (constructed one.view.0 one.batch)) }
        ensures given { GivesByVerdicts (S.meaning self.old.voter.node.scheme)
            ⟦<S as RoundConfigs<D>>⟧.of self.old.voter.node.rounds subject list.now result }
        ensures stale { result ≡ Ok None → self.new.voter.node ≡ self.old.voter.node }
        ensures stale_stays { result ≡ Ok None → VoterStays
            (⟦<S as NodeConfigs<D>>⟧.of self.old.voter.node) self.old.voter self.new.voter }
        ensures needed { OnErr result (ConstructionNeeds
            (⟦<S as NodeConfigs<D>>⟧.of self.old.voter.node) self.old.voter) }
        ensures refused { OnErr result (VoterKeepsNode
            (⟦<S as NodeConfigs<D>>⟧.of self.old.voter.node) self.old.voter self.new.voter) }
        ensures frame { OnlyVoter L.is_copied_as self.old self.new }
    {
        let waiting = self.shelf.waiting(self.voter.waits());
        self.voter.conclude(subject, list, verdicts, waiting)
    }
}
