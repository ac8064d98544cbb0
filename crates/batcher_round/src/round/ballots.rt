//! The votes of a round and their owner. A change makes all the room that it needs, and then
//! changes tracker and verifier with no way back.

ghost use Rattle.std.specs.Prelude.{◌≡◌, ◌≤◌, ◌<◌, ◌^◌, ◌&&◌, ◌||◌, not, None, true, false, length};
ghost use Rattle.std.specs.Prelude.{is_some, [], map, Some, IfOk, IfErr, IfSome, OnOk, IsOk, Ok};
ghost use Rattle.batcher_types.specs.declared.messages.Kind.{Kind as TheKind};
ghost use Rattle.batcher_types.specs.declared.messages.Kind.TheVariants.{Nullification as NullifyKind};
ghost use Rattle.batcher_types.specs.declared.positions.Round.{Round as TheNumber};
ghost use Rattle.batcher_votes.specs.declared.votes.Mode.{Mode as TheMode};
ghost use Rattle.batcher_types.specs.Items.{place_of};
ghost use Rattle.batcher_types.specs.Lists.{is_some_and};
ghost use Rattle.batcher_types.specs.Meaning.{Meaning};
ghost use Rattle.batcher_types.specs.Quorum.{quorum_of};
ghost use Rattle.batcher_types.specs.Votes.{is_kind, kind_of, signer_of, attestation_of};
ghost use Rattle.batcher_types.specs.Votes.{subject_of, round_in};
ghost use Rattle.batcher_votes.specs.ProposalStates.{same_selected};
ghost use Rattle.batcher_votes.specs.RoundState.{RoundState, of_kind, SameVerifier, SameTracker};
ghost use Rattle.batcher_votes.specs.TrackerSteps.{shown, is_known, is_seen, HasRoomToRecord};
ghost use Rattle.batcher_votes.specs.TrackerSteps.{observed_opposite, kept_vote};
ghost use Rattle.batcher_votes.specs.VerifierSteps.{certificate_for, selected_in, MayFix};
ghost use Rattle.batcher_votes.specs.Soundness.{IsSound, BuffersOnlyKept, HasRoomFor};
ghost use Rattle.batcher_votes.specs.Soundness.{WhereItReplaces};
ghost use Rattle.batcher_votes.specs.Verifiers.{IfGiven, BatchCertifies};
ghost use Rattle.rand_core.specs.Stream.{Stream};
ghost use Rattle.batcher_round.specs.Verdicts.{judged_config, judged_config_with, LooksAtKind};
ghost use Rattle.batcher_round.specs.Verdicts.{MayBeQuorumOf};
ghost use Rattle.batcher_histories.specs.Config.{config};
ghost use Rattle.batcher_histories.specs.Steps.{nothing_held, missing_in, has_block_held};
ghost use Rattle.batcher_histories.specs.Steps.{rejection_by, own_result, admission_by};
ghost use Rattle.batcher_histories.specs.Steps.{is_ready_in, restored_with, fault_or_memory};
ghost use Rattle.batcher_histories.specs.Steps.{leader_set_answer, is_added, report_by, AfterOwn};
ghost use Rattle.batcher_histories.specs.Steps.{AfterLeader, AfterCertificate, TriesHeld};
ghost use Rattle.batcher_round.specs.Observations.{observed_like};
ghost use Rattle.batcher_round.specs.BallotsView.{round_with, SameRoundState, Admits, AllOrNothing};
ghost use Rattle.batcher_round.specs.BallotsView.{GrowsVerifier, GrowsTracker, IsVoteAt};

use crate::round::answers::{
    compare_with_kept, conflict_with_facts, conflict_with_opposite, fixed_by, is_added, is_kept,
    is_selected_anew, opposite_fault, unopposed_result,
};
use crate::round::{Admission, OwnFault, RoundConfigs};
use batcher_types::messages::{
    Attestation, Certificate, Digest, Identical, Kind, Place, Proposal, Subject, Vote,
};
use batcher_types::positions::{self, Participant, quorum};
use batcher_types::scheme::Scheme;
use batcher_votes::verifier::{Batch, LeaderFault, ProposalState, Verifier};
use batcher_votes::votes::{Mode, ObservedVote, Outcome, VoteTracker};
use rand_core::CryptoRng;
use std::alloc::{AllocError, Global};
use std::marker::Model;
use std::rc::Rc;

/// Where a signer's votes are recorded. It is looked up once a call.
#[derive(Clone, Copy)]
pub(super) struct Slot {
    place: Place,
}

/// The votes of a round: what is known of each signer, and what waits for a certificate.
#[derive(Drop)]
pub(super) struct Ballots<S: Scheme<D>, D: Digest> {
    /// The first vote of each kind and signer, or facts of it. Some votes wait no longer, and are
    /// here alone: those for another proposal, which a replacement restores.
    tracker: VoteTracker<S::Signature, D>,
    /// Votes that wait for a certificate, for one proposal once one is selected.
    verifier: Verifier<S, D>,
}

impl<S: Scheme<D>, D: Digest> Model for Ballots<S, D> {
    ghost use Rattle.batcher_round.specs.BallotsView.{BallotsView};
    ghost use Rattle.batcher_histories.specs.Steps.{IsRight};

    ghost Value = { BallotsView S S.Signature D };

    ghost view = { λ b. record { tracker = b.tracker; verifier = b.verifier } };

    ghost invariant = { λ b.
        IsRight (S.meaning b.verifier.scheme) b.tracker b.verifier.holds b.verifier.quorum };
}

impl<S: Scheme<D>, D: Digest> Ballots<S, D> {
    /// No votes, of a round in a mode. It takes no memory.
    pub(super) fn new(alloc: Global, round: positions::Round, scheme: Rc<S>, mode: Mode) -> Self
        requires { 1 ≤ length (S.meaning scheme.value).participants }
        ensures { round_with result ≡ record {
          scheme = scheme.value;
          number = round;
          mode = mode;
          holds = nothing_held mode;
        } }
    {
        let participants = scheme.participants().len();
        let tracker = VoteTracker::new(alloc, participants, mode);
        let verifier = Verifier::new(alloc, round, scheme, quorum(participants as u32));
        Ballots { tracker, verifier }
    }

    /// What waits for a certificate.
    pub(super) fn verifier(&self) -> &Verifier<S, D>
        ensures verifier { result.now ≡ self.now.verifier }
        ensures quorum { result.now.quorum
            ≡ quorum_of (length (S.meaning self.now.verifier.scheme).participants) }
    {
        &self.verifier
    }

    /// How the votes are kept.
    pub(super) fn mode(&self) -> Mode
        ensures { result ≡ self.now.tracker.mode }
    {
        self.tracker.mode()
    }

    /// Whether a nullify of the signer is kept in full.
    pub(super) fn has_nullify(&self, signer: Participant) -> bool
        ensures { result ≡ is_some (kept_vote self.now.tracker.holds NullifyKind signer.0) }
    {
        self.tracker.has_nullify(signer)
    }

    /// Whether its notarize or its finalize shows that the participant has the proposal's block.
    pub(super) fn has_block(&self, proposal: &Proposal<D>, participant: Participant) -> bool
        ensures { result ≡ has_block_held D.eq (round_with self.now).holds participant.0
            proposal.now }
    {
        let place = self.tracker.place(participant);
        self.tracker.has_block_at(place, proposal)
    }

    /// The participants that aren't known to have the proposal's block, in ascending order.
    pub(super) fn missing(&self, proposal: &Proposal<D>) -> Result<Vec<Participant>, AllocError>
        ensures { IfOk result (λ list. list.items
            ≡ missing_in D.eq (round_with self.now).holds proposal.now
            (length (S.meaning self.now.verifier.scheme).participants)) }
    {
        let participants = self.verifier.participants().len();
        missing_among(self.verifier.alloc(), &self.tracker, participants, proposal)
    }

    /// Where the signer's votes are recorded.
    pub(super) fn slot(&self, signer: Participant) -> Slot
        ensures { result.place ≡ place_of self.now.tracker.signers signer.0 }
    {
        Slot {
            place: self.tracker.place(signer),
        }
    }

    /// Whether nothing that was seen of its signer excludes the vote: none of its kind and, for a
    /// nullify or a finalize, none of the other of the two. Nearly all votes pass, so it copies
    /// none.
    pub(super) fn is_first(&self, slot: Slot, vote: &Vote<S::Signature, D>) -> bool
        requires { slot.place ≡ place_of self.now.tracker.signers (signer_of vote.now) }
        ensures { result ≡ (not (is_seen (observed_opposite self.now.tracker.holds vote.now))
            && not (is_seen (observed_like self.now.tracker.holds vote.now))) }
    {
        match vote {
            Vote::Notarize(_) => !self.tracker.has_seen_at(slot.place, Kind::Notarization),
            Vote::Nullify(_) => {
                !self.tracker.has_seen_at(slot.place, Kind::Finalization)
                    && !self.tracker.has_seen_at(slot.place, Kind::Nullification)
            }
            Vote::Finalize(_) => {
                !self.tracker.has_seen_at(slot.place, Kind::Nullification)
                    && !self.tracker.has_seen_at(slot.place, Kind::Finalization)
            }
        }
    }

    /// What is answered to a vote that is not to be recorded. Only a vote that isn't the first
    /// comes here, so its code is kept out of the way of the others.
    #[cold]
    #[inline(never)]
    pub(super) fn rejection(
        &self,
        slot: Slot,
        vote: &Vote<S::Signature, D>,
    ) -> Option<Admission<S::Signature, D>>
        requires { slot.place ≡ place_of self.now.tracker.signers (signer_of vote.now) }
        ensures { (m : Meaning D S.PublicKey S.Signature S.Certificate) (number : TheNumber)
            (mode : TheMode) → result ≡ rejection_by
            (config m S.PublicKey.cmp S.Signature.eq D.eq number mode)
            (observed_opposite self.now.tracker.holds vote.now)
            (observed_like self.now.tracker.holds vote.now) vote.now }
    {
        match self.saw_opposite(slot, vote) {
            Some(ObservedVote::Retained(earlier)) => Some(conflict_with_opposite(earlier, *vote)),
            Some(ObservedVote::Compacted) => Some(conflict_with_facts(vote)),
            None => match self.tracker.saw_at(slot.place, vote.kind()) {
                Some(ObservedVote::Retained(kept)) => Some(compare_with_kept(kept, *vote)),
                Some(ObservedVote::Compacted) => None,
                None => None,
            },
        }
    }

    // What was seen of the other of nullify and finalize.
    fn saw_opposite(
        &self,
        slot: Slot,
        vote: &Vote<S::Signature, D>,
    ) -> Option<ObservedVote<Vote<S::Signature, D>>>
        requires { slot.place ≡ place_of self.now.tracker.signers (signer_of vote.now) }
        ensures { result ≡ shown (observed_opposite self.now.tracker.holds vote.now) }
    {
        match vote {
            Vote::Notarize(_) => None,
            Vote::Nullify(_) => self.tracker.saw_at(slot.place, Kind::Finalization),
            Vote::Finalize(_) => self.tracker.saw_at(slot.place, Kind::Nullification),
        }
    }

    /// Records a vote to which there is no objection. Where votes of its kind are kept, it waits
    /// for a certificate too.
    pub(super) fn admit(
        &mut self,
        slot: Slot,
        vote: &Vote<S::Signature, D>,
    ) -> Result<Outcome, AllocError>
        requires vote { IsVoteAt (S.meaning self.old.verifier.scheme) self.old slot.place
            vote.now }
        requires unopposed { rejection_by (⟦<S as RoundConfigs<D>>⟧.of (round_with self.old))
            (observed_opposite self.old.tracker.holds vote.now)
            (observed_like self.old.tracker.holds vote.now) vote.now ≡ None }
        ensures admits { IfOk result (Admits (⟦<S as RoundConfigs<D>>⟧.of (round_with self.old))
            self.old
            self.new vote.now) }
        ensures spared { is_known self.old.tracker.holds (signer_of vote.now) ≡ true
            → of_kind self.old.tracker.holds.compacted (kind_of vote.now) ≡ true
            → IsOk result }
        ensures no_memory { (admission_by (⟦<S as RoundConfigs<D>>⟧.of (round_with self.old))
            (selected_in self.old.verifier.holds)
            (observed_like self.old.tracker.holds vote.now) vote.now).added ≡ false
            → IsOk result }
        ensures all { AllOrNothing result self.old self.new }
    {
        let kind = vote.kind();
        // Also a vote for another proposal than the selected one, which isn't buffered, asks for
        // room. `needs_memory` says so too.
        let is_open = !self.tracker.is_compacted(kind) && !self.verifier.has_certificate(kind);
        self.verifier.make_room(kind, false, usize::from(is_open))?;
        let outcome = self
            .tracker
            .record_at(slot.place, vote, self.verifier.proposal())?;
        if is_kept(outcome) {
            self.verifier.add_reserved(vote, false);
        }
        Ok(outcome)
    }

    /// Takes in a vote of the node's own, which attests, and answers what came of it.
    pub(super) fn accept(&mut self, vote: &Vote<S::Signature, D>) -> Result<Outcome, OwnFault>
        requires belongs { round_in (subject_of vote.now) ≡ self.old.verifier.number }
        requires attests { (S.meaning self.old.verifier.scheme).attests (subject_of vote.now)
            (attestation_of vote.now) ≡ true }
        ensures step { IfOk result (λ outcome. AfterOwn
            (⟦<S as RoundConfigs<D>>⟧.of (round_with self.old)) (round_with self.old).holds vote.now
            outcome (report_by outcome vote.now) (round_with self.new).holds) }
        ensures no_memory { (outcome : Outcome)
            → own_result (⟦<S as RoundConfigs<D>>⟧.of (round_with self.old))
            (round_with self.old).holds
            vote.now ≡ Ok outcome → is_added outcome ≡ false → IsOk result }
        ensures fault { IfErr result (λ fault. fault ≡ fault_or_memory (own_result
            (⟦<S as RoundConfigs<D>>⟧.of (round_with self.old))
            (round_with self.old).holds vote.now)) }
        ensures all { AllOrNothing result self.old self.new }
    {
        let slot = self.slot(vote.signer());
        let outcome = self.own_result(slot, vote)?;
        let proposal = fixed_by(vote);
        reserve_to_fix(&mut self.verifier, &self.tracker, proposal, None)?;
        reserve_to_record(&mut self.tracker, slot, vote, outcome)?;
        self.verifier
            .make_room(vote.kind(), true, usize::from(is_kept(outcome)))?;
        fix_proposal(&mut self.verifier, &self.tracker, proposal);
        let selected = self.verifier.proposal();
        self.tracker.record_at(slot.place, vote, selected).unwrap();
        if is_kept(outcome) {
            self.verifier.add_reserved(vote, true);
        }
        Ok(outcome)
    }

    // What comes of an own vote, or why it is refused.
    fn own_result<'a>(
        &'a self,
        slot: Slot,
        vote: &'a Vote<S::Signature, D>,
    ) -> Result<Outcome, OwnFault>
        requires { slot.place ≡ place_of self.now.tracker.signers (signer_of vote.now) }
        ensures { result ≡ own_result (⟦<S as RoundConfigs<D>>⟧.of (round_with self.now))
            (round_with self.now).holds vote.now }
    {
        if self.saw_opposite(slot, vote).is_some() {
            return Err(opposite_fault(vote.kind()));
        }
        let selected = self.verifier.proposal().copied();
        unopposed_result(
            vote.kind(),
            self.tracker.outcome_at(slot.place, vote, selected),
        )
    }

    /// Sets the leader. If its notarize is kept, that selects its proposal where none is selected.
    /// It takes no memory.
    pub(super) fn set_leader(&mut self, leader: Participant) -> Result<(), LeaderFault>
        ensures answer { result ≡ leader_set_answer self.old.verifier.holds.leader leader }
        ensures step { OnOk result (AfterLeader (⟦<S as RoundConfigs<D>>⟧.of (round_with self.old))
            (round_with self.old).holds leader (round_with self.new).holds) }
        ensures all { AllOrNothing result self.old self.new }
    {
        // Its notarize may have come before the leader was known. The tracker finds it by its
        // signer, and knows it also where no buffer has it, as once notarizes are certified.
        let notarize = self.tracker.notarize(leader);
        self.verifier.set_leader(leader, notarize.as_ref())
    }

    /// Completes a kind by a certificate from outside, which fixes its proposal, and releases the
    /// votes of the kind.
    pub(super) fn complete(
        &mut self,
        certificate: &Certificate<S::Certificate, D>,
    ) -> Result<bool, AllocError>
        ensures step { IfOk result (λ answer. AfterCertificate
            (⟦<S as RoundConfigs<D>>⟧.of (round_with self.old)) (round_with self.old).holds
            certificate.now answer (round_with self.new).holds) }
        ensures no_memory { ((kind : TheKind)
            → restored_with (⟦<S as RoundConfigs<D>>⟧.of (round_with self.old))
            (round_with self.old).holds certificate.now kind ≡ []) → IsOk result }
        ensures all { AllOrNothing result self.old self.new }
    {
        let kind = certificate.kind();
        let proposal = certificate.proposal();
        reserve_to_fix(&mut self.verifier, &self.tracker, proposal, Some(kind))?;
        self.verifier.complete_kind(kind);
        let changed = fix_proposal(&mut self.verifier, &self.tracker, proposal);
        self.tracker
            .release(kind, self.verifier.proposal().copied());
        Ok(is_selected_anew(kind, changed))
    }

    /// Tries to make a certificate of the kind, where it is ready. One that is made completes the
    /// kind as one from outside does.
    pub(super) fn construct<R: CryptoRng>(
        &mut self,
        kind: Kind,
        rng: &mut R,
    ) -> Result<Option<Batch<Certificate<S::Certificate, D>>>, AllocError>
        ensures ready { IfOk result (λ given. is_some given
            ≡ is_ready_in (⟦<S as RoundConfigs<D>>⟧.of (round_with self.old))
            (round_with self.old).holds
            kind) }
        ensures tries { IfGiven result (λ batch. TriesHeld
            (⟦<S as RoundConfigs<D>>⟧.of (round_with self.old)) (round_with self.old).holds kind
            (R.stream rng.old) batch (round_with self.new).holds (R.stream rng.new)) }
        ensures sound { IsSound (S.meaning self.old.verifier.scheme) D.eq self.old.verifier.number
            (quorum_of (length (S.meaning self.old.verifier.scheme).participants))
            self.old.verifier.holds }
        ensures none { is_ready_in (⟦<S as RoundConfigs<D>>⟧.of (round_with self.old))
            (round_with self.old).holds kind ≡ false → (IsOk result)
            × (SameRoundState self.old self.new) × (R.stream rng.new ≡ R.stream rng.old) }
        ensures certifies { IfGiven result (BatchCertifies (S.meaning self.old.verifier.scheme)) }
        ensures all { AllOrNothing result self.old self.new }
    {
        let Some(batch) = self.verifier.try_construct(kind, rng)? else {
            return Ok(None);
        };
        if let Some(certificate) = &batch.certificate {
            // No other proposal is selected, since votes for others don't wait. So nothing is
            // restored, and no room is needed.
            let proposal = certificate.proposal();
            fix_proposal(&mut self.verifier, &self.tracker, proposal);
            self.tracker.release(kind, proposal);
        }
        Ok(Some(batch))
    }
}

impl<S: Scheme<D>, D: Digest> Ballots<S, D>
where
    S::Signature: Identical,
{
    /// Tries to make a certificate of the kind by verdicts from elsewhere, where an attempt at it
    /// is about the subject and looks at just these pending attestations, and else changes nothing.
    pub(super) fn conclude(
        &mut self,
        kind: Kind,
        subject: Subject<D>,
        list: &[Attestation<S::Signature>],
        verdicts: &[bool],
    ) -> Result<Option<Batch<Certificate<S::Certificate, D>>>, AllocError>
        requires { verdicts.now
            ≡ map ((S.meaning self.old.verifier.scheme).attests subject) list.now }
        ensures looks_at { IfGiven result (λ _.
            LooksAtKind (⟦<S as RoundConfigs<D>>⟧.of (round_with self.old))
            (round_with self.old).holds kind subject list.now) }
        ensures not_stale { LooksAtKind (⟦<S as RoundConfigs<D>>⟧.of (round_with self.old))
            (round_with self.old).holds kind subject list.now
            → IfOk result (λ given. is_some given ≡ true) }
        ensures stale { result ≡ Ok None → SameRoundState self.old self.new }
        ensures tries { IfGiven result (λ batch. (stream : Stream) → TriesHeld
            (judged_config (⟦<S as RoundConfigs<D>>⟧.of (round_with self.old)))
            (round_with self.old).holds
            kind stream batch (round_with self.new).holds stream) }
        ensures sound { IsSound (S.meaning self.old.verifier.scheme) D.eq self.old.verifier.number
            (quorum_of (length (S.meaning self.old.verifier.scheme).participants))
            self.old.verifier.holds }
        ensures certifies { IfGiven result (BatchCertifies (S.meaning self.old.verifier.scheme)) }
        ensures all { AllOrNothing result self.old self.new }
    {
        let Some(batch) = self.verifier.conclude(kind, subject, list, verdicts)? else {
            return Ok(None);
        };
        if let Some(certificate) = &batch.certificate {
            // As of one that is constructed, nothing is restored, and no room is needed.
            let proposal = certificate.proposal();
            fix_proposal(&mut self.verifier, &self.tracker, proposal);
            self.tracker.release(kind, proposal);
        }
        Ok(Some(batch))
    }

    /// The same by a certificate of all that the attempt looks at, which has to be enough for a
    /// quorum. It takes no memory.
    pub(super) fn conclude_with(
        &mut self,
        kind: Kind,
        subject: Subject<D>,
        list: &[Attestation<S::Signature>],
        certificate: S::Certificate,
    ) -> Option<Batch<Certificate<S::Certificate, D>>>
        requires { (S.meaning self.old.verifier.scheme).certifies subject certificate ≡ true }
        ensures looks_at { is_some result ≡ true
            → LooksAtKind (⟦<S as RoundConfigs<D>>⟧.of (round_with self.old))
            (round_with self.old).holds kind subject list.now }
        ensures not_stale { LooksAtKind (⟦<S as RoundConfigs<D>>⟧.of (round_with self.old))
            (round_with self.old).holds kind subject list.now
            → MayBeQuorumOf (⟦<S as RoundConfigs<D>>⟧.of (round_with self.old))
            (round_with self.old).holds kind → is_some result ≡ true }
        ensures stale { result ≡ None → SameRoundState self.old self.new }
        ensures tries { IfSome result (λ batch. (stream : Stream) → TriesHeld
            (judged_config_with (⟦<S as RoundConfigs<D>>⟧.of (round_with self.old)) certificate)
            (round_with self.old).holds
            kind stream batch (round_with self.new).holds stream) }
        ensures gives { IfSome result (λ batch. batch.certificate
            ≡ Some (certificate_for subject certificate)) }
        ensures sound { IsSound (S.meaning self.old.verifier.scheme) D.eq self.old.verifier.number
            (quorum_of (length (S.meaning self.old.verifier.scheme).participants))
            self.old.verifier.holds }
        ensures certifies { IfSome result (BatchCertifies (S.meaning self.old.verifier.scheme)) }
        ensures same { (SameVerifier self.old.verifier self.new.verifier)
            × (SameTracker self.old.tracker self.new.tracker) }
    {
        let made = self
            .verifier
            .conclude_with(kind, subject, list, certificate);
        let Some(batch) = made else {
            return None;
        };
        if let Some(certificate) = &batch.certificate {
            // As of one that is constructed, nothing is restored, and no room is needed.
            let proposal = certificate.proposal();
            fix_proposal(&mut self.verifier, &self.tracker, proposal);
            self.tracker.release(kind, proposal);
        }
        Some(batch)
    }
}

// Makes room for so many restored votes of a kind. Of one that is completed, or certified before,
// none is restored.
fn reserve_for<S: Scheme<D>, D: Digest>(
    verifier: &mut Verifier<S, D>,
    kind: Kind,
    completed: Option<Kind>,
    restored: usize,
) -> Result<(), AllocError>
    ensures room { OnOk result (is_some_and completed (is_kind kind) ≡ false
        → of_kind verifier.old.holds.certified kind ≡ false
        → restored ≤ of_kind verifier.new.pending_room kind) }
    ensures no_memory { (is_some_and completed (is_kind kind) ≡ false
        → of_kind verifier.old.holds.certified kind ≡ false
        → restored ≤ of_kind verifier.old.pending_room kind) → IsOk result }
    ensures grows { GrowsVerifier verifier.old verifier.new }
{
    if completed == Some(kind) || verifier.has_certificate(kind) {
        return Ok(());
    }
    verifier.make_room(kind, false, restored)
}

// Makes room for all kept votes that are restored where the proposal is fixed.
fn reserve_to_fix<S: Scheme<D>, D: Digest>(
    verifier: &mut Verifier<S, D>,
    tracker: &VoteTracker<S::Signature, D>,
    proposal: Option<Proposal<D>>,
    completed: Option<Kind>,
) -> Result<(), AllocError>
    ensures room { OnOk result (WhereItReplaces D.eq verifier.old.holds.selection proposal
        (λ fixed kind. is_some_and completed (is_kind kind) ≡ false
        → HasRoomFor D.eq verifier.old.holds.certified tracker.now.holds.kept fixed
        verifier.new.pending_room kind)) }
    ensures no_memory { (WhereItReplaces D.eq verifier.old.holds.selection proposal (λ fixed kind.
        is_some_and completed (is_kind kind) ≡ false → of_kind tracker.now.holds.compacted kind
        ≡ false → HasRoomFor D.eq verifier.old.holds.certified tracker.now.holds.kept fixed
        verifier.old.pending_room kind)) → IsOk result }
    ensures grows { GrowsVerifier verifier.old verifier.new }
{
    let Some(proposal) = proposal else {
        return Ok(());
    };
    if !verifier.replaces(&proposal) {
        return Ok(());
    }
    let notarizes = tracker.count_for(Kind::Notarization, &proposal);
    reserve_for(verifier, Kind::Notarization, completed, notarizes)?;
    let finalizes = tracker.count_for(Kind::Finalization, &proposal);
    reserve_for(verifier, Kind::Finalization, completed, finalizes)
}

// Makes room to record a vote, where this outcome adds it.
fn reserve_to_record<G: Copy, D: Digest>(
    tracker: &mut VoteTracker<G, D>,
    slot: Slot,
    vote: &Vote<G, D>,
    outcome: Outcome,
) -> Result<(), AllocError>
    ensures room { OnOk result (is_added outcome ≡ true
        → HasRoomToRecord tracker.new slot.place (kind_of vote.now)) }
    ensures no_memory { is_added outcome ≡ false → IsOk result }
    ensures grows { GrowsTracker tracker.old tracker.new }
{
    if is_added(outcome) {
        return tracker.make_room(slot.place, vote.kind());
    }
    Ok(())
}

// Fixes the proposal, where there is one and none is fixed, and answers whether another is
// selected than before. Where it takes another's place, the kept votes for it are restored as
// pending. `complete` and `construct` call it after a kind is certified and before its votes are
// released. There the invariant of `Ballots` doesn't hold, so it is no method.
fn fix_proposal<S: Scheme<D>, D: Digest>(
    verifier: &mut Verifier<S, D>,
    tracker: &VoteTracker<S::Signature, D>,
    proposal: Option<Proposal<D>>,
) -> bool
    requires { WhereItReplaces D.eq verifier.old.holds.selection proposal (λ fixed kind.
        HasRoomFor D.eq verifier.old.holds.certified tracker.now.holds.kept fixed
        verifier.old.pending_room kind) }
    ensures fixes { MayFix D.eq verifier.old.holds tracker.now.holds.kept proposal
        verifier.new.holds }
    ensures changed { result ≡ not (same_selected D.eq (selected_in verifier.old.holds)
        (selected_in verifier.new.holds)) }
    ensures within { BuffersOnlyKept tracker.now.holds verifier.old.holds
        → BuffersOnlyKept tracker.now.holds verifier.new.holds }
    ensures room { (kind : TheKind) → of_kind verifier.old.verified_room kind
        ≤ of_kind verifier.new.verified_room kind }
    ensures same { SameVerifier verifier.old verifier.new }
{
    let Some(proposal) = proposal else {
        return false;
    };
    let update = verifier.set_proposal(ProposalState::Certificate(proposal));
    if update.replaced {
        verifier.restore(Kind::Notarization, tracker.iter_kept(Kind::Notarization));
        verifier.restore(Kind::Finalization, tracker.iter_kept(Kind::Finalization));
    }
    update.changed
}

// The participants, of so many, that aren't known to have the proposal's block. They and the
// entries both ascend, so each entry is looked at once, and none is searched for.
fn missing_among<G: Copy, D: Digest>(
    alloc: Global,
    tracker: &VoteTracker<G, D>,
    participants: usize,
    proposal: &Proposal<D>,
) -> Result<Vec<Participant>, AllocError>
    requires { participants < 2 ^ 32 }
    ensures { IfOk result (λ list. (held : RoundState G D) → held.tracked ≡ tracker.now.holds
        → list.items ≡ missing_in D.eq held proposal.now participants) }
{
    let mut missing = Vec::with_capacity(alloc, participants)?;
    // How many entries are of participants before this one.
    let mut lower = 0;
    for index in 0..participants {
        let participant = Participant::from_usize(index);
        let place = tracker.place_after(lower, participant);
        if place.is_ok() {
            lower += 1;
        }
        if !tracker.has_block_at(place, proposal) {
            missing.push_reserved(participant);
        }
    }
    Ok(missing)
}
