//! One round: what it answers to votes, and the certificates that it makes of them.

ghost use Rattle.std.specs.Prelude.{◌≡◌, ◌≤◌, ◌<◌, ◌||◌, ◌↔◌, ◌++◌, not, None, Some, true, false};
ghost use Rattle.std.specs.Prelude.{[], length, map, is_some, if◌then◌else◌, Ok, Err, IfOk, IfErr};
ghost use Rattle.std.specs.Prelude.{IfSome, OnOk, OnErr, IsTrue, IsOk};
ghost use Rattle.std.specs.Option.{option_map};
ghost use Rattle.batcher_round.specs.RoundWords.{NullifyKind, TheKind, IfGiven, attestation_of};
ghost use Rattle.batcher_round.specs.RoundWords.{subject_of, round_in, subject_certified, of_kind};
ghost use Rattle.batcher_round.specs.RoundWords.{kept_vote, selected_in, nothing_held, missing_in};
ghost use Rattle.batcher_round.specs.RoundWords.{leader_set_answer, forward_answer, admission};
ghost use Rattle.batcher_round.specs.RoundWords.{SameRound, kind_tried, restored_with, own_result};
ghost use Rattle.batcher_round.specs.RoundWords.{fault_or_memory, is_added, has_block_held};
ghost use Rattle.batcher_round.specs.RoundWords.{has_block, is_certified, leader_of};
ghost use Rattle.batcher_round.specs.RoundWords.{selected_proposal, keeps_nullify, own_answer};
ghost use Rattle.batcher_round.specs.RoundWords.{needs_memory, BatchCertifies, AfterLeader};
ghost use Rattle.batcher_round.specs.RoundWords.{AfterNetwork, AfterConstruct, AfterOwn};
ghost use Rattle.batcher_round.specs.RoundWords.{AfterCertificate, MayCall, ForEachHistory};
ghost use Rattle.batcher_round.specs.RoundWords.{SimulatesAlways, MeetsAlways, SimulatesOnOk};
ghost use Rattle.batcher_round.specs.RoundWords.{IsRefusedForNeed, Represents, NetworkCall};
ghost use Rattle.batcher_round.specs.RoundWords.{OwnCall, ConstructCall, LeaderCall, ForwardCall};
ghost use Rattle.batcher_round.specs.RoundWords.{MissingCall, CertificateCall, NetworkAnswer};
ghost use Rattle.batcher_round.specs.RoundWords.{OwnAnswer, ConstructAnswer, LeaderAnswer};
ghost use Rattle.batcher_round.specs.RoundWords.{ForwardAnswer, MissingAnswer, CertificateAnswer};
ghost use Rattle.batcher_round.specs.RoundWords.{OutOfMemoryFault, subject_next, pending_next};
ghost use Rattle.batcher_round.specs.RoundWords.{verified_next, quorum_of, fresh_votes};
ghost use Rattle.batcher_round.specs.RoundWords.{proven_votes};
ghost use Rattle.batcher_types.specs.Votes.{kind_of, signer_of};
ghost use Rattle.batcher_votes.specs.TrackerSteps.{is_known};
ghost use Rattle.rand_core.specs.Stream.{Stream};
ghost use Rattle.batcher_histories.specs.Steps.{is_ready_in};
ghost use Rattle.batcher_round.specs.Verdicts.{judged_config, judged_config_with, BatchIsAssembled};
ghost use Rattle.batcher_round.specs.Verdicts.{LooksAtKind, LooksAtNext, MayBeQuorumNext};
ghost use Rattle.batcher_votes.specs.VerifierSteps.{certificate_for};
ghost use Rattle.batcher_types.specs.Attestations.{index_of_signer};
ghost use Rattle.batcher_types.specs.Lists.{EachOnce};

mod answers;
mod ballots;

use answers::{added, admission_of, blocked, mismatch_reason, report_by};
use ballots::Ballots;
pub use batcher_histories::answers::{Admission, BlockReason, OwnFault};
use batcher_types::messages::{
    Activity, Attestation, Certificate, Digest, Identical, Kind, Proposal, Subject, Vote,
};
use batcher_types::positions::{self, Participant, Participants};
use batcher_types::scheme::Scheme;
use batcher_votes::verifier::{Batch, LeaderFault, NextAttempt};
use batcher_votes::votes::{Mode, Outcome};
use rand_core::CryptoRng;
use std::alloc::{AllocError, Global};
use std::fmt;
use std::marker::Model;
use std::rc::Rc;

/// The configurations of rounds over a scheme. Every scheme has them, and they add nothing:
/// contracts name by them the scheme, the number and the mode of a round.
pub trait RoundConfigs<D: Digest>: Scheme<D> {
    ghost use Rattle.batcher_histories.specs.Config.{Config};
    ghost use Rattle.batcher_votes.specs.RoundState.{RoundView};

    ghost of: { RoundView Self Self.Signature D
        → Config D Self.PublicKey Self.Signature Self.Certificate };
}

impl<D: Digest, S: Scheme<D>> RoundConfigs<D> for S {
    ghost use Rattle.batcher_histories.specs.RoundContracts.{round_config};

    ghost of = { round_config S.meaning S.PublicKey.cmp S.Signature.eq D.eq };
}

/// How far a kind is from its certificate.
#[derive(Clone, Copy, Debug, PartialEq, Eq)]
pub struct Progress {
    /// How many votes wait that no construction has verified. Until a proposal is selected they may
    /// be for several.
    pub pending: usize,
    /// How many votes that attest wait.
    pub verified: usize,
    /// How many votes make a certificate.
    pub quorum: usize,
}

/// The votes of one round, and the certificates that they have made.
#[derive(Drop)]
pub struct Round<S: Scheme<D>, D: Digest> {
    ballots: Ballots<S, D>,
    /// Whether the selected proposal was handed on.
    forwarded: bool,
}

impl<S: Scheme<D>, D: Digest> Model for Round<S, D> {
    ghost use Rattle.std.specs.Prelude.{◌≤◌, length};
    ghost use Rattle.batcher_votes.specs.RoundState.{RoundView};

    ghost Value = { RoundView S S.Signature D };

    ghost view = { λ r. record {
      scheme = r.ballots.verifier.scheme;
      number = r.ballots.verifier.number;
      mode = r.ballots.tracker.mode;
      holds = record {
        tracked = r.ballots.tracker.holds;
        buffered = r.ballots.verifier.holds;
        forwarded = r.forwarded;
      };
    } };

    ghost invariant = { λ r. 1 ≤ length (S.meaning r.ballots.verifier.scheme).participants };
}

impl<S: Scheme<D>, D: Digest> Round<S, D> {
    /// A round in which nothing has happened. It takes no memory. Where historical votes are
    /// tracked, votes are kept in full to its end, else until their kind is certified.
    ///
    /// Notarizes and finalizes wait until a proposal is selected: by the notarize of the leader,
    /// once `set_leader` names it, by a certificate, or by an own finalize.
    pub fn new(
        alloc: Global,
        round: positions::Round,
        scheme: Rc<S>,
        track_historical_votes: bool,
    ) -> Self
        requires { 1 ≤ length (S.meaning scheme.value).participants }
        ensures scheme { result.scheme ≡ scheme.value }
        ensures number { result.number ≡ round }
        ensures mode { result.mode ≡ (if track_historical_votes then Mode.Retaining else
            Mode.Releasing) }
        ensures holds { result.holds ≡ nothing_held result.mode }
        ensures represents { Represents (⟦<S as RoundConfigs<D>>⟧.of result) [] result.holds }
    {
        let mode = if track_historical_votes {
            Mode::Retaining
        } else {
            Mode::Releasing
        };
        Round::in_mode(alloc, round, scheme, mode)
    }

    /// A round of a view that was skipped. It keeps facts of the votes alone and makes no
    /// certificate, since peers have any that it may need. It takes no memory.
    pub fn skipped(alloc: Global, round: positions::Round, scheme: Rc<S>) -> Self
        requires { 1 ≤ length (S.meaning scheme.value).participants }
        ensures scheme { result.scheme ≡ scheme.value }
        ensures number { result.number ≡ round }
        ensures mode { result.mode ≡ Mode.Skipped }
        ensures holds { result.holds ≡ nothing_held result.mode }
        ensures represents { Represents (⟦<S as RoundConfigs<D>>⟧.of result) [] result.holds }
    {
        Round::in_mode(alloc, round, scheme, Mode::Skipped)
    }

    /// A round in a mode: `new` for those that track votes in full, else `skipped`. It takes no
    /// memory.
    pub fn in_mode(alloc: Global, round: positions::Round, scheme: Rc<S>, mode: Mode) -> Self
        requires { 1 ≤ length (S.meaning scheme.value).participants }
        ensures scheme { result.scheme ≡ scheme.value }
        ensures number { result.number ≡ round }
        ensures mode { result.mode ≡ mode }
        ensures holds { result.holds ≡ nothing_held result.mode }
        ensures represents { Represents (⟦<S as RoundConfigs<D>>⟧.of result) [] result.holds }
    {
        Round {
            ballots: Ballots::new(alloc, round, scheme, mode),
            forwarded: false,
        }
    }

    /// The number of the round.
    pub fn number(&self) -> positions::Round
        ensures number { result ≡ self.now.number }
        ensures participants { 1 ≤ length (S.meaning self.now.scheme).participants }
    {
        self.ballots.verifier().round()
    }

    /// How the round keeps its votes.
    pub fn mode(&self) -> Mode
        ensures { result ≡ self.now.mode }
    {
        self.ballots.mode()
    }

    /// The leader, once it is set.
    pub fn leader(&self) -> Option<Participant>
        ensures held { result ≡ self.now.holds.buffered.leader }
        ensures meets { ForEachHistory ⟦<S as RoundConfigs<D>>⟧.of self.now
            (λ _ past. result ≡ leader_of past) }
    {
        self.ballots.verifier().leader()
    }

    /// The selected proposal: the leader's, or one that evidence fixed.
    pub fn proposal(&self) -> Option<Proposal<D>>
        ensures held { result ≡ selected_in self.now.holds.buffered }
        ensures meets { ForEachHistory ⟦<S as RoundConfigs<D>>⟧.of self.now
            (λ x past. result ≡ selected_proposal x past) }
    {
        self.ballots.verifier().proposal().copied()
    }

    /// Whether the vote is of this round. Its parent view isn't looked at.
    pub fn belongs(&self, vote: &Vote<S::Signature, D>) -> bool
        ensures number { IsTrue result ↔ (round_in (subject_of vote.now) ≡ self.now.number) }
        ensures may { (sender : S.PublicKey)
            → IsTrue result ↔ MayCall (S.meaning self.now.scheme) self.now.number
            (NetworkCall sender vote.now) }
    {
        self.ballots.verifier().round() == vote.round()
    }

    /// Whether the certificate is of this round. Its parent view isn't looked at.
    pub fn belongs_certificate(&self, certificate: &Certificate<S::Certificate, D>) -> bool
        ensures number { IsTrue result ↔
            (round_in (subject_certified certificate.now) ≡ self.now.number) }
        ensures may { IsTrue result ↔ MayCall (S.meaning self.now.scheme) self.now.number
            (CertificateCall certificate.now) }
    {
        self.ballots.verifier().round() == certificate.round()
    }

    /// Whether a certificate of the kind is there.
    pub fn has_certificate(&self, kind: Kind) -> bool
        ensures held { result ≡ of_kind self.now.holds.buffered.certified kind }
        ensures meets { ForEachHistory ⟦<S as RoundConfigs<D>>⟧.of self.now
            (λ _ past. result ≡ is_certified past kind) }
    {
        self.ballots.verifier().has_certificate(kind)
    }

    /// How far the kind is from its certificate. Once that is there no vote of it waits.
    pub fn progress(&self, kind: Kind) -> Progress
        ensures pending { result.pending ≡ length (of_kind self.now.holds.buffered.pending kind) }
        ensures verified { result.verified
            ≡ length (of_kind self.now.holds.buffered.verified kind) }
        ensures quorum { result.quorum
            ≡ quorum_of (length (S.meaning self.now.scheme).participants) }
        ensures meets { ForEachHistory ⟦<S as RoundConfigs<D>>⟧.of self.now
            (λ x past. (result.pending ≡ length (fresh_votes x past kind))
            × (result.verified ≡ length (proven_votes x past kind))) }
    {
        let verifier = self.ballots.verifier();
        let (pending, verified) = verifier.lengths(kind);
        Progress {
            pending,
            verified,
            quorum: positions::quorum(verifier.participants().len() as u32) as usize,
        }
    }

    /// Records a certificate that the caller has verified. It completes its kind, fixes its
    /// proposal where none is fixed, and releases the votes of its kind.
    ///
    /// Where its proposal takes another's place, the kept votes for it are restored as pending. A
    /// notarization answers whether another proposal is selected than before, other certificates
    /// answer false. True asks the caller to construct: finalizes that wait may be for the
    /// proposal that is selected now, and so be ready. A refusal for memory leaves the round as it
    /// was; where no vote is restored it takes none.
    pub fn record_certificate(
        &mut self,
        certificate: &Certificate<S::Certificate, D>,
    ) -> Result<bool, AllocError>
        requires { round_in (subject_certified certificate.now) ≡ self.old.number }
        ensures step { IfOk result (λ answer.
            AfterCertificate (⟦<S as RoundConfigs<D>>⟧.of self.old)
            self.old.holds certificate.now answer self.new.holds) }
        ensures meets { SimulatesOnOk ⟦<S as RoundConfigs<D>>⟧.of self.old
            (CertificateCall certificate.now) CertificateAnswer result self.new.holds }
        ensures needed { IsRefusedForNeed ⟦<S as RoundConfigs<D>>⟧.of self.old
            (CertificateCall certificate.now) result }
        ensures no_memory { ((kind : TheKind)
            → restored_with (⟦<S as RoundConfigs<D>>⟧.of self.old) self.old.holds certificate.now
            kind
            ≡ []) → IsOk result }
        ensures refused { OnErr result (self.new ≡ self.old) }
        ensures same { SameRound self.old self.new }
    {
        self.ballots.complete(certificate)
    }

    /// Takes in a vote that the network brought from a sender.
    ///
    /// The first of each kind per signer is added, but a nullify beside a finalize of its signer,
    /// or the reverse. A sender is blocked for that, for the vote of another, and for two votes
    /// that are known to differ. A refusal for memory leaves the round as it was; a vote that
    /// isn't added takes none.
    pub fn add_network(
        &mut self,
        sender: S::PublicKey,
        vote: Vote<S::Signature, D>,
    ) -> Result<Admission<S::Signature, D>, AllocError>
        requires { round_in (subject_of vote) ≡ self.old.number }
        ensures step { IfOk result (λ answer. AfterNetwork (⟦<S as RoundConfigs<D>>⟧.of self.old)
            self.old.holds sender vote answer self.new.holds) }
        ensures meets { SimulatesOnOk ⟦<S as RoundConfigs<D>>⟧.of self.old
            (NetworkCall sender vote) NetworkAnswer result self.new.holds }
        ensures no_memory { (admission (⟦<S as RoundConfigs<D>>⟧.of self.old) self.old.holds sender
            vote).added ≡ false → IsOk result }
        ensures needed { IsRefusedForNeed ⟦<S as RoundConfigs<D>>⟧.of self.old
            (NetworkCall sender vote) result }
        ensures refused { OnErr result (self.new ≡ self.old) }
        ensures same { SameRound self.old self.new }
    {
        self.has_participants();
        self.take_in(sender, vote)
    }

    // Does nothing. A quorum takes one.
    fn has_participants(&self)
        ensures { 1 ≤ length (S.meaning self.now.scheme).participants }
    {
        let _ = self.ballots.verifier();
    }

    // The same as `add_network`, by what the round holds.
    fn take_in(
        &mut self,
        sender: S::PublicKey,
        vote: Vote<S::Signature, D>,
    ) -> Result<Admission<S::Signature, D>, AllocError>
        requires { round_in (subject_of vote) ≡ self.old.number }
        ensures step { IfOk result (λ answer. AfterNetwork (⟦<S as RoundConfigs<D>>⟧.of self.old)
            self.old.holds sender vote answer self.new.holds) }
        ensures no_memory { (admission (⟦<S as RoundConfigs<D>>⟧.of self.old) self.old.holds sender
            vote).added ≡ false → IsOk result }
        ensures spared { is_known self.old.holds.tracked (signer_of vote) ≡ true
            → of_kind self.old.holds.tracked.compacted (kind_of vote) ≡ true → IsOk result }
        ensures refused { OnErr result (self.new ≡ self.old) }
        ensures same { SameRound self.old self.new }
    {
        // As a rule a vote comes from its signer, whose key is therefore looked at first.
        let signer = vote.signer();
        let participants = self.ballots.verifier().participants();
        let Some(index) = participants.index_near(&sender, signer) else {
            return Ok(blocked(BlockReason::UnknownParticipant, None));
        };
        if index != signer {
            return Ok(blocked(mismatch_reason(vote.kind()), None));
        }
        let slot = self.ballots.slot(index);
        // Nearly every vote is one that nothing excludes. Its answer is built here, since it would
        // be copied if it were handed up from below.
        if self.ballots.is_first(slot, &vote) {
            self.ballots.admit(slot, &vote)?;
            return Ok(added(&vote));
        }
        match self.ballots.rejection(slot, &vote) {
            Some(answer) => Ok(answer),
            // Facts are left of an earlier vote: this one repeats it, or contradicts it.
            None => {
                let outcome = self.ballots.admit(slot, &vote)?;
                Ok(admission_of(outcome, &vote))
            }
        }
    }

    /// Takes in a vote of the node's own, which attests.
    ///
    /// It is refused beside a kept vote of its kind, or beside the other of nullify and finalize;
    /// a nullify that is there already is a duplicate. A finalize fixes its proposal first, also
    /// where it is a duplicate of one that isn't kept. An added vote waits as verified.
    ///
    /// Where the earlier vote of its kind isn't kept, a vote for another proposal is refused as
    /// `Conflicting`, as far as facts show that the two differ. A refusal, also one for memory,
    /// leaves the round as it was.
    pub fn accept_vote(
        &mut self,
        vote: Vote<S::Signature, D>,
    ) -> Result<(Outcome, Option<Activity<S::Signature, D>>), OwnFault>
        requires belongs { round_in (subject_of vote) ≡ self.old.number }
        requires attests { (S.meaning self.old.scheme).attests (subject_of vote)
            (attestation_of vote) ≡ true }
        ensures step { IfOk result (λ answer. AfterOwn (⟦<S as RoundConfigs<D>>⟧.of self.old)
            self.old.holds vote answer.0 answer.1 self.new.holds) }
        ensures meets { SimulatesOnOk ⟦<S as RoundConfigs<D>>⟧.of self.old
            (OwnCall vote) (λ answer. OwnAnswer answer.0 answer.1) result self.new.holds }
        ensures named { ForEachHistory ⟦<S as RoundConfigs<D>>⟧.of self.old
            (λ x past. IfErr result (λ fault. fault ≡ fault_or_memory (own_answer x past vote))) }
        ensures needed { ForEachHistory ⟦<S as RoundConfigs<D>>⟧.of self.old
            (λ x past. result ≡ Err OutOfMemoryFault → needs_memory x past (OwnCall vote) ≡ true) }
        ensures no_memory { (outcome : Outcome)
            → own_result (⟦<S as RoundConfigs<D>>⟧.of self.old) self.old.holds vote ≡ Ok outcome
            → is_added outcome ≡ false → IsOk result }
        ensures fault { IfErr result (λ fault. fault
            ≡ fault_or_memory (own_result (⟦<S as RoundConfigs<D>>⟧.of self.old) self.old.holds
            vote)) }
        ensures refused { OnErr result (self.new ≡ self.old) }
        ensures same { SameRound self.old self.new }
    {
        let outcome = self.ballots.accept(&vote)?;
        Ok((outcome, report_by(outcome, vote)))
    }

    /// Sets the leader. If its notarize is kept, that selects its proposal where none is
    /// selected. It takes no memory.
    ///
    /// The same leader again changes nothing; another one is refused.
    pub fn set_leader(&mut self, leader: Participant) -> Result<(), LeaderFault>
        ensures answer { result ≡ leader_set_answer self.old.holds.buffered.leader leader }
        ensures named { ForEachHistory ⟦<S as RoundConfigs<D>>⟧.of self.old
            (λ _ past. result ≡ leader_set_answer (leader_of past) leader) }
        ensures meets { MeetsAlways ⟦<S as RoundConfigs<D>>⟧.of self.old
            (LeaderCall leader, LeaderAnswer result) self.new.holds }
        ensures step { OnOk result (AfterLeader
            (⟦<S as RoundConfigs<D>>⟧.of self.old) self.old.holds
            leader self.new.holds) }
        ensures refused { OnErr result (self.new ≡ self.old) }
        ensures same { SameRound self.old self.new }
    {
        self.ballots.set_leader(leader)
    }

    /// The selected proposal, to hand on: once at most, and not where the known leader is `me`.
    /// It takes no memory.
    pub fn try_forward_proposal(&mut self, me: Participant) -> Option<Proposal<D>>
        ensures answer { result ≡ forward_answer self.old.holds me }
        ensures meets { SimulatesAlways ⟦<S as RoundConfigs<D>>⟧.of self.old
            (ForwardCall me, ForwardAnswer result) self.new.holds }
        ensures holds { self.new.holds ≡ record self.old.holds
            { forwarded = is_some result || self.old.holds.forwarded } }
        ensures same { SameRound self.old self.new }
    {
        if self.forwarded || self.ballots.verifier().leader() == Some(me) {
            return None;
        }
        let proposal = self.ballots.verifier().proposal().copied()?;
        self.forwarded = true;
        Some(proposal)
    }

    /// What the next construction looks at, where a kind is ready: of notarize, nullify and
    /// finalize the first that is.
    pub fn next_attempt(&self) -> Option<NextAttempt<'_, S::Signature, D>>
        ensures ready { is_some result
            ≡ is_some (kind_tried (⟦<S as RoundConfigs<D>>⟧.of self.now) self.now.holds) }
        ensures subject { option_map (λ a. a.subject) result
            ≡ subject_next (⟦<S as RoundConfigs<D>>⟧.of self.now) self.now.holds }
        ensures pending { IfSome result (λ a. a.pending.now
            ≡ pending_next (⟦<S as RoundConfigs<D>>⟧.of self.now) self.now.holds) }
        ensures verified { IfSome result (λ a. a.verified.now
            ≡ verified_next (⟦<S as RoundConfigs<D>>⟧.of self.now) self.now.holds) }
        ensures once { IfSome result (λ a.
            EachOnce index_of_signer (a.verified.now ++ a.pending.now)) }
    {
        let verifier = self.ballots.verifier();
        if let Some(attempt) = verifier.next_attempt(Kind::Notarization) {
            return Some(attempt);
        }
        if let Some(attempt) = verifier.next_attempt(Kind::Nullification) {
            return Some(attempt);
        }
        verifier.next_attempt(Kind::Finalization)
    }

    /// What a construction of this kind looks at, where the kind is ready. Another kind may be
    /// constructed before it; its verdicts may be found meanwhile.
    pub fn attempt_of(&self, kind: Kind) -> Option<NextAttempt<'_, S::Signature, D>>
        ensures ready { is_some result
            ≡ is_ready_in (⟦<S as RoundConfigs<D>>⟧.of self.now) self.now.holds kind }
        ensures looks_at { IfSome result (λ a. LooksAtKind (⟦<S as RoundConfigs<D>>⟧.of self.now)
            self.now.holds kind a.subject a.pending.now) }
        ensures once { IfSome result (λ a.
            EachOnce index_of_signer (a.verified.now ++ a.pending.now)) }
    {
        self.ballots.verifier().next_attempt(kind)
    }

    /// Tries to make a certificate of the first kind that is ready, of notarize, nullify and
    /// finalize. It fixes its proposal, and the votes of its kind are released.
    ///
    /// A refusal for memory leaves the round as it was; only the generator may have moved.
    pub fn try_construct<R: CryptoRng>(
        &mut self,
        rng: &mut R,
    ) -> Result<Option<Batch<Certificate<S::Certificate, D>>>, AllocError>
        ensures step { IfOk result (λ answer. AfterConstruct (⟦<S as RoundConfigs<D>>⟧.of self.old)
            self.old.holds (R.stream rng.old) answer self.new.holds (R.stream rng.new)) }
        ensures meets { SimulatesOnOk ⟦<S as RoundConfigs<D>>⟧.of self.old
            (ConstructCall) ConstructAnswer result self.new.holds }
        ensures no_memory { kind_tried (⟦<S as RoundConfigs<D>>⟧.of self.old) self.old.holds ≡ None
            → IsOk result }
        ensures needed { IsRefusedForNeed ⟦<S as RoundConfigs<D>>⟧.of self.old
            ConstructCall result }
        ensures certifies { IfGiven result (BatchCertifies (S.meaning self.old.scheme)) }
        ensures refused { OnErr result (self.new ≡ self.old) }
        ensures same { SameRound self.old self.new }
    {
        if let Some(batch) = self.ballots.construct(Kind::Notarization, rng)? {
            return Ok(Some(batch));
        }
        if let Some(batch) = self.ballots.construct(Kind::Nullification, rng)? {
            return Ok(Some(batch));
        }
        self.ballots.construct(Kind::Finalization, rng)
    }

    // The kind whose certificate the next construction tries.
    fn kind_tried(&self) -> Option<Kind>
        ensures { result ≡ kind_tried (⟦<S as RoundConfigs<D>>⟧.of self.now) self.now.holds }
    {
        let verifier = self.ballots.verifier();
        if verifier.next_attempt(Kind::Notarization).is_some() {
            return Some(Kind::Notarization);
        }
        if verifier.next_attempt(Kind::Nullification).is_some() {
            return Some(Kind::Nullification);
        }
        if verifier.next_attempt(Kind::Finalization).is_some() {
            return Some(Kind::Finalization);
        }
        None
    }

    /// Whether a nullify of the signer is kept in full.
    pub fn has_nullify(&self, signer: Participant) -> bool
        ensures held { result ≡ is_some (kept_vote self.now.holds.tracked NullifyKind signer.0) }
        ensures meets { ForEachHistory ⟦<S as RoundConfigs<D>>⟧.of self.now
            (λ x past. result ≡ keeps_nullify x past signer.0) }
    {
        self.ballots.has_nullify(signer)
    }

    /// Whether the participant isn't known to have the proposal's block, which its notarize or
    /// finalize for it shows. Who voted for another proposal alone is missing too, since it has
    /// another block and still needs this one. An index out of range is of no one who has it.
    ///
    /// Of votes that aren't kept a round knows only which were for the selected proposal. Such a
    /// one counts for whichever proposal is asked about.
    pub fn is_missing_voter(&self, proposal: &Proposal<D>, participant: Participant) -> bool
        ensures held { result ≡ not (has_block_held D.eq self.now.holds participant.0
            proposal.now) }
        ensures meets { ForEachHistory ⟦<S as RoundConfigs<D>>⟧.of self.now
            (λ x past. result ≡ not (has_block x past participant.0 proposal.now)) }
    {
        !self.ballots.has_block(proposal, participant)
    }

    /// The participants that aren't known to have the proposal's block, in ascending order.
    pub fn missing_voters(&self, proposal: &Proposal<D>) -> Result<Participants, AllocError>
        ensures held { IfOk result (λ list. list
            ≡ missing_in D.eq self.now.holds proposal.now
            (length (S.meaning self.now.scheme).participants)) }
        ensures meets { SimulatesOnOk ⟦<S as RoundConfigs<D>>⟧.of self.now
            (MissingCall proposal.now) MissingAnswer result self.now.holds }
    {
        let missing = self.ballots.missing(proposal)?;
        Ok(Participants::from(missing))
    }
}

impl<S: Scheme<D>, D: Digest> Round<S, D>
where
    S::Signature: Identical,
{
    /// Makes the next construction by verdicts from elsewhere, on the pending attestations that
    /// `next_attempt` lends. Where those that attest are a quorum with the verified ones, their
    /// certificate is assembled. It is a construction like any other, and draws nothing.
    ///
    /// None where the subject and the list aren't those of the next attempt, as where a vote came
    /// meanwhile: then nothing changes. A refusal for memory leaves the round as it was.
    pub fn conclude(
        &mut self,
        subject: Subject<D>,
        list: &[Attestation<S::Signature>],
        verdicts: &[bool],
    ) -> Result<Option<Batch<Certificate<S::Certificate, D>>>, AllocError>
        requires { verdicts.now ≡ map ((S.meaning self.old.scheme).attests subject) list.now }
        ensures looks_at { IfGiven result (λ _.
            LooksAtNext (⟦<S as RoundConfigs<D>>⟧.of self.old) self.old.holds subject list.now) }
        ensures not_stale { LooksAtNext (⟦<S as RoundConfigs<D>>⟧.of self.old) self.old.holds
            subject list.now → IfOk result (λ given. is_some given ≡ true) }
        ensures stale { result ≡ Ok None → self.new ≡ self.old }
        ensures step { IfGiven result (λ batch. (stream : Stream)
            → AfterConstruct (judged_config
            (⟦<S as RoundConfigs<D>>⟧.of self.old)) self.old.holds stream
            (Some batch) self.new.holds stream) }
        ensures meets { IfGiven result (λ batch. SimulatesAlways ⟦<S as RoundConfigs<D>>⟧.of
            self.old (ConstructCall, ConstructAnswer (Some batch)) self.new.holds) }
        ensures needed { IsRefusedForNeed ⟦<S as RoundConfigs<D>>⟧.of self.old
            ConstructCall result }
        ensures certifies { IfGiven result (BatchCertifies (S.meaning self.old.scheme)) }
        ensures assembled { IfGiven result (BatchIsAssembled (S.meaning self.old.scheme)) }
        ensures refused { OnErr result (self.new ≡ self.old) }
        ensures same { SameRound self.old self.new }
    {
        match self.kind_tried() {
            None => Ok(None),
            Some(kind) => self.ballots.conclude(kind, subject, list, verdicts),
        }
    }

    /// Makes the next construction by a certificate that was made elsewhere, of all that
    /// `next_attempt` lends: the pending attestations and the verified ones. So schemes that
    /// aggregate verify no attestation by itself. It takes no memory and draws nothing.
    ///
    /// None where the subject and the list aren't those of the next attempt, or where all that it
    /// lends is too little for a quorum. Then nothing changes.
    pub fn conclude_with(
        &mut self,
        subject: Subject<D>,
        list: &[Attestation<S::Signature>],
        certificate: S::Certificate,
    ) -> Option<Batch<Certificate<S::Certificate, D>>>
        requires { (S.meaning self.old.scheme).certifies subject certificate ≡ true }
        ensures looks_at { is_some result ≡ true
            → LooksAtNext (⟦<S as RoundConfigs<D>>⟧.of self.old) self.old.holds subject list.now }
        ensures not_stale { LooksAtNext (⟦<S as RoundConfigs<D>>⟧.of self.old) self.old.holds
            subject list.now
            → MayBeQuorumNext (⟦<S as RoundConfigs<D>>⟧.of self.old) self.old.holds
            → is_some result ≡ true }
        ensures stale { result ≡ None → self.new ≡ self.old }
        ensures gives { IfSome result (λ batch. batch.certificate
            ≡ Some (certificate_for subject certificate)) }
        ensures step { IfSome result (λ batch. (stream : Stream)
            → AfterConstruct (judged_config_with (⟦<S as RoundConfigs<D>>⟧.of self.old) certificate)
            self.old.holds stream (Some batch) self.new.holds stream) }
        ensures meets { IfSome result (λ batch. SimulatesAlways ⟦<S as RoundConfigs<D>>⟧.of
            self.old (ConstructCall, ConstructAnswer (Some batch)) self.new.holds) }
        ensures certifies { IfSome result (BatchCertifies (S.meaning self.old.scheme)) }
        ensures same { SameRound self.old self.new }
    {
        match self.kind_tried() {
            None => None,
            Some(kind) => self.ballots.conclude_with(kind, subject, list, certificate),
        }
    }
}

impl<S: Scheme<D>, D: Digest + fmt::Debug> fmt::Debug for Round<S, D> {
    /// Its number, mode, leader and selected proposal, and no votes.
    fn fmt<W: fmt::Write>(&self, f: &mut fmt::Formatter<W>) -> fmt::Result {
        f.debug_struct("Round")
            .field("number", &self.number())
            .field("mode", &self.mode())
            .field("leader", &self.leader())
            .field("proposal", &self.proposal())
            .finish_non_exhaustive()
    }
}
