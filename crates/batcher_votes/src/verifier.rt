//! Votes on their way to a certificate: the selected proposal, two buffers of votes a kind, and
//! the attempts to make certificates out of them.

ghost use Rattle.std.specs.Prelude.{◌≡◌, ◌≢◌, ◌+◌, ◌≤◌, ◌&&◌, not, cond, true, false, ◌++◌, ◌↔◌};
ghost use Rattle.std.specs.Prelude.{[], Ok, IsTrue, length, filter, map, Some, None, is_some};
ghost use Rattle.std.specs.Prelude.{is_none, IsOk, IfOk, IfSome, OnOk, OnErr};
ghost use Rattle.std.specs.Option.{option_copied, option_map};
ghost use Rattle.batcher_types.specs.declared.messages.Kind.{Kind as TheKind};
ghost use Rattle.batcher_types.specs.declared.messages.Kind.TheVariants.{Notarization as TheNotarization};
ghost use Rattle.batcher_types.specs.declared.messages.Kind.TheVariants.{Nullification as TheNullification};
ghost use Rattle.batcher_types.specs.declared.messages.Kind.TheVariants.{Finalization as TheFinalization};
ghost use Rattle.batcher_votes.specs.declared.verifier.ProposalState.TheVariants.{Certificate as FixedProposal};
ghost use Rattle.batcher_types.specs.Quorum.{quorum_of};
ghost use Rattle.std.specs.List.{AllPass};
ghost use Rattle.batcher_types.specs.Lists.{EachOnce};
ghost use Rattle.batcher_types.specs.Attestations.{index_of_signer};
ghost use Rattle.batcher_types.specs.Votes.{is_kind, kind_of, is_of_kind, has_proposals, signer_of};
ghost use Rattle.batcher_types.specs.Votes.{subject_of, attestation_of, is_eligible};
ghost use Rattle.batcher_votes.specs.ProposalStates.{proposal_of, selects, updated, same_selected};
ghost use Rattle.batcher_votes.specs.ProposalStates.{replaces};
ghost use Rattle.batcher_votes.specs.RoundState.{of_kind, SameVerifier};
ghost use Rattle.batcher_types.specs.Attempts.{attempt_of};
ghost use Rattle.batcher_votes.specs.VerifierSteps.{attestations_of, nothing_buffered};
ghost use Rattle.batcher_votes.specs.VerifierSteps.{subject_from, is_buffered, is_dropped};
ghost use Rattle.batcher_votes.specs.VerifierSteps.{leaders_vote, leader_answer, subject_tried};
ghost use Rattle.batcher_votes.specs.VerifierSteps.{certificate_for, AddsVote, SetsLeader};
ghost use Rattle.batcher_votes.specs.VerifierSteps.{SetsProposal, CompletesKind};
ghost use Rattle.batcher_votes.specs.AttemptInputs.{pending_tried, verified_tried};
ghost use Rattle.batcher_votes.specs.Outcomes.{IsFine, TakesIn, attempt_result};
ghost use Rattle.batcher_votes.specs.Verdicts.{judged, judged_in, judged_with_in, LooksAt};
ghost use Rattle.batcher_votes.specs.Verdicts.{MayBeQuorum};
ghost use Rattle.rand_core.specs.Stream.{Stream};
ghost use Rattle.batcher_votes.specs.Soundness.{IsSound, KeepsAllRoom, KeepsOtherRoom};
ghost use Rattle.batcher_votes.specs.Soundness.{RestoresRoom};
ghost use Rattle.batcher_votes.specs.Verifiers.{is_of_round, subject_ready, is_ready_kind, Tries};
ghost use Rattle.batcher_votes.specs.Verifiers.{IfGiven, BatchCertifies, NamesSomebody};
ghost use Rattle.batcher_votes.specs.Verifiers.{IsLeftAlone, room_for, taken_by, HasRoomToRestore};
ghost use Rattle.batcher_votes.specs.Verifiers.{RestoresAll};

mod attempt;
mod buffer;
mod certification;
mod proposal;
mod verdicts;

use crate::per_kind::PerKind;
use crate::votes::KeptVotes;
use attempt::{Attempted, attempt, looked_at};
use batcher_types::messages::{
    Attestation, Certificate, Digest, Kind, Notarize, Proposal, Subject, Vote,
};
use batcher_types::positions::{Participant, Participants, Round, Set};
use batcher_types::scheme::Scheme;
use certification::Certification;
use rand_core::CryptoRng;
use std::alloc::{AllocError, Global};
use std::marker::Model;
use std::rc::Rc;
use thiserror::Error;

/// The selected proposal, with what it was learned from.
#[derive(Clone, Copy, Debug, PartialEq, Eq)]
pub enum ProposalState<D> {
    /// None is selected, and votes for any wait.
    Unknown,
    /// From the leader's notarize. A certificate or an own finalize may put another in its place.
    Leader(Proposal<D>),
    /// From a certificate or an own finalize: fixed for good.
    Certificate(Proposal<D>),
}

/// What a new source did to the selected proposal.
#[derive(Clone, Copy, Debug, PartialEq, Eq)]
pub struct ProposalUpdate {
    /// Whether the proposal is another than before, or the first.
    pub changed: bool,
    /// Whether it took another's place, whose votes were dropped.
    pub replaced: bool,
}

/// What one attempt at a certificate did.
#[derive(Clone, Debug, Drop, PartialEq, Eq)]
pub struct Batch<C> {
    /// How many pending votes were looked at.
    pub processed: usize,
    /// The signers whose votes were found not to attest. Where a certificate was given at once no
    /// vote was verified by itself, and the list is empty.
    pub invalid: Participants,
    pub certificate: Option<C>,
    /// Whether the votes could have been a quorum, but the pending ones had to be verified one by
    /// one.
    pub fallback: bool,
}

/// What the next attempt at a certificate is about, the pending attestations that it looks at, and
/// those that are known to attest.
#[derive(Clone, Copy)]
pub struct NextAttempt<'a, G, D> {
    pub subject: Subject<D>,
    pub pending: &'a [Attestation<G>],
    pub verified: &'a [Attestation<G>],
}

/// Why a leader was refused.
#[derive(Clone, Copy, Debug, PartialEq, Eq, Error)]
pub enum LeaderFault {
    /// Another leader is set already: a view has one.
    #[error("leader changed within round")]
    LeaderChanged,
    /// The notarize that was handed in is of another signer. A round never hands in such a one.
    #[error("notarize must be from leader")]
    NotFromLeader,
}

/// The votes of a round on their way to certificates.
///
/// Votes wait as pending until enough are there to be worth a check, and as verified until they
/// are a quorum. A kind whose certificate is there takes no more votes.
#[derive(Drop)]
pub struct Verifier<S: Scheme<D>, D: Digest> {
    alloc: Global,
    scheme: Rc<S>,
    round: Round,
    quorum: usize,
    leader: Option<Participant>,
    proposal: ProposalState<D>,
    kinds: PerKind<Certification<S::Signature, D>>,
}

impl<S: Scheme<D>, D: Digest> Model for Verifier<S, D> {
    ghost use Rattle.batcher_votes.specs.RoundState.{VerifierView};

    ghost Value = { VerifierView S S.Signature D };

    ghost use Rattle.batcher_votes.specs.Certifications.{map_kinds, pending_room, verified_room};
    ghost use Rattle.batcher_votes.specs.Certifications.{verifier_holding};
    ghost use Rattle.batcher_votes.specs.Soundness.{IsSound};

    ghost view = { λ v. record {
      scheme = v.scheme.value;
      number = v.round;
      quorum = v.quorum;
      holds = verifier_holding v.leader v.proposal v.kinds;
      pending_room = map_kinds pending_room v.kinds;
      verified_room = map_kinds verified_room
          v.kinds;
    } };

    ghost invariant = { λ v.
        IsSound (S.meaning v.scheme.value) D.eq v.round v.quorum
        (verifier_holding v.leader v.proposal v.kinds) };
}

impl<S: Scheme<D>, D: Digest> Verifier<S, D> {
    /// A verifier that holds no vote. It takes no memory.
    pub fn new(alloc: Global, round: Round, scheme: Rc<S>, quorum: u32) -> Self
        requires some { 1 ≤ length (S.meaning scheme.value).participants }
        requires enough { quorum_of (length (S.meaning scheme.value).participants) ≤ quorum }
        ensures scheme { result.scheme ≡ scheme.value }
        ensures number { result.number ≡ round }
        ensures quorum { result.quorum ≡ quorum }
        ensures holds { result.holds ≡ nothing_buffered }
    {
        Verifier {
            alloc,
            scheme,
            round,
            quorum: quorum as usize,
            leader: None,
            proposal: ProposalState::Unknown,
            kinds: PerKind::new(
                Certification::new(alloc),
                Certification::new(alloc),
                Certification::new(alloc),
            ),
        }
    }

    /// The leader, once it is known.
    pub fn leader(&self) -> Option<Participant>
        ensures { result ≡ self.now.holds.leader }
    {
        self.leader
    }

    /// The selected proposal.
    pub fn proposal(&self) -> Option<&Proposal<D>>
        ensures { option_copied result ≡ proposal_of self.now.holds.selection }
    {
        self.proposal.selected()
    }

    /// Whether a vote of the kind and signer is buffered.
    pub fn buffered(&self, kind: Kind, signer: Participant) -> bool
        ensures { result ≡ is_buffered self.now.holds kind signer.0 }
    {
        self.kinds.get(kind).contains(signer)
    }

    /// Takes a vote in, where it can still count. The leader's notarize selects its proposal. A
    /// round makes the room first, and then calls `add_reserved`.
    pub fn add(&mut self, vote: Vote<S::Signature, D>, verified: bool) -> Result<(), AllocError>
        requires attests { verified ≡ true
            → (S.meaning self.old.scheme).attests (subject_of vote) (attestation_of vote) ≡ true }
        requires of_round { is_of_round self.old.number vote ≡ true }
        requires fresh { is_buffered self.old.holds (kind_of vote) (signer_of vote) ≡ false }
        ensures adds { OnOk result (AddsVote D.eq self.old.holds vote verified self.new.holds) }
        ensures unchanged { OnErr result (self.new.holds ≡ self.old.holds) }
        ensures dropped { is_dropped D.eq self.old.holds vote ≡ true → IsOk result }
        ensures no_memory { 1 ≤ room_for self.old (kind_of vote) verified → IsOk result }
        ensures pending_room { (kind : TheKind) → room_for self.old kind false
            ≤ room_for self.new kind false + taken_by vote verified kind false }
        ensures verified_room { (kind : TheKind) → room_for self.old kind true
            ≤ room_for self.new kind true + taken_by vote verified kind true }
        ensures same { SameVerifier self.old self.new }
    {
        self.make_room_to_add(&vote, verified)?;
        self.add_reserved(&vote, verified);
        Ok(())
    }

    /// Takes a vote in as `add` does, with the room that it may need. It takes no memory.
    pub fn add_reserved(&mut self, vote: &Vote<S::Signature, D>, verified: bool)
        requires attests { verified ≡ true
            → (S.meaning self.old.scheme).attests (subject_of vote.now) (attestation_of vote.now)
            ≡ true }
        requires of_round { is_of_round self.old.number vote.now ≡ true }
        requires fresh { is_buffered self.old.holds (kind_of vote.now) (signer_of vote.now)
            ≡ false }
        requires room { is_dropped D.eq self.old.holds vote.now ≡ false
            → 1 ≤ room_for self.old (kind_of vote.now) verified }
        ensures adds { AddsVote D.eq self.old.holds vote.now verified self.new.holds }
        ensures pending_room { (kind : TheKind) → room_for self.old kind false
            ≤ room_for self.new kind false + taken_by vote.now verified kind false }
        ensures verified_room { (kind : TheKind) → room_for self.old kind true
            ≤ room_for self.new kind true + taken_by vote.now verified kind true }
        ensures same { SameVerifier self.old self.new }
    {
        self.select_by(vote);
        if self.proposal.may_be_eligible(vote) {
            self.kinds.get_mut(vote.kind()).push(vote, verified);
        }
    }

    /// Sets the leader, whose notarize selects its proposal. It takes no memory.
    pub fn set_leader(
        &mut self,
        leader: Participant,
        notarize: Option<&Notarize<S::Signature, D>>,
    ) -> Result<(), LeaderFault>
        ensures answer { result ≡ leader_answer self.old.holds.leader leader
            (option_copied notarize.entry) }
        ensures again { is_some self.old.holds.leader ≡ true → self.new.holds ≡ self.old.holds }
        ensures refused { OnErr result (self.new.holds ≡ self.old.holds) }
        ensures sets { is_some self.old.holds.leader ≡ false
            → OnOk result (SetsLeader D.eq self.old.holds leader
            (option_map (λ vote. vote.proposal) (option_copied notarize.entry)) self.new.holds) }
        ensures room { KeepsAllRoom self.old self.new }
        ensures same { SameVerifier self.old self.new }
    {
        if let Some(known) = self.leader {
            return if known == leader {
                Ok(())
            } else {
                Err(LeaderFault::LeaderChanged)
            };
        }
        match notarize {
            None => {
                self.leader = Some(leader);
                Ok(())
            }
            Some(notarize) => {
                if notarize.attestation.signer.0 != leader.0 {
                    return Err(LeaderFault::NotFromLeader);
                }
                self.set_proposal(ProposalState::Leader(notarize.proposal));
                self.leader = Some(leader);
                Ok(())
            }
        }
    }

    /// Changes the selected proposal as the new source allows. It takes no memory.
    pub fn set_proposal(&mut self, next: ProposalState<D>) -> ProposalUpdate
        ensures sets { SetsProposal D.eq self.old.holds (updated self.old.holds.selection next)
            self.new.holds }
        ensures changed { result.changed
            ≡ not (same_selected D.eq (proposal_of self.old.holds.selection)
            (proposal_of self.new.holds.selection)) }
        ensures replaced { result.replaced
            ≡ (result.changed && is_some (proposal_of self.old.holds.selection)) }
        ensures none_wait { result.replaced ≡ true → (kind : TheKind) → has_proposals kind ≡ true
            → (of_kind self.new.holds.pending kind ≡ [])
            × (of_kind self.new.holds.verified kind ≡ []) }
        ensures room { KeepsAllRoom self.old self.new }
        ensures same { SameVerifier self.old self.new }
    {
        let before = self.proposal;
        self.proposal = before.updated(next);
        match self.proposal.changed_from(before) {
            None => ProposalUpdate {
                changed: false,
                replaced: false,
            },
            Some(proposal) => {
                // Nullifies are for no proposal, and stay.
                self.kinds.get_mut(Kind::Notarization).retain(&proposal);
                self.kinds.get_mut(Kind::Finalization).retain(&proposal);
                ProposalUpdate {
                    changed: true,
                    replaced: before.selected().is_some(),
                }
            }
        }
    }

    /// Whether the proposal, once it is fixed, takes another's place.
    pub fn replaces(&self, proposal: &Proposal<D>) -> bool
        ensures { result ≡ replaces D.eq self.now.holds.selection proposal.now }
    {
        match self.proposal {
            ProposalState::Leader(earlier) => earlier != *proposal,
            ProposalState::Unknown | ProposalState::Certificate(_) => false,
        }
    }

    /// Kept votes of a kind, of which none waits, are restored as pending, where they are for the
    /// selected proposal and the kind isn't certified. With the room that it asks for it takes no
    /// memory.
    pub fn restore(&mut self, kind: Kind, votes: KeptVotes<'_, S::Signature, D>)
        requires proposals { has_proposals kind ≡ true }
        requires selected { is_some (proposal_of self.old.holds.selection) ≡ true }
        requires kinds { AllPass (is_of_kind kind) votes }
        requires once { EachOnce signer_of votes }
        requires none_wait { (of_kind self.old.holds.pending kind ≡ [])
            × (of_kind self.old.holds.verified kind ≡ []) }
        requires room { HasRoomToRestore D.eq self.old kind votes }
        ensures leader { self.new.holds.leader ≡ self.old.holds.leader }
        ensures selection { self.new.holds.selection ≡ self.old.holds.selection }
        ensures buffers { RestoresAll D.eq self.old.holds kind votes.entry self.new.holds }
        ensures room { RestoresRoom kind self.old.pending_room self.old.verified_room
            self.new.pending_room self.new.verified_room }
        ensures same { SameVerifier self.old self.new }
    {
        if let Some(proposal) = self.proposal.selected().copied() {
            self.kinds.get_mut(kind).restore(votes, &proposal);
        }
    }

    /// A certificate of the kind is there, so its votes go, and their memory goes back. It takes no
    /// memory.
    pub fn complete_kind(&mut self, kind: Kind)
        ensures completes { CompletesKind D.eq self.old.holds kind self.new.holds }
        ensures room { KeepsOtherRoom kind self.old.pending_room self.old.verified_room
            self.new.pending_room self.new.verified_room }
        ensures same { SameVerifier self.old self.new }
    {
        self.kinds.get_mut(kind).finish();
    }

    /// Whether a certificate of the kind is there.
    pub fn has_certificate(&self, kind: Kind) -> bool
        ensures { result ≡ of_kind self.now.holds.certified kind }
    {
        self.kinds.get(kind).is_complete()
    }

    /// The round of which the votes are.
    pub fn round(&self) -> Round
        ensures { result ≡ self.now.number }
    {
        self.round
    }

    /// What its votes take their memory from.
    pub fn alloc(&self) -> Global {
        self.alloc
    }

    /// The keys of the participants.
    pub fn participants(&self) -> &Set<S::PublicKey>
        ensures { result.now ≡ (S.meaning self.now.scheme).participants }
    {
        self.scheme.participants()
    }

    /// How many votes of the kind are pending, and how many verified.
    pub fn lengths(&self, kind: Kind) -> (usize, usize)
        ensures pending { result.0 ≡ length (of_kind self.now.holds.pending kind) }
        ensures verified { result.1 ≡ length (of_kind self.now.holds.verified kind) }
    {
        self.kinds.get(kind).lengths()
    }

    /// Makes room for so many more votes in one buffer of a kind, and changes nothing else.
    pub fn make_room(
        &mut self,
        kind: Kind,
        verified: bool,
        additional: usize,
    ) -> Result<(), AllocError>
        ensures holds { self.new.holds ≡ self.old.holds }
        ensures kept { KeepsAllRoom self.old self.new }
        ensures room { OnOk result (additional ≤ room_for self.new kind verified) }
        ensures no_memory { additional ≤ room_for self.old kind verified → IsOk result }
        ensures same { SameVerifier self.old self.new }
    {
        let most = self.scheme.participants().len();
        self.kinds
            .get_mut(kind)
            .make_room(verified, additional, most)
    }

    /// One attempt at a notarization, with the votes that are buffered, where the kind is ready.
    pub fn try_construct_notarization<R: CryptoRng>(
        &mut self,
        rng: &mut R,
    ) -> Result<Option<Batch<Certificate<S::Certificate, D>>>, AllocError>
        ensures ready { IfOk result (λ given. is_some given
            ≡ is_ready_kind S.meaning D.eq self.old TheNotarization) }
        ensures tries { IfGiven result (λ batch. Tries S.meaning self.old TheNotarization
            (R.stream rng.old) batch (R.stream rng.new) self.new) }
        ensures certifies { IfGiven result (BatchCertifies (S.meaning self.old.scheme)) }
        ensures names { IfGiven result NamesSomebody }
        ensures not_ready { is_ready_kind S.meaning D.eq self.old TheNotarization ≡ false
            → IsLeftAlone result self.old self.new (R.stream rng.old) (R.stream rng.new) }
        ensures unchanged { OnErr result (self.new.holds ≡ self.old.holds) }
        ensures same { SameVerifier self.old self.new }
    {
        self.try_construct(Kind::Notarization, rng)
    }

    /// One attempt at a nullification, with the votes that are buffered, where the kind is ready.
    pub fn try_construct_nullification<R: CryptoRng>(
        &mut self,
        rng: &mut R,
    ) -> Result<Option<Batch<Certificate<S::Certificate, D>>>, AllocError>
        ensures ready { IfOk result (λ given. is_some given
            ≡ is_ready_kind S.meaning D.eq self.old TheNullification) }
        ensures tries { IfGiven result (λ batch. Tries S.meaning self.old TheNullification
            (R.stream rng.old) batch (R.stream rng.new) self.new) }
        ensures certifies { IfGiven result (BatchCertifies (S.meaning self.old.scheme)) }
        ensures names { IfGiven result NamesSomebody }
        ensures not_ready { is_ready_kind S.meaning D.eq self.old TheNullification ≡ false
            → IsLeftAlone result self.old self.new (R.stream rng.old) (R.stream rng.new) }
        ensures unchanged { OnErr result (self.new.holds ≡ self.old.holds) }
        ensures same { SameVerifier self.old self.new }
    {
        self.try_construct(Kind::Nullification, rng)
    }

    /// One attempt at a finalization, with the votes that are buffered, where the kind is ready.
    pub fn try_construct_finalization<R: CryptoRng>(
        &mut self,
        rng: &mut R,
    ) -> Result<Option<Batch<Certificate<S::Certificate, D>>>, AllocError>
        ensures ready { IfOk result (λ given. is_some given
            ≡ is_ready_kind S.meaning D.eq self.old TheFinalization) }
        ensures tries { IfGiven result (λ batch. Tries S.meaning self.old TheFinalization
            (R.stream rng.old) batch (R.stream rng.new) self.new) }
        ensures certifies { IfGiven result (BatchCertifies (S.meaning self.old.scheme)) }
        ensures names { IfGiven result NamesSomebody }
        ensures not_ready { is_ready_kind S.meaning D.eq self.old TheFinalization ≡ false
            → IsLeftAlone result self.old self.new (R.stream rng.old) (R.stream rng.new) }
        ensures unchanged { OnErr result (self.new.holds ≡ self.old.holds) }
        ensures same { SameVerifier self.old self.new }
    {
        self.try_construct(Kind::Finalization, rng)
    }

    /// One attempt at a kind's certificate, where the kind is ready.
    pub fn try_construct<R: CryptoRng>(
        &mut self,
        kind: Kind,
        rng: &mut R,
    ) -> Result<Option<Batch<Certificate<S::Certificate, D>>>, AllocError>
        ensures ready { IfOk result (λ given. is_some given
            ≡ is_ready_kind S.meaning D.eq self.old kind) }
        ensures tries { IfGiven result (λ batch. Tries S.meaning self.old kind
            (R.stream rng.old) batch (R.stream rng.new) self.new) }
        ensures certifies { IfGiven result (BatchCertifies (S.meaning self.old.scheme)) }
        ensures names { IfGiven result NamesSomebody }
        ensures sound { IsSound (S.meaning self.old.scheme) D.eq self.old.number self.old.quorum
            self.old.holds }
        ensures not_ready { is_ready_kind S.meaning D.eq self.old kind ≡ false
            → IsLeftAlone result self.old self.new (R.stream rng.old) (R.stream rng.new) }
        ensures unchanged { OnErr result (self.new.holds ≡ self.old.holds) }
        ensures same { SameVerifier self.old self.new }
    {
        match self.subject_ready(kind) {
            None => Ok(None),
            Some(subject) => Ok(Some(self.construct(kind, subject, rng)?)),
        }
    }

    /// What an attempt at a kind's certificate would look at, where the kind is ready.
    pub fn next_attempt(&self, kind: Kind) -> Option<NextAttempt<'_, S::Signature, D>>
        ensures ready { is_some result ≡ is_ready_kind S.meaning D.eq self.now kind }
        ensures subject { option_map (λ a. a.subject) result
            ≡ subject_ready D.eq (S.meaning self.now.scheme).batchable self.now.quorum
            self.now.holds self.now.number kind }
        ensures pending { IfSome result (λ a. a.pending.now
            ≡ pending_tried self.now.quorum self.now.holds kind) }
        ensures verified { IfSome result (λ a. a.verified.now
            ≡ verified_tried self.now.holds kind) }
        ensures once { IfSome result (λ a.
            EachOnce index_of_signer (a.verified.now ++ a.pending.now)) }
    {
        let subject = self.subject_ready(kind)?;
        let certification = self.kinds.get(kind);
        let verified = certification.verified();
        let pending = looked_at(self.quorum, verified, certification.pending());
        Some(NextAttempt {
            subject,
            pending,
            verified,
        })
    }

    // The proposal of a notarize of the leader.
    fn leaders_proposal(&self, vote: &Vote<S::Signature, D>) -> Option<Proposal<D>>
        ensures { result ≡ leaders_vote D.eq self.now.holds vote.now }
    {
        match (vote, self.leader) {
            (Vote::Notarize(vote), Some(leader)) => {
                if leader == vote.attestation.signer {
                    Some(vote.proposal)
                } else {
                    None
                }
            }
            (Vote::Notarize(_), None) | (Vote::Nullify(_) | Vote::Finalize(_), _) => None,
        }
    }

    // The leader's notarize selects its proposal, where none is selected. Another vote changes
    // nothing.
    fn select_by(&mut self, vote: &Vote<S::Signature, D>)
        ensures sets { SetsProposal D.eq self.old.holds
            (selects self.old.holds.selection (leaders_vote D.eq self.old.holds vote.now))
            self.new.holds }
        ensures room { KeepsAllRoom self.old self.new }
        ensures same { SameVerifier self.old self.new }
    {
        if self.proposal.selected().is_none() {
            if let Some(proposal) = self.leaders_proposal(vote) {
                self.set_proposal(ProposalState::Leader(proposal));
            }
        }
    }

    // Makes room for a vote, where `add` doesn't drop it, and changes nothing else.
    fn make_room_to_add(
        &mut self,
        vote: &Vote<S::Signature, D>,
        verified: bool,
    ) -> Result<(), AllocError>
        ensures room { OnOk result (is_dropped D.eq self.old.holds vote.now ≡ false
            → 1 ≤ room_for self.new (kind_of vote.now) verified) }
        ensures holds { self.new.holds ≡ self.old.holds }
        ensures kept { KeepsAllRoom self.old self.new }
        ensures dropped { is_dropped D.eq self.old.holds vote.now ≡ true → IsOk result }
        ensures no_memory { 1 ≤ room_for self.old (kind_of vote.now) verified → IsOk result }
        ensures same { SameVerifier self.old self.new }
    {
        if self.drops(vote) {
            return Ok(());
        }
        self.make_room(vote.kind(), verified, 1)
    }

    // Whether `add` drops the vote: no vote of its kind is needed, or it is for another proposal.
    fn drops(&self, vote: &Vote<S::Signature, D>) -> bool
        ensures { result ≡ is_dropped D.eq self.now.holds vote.now }
    {
        let selection = match self.leaders_proposal(vote) {
            Some(proposal) => self.proposal.updated(ProposalState::Leader(proposal)),
            None => self.proposal,
        };
        self.kinds.get(vote.kind()).is_complete() || !selection.may_be_eligible(vote)
    }

    // What is to be tried of a kind, where it is ready.
    fn subject_ready(&self, kind: Kind) -> Option<Subject<D>>
        ensures subject { result ≡ subject_ready D.eq (S.meaning self.now.scheme).batchable
            self.now.quorum self.now.holds self.now.number kind }
        ensures ready { is_some result ≡ is_ready_kind S.meaning D.eq self.now kind }
        ensures sound { IsSound (S.meaning self.now.scheme) D.eq self.now.number self.now.quorum
            self.now.holds }
    {
        let any_proposal = self.eligible_for_any(kind);
        if !self
            .kinds
            .get(kind)
            .is_ready(S::is_batchable(), self.quorum, any_proposal)
        {
            return None;
        }
        self.subject_tried(kind)
    }

    // Whether votes of the kind for any proposal wait.
    fn eligible_for_any(&self, kind: Kind) -> bool
        ensures { result ≡ (has_proposals kind
            && is_none (proposal_of self.now.holds.selection)) }
    {
        has_proposals(kind) && self.proposal.selected().is_none()
    }

    // What an attempt at a kind's certificate is about.
    fn subject_tried(&self, kind: Kind) -> Option<Subject<D>>
        ensures { result ≡ subject_tried self.now.holds self.now.number kind }
    {
        match self.proposal.selected() {
            Some(proposal) => subject_from(kind, self.round, Some(*proposal)),
            None => subject_from(kind, self.round, self.kinds.get(kind).first_proposal()),
        }
    }

    // An attempt with the votes of a kind, which it leaves as they are.
    fn attempt_at<R: CryptoRng>(
        &self,
        kind: Kind,
        subject: Subject<D>,
        rng: &mut R,
    ) -> Result<Attempted<S::Certificate, S::Signature>, AllocError>
        requires { subject_ready D.eq (S.meaning self.now.scheme).batchable self.now.quorum
            self.now.holds self.now.number kind ≡ Some subject }
        ensures attempt { IfOk result (λ a. (
          attempt_result (verified_tried self.now.holds kind) a.batch a.joining.items,
          R.stream rng.new,
        )
            ≡ attempt_of (S.meaning self.now.scheme) subject self.now.quorum
            (attestations_of (of_kind self.now.holds.verified kind))
            (attestations_of (of_kind self.now.holds.pending kind)) (R.stream rng.old)) }
        ensures fine { IfOk result (λ a. IsFine (S.meaning self.now.scheme) subject
            (attempt_result (verified_tried self.now.holds kind) a.batch a.joining.items)) }
    {
        let scheme: &S = &self.scheme;
        let certification = self.kinds.get(kind);
        attempt(
            self.alloc,
            scheme,
            rng,
            subject,
            self.quorum,
            certification.verified(),
            certification.pending(),
        )
    }

    // One attempt at the certificate of a subject.
    fn construct<R: CryptoRng>(
        &mut self,
        kind: Kind,
        subject: Subject<D>,
        rng: &mut R,
    ) -> Result<Batch<Certificate<S::Certificate, D>>, AllocError>
        requires { subject_ready D.eq (S.meaning self.old.scheme).batchable self.old.quorum
            self.old.holds self.old.number kind ≡ Some subject }
        ensures tries { IfOk result (λ batch. Tries S.meaning self.old kind (R.stream rng.old)
            batch (R.stream rng.new) self.new) }
        ensures certifies { IfOk result (BatchCertifies (S.meaning self.old.scheme)) }
        ensures names { IfOk result NamesSomebody }
        ensures unchanged { OnErr result (self.new.holds ≡ self.old.holds) }
        ensures same { SameVerifier self.old self.new }
    {
        let tried = self.attempt_at(kind, subject, rng)?;
        self.take_in(kind, subject, tried)
    }

    // Takes in what an attempt at the certificate of a subject gave. The verified votes grow before
    // they change.
    fn take_in(
        &mut self,
        kind: Kind,
        subject: Subject<D>,
        tried: Attempted<S::Certificate, S::Signature>,
    ) -> Result<Batch<Certificate<S::Certificate, D>>, AllocError>
        requires ready { subject_ready D.eq (S.meaning self.old.scheme).batchable self.old.quorum
            self.old.holds self.old.number kind ≡ Some subject }
        requires fine { IsFine (S.meaning self.old.scheme) subject
            (attempt_result (verified_tried self.old.holds kind) tried.batch tried.joining.items) }
        ensures takes { IfOk result (λ batch. TakesIn self.old.number self.old.holds kind subject
            (attempt_result (verified_tried self.old.holds kind) tried.batch tried.joining.items)
            batch self.new.holds) }
        ensures certifies { IfOk result (BatchCertifies (S.meaning self.old.scheme)) }
        ensures names { IfOk result NamesSomebody }
        ensures no_memory { is_some tried.batch.certificate ≡ true → IsOk result }
        ensures unchanged { OnErr result (self.new.holds ≡ self.old.holds) }
        ensures same { SameVerifier self.old self.new }
    {
        let Attempted { batch, joining } = tried;
        let batch = batch.for_subject(subject);
        let certification = self.kinds.get_mut(kind);
        if batch.certificate.is_some() {
            certification.finish();
            return Ok(batch);
        }
        certification.make_room_for_run(joining.len())?;
        certification.absorb(subject, joining.as_slice());
        Ok(batch)
    }
}

impl<C: Drop> Batch<C> {
    // The batch of an attempt about this subject, with its certificate.
    #[tactic(auto, using(crate::proofs::VerifierLemmas::Construction::certificate_is))]
    fn for_subject<D: Digest>(self, subject: Subject<D>) -> Batch<Certificate<C, D>>
        ensures { result ≡ record {
          processed = self.processed;
          invalid = self.invalid;
          certificate = option_map (certificate_for subject) self.certificate;
          fallback = self.fallback;
        } }
    {
        let Batch {
            processed,
            invalid,
            certificate,
            fallback,
        } = self;
        let certificate = match certificate {
            Some(content) => Some(Certificate::new(subject, content)),
            None => None,
        };
        Batch {
            processed,
            invalid,
            certificate,
            fallback,
        }
    }
}

// Whether votes of the kind carry a proposal.
fn has_proposals(kind: Kind) -> bool
    ensures { result ≡ has_proposals kind }
{
    kind != Kind::Nullification
}

// The subject of a kind, of the round or the proposal.
fn subject_from<D: Digest>(
    kind: Kind,
    round: Round,
    proposal: Option<Proposal<D>>,
) -> Option<Subject<D>>
    ensures { result ≡ subject_from kind round proposal }
{
    match kind {
        Kind::Nullification => Some(Subject::Nullify { round }),
        Kind::Notarization => match proposal {
            None => None,
            Some(proposal) => Some(Subject::Notarize { proposal }),
        },
        Kind::Finalization => match proposal {
            None => None,
            Some(proposal) => Some(Subject::Finalize { proposal }),
        },
    }
}
