//! The calls of a voter's node, and what is learned by them.

ghost use Rattle.std.specs.Prelude.{◌≡◌, ◌<◌, ◌≤◌, Err, IfNone, IfOk, IfSome, MatchBool, None};
ghost use Rattle.std.specs.Prelude.{Ok, OnErr, OnOk, Some, length, option_and_then, true};
ghost use Rattle.std.specs.Prelude.{false, IfErr};
ghost use Rattle.std.specs.Option.{option_copied};
ghost use Rattle.batcher.specs.Votes.{round_in, subject_certified};
ghost use Rattle.batcher_node.specs.Events.{certificate_came, constructed, view_entered};
ghost use Rattle.batcher_node.specs.Events.{vote_came};
ghost use Rattle.batcher_node.specs.Nodes.{IsAtRest, IsNext, SameNode, WhyNotEntered};
ghost use Rattle.batcher_node.specs.declared.answers.EnterFault.{EnterFault};
ghost use Rattle.batcher_node.specs.Represents.{NodeMeets, NextMayNeed};
ghost use Rattle.batcher_node.specs.Represents.{SimulatesForward, VoteMayNeed, CertificateMayNeed};
ghost use Rattle.batcher.specs.Verifiers.{certifies_itself};
ghost use Rattle.batcher_node.specs.Windows.{is_of};
ghost use Rattle.batcher_bytes.specs.Messages.{certificate_format, versioned};
ghost use Rattle.batcher_journal.specs.Ready.{JournalView, Keeps};
ghost use Rattle.batcher_journal.specs.Records.{Certified};
ghost use Rattle.batcher_voter.specs.Keeping.{IsKnownAlready};
ghost use Rattle.batcher_voter.specs.Unstarted.{IsVouched};
ghost use Rattle.batcher_voter.specs.Knowledge.{HasRoom};
ghost use Rattle.batcher_voter.specs.Needing.{CertificateNeeds, ConstructionNeeds};
ghost use Rattle.batcher_voter.specs.Voting.{IsOfItsView, VoterMeets, was_recorded};
ghost use Rattle.batcher_voter.specs.Voting.{ForwardsProposal, SameVoter, OnlyNode, VoterKeepsNode};

use crate::learned::encoded;
use crate::voter::Voter;
use batcher::messages::{Certificate, Digest, Identical, Proposal, Vote};
use batcher::positions::{Participant, View};
use batcher::round::Admission;
use batcher::scheme::Scheme;
use batcher_bytes::{Codec, Log, OwnedCodec};
use batcher_journal::Journal;
use batcher_node::{
    Construction, EnterFault, Node, NodeConfigs, Receipt, Verdict,
    senders_of_votes_to_send_are_never_blocked,
};
use rand_core::CryptoRng;
use std::alloc::{AllocError, Global};

impl<S: Scheme<D>, D: Digest + Codec, L: Log> Voter<S, D, L>
where
    S::Signature: Codec + Identical,
    S::Certificate: OwnedCodec,
{
    /// Takes in a vote that a peer sent, as the node does.
    pub fn receive_vote(
        &mut self,
        peer: S::PublicKey,
        vote: Vote<S::Signature, D>,
    ) -> Result<Receipt<Admission<S::Signature, D>>, AllocError>
        ensures meets { IfOk result (λ receipt. VoterMeets
            (⟦<S as NodeConfigs<D>>⟧.of self.old.node) self.old self.new
            (vote_came peer vote receipt)) }
        ensures needed { OnErr result
            (VoteMayNeed (⟦<S as NodeConfigs<D>>⟧.of self.old.node) self.old.node peer vote) }
        ensures refused { OnErr result (self.new ≡ self.old) }
        ensures frame { SameVoter L.is_copied_as self.old self.new }
    {
        match self.call_vote(peer, vote) {
            Ok(receipt) => Ok(receipt),
            Err(fault) => Err(fault),
        }
    }

    // The node takes in a vote.
    fn call_vote(
        &mut self,
        peer: S::PublicKey,
        vote: Vote<S::Signature, D>,
    ) -> Result<Receipt<Admission<S::Signature, D>>, AllocError>
        ensures meets { IfOk result (λ receipt. NodeMeets (⟦<S as NodeConfigs<D>>⟧.of self.old.node)
            self.old.node (vote_came peer vote receipt) self.new.node) }
        ensures needed { OnErr result
            (VoteMayNeed (⟦<S as NodeConfigs<D>>⟧.of self.old.node) self.old.node peer vote) }
        ensures refused { OnErr result (self.new ≡ self.old) }
        ensures frame { OnlyNode self.old self.new }
    {
        self.node.promises();
        self.node.receive_vote(peer, vote)
    }

    /// Enters a view with its leader, as the node does.
    pub fn enter(&mut self, view: View, leader: Participant) -> Result<(), EnterFault>
        ensures meets { OnOk result (VoterMeets (⟦<S as NodeConfigs<D>>⟧.of self.old.node) self.old
            self.new (view_entered view.0 leader)) }
        ensures passed { view.0 < self.old.node.window.finalized
            → result ≡ Err EnterFault.Passed }
        ensures why { IfErr result (WhyNotEntered self.old.node view.0 leader) }
        ensures refused { OnErr result (self.new ≡ self.old) }
        ensures frame { SameVoter L.is_copied_as self.old self.new }
    {
        match self.call_enter(view, leader) {
            Ok(()) => Ok(()),
            Err(fault) => Err(fault),
        }
    }

    // The node enters a view.
    fn call_enter(&mut self, view: View, leader: Participant) -> Result<(), EnterFault>
        ensures meets { OnOk result (NodeMeets (⟦<S as NodeConfigs<D>>⟧.of self.old.node)
            self.old.node (view_entered view.0 leader) self.new.node) }
        ensures passed { view.0 < self.old.node.window.finalized
            → result ≡ Err EnterFault.Passed }
        ensures why { IfErr result (WhyNotEntered self.old.node view.0 leader) }
        ensures refused { OnErr result (self.new ≡ self.old) }
        ensures frame { OnlyNode self.old self.new }
    {
        self.node.promises();
        self.node.enter(view, leader)
    }

    /// The selected proposal of a view, to be handed on, as the node says.
    pub fn try_forward_proposal(&mut self, view: View, me: Participant) -> Option<Proposal<D>>
        ensures meets { ForwardsProposal
            (⟦<S as NodeConfigs<D>>⟧.of self.old.node) self.old self.new
            view.0 me result }
        ensures frame { SameVoter L.is_copied_as self.old self.new }
    {
        self.call_forward(view, me)
    }

    // The node hands a proposal on.
    fn call_forward(&mut self, view: View, me: Participant) -> Option<Proposal<D>>
        ensures meets { SimulatesForward (⟦<S as NodeConfigs<D>>⟧.of self.old.node)
            self.old.node view.0 me result self.new.node }
        ensures frame { OnlyNode self.old self.new }
    {
        self.node.promises();
        self.node.try_forward_proposal(view, me)
    }

    /// Takes in a certificate that a peer sent, as the node does. What the node records is learned
    /// and kept for the disk, so there is room for it first. What can't be kept isn't learned.
    pub fn receive_certificate(
        &mut self,
        peer: S::PublicKey,
        certificate: &Certificate<S::Certificate, D>,
    ) -> Result<Receipt<Verdict>, AllocError>
        ensures meets { IfOk result (λ receipt. VoterMeets
            (⟦<S as NodeConfigs<D>>⟧.of self.old.node) self.old self.new
            (certificate_came peer certificate.now receipt)) }
        ensures needed { OnErr result (CertificateNeeds (⟦<S as NodeConfigs<D>>⟧.of self.old.node)
            self.old peer certificate.now) }
        ensures refused { OnErr result
            (VoterKeepsNode (⟦<S as NodeConfigs<D>>⟧.of self.old.node) self.old self.new) }
        ensures frame { SameVoter L.is_copied_as self.old self.new }
    {
        let view = certificate.round().view.0;
        if !self.is_within(certificate.round()) {
            return self.receive_outside(peer, certificate);
        }
        match self.make_room(view) {
            Ok(()) => match self.receive_within(peer, certificate) {
                Ok(receipt) => Ok(receipt),
                Err(fault) => Err(fault),
            },
            Err(fault) => Err(fault),
        }
    }

    fn receive_within(
        &mut self,
        peer: S::PublicKey,
        certificate: &Certificate<S::Certificate, D>,
    ) -> Result<Receipt<Verdict>, AllocError>
        requires room { HasRoom self.old.knowledge
            (round_in (subject_certified certificate.now)).view.0 }
        requires within { is_of self.old.node.epoch self.old.node.window
            (round_in (subject_certified certificate.now)) ≡ true }
        ensures meets { IfOk result (λ receipt. VoterMeets
            (⟦<S as NodeConfigs<D>>⟧.of self.old.node) self.old self.new
            (certificate_came peer certificate.now receipt)) }
        ensures needed { OnErr result (
            IsKnownAlready self.old.knowledge (subject_certified certificate.now)
            → CertificateMayNeed (⟦<S as NodeConfigs<D>>⟧.of self.old.node) self.old.node peer
            certificate.now) }
        ensures refused { OnErr result (self.new ≡ self.old) }
        ensures frame { SameVoter L.is_copied_as self.old self.new }
    {
        if self.has(certificate) {
            return self.receive_known(peer, certificate);
        }
        self.receive_new(peer, certificate)
    }

    // One like it is known, so nothing is to be kept.
    fn receive_known(
        &mut self,
        peer: S::PublicKey,
        certificate: &Certificate<S::Certificate, D>,
    ) -> Result<Receipt<Verdict>, AllocError>
        requires room { HasRoom self.old.knowledge
            (round_in (subject_certified certificate.now)).view.0 }
        requires within { is_of self.old.node.epoch self.old.node.window
            (round_in (subject_certified certificate.now)) ≡ true }
        requires known { IsKnownAlready self.old.knowledge (subject_certified certificate.now) }
        ensures meets { IfOk result (λ receipt. VoterMeets
            (⟦<S as NodeConfigs<D>>⟧.of self.old.node) self.old self.new
            (certificate_came peer certificate.now receipt)) }
        ensures needed { OnErr result (CertificateMayNeed
            (⟦<S as NodeConfigs<D>>⟧.of self.old.node) self.old.node peer certificate.now) }
        ensures refused { OnErr result (self.new ≡ self.old) }
        ensures same { SameNode self.old.node self.new.node }
        ensures journal { self.new.journal ≡ self.old.journal }
    {
        self.begins();
        match self.call_certificate(peer, certificate) {
            Ok(receipt) => {
                if is_recorded(&receipt) {
                    self.note_known(certificate.subject());
                    return Ok(receipt);
                }
                Ok(receipt)
            }
            Err(fault) => Err(fault),
        }
    }

    // It is kept first, and taken back where the node doesn't record it.
    fn receive_new(
        &mut self,
        peer: S::PublicKey,
        certificate: &Certificate<S::Certificate, D>,
    ) -> Result<Receipt<Verdict>, AllocError>
        requires room { HasRoom self.old.knowledge
            (round_in (subject_certified certificate.now)).view.0 }
        requires within { is_of self.old.node.epoch self.old.node.window
            (round_in (subject_certified certificate.now)) ≡ true }
        ensures meets { IfOk result (λ receipt. VoterMeets
            (⟦<S as NodeConfigs<D>>⟧.of self.old.node) self.old self.new
            (certificate_came peer certificate.now receipt)) }
        ensures refused { OnErr result (self.new ≡ self.old) }
        ensures same { SameNode self.old.node self.new.node }
        ensures contents { self.new.journal.contents ≡ self.old.journal.contents }
        ensures open { self.new.journal.is_open ≡ self.old.journal.is_open }
        ensures log { self.new.journal.log ≡ self.old.journal.log }
    {
        self.begins();
        match self.call_kept(peer, certificate) {
            Ok(answer) => {
                if is_recorded(&answer) {
                    self.note(certificate.subject());
                    return Ok(answer);
                }
                Ok(answer)
            }
            Err(fault) => Err(fault),
        }
    }

    // The node takes it in.
    fn call_kept(
        &mut self,
        peer: S::PublicKey,
        certificate: &Certificate<S::Certificate, D>,
    ) -> Result<Receipt<Verdict>, AllocError>
        ensures meets { IfOk result (λ receipt. NodeMeets (⟦<S as NodeConfigs<D>>⟧.of self.old.node)
            self.old.node (certificate_came peer certificate.now receipt) self.new.node) }
        ensures kept { IfOk result (λ receipt. MatchBool (was_recorded receipt)
            (Keeps self.old.journal self.new.journal (
              round_in (subject_certified certificate.now),
              (versioned (certificate_format S.Certificate.format D.format)).encoding
                  certificate.now,
            )) (self.new.journal ≡ self.old.journal)) }
        ensures refused { OnErr result (self.new ≡ self.old) }
        ensures same { SameNode self.old.node self.new.node }
        ensures knowledge { self.new.knowledge ≡ self.old.knowledge }
        ensures waits { self.new.waits ≡ self.old.waits }
    {
        take_in_kept(
            self.alloc,
            &mut self.node,
            &mut self.journal,
            peer,
            certificate,
        )
    }

    fn receive_outside(
        &mut self,
        peer: S::PublicKey,
        certificate: &Certificate<S::Certificate, D>,
    ) -> Result<Receipt<Verdict>, AllocError>
        requires outside { is_of self.old.node.epoch self.old.node.window
            (round_in (subject_certified certificate.now)) ≡ false }
        ensures meets { IfOk result (λ receipt. VoterMeets
            (⟦<S as NodeConfigs<D>>⟧.of self.old.node) self.old self.new
            (certificate_came peer certificate.now receipt)) }
        ensures heard { OnErr result ⊥ }
        ensures refused { OnErr result (self.new ≡ self.old) }
        ensures frame { SameVoter L.is_copied_as self.old self.new }
    {
        match self.call_certificate(peer, certificate) {
            Ok(receipt) => Ok(receipt),
            Err(fault) => Err(fault),
        }
    }

    // The node takes in a certificate.
    fn call_certificate(
        &mut self,
        peer: S::PublicKey,
        certificate: &Certificate<S::Certificate, D>,
    ) -> Result<Receipt<Verdict>, AllocError>
        ensures meets { IfOk result (λ receipt. NodeMeets (⟦<S as NodeConfigs<D>>⟧.of self.old.node)
            self.old.node (certificate_came peer certificate.now receipt) self.new.node) }
        ensures within { IfOk result (λ receipt. was_recorded receipt ≡ true
            → is_of self.old.node.epoch self.old.node.window
            (round_in (subject_certified certificate.now)) ≡ true) }
        ensures needed { OnErr result (CertificateMayNeed
            (⟦<S as NodeConfigs<D>>⟧.of self.old.node) self.old.node peer certificate.now) }
        ensures refused { OnErr result (self.new ≡ self.old) }
        ensures frame { OnlyNode self.old self.new }
    {
        self.node.promises();
        self.node.receive_certificate(peer, certificate)
    }

    /// Makes one construction, as the node does. The certificate of its batch is learned, so room
    /// for it is made first. Where there is no memory to keep it for the disk, it waits: hand it in
    /// with the next call. Until it is kept no vote is written, and no other construction is made.
    pub fn try_construct<R: CryptoRng>(
        &mut self,
        rng: &mut R,
        waiting: Option<&Certificate<S::Certificate, D>>,
    ) -> Result<Option<Construction<S::Certificate, D>>, AllocError>
        ensures meets { IfOk result (λ made. IfSome made (λ one.
            VoterMeets (⟦<S as NodeConfigs<D>>⟧.of self.old.node) self.old self.new
            (constructed one.view.0 one.batch))) }
        ensures next { IfOk result (λ made. IfSome made (λ one.
            IsNext self.old.node.rounds one.view.0)) }
        ensures rests { result ≡ Ok None → (self.new ≡ self.old) × IsAtRest self.old.node }
        ensures needed { OnErr result
            (ConstructionNeeds (⟦<S as NodeConfigs<D>>⟧.of self.old.node) self.old) }
        ensures refused { OnErr result
            (VoterKeepsNode (⟦<S as NodeConfigs<D>>⟧.of self.old.node) self.old self.new) }
        ensures frame { SameVoter L.is_copied_as self.old self.new }
    {
        match self.next_construction() {
            Some(view) => match self.make_ready(view.0, waiting) {
                Ok(()) => match self.construct_at(view, rng) {
                    Ok(made) => Ok(Some(made)),
                    Err(fault) => Err(fault),
                },
                Err(fault) => Err(fault),
            },
            None => Ok(None),
        }
    }

    // The view of the next construction.
    pub(crate) fn next_construction(&self) -> Option<View>
        ensures next { IfSome result (λ view. IsNext self.now.node.rounds view.0) }
        ensures none { IfNone result (IsAtRest self.now.node) }
    {
        self.node.next_view()
    }

    // The construction in the next view, for which there is room.
    fn construct_at<R: CryptoRng>(
        &mut self,
        view: View,
        rng: &mut R,
    ) -> Result<Construction<S::Certificate, D>, AllocError>
        requires room { HasRoom self.old.knowledge view.0 }
        requires none { self.old.waits ≡ None }
        requires next { IsNext self.old.node.rounds view.0 }
        ensures meets { IfOk result (λ one. VoterMeets (⟦<S as NodeConfigs<D>>⟧.of self.old.node)
            self.old self.new (constructed one.view.0 one.batch)) }
        ensures next { IfOk result (λ one. one.view ≡ view) }
        ensures needed { OnErr result
            (NextMayNeed (⟦<S as NodeConfigs<D>>⟧.of self.old.node) self.old.node) }
        ensures refused { OnErr result (self.new ≡ self.old) }
        ensures frame { SameVoter L.is_copied_as self.old self.new }
    {
        self.begins();
        self.has_history();
        senders_of_votes_to_send_are_never_blocked::<S, D>();
        match self.call_construct(view, rng) {
            Ok(made) => match certificate_in(&made) {
                Some(certificate) => {
                    self.learn(certificate);
                    Ok(made)
                }
                None => Ok(made),
            },
            Err(fault) => Err(fault),
        }
    }

    // The node makes a construction.
    fn call_construct<R: CryptoRng>(
        &mut self,
        view: View,
        rng: &mut R,
    ) -> Result<Construction<S::Certificate, D>, AllocError>
        requires next { IsNext self.old.node.rounds view.0 }
        ensures meets { IfOk result (λ one. NodeMeets (⟦<S as NodeConfigs<D>>⟧.of self.old.node)
            self.old.node (constructed one.view.0 one.batch) self.new.node) }
        ensures next { IfOk result (λ one. one.view ≡ view) }
        ensures of_view { IfOk result (IsOfItsView self.old.node.epoch) }
        ensures needed { OnErr result
            (NextMayNeed (⟦<S as NodeConfigs<D>>⟧.of self.old.node) self.old.node) }
        ensures refused { OnErr result (self.new ≡ self.old) }
        ensures frame { OnlyNode self.old self.new }
    {
        match self.ask_construct(rng) {
            Ok(Some(made)) => Ok(made),
            Ok(None) => unreachable!(),
            Err(fault) => Err(fault),
        }
    }

    fn ask_construct<R: CryptoRng>(
        &mut self,
        rng: &mut R,
    ) -> Result<Option<Construction<S::Certificate, D>>, AllocError>
        ensures meets { IfOk result (λ made. IfSome made (λ one.
            NodeMeets (⟦<S as NodeConfigs<D>>⟧.of self.old.node)
            self.old.node (constructed one.view.0 one.batch) self.new.node)) }
        ensures of_view { IfOk result (λ made. IfSome made
            (IsOfItsView self.old.node.epoch)) }
        ensures next { IfOk result (λ made. IfSome made (λ one.
            IsNext self.old.node.rounds one.view.0)) }
        ensures rests { result ≡ Ok None → (self.new ≡ self.old) × IsAtRest self.old.node }
        ensures needed { OnErr result
            (NextMayNeed (⟦<S as NodeConfigs<D>>⟧.of self.old.node) self.old.node) }
        ensures refused { OnErr result (self.new ≡ self.old) }
        ensures frame { OnlyNode self.old self.new }
    {
        self.node.promises();
        let made = self.node.try_construct(rng);
        self.node.promises();
        made
    }
}

// The node takes in a certificate, which is kept before, and taken back where it isn't recorded.
fn take_in_kept<S: Scheme<D>, D: Digest + Codec, L: Log>(
    alloc: Global,
    node: &mut Node<S, D>,
    journal: &mut Journal<S::Signature, D, L>,
    peer: S::PublicKey,
    certificate: &Certificate<S::Certificate, D>,
) -> Result<Receipt<Verdict>, AllocError>
where
    S::Signature: Codec + Identical,
    S::Certificate: OwnedCodec,
    requires { 1 ≤ length (S.meaning node.old.scheme).participants }
    ensures meets { IfOk result (λ receipt. NodeMeets (⟦<S as NodeConfigs<D>>⟧.of node.old)
        node.old (certificate_came peer certificate.now receipt) node.new) }
    ensures kept { IfOk result (λ receipt. MatchBool (was_recorded receipt)
        (Keeps journal.old journal.new (
          round_in (subject_certified certificate.now),
          (versioned (certificate_format S.Certificate.format D.format)).encoding certificate.now,
        )) (journal.new ≡ journal.old)) }
    ensures certified { IfOk result (λ receipt. was_recorded receipt ≡ true
        → IsVouched (certificate_format S.Certificate.format D.format)
        (certifies_itself (S.meaning node.old.scheme)) (
          round_in (subject_certified certificate.now),
          (versioned (certificate_format S.Certificate.format D.format)).encoding certificate.now,
        )) }
    ensures refused { OnErr result ((node.new ≡ node.old) × (journal.new ≡ journal.old)) }
    ensures same { SameNode node.old node.new }
    ensures window { node.new.window ≡ node.old.window }
{
    let bytes = match encoded(alloc, certificate) {
        Ok(bytes) => bytes,
        Err(fault) => return Err(fault),
    };
    match journal.keep(certificate.round(), &bytes) {
        Ok(()) => {}
        Err(fault) => return Err(fault),
    }
    match take_in_verified(node, peer, certificate) {
        Ok(it) => {
            if is_recorded(&it) {
                return Ok(it);
            }
            take_back(journal);
            Ok(it)
        }
        Err(fault) => {
            take_back(journal);
            Err(fault)
        }
    }
}

// The node takes in a certificate. One that it records certifies.
fn take_in_verified<S: Scheme<D>, D: Digest>(
    node: &mut Node<S, D>,
    peer: S::PublicKey,
    certificate: &Certificate<S::Certificate, D>,
) -> Result<Receipt<Verdict>, AllocError>
    requires { 1 ≤ length (S.meaning node.old.scheme).participants }
    ensures meets { IfOk result (λ receipt. NodeMeets (⟦<S as NodeConfigs<D>>⟧.of node.old)
        node.old (certificate_came peer certificate.now receipt) node.new) }
    ensures certifies { IfOk result (λ receipt. was_recorded receipt ≡ true
        → certifies_itself (S.meaning node.old.scheme) certificate.now ≡ true) }
    ensures refused { OnErr result (node.new ≡ node.old) }
    ensures same { SameNode node.old node.new }
    ensures window { node.new.window ≡ node.old.window }
{
    senders_of_votes_to_send_are_never_blocked::<S, D>();
    node.promises();
    node.receive_certificate(peer, certificate)
}

// Takes back what was kept last.
fn take_back<G: Codec, D: Digest + Codec, L: Log>(journal: &mut Journal<G, D, L>)
    ensures { (before : JournalView G D L) (it : Certified) → Keeps before journal.old it
        → journal.new ≡ before }
{
    journal.take_back();
}

// Whether a certificate was recorded.
fn is_recorded(receipt: &Receipt<Verdict>) -> bool
    ensures { result ≡ was_recorded receipt.now }
{
    match receipt {
        Receipt::Answered(Verdict::Recorded(_)) => true,
        _ => false,
    }
}

// The certificate of a construction.
pub(crate) fn certificate_in<C, D>(made: &Construction<C, D>) -> Option<&Certificate<C, D>>
    ensures { option_copied result
        ≡ option_and_then (λ batch. batch.certificate) made.now.batch }
{
    match &made.batch {
        Some(batch) => match &batch.certificate {
            Some(certificate) => Some(certificate),
            None => None,
        },
        None => None,
    }
}
