//! What comes to a validator: messages of its peers, and its own votes.

ghost use Rattle.std.specs.Prelude.{◌≡◌, ◌≢◌, ◌<◌, ◌≤◌, ◌⊎◌, ◌∷◌, Err, IfOk, IfSome, None, Ok};
ghost use Rattle.std.specs.Prelude.{◌+◌, ◌-◌, ◌*◌, ◌^◌, MatchBool, OnErr, OnOk, cond, false};
ghost use Rattle.std.specs.Prelude.{is_some, length, map, max, min, nat_le, option_and_then, true};
ghost use Rattle.std.specs.Prelude.{IfErr};
ghost use Rattle.std.specs.List.{slice_get};
ghost use Rattle.std.specs.Option.{option_map_or};
ghost use Rattle.batcher.specs.Verifiers.{certifies_itself};
ghost use Rattle.batcher.specs.Votes.{round_in, subject_certified};
ghost use Rattle.batcher_agreement.specs.Lives.{called, verified};
ghost use Rattle.batcher_node.specs.Events.{certificate_came, constructed, view_entered};
ghost use Rattle.batcher_node.specs.Events.{vote_came, forgery_came, peer_in};
ghost use Rattle.batcher_node.specs.Nodes.{IsAtRest, IsNext, cause_at, WhyNotEntered};
ghost use Rattle.batcher_node.specs.declared.answers.EnterFault.{EnterFault};
ghost use Rattle.batcher_node.specs.Represents.{ahead_answer, VoteMayNeed};
ghost use Rattle.batcher_validator.specs.Absence.{is_given_up, is_sign, with_sign};
ghost use Rattle.batcher_validator.specs.Running.{ForEachRun, HasConstructed, RunEnters, RunMeets};
ghost use Rattle.batcher_validator.specs.Running.{RunStays, RunTakes, CatchesUp, blocks_sender};
ghost use Rattle.batcher_validator.specs.Running.{SameRun, OnlyVoter, RunKeepsNode};
ghost use Rattle.batcher_validator.specs.Shelves.{Shelves};
ghost use Rattle.batcher_validator.specs.Histories.{answered, did};
ghost use Rattle.batcher_voter.specs.Keeping.{IsKnownAlready};
ghost use Rattle.batcher_voter.specs.Knowledge.{HasRoom};
ghost use Rattle.batcher_voter.specs.Needing.{CertificateNeeds, ConstructionNeeds};
ghost use Rattle.batcher_voter.specs.Voting.{BeginWithOneView, ForEachLife, IsVoting, VoterMeets};
ghost use Rattle.batcher_voter.specs.Voting.{VoterStays, was_recorded, VoterKeepsNode};
ghost use Rattle.batcher_bytes.specs.Copies.{KeepsCopy};

use crate::polling::cause_of;
use crate::validator::Validator;
use batcher::messages::{Certificate, Digest, Identical, Vote};
use batcher::positions::{Participant, Round, View};
use batcher::round::Admission;
use batcher::scheme::Scheme;
use batcher::verifier::Batch;
use batcher_bytes::{Codec, Log, OwnedCodec};
use batcher_node::{
    Ahead, Construction, EnterFault, NodeConfigs, Receipt, Verdict,
    senders_of_votes_to_send_are_never_blocked,
};
use rand_core::CryptoRng;
use std::alloc::AllocError;

impl<S: Scheme<D>, D: Digest + Codec, L: Log> Validator<S, D, L>
where
    S::Signature: Codec + Identical,
    S::Certificate: OwnedCodec,
{
    /// Takes in a vote that a peer sent, as the voter does. Then poll.
    pub fn receive_vote(
        &mut self,
        peer: S::PublicKey,
        vote: Vote<S::Signature, D>,
    ) -> Result<Receipt<Admission<S::Signature, D>>, AllocError>
        ensures meets { IfOk result (λ receipt. RunMeets
            (⟦<S as NodeConfigs<D>>⟧.of self.old.voter.node) self.old self.new
            (did (called (vote_came peer vote receipt)))) }
        ensures needed { OnErr result (VoteMayNeed
            (⟦<S as NodeConfigs<D>>⟧.of self.old.voter.node) self.old.voter.node peer vote) }
        ensures refused { OnErr result (self.new ≡ self.old) }
        ensures frame { SameRun L.is_copied_as self.old self.new }
    {
        let who = self.sender(&peer);
        match self.call_vote(peer, vote) {
            Ok(receipt) => {
                self.note_sign(who, is_sign(&receipt));
                if blocks_sender(&receipt) {
                    self.stir();
                    return Ok(receipt);
                }
                Ok(receipt)
            }
            Err(fault) => Err(fault),
        }
    }

    // The participant with the key.
    fn sender(&self, peer: &S::PublicKey) -> Option<Participant>
        ensures { result
            ≡ peer_in (⟦<S as NodeConfigs<D>>⟧.of self.now.voter.node) peer.now }
    {
        self.scheme.participants().index(peer)
    }

    // A message came of a participant, and whether it is a sign of life.
    fn note_sign(&mut self, sender: Option<Participant>, is_sign: bool)
        ensures given { self.new.given ≡ record self.old.given {
          presence = with_sign is_sign sender self.old.given.presence;
        } }
        ensures voter { self.new.voter ≡ self.old.voter }
        ensures shelf { self.new.shelf ≡ self.old.shelf }
    {
        self.given.presence.note(sender, is_sign);
    }

    // Somebody may be to be blocked.
    fn stir(&mut self)
        ensures given { self.new.given ≡ record self.old.given { calm = false } }
        ensures voter { self.new.voter ≡ self.old.voter }
        ensures shelf { self.new.shelf ≡ self.old.shelf }
    {
        self.given.calm = false;
    }

    // The voter takes in a vote.
    fn call_vote(
        &mut self,
        peer: S::PublicKey,
        vote: Vote<S::Signature, D>,
    ) -> Result<Receipt<Admission<S::Signature, D>>, AllocError>
        ensures meets { IfOk result (λ receipt. VoterMeets
            (⟦<S as NodeConfigs<D>>⟧.of self.old.voter.node) self.old.voter self.new.voter
            (vote_came peer vote receipt)) }
        ensures needed { OnErr result (VoteMayNeed
            (⟦<S as NodeConfigs<D>>⟧.of self.old.voter.node) self.old.voter.node peer vote) }
        ensures refused { OnErr result (self.new ≡ self.old) }
        ensures frame { OnlyVoter L.is_copied_as self.old self.new }
    {
        self.voter.receive_vote(peer, vote)
    }

    /// Takes in a certificate that a peer sent, as the voter does, and keeps it. What can't be kept
    /// for the disk isn't learned: that is refused for memory. Then poll.
    pub fn receive_certificate(
        &mut self,
        peer: S::PublicKey,
        certificate: Certificate<S::Certificate, D>,
    ) -> Result<Receipt<Verdict>, AllocError>
        ensures meets { IfOk result (λ receipt. RunMeets
            (⟦<S as NodeConfigs<D>>⟧.of self.old.voter.node) self.old self.new
            (did (called (certificate_came peer certificate receipt)))) }
        ensures needed { OnErr result ((self.old.shelf.room ≡ 0) ⊎ CertificateNeeds
            (⟦<S as NodeConfigs<D>>⟧.of self.old.voter.node) self.old.voter peer certificate) }
        ensures refused { OnErr result
            (RunKeepsNode (⟦<S as NodeConfigs<D>>⟧.of self.old.voter.node) self.old self.new) }
        ensures frame { SameRun L.is_copied_as self.old self.new }
    {
        match self.make_room() {
            Ok(()) => match self.receive_with_room(peer, certificate) {
                Ok(receipt) => Ok(receipt),
                Err(fault) => Err(fault),
            },
            Err(fault) => {
                drop(certificate);
                Err(fault)
            }
        }
    }

    // The same where there is room for it.
    fn receive_with_room(
        &mut self,
        peer: S::PublicKey,
        certificate: Certificate<S::Certificate, D>,
    ) -> Result<Receipt<Verdict>, AllocError>
        requires room { 1 ≤ self.old.shelf.room }
        requires stirred { self.old.given.calm ≡ false }
        ensures meets { IfOk result (λ receipt. RunMeets
            (⟦<S as NodeConfigs<D>>⟧.of self.old.voter.node) self.old self.new
            (did (called (certificate_came peer certificate receipt)))) }
        ensures needed { OnErr result (CertificateNeeds
            (⟦<S as NodeConfigs<D>>⟧.of self.old.voter.node) self.old.voter peer certificate) }
        ensures refused { OnErr result
            (RunKeepsNode (⟦<S as NodeConfigs<D>>⟧.of self.old.voter.node) self.old self.new) }
        ensures frame { SameRun L.is_copied_as self.old self.new }
    {
        senders_of_votes_to_send_are_never_blocked::<S, D>();
        self.begins();
        let who = self.sender(&peer);
        match self.call_certificate(peer, &certificate) {
            Ok(receipt) => {
                let heard = is_sign(&receipt);
                self.note_sign(who, heard);
                if is_recorded(&receipt) {
                    self.shelve(certificate);
                    return Ok(receipt);
                }
                drop(certificate);
                Ok(receipt)
            }
            Err(fault) => {
                drop(certificate);
                Err(fault)
            }
        }
    }

    // Does nothing. Somebody takes part, and the voter begins with one view.
    pub(crate) fn begins(&self)
        ensures some { 1 ≤ length (S.meaning self.now.voter.node.scheme).participants }
        ensures view { BeginWithOneView self.now.voter }
    {
        self.voter.begins();
    }

    // Keeps a certificate that is looked at, for which there is room.
    pub(crate) fn shelve(&mut self, certificate: Certificate<S::Certificate, D>)
        requires { 1 ≤ self.old.shelf.room }
        ensures shelves { Shelves self.old.voter.node.epoch self.old.voter.node.window.finalized
            certificate self.old.shelf.certificates self.new.shelf.certificates }
        ensures handed { self.new.shelf.handed ≡ self.old.shelf.handed }
        ensures voter { self.new.voter ≡ self.old.voter }
        ensures given { self.new.given ≡ self.old.given }
    {
        if self.is_looked_at(certificate.round()) {
            self.shelf.put(certificate);
            return;
        }
        drop(certificate);
    }

    // Whether a round is of the epoch, and not before the final view.
    fn is_looked_at(&self, round: Round) -> bool
        ensures { MatchBool result ((round.epoch ≡ self.now.voter.node.epoch)
            × (self.now.voter.node.window.finalized ≤ round.view.0))
            ((round.epoch ≡ self.now.voter.node.epoch)
            × (self.now.voter.node.window.finalized ≤ round.view.0) → ⊥) }
    {
        round.epoch == self.voter.epoch() && self.voter.node().window().finalized <= round.view.0
    }

    // The voter takes in a certificate.
    fn call_certificate(
        &mut self,
        peer: S::PublicKey,
        certificate: &Certificate<S::Certificate, D>,
    ) -> Result<Receipt<Verdict>, AllocError>
        ensures meets { IfOk result (λ receipt. VoterMeets
            (⟦<S as NodeConfigs<D>>⟧.of self.old.voter.node) self.old.voter self.new.voter
            (certificate_came peer certificate.now receipt)) }
        ensures needed { OnErr result (CertificateNeeds
            (⟦<S as NodeConfigs<D>>⟧.of self.old.voter.node) self.old.voter peer
            certificate.now) }
        ensures refused { OnErr result (VoterKeepsNode
            (⟦<S as NodeConfigs<D>>⟧.of self.old.voter.node) self.old.voter self.new.voter) }
        ensures frame { OnlyVoter L.is_copied_as self.old self.new }
    {
        self.voter.receive_certificate(peer, certificate)
    }

    /// Takes in a certificate from beyond the window that a peer sent, by which who fell behind
    /// goes on. It is verified, learned and kept, or refused for memory; then poll. Where it
    /// doesn't certify what it names, the peer is blocked. One from elsewhere isn't looked at.
    pub fn catch_up(
        &mut self,
        peer: S::PublicKey,
        certificate: Certificate<S::Certificate, D>,
    ) -> Result<Receipt<Ahead>, AllocError>
        ensures answer { IfOk result (λ answer. answer ≡ ahead_answer
            (⟦<S as NodeConfigs<D>>⟧.of self.old.voter.node) self.old.voter.node peer
            certificate) }
        ensures meets { IfOk result (λ answer. CatchesUp
            (⟦<S as NodeConfigs<D>>⟧.of self.old.voter.node) self.old peer certificate answer
            self.new) }
        ensures taken { result ≡ Ok (Receipt.Answered Ahead.Certified) → Shelves
            self.old.voter.node.epoch self.old.voter.node.window.finalized certificate
            self.old.shelf.certificates self.new.shelf.certificates }
        ensures certifies { OnErr result (ahead_answer
            (⟦<S as NodeConfigs<D>>⟧.of self.old.voter.node) self.old.voter.node peer
            certificate ≡ Receipt.Answered Ahead.Certified) }
        ensures needed { OnErr result ((self.old.shelf.room ≡ 0)
            ⊎ (HasRoom self.old.voter.knowledge (round_in (subject_certified certificate)).view.0
            → IsKnownAlready self.old.voter.knowledge (subject_certified certificate) → ⊥)) }
        ensures refused { OnErr result
            (RunKeepsNode (⟦<S as NodeConfigs<D>>⟧.of self.old.voter.node) self.old self.new) }
        ensures node { self.new.voter.node
            ≡ record self.old.voter.node { blocked = self.new.voter.node.blocked } }
        ensures copied { KeepsCopy L.is_copied_as self.old.voter.journal.log
            self.new.voter.journal.log }
    {
        match self.call_ahead(peer, &certificate) {
            Receipt::Answered(Ahead::Certified) => match self.take_in(certificate) {
                Ok(()) => Ok(Receipt::Answered(Ahead::Certified)),
                Err(fault) => Err(fault),
            },
            Receipt::Answered(Ahead::Forged) => {
                drop(certificate);
                self.stir();
                Ok(Receipt::Answered(Ahead::Forged))
            }
            Receipt::Outside => {
                drop(certificate);
                Ok(Receipt::Outside)
            }
            Receipt::Dropped => {
                drop(certificate);
                Ok(Receipt::Dropped)
            }
            Receipt::Unknown => {
                drop(certificate);
                Ok(Receipt::Unknown)
            }
        }
    }

    // The voter takes in a certificate from beyond the window.
    fn call_ahead(
        &mut self,
        peer: S::PublicKey,
        certificate: &Certificate<S::Certificate, D>,
    ) -> Receipt<Ahead>
        ensures answer { result ≡ ahead_answer (⟦<S as NodeConfigs<D>>⟧.of self.old.voter.node)
            self.old.voter.node peer certificate.now }
        ensures certifies { result ≡ Receipt.Answered Ahead.Certified
            → certifies_itself (S.meaning self.old.voter.node.scheme) certificate.now ≡ true }
        ensures forged { result ≡ Receipt.Answered Ahead.Forged
            → VoterMeets (⟦<S as NodeConfigs<D>>⟧.of self.old.voter.node) self.old.voter
            self.new.voter (forgery_came peer certificate.now) }
        ensures quiet { result ≢ Receipt.Answered Ahead.Forged → self.new ≡ self.old }
        ensures node { self.new.voter.node
            ≡ record self.old.voter.node { blocked = self.new.voter.node.blocked } }
        ensures journal { self.new.voter.journal ≡ self.old.voter.journal }
        ensures given { self.new.given ≡ self.old.given }
        ensures shelf { self.new.shelf ≡ self.old.shelf }
    {
        self.voter.receive_ahead(peer, certificate)
    }

    // Learns and keeps a certificate from beyond the window that certifies.
    fn take_in(&mut self, certificate: Certificate<S::Certificate, D>) -> Result<(), AllocError>
        requires { certifies_itself (S.meaning self.old.voter.node.scheme) certificate ≡ true }
        ensures took { OnOk result (RunTakes (⟦<S as NodeConfigs<D>>⟧.of self.old.voter.node)
            certificate self.old self.new) }
        ensures taken { OnOk result (Shelves self.old.voter.node.epoch
            self.old.voter.node.window.finalized certificate self.old.shelf.certificates
            self.new.shelf.certificates) }
        ensures needed { OnErr result ((self.old.shelf.room ≡ 0)
            ⊎ (HasRoom self.old.voter.knowledge (round_in (subject_certified certificate)).view.0
            → IsKnownAlready self.old.voter.knowledge (subject_certified certificate) → ⊥)) }
        ensures stays { OnErr result
            (RunStays (⟦<S as NodeConfigs<D>>⟧.of self.old.voter.node) self.old self.new) }
        ensures node { self.new.voter.node ≡ self.old.voter.node }
        ensures copied { KeepsCopy L.is_copied_as self.old.voter.journal.log
            self.new.voter.journal.log }
    {
        match self.make_room() {
            Ok(()) => match self.take_in_with_room(certificate) {
                Ok(()) => Ok(()),
                Err(fault) => Err(fault),
            },
            Err(fault) => {
                drop(certificate);
                Err(fault)
            }
        }
    }

    // The same of one that certifies, for which there is room.
    fn take_in_with_room(
        &mut self,
        certificate: Certificate<S::Certificate, D>,
    ) -> Result<(), AllocError>
        requires room { 1 ≤ self.old.shelf.room }
        requires stirred { self.old.given.calm ≡ false }
        requires certifies { certifies_itself (S.meaning self.old.voter.node.scheme) certificate
            ≡ true }
        ensures took { OnOk result (RunTakes (⟦<S as NodeConfigs<D>>⟧.of self.old.voter.node)
            certificate self.old self.new) }
        ensures taken { OnOk result (Shelves self.old.voter.node.epoch
            self.old.voter.node.window.finalized certificate self.old.shelf.certificates
            self.new.shelf.certificates) }
        ensures needed { OnErr result (HasRoom self.old.voter.knowledge
            (round_in (subject_certified certificate)).view.0
            → IsKnownAlready self.old.voter.knowledge (subject_certified certificate) → ⊥) }
        ensures stays { OnErr result
            (RunStays (⟦<S as NodeConfigs<D>>⟧.of self.old.voter.node) self.old self.new) }
        ensures node { self.new.voter.node ≡ self.old.voter.node }
        ensures log { self.new.voter.journal.log ≡ self.old.voter.journal.log }
    {
        match self.learn_verified(&certificate) {
            Ok(()) => {
                self.shelve(certificate);
                Ok(())
            }
            Err(fault) => {
                drop(certificate);
                Err(fault)
            }
        }
    }

    // The voter learns a certificate that certifies.
    fn learn_verified(
        &mut self,
        certificate: &Certificate<S::Certificate, D>,
    ) -> Result<(), AllocError>
        requires { certifies_itself (S.meaning self.old.voter.node.scheme) certificate.now ≡ true }
        ensures learned { OnOk result (ForEachLife
            (⟦<S as NodeConfigs<D>>⟧.of self.old.voter.node) self.old.voter (λ past earlier.
            IsVoting (⟦<S as NodeConfigs<D>>⟧.of self.old.voter.node)
            (verified certificate.now ∷ past) earlier self.new.voter)) }
        ensures needed { OnErr result (HasRoom self.old.voter.knowledge
            (round_in (subject_certified certificate.now)).view.0
            → IsKnownAlready self.old.voter.knowledge (subject_certified certificate.now) → ⊥) }
        ensures stays { OnErr result (VoterStays
            (⟦<S as NodeConfigs<D>>⟧.of self.old.voter.node) self.old.voter self.new.voter) }
        ensures node { self.new.voter.node ≡ self.old.voter.node }
        ensures contents { self.new.voter.journal.contents ≡ self.old.voter.journal.contents }
        ensures open { self.new.voter.journal.is_open ≡ self.old.voter.journal.is_open }
        ensures log { self.new.voter.journal.log ≡ self.old.voter.journal.log }
        ensures given { self.new.given ≡ self.old.given }
        ensures shelf { self.new.shelf ≡ self.old.shelf }
    {
        self.voter.learn_verified(certificate)
    }

    pub(crate) fn verifies(&self, certificate: &Certificate<S::Certificate, D>) -> bool
        ensures { result
            ≡ certifies_itself (S.meaning self.now.voter.node.scheme) certificate.now }
    {
        self.voter.node().verifies(certificate)
    }

    /// Makes one construction, as the voter does, by which votes are verified, and keeps its
    /// certificate. It answers whether one was made. Then poll.
    pub fn try_construct<R: CryptoRng>(&mut self, rng: &mut R) -> Result<bool, AllocError>
        ensures needed { OnErr result ((self.old.shelf.room ≡ 0) ⊎ ConstructionNeeds
            (⟦<S as NodeConfigs<D>>⟧.of self.old.voter.node) self.old.voter) }
        ensures made { result ≡ Ok true → HasConstructed
            (⟦<S as NodeConfigs<D>>⟧.of self.old.voter.node) self.old self.new }
        ensures rests { result ≡ Ok false → IsAtRest self.old.voter.node }
        ensures answered { result ≡ Ok false
            → RunMeets (⟦<S as NodeConfigs<D>>⟧.of self.old.voter.node) self.old self.new
            answered }
        ensures refused { OnErr result
            (RunKeepsNode (⟦<S as NodeConfigs<D>>⟧.of self.old.voter.node) self.old self.new) }
        ensures frame { SameRun L.is_copied_as self.old self.new }
    {
        match self.make_room() {
            Ok(()) => match self.construct_with_room(rng) {
                Ok(made) => Ok(made),
                Err(fault) => Err(fault),
            },
            Err(fault) => Err(fault),
        }
    }

    // The same where there is room for its certificate.
    fn construct_with_room<R: CryptoRng>(&mut self, rng: &mut R) -> Result<bool, AllocError>
        requires room { 1 ≤ self.old.shelf.room }
        requires stirred { self.old.given.calm ≡ false }
        ensures needed { OnErr result (ConstructionNeeds
            (⟦<S as NodeConfigs<D>>⟧.of self.old.voter.node) self.old.voter) }
        ensures made { result ≡ Ok true → HasConstructed
            (⟦<S as NodeConfigs<D>>⟧.of self.old.voter.node) self.old self.new }
        ensures rests { result ≡ Ok false → IsAtRest self.old.voter.node }
        ensures answered { result ≡ Ok false
            → RunMeets (⟦<S as NodeConfigs<D>>⟧.of self.old.voter.node) self.old self.new
            answered }
        ensures refused { OnErr result
            (RunKeepsNode (⟦<S as NodeConfigs<D>>⟧.of self.old.voter.node) self.old self.new) }
        ensures frame { SameRun L.is_copied_as self.old self.new }
    {
        senders_of_votes_to_send_are_never_blocked::<S, D>();
        self.begins();
        match self.call_construct(rng) {
            Ok(Some(made)) => match certificate_of(made) {
                Some(certificate) => {
                    self.shelve(certificate);
                    self.note_answer();
                    Ok(true)
                }
                None => {
                    self.note_answer();
                    Ok(true)
                }
            },
            Ok(None) => {
                self.note_answer();
                Ok(false)
            }
            Err(fault) => Err(fault),
        }
    }

    // Makes room for one more certificate. By what comes then somebody may be blocked.
    pub(crate) fn make_room(&mut self) -> Result<(), AllocError>
        ensures room { OnOk result (1 ≤ self.new.shelf.room) }
        ensures needed { OnErr result (self.old.shelf.room ≡ 0) }
        ensures certificates { self.new.shelf.certificates ≡ self.old.shelf.certificates }
        ensures handed { self.new.shelf.handed ≡ self.old.shelf.handed }
        ensures voter { self.new.voter ≡ self.old.voter }
        ensures given { self.new.given ≡ record self.old.given { calm = false } }
    {
        self.stir();
        self.shelf.make_room()
    }

    pub(crate) fn note_answer(&mut self)
        ensures given { self.new.given ≡ record self.old.given { verifying = false } }
        ensures voter { self.new.voter ≡ self.old.voter }
        ensures shelf { self.new.shelf ≡ self.old.shelf }
    {
        self.given.verifying = false;
    }

    // The voter makes a construction.
    fn call_construct<R: CryptoRng>(
        &mut self,
        rng: &mut R,
    ) -> Result<Option<Construction<S::Certificate, D>>, AllocError>
        ensures meets { IfOk result (λ made. IfSome made (λ one. VoterMeets
            (⟦<S as NodeConfigs<D>>⟧.of self.old.voter.node) self.old.voter self.new.voter
            (constructed one.view.0 one.batch))) }
        ensures next { IfOk result (λ made. IfSome made (λ one.
            IsNext self.old.voter.node.rounds one.view.0)) }
        ensures rests { result ≡ Ok None
            → (self.new ≡ self.old) × IsAtRest self.old.voter.node }
        ensures needed { OnErr result (ConstructionNeeds
            (⟦<S as NodeConfigs<D>>⟧.of self.old.voter.node) self.old.voter) }
        ensures refused { OnErr result (VoterKeepsNode
            (⟦<S as NodeConfigs<D>>⟧.of self.old.voter.node) self.old.voter self.new.voter) }
        ensures frame { OnlyVoter L.is_copied_as self.old self.new }
    {
        let waiting = self.shelf.waiting(self.voter.waits());
        self.voter.try_construct(rng, waiting)
    }

    /// Enters a view with its leader, as the voter does. Where that is another participant, and is
    /// blocked or absent, the view is given up at once, as where its time is over: `is_given_up`
    /// says when. Then poll.
    pub fn enter(&mut self, view: View, leader: Participant) -> Result<(), EnterFault>
        ensures meets { OnOk result (RunEnters (⟦<S as NodeConfigs<D>>⟧.of self.old.voter.node)
            view.0 leader self.old self.new) }
        ensures passed { view.0 < self.old.voter.node.window.finalized
            → result ≡ Err EnterFault.Passed }
        ensures why { IfErr result (WhyNotEntered self.old.voter.node view.0 leader) }
        ensures refused { OnErr result (self.new ≡ self.old) }
        ensures frame { SameRun L.is_copied_as self.old self.new }
    {
        let is_over = self.gives_up(leader);
        match self.call_enter(view, leader) {
            Ok(()) => {
                self.note_entered(view, is_over);
                self.settle();
                Ok(())
            }
            Err(fault) => Err(fault),
        }
    }

    // Whether a leader's views are given up as they are entered.
    fn gives_up(&self, leader: Participant) -> bool
        ensures { ForEachRun (⟦<S as NodeConfigs<D>>⟧.of self.now.voter.node) self.now
            (λ past earlier. result
            ≡ is_given_up (⟦<S as NodeConfigs<D>>⟧.of self.now.voter.node) past leader) }
    {
        if leader.0 as usize >= self.participants() {
            return false;
        }
        if leader.0 == self.me().0 {
            return false;
        }
        if self.is_blocked(leader) {
            return true;
        }
        self.is_absent(leader)
    }

    // Whether a participant is blocked.
    fn is_blocked(&self, who: Participant) -> bool
        ensures { result ≡ is_some (cause_at self.now.voter.node.blocked who.0) }
    {
        cause_of(self.voter.node().blocked(), who.0 as usize).is_some()
    }

    // Whether at least twice as many views as there are participants were entered since something
    // came of one.
    fn is_absent(&self, who: Participant) -> bool
        ensures absent { result ≡ option_map_or (nat_le
            (length (S.meaning self.now.voter.node.scheme).participants * 2))
            (slice_get self.now.given.presence who.0) false }
        ensures few { length (S.meaning self.now.voter.node.scheme).participants < 2 ^ 32 }
    {
        let views = self.given.blocked.len() as u64 * 2;
        self.given.presence.is_silent(who, views)
    }

    // A view is entered, and whether it is given up.
    fn note_entered(&mut self, view: View, is_over: bool)
        ensures given { self.new.given ≡ record self.old.given {
          presence = map (λ silence. min (silence + 1) (2 ^ 64 - 1)) self.old.given.presence;
          intent = record self.old.given.intent {
            expired = cond is_over (max self.old.given.intent.expired view.0)
                self.old.given.intent.expired;
          };
        } }
        ensures voter { self.new.voter ≡ self.old.voter }
        ensures shelf { self.new.shelf ≡ self.old.shelf }
    {
        self.given.presence.enter();
        if is_over {
            self.given.intent.expired = self.given.intent.expired.max(view.0);
        }
    }

    // The voter enters a view.
    fn call_enter(&mut self, view: View, leader: Participant) -> Result<(), EnterFault>
        ensures meets { OnOk result (VoterMeets (⟦<S as NodeConfigs<D>>⟧.of self.old.voter.node)
            self.old.voter self.new.voter (view_entered view.0 leader)) }
        ensures passed { view.0 < self.old.voter.node.window.finalized
            → result ≡ Err EnterFault.Passed }
        ensures why { IfErr result (WhyNotEntered self.old.voter.node view.0 leader) }
        ensures refused { OnErr result (self.new ≡ self.old) }
        ensures frame { OnlyVoter L.is_copied_as self.old self.new }
    {
        self.voter.enter(view, leader)
    }
}

// Whether a message is a sign of life of who sent it.
fn is_sign<A: Drop>(receipt: &Receipt<A>) -> bool
    ensures { result ≡ is_sign receipt.now }
{
    match receipt {
        Receipt::Answered(_) => true,
        Receipt::Outside => true,
        Receipt::Dropped => false,
        Receipt::Unknown => false,
    }
}

// Whether a certificate was recorded.
fn is_recorded(receipt: &Receipt<Verdict>) -> bool
    ensures { result ≡ was_recorded receipt.now }
{
    match receipt {
        Receipt::Answered(Verdict::Recorded(_)) => true,
        _ => false,
    }
}

// The certificate of a construction.
pub(crate) fn certificate_of<C: Drop, D>(made: Construction<C, D>) -> Option<Certificate<C, D>>
    ensures { result ≡ option_and_then (λ batch. batch.certificate) made.batch }
{
    let Construction { batch, .. } = made;
    match batch {
        Some(Batch { certificate, .. }) => certificate,
        None => None,
    }
}

// Whether the answer to a vote blocks who sent it.
fn blocks_sender<G: Copy, D: Digest>(receipt: &Receipt<Admission<G, D>>) -> bool
    ensures { result ≡ blocks_sender receipt.now }
{
    match receipt {
        Receipt::Answered(admission) => admission.block.is_some(),
        Receipt::Outside => false,
        Receipt::Dropped => false,
        Receipt::Unknown => false,
    }
}
