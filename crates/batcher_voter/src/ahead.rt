//! A voter learns certificates that no call of its node takes in.

ghost use Rattle.std.specs.Prelude.{◌≡◌, ◌≢◌, ◌∷◌, MatchBool, OnErr, OnOk, true};
ghost use Rattle.batcher.specs.Verifiers.{certifies_itself};
ghost use Rattle.batcher.specs.Votes.{round_in, subject_certified};
ghost use Rattle.batcher_agreement.specs.Lives.{verified};
ghost use Rattle.batcher_node.specs.Events.{forgery_came};
ghost use Rattle.batcher_node.specs.Represents.{NodeMeets, ahead_answer};
ghost use Rattle.batcher_bytes.specs.Messages.{certificate_format};
ghost use Rattle.batcher_voter.specs.Keeping.{HasOnDisk, IsKnownAlready};
ghost use Rattle.batcher_voter.specs.Knowledge.{HasRoom};
ghost use Rattle.batcher_voter.specs.Reopening.{StaysKnown};
ghost use Rattle.batcher_voter.specs.Voting.{ForEachLife, IsVoting, VoterMeets, VoterStays};

use crate::voter::Voter;
use batcher::messages::{Certificate, Digest, Identical};
use batcher::positions::Round;
use batcher::scheme::Scheme;
use batcher_bytes::{Codec, Log, OwnedCodec};
use batcher_node::{Ahead, NodeConfigs, Receipt};
use std::alloc::AllocError;

impl<S: Scheme<D>, D: Digest + Codec, L: Log> Voter<S, D, L>
where
    S::Signature: Codec + Identical,
    S::Certificate: OwnedCodec,
{
    /// Takes in a certificate from beyond the window that a peer sent, as the node does: who forged
    /// it is blocked. One that certifies isn't learned yet: hand it to `learn_verified`.
    pub fn receive_ahead(
        &mut self,
        peer: S::PublicKey,
        certificate: &Certificate<S::Certificate, D>,
    ) -> Receipt<Ahead>
        ensures answer { result ≡ ahead_answer (⟦<S as NodeConfigs<D>>⟧.of self.old.node)
            self.old.node peer certificate.now }
        ensures forged { result ≡ Receipt.Answered Ahead.Forged
            → VoterMeets (⟦<S as NodeConfigs<D>>⟧.of self.old.node) self.old self.new
            (forgery_came peer certificate.now) }
        ensures stays { result ≢ Receipt.Answered Ahead.Forged → self.new ≡ self.old }
        ensures node { self.new.node
            ≡ record self.old.node { blocked = self.new.node.blocked } }
        ensures journal { self.new.journal ≡ self.old.journal }
        ensures knowledge { self.new.knowledge ≡ self.old.knowledge }
        ensures waits { self.new.waits ≡ self.old.waits }
    {
        self.call_ahead(peer, certificate)
    }

    // The node takes it in.
    fn call_ahead(
        &mut self,
        peer: S::PublicKey,
        certificate: &Certificate<S::Certificate, D>,
    ) -> Receipt<Ahead>
        ensures answer { result ≡ ahead_answer (⟦<S as NodeConfigs<D>>⟧.of self.old.node)
            self.old.node peer certificate.now }
        ensures forged { result ≡ Receipt.Answered Ahead.Forged
            → NodeMeets (⟦<S as NodeConfigs<D>>⟧.of self.old.node) self.old.node
            (forgery_came peer certificate.now) self.new.node }
        ensures stays { result ≢ Receipt.Answered Ahead.Forged → self.new ≡ self.old }
        ensures node { self.new.node
            ≡ record self.old.node { blocked = self.new.node.blocked } }
        ensures journal { self.new.journal ≡ self.old.journal }
        ensures knowledge { self.new.knowledge ≡ self.old.knowledge }
        ensures waits { self.new.waits ≡ self.old.waits }
    {
        self.node.receive_ahead(peer, certificate)
    }

    /// Learns a certificate that was verified, as one of a view beyond the window. What is known
    /// has no window, so that its view is no gap once the window is there. What can't be kept for
    /// the disk isn't learned.
    pub fn learn_verified(
        &mut self,
        certificate: &Certificate<S::Certificate, D>,
    ) -> Result<(), AllocError>
        requires { certifies_itself (S.meaning self.old.node.scheme) certificate.now ≡ true }
        ensures learned { OnOk result (ForEachLife (⟦<S as NodeConfigs<D>>⟧.of self.old.node)
            self.old (λ past earlier. IsVoting (⟦<S as NodeConfigs<D>>⟧.of self.old.node)
            (verified certificate.now ∷ past) earlier self.new)) }
        ensures needed { OnErr result (HasRoom self.old.knowledge
            (round_in (subject_certified certificate.now)).view.0
            → IsKnownAlready self.old.knowledge (subject_certified certificate.now) → ⊥) }
        ensures stays { OnErr result
            (VoterStays (⟦<S as NodeConfigs<D>>⟧.of self.old.node) self.old self.new) }
        ensures node { self.new.node ≡ self.old.node }
        ensures contents { self.new.journal.contents ≡ self.old.journal.contents }
        ensures open { self.new.journal.is_open ≡ self.old.journal.is_open }
        ensures log { self.new.journal.log ≡ self.old.journal.log }
    {
        self.begins();
        let round = certificate.round();
        if !self.is_of_epoch(round) {
            return Ok(());
        }
        match self.make_room(round.view.0) {
            Ok(()) => match self.learn_if_kept(certificate) {
                Ok(()) => Ok(()),
                Err(fault) => Err(fault),
            },
            Err(fault) => Err(fault),
        }
    }

    /// Learns a certificate again that its journal has, and that was verified.
    pub fn learn_again(
        &mut self,
        certificate: &Certificate<S::Certificate, D>,
    ) -> Result<(), AllocError>
        requires certifies { certifies_itself (S.meaning self.old.node.scheme) certificate.now
            ≡ true }
        requires there { HasOnDisk (certificate_format S.Certificate.format D.format)
            self.old.journal.contents certificate.now }
        ensures learned { OnOk result (ForEachLife (⟦<S as NodeConfigs<D>>⟧.of self.old.node)
            self.old (λ past earlier. IsVoting (⟦<S as NodeConfigs<D>>⟧.of self.old.node)
            (verified certificate.now ∷ past) earlier self.new)) }
        ensures needed { OnErr result (HasRoom self.old.knowledge
            (round_in (subject_certified certificate.now)).view.0 → ⊥) }
        ensures knows { StaysKnown self.old.knowledge self.new.knowledge }
        ensures node { self.new.node ≡ self.old.node }
        ensures journal { self.new.journal ≡ self.old.journal }
    {
        self.begins();
        let round = certificate.round();
        if !self.is_of_epoch(round) {
            return Ok(());
        }
        match self.make_room(round.view.0) {
            Ok(()) => {
                self.note(certificate.subject());
                Ok(())
            }
            Err(fault) => Err(fault),
        }
    }

    // Whether a round is of its epoch. Of another one nothing is known.
    fn is_of_epoch(&self, round: Round) -> bool
        ensures { MatchBool result (round.epoch ≡ self.now.node.epoch)
            (round.epoch ≢ self.now.node.epoch) }
    {
        round.epoch == self.epoch()
    }
}
