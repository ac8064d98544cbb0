//! The constructions of a voter's node by verdicts from elsewhere.

ghost use Rattle.std.specs.Prelude.{◌≡◌, None, Ok, OnErr, Some, map};
ghost use Rattle.batcher.specs.Verifiers.{IfGiven};
ghost use Rattle.batcher_node.specs.Events.{constructed};
ghost use Rattle.batcher_node.specs.Nodes.{IsNext};
ghost use Rattle.batcher_node.specs.Represents.{NodeMeets, NextMayNeed};
ghost use Rattle.batcher_node.specs.Verdicts.{GivesByVerdicts};
ghost use Rattle.batcher_voter.specs.Knowledge.{HasRoom};
ghost use Rattle.batcher_voter.specs.Needing.{ConstructionNeeds};
ghost use Rattle.batcher_voter.specs.Voting.{IsOfItsView, VoterMeets, VoterStays, SameVoter};
ghost use Rattle.batcher_voter.specs.Voting.{OnlyNode, VoterKeepsNode};

use crate::calls::certificate_in;
use crate::voter::Voter;
use batcher::messages::{Attestation, Certificate, Digest, Identical, Subject};
use batcher::positions::View;
use batcher::round::RoundConfigs;
use batcher::scheme::Scheme;
use batcher_bytes::{Codec, Log, OwnedCodec};
use batcher_node::{Construction, NodeConfigs, senders_of_votes_to_send_are_never_blocked};
use std::alloc::AllocError;

impl<S: Scheme<D>, D: Digest + Codec, L: Log> Voter<S, D, L>
where
    S::Signature: Codec + Identical,
    S::Certificate: OwnedCodec,
{
    /// Makes the construction of the next view by verdicts from elsewhere, as the node does, on the
    /// pending attestations that the `next_attempt` of its round lends. The certificate of its
    /// batch is learned, so room for it is made first.
    ///
    /// None where the subject and the list aren't those of that attempt, as where a vote came
    /// meanwhile or a lower view is next.
    pub fn conclude(
        &mut self,
        subject: Subject<D>,
        list: &[Attestation<S::Signature>],
        verdicts: &[bool],
        waiting: Option<&Certificate<S::Certificate, D>>,
    ) -> Result<Option<Construction<S::Certificate, D>>, AllocError>
        requires { verdicts.now ≡ map ((S.meaning self.old.node.scheme).attests subject) list.now }
        ensures meets { IfGiven result (λ one.
            VoterMeets (⟦<S as NodeConfigs<D>>⟧.of self.old.node) self.old self.new
            (constructed one.view.0 one.batch)) }
        ensures given { GivesByVerdicts (S.meaning self.old.node.scheme)
            ⟦<S as RoundConfigs<D>>⟧.of self.old.node.rounds subject list.now result }
        ensures stale { result ≡ Ok None → self.new.node ≡ self.old.node }
        ensures stale_stays { result ≡ Ok None
            → VoterStays (⟦<S as NodeConfigs<D>>⟧.of self.old.node) self.old self.new }
        ensures needed { OnErr result
            (ConstructionNeeds (⟦<S as NodeConfigs<D>>⟧.of self.old.node) self.old) }
        ensures refused { OnErr result
            (VoterKeepsNode (⟦<S as NodeConfigs<D>>⟧.of self.old.node) self.old self.new) }
        ensures frame { SameVoter L.is_copied_as self.old self.new }
    {
        match self.next_construction() {
            Some(view) => match self.make_ready(view.0, waiting) {
                Ok(()) => match self.conclude_at(view, subject, list, verdicts) {
                    Ok(made) => Ok(made),
                    Err(fault) => Err(fault),
                },
                Err(fault) => Err(fault),
            },
            None => Ok(None),
        }
    }

    // The same in the next view, for which there is room.
    fn conclude_at(
        &mut self,
        view: View,
        subject: Subject<D>,
        list: &[Attestation<S::Signature>],
        verdicts: &[bool],
    ) -> Result<Option<Construction<S::Certificate, D>>, AllocError>
        requires verdicts { verdicts.now
            ≡ map ((S.meaning self.old.node.scheme).attests subject) list.now }
        requires room { HasRoom self.old.knowledge view.0 }
        requires none { self.old.waits ≡ None }
        requires next { IsNext self.old.node.rounds view.0 }
        ensures meets { IfGiven result (λ one.
            VoterMeets (⟦<S as NodeConfigs<D>>⟧.of self.old.node) self.old self.new
            (constructed one.view.0 one.batch)) }
        ensures given { GivesByVerdicts (S.meaning self.old.node.scheme)
            ⟦<S as RoundConfigs<D>>⟧.of self.old.node.rounds subject list.now result }
        ensures stale { result ≡ Ok None → self.new ≡ self.old }
        ensures needed { OnErr result
            (NextMayNeed (⟦<S as NodeConfigs<D>>⟧.of self.old.node) self.old.node) }
        ensures refused { OnErr result (self.new ≡ self.old) }
        ensures frame { SameVoter L.is_copied_as self.old self.new }
    {
        self.begins();
        self.has_history();
        senders_of_votes_to_send_are_never_blocked::<S, D>();
        match self.call_conclude(view, subject, list, verdicts) {
            Ok(Some(made)) => match certificate_in(&made) {
                Some(certificate) => {
                    self.learn(certificate);
                    Ok(Some(made))
                }
                None => Ok(Some(made)),
            },
            Ok(None) => Ok(None),
            Err(fault) => Err(fault),
        }
    }

    // The node makes the construction.
    fn call_conclude(
        &mut self,
        view: View,
        subject: Subject<D>,
        list: &[Attestation<S::Signature>],
        verdicts: &[bool],
    ) -> Result<Option<Construction<S::Certificate, D>>, AllocError>
        requires verdicts { verdicts.now
            ≡ map ((S.meaning self.old.node.scheme).attests subject) list.now }
        requires next { IsNext self.old.node.rounds view.0 }
        ensures meets { IfGiven result (λ one. NodeMeets (⟦<S as NodeConfigs<D>>⟧.of self.old.node)
            self.old.node (constructed one.view.0 one.batch) self.new.node) }
        ensures view { IfGiven result (λ one. one.view ≡ view) }
        ensures of_view { IfGiven result (IsOfItsView self.old.node.epoch) }
        ensures given { GivesByVerdicts (S.meaning self.old.node.scheme)
            ⟦<S as RoundConfigs<D>>⟧.of self.old.node.rounds subject list.now result }
        ensures stale { result ≡ Ok None → self.new ≡ self.old }
        ensures needed { OnErr result
            (NextMayNeed (⟦<S as NodeConfigs<D>>⟧.of self.old.node) self.old.node) }
        ensures refused { OnErr result (self.new ≡ self.old) }
        ensures frame { OnlyNode self.old self.new }
    {
        match self.ask_conclude(subject, list, verdicts) {
            Ok(Some(made)) => Ok(Some(made)),
            Ok(None) => Ok(None),
            Err(fault) => Err(fault),
        }
    }

    fn ask_conclude(
        &mut self,
        subject: Subject<D>,
        list: &[Attestation<S::Signature>],
        verdicts: &[bool],
    ) -> Result<Option<Construction<S::Certificate, D>>, AllocError>
        requires { verdicts.now ≡ map ((S.meaning self.old.node.scheme).attests subject) list.now }
        ensures meets { IfGiven result (λ one. NodeMeets (⟦<S as NodeConfigs<D>>⟧.of self.old.node)
            self.old.node (constructed one.view.0 one.batch) self.new.node) }
        ensures of_view { IfGiven result (IsOfItsView self.old.node.epoch) }
        ensures given { GivesByVerdicts (S.meaning self.old.node.scheme)
            ⟦<S as RoundConfigs<D>>⟧.of self.old.node.rounds subject list.now result }
        ensures stale { result ≡ Ok None → self.new ≡ self.old }
        ensures needed { OnErr result
            (NextMayNeed (⟦<S as NodeConfigs<D>>⟧.of self.old.node) self.old.node) }
        ensures refused { OnErr result (self.new ≡ self.old) }
        ensures frame { OnlyNode self.old self.new }
    {
        self.node.promises();
        let made = self.node.conclude(subject, list, verdicts);
        self.node.promises();
        made
    }
}
