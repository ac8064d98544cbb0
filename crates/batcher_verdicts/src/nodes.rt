//! Constructions of a node by verdicts that come late.

ghost use Rattle.std.specs.Prelude.{◌≡◌, true, Bool, ℕ, None, Some, Ok, is_some, IfOk, IfSome};
ghost use Rattle.std.specs.Prelude.{OnErr};
ghost use Rattle.batcher_types.specs.declared.messages.Attestation.{Attestation as TheAttestation};
ghost use Rattle.batcher_types.specs.declared.messages.Subject.{Subject as TheSubject};
ghost use Rattle.batcher_votes.specs.Verifiers.{IfGiven};
ghost use Rattle.batcher_round.specs.Verdicts.{BatchIsAssembled};
ghost use Rattle.batcher_node.specs.Events.{constructed};
ghost use Rattle.batcher_node.specs.Nodes.{SameNode, IsNext, slot_at};
ghost use Rattle.batcher_node.specs.Represents.{NodeMeets, NextMayNeed};
ghost use Rattle.batcher_verdicts.specs.Nodes.{AreCompleteThere, KnownThere};
ghost use Rattle.batcher_verdicts.specs.Rounds.{AllTrue};

use crate::rounds::Verdicts;
use batcher::messages::{Digest, Identical, Subject};
use batcher::round::RoundConfigs;
use batcher::scheme::Scheme;
use batcher_node::{Construction, Node, NodeConfigs};
use std::alloc::AllocError;

impl<G: Identical, D: Digest> Verdicts<G, D> {
    /// Makes the construction of a node's next view, whose verdicts these are, where one on each
    /// attestation that it looks at is recorded. They are forgotten then.
    ///
    /// None where one isn't recorded, or where no kind is ready: then nothing changes. A refusal
    /// for memory changes nothing either.
    pub fn try_construct_next<S: Scheme<D, Signature = G>>(
        &mut self,
        node: &mut Node<S, D>,
    ) -> Result<Option<Construction<S::Certificate, D>>, AllocError>
        requires { AllTrue (S.meaning node.old.scheme).attests self.old }
        ensures complete { (view : ℕ) → (subject : TheSubject D) → IsNext node.old.rounds view
            → AreCompleteThere ⟦<S as RoundConfigs<D>>⟧.of (slot_at node.old.rounds view) self.old
            subject → IfOk result (λ given. is_some given ≡ true) }
        ensures made { IfGiven result (λ one. (subject : TheSubject D)
            × (AreCompleteThere ⟦<S as RoundConfigs<D>>⟧.of
            (slot_at node.old.rounds one.view.0) self.old subject)) }
        ensures next { IfGiven result (λ one. IsNext node.old.rounds one.view.0) }
        ensures gives { IfGiven result (λ one. is_some one.batch ≡ true) }
        ensures assembled { IfGiven result (λ one. IfSome one.batch
            (BatchIsAssembled (S.meaning node.old.scheme))) }
        ensures meets { IfGiven result
            (λ one. NodeMeets (⟦<S as NodeConfigs<D>>⟧.of node.old) node.old
            (constructed one.view.0 one.batch) node.new) }
        ensures truths { (attests : TheSubject D → TheAttestation G → Bool)
            → AllTrue attests self.old → AllTrue attests self.new }
        ensures needed { OnErr result
            (NextMayNeed (⟦<S as NodeConfigs<D>>⟧.of node.old) node.old) }
        ensures waits { result ≡ Ok None → (self.new ≡ self.old) × (node.new ≡ node.old) }
        ensures refused { OnErr result ((self.new ≡ self.old) × (node.new ≡ node.old)) }
        ensures same { SameNode node.old node.new }
    {
        let Some((subject, known)) = self.known_in(node) else {
            return Ok(None);
        };
        let (list, verdicts) = self.of(&subject).first(known);
        let given = node.conclude(subject, list, verdicts)?;
        self.forget(&subject, given.is_some());
        Ok(given)
    }

    // The same as `known_next`, of a node's next view.
    fn known_in<S: Scheme<D, Signature = G>>(
        &self,
        node: &Node<S, D>,
    ) -> Option<(Subject<D>, usize)>
        ensures known { IfSome result (λ k. KnownThere ⟦<S as RoundConfigs<D>>⟧.of node.now.rounds
            self.now k.0 k.1) }
        ensures complete { (view : ℕ) → (subject : TheSubject D) → IsNext node.now.rounds view
            → AreCompleteThere ⟦<S as RoundConfigs<D>>⟧.of (slot_at node.now.rounds view) self.now
            subject → is_some result ≡ true }
    {
        let view = node.next_view()?;
        let round = node.round(view)?;
        self.known_next(round)
    }
}
