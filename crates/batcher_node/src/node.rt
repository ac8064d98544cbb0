//! A node: the rounds of a window of views, and the peers that are blocked in all of them.

ghost use Rattle.std.specs.Prelude.{◌≡◌, ◌≤◌, ◌<◌, ◌∷◌, [], true, false, cond, ◌==◌, ℕ, length};
ghost use Rattle.std.specs.Prelude.{map, IfOk, IfErr, OnOk, OnErr, IfSome, IfNone, Some, None, Ok};
ghost use Rattle.std.specs.Prelude.{Err, is_some, ◌≢◌};
ghost use Rattle.std.specs.List.{list_any};
ghost use Rattle.std.specs.Option.{option_map, option_copied, option_or};
ghost use Rattle.std.specs.List.Sorted.{IsStrictlySortedBy};
ghost use Rattle.std.specs.Ordering.{nat_cmp};
ghost use Rattle.batcher.specs.Votes.{subject_of, attestation_of, round_in};
ghost use Rattle.batcher.specs.Verifiers.{certifies_itself, IfGiven};
ghost use Rattle.batcher.specs.Answers.{own_answer};
ghost use Rattle.batcher.specs.calls.Call.TheVariants.{Own as OwnCall};
ghost use Rattle.batcher.specs.Steps.{fault_or_memory};
ghost use Rattle.batcher_node.specs.declared.answers.Cause.TheVariants.{Vote as ForVote};
ghost use Rattle.batcher_node.specs.declared.answers.Cause.TheVariants.{Signature as ForSignature};
ghost use Rattle.batcher_node.specs.Windows.{is_of, width, contains, numbered};
ghost use Rattle.batcher_node.specs.Events.{peer_in, invalid_in, started, vote_came};
ghost use Rattle.batcher_node.specs.Events.{certificate_came, view_entered, view_finalized};
ghost use Rattle.batcher_node.specs.Events.{constructed, forgery_came, view_history};
ghost use Rattle.batcher_node.specs.Nodes.{SameNode, IsAtRest, IsNext, Draws};
ghost use Rattle.batcher_node.specs.Nodes.{WhyNotEntered, cause_at, slot_at};
ghost use Rattle.batcher_node.specs.Represents.{cast_by, NodeMeets, SimulatesCast};
ghost use Rattle.batcher_node.specs.Represents.{SimulatesForward, NodeRepresents};
ghost use Rattle.batcher_node.specs.Represents.{CertificateMayNeed, ForEachNodeHistory, MayNeedIn};
ghost use Rattle.batcher_node.specs.Represents.{VoteMayNeed, NextMayNeed, config_of};
ghost use Rattle.batcher_node.specs.Represents.{ForSomeNodeHistory, ahead_answer, is_heard};
ghost use Rattle.batcher_node.specs.Verdicts.{GivesByVerdicts};
ghost use Rattle.batcher_node.specs.NodePromises.{HadGivenCause, IsComplete, KeepsPromises};

use crate::answers::{Ahead, Cast, Cause, EnterFault, Receipt, Verdict};
use crate::due::Due;
use crate::rounds::Rounds;
use crate::step::{self, Heard, Led, Verified};
use crate::views::Views;
use crate::window::Window;
use batcher::messages::{
    Activity, Attestation, Certificate, Digest, Identical, Proposal, Subject, Vote,
};
use batcher::positions::{Epoch, Participant, View};
use batcher::round::{Admission, BlockReason, OwnFault, Round, RoundConfigs};
use batcher::scheme::Scheme;
use batcher::verifier::Batch;
use batcher::votes::Outcome;
use rand_core::CryptoRng;
use std::alloc::{AllocError, Global};
use std::collections::BTreeMap;
use std::fmt;
use std::marker::Model;
use std::rc::Rc;

/// The configurations of nodes over a scheme. Every scheme has them, and they add nothing:
/// contracts name by them the scheme and the epoch of a node, and whether its rounds retain votes.
pub trait NodeConfigs<D: Digest>: Scheme<D> {
    ghost use Rattle.batcher_node.specs.Nodes.{NodeView, NodeConfig};

    ghost of: { NodeView Self Self.Signature D
        → NodeConfig D Self.PublicKey Self.Signature Self.Certificate };
}

impl<D: Digest, S: Scheme<D>> NodeConfigs<D> for S {
    ghost use Rattle.batcher_node.specs.Nodes.{node_config};

    ghost of = { node_config S.meaning S.PublicKey.cmp S.Signature.eq D.eq };
}

/// A validator's rounds, over the views of its window.
#[derive(Drop)]
pub struct Node<S: Scheme<D>, D: Digest> {
    rounds: Rounds<S, D>,
    /// Why each participant is blocked, if it is. So who is blocked later needs no memory.
    blocked: Vec<Option<Cause>>,
}

impl<S: Scheme<D>, D: Digest> Model for Node<S, D> {
    ghost use Rattle.batcher_node.specs.Nodes.{NodeView};
    ghost use Rattle.std.specs.BinaryHeap.{heap_items, heap_capacity};
    ghost use Rattle.batcher_node.specs.Due.{ListsChanged};
    ghost use Rattle.batcher_node.specs.Represents.{IsNode};

    ghost Value = { NodeView S S.Signature D };

    ghost view = { λ n. record {
      scheme = n.rounds.scheme.value;
      epoch = n.rounds.epoch;
      retains = n.rounds.retains;
      window = n.rounds.window;
      rounds = n.rounds.slots.entries;
      blocked = n.blocked.items;
    } };

    ghost invariant = { λ n. (IsNode S.meaning S.PublicKey.cmp S.Signature.eq D.eq (record {
      scheme = n.rounds.scheme.value;
      epoch = n.rounds.epoch;
      retains = n.rounds.retains;
      window = n.rounds.window;
      rounds = n.rounds.slots.entries;
      blocked = n.blocked.items;
    })) × (ListsChanged (heap_items n.rounds.due.views) (heap_capacity n.rounds.due.views)
        n.rounds.slots.entries) };
}

/// A construction in a view.
#[derive(Debug, Drop)]
pub struct Construction<C, D> {
    pub view: View,
    pub batch: Option<Batch<Certificate<C, D>>>,
}

impl<S: Scheme<D>, D: Digest> Node<S, D> {
    /// A new node, with `finalized` as its current view. It takes memory for why
    /// each participant is blocked.
    ///
    /// The window goes from the finalized view to so many beyond the current one.
    pub fn new(
        alloc: Global,
        epoch: Epoch,
        scheme: Rc<S>,
        finalized: View,
        ahead: u64,
        track_historical_votes: bool,
    ) -> Result<Self, AllocError>
        requires { 1 ≤ length (S.meaning scheme.value).participants }
        ensures scheme { IfOk result (λ node. node.scheme ≡ scheme.value) }
        ensures epoch { IfOk result (λ node. node.epoch ≡ epoch) }
        ensures retains { IfOk result (λ node. node.retains ≡ track_historical_votes) }
        ensures window { IfOk result (λ node. node.window ≡ record {
          finalized = finalized.0;
          current = finalized.0;
          ahead = ahead;
        }) }
        ensures represents { IfOk result (λ node. NodeRepresents (⟦<S as NodeConfigs<D>>⟧.of node)
            (started node.window ∷ []) node) }
    {
        let blocked = none_blocked(alloc, scheme.participants().len())?;
        Ok(Node {
            rounds: Rounds {
                alloc,
                scheme,
                epoch,
                retains: track_historical_votes,
                window: Window {
                    finalized: finalized.0,
                    current: finalized.0,
                    ahead,
                },
                slots: BTreeMap::new(alloc),
                due: Due::new(alloc),
            },
            blocked,
        })
    }

    /// Takes in a vote that a peer sent, in the round of its view.
    ///
    /// Where the vote gives cause for it, the peer is blocked from then on. A refusal for memory
    /// leaves the node as it was.
    pub fn receive_vote(
        &mut self,
        peer: S::PublicKey,
        vote: Vote<S::Signature, D>,
    ) -> Result<Receipt<Admission<S::Signature, D>>, AllocError>
        ensures meets { IfOk result
            (λ receipt. NodeMeets (⟦<S as NodeConfigs<D>>⟧.of self.old) self.old
            (vote_came peer vote receipt) self.new) }
        ensures outside_stays { result ≡ Ok Receipt.Outside → self.new ≡ self.old }
        ensures dropped_stays { result ≡ Ok Receipt.Dropped → self.new ≡ self.old }
        ensures unknown_stays { result ≡ Ok Receipt.Unknown → self.new ≡ self.old }
        ensures needed { OnErr result
            (VoteMayNeed (⟦<S as NodeConfigs<D>>⟧.of self.old) self.old peer vote) }
        ensures refused { OnErr result (self.new ≡ self.old) }
        ensures same { SameNode self.old self.new }
    {
        let Some(sender) = self.sender(&peer) else {
            return Ok(Receipt::Unknown);
        };
        if is_blocked(self.blocked.as_slice(), sender) {
            return Ok(Receipt::Dropped);
        }
        let number = vote.round();
        if !self.rounds.contains(number) {
            return Ok(Receipt::Outside);
        }
        let admission = self.rounds.call(number.view.0, Heard { peer, vote })??;
        block_for_vote(&mut self.blocked, sender, admission.block);
        Ok(Receipt::Answered(admission))
    }

    /// Takes in a certificate that a peer sent: it is verified, and recorded in the round of its
    /// view. Where that has one of its kind, it isn't verified, and nothing changes.
    ///
    /// Where it doesn't certify what it names, the peer is blocked from then on, which takes no
    /// memory. A refusal for memory leaves the node as it was.
    pub fn receive_certificate(
        &mut self,
        peer: S::PublicKey,
        certificate: &Certificate<S::Certificate, D>,
    ) -> Result<Receipt<Verdict>, AllocError>
        ensures meets { IfOk result
            (λ receipt. NodeMeets (⟦<S as NodeConfigs<D>>⟧.of self.old) self.old
            (certificate_came peer certificate.now receipt) self.new) }
        ensures outside_stays { result ≡ Ok Receipt.Outside → self.new ≡ self.old }
        ensures dropped_stays { result ≡ Ok Receipt.Dropped → self.new ≡ self.old }
        ensures unknown_stays { result ≡ Ok Receipt.Unknown → self.new ≡ self.old }
        ensures known_stays { result ≡ Ok (Receipt.Answered Verdict.Known) → self.new ≡ self.old }
        ensures needed { OnErr result (CertificateMayNeed (⟦<S as NodeConfigs<D>>⟧.of self.old)
            self.old peer certificate.now) }
        ensures refused { OnErr result (self.new ≡ self.old) }
        ensures same { SameNode self.old self.new }
    {
        let Some(sender) = self.sender(&peer) else {
            return Ok(Receipt::Unknown);
        };
        if is_blocked(self.blocked.as_slice(), sender) {
            return Ok(Receipt::Dropped);
        }
        let number = certificate.round();
        if !self.rounds.contains(number) {
            return Ok(Receipt::Outside);
        }
        let view = number.view.0;
        if self.rounds.has_certificate(view, certificate.kind()) {
            return Ok(Receipt::Answered(Verdict::Known));
        }
        if !self.rounds.verifies(certificate) {
            block(&mut self.blocked, sender, Cause::Certificate);
            return Ok(Receipt::Answered(Verdict::Forged));
        }
        let changed = self.rounds.call(view, Verified { certificate })??;
        Ok(Receipt::Answered(Verdict::Recorded(changed)))
    }

    /// Takes in a certificate from beyond the window that a peer sent. It is verified, so that who
    /// fell behind may go on by it, and not recorded. Another isn't looked at.
    ///
    /// Where it doesn't certify what it names, the peer is blocked from then on. It takes no
    /// memory.
    pub fn receive_ahead(
        &mut self,
        peer: S::PublicKey,
        certificate: &Certificate<S::Certificate, D>,
    ) -> Receipt<Ahead>
        ensures answer { result ≡ ahead_answer (⟦<S as NodeConfigs<D>>⟧.of self.old) self.old peer
            certificate.now }
        ensures forged { result ≡ Receipt.Answered Ahead.Forged
            → NodeMeets (⟦<S as NodeConfigs<D>>⟧.of self.old) self.old
            (forgery_came peer certificate.now) self.new }
        ensures stays { result ≢ Receipt.Answered Ahead.Forged → self.new ≡ self.old }
        ensures rest { self.new ≡ record self.old { blocked = self.new.blocked } }
    {
        let Some(who) = self.sender(&peer) else {
            return Receipt::Unknown;
        };
        if is_blocked(self.blocked.as_slice(), who) {
            return Receipt::Dropped;
        }
        if !self.rounds.is_ahead(certificate.round()) {
            return Receipt::Outside;
        }
        if self.rounds.verifies(certificate) {
            return Receipt::Answered(Ahead::Certified);
        }
        block(&mut self.blocked, who, Cause::Certificate);
        Receipt::Answered(Ahead::Forged)
    }

    /// Takes in a vote of the node's own, which attests, and says whether it is to be sent. A
    /// refusal, also one for memory, leaves the node as it was.
    pub fn cast_vote(
        &mut self,
        vote: Vote<S::Signature, D>,
    ) -> Result<Cast<S::Signature, D>, OwnFault>
        requires { (S.meaning self.old.scheme).attests (subject_of vote) (attestation_of vote)
            ≡ true }
        ensures meets { IfOk result (λ cast. SimulatesCast
            (⟦<S as NodeConfigs<D>>⟧.of self.old) self.old
            vote cast self.new) }
        ensures named { IfErr result (λ fault. ForEachNodeHistory
            (⟦<S as NodeConfigs<D>>⟧.of self.old) self.old (λ past.
            let view = (round_in (subject_of vote)).view.0 in
            fault ≡ fault_or_memory (own_answer (config_of (⟦<S as NodeConfigs<D>>⟧.of self.old)
            past view) (view_history view past) vote))) }
        ensures within { OnErr result
            (is_of self.old.epoch self.old.window (round_in (subject_of vote)) ≡ true) }
        ensures needed { result ≡ Err OwnFault.OutOfMemory
            → MayNeedIn (⟦<S as NodeConfigs<D>>⟧.of self.old) self.old
            (round_in (subject_of vote)).view.0 (OwnCall vote) }
        ensures refused { OnErr result (self.new ≡ self.old) }
        ensures same { SameNode self.old self.new }
    {
        let number = vote.round();
        if !self.rounds.contains(number) {
            return Ok(Cast::Outside);
        }
        let answer = self.rounds.call(number.view.0, step::Cast { vote })??;
        Ok(cast_by(answer.1))
    }

    /// Enters a view with its leader. Views that are passed over by it, and in which nothing was
    /// said, get skipped rounds where something is. A refusal leaves the node as it was.
    pub fn enter(&mut self, view: View, leader: Participant) -> Result<(), EnterFault>
        ensures meets { OnOk result (NodeMeets (⟦<S as NodeConfigs<D>>⟧.of self.old) self.old
            (view_entered view.0 leader) self.new) }
        ensures passed { view.0 < self.old.window.finalized → result ≡ Err EnterFault.Passed }
        ensures why { IfErr result (WhyNotEntered self.old view.0 leader) }
        ensures refused { OnErr result (self.new ≡ self.old) }
        ensures same { SameNode self.old self.new }
    {
        if view.0 < self.rounds.window.finalized {
            return Err(EnterFault::Passed);
        }
        self.rounds.call(view.0, Led { leader })??;
        self.rounds.window.enter(view.0);
        Ok(())
    }

    /// A view was finalized: the rounds before it are dropped, and the window begins with it. It
    /// takes no memory.
    pub fn finalize(&mut self, view: View)
        ensures meets { NodeMeets (⟦<S as NodeConfigs<D>>⟧.of self.old) self.old
            (view_finalized view.0) self.new }
        ensures dropped { (other : ℕ) → other < view.0 → slot_at self.new.rounds other ≡ None }
        ensures same { SameNode self.old self.new }
    {
        self.rounds.finalize(view.0);
    }

    /// Makes one construction, in the lowest view that changed since it was found to rest, and
    /// answers the view with its batch, if it gives one. It answers nothing where all views rest.
    /// Whose votes the batch found not to attest is blocked from then on.
    ///
    /// A fourth construction in a row gives no batch, so a caller goes on until there is no
    /// answer. A refusal for memory leaves the node as it was; only the generator may have moved.
    pub fn try_construct<R: CryptoRng>(
        &mut self,
        rng: &mut R,
    ) -> Result<Option<Construction<S::Certificate, D>>, AllocError>
        ensures meets { IfOk result (λ made. IfSome made (λ one.
            NodeMeets (⟦<S as NodeConfigs<D>>⟧.of self.old) self.old
            (constructed one.view.0 one.batch) self.new)) }
        ensures next { IfOk result (λ made. IfSome made (λ one.
            IsNext self.old.rounds one.view.0)) }
        ensures rests { result ≡ Ok None → (self.new ≡ self.old) × (IsAtRest self.old) }
        ensures complete { result ≡ Ok None
            → ForEachNodeHistory (⟦<S as NodeConfigs<D>>⟧.of self.new) self.new
            (λ past. IsComplete (⟦<S as NodeConfigs<D>>⟧.of self.new) past self.new) }
        ensures draws { IfOk result (λ made. IfSome made (λ one. Draws ⟦<S as RoundConfigs<D>>⟧.of
            (slot_at self.old.rounds) (slot_at self.new.rounds) one.view.0
            (R.stream rng.old) one.batch (R.stream rng.new))) }
        ensures draws_nothing { result ≡ Ok None → R.stream rng.new ≡ R.stream rng.old }
        ensures needed { OnErr result
            (NextMayNeed (⟦<S as NodeConfigs<D>>⟧.of self.old) self.old) }
        ensures refused { OnErr result (self.new ≡ self.old) }
        ensures same { SameNode self.old self.new }
    {
        let Some(number) = self.rounds.next() else {
            self.promises();
            return Ok(None);
        };
        let Some(batch) = self.rounds.try_construct(number, rng)? else {
            return Ok(None);
        };
        block_named(&mut self.blocked, &batch);
        let view = View(number);
        Ok(Some(Construction { view, batch }))
    }

    /// The selected proposal of a view, to be handed on by participant `me`: once at most, and not
    /// where the leader of the view that was named is `me`. It takes no memory.
    pub fn try_forward_proposal(&mut self, view: View, me: Participant) -> Option<Proposal<D>>
        ensures meets { SimulatesForward (⟦<S as NodeConfigs<D>>⟧.of self.old) self.old view.0 me
            result
            self.new }
        ensures same { SameNode self.old self.new }
    {
        match self.rounds.try_forward_proposal(view.0, me) {
            Some(proposal) => proposal,
            None => None,
        }
    }

    /// Whether the certificate certifies what it names, by the node's scheme: also of a view or an
    /// epoch that the node doesn't look at, so that one who fell behind may learn what is final.
    pub fn verifies(&self, certificate: &Certificate<S::Certificate, D>) -> bool
        ensures { result ≡ certifies_itself (S.meaning self.now.scheme) certificate.now }
    {
        self.rounds.verifies(certificate)
    }

    /// Whether what the peer sends is looked at: it takes part and isn't blocked. A certificate of
    /// another peer needn't be verified before it is handed in.
    pub fn is_heard(&self, peer: &S::PublicKey) -> bool
        ensures { result ≡ is_heard (⟦<S as NodeConfigs<D>>⟧.of self.now) self.now
            (peer_in (⟦<S as NodeConfigs<D>>⟧.of self.now) peer.now) }
    {
        match self.sender(peer) {
            Some(sender) => !is_blocked(self.blocked.as_slice(), sender),
            None => false,
        }
    }

    /// The lowest view that changed since it was found to rest, in which the next construction is
    /// made. None where all views rest.
    pub fn next_view(&self) -> Option<View>
        ensures next { IfSome result (λ view. IsNext self.now.rounds view.0) }
        ensures none { IfNone result (IsAtRest self.now) }
    {
        match self.rounds.next() {
            Some(number) => Some(View(number)),
            None => None,
        }
    }

    /// Which views it keeps rounds of.
    pub fn window(&self) -> Window
        ensures { result ≡ self.now.window }
    {
        self.rounds.window
    }

    /// How many rounds it keeps: no more than its window has views, whatever was sent.
    pub fn rounds_kept(&self) -> usize
        ensures count { result ≡ length self.now.rounds }
        ensures bound { result ≤ width self.now.window }
    {
        self.rounds.slots.len()
    }

    /// The views that it keeps a round of, in ascending order.
    pub fn views(&self) -> Views<'_, Round<S, D>>
        ensures each { (view : ℕ) → list_any (λ v. v == view) result
            ≡ is_some (slot_at self.now.rounds view) }
        ensures ascending { IsStrictlySortedBy nat_cmp result }
    {
        let keys = self.rounds.slots.keys();
        Views { keys }
    }

    /// Why each participant is blocked, if it is, by its index: for what it did in each history
    /// that the node represents, and so in that of the calls which were made.
    pub fn blocked(&self) -> &[Option<Cause>]
        ensures list { result.now ≡ self.now.blocked }
        ensures cause { ForEachNodeHistory (⟦<S as NodeConfigs<D>>⟧.of self.now) self.now
            (λ past. (i : ℕ) → IfSome (cause_at result.now i)
            (HadGivenCause (⟦<S as NodeConfigs<D>>⟧.of self.now) past i)) }
    {
        self.promises();
        self.blocked.as_slice()
    }

    /// Does nothing. Its contract says that all that is promised holds of each history that the
    /// node represents, and that there is one. So it holds of the history of the calls which were
    /// made: each call's `meets` says that the node represents it.
    pub fn promises(&self)
        ensures each { ForEachNodeHistory (⟦<S as NodeConfigs<D>>⟧.of self.now) self.now
            (λ past. KeepsPromises (⟦<S as NodeConfigs<D>>⟧.of self.now) past self.now) }
        ensures some { ForSomeNodeHistory (⟦<S as NodeConfigs<D>>⟧.of self.now) self.now
            (λ past. KeepsPromises (⟦<S as NodeConfigs<D>>⟧.of self.now) past self.now) }
    {
        self.rounds.promises();
    }

    // The participant with the key.
    fn sender(&self, peer: &S::PublicKey) -> Option<Participant>
        ensures peer { result ≡ peer_in (⟦<S as NodeConfigs<D>>⟧.of self.now) peer.now }
        ensures in_range { IfSome result (λ p. p.0 < length self.now.blocked) }
    {
        self.rounds.scheme.participants().index(peer)
    }

    /// The round of the view, if something was said in it.
    pub fn round(&self, view: View) -> Option<&Round<S, D>>
        ensures round { option_copied result
            ≡ option_map (λ slot. slot.round) (slot_at self.now.rounds view.0) }
        ensures own { IfSome result (λ round. (round.now.scheme ≡ self.now.scheme)
            × ((round.now.number ≡ numbered self.now.epoch view.0)
            × (contains self.now.window view.0 ≡ true))) }
    {
        match self.rounds.slots.get(&view.0) {
            Some(slot) => Some(&slot.round),
            None => None,
        }
    }
}

impl<S: Scheme<D>, D: Digest> Node<S, D>
where
    S::Signature: Identical,
{
    /// Makes the construction of the next view by verdicts from elsewhere, on the pending
    /// attestations that the `next_attempt` of its round lends. It is a construction like any
    /// other, and draws nothing.
    ///
    /// None where the subject and the list aren't those of that attempt, as where a vote came
    /// meanwhile or a lower view is next: then nothing changes. A refusal for memory leaves the
    /// node as it was.
    pub fn conclude(
        &mut self,
        subject: Subject<D>,
        list: &[Attestation<S::Signature>],
        verdicts: &[bool],
    ) -> Result<Option<Construction<S::Certificate, D>>, AllocError>
        requires { verdicts.now ≡ map ((S.meaning self.old.scheme).attests subject) list.now }
        ensures meets { IfGiven result
            (λ one. NodeMeets (⟦<S as NodeConfigs<D>>⟧.of self.old) self.old
            (constructed one.view.0 one.batch) self.new) }
        ensures given { GivesByVerdicts (S.meaning self.old.scheme) ⟦<S as RoundConfigs<D>>⟧.of
            self.old.rounds subject list.now result }
        ensures stale { result ≡ Ok None → self.new ≡ self.old }
        ensures needed { OnErr result
            (NextMayNeed (⟦<S as NodeConfigs<D>>⟧.of self.old) self.old) }
        ensures refused { OnErr result (self.new ≡ self.old) }
        ensures same { SameNode self.old self.new }
    {
        let Some(next) = self.rounds.next() else {
            return Ok(None);
        };
        let Some(batch) = self.rounds.conclude(next, subject, list, verdicts)? else {
            return Ok(None);
        };
        let (view, batch) = (View(next), Some(batch));
        block_named(&mut self.blocked, &batch);
        Ok(Some(Construction { view, batch }))
    }
}

impl<S: Scheme<D>, D: Digest + fmt::Debug> fmt::Debug for Node<S, D> {
    /// Its epoch and window, the rounds of its views, and why each participant is blocked.
    fn fmt<W: fmt::Write>(&self, f: &mut fmt::Formatter<W>) -> fmt::Result {
        f.debug_struct("Node")
            .field("epoch", &self.rounds.epoch)
            .field("window", &self.rounds.window)
            .field("rounds", &self.rounds.slots)
            .field("blocked", &self.blocked)
            .finish_non_exhaustive()
    }
}

// What became of an own vote, by what is reported of it.
fn cast_by<G, D>(report: Option<Activity<G, D>>) -> Cast<G, D>
    ensures { result ≡ cast_by report }
{
    match report {
        Some(report) => Cast::ToSend(report),
        None => Cast::Known,
    }
}

// That none of so many participants is blocked.
fn none_blocked(alloc: Global, participants: usize) -> Result<Vec<Option<Cause>>, AllocError>
    ensures each { IfOk result (λ blocked. length blocked.items ≡ participants) }
    ensures none { IfOk result (λ blocked. (i : ℕ) → cause_at blocked.items i ≡ None) }
{
    let mut blocked = Vec::new(alloc);
    blocked.resize(participants, None)?;
    Ok(blocked)
}

// Whether the participant is blocked.
fn is_blocked(blocked: &[Option<Cause>], participant: Participant) -> bool
    ensures { result ≡ is_some (cause_at blocked.now participant.0) }
{
    match blocked.get(participant.0 as usize) {
        Some(cause) => cause.is_some(),
        None => false,
    }
}

// Blocks the participant, unless it is blocked.
fn block(blocked: &mut Vec<Option<Cause>>, participant: Participant, cause: Cause)
    ensures each { length blocked.new.items ≡ length blocked.old.items }
    ensures blocks { (i : ℕ) → i < length blocked.old.items → cause_at blocked.new.items i
        ≡ option_or (cause_at blocked.old.items i) (cond (participant.0 == i) (Some cause) None) }
{
    if is_blocked(blocked.as_slice(), participant) {
        return;
    }
    let place = participant.0 as usize;
    if place < blocked.len() {
        blocked[place] = Some(cause);
    }
}

// Blocks it where there is a reason.
fn block_for_vote(
    blocked: &mut Vec<Option<Cause>>,
    participant: Participant,
    reason: Option<BlockReason>,
)
    ensures each { length blocked.new.items ≡ length blocked.old.items }
    ensures blocks { (i : ℕ) → i < length blocked.old.items → cause_at blocked.new.items i
        ≡ option_or (cause_at blocked.old.items i)
        (cond (participant.0 == i) (option_map ForVote reason) None) }
{
    if let Some(reason) = reason {
        block(blocked, participant, Cause::Vote(reason));
    }
}

// Blocks whom a batch names.
fn block_named<C>(blocked: &mut Vec<Option<Cause>>, given: &Option<Batch<C>>)
    ensures each { length blocked.new.items ≡ length blocked.old.items }
    ensures blocks { (i : ℕ) → i < length blocked.old.items → cause_at blocked.new.items i
        ≡ option_or (cause_at blocked.old.items i)
        (cond (list_any (λ p. p.0 == i) (invalid_in given.now)) (Some ForSignature) None) }
{
    if let Some(batch) = given {
        block_signers(blocked, batch.invalid.as_slice());
    }
}

// Blocks each of the signers, unless it is blocked.
fn block_signers(blocked: &mut Vec<Option<Cause>>, signers: &[Participant])
    ensures each { length blocked.new.items ≡ length blocked.old.items }
    ensures blocks { (i : ℕ) → i < length blocked.old.items → cause_at blocked.new.items i
        ≡ option_or (cause_at blocked.old.items i)
        (cond (list_any (λ p. p.0 == i) signers.now) (Some ForSignature) None) }
{
    for signer in signers {
        block(blocked, *signer, Cause::Signature);
    }
}
