//! The rounds of a node's views, each of which takes what is said in its view.

ghost use Rattle.std.specs.Prelude.{◌≡◌, ◌≤◌, ◌<◌, ℕ, false, length, [], None, map};
ghost use Rattle.std.specs.Prelude.{is_some, true, Some, Ok, MatchOption, IfOk, IfErr, OnErr};
ghost use Rattle.std.specs.Prelude.{IfSome, IfNone};
ghost use Rattle.std.specs.Ordering.{nat_cmp};
ghost use Rattle.std.specs.BTreeMap.{get};
ghost use Rattle.std.specs.BinaryHeap.{heap_items, heap_capacity};
ghost use Rattle.batcher_node.specs.Due.{ListsChanged};
ghost use Rattle.batcher.specs.calls.Call.TheVariants.{Construct as ConstructCall};
ghost use Rattle.batcher.specs.calls.Call.TheVariants.{Forward as ForwardCall};
ghost use Rattle.batcher.specs.answers.Answer.TheVariants.{Construct as ConstructAnswer};
ghost use Rattle.batcher.specs.answers.Answer.TheVariants.{Forward as ForwardAnswer};
ghost use Rattle.batcher.specs.Runs.{MayCall};
ghost use Rattle.batcher.specs.Represents.{Represents};
ghost use Rattle.batcher.specs.RoundContracts.{ForEachHistory};
ghost use Rattle.batcher.specs.Selection.{is_certified};
ghost use Rattle.batcher.specs.Verifiers.{certifies_itself, IfGiven};
ghost use Rattle.batcher_node.specs.Windows.{is_ahead, is_of, finalized, numbered};
ghost use Rattle.batcher_node.specs.Nodes.{fresh_round, IsNext, IsTended, MakesCall};
ghost use Rattle.batcher_node.specs.Nodes.{MakesCallThere, NeedsThere, Refuses, Draws, HasChanged};
ghost use Rattle.batcher_node.specs.Nodes.{IsAtRest, slot_at};
ghost use Rattle.batcher_node.specs.Verdicts.{LooksAtThere};
ghost use Rattle.batcher.specs.Verdicts.{BatchIsAssembled};
ghost use Rattle.batcher_node.specs.NodePromises.{HoldsOfAll, IsNodePromised, IsComplete};

use crate::due::Due;
use crate::node::NodeConfigs;
use crate::slot::Slot;
use crate::step::Step;
use crate::theorems::nodes_keep_their_promises;
use crate::window::Window;
use batcher::messages::{Attestation, Certificate, Digest, Identical, Kind, Proposal, Subject};
use batcher::positions::{self, Epoch, Participant, View};
use batcher::round::{Round, RoundConfigs};
use batcher::scheme::Scheme;
use batcher::verifier::Batch;
use rand_core::CryptoRng;
use std::alloc::{AllocError, Global};
use std::collections::BTreeMap;
use std::mem::drop;
use std::rc::Rc;

/// The rounds of the views in which something was said, and what they have in common.
#[derive(Drop)]
pub(crate) struct Rounds<S: Scheme<D>, D: Digest> {
    pub(crate) alloc: Global,
    pub(crate) scheme: Rc<S>,
    pub(crate) epoch: Epoch,
    /// Whether rounds keep their votes in full to their end.
    pub(crate) retains: bool,
    pub(crate) window: Window,
    pub(crate) slots: BTreeMap<u64, Slot<Round<S, D>>>,
    /// The views that changed since they were found to rest, so that the next one is found without
    /// a walk over all.
    pub(crate) due: Due,
}

impl<S: Scheme<D>, D: Digest> Rounds<S, D> {
    /// Whether a message of the number is of the epoch, and of a view in the window.
    pub(crate) fn contains(&self, number: positions::Round) -> bool
        ensures { result ≡ is_of self.now.epoch self.now.window number }
    {
        number.epoch == self.epoch && self.window.contains(number.view.0)
    }

    /// Whether a message of the number is of the epoch, and of a view beyond the window.
    pub(crate) fn is_ahead(&self, number: positions::Round) -> bool
        ensures { result ≡ is_ahead self.now.epoch self.now.window number }
    {
        number.epoch == self.epoch && self.window.is_beyond(number.view.0)
    }

    /// Whether the certificate certifies what it names.
    pub(crate) fn verifies(&self, certificate: &Certificate<S::Certificate, D>) -> bool
        ensures { result ≡ certifies_itself (S.meaning self.now.scheme.value) certificate.now }
    {
        self.scheme
            .verify_certificate(certificate.subject(), certificate.content())
    }

    /// Whether the view has a certificate of the kind.
    pub(crate) fn has_certificate(&self, view: u64, kind: Kind) -> bool
        ensures { MatchOption (get nat_cmp self.now.slots view) (result ≡ false) (λ slot.
            ForEachHistory ⟦<S as RoundConfigs<D>>⟧.of slot.round
            (λ _ past. result ≡ is_certified past kind)) }
    {
        match self.slots.get(&view) {
            Some(slot) => slot.round.has_certificate(kind),
            None => false,
        }
    }

    // A round of a view in which nothing was said.
    fn fresh(&self, view: u64) -> Result<Slot<Round<S, D>>, AllocError>
        requires { 1 ≤ length (S.meaning self.now.scheme.value).participants }
        ensures made { IfOk result (λ slot. slot ≡ record {
          round = fresh_round self.now.scheme.value self.now.epoch self.now.retains self.now.window
              view;
          changed = false;
        }) }
        ensures represents { IfOk result (λ slot.
            Represents (⟦<S as RoundConfigs<D>>⟧.of slot.round) [] slot.round.holds) }
    {
        let number = positions::Round::new(self.epoch, View::new(view));
        let mode = self.window.mode(view, self.retains);
        let round = Round::in_mode(self.alloc, number, Rc::clone(&self.scheme)?, mode);
        Ok(Slot {
            round,
            changed: false,
        })
    }

    /// Makes a call in the round of a view. Where there is none, one is made, and kept unless the
    /// call is refused.
    ///
    /// The error is that there is no memory for a round that is made; what the round itself
    /// refuses is in the answer.
    pub(crate) fn call<T: Step<S, D>>(
        &mut self,
        view: u64,
        step: T,
    ) -> Result<Result<T::Answer, T::Fault>, AllocError>
        requires tended { IsTended (length (S.meaning self.old.scheme.value).participants)
            self.old.scheme.value self.old.epoch self.old.window self.old.slots.entries }
        requires listed { ListsChanged (heap_items self.old.due.views)
            (heap_capacity self.old.due.views) self.old.slots.entries }
        requires may { MayCall (S.meaning self.old.scheme.value) (numbered self.old.epoch view)
            (T.call step) }
        ensures listed { ListsChanged (heap_items self.new.due.views)
            (heap_capacity self.new.due.views) self.new.slots.entries }
        ensures makes_call { IfOk result (λ made.
            IfOk made (λ answer. MakesCall ⟦<S as RoundConfigs<D>>⟧.of
            (get nat_cmp self.old.slots) (get nat_cmp self.new.slots) view
            (fresh_round self.old.scheme.value self.old.epoch self.old.retains self.old.window view)
            (T.call step) (T.answered answer))) }
        ensures named { IfOk result (λ made. IfErr made (Refuses ⟦<S as RoundConfigs<D>>⟧.of
            (get nat_cmp self.old.slots view)
            (fresh_round self.old.scheme.value self.old.epoch self.old.retains self.old.window view)
            (T.refuses step))) }
        ensures needed { OnErr result (get nat_cmp self.old.slots view ≡ None) }
        ensures declined { IfOk result (λ made.
            OnErr made (self.new.slots.entries ≡ self.old.slots.entries)) }
        ensures refused { OnErr result (self.new.slots.entries ≡ self.old.slots.entries) }
        ensures same { self.new ≡ record self.old {
          slots = self.new.slots;
          due = self.new.due;
        } }
    {
        match self.slots.get_mut(&view) {
            Some(slot) => {
                let rested = !slot.changed;
                let made = step.make(slot);
                let wakes = rested & slot.changed;
                self.due.wake(view, wakes);
                Ok(made)
            }
            None => {
                let count = self.slots.len() + 1;
                self.due.make_room(count)?;
                let mut slot = self.fresh(view)?;
                match step.make(&mut slot) {
                    Ok(answer) => {
                        let wakes = slot.changed;
                        // What is given up is handed to `drop`, here and below: where `?` drops a
                        // round, each function takes ten seconds more to prove.
                        drop(self.slots.insert(view, slot)?);
                        self.due.wake(view, wakes);
                        Ok(Ok(answer))
                    }
                    Err(fault) => {
                        drop(slot);
                        Ok(Err(fault))
                    }
                }
            }
        }
    }

    /// Lets the round of a view construct. Where it gives no batch, it rests until it is
    /// called again.
    pub(crate) fn try_construct<R: CryptoRng>(
        &mut self,
        view: u64,
        rng: &mut R,
    ) -> Result<Option<Option<Batch<Certificate<S::Certificate, D>>>>, AllocError>
        requires listed { ListsChanged (heap_items self.old.due.views)
            (heap_capacity self.old.due.views) self.old.slots.entries }
        requires next { IsNext self.old.slots.entries view }
        ensures listed { ListsChanged (heap_items self.new.due.views)
            (heap_capacity self.new.due.views) self.new.slots.entries }
        ensures makes_call { IfOk result (λ made.
            IfSome made (λ answer. MakesCallThere ⟦<S as RoundConfigs<D>>⟧.of
            (get nat_cmp self.old.slots) (get nat_cmp self.new.slots) view
            ConstructCall (ConstructAnswer answer))) }
        ensures draws { IfOk result (λ made. IfSome made
            (λ answer. Draws ⟦<S as RoundConfigs<D>>⟧.of
            (get nat_cmp self.old.slots) (get nat_cmp self.new.slots) view
            (R.stream rng.old) answer (R.stream rng.new))) }
        ensures absent { IfOk result (λ made. IfNone made
            (get nat_cmp self.old.slots view ≡ None)) }
        ensures uncalled { IfOk result (λ made. IfNone made
            (self.new.slots.entries ≡ self.old.slots.entries)) }
        ensures needed { OnErr result (NeedsThere ⟦<S as RoundConfigs<D>>⟧.of
            (get nat_cmp self.old.slots view) ConstructCall) }
        ensures refused { OnErr result (self.new.slots.entries ≡ self.old.slots.entries) }
        ensures same { self.new ≡ record self.old {
          slots = self.new.slots;
          due = self.new.due;
        } }
    {
        match self.slots.get_mut(&view) {
            Some(slot) => {
                let batch = slot.round.try_construct(rng)?;
                slot.changed = batch.is_some();
                self.due.rest(batch.is_none());
                Ok(Some(batch))
            }
            None => Ok(None),
        }
    }

    /// Asks the round of a view for the proposal that a participant is to hand on.
    pub(crate) fn try_forward_proposal(
        &mut self,
        view: u64,
        me: Participant,
    ) -> Option<Option<Proposal<D>>>
        requires listed { ListsChanged (heap_items self.old.due.views)
            (heap_capacity self.old.due.views) self.old.slots.entries }
        ensures listed { ListsChanged (heap_items self.new.due.views)
            (heap_capacity self.new.due.views) self.new.slots.entries }
        ensures makes_call { IfSome result (λ answer. MakesCallThere ⟦<S as RoundConfigs<D>>⟧.of
            (get nat_cmp self.old.slots) (get nat_cmp self.new.slots) view
            (ForwardCall me) (ForwardAnswer answer)) }
        ensures absent { IfNone result (get nat_cmp self.old.slots view ≡ None) }
        ensures uncalled { IfNone result (self.new.slots.entries ≡ self.old.slots.entries) }
        ensures same { self.new ≡ record self.old {
          slots = self.new.slots;
          due = self.new.due;
        } }
    {
        match self.slots.get_mut(&view) {
            Some(slot) => Some(slot.round.try_forward_proposal(me)),
            None => None,
        }
    }

    /// The lowest view that changed since it was found to rest.
    pub(crate) fn next(&self) -> Option<u64>
        requires { ListsChanged (heap_items self.now.due.views) (heap_capacity self.now.due.views)
            self.now.slots.entries }
        ensures found { IfSome result (λ view. HasChanged (slot_at self.now.slots.entries view)) }
        ensures lowest { IfSome result (λ view. (lower : ℕ) → lower < view
            → IfSome (slot_at self.now.slots.entries lower) (λ slot. slot.changed ≡ false)) }
        ensures none { IfNone result ((view : ℕ)
            → IfSome (slot_at self.now.slots.entries view) (λ slot. slot.changed ≡ false)) }
    {
        self.due.lowest()
    }

    /// A view was finalized: the rounds before it are dropped.
    pub(crate) fn finalize(&mut self, view: u64)
        requires listed { ListsChanged (heap_items self.old.due.views)
            (heap_capacity self.old.due.views) self.old.slots.entries }
        ensures listed { ListsChanged (heap_items self.new.due.views)
            (heap_capacity self.new.due.views) self.new.slots.entries }
        ensures window { self.new.window ≡ finalized self.old.window view }
        ensures kept { (other : ℕ) → self.new.window.finalized ≤ other
            → slot_at self.new.slots.entries other ≡ slot_at self.old.slots.entries other }
        ensures dropped { (other : ℕ) → other < self.new.window.finalized
            → slot_at self.new.slots.entries other ≡ None }
        ensures same { self.new ≡ record self.old {
          window = self.new.window;
          slots = self.new.slots;
          due = self.new.due;
        } }
    {
        self.window.finalize(view);
        drop_before(&mut self.slots, self.window.finalized);
        self.due.drop_before(self.window.finalized);
    }

    /// Does nothing. Its contract is what `nodes_keep_their_promises` says of all nodes over the
    /// scheme.
    pub(crate) fn promises(&self)
        ensures promised { HoldsOfAll ⟦<S as NodeConfigs<D>>⟧.of (λ s. (S.meaning s).participants)
            (λ past node. IsNodePromised (⟦<S as NodeConfigs<D>>⟧.of node) past) }
        ensures complete { HoldsOfAll ⟦<S as NodeConfigs<D>>⟧.of (λ s. (S.meaning s).participants)
            (λ past node. IsAtRest node
            → IsComplete (⟦<S as NodeConfigs<D>>⟧.of node) past node) }
    {
        nodes_keep_their_promises::<S, D>();
    }
}

impl<S: Scheme<D>, D: Digest> Rounds<S, D>
where
    S::Signature: Identical,
{
    /// Lets the round of a view construct by verdicts from elsewhere.
    pub(crate) fn conclude(
        &mut self,
        view: u64,
        subject: Subject<D>,
        list: &[Attestation<S::Signature>],
        verdicts: &[bool],
    ) -> Result<Option<Batch<Certificate<S::Certificate, D>>>, AllocError>
        requires tended { IsTended (length (S.meaning self.old.scheme.value).participants)
            self.old.scheme.value self.old.epoch self.old.window self.old.slots.entries }
        requires listed { ListsChanged (heap_items self.old.due.views)
            (heap_capacity self.old.due.views) self.old.slots.entries }
        requires next { IsNext self.old.slots.entries view }
        requires verdicts { verdicts.now
            ≡ map ((S.meaning self.old.scheme.value).attests subject) list.now }
        ensures listed { ListsChanged (heap_items self.new.due.views)
            (heap_capacity self.new.due.views) self.new.slots.entries }
        ensures makes_call { IfGiven result (λ batch. MakesCallThere ⟦<S as RoundConfigs<D>>⟧.of
            (get nat_cmp self.old.slots) (get nat_cmp self.new.slots) view
            ConstructCall (ConstructAnswer (Some batch))) }
        ensures looks_at { IfGiven result (λ _. LooksAtThere ⟦<S as RoundConfigs<D>>⟧.of
            (get nat_cmp self.old.slots view) subject list.now) }
        ensures assembled { IfGiven result (BatchIsAssembled
            (S.meaning self.old.scheme.value)) }
        ensures not_stale { LooksAtThere ⟦<S as RoundConfigs<D>>⟧.of
            (get nat_cmp self.old.slots view) subject list.now
            → IfOk result (λ given. is_some given ≡ true) }
        ensures stale { result ≡ Ok None → self.new.slots.entries ≡ self.old.slots.entries }
        ensures needed { OnErr result (NeedsThere ⟦<S as RoundConfigs<D>>⟧.of
            (get nat_cmp self.old.slots view) ConstructCall) }
        ensures refused { OnErr result (self.new.slots.entries ≡ self.old.slots.entries) }
        ensures same { self.new ≡ record self.old {
          slots = self.new.slots;
          due = self.new.due;
        } }
    {
        match self.slots.get_mut(&view) {
            Some(slot) => {
                let Some(batch) = slot.round.conclude(subject, list, verdicts)? else {
                    return Ok(None);
                };
                slot.changed = true;
                Ok(Some(batch))
            }
            None => Ok(None),
        }
    }
}

// Drops the rounds of the views before this one.
fn drop_before<R: Drop>(slots: &mut BTreeMap<u64, Slot<R>>, finalized: u64)
    ensures kept { (view : ℕ) → finalized ≤ view
        → slot_at slots.new.entries view ≡ slot_at slots.old.entries view }
    ensures dropped { (view : ℕ) → view < finalized → slot_at slots.new.entries view ≡ None }
    ensures fewer { length slots.new.entries ≤ length slots.old.entries }
{
    slots.retain(move |view, _| *view >= finalized);
}
