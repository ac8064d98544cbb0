//! What a voter knows to be certified.

ghost use Rattle.std.specs.Prelude.{◌≡◌, ◌≢◌, ◌≤◌, ◌<◌, [], IfSome, MatchBool, MatchOption, None};
ghost use Rattle.std.specs.Prelude.{OnErr, OnOk, Some, false, is_some, true, ℕ};
ghost use Rattle.std.specs.BTreeMap.{get};
ghost use Rattle.std.specs.Ordering.{nat_cmp};
ghost use Rattle.batcher.specs.Votes.{round_in, same_proposal};
ghost use Rattle.batcher.specs.messages.Subject.TheVariants.{Notarize};
ghost use Rattle.batcher_agreement.specs.Policy.{Conduct, Knows};
ghost use Rattle.batcher_voter.specs.Keeping.{HasOf};
ghost use Rattle.batcher_voter.specs.Knowledge.{AreNullified, Forgets, HasLearned, HaveNoParent};
ghost use Rattle.batcher_voter.specs.Knowledge.{HasRoom, IsHighest, IsParent, SameKnowledge};
ghost use Rattle.batcher_voter.specs.Knowledge.{Learns, learned_at, with_learned};
ghost use Rattle.batcher_voter.specs.Refusals.{HasGround, HasNoGround, IsNotNotarized};

use crate::answers::Rule;
use batcher::messages::{Digest, Proposal, Subject};
use batcher::positions::{Epoch, View};
use std::alloc::{AllocError, Global};
use std::collections::BTreeMap;
use std::marker::Model;

/// What is certified of a view.
#[derive(Clone, Copy, Debug)]
pub(crate) struct Learned<D> {
    pub(crate) notarized: Option<Proposal<D>>,
    pub(crate) nullified: bool,
    pub(crate) finalized: Option<Proposal<D>>,
}

impl<D: Copy> Learned<D> {
    // With a certificate of this.
    fn with(self, subject: Subject<D>) -> Self
        ensures { result ≡ with_learned subject self }
    {
        let mut learned = self;
        match subject {
            Subject::Notarize { proposal } => learned.notarized = Some(proposal),
            Subject::Nullify { .. } => learned.nullified = true,
            Subject::Finalize { proposal } => learned.finalized = Some(proposal),
        }
        learned
    }
}

/// What is certified of the views of an epoch, from the floor on.
#[derive(Drop)]
pub(crate) struct Knowledge<D: Digest> {
    epoch: Epoch,
    floor: u64,
    highest: u64,
    views: BTreeMap<u64, Learned<D>>,
    // The views from this one on are known to be nullified, ..
    nullified_from: u64,
    // .. as far as this one, which needn't be.
    nullified_to: u64,
    // No view above this one is a parent.
    last_parent: u64,
}

impl<D: Digest> Model for Knowledge<D> {
    ghost use Rattle.batcher_voter.specs.Knowledge.{AreNoted, KnowledgeView};

    ghost Value = { KnowledgeView D };

    ghost view = { λ k. record {
      epoch = k.epoch;
      floor = k.floor;
      highest = k.highest;
      views = k.views.entries;
    } };

    ghost invariant = { λ k. AreNoted k.nullified_from k.nullified_to k.last_parent (record {
      epoch = k.epoch;
      floor = k.floor;
      highest = k.highest;
      views = k.views.entries;
    }) };
}

impl<D: Digest> Knowledge<D> {
    pub(crate) fn new(alloc: Global, epoch: Epoch, floor: u64) -> Self
        ensures nothing { HasLearned result [] }
        ensures highest { IsHighest result [] }
        ensures floor { result.floor ≡ floor }
        ensures epoch { result.epoch ≡ epoch }
    {
        Knowledge {
            epoch,
            floor,
            highest: floor,
            views: BTreeMap::new(alloc),
            nullified_from: floor,
            nullified_to: floor,
            last_parent: floor,
        }
    }

    /// The first view of which something is known.
    pub(crate) fn floor(&self) -> u64
        ensures { result ≡ self.now.floor }
    {
        self.floor
    }

    pub(crate) fn epoch(&self) -> Epoch
        ensures { result ≡ self.now.epoch }
    {
        self.epoch
    }

    /// The highest view of which a certificate is known, or the floor.
    pub(crate) fn highest(&self) -> u64
        ensures { result ≡ self.now.highest }
    {
        self.highest
    }

    /// What is certified of a view.
    pub(crate) fn at(&self, view: u64) -> Learned<D>
        ensures { result ≡ learned_at self.now view }
    {
        match self.views.get(&view) {
            Some(learned) => *learned,
            None => Learned {
                notarized: None,
                nullified: false,
                finalized: None,
            },
        }
    }

    /// Makes room for what may be learned of a view.
    pub(crate) fn make_room(&mut self, view: u64) -> Result<(), AllocError>
        ensures room { OnOk result (HasRoom self.new view) }
        ensures needed { OnErr result (HasRoom self.old view → ⊥) }
        ensures same { SameKnowledge self.old self.new }
    {
        if self.views.contains_key(&view) {
            return Ok(());
        }
        let nothing = self.at(view);
        let _ = self.views.insert(view, nothing)?;
        Ok(())
    }

    /// A certificate of this is there, of a view for which there is room. It takes no memory.
    pub(crate) fn learn(&mut self, subject: Subject<D>)
        requires { HasRoom self.old (round_in subject).view.0 }
        ensures { Learns subject self.old self.new }
    {
        self.put(subject);
        self.note_nullified(subject.round().view.0);
    }

    fn put(&mut self, subject: Subject<D>)
        requires { HasRoom self.old (round_in subject).view.0 }
        ensures { Learns subject self.old self.new }
    {
        let view = subject.round().view.0;
        let learned = self.at(view).with(subject);
        self.highest = self.highest.max(view);
        self.last_parent = last_parent_with(self.last_parent, view, &learned);
        match self.views.insert(view, learned) {
            Ok(_) => {}
            Err(_) => {}
        }
    }

    // Notes which views are nullified behind those of which that is noted. Where one isn't, and a
    // view above the last parent is, it begins behind that parent: it is there that a proposal
    // needs it.
    fn note_nullified(&mut self, view: u64)
        ensures { self.new ≡ self.old }
    {
        let end = self.nullified_until(self.nullified_to);
        let parent = self.last_parent;
        if end <= parent && parent < view {
            self.nullified_from = parent + 1;
            self.nullified_to = parent + 1;
        } else {
            self.nullified_to = end;
        }
    }

    // The first view from this one on, or before the highest one, that isn't known to be nullified.
    fn nullified_until(&self, first: u64) -> u64
        ensures from { first ≤ result }
        ensures nullified { (view : ℕ) → first ≤ view → view < result
            → (learned_at self.now view).nullified ≡ true }
    {
        for view in first..self.highest() {
            if !self.at(view).nullified {
                return view;
            }
        }
        first.max(self.highest())
    }

    /// Whether this is known to be certified, and of what is final, whether one of its view is.
    pub(crate) fn has(&self, subject: &Subject<D>) -> bool
        ensures { MatchBool result
            (HasOf (learned_at self.now (round_in subject.now).view.0) subject.now)
            (HasOf (learned_at self.now (round_in subject.now).view.0) subject.now → ⊥) }
    {
        let learned = self.at(subject.round().view.0);
        match subject {
            Subject::Notarize { proposal } => is_held(&learned.notarized, proposal),
            Subject::Nullify { .. } => learned.nullified,
            Subject::Finalize { .. } => learned.finalized.is_some(),
        }
    }

    /// Forgets the views before this one.
    pub(crate) fn forget_before(&mut self, view: u64)
        ensures { Forgets view self.old self.new }
    {
        self.floor = self.floor.max(view);
        self.highest = self.highest.max(view);
        self.nullified_from = self.nullified_from.max(view);
        self.last_parent = self.last_parent.max(view);
        drop_before(&mut self.views, view);
    }

    /// Whether this proposal is known to be notarized.
    pub(crate) fn is_notarized(&self, proposal: &Proposal<D>) -> bool
        requires epoch { proposal.now.round.epoch ≡ self.now.epoch }
        requires kept { self.now.floor ≤ proposal.now.round.view.0 }
        ensures known { (past : Conduct D) → HasLearned self.now past → MatchBool result
            (Knows past (Notarize proposal.now)) (IsNotNotarized past proposal.now) }
        ensures held { (learned_at self.now proposal.now.round.view.0).notarized
            ≡ Some proposal.now → result ≡ true }
    {
        match self.at(proposal.round.view.0).notarized {
            Some(known) => are_same(&known, proposal),
            None => false,
        }
    }

    /// Why a proposal has no ground, if it has none.
    pub(crate) fn why_no_ground<G>(&self, proposal: &Proposal<D>) -> Option<Rule<G, D>>
        requires epoch { proposal.now.round.epoch ≡ self.now.epoch }
        ensures { (past : Conduct D) → HasLearned self.now past → MatchOption result
            (HasGround past self.now.floor proposal.now)
            (λ rule. HasNoGround past self.now.floor rule proposal.now) }
    {
        let parent = proposal.parent;
        if proposal.round.view.0 <= parent.0 {
            return Some(Rule::ParentNotEarlier);
        }
        if parent.0 < self.floor() {
            return Some(Rule::ParentBeforeFinal);
        }
        if !self.is_parent(parent.0) {
            return Some(Rule::ParentUnknown);
        }
        match self.gap(parent.0, proposal.round.view.0) {
            Some(view) => Some(Rule::ViewNotNullified(View(view))),
            None => None,
        }
    }

    /// The highest view below this one on which a proposal of it has ground.
    pub(crate) fn parent_below(&self, view: u64) -> Option<u64>
        ensures some { IfSome result (λ parent. (parent < view) × ((self.now.floor ≤ parent)
            × (IsParent self.now parent × (AreNullified self.now parent view
            × HaveNoParent self.now parent view)))) }
        ensures none { result ≡ None → (parent : ℕ) → self.now.floor ≤ parent → parent < view
            → IsParent self.now parent → AreNullified self.now parent view → ⊥ }
    {
        let last = self.last_parent();
        if last < view && self.floor() <= last && self.is_parent(last) {
            return match self.gap(last, view) {
                Some(_) => None,
                None => Some(last),
            };
        }
        self.walk_below(view)
    }

    /// No view above this one is a parent.
    pub(crate) fn last_parent(&self) -> u64
        ensures none { (view : ℕ) → result < view → IsParent self.now view → ⊥ }
        ensures from_floor { self.now.floor ≤ result }
    {
        self.last_parent
    }

    // The same where the last parent isn't below this one, or before the floor.
    fn walk_below(&self, view: u64) -> Option<u64>
        ensures some { IfSome result (λ parent. (parent < view) × ((self.now.floor ≤ parent)
            × (IsParent self.now parent × (AreNullified self.now parent view
            × HaveNoParent self.now parent view)))) }
        ensures none { result ≡ None → (parent : ℕ) → self.now.floor ≤ parent → parent < view
            → IsParent self.now parent → AreNullified self.now parent view → ⊥ }
    {
        let mut below = view;
        while below > self.floor() {
            below -= 1;
            if self.is_parent(below) {
                return Some(below);
            }
            if !self.at(below).nullified {
                return None;
            }
        }
        None
    }

    // Whether a view is the start, or has a proposal that is known to be notarized or final.
    fn is_parent(&self, view: u64) -> bool
        ensures { MatchBool result (IsParent self.now view) (IsParent self.now view → ⊥) }
    {
        if view == 0 {
            return true;
        }
        let learned = self.at(view);
        if learned.notarized.is_some() {
            return true;
        }
        learned.finalized.is_some()
    }

    // A view between the two that isn't known to be nullified.
    fn gap(&self, parent: u64, view: u64) -> Option<u64>
        requires { parent < view }
        ensures some { IfSome result (λ gap. (parent < gap) × ((gap < view)
            × ((learned_at self.now gap).nullified ≡ false))) }
        ensures none { result ≡ None → (between : ℕ) → parent < between → between < view
            → (learned_at self.now between).nullified ≡ true }
    {
        for between in self.behind_noted(parent + 1)..view {
            if !self.at(between).nullified {
                return Some(between);
            }
        }
        None
    }

    // The first view from this one on of which it isn't noted that it is nullified.
    fn behind_noted(&self, first: u64) -> u64
        ensures from { first ≤ result }
        ensures nullified { (view : ℕ) → first ≤ view → view < result
            → (learned_at self.now view).nullified ≡ true }
    {
        if self.nullified_from <= first {
            return first.max(self.nullified_to);
        }
        first
    }
}

// No view above this one is a parent, where this is known of a view, and none was above the last.
fn last_parent_with<D>(last: u64, view: u64, learned: &Learned<D>) -> u64
    ensures from { last ≤ result }
    ensures notarized { is_some learned.now.notarized ≡ true → view ≤ result }
    ensures finalized { is_some learned.now.finalized ≡ true → view ≤ result }
{
    if learned.notarized.is_some() || learned.finalized.is_some() {
        return last.max(view);
    }
    last
}

// Whether it is this proposal.
fn is_held<D: Digest>(held: &Option<Proposal<D>>, proposal: &Proposal<D>) -> bool
    ensures { MatchBool result (held.now ≡ Some proposal.now) (held.now ≢ Some proposal.now) }
{
    match held {
        Some(known) => are_same(known, proposal),
        None => false,
    }
}

// Whether the two are one.
fn are_same<D: Digest>(a: &Proposal<D>, b: &Proposal<D>) -> bool
    ensures { result ≡ same_proposal D.eq a.now b.now }
{
    *a == *b
}

// Drops what is known of the views before this one.
fn drop_before<D: Digest>(views: &mut BTreeMap<u64, Learned<D>>, view: u64)
    ensures { (other : ℕ) → view ≤ other
        → get nat_cmp views.new other ≡ get nat_cmp views.old other }
{
    views.retain(move |number, _| *number >= view);
}
