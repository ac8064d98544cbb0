//! Which votes a voter may cast, which view it enters, and on which view it proposes.

ghost use Rattle.std.specs.Prelude.{◌≡◌, ◌<◌, ◌≤◌, ◌+◌, ◌-◌, ◌^◌, ◌++◌, IfSome, MatchBool};
ghost use Rattle.std.specs.Prelude.{MatchOption, None, Some, ℕ, true, false};
ghost use Rattle.batcher.specs.Votes.{round_in};
ghost use Rattle.batcher_agreement.specs.Lives.{conduct_of, written};
ghost use Rattle.batcher_agreement.specs.Policy.{Conduct, HasVoted, IsGrounded, Knows};
ghost use Rattle.batcher.specs.messages.Proposal.{Proposal as TheProposal};
ghost use Rattle.batcher.specs.messages.Subject.TheVariants.{Finalize, Notarize, Nullify};
ghost use Rattle.batcher_journal.specs.Answers.{Answers};
ghost use Rattle.batcher_journal.specs.Contradictions.{IsFree};
ghost use Rattle.batcher_node.specs.Windows.{is_of, numbered};
ghost use Rattle.batcher_voter.specs.declared.answers.Permission.TheVariants.{Known, Sign};
ghost use Rattle.batcher_voter.specs.Knowledge.{AreNullified, HasLearned, HaveNoParent, IsParent};
ghost use Rattle.batcher_voter.specs.Knowledge.{learned_at};
ghost use Rattle.batcher_voter.specs.Refusals.{HasGround, HasNoGround, IsNotNotarized};
ghost use Rattle.batcher_voter.specs.Voting.{ForEachLife, IsNextView, IsFinalizable, Permits, Says};

use crate::answers::{Permission, Rule};
use crate::voter::Voter;
use batcher::messages::{Digest, Identical, Proposal, Subject};
use batcher::positions::{Round, View};
use batcher::scheme::Scheme;
use batcher_bytes::{Codec, Log, OwnedCodec};
use batcher_journal::Answer;
use batcher_node::NodeConfigs;

impl<S: Scheme<D>, D: Digest + Codec, L: Log> Voter<S, D, L>
where
    S::Signature: Codec + Identical,
    S::Certificate: OwnedCodec,
{
    /// What is to be done about a vote for a subject, before it is signed.
    pub fn ask(&self, subject: &Subject<D>) -> Permission<S::Signature, D>
        ensures permits { ForEachLife (⟦<S as NodeConfigs<D>>⟧.of self.now.node) self.now
            (Permits (⟦<S as NodeConfigs<D>>⟧.of self.now.node) D.eq self.now subject.now result) }
        ensures says { Says (⟦<S as NodeConfigs<D>>⟧.of self.now.node) D.eq self.now
            subject.now result }
        ensures finalizes { (p : TheProposal D) → subject.now ≡ Finalize p
            → self.now.journal.is_open ≡ true
            → is_of self.now.node.epoch self.now.node.window p.round ≡ true
            → IsFinalizable D.eq self.now p → result ≡ Sign }
    {
        self.begins();
        if !self.is_within(subject.round()) {
            return Permission::Outside;
        }
        match self.written(subject) {
            Answer::Sign => self.permission(subject),
            Answer::Known(vote) => Permission::Known(vote),
            Answer::Refused(vote) => Permission::Refused(Rule::Contradicts(vote)),
            Answer::Over => Permission::Outside,
            Answer::Closed => Permission::Closed,
        }
    }

    /// The view to enter: the one behind the highest of which a certificate is known, of whatever
    /// kind, or behind the final one. There is none behind the last number.
    pub fn next_view(&self) -> Option<View>
        ensures some { IfSome result (λ view. view.0 ≡ self.now.knowledge.highest + 1) }
        ensures none { result ≡ None → self.now.knowledge.highest ≡ 2 ^ 64 - 1 }
        ensures by_history { IfSome result (λ view. ForEachLife
            (⟦<S as NodeConfigs<D>>⟧.of self.now.node) self.now
            (λ past earlier. IsNextView self.now past view.0)) }
    {
        self.begins();
        match self.highest().checked_add(1) {
            Some(view) => Some(View(view)),
            None => None,
        }
    }

    /// The view on which a proposal of a view is to be made: the highest below it of which one is
    /// known to be notarized or final, or the start, where each view between is known to be
    /// nullified. None where there is no such view from the final one on.
    pub fn parent_for(&self, view: View) -> Option<View>
        ensures grounds { IfSome result (λ parent. ForEachLife
            (⟦<S as NodeConfigs<D>>⟧.of self.now.node) self.now
            (λ past earlier. (p : TheProposal D) → p.round ≡ numbered self.now.node.epoch view.0
            → p.parent ≡ parent → IsGrounded (conduct_of past ++ earlier) p)) }
        ensures highest { IfSome result (λ parent. ForEachLife
            (⟦<S as NodeConfigs<D>>⟧.of self.now.node) self.now
            (λ past earlier. (p : TheProposal D) → p.round ≡ numbered self.now.node.epoch view.0
            → self.now.node.window.finalized ≤ p.parent.0 → IsGrounded (conduct_of past) p
            → p.parent.0 ≤ parent.0)) }
        ensures none { result ≡ None → ForEachLife
            (⟦<S as NodeConfigs<D>>⟧.of self.now.node) self.now
            (λ past earlier. (p : TheProposal D) → p.round ≡ numbered self.now.node.epoch view.0
            → self.now.node.window.finalized ≤ p.parent.0 → IsGrounded (conduct_of past) p → ⊥) }
    {
        self.begins();
        match self.parent_below(view.0) {
            Some(parent) => Some(View(parent)),
            None => None,
        }
    }

    /// The proposal of a view that is known to be notarized, or the last such where there is more
    /// than one.
    pub fn notarized(&self, view: View) -> Option<Proposal<D>>
        ensures held { result ≡ (learned_at self.now.knowledge view.0).notarized }
        ensures some { IfSome result (λ p. ForEachLife
            (⟦<S as NodeConfigs<D>>⟧.of self.now.node) self.now
            (λ past earlier. self.now.node.window.finalized ≤ view.0
            → (p.round ≡ numbered self.now.node.epoch view.0)
            × Knows (conduct_of past) (Notarize p))) }
        ensures none { result ≡ None → ForEachLife
            (⟦<S as NodeConfigs<D>>⟧.of self.now.node) self.now
            (λ past earlier. self.now.node.window.finalized ≤ view.0 → (p : TheProposal D)
            → p.round ≡ numbered self.now.node.epoch view.0
            → Knows (conduct_of past) (Notarize p) → ⊥) }
    {
        self.begins();
        match self.notarized_at(view.0) {
            Some(proposal) => Some(proposal),
            None => None,
        }
    }

    /// No proposal of a view above this one is known to be notarized.
    pub fn last_parent(&self) -> u64
        ensures { ForEachLife (⟦<S as NodeConfigs<D>>⟧.of self.now.node) self.now (λ past earlier.
            (p : TheProposal D) → p.round.epoch ≡ self.now.node.epoch
            → Knows (conduct_of past) (Notarize p) → p.round.view.0 ≤ result) }
    {
        self.begins();
        self.known_parent()
    }

    // What is to be done about a subject that no vote is for, or contradicts.
    fn permission(&self, subject: &Subject<D>) -> Permission<S::Signature, D>
        requires open { self.now.journal.is_open ≡ true }
        requires within { is_of self.now.node.epoch self.now.node.window (round_in subject.now)
            ≡ true }
        requires free { IsFree D.eq self.now.journal.contents.votes subject.now }
        ensures permits { ForEachLife (⟦<S as NodeConfigs<D>>⟧.of self.now.node) self.now
            (Permits (⟦<S as NodeConfigs<D>>⟧.of self.now.node) D.eq self.now subject.now result) }
        ensures says { Says (⟦<S as NodeConfigs<D>>⟧.of self.now.node) D.eq self.now
            subject.now result }
        ensures finalizes { (p : TheProposal D) → subject.now ≡ Finalize p
            → (learned_at self.now.knowledge p.round.view.0).notarized ≡ Some p
            → result ≡ Sign }
    {
        match subject {
            Subject::Notarize { proposal } => self.may_notarize(proposal),
            Subject::Nullify { round } => self.may_nullify(*round),
            Subject::Finalize { proposal } => self.may_finalize(proposal),
        }
    }

    fn may_notarize(&self, proposal: &Proposal<D>) -> Permission<S::Signature, D>
        requires open { self.now.journal.is_open ≡ true }
        requires within { is_of self.now.node.epoch self.now.node.window proposal.now.round ≡ true }
        requires free { IsFree D.eq self.now.journal.contents.votes (Notarize proposal.now) }
        ensures permits { ForEachLife (⟦<S as NodeConfigs<D>>⟧.of self.now.node) self.now
            (Permits (⟦<S as NodeConfigs<D>>⟧.of self.now.node) D.eq self.now
            (Notarize proposal.now) result) }
        ensures says { Says (⟦<S as NodeConfigs<D>>⟧.of self.now.node) D.eq self.now
            (Notarize proposal.now) result }
    {
        self.begins();
        if self.has_nullified(proposal.round) {
            return Permission::Refused(Rule::Nullified);
        }
        match self.why_no_ground(proposal) {
            Some(rule) => Permission::Refused(rule),
            None => Permission::Sign,
        }
    }

    fn may_nullify(&self, round: Round) -> Permission<S::Signature, D>
        requires open { self.now.journal.is_open ≡ true }
        requires within { is_of self.now.node.epoch self.now.node.window round ≡ true }
        requires free { IsFree D.eq self.now.journal.contents.votes (Nullify round) }
        ensures permits { ForEachLife (⟦<S as NodeConfigs<D>>⟧.of self.now.node) self.now (Permits
            (⟦<S as NodeConfigs<D>>⟧.of self.now.node) D.eq self.now (Nullify round) result) }
        ensures says { Says (⟦<S as NodeConfigs<D>>⟧.of self.now.node) D.eq self.now
            (Nullify round) result }
    {
        self.begins();
        Permission::Sign
    }

    fn may_finalize(&self, proposal: &Proposal<D>) -> Permission<S::Signature, D>
        requires open { self.now.journal.is_open ≡ true }
        requires within { is_of self.now.node.epoch self.now.node.window proposal.now.round ≡ true }
        requires free { IsFree D.eq self.now.journal.contents.votes (Finalize proposal.now) }
        ensures permits { ForEachLife (⟦<S as NodeConfigs<D>>⟧.of self.now.node) self.now
            (Permits (⟦<S as NodeConfigs<D>>⟧.of self.now.node) D.eq self.now
            (Finalize proposal.now) result) }
        ensures says { Says (⟦<S as NodeConfigs<D>>⟧.of self.now.node) D.eq self.now
            (Finalize proposal.now) result }
        ensures finalizes { (learned_at self.now.knowledge proposal.now.round.view.0).notarized
            ≡ Some proposal.now → result ≡ Sign }
    {
        self.begins();
        if self.is_notarized(proposal) {
            return Permission::Sign;
        }
        Permission::Refused(Rule::NotNotarized)
    }

    // Why a proposal has no ground, if it has none.
    fn why_no_ground(&self, proposal: &Proposal<D>) -> Option<Rule<S::Signature, D>>
        requires within { is_of self.now.node.epoch self.now.node.window proposal.now.round ≡ true }
        ensures { (past : Conduct D) → HasLearned self.now.knowledge past → MatchOption result
            (HasGround past self.now.knowledge.floor proposal.now)
            (λ rule. HasNoGround past self.now.knowledge.floor rule proposal.now) }
    {
        self.begins();
        self.knowledge.why_no_ground(proposal)
    }

    // Whether this proposal is known to be notarized.
    fn is_notarized(&self, proposal: &Proposal<D>) -> bool
        requires within { is_of self.now.node.epoch self.now.node.window proposal.now.round ≡ true }
        ensures known { (past : Conduct D) → HasLearned self.now.knowledge past → MatchBool result
            (Knows past (Notarize proposal.now)) (IsNotNotarized past proposal.now) }
        ensures held { (learned_at self.now.knowledge proposal.now.round.view.0).notarized
            ≡ Some proposal.now → result ≡ true }
    {
        self.begins();
        self.knowledge.is_notarized(proposal)
    }

    // Whether a nullify of the round was written.
    fn has_nullified(&self, round: Round) -> bool
        requires open { self.now.journal.is_open ≡ true }
        requires within { is_of self.now.node.epoch self.now.node.window round ≡ true }
        ensures { ForEachLife (⟦<S as NodeConfigs<D>>⟧.of self.now.node) self.now
            (λ past earlier. MatchBool result
            (HasVoted (conduct_of past ++ earlier) (Nullify round))
            (HasVoted (conduct_of past ++ earlier) (Nullify round) → ⊥)) }
    {
        self.begins();
        match self.written(&Subject::Nullify { round }) {
            Answer::Known(_) => true,
            Answer::Sign => false,
            Answer::Refused(_) => false,
            Answer::Over => false,
            Answer::Closed => false,
        }
    }

    // What the votes that are written say of a subject.
    fn written(&self, subject: &Subject<D>) -> Answer<S::Signature, D>
        ensures { Answers D.eq self.now.journal.contents.floor self.now.journal.is_open
            self.now.journal.contents.votes subject.now result }
    {
        self.journal.ask(subject)
    }

    fn notarized_at(&self, view: u64) -> Option<Proposal<D>>
        ensures { result ≡ (learned_at self.now.knowledge view).notarized }
    {
        self.knowledge.at(view).notarized
    }

    // No view above this one is one on which a proposal may be.
    fn known_parent(&self) -> u64
        ensures none { (view : ℕ) → result < view → IsParent self.now.knowledge view → ⊥ }
        ensures from_floor { self.now.knowledge.floor ≤ result }
    {
        self.knowledge.last_parent()
    }

    fn parent_below(&self, view: u64) -> Option<u64>
        ensures some { IfSome result (λ parent. (parent < view)
            × ((self.now.knowledge.floor ≤ parent) × (IsParent self.now.knowledge parent
            × (AreNullified self.now.knowledge parent view
            × HaveNoParent self.now.knowledge parent view)))) }
        ensures none { result ≡ None → (parent : ℕ) → self.now.knowledge.floor ≤ parent
            → parent < view → IsParent self.now.knowledge parent
            → AreNullified self.now.knowledge parent view → ⊥ }
    {
        self.knowledge.parent_below(view)
    }

    /// The highest view of which a certificate is known, or the final one.
    pub fn highest(&self) -> u64
        ensures { result ≡ self.now.knowledge.highest }
    {
        self.knowledge.highest()
    }
}
