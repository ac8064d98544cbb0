//! What a validator votes for, proposes and judges.

ghost use Rattle.std.specs.Prelude.{◌≡◌, ◌≤◌, ◌<◌, ◌⊎◌, ◌++◌, ◌+◌, IfSome, IsTrue, MatchBool};
ghost use Rattle.std.specs.Prelude.{None, Some, true, false};
ghost use Rattle.std.specs.List.{list_any};
ghost use Rattle.batcher.specs.Votes.{round_in, same_round, subject_of};
ghost use Rattle.batcher.specs.messages.Proposal.{Proposal as TheProposal};
ghost use Rattle.batcher.specs.positions.Round.{Round as TheRound};
ghost use Rattle.batcher.specs.messages.Subject.{Subject as TheSubject};
ghost use Rattle.batcher.specs.messages.Subject.TheVariants.{Finalize, Notarize, Nullify};
ghost use Rattle.batcher_agreement.specs.Lives.{conduct_of};
ghost use Rattle.batcher_agreement.specs.Policy.{IsGrounded, Knows};
ghost use Rattle.batcher_journal.specs.Contradictions.{IsFree};
ghost use Rattle.batcher_node.specs.Windows.{is_of, numbered};
ghost use Rattle.batcher_validator.specs.Decisions.{AreDecided, HasDecided};
ghost use Rattle.batcher_validator.specs.Ending.{IsPreferred, WaitsForVote, GivesTask};
ghost use Rattle.batcher_validator.specs.Ending.{HasLessLeft};
ghost use Rattle.batcher_validator.specs.Histories.{conduct_in};
ghost use Rattle.batcher_validator.specs.Posing.{CanLead, CanPose, CanSign, CanVote, CannotLead};
ghost use Rattle.batcher_validator.specs.Posing.{CannotPose, CannotSign, CannotVote, Grounds};
ghost use Rattle.batcher_validator.specs.Posing.{HasCast, HasNotCast, IsLeader, IsNotToJudge};
ghost use Rattle.batcher_validator.specs.Posing.{IsNotToPropose, IsNotToSign, IsProposalNow};
ghost use Rattle.batcher_validator.specs.Posing.{IsProposed, IsToSign, Signs, SignsNothing};
ghost use Rattle.batcher_validator.specs.Running.{ForEachRun, RunStays};
ghost use Rattle.batcher_validator.specs.Tasks.{IsGivenMeanwhile, MaySign, MayVote};
ghost use Rattle.batcher_validator.specs.Tasks.{NothingIsProposed, NothingIsToSign};
ghost use Rattle.batcher_validator.specs.Unsigned.{is_unsigned};
ghost use Rattle.batcher_voter.specs.Knowledge.{learned_at};
ghost use Rattle.batcher_voter.specs.Voting.{ForEachLife, IsFinalizable, Permits, Says};
ghost use Rattle.batcher_voter.specs.declared.answers.Permission.TheVariants.{Sign};

use crate::decided::Decided;
use crate::task::Task;
use crate::unsigned::Unsigned;
use crate::validator::Validator;
use batcher::messages::{Digest, Identical, Proposal, Subject};
use batcher::positions::{Participant, Round, View};
use batcher::scheme::Scheme;
use batcher_bytes::{Codec, Log, OwnedCodec};
use batcher_node::NodeConfigs;
use batcher_voter::Permission;

impl<S: Scheme<D>, D: Digest + Codec, L: Log> Validator<S, D, L>
where
    S::Signature: Codec + Identical,
    S::Certificate: OwnedCodec,
{
    // What is to be signed, or proposed, or judged.
    pub(crate) fn pose(&mut self) -> Option<Task<S::Signature, D>>
        requires { self.old.voter.journal.is_open ≡ true }
        ensures gives { IfSome result
            (GivesTask (⟦<S as NodeConfigs<D>>⟧.of self.old.voter.node) self.old self.new) }
        ensures less { IfSome result
            (HasLessLeft (⟦<S as NodeConfigs<D>>⟧.of self.old.voter.node) self.old self.new) }
        ensures signs { result ≡ None → ForEachRun
            (⟦<S as NodeConfigs<D>>⟧.of self.old.voter.node) self.old (λ past earlier.
            NothingIsToSign (⟦<S as NodeConfigs<D>>⟧.of self.old.voter.node) earlier past) }
        ensures proposes { result ≡ None → ForEachRun
            (⟦<S as NodeConfigs<D>>⟧.of self.old.voter.node) self.old (λ past earlier.
            NothingIsProposed (⟦<S as NodeConfigs<D>>⟧.of self.old.voter.node) earlier past) }
        ensures same { result ≡ None → self.new ≡ self.old }
        ensures voter { self.new.voter ≡ self.old.voter }
    {
        match self.next_to_sign() {
            Some(subject) => {
                self.note_signing(subject);
                Some(Task::Sign(subject))
            }
            None => self.pose_proposal(),
        }
    }

    // What is to be proposed, or judged.
    pub(crate) fn pose_proposal(&mut self) -> Option<Task<S::Signature, D>>
        requires { self.old.voter.journal.is_open ≡ true }
        ensures gives { IfSome result
            (GivesTask (⟦<S as NodeConfigs<D>>⟧.of self.old.voter.node) self.old self.new) }
        ensures less { IfSome result
            (HasLessLeft (⟦<S as NodeConfigs<D>>⟧.of self.old.voter.node) self.old self.new) }
        ensures meanwhile { IfSome result IsGivenMeanwhile }
        ensures nothing { result ≡ None → ForEachRun
            (⟦<S as NodeConfigs<D>>⟧.of self.old.voter.node) self.old (λ past earlier.
            NothingIsProposed (⟦<S as NodeConfigs<D>>⟧.of self.old.voter.node) earlier past) }
        ensures same { result ≡ None → self.new ≡ self.old }
        ensures voter { self.new.voter ≡ self.old.voter }
    {
        match self.next_to_propose() {
            Some((view, parent)) => {
                self.note_posed(view);
                Some(Task::Propose { view, parent })
            }
            None => match self.next_to_judge() {
                Some(proposal) => {
                    self.note_posed(proposal.round.view);
                    Some(Task::Judge(proposal))
                }
                None => None,
            },
        }
    }

    fn note_signing(&mut self, subject: Subject<D>)
        ensures given { self.new.given ≡ record self.old.given {
          intent = record self.old.given.intent { signing = Some subject };
        } }
        ensures voter { self.new.voter ≡ self.old.voter }
        ensures shelf { self.new.shelf ≡ self.old.shelf }
    {
        self.given.intent.signing = Some(subject);
    }

    fn note_posed(&mut self, view: View)
        ensures given { self.new.given ≡ record self.old.given {
          intent = record self.old.given.intent { posed = view.0 };
        } }
        ensures voter { self.new.voter ≡ self.old.voter }
        ensures shelf { self.new.shelf ≡ self.old.shelf }
    {
        self.given.intent.posed = view.0;
    }

    // A vote that is wanted and may be cast, where no other is being signed.
    fn next_to_sign(&self) -> Option<Subject<D>>
        requires { self.now.voter.journal.is_open ≡ true }
        ensures some { IfSome result (λ s. IsToSign ⟦<S as NodeConfigs<D>>⟧.of self.now s) }
        ensures alone { IfSome result (λ s. SignsNothing ⟦<S as NodeConfigs<D>>⟧.of self.now) }
        ensures waits { IfSome result (λ s. ForEachRun
            (⟦<S as NodeConfigs<D>>⟧.of self.now.voter.node) self.now (λ past earlier. WaitsForVote
            (⟦<S as NodeConfigs<D>>⟧.of self.now.voter.node) past earlier self.now → ⊥)) }
        ensures preferred { IfSome result (λ s. ForEachRun
            (⟦<S as NodeConfigs<D>>⟧.of self.now.voter.node) self.now
            (λ past earlier. IsPreferred D.eq self.now.voter s)) }
        ensures none { result ≡ None → Signs ⟦<S as NodeConfigs<D>>⟧.of self.now
            ⊎ ((s : TheSubject D) → IsNotToSign ⟦<S as NodeConfigs<D>>⟧.of self.now s) }
    {
        if self.is_signing() {
            return None;
        }
        match self.next_to_finalize() {
            Some(proposal) => Some(Subject::Finalize { proposal }),
            None => match self.next_to_nullify() {
                Some(round) => Some(Subject::Nullify { round }),
                None => match self.next_to_notarize() {
                    Some(proposal) => Some(Subject::Notarize { proposal }),
                    None => None,
                },
            },
        }
    }

    // Whether what was given to be signed may still be signed.
    fn is_signing(&self) -> bool
        requires { self.now.voter.journal.is_open ≡ true }
        ensures signs { MatchBool result (Signs ⟦<S as NodeConfigs<D>>⟧.of self.now)
            (SignsNothing ⟦<S as NodeConfigs<D>>⟧.of self.now) }
        ensures waits { result ≡ false → ForEachRun
            (⟦<S as NodeConfigs<D>>⟧.of self.now.voter.node) self.now (λ past earlier. WaitsForVote
            (⟦<S as NodeConfigs<D>>⟧.of self.now.voter.node) past earlier self.now → ⊥) }
    {
        match self.signing() {
            Some(subject) => self.may_sign(&subject),
            None => false,
        }
    }

    fn signing(&self) -> Option<Subject<D>>
        ensures { result ≡ self.now.given.intent.signing }
    {
        self.given.intent.signing
    }

    // Whether a subject may be given to be signed.
    fn may_sign(&self, subject: &Subject<D>) -> bool
        requires { self.now.voter.journal.is_open ≡ true }
        ensures signs { MatchBool result (CanSign ⟦<S as NodeConfigs<D>>⟧.of self.now subject.now)
            (CannotSign ⟦<S as NodeConfigs<D>>⟧.of self.now subject.now) }
        ensures free { result ≡ true → IsFree D.eq self.now.voter.journal.contents.votes
            subject.now }
        ensures preferred { result ≡ false → IsPreferred D.eq self.now.voter subject.now
            → ForEachRun (⟦<S as NodeConfigs<D>>⟧.of self.now.voter.node) self.now
            (λ past earlier. MaySign (⟦<S as NodeConfigs<D>>⟧.of self.now.voter.node) earlier past
            subject.now → ⊥) }
    {
        if self.is_unsigned(subject) {
            return false;
        }
        if self.may_vote(subject) {
            return true;
        }
        false
    }

    // Whether a signature of its kind was refused, of its view or a later one.
    fn is_unsigned(&self, subject: &Subject<D>) -> bool
        ensures { result ≡ is_unsigned self.now.given.intent.unsigned subject.now }
    {
        self.unsigned().has(subject)
    }

    fn unsigned(&self) -> Unsigned
        ensures { result ≡ self.now.given.intent.unsigned }
    {
        self.given.intent.unsigned
    }

    // Whether a subject may be voted for.
    fn may_vote(&self, subject: &Subject<D>) -> bool
        requires { self.now.voter.journal.is_open ≡ true }
        ensures votes { MatchBool result (CanVote ⟦<S as NodeConfigs<D>>⟧.of self.now subject.now)
            (CannotVote ⟦<S as NodeConfigs<D>>⟧.of self.now subject.now) }
        ensures free { result ≡ true → IsFree D.eq self.now.voter.journal.contents.votes
            subject.now }
        ensures preferred { result ≡ false → IsPreferred D.eq self.now.voter subject.now
            → ForEachRun (⟦<S as NodeConfigs<D>>⟧.of self.now.voter.node) self.now
            (λ past earlier. MayVote (⟦<S as NodeConfigs<D>>⟧.of self.now.voter.node) earlier past
            subject.now → ⊥) }
    {
        self.begins();
        match self.ask(subject) {
            Permission::Sign => true,
            Permission::Known(_) => false,
            Permission::Refused(_) => false,
            Permission::Outside => false,
            Permission::Closed => false,
        }
    }

    // What the voter says of a subject.
    fn ask(&self, subject: &Subject<D>) -> Permission<S::Signature, D>
        ensures permits { ForEachLife (⟦<S as NodeConfigs<D>>⟧.of self.now.voter.node)
            self.now.voter (Permits (⟦<S as NodeConfigs<D>>⟧.of self.now.voter.node) D.eq
            self.now.voter subject.now result) }
        ensures says { Says (⟦<S as NodeConfigs<D>>⟧.of self.now.voter.node) D.eq self.now.voter
            subject.now result }
        ensures finalizes { (p : TheProposal D) → subject.now ≡ Finalize p
            → self.now.voter.journal.is_open ≡ true
            → is_of self.now.voter.node.epoch self.now.voter.node.window p.round ≡ true
            → IsFinalizable D.eq self.now.voter p → result ≡ Sign }
    {
        self.voter.ask(subject)
    }

    // A proposal that is notarized, and may be finalized.
    fn next_to_finalize(&self) -> Option<Proposal<D>>
        requires { self.now.voter.journal.is_open ≡ true }
        ensures some { IfSome result (λ p.
            IsToSign ⟦<S as NodeConfigs<D>>⟧.of self.now (Finalize p)) }
        ensures preferred { IfSome result (λ p. ForEachRun
            (⟦<S as NodeConfigs<D>>⟧.of self.now.voter.node) self.now
            (λ past earlier. IsFinalizable D.eq self.now.voter p)) }
        ensures none { result ≡ None → (p : TheProposal D)
            → IsNotToSign ⟦<S as NodeConfigs<D>>⟧.of self.now (Finalize p) }
    {
        match self.to_finalize_in(View(self.final_view())) {
            Some(proposal) => Some(proposal),
            None => self.next_to_finalize_behind(),
        }
    }

    // The same where there is none in the final view.
    fn next_to_finalize_behind(&self) -> Option<Proposal<D>>
        requires open { self.now.voter.journal.is_open ≡ true }
        requires not_there { (p : TheProposal D)
            → p.round.view.0 ≡ self.now.voter.node.window.finalized
            → IsNotToSign ⟦<S as NodeConfigs<D>>⟧.of self.now (Finalize p) }
        ensures some { IfSome result (λ p.
            IsToSign ⟦<S as NodeConfigs<D>>⟧.of self.now (Finalize p)) }
        ensures preferred { IfSome result (λ p. ForEachRun
            (⟦<S as NodeConfigs<D>>⟧.of self.now.voter.node) self.now
            (λ past earlier. IsFinalizable D.eq self.now.voter p)) }
        ensures none { result ≡ None → (p : TheProposal D)
            → IsNotToSign ⟦<S as NodeConfigs<D>>⟧.of self.now (Finalize p) }
    {
        for view in self.decided().end..=self.last_parent() {
            match self.to_finalize_in(View(view)) {
                Some(proposal) => return Some(proposal),
                None => {}
            }
        }
        None
    }

    // The views behind the final one of which is noted that it has voted to finalize or to nullify.
    // So it finalizes nothing else there.
    fn decided(&self) -> Decided
        ensures first { result.first ≤ self.now.voter.node.window.finalized + 1 }
        ensures within { self.now.voter.node.window.finalized ≤ result.end }
        ensures decides { ForEachRun (⟦<S as NodeConfigs<D>>⟧.of self.now.voter.node) self.now
            (λ past earlier. AreDecided (conduct_in earlier past)
            self.now.voter.node.epoch result) }
    {
        let noted = self.noted();
        let first = self.behind_final();
        if noted.first <= first && first < noted.end {
            return Decided {
                first,
                end: noted.end,
            };
        }
        Decided { first, end: first }
    }

    // The view behind the final one, if there is one, and else that.
    fn behind_final(&self) -> u64
        ensures from { self.now.voter.node.window.finalized ≤ result }
        ensures up_to { result ≤ self.now.voter.node.window.finalized + 1 }
    {
        let view = self.final_view();
        match view.checked_add(1) {
            Some(next) => next,
            None => view,
        }
    }

    fn noted(&self) -> Decided
        ensures { result ≡ self.now.given.decided }
    {
        self.given.decided
    }

    // Notes in which views behind the final one it has voted to finalize or to nullify, one behind
    // the other.
    pub(crate) fn settle(&mut self)
        ensures stays { RunStays (⟦<S as NodeConfigs<D>>⟧.of self.old.voter.node) self.old
            self.new }
        ensures voter { self.new.voter ≡ self.old.voter }
    {
        let noted = self.decided();
        let end = self.decided_until(noted.end);
        self.note_decided(Decided {
            first: noted.first,
            end,
        });
    }

    fn note_decided(&mut self, decided: Decided)
        ensures given { self.new.given ≡ record self.old.given { decided = decided } }
        ensures voter { self.new.voter ≡ self.old.voter }
        ensures shelf { self.new.shelf ≡ self.old.shelf }
    {
        self.given.decided = decided;
    }

    // The first view from this one on, before the current one, in which it hasn't.
    fn decided_until(&self, first: u64) -> u64
        ensures { ForEachRun (⟦<S as NodeConfigs<D>>⟧.of self.now.voter.node) self.now
            (λ past earlier. AreDecided (conduct_in earlier past) self.now.voter.node.epoch
            (record { first = first; end = result })) }
    {
        for view in first..self.current() {
            if !self.has_decided(View(view)) {
                return view;
            }
        }
        self.current()
    }

    // Whether it has in a view.
    fn has_decided(&self, view: View) -> bool
        ensures { result ≡ true → ForEachRun
            (⟦<S as NodeConfigs<D>>⟧.of self.now.voter.node) self.now
            (λ past earlier. HasDecided (conduct_in earlier past)
            (numbered self.now.voter.node.epoch view.0)) }
    {
        let round = self.round_of(view);
        match self.ask(&Subject::Nullify { round }) {
            Permission::Known(_) => true,
            Permission::Refused(_) => true,
            Permission::Sign => false,
            Permission::Outside => false,
            Permission::Closed => false,
        }
    }

    // The same of a view.
    fn to_finalize_in(&self, view: View) -> Option<Proposal<D>>
        requires open { self.now.voter.journal.is_open ≡ true }
        requires from { self.now.voter.node.window.finalized ≤ view.0 }
        ensures some { IfSome result (λ p.
            IsToSign ⟦<S as NodeConfigs<D>>⟧.of self.now (Finalize p)) }
        ensures preferred { IfSome result (λ p. ForEachRun
            (⟦<S as NodeConfigs<D>>⟧.of self.now.voter.node) self.now
            (λ past earlier. IsFinalizable D.eq self.now.voter p)) }
        ensures none { result ≡ None → (p : TheProposal D) → p.round.view.0 ≡ view.0
            → IsNotToSign ⟦<S as NodeConfigs<D>>⟧.of self.now (Finalize p) }
    {
        self.begins();
        match self.notarized(view) {
            Some(proposal) => {
                if self.may_sign(&Subject::Finalize { proposal }) {
                    return Some(proposal);
                }
                None
            }
            None => None,
        }
    }

    // The proposal of a view that the voter knows to be notarized.
    fn notarized(&self, view: View) -> Option<Proposal<D>>
        ensures held { result ≡ (learned_at self.now.voter.knowledge view.0).notarized }
        ensures some { IfSome result (λ p. ForEachLife
            (⟦<S as NodeConfigs<D>>⟧.of self.now.voter.node) self.now.voter
            (λ past earlier. self.now.voter.node.window.finalized ≤ view.0
            → (p.round ≡ numbered self.now.voter.node.epoch view.0)
            × Knows (conduct_of past) (Notarize p))) }
        ensures none { result ≡ None → ForEachLife
            (⟦<S as NodeConfigs<D>>⟧.of self.now.voter.node) self.now.voter
            (λ past earlier. self.now.voter.node.window.finalized ≤ view.0 → (p : TheProposal D)
            → p.round ≡ numbered self.now.voter.node.epoch view.0
            → Knows (conduct_of past) (Notarize p) → ⊥) }
    {
        self.voter.notarized(view)
    }

    // No proposal of a view above this one is known to be notarized.
    fn last_parent(&self) -> u64
        ensures { ForEachLife (⟦<S as NodeConfigs<D>>⟧.of self.now.voter.node) self.now.voter
            (λ past earlier. (p : TheProposal D) → p.round.epoch ≡ self.now.voter.node.epoch
            → Knows (conduct_of past) (Notarize p) → p.round.view.0 ≤ result) }
    {
        self.voter.last_parent()
    }

    // The final view.
    fn final_view(&self) -> u64
        ensures { result ≡ self.now.voter.node.window.finalized }
    {
        self.voter.node().window().finalized
    }

    // The round whose time is over, or that was given up, if a vote to nullify it may be cast.
    fn next_to_nullify(&self) -> Option<Round>
        requires { self.now.voter.journal.is_open ≡ true }
        ensures some { IfSome result (λ number.
            IsToSign ⟦<S as NodeConfigs<D>>⟧.of self.now (Nullify number)) }
        ensures none { result ≡ None → (number : TheRound)
            → IsNotToSign ⟦<S as NodeConfigs<D>>⟧.of self.now (Nullify number) }
    {
        let view = self.expired_view();
        if view.0 == 0 {
            return None;
        }
        let round = self.round_of(view);
        if self.may_sign(&Subject::Nullify { round }) {
            return Some(round);
        }
        None
    }

    // The number of a view's round.
    fn round_of(&self, view: View) -> Round
        ensures { result ≡ numbered self.now.voter.node.epoch view.0 }
    {
        Round {
            epoch: self.voter.epoch(),
            view,
        }
    }

    fn expired_view(&self) -> View
        ensures { result.0 ≡ self.now.given.intent.expired }
    {
        View(self.given.intent.expired)
    }

    // The proposal that is its own, or valid, if it may be notarized.
    fn next_to_notarize(&self) -> Option<Proposal<D>>
        requires { self.now.voter.journal.is_open ≡ true }
        ensures some { IfSome result (λ p.
            IsToSign ⟦<S as NodeConfigs<D>>⟧.of self.now (Notarize p)) }
        ensures none { result ≡ None → (p : TheProposal D)
            → IsNotToSign ⟦<S as NodeConfigs<D>>⟧.of self.now (Notarize p) }
    {
        match self.chosen() {
            Some(proposal) => {
                if self.may_sign(&Subject::Notarize { proposal }) {
                    return Some(proposal);
                }
                None
            }
            None => None,
        }
    }

    fn chosen(&self) -> Option<Proposal<D>>
        ensures { result ≡ self.now.given.intent.chosen }
    {
        self.given.intent.chosen
    }

    // The view in which it is to propose, with the view of the parent.
    fn next_to_propose(&self) -> Option<(View, View)>
        requires { self.now.voter.journal.is_open ≡ true }
        ensures open { IfSome result (λ it. CanPose ⟦<S as NodeConfigs<D>>⟧.of self.now it.0.0) }
        ensures leads { IfSome result (λ it. CanLead ⟦<S as NodeConfigs<D>>⟧.of self.now it.0.0) }
        ensures first { IfSome result (λ it.
            HasNotCast ⟦<S as NodeConfigs<D>>⟧.of self.now it.0.0) }
        ensures grounds { IfSome result (λ it.
            Grounds ⟦<S as NodeConfigs<D>>⟧.of self.now it.0.0 it.1) }
        ensures unposed { IfSome result (λ it.
            (self.now.given.intent.posed < self.now.voter.node.window.current)
            × (it.0.0 ≡ self.now.voter.node.window.current)) }
        ensures none { result ≡ None → IsNotToPropose ⟦<S as NodeConfigs<D>>⟧.of self.now }
    {
        if !self.may_pose() {
            return None;
        }
        if !self.leads() {
            return None;
        }
        if self.has_voted() {
            return None;
        }
        match self.parent() {
            Some(parent) => Some((View(self.current()), parent)),
            None => None,
        }
    }

    // The view on which to propose in the current one.
    fn parent(&self) -> Option<View>
        ensures grounds { IfSome result (λ parent.
            Grounds ⟦<S as NodeConfigs<D>>⟧.of self.now self.now.voter.node.window.current
            parent) }
        ensures none { result ≡ None → IsNotToPropose ⟦<S as NodeConfigs<D>>⟧.of self.now }
    {
        let view = View(self.current());
        match self.parent_for(view) {
            Some(parent) => Some(parent),
            None => None,
        }
    }

    fn parent_for(&self, view: View) -> Option<View>
        ensures grounds { IfSome result (λ parent. ForEachLife
            (⟦<S as NodeConfigs<D>>⟧.of self.now.voter.node) self.now.voter
            (λ past earlier. (p : TheProposal D)
            → p.round ≡ numbered self.now.voter.node.epoch view.0 → p.parent ≡ parent
            → IsGrounded (conduct_of past ++ earlier) p)) }
        ensures none { result ≡ None → ForEachLife
            (⟦<S as NodeConfigs<D>>⟧.of self.now.voter.node) self.now.voter
            (λ past earlier. (p : TheProposal D)
            → p.round ≡ numbered self.now.voter.node.epoch view.0
            → self.now.voter.node.window.finalized ≤ p.parent.0
            → IsGrounded (conduct_of past) p → ⊥) }
    {
        self.voter.parent_for(view)
    }

    // The proposal that it is to judge.
    fn next_to_judge(&self) -> Option<Proposal<D>>
        requires { self.now.voter.journal.is_open ≡ true }
        ensures open { IfSome result (λ p.
            CanPose ⟦<S as NodeConfigs<D>>⟧.of self.now p.round.view.0) }
        ensures proposed { IfSome result (λ p. IsProposed ⟦<S as NodeConfigs<D>>⟧.of self.now p) }
        ensures may_vote { IfSome result (λ p.
            CanVote ⟦<S as NodeConfigs<D>>⟧.of self.now (Notarize p)) }
        ensures unposed { IfSome result (λ p.
            (self.now.given.intent.posed < self.now.voter.node.window.current)
            × (p.round.view.0 ≡ self.now.voter.node.window.current)) }
        ensures none { result ≡ None → IsNotToJudge ⟦<S as NodeConfigs<D>>⟧.of self.now }
    {
        if !self.may_pose() {
            return None;
        }
        if self.leads() {
            return None;
        }
        match self.proposal() {
            Some(proposal) => {
                if proposal.round.view.0 != self.current() {
                    return None;
                }
                if self.may_vote(&Subject::Notarize { proposal }) {
                    return Some(proposal);
                }
                None
            }
            None => None,
        }
    }

    // Whether a proposal of the current view is to be made, or judged.
    fn may_pose(&self) -> bool
        ensures above { IsTrue result
            → self.now.voter.node.window.finalized < self.now.voter.node.window.current }
        ensures open { MatchBool result
            (CanPose ⟦<S as NodeConfigs<D>>⟧.of self.now self.now.voter.node.window.current)
            (CannotPose ⟦<S as NodeConfigs<D>>⟧.of self.now
            self.now.voter.node.window.current) }
        ensures unposed { IsTrue result
            → self.now.given.intent.posed < self.now.voter.node.window.current }
    {
        let current = self.current();
        if current <= self.final_view() {
            return false;
        }
        if current < self.asked() {
            return false;
        }
        if current <= self.expired_view().0 {
            return false;
        }
        if current <= self.posed() {
            return false;
        }
        true
    }

    fn asked(&self) -> u64
        ensures { result ≡ self.now.given.asked }
    {
        self.given.asked
    }

    fn posed(&self) -> u64
        ensures { result ≡ self.now.given.intent.posed }
    {
        self.given.intent.posed
    }

    // Whether it leads the current view.
    fn leads(&self) -> bool
        requires { self.now.voter.node.window.finalized
            < self.now.voter.node.window.current }
        ensures { MatchBool result
            (CanLead ⟦<S as NodeConfigs<D>>⟧.of self.now self.now.voter.node.window.current)
            (CannotLead ⟦<S as NodeConfigs<D>>⟧.of self.now
            self.now.voter.node.window.current) }
    {
        match self.leader() {
            Some(leader) => leader == self.me(),
            None => false,
        }
    }

    pub(crate) fn me(&self) -> Participant
        ensures { result ≡ self.now.given.intent.me }
    {
        self.given.intent.me
    }

    // Who leads the current view.
    fn leader(&self) -> Option<Participant>
        requires { self.now.voter.node.window.finalized
            < self.now.voter.node.window.current }
        ensures { IsLeader ⟦<S as NodeConfigs<D>>⟧.of self.now result }
    {
        match self.voter.node().round(View(self.current())) {
            Some(round) => round.leader(),
            None => None,
        }
    }

    // What is proposed in the current view.
    fn proposal(&self) -> Option<Proposal<D>>
        requires { self.now.voter.node.window.finalized
            < self.now.voter.node.window.current }
        ensures { IsProposalNow ⟦<S as NodeConfigs<D>>⟧.of self.now result }
    {
        match self.voter.node().round(View(self.current())) {
            Some(round) => round.proposal(),
            None => None,
        }
    }

    // Whether it has voted in the current view.
    fn has_voted(&self) -> bool
        requires open { self.now.voter.journal.is_open ≡ true }
        requires above { self.now.voter.node.window.finalized
            < self.now.voter.node.window.current }
        ensures { MatchBool result
            (HasCast ⟦<S as NodeConfigs<D>>⟧.of self.now self.now.voter.node.window.current)
            (HasNotCast ⟦<S as NodeConfigs<D>>⟧.of self.now
            self.now.voter.node.window.current) }
    {
        self.begins();
        self.has_vote_of(self.round_of(View(self.current())))
    }

    // Whether the journal has a vote of the round.
    fn has_vote_of(&self, round: Round) -> bool
        ensures { result ≡ list_any (λ vote. same_round (round_in (subject_of vote)) round)
            self.now.voter.journal.contents.votes }
    {
        self.voter.journal().has_vote_of(round)
    }
}
