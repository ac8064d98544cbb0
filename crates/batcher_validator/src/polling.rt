//! Which task is given next, and that they come to an end.

ghost use Rattle.std.specs.Prelude.{◌≡◌, ◌≤◌, ◌<◌, ◌+◌, ◌*◌, ◌⊎◌, ◌++◌, [], Contains, Err};
ghost use Rattle.std.specs.Prelude.{IfOk, IfSome, None, Ok, OnErr, Some, length};
ghost use Rattle.std.specs.Prelude.{set, true, false, List, ℕ};
ghost use Rattle.std.specs.List.{slice_get};
ghost use Rattle.batcher_bytes.specs.Messages.{certificate_format, vote_format};
ghost use Rattle.batcher_journal.specs.Answers.{MayBeWrittenBehind};
ghost use Rattle.batcher.specs.messages.Kind.{Kind as TheKind};
ghost use Rattle.batcher.specs.positions.Round.{Round as TheRound};
ghost use Rattle.batcher_node.specs.Nodes.{NodeConfig, cause_at};
ghost use Rattle.batcher_validator.specs.Ending.{GivesOnAndOn, GivesTask, HasLessLeft};
ghost use Rattle.batcher_validator.specs.Posing.{BlocksNobody};
ghost use Rattle.batcher_validator.specs.Running.{ForEachRun, RunLeaves, RunMeets, RunStays};
ghost use Rattle.batcher_validator.specs.Running.{ValidatorView, SameRun};
ghost use Rattle.batcher_validator.specs.Resending.{IsPlaceFrom, is_again, still_to_forward};
ghost use Rattle.batcher_validator.specs.Resending.{turn_at};
ghost use Rattle.batcher_validator.specs.Shelves.{HaveNoFinal, IsFinalAt, IsLowestFinal};
ghost use Rattle.batcher_validator.specs.Shelves.{IsToAnnounce, PutsBehind, kind_and_round};
ghost use Rattle.batcher_validator.specs.declared.task.PollFault.{PollFault};
ghost use Rattle.batcher_validator.specs.Histories.{HasHanded, ValidatorHistory, again, gave};
ghost use Rattle.batcher_validator.specs.Returning.{StaysFinal, agains};
ghost use Rattle.batcher_validator.specs.declared.task.Task.{Task as TheTask};
ghost use Rattle.batcher_validator.specs.declared.task.Task.TheVariants.{SendCertificate};
ghost use Rattle.batcher_validator.specs.Tasks.{IsGivenMeanwhile, NothingIsDue};
ghost use Rattle.batcher_validator.specs.Tasks.{NothingIsDueMeanwhile};
ghost use Rattle.batcher_validator.specs.Disks.{IsTooLongToAnnounce};
ghost use Rattle.batcher_validator.specs.Disks.{with_write_done, with_write_given};
ghost use Rattle.batcher_validator.specs.Unsigned.{nothing_unsigned};
ghost use Rattle.batcher.specs.Verifiers.{certifies_itself};
ghost use Rattle.batcher_voter.specs.Unstarted.{LeavesReadable};
ghost use Rattle.batcher_voter.specs.Voting.{BeginWithOneView};

use crate::resending::{Resending, still_to_forward, turn_at};
use crate::tally::{Tally, place_from};
use crate::task::{PollFault, Task};
use crate::unsigned::Unsigned;
use crate::validator::Validator;
use batcher::messages::{Digest, Identical, Kind, Proposal, Vote};
use batcher::positions::{Participant, Round, View};
use batcher::scheme::Scheme;
use batcher_bytes::{Codec, CopiedLog, Log, OwnedCodec};
use batcher_node::{Cause, NodeConfigs};

impl<S: Scheme<D>, D: Digest + Codec, L: Log> Validator<S, D, L>
where
    S::Signature: Codec + Identical,
    S::Certificate: OwnedCodec,
{
    /// What is to be done next. None where nothing is, until something comes.
    ///
    /// Where a proposal is to be final, its view is made the final one first, which is written to
    /// the disk. A refusal for memory leaves all as it was: poll again.
    pub fn poll(&mut self) -> Result<Option<Task<S::Signature, D>>, PollFault>
        ensures gives { IfOk result (λ given. IfSome given
            (GivesTask (⟦<S as NodeConfigs<D>>⟧.of self.old.voter.node) self.old self.new)) }
        // So it comes to an end: see `poll_comes_to_an_end`.
        ensures less { IfOk result (λ given. IfSome given
            (HasLessLeft (⟦<S as NodeConfigs<D>>⟧.of self.old.voter.node) self.old self.new)) }
        ensures nothing { result ≡ Ok None → ForEachRun
            (⟦<S as NodeConfigs<D>>⟧.of self.old.voter.node) self.old
            (λ past earlier. NothingIsDue (⟦<S as NodeConfigs<D>>⟧.of self.old.voter.node)
            earlier past) }
        ensures rests { result ≡ Ok None
            → RunStays (⟦<S as NodeConfigs<D>>⟧.of self.old.voter.node) self.old self.new }
        ensures why { OnErr result ((self.old.voter.journal.is_open ≡ false)
            ⊎ IsToAnnounce self.old.given.announced self.old.shelf.certificates) }
        ensures stays { OnErr result
            (RunStays (⟦<S as NodeConfigs<D>>⟧.of self.old.voter.node) self.old self.new) }
        ensures closed { result ≡ Err PollFault.Closed
            → self.new.voter.journal.is_open ≡ false }
        ensures memory { result ≡ Err PollFault.OutOfMemory
            → self.new.voter.journal.is_open ≡ true }
        ensures full { result ≡ Err PollFault.Full → self.new.voter.journal.is_open ≡ true }
        ensures too_long { result ≡ Err PollFault.Full → IsTooLongToAnnounce
            (vote_format S.Signature.format D.format)
            (certificate_format S.Certificate.format D.format) L.is_too_small self.old }
        ensures leaves { RunLeaves (⟦<S as NodeConfigs<D>>⟧.of self.old.voter.node)
            (vote_format S.Signature.format D.format) L.is_honest L.may_leave self.old self.new }
        ensures frame { SameRun L.is_copied_as self.old self.new }
    {
        self.leaves_what_was_done();
        if !self.is_open() {
            return Err(PollFault::Closed);
        }
        match self.next_block() {
            Some((who, cause)) => {
                self.note_block(who);
                Ok(Some(Task::Block(who, cause)))
            }
            None => match self.next_final() {
                Some((i, proposal)) => self.announce(i, proposal),
                None => Ok(self.give_own()),
            },
        }
    }

    /// What is to be done next while a write is under way: nothing is sent, nothing is final, and
    /// nothing is signed, so that the disk comes to have all that was done. None where only that is
    /// left.
    pub fn poll_meanwhile(&mut self) -> Result<Option<Task<S::Signature, D>>, PollFault>
        ensures gives { IfOk result (λ given. IfSome given
            (GivesTask (⟦<S as NodeConfigs<D>>⟧.of self.old.voter.node) self.old self.new)) }
        ensures less { IfOk result (λ given. IfSome given
            (HasLessLeft (⟦<S as NodeConfigs<D>>⟧.of self.old.voter.node) self.old self.new)) }
        ensures meanwhile { IfOk result (λ given. IfSome given IsGivenMeanwhile) }
        ensures nothing { result ≡ Ok None → ForEachRun
            (⟦<S as NodeConfigs<D>>⟧.of self.old.voter.node) self.old
            (λ past earlier. NothingIsDueMeanwhile (⟦<S as NodeConfigs<D>>⟧.of self.old.voter.node)
            earlier past) }
        ensures same { result ≡ Ok None → self.new ≡ self.old }
        ensures closed { OnErr result ((result ≡ Err PollFault.Closed)
            × ((self.old.voter.journal.is_open ≡ false) × (self.new ≡ self.old))) }
        ensures voter { self.new.voter ≡ self.old.voter }
    {
        if !self.is_open() {
            return Err(PollFault::Closed);
        }
        match self.next_block() {
            Some((who, cause)) => {
                self.note_block(who);
                Ok(Some(Task::Block(who, cause)))
            }
            None => Ok(self.give_meanwhile()),
        }
    }

    /// Does nothing. A crash leaves what was done, by which `start` goes on.
    pub fn leaves_what_was_done(&self)
        ensures { RunLeaves (⟦<S as NodeConfigs<D>>⟧.of self.now.voter.node)
            (vote_format S.Signature.format D.format) L.is_honest L.may_leave self.now self.now }
    {
        self.voter.leaves_what_was_done();
    }

    /// Does nothing. What a crash leaves is readable, so that a start from it is refused for memory
    /// alone (`what_is_readable_starts`).
    pub fn leaves_what_is_readable(&self)
        ensures { (left : List ℕ) → self.now.voter.journal.is_open ≡ true
            → L.is_honest self.now.voter.journal.log → L.may_leave self.now.voter.journal.log left
            → LeavesReadable (certificate_format S.Certificate.format D.format)
            (vote_format S.Signature.format D.format)
            (certifies_itself (S.meaning self.now.voter.node.scheme)) left }
    {
        self.voter.leaves_what_is_readable();
    }

    /// A part of what was sent is given again, since it may be lost: the finalization of the final
    /// view, own votes of the current view, the certificates of the two newest views, and in turn
    /// those of four others (`each_comes_again`). That is bounded, however many views aren't final.
    /// What wasn't signed is given to be signed again.
    pub fn send_again(&mut self)
        ensures meets { RunMeets (⟦<S as NodeConfigs<D>>⟧.of self.old.voter.node) self.old
            self.new again }
        ensures voter { self.new.voter ≡ self.old.voter }
    {
        let resent = self.place_again();
        self.note_again(resent);
    }

    // The place of the first vote that was sent and is to be sent again, or the end of those.
    fn place_again(&self) -> usize
        ensures { IsPlaceFrom self.now.voter.node.window.current
            self.now.voter.journal.contents.votes 0 self.now.given.tally.sent result }
    {
        let view = self.voter.node().window().current;
        place_from(self.voter.journal().votes(), 0, self.given.tally.sent, view)
    }

    // Own votes are to be sent again from this place on.
    fn note_again(&mut self, resent: usize)
        ensures given { self.new.given ≡ record self.old.given {
          tally = record self.old.given.tally { resent = resent };
          resending = record {
            from = self.old.voter.node.window.current;
            turn = turn_at self.old.voter.node.window self.old.given.resending.turn + 1;
          };
          forwarding = still_to_forward self.old.voter.node.window self.old.given.resending.turn
              self.old.given.forwarding;
          intent = record self.old.given.intent { signing = None; unsigned = nothing_unsigned };
        } }
        ensures voter { self.new.voter ≡ self.old.voter }
        ensures shelf { PutsBehind (λ c. is_again self.old.voter.node.window
            self.old.given.resending.turn (kind_and_round c)) self.old.shelf self.new.shelf }
    {
        let window = self.voter.node().window();
        let turn = self.given.resending.turn;
        self.given.tally.resent = resent;
        self.given.resending = Resending {
            from: window.current,
            turn: turn_at(window, turn) + 1,
        };
        self.given.forwarding = still_to_forward(window, turn, self.given.forwarding);
        self.given.intent.signing = None;
        self.given.intent.unsigned = Unsigned::nothing();
        self.shelf.begin_again(window, turn);
    }

    /// Whether no disk failed.
    pub fn is_open(&self) -> bool
        ensures open { result ≡ self.now.voter.journal.is_open }
        ensures followed { self.now.voter.journal.is_open ≡ true → MayBeWrittenBehind D.eq
            self.now.voter.journal.contents.floor [] self.now.voter.journal.contents.votes }
        ensures begins { BeginWithOneView self.now.voter }
    {
        self.voter.begins();
        self.voter.is_open()
    }

    // Who is blocked, and wasn't given to be. Where it is calm, nobody is looked for.
    fn next_block(&self) -> Option<(Participant, Cause)>
        ensures within { IfSome result (λ it.
            it.0.0 < length (S.meaning self.now.voter.node.scheme).participants) }
        ensures cause { IfSome result (λ it.
            cause_at self.now.voter.node.blocked it.0.0 ≡ Some it.1) }
        ensures not_yet { IfSome result (λ it.
            slice_get self.now.given.blocked it.0.0 ≡ Some false) }
        ensures none { result ≡ None → BlocksNobody ⟦<S as NodeConfigs<D>>⟧.of self.now }
    {
        if self.is_calm() {
            return None;
        }
        match self.find_block() {
            Some(it) => Some(it),
            None => None,
        }
    }

    fn is_calm(&self) -> bool
        ensures { result ≡ self.now.given.calm }
    {
        self.given.calm
    }

    pub(crate) fn note_calm(&mut self)
        ensures given { self.new.given ≡ record self.old.given { calm = true } }
        ensures voter { self.new.voter ≡ self.old.voter }
        ensures shelf { self.new.shelf ≡ self.old.shelf }
    {
        self.given.calm = true;
    }

    fn find_block(&self) -> Option<(Participant, Cause)>
        ensures within { IfSome result (λ it.
            it.0.0 < length (S.meaning self.now.voter.node.scheme).participants) }
        ensures cause { IfSome result (λ it.
            cause_at self.now.voter.node.blocked it.0.0 ≡ Some it.1) }
        ensures not_yet { IfSome result (λ it.
            slice_get self.now.given.blocked it.0.0 ≡ Some false) }
        ensures none { result ≡ None → (i : ℕ)
            → i < length (S.meaning self.now.voter.node.scheme).participants
            → (cause_at self.now.voter.node.blocked i ≡ None)
            ⊎ (slice_get self.now.given.blocked i ≡ Some true) }
    {
        let causes = self.voter.node().blocked();
        for i in 0..self.given.blocked.len() {
            match cause_of(causes, i) {
                Some(cause) => {
                    if !self.given.blocked[i] {
                        return Some((Participant(i as u32), cause));
                    }
                }
                None => {}
            }
        }
        None
    }

    fn note_block(&mut self, who: Participant)
        requires { who.0 < length (S.meaning self.old.voter.node.scheme).participants }
        ensures given { self.new.given ≡ record self.old.given {
          blocked = set self.old.given.blocked who.0 true;
        } }
        ensures voter { self.new.voter ≡ self.old.voter }
        ensures shelf { self.new.shelf ≡ self.old.shelf }
        ensures same { length self.old.given.blocked
            ≡ length (S.meaning self.old.voter.node.scheme).participants }
    {
        self.given.blocked[who.0 as usize] = true;
    }

    // The proposal that is to be given as final, with the place of its finalization.
    fn next_final(&self) -> Option<(usize, Proposal<D>)>
        ensures none { result ≡ None
            → HaveNoFinal self.now.given.announced self.now.shelf.certificates }
        ensures some { IfSome result (λ it. IsFinalAt self.now.given.announced
            self.now.shelf.certificates it.0 it.1) }
        ensures lowest { IfSome result (λ it. IsLowestFinal self.now.given.announced
            self.now.shelf.certificates it.1) }
    {
        self.final_after(self.announced())
    }

    // The proposal of the lowest finalization of a view above this one, with its place.
    fn final_after(&self, view: u64) -> Option<(usize, Proposal<D>)>
        ensures none { result ≡ None → HaveNoFinal view self.now.shelf.certificates }
        ensures some { IfSome result (λ it. IsFinalAt view self.now.shelf.certificates it.0
            it.1) }
        ensures lowest { IfSome result (λ it. IsLowestFinal view self.now.shelf.certificates
            it.1) }
    {
        self.shelf.final_after(view)
    }

    fn announced(&self) -> u64
        ensures { result ≡ self.now.given.announced }
    {
        self.given.announced
    }
}

impl<S: Scheme<D>, D: Digest + Codec> Validator<S, D, CopiedLog>
where
    S::Signature: Codec + Identical,
    S::Certificate: OwnedCodec,
{
    /// A write of all that the copy of its journal's log lacks is under way, by this number.
    pub fn note_given(&mut self, number: u64)
        ensures noted { self.new ≡ with_write_given self.old number }
        ensures stays { RunStays (⟦<S as NodeConfigs<D>>⟧.of self.old.voter.node) self.old
            self.new }
    {
        self.voter.note_given(number);
    }

    /// The write of its journal's log that was under way is done.
    pub fn note_done(&mut self)
        ensures noted { self.new ≡ with_write_done self.old }
        ensures stays { RunStays (⟦<S as NodeConfigs<D>>⟧.of self.old.voter.node) self.old
            self.new }
    {
        self.voter.note_done();
    }
}

// Why the participant of an index is blocked, if it is.
pub(crate) fn cause_of(causes: &[Option<Cause>], i: usize) -> Option<Cause>
    ensures { result ≡ cause_at causes.now i }
{
    match causes.get(i) {
        Some(cause) => *cause,
        None => None,
    }
}

/// Does nothing. Each certificate of a view behind the final one comes again, and nobody has to
/// ask. Let the final view stay while `send_again` is called a quarter as often as there are views
/// behind it, or more often: each of their certificates that was given by the end was given then.
pub fn each_comes_again<S: Scheme<D>, D: Digest + Codec>()
    ensures { (past more : ValidatorHistory D S.PublicKey S.Signature S.Certificate)
        (final highest : ℕ) (key : TheKind × TheRound)
        → StaysFinal final highest past more → highest ≤ final + agains more * 4
        → final < key.1.view.0 → key.1.view.0 ≤ highest → HasHanded (more ++ past) key
        → Contains more (gave (SendCertificate key.0 key.1)) }
{}

/// Does nothing. Where nothing comes meanwhile, no validator gives one task after the other for
/// ever: polled again and again, each comes to have nothing to give.
pub fn poll_comes_to_an_end<S: Scheme<D>, D: Digest + Codec, L: Log>()
where
    S::Signature: Codec + Identical,
    S::Certificate: OwnedCodec,
    ensures { (x : NodeConfig D S.PublicKey S.Signature S.Certificate)
        (validator : ℕ → ValidatorView S S.Signature D L S.Certificate)
        (task : ℕ → TheTask S.Signature D) → GivesOnAndOn x validator task → ⊥ }
{}
