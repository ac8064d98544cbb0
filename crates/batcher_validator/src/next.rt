//! What is to be done next, and what is to be written before.

ghost use Rattle.std.specs.Option.{option_map};
ghost use Rattle.std.specs.Prelude.{◌≡◌, ◌≢◌, ◌++◌, IfSome, MatchBool, None, Some, false, true};
ghost use Rattle.batcher_bytes.specs.Encodings.{signature_format};
ghost use Rattle.batcher_bytes.specs.Messages.{sha256_format, vote_format};
ghost use Rattle.batcher_journal.specs.Text.{OwnerFields};
ghost use Rattle.batcher_node.specs.Nodes.{SameNode};
ghost use Rattle.batcher_validator.specs.Disks.{GivesNext, IsAllWritten, disk_of, log_of};
ghost use Rattle.batcher_validator.specs.Disks.{under_way_of, with_write_done, with_write_given};
ghost use Rattle.batcher_validator.specs.Histories.{conduct_in};
ghost use Rattle.batcher_validator.specs.Running.{ForEachRun, RunStays};
ghost use Rattle.batcher_validator.specs.Unstarted.{HasNoVoter};
ghost use Rattle.batcher_voter.specs.Remembering.{IsLeft};
ghost use Rattle.batcher_voter.specs.declared.answers.StartFault.{StartFault as TheStartFault};
ghost use Rattle.batcher_voter.specs.declared.answers.StartFault.TheVariants.{OutOfMemory as NoMemory};

use crate::{PollFault, Task, Validator};
use batcher::messages::Sha256Digest;
use batcher_bytes::{CopiedLog, Owed, Signature, Signed, Truth};
use batcher_node::NodeConfigs;

/// What is to be done next.
#[derive(Clone, Copy, Debug, PartialEq, Eq)]
pub enum Next {
    /// Write what `owed` says: take it by `give`, and call `wrote` once it lasts.
    Write,
    /// Do this. All that it rests on is written.
    Do(Task<Signature, Sha256Digest>),
}

/// A validator whose caller verifies signatures and writes to the disk.
///
/// One write is under way at a time. What is sent or final waits until the disk has all that was
/// done before, and so does what is to be signed: else the disk might never have all. Other tasks
/// are given meanwhile.
impl<T: Truth> Validator<Signed<T, true>, Sha256Digest, CopiedLog> {
    /// What is to be done next. None where nothing is, until something comes: a message, an
    /// answer, or the end of the write that is under way. Ask this, and not `poll`, which gives
    /// tasks also where what they rest on isn't written.
    pub fn next(&mut self) -> Result<Option<Next>, PollFault>
        ensures next { GivesNext (⟦<Signed<T, true> as NodeConfigs<Sha256Digest>>⟧.of
            self.old.voter.node) self.old self.new result }
        ensures on_disk { self.new.voter.journal.log.copy
            ≡ self.old.voter.journal.log.copy }
        ensures same { SameNode self.old.voter.node self.new.voter.node }
    {
        if self.is_to_write() {
            return Ok(Some(Next::Write));
        }
        if self.is_writing() {
            return match self.poll_meanwhile() {
                Ok(Some(task)) => Ok(Some(Next::Do(task))),
                Ok(None) => Ok(None),
                Err(fault) => Err(fault),
            };
        }
        match self.poll() {
            Ok(Some(task)) => Ok(Some(Next::Do(task))),
            Ok(None) => Ok(None),
            Err(fault) => Err(fault),
        }
    }

    /// Does nothing. What is taken to be on the disk, once it is there, has what was done, by which
    /// `restart` goes on. A write that is given leaves that, as it was then.
    pub fn log_has_what_was_done(&self)
        ensures { self.now.voter.journal.is_open ≡ true → ForEachRun
            (⟦<Signed<T, true> as NodeConfigs<Sha256Digest>>⟧.of self.now.voter.node)
            self.now (λ past earlier. IsLeft
            (vote_format signature_format sha256_format) (conduct_in earlier past)
            (log_of self.now)) }
    {
        self.leaves_what_was_done();
    }

    /// Does nothing. From what is taken to be on the disk, once it is there, a start is refused for
    /// memory alone, and so it is from what it was when a write was given.
    pub fn log_starts(&self)
        ensures { self.now.voter.journal.is_open ≡ true
            → (owner : OwnerFields) (fault : TheStartFault)
            → HasNoVoter owner (log_of self.now) fault → fault ≡ NoMemory }
    {
        self.leaves_what_is_readable();
    }

    // Whether something is to be written, and no write is under way.
    fn is_to_write(&self) -> bool
        ensures yes { result ≡ true → (disk_of self.now ≢ log_of self.now)
            × (under_way_of self.now ≡ None) }
        ensures no { result ≡ false → under_way_of self.now ≡ None
            → disk_of self.now ≡ log_of self.now }
    {
        self.log().owed().is_some()
    }

    // Whether a write is under way.
    fn is_writing(&self) -> bool
        ensures { MatchBool result (under_way_of self.now ≢ None)
            (under_way_of self.now ≡ None) }
    {
        self.log().under_way().is_some()
    }

    /// Whether the disk has all that was done, as far as its caller has said.
    pub fn is_written(&self) -> bool
        ensures { MatchBool result (IsAllWritten self.now)
            (IsAllWritten self.now → ⊥) }
    {
        !self.is_writing() && !self.is_to_write()
    }

    /// What is to be written, where no write is under way. With it the disk has what the validator
    /// takes to be there.
    pub fn owed(&self) -> Option<Owed<'_>>
        ensures some { IfSome result (λ owed. MatchBool owed.replaces
            (owed.bytes.now ≡ log_of self.now)
            (disk_of self.now ++ owed.bytes.now
            ≡ log_of self.now)) }
        ensures lacks { IfSome result (λ owed.
            disk_of self.now ≢ log_of self.now) }
        ensures waits { IfSome result (λ owed. under_way_of self.now ≡ None) }
        ensures none { result ≡ None → under_way_of self.now ≡ None
            → disk_of self.now ≡ log_of self.now }
    {
        self.log().owed()
    }

    /// A write of what is owed is under way, by this number. No where none is to be given: one is
    /// under way, or all is written.
    pub fn give(&mut self, number: u64) -> bool
        ensures gives { result ≡ true
            → self.new ≡ with_write_given self.old number }
        ensures stays { result ≡ false → self.new ≡ self.old }
        ensures why { MatchBool result ((under_way_of self.old ≡ None)
            × (disk_of self.old ≢ log_of self.old))
            (under_way_of self.old ≡ None
            → disk_of self.old ≡ log_of self.old) }
        ensures rests { RunStays (⟦<Signed<T, true> as NodeConfigs<Sha256Digest>>⟧.of
            self.old.voter.node) self.old self.new }
    {
        if !self.is_to_write() {
            return false;
        }
        self.note_given(number);
        true
    }

    /// The write that is under way by this number lasts: what was given then, and nothing that came
    /// since. No where none is under way by it.
    pub fn wrote(&mut self, number: u64) -> bool
        ensures written { result ≡ true
            → self.new ≡ with_write_done self.old }
        ensures stays { result ≡ false → self.new ≡ self.old }
        ensures why { MatchBool result
            (option_map (λ it. it.0) (under_way_of self.old) ≡ Some number)
            (option_map (λ it. it.0) (under_way_of self.old) ≢ Some number) }
        ensures rests { RunStays (⟦<Signed<T, true> as NodeConfigs<Sha256Digest>>⟧.of
            self.old.voter.node) self.old self.new }
    {
        if self.log().under_way() != Some(number) {
            return false;
        }
        self.note_done();
        true
    }

    // The bytes that the validator takes to be on the disk, and what its caller has written.
    fn log(&self) -> &CopiedLog
        ensures { result.now ≡ self.now.voter.journal.log }
    {
        self.voter().journal().log()
    }
}
