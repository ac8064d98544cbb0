//! The journal of a validator's own votes.

ghost use Rattle.std.specs.Prelude.{◌≡◌, ◌≢◌, ◌⊎◌, ◌++◌, ◌≤◌, [], Err, IfErr, IfOk, List, OnErr};
ghost use Rattle.std.specs.Prelude.{OnOk, drop, length, ℕ, true, false};
ghost use Rattle.std.specs.List.{list_any};
ghost use Rattle.batcher_bytes.specs.Messages.{vote_format};
ghost use Rattle.batcher_journal.specs.Answers.{Answers, MayBeWrittenBehind};
ghost use Rattle.batcher_journal.specs.Causes.{Cause, IsOneText};
ghost use Rattle.batcher_journal.specs.Floors.{is_below};
ghost use Rattle.batcher_journal.specs.Lives.{NeverContradicts};
ghost use Rattle.batcher_journal.specs.Ready.{HasContents, HasNoRoomFor, IsAsBefore, IsOnDisk};
ghost use Rattle.batcher_journal.specs.Ready.{IsTooLongFor, JournalView, Keeps};
ghost use Rattle.batcher_journal.specs.Ready.{RaiseLeaves, WriteLeaves, begun, raised, with_more};
ghost use Rattle.batcher_journal.specs.Records.{AreRecords, Certified as KeptBytes, records_of};
ghost use Rattle.batcher_journal.specs.Records.{records_text};
ghost use Rattle.batcher_journal.specs.Text.{IsText, fields_of};
ghost use Rattle.batcher_journal.specs.declared.journal.BeginFault.TheVariants.{Failed as BeginFailed};
ghost use Rattle.batcher_journal.specs.declared.journal.BeginFault.TheVariants.{OutOfMemory as BeginMemory};
ghost use Rattle.batcher_journal.specs.declared.journal.BeginFault.TheVariants.{Taken};
ghost use Rattle.batcher_journal.specs.declared.journal.RaiseFault.TheVariants.{Closed as RaiseClosed};
ghost use Rattle.batcher_journal.specs.declared.journal.RaiseFault.TheVariants.{Full as RaiseFull};
ghost use Rattle.batcher_journal.specs.declared.journal.RaiseFault.TheVariants.{Lower};
ghost use Rattle.batcher_journal.specs.declared.journal.RaiseFault.TheVariants.{OutOfMemory as RaiseMemory};
ghost use Rattle.batcher_journal.specs.declared.journal.WriteFault.TheVariants.{Closed as WriteClosed};
ghost use Rattle.batcher_journal.specs.declared.journal.WriteFault.TheVariants.{Full as NoRoom};
ghost use Rattle.batcher_journal.specs.declared.journal.WriteFault.TheVariants.{NotFree};
ghost use Rattle.batcher_journal.specs.declared.journal.WriteFault.TheVariants.{OutOfMemory as NoMemory};
ghost use Rattle.batcher_bytes.specs.declared.log.LogFault.TheVariants.{Failed as LogFailed};
ghost use Rattle.batcher_bytes.specs.declared.log.LogFault.TheVariants.{Full as LogFull};
ghost use Rattle.batcher_bytes.specs.declared.log.LogFault.TheVariants.{OutOfMemory as LogMemory};
ghost use Rattle.batcher_bytes.specs.Copies.{KeepsCopy, is_done_in, is_given};
ghost use Rattle.batcher_types.specs.Votes.{round_in, same_round, subject_of};

use crate::asking::{answer_of, is_before, may_follow};
use crate::contents::{Kept, Raised, first_text, kept_in, raise};
use crate::indexed::IndexedVotes;
use crate::owner::{Owner, Whose};
use crate::records::{Certified, put_records};
use batcher_bytes::{Codec, CopiedLog, Log, LogFault};
use batcher_types::messages::{Digest, Subject, Vote};
use batcher_types::positions::{Participant, Round};
use std::alloc::{AllocError, Global};
use std::marker::Model;

/// What a journal answers of a subject.
#[derive(Clone, Copy, Debug, PartialEq, Eq)]
pub enum Answer<G, D> {
    /// It may be signed. Write the vote before it is sent.
    Sign,
    /// It was signed: this vote may be sent again, and no other of the subject.
    Known(Vote<G, D>),
    /// It contradicts this vote, so it isn't to be signed.
    Refused(Vote<G, D>),
    /// Its round is before the floor, where votes are forgotten, so it isn't to be signed.
    Over,
    /// The disk failed, and nothing is known until the journal is opened again.
    Closed,
}

/// Why a journal wasn't opened.
#[derive(Clone, Copy, Debug, PartialEq, Eq)]
pub enum OpenFault {
    OutOfMemory,
    /// Nothing was written yet: begin the journal.
    NotBegun,
    /// It is of another version of this library.
    OtherVersion,
    /// Its digests or signatures have other lengths.
    OtherLengths,
    /// It is another participant's.
    OtherParticipant,
    /// It is of an epoch with other keys.
    OtherKeys,
    /// It is of another namespace.
    OtherNamespace,
    /// Its bytes are no journal's.
    Malformed,
    /// Its votes contradict each other, or are of rounds before its floor, so that no journal wrote
    /// them.
    Contradiction,
}

impl From<AllocError> for OpenFault {
    ghost use Rattle.batcher_journal.specs.declared.journal.OpenFault.TheVariants.{OutOfMemory};

    ghost from_gives = { λ _ e. e ≡ OutOfMemory };

    fn from(_: AllocError) -> Self {
        OpenFault::OutOfMemory
    }
}

/// Why a journal wasn't begun.
#[derive(Clone, Copy, Debug, PartialEq, Eq)]
pub enum BeginFault {
    /// Memory or room in the log is out.
    OutOfMemory,
    /// The log has bytes: open the journal that they are.
    Taken,
    /// The disk failed.
    Failed,
}

/// Why a vote wasn't written.
#[derive(Clone, Copy, Debug, PartialEq, Eq)]
pub enum WriteFault {
    /// Nothing has changed.
    OutOfMemory,
    /// The log has no room left. Nothing has changed. Raise the floor.
    Full,
    /// One of the subjects isn't to be signed, as `ask` says. Nothing has changed.
    NotFree,
    /// The disk failed, now or before. Open the journal again.
    Closed,
}

/// Why the floor wasn't raised.
#[derive(Clone, Copy, Debug, PartialEq, Eq)]
pub enum RaiseFault {
    /// Nothing has changed.
    OutOfMemory,
    /// So many bytes are more than a log has room for. Nothing has changed.
    Full,
    /// It is above this round. Nothing has changed.
    Lower,
    /// The disk failed, now or before. Open the journal again.
    Closed,
}

/// Why a journal wasn't opened, with the log that it isn't in.
#[derive(Drop)]
pub struct Unopened<L> {
    pub fault: OpenFault,
    pub log: L,
}

/// A validator's own votes, on a disk and in memory.
#[derive(Drop)]
pub struct Journal<G: Codec, D: Digest + Codec, L: Log> {
    log: L,
    kept: Kept<G, D>,
    // How many of the certificates are on the disk.
    written: usize,
    is_open: bool,
}

impl<G: Codec, D: Digest + Codec, L: Log> Model for Journal<G, D, L> {
    ghost use Rattle.std.specs.Prelude.{◌≡◌, ◌≤◌, drop, length, true};
    ghost use Rattle.batcher_bytes.specs.Messages.{vote_format};
    ghost use Rattle.batcher_journal.specs.Ready.{IsReady, JournalView, first_of};
    ghost use Rattle.batcher_journal.specs.Seen.{contents_of};

    ghost Value = { JournalView G D L };

    ghost view = { λ j. record {
      log = j.log;
      contents = first_of j.written (contents_of j.kept);
      unwritten = drop j.written j.kept.certificates.items;
      is_open = j.is_open;
    } };

    ghost invariant = { λ j. (j.written ≤ length j.kept.certificates.items)
        × (j.is_open ≡ true → IsReady (vote_format G.format D.format) D.eq L.is_settled L.written
        j.log (first_of j.written (contents_of j.kept))) };
}

impl<G: Codec, D: Digest + Codec, L: Log> Journal<G, D, L> {
    /// Begins a journal without votes, in a log without bytes. Nothing is signed in rounds before
    /// the floor, which is above each round in which this participant may have voted.
    pub fn begin(
        alloc: Global,
        log: &mut L,
        owner: &Owner,
        floor: Round,
        finalization: &[u8],
    ) -> Result<(), BeginFault>
        requires { L.is_settled log.old }
        ensures begun { OnOk result (L.is_settled log.new
            × IsText (vote_format G.format D.format) (L.written log.new)
            (begun (fields_of owner.now) floor finalization.now)) }
        ensures memory { result ≡ Err BeginMemory
            → L.is_settled log.new × (L.written log.new ≡ L.written log.old) }
        ensures taken { result ≡ Err Taken → (log.new ≡ log.old) × (L.written log.old ≢ []) }
        ensures replaces_nothing { L.written log.old ≢ [] → result ≡ Err Taken }
        ensures failed { result ≡ Err BeginFailed → L.has_failed log.new }
        // Whatever it answers, a crash leaves what was there, or the journal that was begun.
        ensures leaves { (left : List ℕ) → L.is_honest log.new → L.may_leave log.new left
            → (left ≡ L.written log.old) ⊎ IsText (vote_format G.format D.format) left
            (begun (fields_of owner.now) floor finalization.now) }
        ensures opens { L.is_honest log.new → L.may_lose log.new → ⊥ }
        ensures honest { L.is_honest log.new → L.is_honest log.old }
        ensures copied { KeepsCopy L.is_copied_as log.old log.new }
    {
        if !log.bytes().is_empty() {
            return Err(BeginFault::Taken);
        }
        let text = match first_text::<G, D>(alloc, owner, floor, finalization) {
            Ok(text) => text,
            Err(_) => return Err(BeginFault::OutOfMemory),
        };
        match log.replace(&text) {
            Ok(()) => Ok(()),
            Err(LogFault::OutOfMemory | LogFault::Full) => Err(BeginFault::OutOfMemory),
            Err(LogFault::Failed) => Err(BeginFault::Failed),
        }
    }

    /// The journal that is in a log, if it is this owner's.
    pub fn open(alloc: Global, log: L, owner: &Owner) -> Result<Self, Unopened<L>>
        requires { L.is_settled log }
        ensures opened { IfOk result (λ journal. (journal.is_open ≡ true) × (journal.log ≡ log)
            × (journal.contents.owner ≡ fields_of owner.now) × (journal.unwritten ≡ [])
            × IsText (vote_format G.format D.format) (L.written log) journal.contents) }
        ensures refused { IfErr result (λ it. (it.log ≡ log) × Cause (vote_format G.format D.format)
            (L.written log) (fields_of owner.now) D.eq it.fault) }
    {
        match kept_in::<G, D>(alloc, log.bytes(), owner) {
            Ok(kept) => {
                let written = kept.certificates.len();
                Ok(Journal {
                    log,
                    kept,
                    written,
                    is_open: true,
                })
            }
            Err(fault) => Err(Unopened { fault, log }),
        }
    }

    /// The log that it is in, to look at.
    pub fn log(&self) -> &L
        ensures { result.now ≡ self.now.log }
    {
        &self.log
    }

    /// The log that it is in.
    pub fn into_log(self) -> L
        ensures { result ≡ self.log }
    {
        let Journal { log, .. } = self;
        log
    }

    /// Whether no disk failed since it was opened. What an open journal has is on the disk.
    pub fn is_open(&self) -> bool
        ensures open { result ≡ self.now.is_open }
        ensures on_disk { self.now.is_open ≡ true → IsOnDisk (vote_format G.format D.format) D.eq
            L.is_settled L.written self.now }
        ensures followed { self.now.is_open ≡ true
            → MayBeWrittenBehind D.eq self.now.contents.floor [] self.now.contents.votes }
    {
        self.is_open
    }

    /// Whose votes they are.
    pub fn participant(&self) -> Participant
        ensures { result.0 ≡ self.now.contents.owner.1.1.0 }
    {
        self.kept.owner.lend().participant
    }

    /// The namespace in which they are signed.
    pub fn namespace(&self) -> &[u8]
        ensures { result.now ≡ self.now.contents.owner.1.1.1.1 }
    {
        self.kept.owner.lend().namespace
    }

    /// The round below which nothing is signed.
    pub fn floor(&self) -> Round
        ensures { result ≡ self.now.contents.floor }
    {
        self.kept.floor
    }

    /// The bytes of the floor's finalization.
    pub fn finalization(&self) -> &[u8]
        ensures { result.now ≡ self.now.contents.finalization }
    {
        &self.kept.finalization
    }

    /// The votes from the floor on, in the order in which they were written.
    pub fn votes(&self) -> &[Vote<G, D>]
        ensures { result.now ≡ self.now.contents.votes }
    {
        self.kept.votes.as_slice()
    }

    /// Whether one of the votes is of the round. It is found without going over them.
    pub fn has_vote_of(&self, round: Round) -> bool
        ensures { result ≡ list_any (λ vote. same_round (round_in (subject_of vote)) round)
            self.now.contents.votes }
    {
        self.kept.votes.has_one_of(round)
    }

    /// The certificates that are on the disk beside them.
    pub fn certificates(&self) -> &[Certified]
        ensures { result.now ≡ self.now.contents.certificates }
    {
        &self.kept.certificates[..self.written]
    }

    /// The certificates that the next write puts there.
    pub fn unwritten(&self) -> &[Certified]
        ensures { result.now ≡ self.now.unwritten }
    {
        let from = self.written;
        &self.kept.certificates[from..]
    }

    /// Keeps a certificate, of a round from the floor on. It is on the disk with the next votes,
    /// also where there are none: a crash before that loses it.
    pub fn keep(&mut self, round: Round, certificate: &[u8]) -> Result<(), AllocError>
        ensures kept { OnOk result (Keeps self.old self.new (round, certificate.now)) }
        ensures memory { OnErr result (self.new ≡ self.old) }
        ensures copied { KeepsCopy L.is_copied_as self.old.log self.new.log }
    {
        let alloc = *self.kept.certificates.allocator();
        let it = Certified::new(alloc, round, certificate)?;
        self.kept.certificates.push(it)?;
        Ok(())
    }

    /// Takes back the certificate that was kept last: it isn't to be written any more.
    pub fn take_back(&mut self)
        ensures back { (before : JournalView G D L) (it : KeptBytes)
            → Keeps before self.old it → self.new ≡ before }
        ensures copied { KeepsCopy L.is_copied_as self.old.log self.new.log }
    {
        let len = self.kept.certificates.len();
        if self.written < len {
            self.kept.certificates.truncate(len - 1);
        }
    }

    /// What is to be done about a subject, before it is signed.
    pub fn ask(&self, subject: &Subject<D>) -> Answer<G, D>
        ensures { Answers D.eq self.now.contents.floor self.now.is_open self.now.contents.votes
            subject.now result }
    {
        if self.is_open {
            answer_of(&self.kept.votes, self.kept.floor, subject)
        } else {
            Answer::Closed
        }
    }

    /// Writes votes for subjects that are to be signed, each behind those before it, and the
    /// certificates that were kept since the last time. At `Ok` all of them are on the disk, and
    /// the votes may be sent.
    pub fn write(&mut self, votes: &[Vote<G, D>]) -> Result<(), WriteFault>
        ensures written { OnOk result ((self.old.is_open ≡ true)
            × MayBeWrittenBehind D.eq self.old.contents.floor self.old.contents.votes votes.now
            × HasContents self.new (with_more self.old.contents votes.now self.old.unwritten)) }
        ensures on_disk { OnOk result (IsOnDisk (vote_format G.format D.format) D.eq
            L.is_settled L.written self.new) }
        ensures memory { result ≡ Err NoMemory → IsAsBefore self.old self.new }
        ensures full { result ≡ Err NoRoom → IsAsBefore self.old self.new }
        ensures no_room { result ≡ Err NoRoom → HasNoRoomFor (vote_format G.format D.format)
            L.is_full self.old.log votes.now self.old.unwritten }
        ensures not_free { result ≡ Err NotFree → (self.new ≡ self.old) × (MayBeWrittenBehind D.eq
            self.old.contents.floor self.old.contents.votes votes.now → ⊥) }
        ensures closed { result ≡ Err WriteClosed → (self.new.is_open ≡ false)
            × ((self.old.is_open ≡ false) ⊎ L.has_failed self.new.log) }
        ensures shut { self.old.is_open ≡ false
            → (result ≡ Err WriteClosed) × (self.new ≡ self.old) }
        // Whatever it answers, a crash leaves what was there before it, or these votes too: where
        // the disk has kept what it said.
        ensures leaves { (left : List ℕ) → self.old.is_open ≡ true
            → L.is_honest self.new.log → L.may_leave self.new.log left
            → WriteLeaves (vote_format G.format D.format) D.eq self.old votes.now left }
        ensures opens { self.old.is_open ≡ true → L.is_honest self.new.log
            → L.may_lose self.new.log → ⊥ }
        ensures honest { L.is_honest self.new.log → L.is_honest self.old.log }
        ensures copied { KeepsCopy L.is_copied_as self.old.log self.new.log }
    {
        if !self.is_open {
            return Err(WriteFault::Closed);
        }
        if !may_follow(&self.kept.votes, self.kept.floor, votes) {
            return Err(WriteFault::NotFree);
        }
        let unwritten = &self.kept.certificates[self.written..];
        match write_to(&mut self.log, &mut self.kept.votes, votes, unwritten) {
            Ok(()) => {
                self.kept.votes.index_more();
                self.written = self.kept.certificates.len();
                Ok(())
            }
            Err(LogFault::OutOfMemory) => Err(WriteFault::OutOfMemory),
            Err(LogFault::Full) => Err(WriteFault::Full),
            Err(LogFault::Failed) => {
                self.is_open = false;
                Err(WriteFault::Closed)
            }
        }
    }

    /// Raises the floor to a round, of which this is the finalization. What is of rounds before it
    /// is forgotten, and nothing more is signed there. At `Ok` all of it is on the disk.
    pub fn raise_floor(&mut self, floor: Round, finalization: &[u8]) -> Result<(), RaiseFault>
        ensures raised { OnOk result ((self.old.is_open ≡ true)
            × (is_below self.old.contents.floor floor ≡ false) × HasContents self.new
            (raised self.old.contents self.old.unwritten self.old.contents.owner floor
            finalization.now)) }
        ensures on_disk { OnOk result (IsOnDisk (vote_format G.format D.format) D.eq
            L.is_settled L.written self.new) }
        ensures memory { result ≡ Err RaiseMemory → IsAsBefore self.old self.new }
        ensures full { result ≡ Err RaiseFull → IsAsBefore self.old self.new }
        ensures too_long { result ≡ Err RaiseFull → IsTooLongFor (vote_format G.format D.format)
            L.is_too_small self.old.log (raised self.old.contents self.old.unwritten
            self.old.contents.owner floor finalization.now) }
        ensures lower { result ≡ Err Lower → (self.new ≡ self.old)
            × (is_below self.old.contents.floor floor ≡ true) }
        ensures closed { result ≡ Err RaiseClosed → (self.new.is_open ≡ false)
            × ((self.old.is_open ≡ false) ⊎ L.has_failed self.new.log) }
        ensures shut { self.old.is_open ≡ false
            → (result ≡ Err RaiseClosed) × (self.new ≡ self.old) }
        // Whatever it answers, a crash leaves what was there, or what the floor leaves of it.
        ensures leaves { (left : List ℕ) → self.old.is_open ≡ true
            → L.is_honest self.new.log → L.may_leave self.new.log left
            → RaiseLeaves (vote_format G.format D.format) D.eq self.old self.old.contents.owner
            floor finalization.now left }
        ensures opens { self.old.is_open ≡ true → L.is_honest self.new.log
            → L.may_lose self.new.log → ⊥ }
        ensures honest { L.is_honest self.new.log → L.is_honest self.old.log }
        ensures copied { KeepsCopy L.is_copied_as self.old.log self.new.log }
    {
        if !self.is_open {
            return Err(RaiseFault::Closed);
        }
        match Whose::of(self.kept.votes.allocator(), &self.kept.owner.lend()) {
            Ok(owner) => self.begin_epoch(&owner.lend(), floor, finalization),
            Err(_) => Err(RaiseFault::OutOfMemory),
        }
    }

    /// Begins an epoch with other keys, in the same way.
    pub fn begin_epoch(
        &mut self,
        owner: &Owner,
        floor: Round,
        finalization: &[u8],
    ) -> Result<(), RaiseFault>
        ensures raised { OnOk result ((self.old.is_open ≡ true)
            × (is_below self.old.contents.floor floor ≡ false) × HasContents self.new
            (raised self.old.contents self.old.unwritten (fields_of owner.now) floor
            finalization.now)) }
        ensures on_disk { OnOk result (IsOnDisk (vote_format G.format D.format) D.eq
            L.is_settled L.written self.new) }
        ensures memory { result ≡ Err RaiseMemory → IsAsBefore self.old self.new }
        ensures full { result ≡ Err RaiseFull → IsAsBefore self.old self.new }
        ensures too_long { result ≡ Err RaiseFull → IsTooLongFor (vote_format G.format D.format)
            L.is_too_small self.old.log (raised self.old.contents self.old.unwritten
            (fields_of owner.now) floor finalization.now) }
        ensures lower { result ≡ Err Lower → (self.new ≡ self.old)
            × (is_below self.old.contents.floor floor ≡ true) }
        ensures closed { result ≡ Err RaiseClosed → (self.new.is_open ≡ false)
            × ((self.old.is_open ≡ false) ⊎ L.has_failed self.new.log) }
        ensures shut { self.old.is_open ≡ false
            → (result ≡ Err RaiseClosed) × (self.new ≡ self.old) }
        ensures leaves { (left : List ℕ) → self.old.is_open ≡ true
            → L.is_honest self.new.log → L.may_leave self.new.log left
            → RaiseLeaves (vote_format G.format D.format) D.eq self.old (fields_of owner.now)
            floor finalization.now left }
        ensures opens { self.old.is_open ≡ true → L.is_honest self.new.log
            → L.may_lose self.new.log → ⊥ }
        ensures honest { L.is_honest self.new.log → L.is_honest self.old.log }
        ensures copied { KeepsCopy L.is_copied_as self.old.log self.new.log }
    {
        if !self.is_open {
            return Err(RaiseFault::Closed);
        }
        if is_before(self.kept.floor, floor) {
            return Err(RaiseFault::Lower);
        }
        let alloc = self.kept.votes.allocator();
        let (votes, certificates) = (self.kept.votes.as_slice(), &self.kept.certificates);
        let raised = raise(alloc, owner, floor, finalization, votes, certificates);
        let Raised { text, kept } = match raised {
            Ok(raised) => raised,
            Err(_) => return Err(RaiseFault::OutOfMemory),
        };
        match self.log.replace(&text) {
            Ok(()) => {
                self.written = kept.certificates.len();
                self.kept = kept;
                Ok(())
            }
            Err(LogFault::OutOfMemory) => Err(RaiseFault::OutOfMemory),
            Err(LogFault::Full) => Err(RaiseFault::Full),
            Err(LogFault::Failed) => {
                self.is_open = false;
                Err(RaiseFault::Closed)
            }
        }
    }
}

impl<G: Codec, D: Digest + Codec> Journal<G, D, CopiedLog> {
    /// A write of all that the copy of its log lacks is under way, by this number.
    pub fn note_given(&mut self, number: u64)
        ensures { self.new ≡ record self.old { log = is_given number self.old.log } }
    {
        self.log.note_given(number);
    }

    /// The write of its log that was under way is done.
    pub fn note_done(&mut self)
        ensures { self.new ≡ record self.old { log = is_done_in self.old.log } }
    {
        self.log.note_done();
    }
}

// Writes votes and certificates to the log, and then keeps the votes.
fn write_to<G: Codec, D: Digest + Codec, L: Log>(
    log: &mut L,
    votes: &mut IndexedVotes<G, D>,
    more: &[Vote<G, D>],
    certificates: &[Certified],
) -> Result<(), LogFault>
    requires { L.is_settled log.old }
    ensures ok { OnOk result (L.is_settled log.new
        × (L.written log.new ≡ L.written log.old
        ++ records_text (vote_format G.format D.format) (records_of more.now certificates.now))
        × AreRecords (vote_format G.format D.format) (records_of more.now certificates.now)
        × (votes.new ≡ votes.old ++ more.now)) }
    ensures kept { (result ≡ Err LogMemory) ⊎ (result ≡ Err LogFull)
        → L.is_settled log.new × (L.written log.new ≡ L.written log.old) }
    ensures full { result ≡ Err LogFull → L.is_full log.old
        (records_text (vote_format G.format D.format) (records_of more.now certificates.now)) }
    ensures failed { result ≡ Err LogFailed → L.has_failed log.new }
    ensures err { OnErr result (votes.new ≡ votes.old) }
    ensures leaves { (left : List ℕ) → L.is_honest log.new → L.may_leave log.new left
        → (left ≡ L.written log.old) ⊎ ((left ≡ L.written log.old
        ++ records_text (vote_format G.format D.format) (records_of more.now certificates.now))
        × AreRecords (vote_format G.format D.format) (records_of more.now certificates.now)) }
    ensures opens { L.is_honest log.new → L.may_lose log.new → ⊥ }
    ensures honest { L.is_honest log.new → L.is_honest log.old }
    ensures copied { KeepsCopy L.is_copied_as log.old log.new }
{
    let mut bytes = Vec::new(votes.allocator());
    // As the record of a vote has with a digest of 32 bytes and a signature of 64.
    match bytes.reserve(127) {
        Ok(()) => {}
        Err(_) => return Err(LogFault::OutOfMemory),
    }
    match put_records(more, certificates, &mut bytes) {
        Ok(()) => {}
        Err(_) => return Err(LogFault::OutOfMemory),
    }
    let len = votes.as_slice().len();
    match votes.extend(more) {
        Ok(()) => {}
        Err(_) => return Err(LogFault::OutOfMemory),
    }
    match log.append(&bytes) {
        Ok(()) => Ok(()),
        Err(fault) => {
            votes.truncate(len);
            Err(fault)
        }
    }
}

/// Bytes are of one journal at most. So what a crash may leave is what a journal that is opened
/// has.
pub fn bytes_are_of_one_journal<G: Codec, D: Codec>()
    ensures { IsOneText (vote_format G.format D.format) }
{}

/// Over any life no two votes that were handed out contradict each other, none of one subject has
/// two signatures, and each is on the disk, unless its round is over.
pub fn handed_out_never_contradict<G: Copy, D: Digest>()
    ensures { NeverContradicts G D.eq }
{}
