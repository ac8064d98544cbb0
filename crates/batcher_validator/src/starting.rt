//! A validator is begun, and started again by what its disk has.

ghost use Rattle.std.specs.Prelude.{◌≡◌, ◌≤◌, [], Err, IfOk, length};
ghost use Rattle.batcher_agreement.specs.Policy.{Conduct, KeepsPolicy};
ghost use Rattle.batcher_bytes.specs.Encodings.{proof_format, signature_format};
ghost use Rattle.batcher_bytes.specs.Keys.{same_digest};
ghost use Rattle.batcher_bytes.specs.Messages.{certificate_format, sha256_format, vote_format};
ghost use Rattle.batcher_journal.specs.Causes.{Cause};
ghost use Rattle.batcher_validator.specs.Disks.{disk_of, under_way_of};
ghost use Rattle.batcher_validator.specs.Unstarted.{HasNoVoter};
ghost use Rattle.batcher_journal.specs.Text.{IsText, fields_of};
ghost use Rattle.batcher_journal.specs.declared.journal.OpenFault.{OpenFault as TheOpenFault};
ghost use Rattle.batcher_journal.specs.Ready.{begun};
ghost use Rattle.batcher_validator.specs.Running.{HasBegun};
ghost use Rattle.batcher_node.specs.Windows.{numbered};
ghost use Rattle.batcher_voter.specs.Remembering.{IsLeft, Remembers};
ghost use Rattle.batcher_voter.specs.declared.answers.StartFault.{StartFault as TheStartFault};

use crate::Validator;
use batcher::messages::Sha256Digest;
use batcher::positions::{Epoch, Round, View};
use batcher_bytes::{CopiedLog, Signature, Signed, Truth};
use batcher_journal::{Journal, OpenFault, Owner, Unopened, bytes_are_of_one_journal};
use batcher_node::NodeConfigs;
use batcher_voter::{NotStarted, StartFault};
use std::alloc::Global;
use std::rc::Rc;

/// Why there is no validator of what a disk has.
#[derive(Clone, Copy, Debug, PartialEq, Eq)]
pub enum DiskFault {
    OutOfMemory,
    /// The bytes are no journal of this owner.
    NotOpened(OpenFault),
    /// What the journal has makes no voter.
    NotStarted(StartFault),
}

impl<T: Truth> Validator<Signed<T, true>, Sha256Digest, CopiedLog> {
    /// A validator of whose participant nothing was ever signed, on a disk that has no bytes. What
    /// it gives first is to write what `owed` says: its journal, without votes, from the start of
    /// the epoch on. Begin it once, and start it again by its disk.
    pub fn begin(
        alloc: Global,
        scheme: Rc<Signed<T, true>>,
        ahead: u64,
        track_historical_votes: bool,
        owner: &Owner,
        epoch: Epoch,
    ) -> Result<Self, DiskFault>
        requires { 1 ≤ length scheme.value.participants }
        ensures running { IfOk result (λ it. HasBegun
            (⟦<Signed<T, true> as NodeConfigs<Sha256Digest>>⟧.of it.voter.node)
            (certificate_format proof_format sha256_format) [] it) }
        ensures on_disk { IfOk result (λ it. (disk_of it ≡ [])
            × (under_way_of it ≡ None)) }
        ensures journal { IfOk result (λ it. it.voter.journal.contents
            ≡ begun (fields_of owner.now) (numbered epoch 0) []) }
        ensures scheme { IfOk result (λ it. it.voter.node.scheme ≡ scheme.value) }
        ensures epoch { IfOk result (λ it. it.voter.node.epoch ≡ epoch) }
        ensures retains { IfOk result (λ it.
            it.voter.node.retains ≡ track_historical_votes) }
        ensures ahead { IfOk result (λ it. it.voter.node.window.ahead ≡ ahead) }
    {
        let mut log = CopiedLog::new(alloc);
        let floor = Round::new(epoch, View(0));
        match Journal::<Signature, Sha256Digest, CopiedLog>::begin(
            alloc, &mut log, owner, floor, b"",
        ) {
            Ok(()) => {}
            // The log is in memory, and has no bytes.
            Err(_) => return Err(DiskFault::OutOfMemory),
        }
        bytes_are_of_one_journal::<Signature, Sha256Digest>();
        match Validator::of_log(alloc, scheme, ahead, track_historical_votes, owner, log) {
            Ok(it) => Ok(it),
            Err(fault) => Err(fault),
        }
    }

    /// The validator whose journal is on the disk as these bytes. It gave nothing so far in this
    /// life, and goes on from what was done in earlier ones.
    pub fn restart(
        alloc: Global,
        scheme: Rc<Signed<T, true>>,
        ahead: u64,
        track_historical_votes: bool,
        owner: &Owner,
        bytes: Vec<u8>,
    ) -> Result<Self, DiskFault>
        requires { 1 ≤ length scheme.value.participants }
        ensures running { IfOk result (λ it. (earlier : Conduct _)
            → IsLeft (vote_format signature_format sha256_format) earlier bytes.items
            → HasBegun (⟦<Signed<T, true> as NodeConfigs<Sha256Digest>>⟧.of
            it.voter.node) (certificate_format proof_format sha256_format) earlier
            it) }
        ensures cause { (fault : TheOpenFault) → result ≡ Err (DiskFault.NotOpened fault) → Cause
            (vote_format signature_format sha256_format) bytes.items (fields_of owner.now)
            same_digest fault }
        ensures why { (fault : TheStartFault) → result ≡ Err (DiskFault.NotStarted fault)
            → HasNoVoter (fields_of owner.now) bytes.items fault }
        ensures on_disk { IfOk result (λ it. (disk_of it ≡ bytes.items)
            × (under_way_of it ≡ None)) }
        ensures scheme { IfOk result (λ it. it.voter.node.scheme ≡ scheme.value) }
        ensures text { IfOk result (λ it. IsText (vote_format signature_format sha256_format)
            bytes.items it.voter.journal.contents) }
        ensures epoch { IfOk result (λ it. it.voter.node.epoch
            ≡ it.voter.journal.contents.floor.epoch) }
        ensures owner { IfOk result (λ it.
            it.voter.journal.contents.owner ≡ fields_of owner.now) }
        ensures retains { IfOk result (λ it.
            it.voter.node.retains ≡ track_historical_votes) }
        ensures ahead { IfOk result (λ it. it.voter.node.window.ahead ≡ ahead) }
    {
        Validator::of_log(
            alloc,
            scheme,
            ahead,
            track_historical_votes,
            owner,
            CopiedLog::of(bytes),
        )
    }

    // The validator whose journal is in a log.
    fn of_log(
        alloc: Global,
        scheme: Rc<Signed<T, true>>,
        ahead: u64,
        track_historical_votes: bool,
        owner: &Owner,
        log: CopiedLog,
    ) -> Result<Self, DiskFault>
        requires { 1 ≤ length scheme.value.participants }
        ensures running { IfOk result (λ it. (earlier : Conduct _) → KeepsPolicy earlier
            → Remembers earlier it.voter.journal.contents
            → HasBegun (⟦<Signed<T, true> as NodeConfigs<Sha256Digest>>⟧.of
            it.voter.node) (certificate_format proof_format sha256_format) earlier
            it) }
        ensures text { IfOk result (λ it. IsText (vote_format signature_format sha256_format)
            log.bytes it.voter.journal.contents) }
        ensures cause { (fault : TheOpenFault) → result ≡ Err (DiskFault.NotOpened fault) → Cause
            (vote_format signature_format sha256_format) log.bytes (fields_of owner.now)
            same_digest fault }
        ensures why { (fault : TheStartFault) → result ≡ Err (DiskFault.NotStarted fault)
            → HasNoVoter (fields_of owner.now) log.bytes fault }
        ensures on_disk { IfOk result (λ it. it.voter.journal.log.copy ≡ log.copy) }
        ensures scheme { IfOk result (λ it. it.voter.node.scheme ≡ scheme.value) }
        ensures epoch { IfOk result (λ it. it.voter.node.epoch
            ≡ it.voter.journal.contents.floor.epoch) }
        ensures owner { IfOk result (λ it.
            it.voter.journal.contents.owner ≡ fields_of owner.now) }
        ensures retains { IfOk result (λ it.
            it.voter.node.retains ≡ track_historical_votes) }
        ensures ahead { IfOk result (λ it. it.voter.node.window.ahead ≡ ahead) }
    {
        let journal = match Journal::open(alloc, log, owner) {
            Ok(journal) => journal,
            Err(Unopened { fault, .. }) => return Err(DiskFault::NotOpened(fault)),
        };
        match Validator::start(alloc, scheme, ahead, track_historical_votes, journal) {
            Ok(validator) => Ok(validator),
            Err(NotStarted { fault, .. }) => Err(DiskFault::NotStarted(fault)),
        }
    }
}
