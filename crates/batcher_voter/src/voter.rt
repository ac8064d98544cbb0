//! A voter: a node and a journal, which vote by the policy.

ghost use Rattle.std.specs.Prelude.{◌≡◌, ◌≤◌, [], List, length, ℕ, true};
ghost use Rattle.batcher_journal.specs.Answers.{MayBeWrittenBehind};
ghost use Rattle.batcher_journal.specs.Ready.{IsOnDisk};
ghost use Rattle.batcher_bytes.specs.Messages.{certificate_format, vote_format};
ghost use Rattle.batcher_node.specs.Windows.{is_of};
ghost use Rattle.batcher.specs.Verifiers.{certifies_itself};
ghost use Rattle.batcher_node.specs.Represents.{HasHistory};
ghost use Rattle.batcher_voter.specs.Keeping.{KeepsWhatIsKnown};
ghost use Rattle.batcher_voter.specs.Unstarted.{KeepsReadable, LeavesReadable};
ghost use Rattle.batcher_voter.specs.Voting.{BeginWithOneView, ForEachLife, VoterView};
ghost use Rattle.batcher_voter.specs.Voting.{LeavesWhatWasDone, VoterStays};
ghost use Rattle.batcher_bytes.specs.Copies.{is_done_in, is_given};

use crate::knowledge::Knowledge;
use batcher::messages::{Digest, Identical, Subject};
use batcher::positions::{Epoch, Round};
use batcher::scheme::Scheme;
use batcher_bytes::{Codec, CopiedLog, Log, OwnedCodec};
use batcher_journal::{Journal, bytes_are_of_one_journal};
use batcher_node::{Node, NodeConfigs};
use std::alloc::Global;
use std::marker::Model;

/// A node and the journal of its participant's votes. It votes by the policy, and hands out no vote
/// that isn't on the disk.
#[derive(Drop)]
pub struct Voter<S: Scheme<D>, D: Digest + Codec, L: Log>
where
    S::Signature: Codec,
    S::Certificate: OwnedCodec,
{
    pub(crate) alloc: Global,
    pub(crate) node: Node<S, D>,
    pub(crate) journal: Journal<S::Signature, D, L>,
    pub(crate) knowledge: Knowledge<D>,
    // The subject of a certificate that is known, and that there was no memory to keep. Until it is
    // kept no vote is written.
    pub(crate) waits: Option<Subject<D>>,
}

impl<S: Scheme<D>, D: Digest + Codec, L: Log> Model for Voter<S, D, L>
where
    S::Signature: Codec,
    S::Certificate: OwnedCodec,
{
    ghost use Rattle.std.specs.Prelude.{◌≤◌, length};
    ghost use Rattle.batcher.specs.Verifiers.{certifies_itself};
    ghost use Rattle.batcher_bytes.specs.Messages.{certificate_format};
    ghost use Rattle.batcher_voter.specs.Keeping.{KeepsWhatIsKnown};
    ghost use Rattle.batcher_voter.specs.Unstarted.{KeepsReadable};
    ghost use Rattle.batcher_voter.specs.Voting.{BeginWithOneView, VoterView};

    ghost Value = { VoterView S S.Signature D L };

    ghost view = { λ v. record {
      node = v.node;
      journal = v.journal;
      knowledge = v.knowledge;
      waits = v.waits;
    } };

    ghost invariant = { λ v. (1 ≤ length (S.meaning v.node.scheme).participants)
        × (BeginWithOneView (record {
          node = v.node;
          journal = v.journal;
          knowledge = v.knowledge;
          waits = v.waits;
        }) × (KeepsWhatIsKnown (certificate_format S.Certificate.format D.format) v.journal
        v.knowledge v.waits
        × KeepsReadable (certificate_format S.Certificate.format D.format)
        (certifies_itself (S.meaning v.node.scheme)) v.journal)) };
}

impl<S: Scheme<D>, D: Digest + Codec, L: Log> Voter<S, D, L>
where
    S::Signature: Codec + Identical,
    S::Certificate: OwnedCodec,
{
    /// The node, to look at: whom it blocks, and what its rounds have.
    pub fn node(&self) -> &Node<S, D>
        ensures { result.now ≡ self.now.node }
    {
        &self.node
    }

    /// The journal, to look at. Its votes are those to cast again after a restart.
    pub fn journal(&self) -> &Journal<S::Signature, D, L>
        ensures { result.now ≡ self.now.journal }
    {
        &self.journal
    }

    /// Whether no disk failed. What a voter has whose journal is open is on the disk, so a crash
    /// between two calls leaves what was done.
    pub fn is_open(&self) -> bool
        ensures open { result ≡ self.now.journal.is_open }
        ensures on_disk { self.now.journal.is_open ≡ true → IsOnDisk
            (vote_format S.Signature.format D.format) D.eq L.is_settled L.written self.now.journal }
        ensures followed { self.now.journal.is_open ≡ true → MayBeWrittenBehind D.eq
            self.now.journal.contents.floor [] self.now.journal.contents.votes }
    {
        self.journal.is_open()
    }

    /// Does nothing. Its contract says what each voter keeps true: somebody takes part, and node,
    /// journal and what is known begin with one view.
    pub fn begins(&self)
        ensures begins { BeginWithOneView self.now }
        ensures some { 1 ≤ length (S.meaning self.now.node.scheme).participants }
    {
        let _ = &self.node;
    }

    /// Does nothing. Each certificate that is known, from the final view on, is on the disk, or
    /// the next write puts it there, where the journal is open: but for one that waits for memory,
    /// and no vote is written meanwhile.
    pub fn keeps_what_it_knows(&self)
        ensures { KeepsWhatIsKnown (certificate_format S.Certificate.format D.format)
            self.now.journal self.now.knowledge self.now.waits }
    {
        let _ = &self.node;
    }

    /// Does nothing. All that an open journal has, written or not, is read as certificates of their
    /// rounds that certify, and its floor's as a finalization.
    pub fn keeps_what_is_readable(&self)
        ensures { KeepsReadable (certificate_format S.Certificate.format D.format)
            (certifies_itself (S.meaning self.now.node.scheme)) self.now.journal }
    {
        let _ = &self.node;
    }

    // Does nothing. There is a history that its node represents.
    pub(crate) fn has_history(&self)
        ensures { HasHistory (⟦<S as NodeConfigs<D>>⟧.of self.now.node) self.now.node }
    {
        self.node.promises();
    }

    /// The subject of the certificate that waits for memory, to be kept for the disk.
    pub fn waits(&self) -> Option<Subject<D>>
        ensures { result ≡ self.now.waits }
    {
        self.waits
    }

    /// The epoch that it votes in.
    pub fn epoch(&self) -> Epoch
        ensures { result ≡ self.now.node.epoch }
    {
        self.begins();
        self.knowledge.epoch()
    }

    // The final view, with which the window begins.
    pub(crate) fn first_view(&self) -> u64
        ensures { result ≡ self.now.node.window.finalized }
    {
        self.node.window().finalized
    }

    // Whether a round is of the epoch, and of a view in the window.
    pub(crate) fn is_within(&self, round: Round) -> bool
        ensures { result ≡ is_of self.now.node.epoch self.now.node.window round }
    {
        round.epoch.0 == self.knowledge.epoch().0 && self.node.window().contains(round.view.0)
    }

    /// Does nothing. A crash leaves what was done, where nothing is under way.
    pub fn leaves_what_was_done(&self)
        ensures { (left : List ℕ) → self.now.journal.is_open ≡ true
            → L.is_honest self.now.journal.log → L.may_leave self.now.journal.log left
            → ForEachLife (⟦<S as NodeConfigs<D>>⟧.of self.now.node) self.now (λ past earlier.
            LeavesWhatWasDone (vote_format S.Signature.format D.format) past earlier left) }
    {
        bytes_are_of_one_journal::<S::Signature, D>();
        let _ = self.is_open();
    }

    /// Does nothing. What a crash leaves, where nothing is under way, is readable, so that a start
    /// from it is refused for memory alone (`what_is_readable_starts`).
    pub fn leaves_what_is_readable(&self)
        ensures { (left : List ℕ) → self.now.journal.is_open ≡ true
            → L.is_honest self.now.journal.log → L.may_leave self.now.journal.log left
            → LeavesReadable (certificate_format S.Certificate.format D.format)
            (vote_format S.Signature.format D.format)
            (certifies_itself (S.meaning self.now.node.scheme)) left }
    {
        bytes_are_of_one_journal::<S::Signature, D>();
        self.keeps_what_is_readable();
        let _ = self.is_open();
    }
}

impl<S: Scheme<D>, D: Digest + Codec> Voter<S, D, CopiedLog>
where
    S::Signature: Codec + Identical,
    S::Certificate: OwnedCodec,
{
    /// A write of all that the copy of its journal's log lacks is under way, by this number.
    pub fn note_given(&mut self, number: u64)
        ensures noted { self.new ≡ record self.old {
          journal = record self.old.journal { log = is_given number self.old.journal.log };
        } }
        ensures stays { VoterStays (⟦<S as NodeConfigs<D>>⟧.of self.old.node) self.old self.new }
    {
        self.journal.note_given(number);
    }

    /// The write of its journal's log that was under way is done.
    pub fn note_done(&mut self)
        ensures noted { self.new ≡ record self.old {
          journal = record self.old.journal { log = is_done_in self.old.journal.log };
        } }
        ensures stays { VoterStays (⟦<S as NodeConfigs<D>>⟧.of self.old.node) self.old self.new }
    {
        self.journal.note_done();
    }
}
