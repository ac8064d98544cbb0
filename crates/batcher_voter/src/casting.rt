//! A vote is written, and then shown to the node.

ghost use Rattle.std.specs.Prelude.{◌≡◌, ◌≢◌, ◌⊎◌, ◌∷◌, [], Contains, Err, IfErr, IfOk, List};
ghost use Rattle.std.specs.Prelude.{MatchBool, None, Ok, OnErr, OnOk, ℕ, true, false};
ghost use Rattle.batcher.specs.Votes.{attestation_of, round_in, subject_of};
ghost use Rattle.batcher_node.specs.Events.{view_history};
ghost use Rattle.batcher_journal.specs.Answers.{MayBeWrittenBehind};
ghost use Rattle.batcher_journal.specs.Ready.{HasContents, HasNoRoomFor, IsAsBefore, WriteLeaves};
ghost use Rattle.batcher_journal.specs.Ready.{with_more};
ghost use Rattle.batcher_bytes.specs.Messages.{vote_format};
ghost use Rattle.batcher_journal.specs.declared.journal.WriteFault.TheVariants.{Closed as WriteClosed};
ghost use Rattle.batcher_journal.specs.declared.journal.WriteFault.TheVariants.{Full as NoRoom};
ghost use Rattle.batcher_journal.specs.declared.journal.WriteFault.TheVariants.{NotFree};
ghost use Rattle.batcher_journal.specs.declared.journal.WriteFault.TheVariants.{OutOfMemory as NoMemory};
ghost use Rattle.batcher_node.specs.Nodes.{SameNode};
ghost use Rattle.batcher_node.specs.Represents.{ForEachNodeHistory, SimulatesCast, config_of};
ghost use Rattle.batcher.specs.Answers.{own_answer};
ghost use Rattle.batcher.specs.Steps.{fault_or_memory};
ghost use Rattle.batcher_voter.specs.declared.answers.CastFault.{CastFault};
ghost use Rattle.batcher_voter.specs.declared.answers.Permission.TheVariants.{Known, Sign};
ghost use Rattle.batcher_voter.specs.Voting.{ForEachLife, LeavesVote, Permits, Says, Shows};
ghost use Rattle.batcher_voter.specs.Voting.{WhyNotShown, OnlyNode};
ghost use Rattle.batcher_voter.specs.Keeping.{HasWrittenAll};
ghost use Rattle.batcher_bytes.specs.Copies.{KeepsCopy};
ghost use Rattle.batcher_voter.specs.Casting.{CastsVote, WritesVote};

use crate::answers::{CastFault, Permission};
use crate::voter::Voter;
use batcher::messages::{Certificate, Digest, Identical, Vote};
use batcher::round::OwnFault;
use batcher::scheme::Scheme;
use batcher_bytes::{Codec, Log, OwnedCodec};
use batcher_journal::{WriteFault, bytes_are_of_one_journal};
use batcher_node::{Cast, NodeConfigs};

impl<S: Scheme<D>, D: Digest + Codec, L: Log> Voter<S, D, L>
where
    S::Signature: Codec + Identical,
    S::Certificate: OwnedCodec,
{
    /// Casts a vote, which attests: it is written, unless it was before, and then shown to the
    /// node, which says whether it is to be sent. So nothing is to be sent, and no construction
    /// counts it, before it is on the disk. Where a certificate waits to be kept, hand it in: it
    /// is written with the vote, and without it none is.
    pub fn cast(
        &mut self,
        vote: Vote<S::Signature, D>,
        waiting: Option<&Certificate<S::Certificate, D>>,
    ) -> Result<Cast<S::Signature, D>, CastFault<S::Signature, D>>
        requires { (S.meaning self.old.node.scheme).attests (subject_of vote) (attestation_of vote)
            ≡ true }
        ensures casts { CastsVote (⟦<S as NodeConfigs<D>>⟧.of self.old.node) D.eq
            (vote_format S.Signature.format D.format) L.is_full L.is_honest L.may_leave
            L.is_copied_as self.old vote self.new result }
        // Its write has all that is known.
        ensures all { OnOk result ((self.new ≡ self.old) ⊎ (HasWrittenAll self.new
            ⊎ Contains self.old.journal.contents.votes vote)) }
    {
        self.rests(&vote);
        if vote.signer().0 != self.journal.participant().0 {
            return Err(CastFault::NotOwn);
        }
        match self.ask(&vote.subject()) {
            Permission::Sign => self.write_and_show(vote, waiting),
            Permission::Known(known) => self.show_again(vote, &known),
            Permission::Refused(rule) => Err(CastFault::Refused(rule)),
            Permission::Outside => Ok(Cast::Outside),
            Permission::Closed => Err(CastFault::Closed),
        }
    }

    // Casts a vote that may be signed.
    fn write_and_show(
        &mut self,
        vote: Vote<S::Signature, D>,
        waiting: Option<&Certificate<S::Certificate, D>>,
    ) -> Result<Cast<S::Signature, D>, CastFault<S::Signature, D>>
        requires attests { (S.meaning self.old.node.scheme).attests (subject_of vote)
            (attestation_of vote) ≡ true }
        requires says { Says (⟦<S as NodeConfigs<D>>⟧.of self.old.node) D.eq self.old
            (subject_of vote) Sign }
        requires permits { ForEachLife (⟦<S as NodeConfigs<D>>⟧.of self.old.node) self.old (Permits
            (⟦<S as NodeConfigs<D>>⟧.of self.old.node) D.eq self.old (subject_of vote) Sign) }
        ensures casts { CastsVote (⟦<S as NodeConfigs<D>>⟧.of self.old.node) D.eq
            (vote_format S.Signature.format D.format) L.is_full L.is_honest L.may_leave
            L.is_copied_as self.old vote self.new result }
        ensures all { OnOk result (HasWrittenAll self.new) }
    {
        match self.write(vote, waiting) {
            Ok(()) => match self.show(vote) {
                Ok(cast) => Ok(cast),
                Err(fault) => Err(fault),
            },
            Err(fault) => Err(fault),
        }
    }

    // Casts a vote that was written, unless this one is another.
    fn show_again(
        &mut self,
        vote: Vote<S::Signature, D>,
        known: &Vote<S::Signature, D>,
    ) -> Result<Cast<S::Signature, D>, CastFault<S::Signature, D>>
        requires attests { (S.meaning self.old.node.scheme).attests (subject_of vote)
            (attestation_of vote) ≡ true }
        requires says { Says (⟦<S as NodeConfigs<D>>⟧.of self.old.node) D.eq self.old
            (subject_of vote) (Known known.now) }
        requires permits { ForEachLife (⟦<S as NodeConfigs<D>>⟧.of self.old.node) self.old (Permits
            (⟦<S as NodeConfigs<D>>⟧.of self.old.node) D.eq self.old (subject_of vote)
            (Known known.now)) }
        ensures casts { CastsVote (⟦<S as NodeConfigs<D>>⟧.of self.old.node) D.eq
            (vote_format S.Signature.format D.format) L.is_full L.is_honest L.may_leave
            L.is_copied_as self.old vote self.new result }
        ensures before { OnOk result (Contains self.old.journal.contents.votes vote) }
        ensures stays { OnErr result (self.new ≡ self.old) }
    {
        self.rests(&vote);
        if !is_one_vote(&vote, known) {
            return Err(CastFault::Signed(*known));
        }
        match self.show(vote) {
            Ok(cast) => Ok(cast),
            Err(fault) => Err(fault),
        }
    }

    // Writes a vote that may be signed, behind the certificate that waits to be kept.
    fn write(
        &mut self,
        vote: Vote<S::Signature, D>,
        waiting: Option<&Certificate<S::Certificate, D>>,
    ) -> Result<(), CastFault<S::Signature, D>>
        requires says { Says (⟦<S as NodeConfigs<D>>⟧.of self.old.node) D.eq self.old
            (subject_of vote) Sign }
        requires permits { ForEachLife (⟦<S as NodeConfigs<D>>⟧.of self.old.node) self.old (Permits
            (⟦<S as NodeConfigs<D>>⟧.of self.old.node) D.eq self.old (subject_of vote) Sign) }
        ensures { WritesVote (⟦<S as NodeConfigs<D>>⟧.of self.old.node) D.eq
            (vote_format S.Signature.format D.format) L.is_full L.is_honest L.may_leave
            L.is_copied_as self.old vote self.new result }
    {
        self.keep_given(waiting);
        match self.write_kept(vote) {
            Ok(()) => Ok(()),
            Err(fault) => Err(fault),
        }
    }

    // The same, where what waited is kept, as far as there is memory.
    fn write_kept(&mut self, vote: Vote<S::Signature, D>) -> Result<(), CastFault<S::Signature, D>>
        requires says { Says (⟦<S as NodeConfigs<D>>⟧.of self.old.node) D.eq self.old
            (subject_of vote) Sign }
        requires permits { ForEachLife (⟦<S as NodeConfigs<D>>⟧.of self.old.node) self.old (Permits
            (⟦<S as NodeConfigs<D>>⟧.of self.old.node) D.eq self.old (subject_of vote) Sign) }
        ensures { WritesVote (⟦<S as NodeConfigs<D>>⟧.of self.old.node) D.eq
            (vote_format S.Signature.format D.format) L.is_full L.is_honest L.may_leave
            L.is_copied_as self.old vote self.new result }
    {
        bytes_are_of_one_journal::<S::Signature, D>();
        self.begins();
        match self.put(&vote) {
            Ok(()) => Ok(()),
            Err(WriteFault::OutOfMemory) => Err(CastFault::OutOfMemory),
            Err(WriteFault::Full) => Err(CastFault::Full),
            Err(WriteFault::NotFree) => Err(CastFault::Closed),
            Err(WriteFault::Closed) => Err(CastFault::Closed),
        }
    }

    // Puts a vote into the journal.
    fn put(&mut self, vote: &Vote<S::Signature, D>) -> Result<(), WriteFault>
        requires { self.old.journal.is_open ≡ true }
        ensures ok { OnOk result (HasContents self.new.journal
            (with_more self.old.journal.contents (vote.now ∷ []) self.old.journal.unwritten)) }
        ensures none { OnOk result (self.new.waits ≡ None) }
        ensures memory { result ≡ Err NoMemory → IsAsBefore self.old.journal self.new.journal }
        ensures full { result ≡ Err NoRoom → IsAsBefore self.old.journal self.new.journal }
        ensures no_room { result ≡ Err NoRoom → HasNoRoomFor
            (vote_format S.Signature.format D.format) L.is_full self.old.journal.log (vote.now ∷ [])
            self.old.journal.unwritten }
        ensures not_free { result ≡ Err NotFree
            → MayBeWrittenBehind D.eq self.old.journal.contents.floor
            self.old.journal.contents.votes (vote.now ∷ []) → ⊥ }
        ensures closed { result ≡ Err WriteClosed → (self.new.journal.is_open ≡ false)
            × L.has_failed self.new.journal.log }
        ensures leaves { (left : List ℕ) → L.is_honest self.new.journal.log
            → L.may_leave self.new.journal.log left
            → WriteLeaves (vote_format S.Signature.format D.format) D.eq self.old.journal
            (vote.now ∷ []) left }
        ensures node { self.new.node ≡ self.old.node }
        ensures knowledge { self.new.knowledge ≡ self.old.knowledge }
        ensures copied { KeepsCopy L.is_copied_as self.old.journal.log self.new.journal.log }
    {
        // What an open journal has is on the disk.
        let _ = self.is_open();
        // A vote is written with all that is known, or not at all.
        if self.has_waiting() {
            return Err(WriteFault::OutOfMemory);
        }
        let mut one = Vec::new(self.alloc);
        match one.push(*vote) {
            Ok(()) => self.write_all(&one),
            Err(_) => Err(WriteFault::OutOfMemory),
        }
    }

    // Puts votes into the journal.
    fn write_all(&mut self, votes: &[Vote<S::Signature, D>]) -> Result<(), WriteFault>
        requires { self.old.journal.is_open ≡ true }
        ensures ok { OnOk result (HasContents self.new.journal
            (with_more self.old.journal.contents votes.now self.old.journal.unwritten)) }
        ensures memory { result ≡ Err NoMemory → IsAsBefore self.old.journal self.new.journal }
        ensures full { result ≡ Err NoRoom → IsAsBefore self.old.journal self.new.journal }
        ensures no_room { result ≡ Err NoRoom → HasNoRoomFor
            (vote_format S.Signature.format D.format) L.is_full self.old.journal.log votes.now
            self.old.journal.unwritten }
        ensures not_free { result ≡ Err NotFree
            → MayBeWrittenBehind D.eq self.old.journal.contents.floor
            self.old.journal.contents.votes votes.now → ⊥ }
        ensures closed { result ≡ Err WriteClosed → (self.new.journal.is_open ≡ false)
            × L.has_failed self.new.journal.log }
        ensures leaves { (left : List ℕ) → L.is_honest self.new.journal.log
            → L.may_leave self.new.journal.log left
            → WriteLeaves (vote_format S.Signature.format D.format) D.eq self.old.journal votes.now
            left }
        ensures node { self.new.node ≡ self.old.node }
        ensures knowledge { self.new.knowledge ≡ self.old.knowledge }
        ensures waits { self.new.waits ≡ self.old.waits }
        ensures copied { KeepsCopy L.is_copied_as self.old.journal.log self.new.journal.log }
    {
        self.journal.write(votes)
    }

    // Shows the node a vote that was written, and says whether it is to be sent.
    fn show(
        &mut self,
        vote: Vote<S::Signature, D>,
    ) -> Result<Cast<S::Signature, D>, CastFault<S::Signature, D>>
        requires attests { (S.meaning self.old.node.scheme).attests (subject_of vote)
            (attestation_of vote) ≡ true }
        requires open { self.old.journal.is_open ≡ true }
        requires there { Contains self.old.journal.contents.votes vote }
        ensures meets { IfOk result (λ cast. Shows (⟦<S as NodeConfigs<D>>⟧.of self.old.node)
            self.old vote cast self.new) }
        ensures refused { OnErr result (self.new ≡ self.old) }
        ensures why { IfErr result (WhyNotShown (⟦<S as NodeConfigs<D>>⟧.of self.old.node)
            self.old.node vote) }
        ensures full { result ≡ Err CastFault.Full → ⊥ }
        ensures same { SameNode self.old.node self.new.node }
        ensures journal { self.new.journal ≡ self.old.journal }
        ensures waits { self.new.waits ≡ self.old.waits }
    {
        match self.call_cast(vote) {
            Ok(cast) => Ok(cast),
            Err(OwnFault::OutOfMemory) => Err(CastFault::OutOfMemory),
            Err(fault) => Err(CastFault::Excluded(fault)),
        }
    }

    // The node casts a vote.
    fn call_cast(&mut self, vote: Vote<S::Signature, D>) -> Result<Cast<S::Signature, D>, OwnFault>
        requires { (S.meaning self.old.node.scheme).attests (subject_of vote) (attestation_of vote)
            ≡ true }
        ensures meets { IfOk result (λ cast. SimulatesCast
            (⟦<S as NodeConfigs<D>>⟧.of self.old.node) self.old.node vote cast self.new.node) }
        ensures named { IfErr result (λ fault. ForEachNodeHistory
            (⟦<S as NodeConfigs<D>>⟧.of self.old.node) self.old.node (λ past.
            let view = (round_in (subject_of vote)).view.0 in
            fault ≡ fault_or_memory (own_answer
            (config_of (⟦<S as NodeConfigs<D>>⟧.of self.old.node) past view)
            (view_history view past) vote))) }
        ensures refused { OnErr result (self.new ≡ self.old) }
        ensures frame { OnlyNode self.old self.new }
    {
        self.node.promises();
        self.node.cast_vote(vote)
    }

    // The same as of a vote.
    fn rests(&self, vote: &Vote<S::Signature, D>)
        ensures { (left : List ℕ) → self.now.journal.is_open ≡ true
            → L.is_honest self.now.journal.log → L.may_leave self.now.journal.log left
            → ForEachLife (⟦<S as NodeConfigs<D>>⟧.of self.now.node) self.now (λ past earlier.
            LeavesVote (vote_format S.Signature.format D.format) past earlier vote.now left) }
    {
        self.leaves_what_was_done();
    }
}

// Whether two votes for one subject are one vote.
fn is_one_vote<G: Identical, D: Digest>(a: &Vote<G, D>, b: &Vote<G, D>) -> bool
    requires { subject_of a.now ≡ subject_of b.now }
    ensures { MatchBool result (a.now ≡ b.now) (a.now ≢ b.now) }
{
    a.attestation() == b.attestation()
}
