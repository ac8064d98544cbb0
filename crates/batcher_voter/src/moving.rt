//! A view is made the final one.

ghost use Rattle.std.specs.Prelude.{◌≡◌, ◌<◌, ◌≤◌, Err, List, Ok, OnErr, OnOk, ℕ, true, false};
ghost use Rattle.batcher.specs.Votes.{kind_certified, round_in, subject_certified};
ghost use Rattle.batcher_node.specs.Events.{view_finalized};
ghost use Rattle.batcher_journal.specs.Ready.{HasContents, IsAsBefore, IsTooLongFor, RaiseLeaves};
ghost use Rattle.batcher_journal.specs.Ready.{raised};
ghost use Rattle.batcher_bytes.specs.Messages.{certificate_format, vote_format};
ghost use Rattle.batcher_journal.specs.Floors.{is_below};
ghost use Rattle.batcher_journal.specs.declared.journal.RaiseFault.TheVariants.{Closed as RaiseClosed};
ghost use Rattle.batcher_journal.specs.declared.journal.RaiseFault.TheVariants.{Full as RaiseFull};
ghost use Rattle.batcher_journal.specs.declared.journal.RaiseFault.TheVariants.{Lower};
ghost use Rattle.batcher_journal.specs.declared.journal.RaiseFault.TheVariants.{OutOfMemory as RaiseMemory};
ghost use Rattle.batcher_node.specs.Nodes.{SameNode};
ghost use Rattle.batcher_node.specs.Represents.{NodeMeets};
ghost use Rattle.batcher.specs.Verifiers.{certifies_itself};
ghost use Rattle.batcher.specs.messages.Kind.TheVariants.{Finalization};
ghost use Rattle.batcher_voter.specs.declared.answers.FinalizeFault.{FinalizeFault};
ghost use Rattle.batcher_voter.specs.Keeping.{IsFinalOf, WaitsFor};
ghost use Rattle.batcher.specs.messages.Subject.{Subject as TheSubject};
ghost use Rattle.batcher_voter.specs.Knowledge.{Forgets, HasRoom};
ghost use Rattle.batcher_voter.specs.Unstarted.{HasFinalization};
ghost use Rattle.batcher_bytes.specs.Copies.{KeepsCopy};
ghost use Rattle.batcher_voter.specs.Finalizing.{Finalizes};

use crate::answers::FinalizeFault;
use crate::learned::encoded;
use crate::voter::Voter;
use batcher::messages::{Certificate, Digest, Identical, Kind, Subject};
use batcher::positions::Round;
use batcher::scheme::Scheme;
use batcher_bytes::{Codec, Log, OwnedCodec};
use batcher_journal::{RaiseFault, bytes_are_of_one_journal};
use batcher_node::NodeConfigs;

impl<S: Scheme<D>, D: Digest + Codec, L: Log> Voter<S, D, L>
where
    S::Signature: Codec + Identical,
    S::Certificate: OwnedCodec,
{
    /// Makes a view the final one, by its finalization, which is verified and learned. The window,
    /// the journal and what is known begin with it from then on.
    pub fn finalize(
        &mut self,
        finalization: &Certificate<S::Certificate, D>,
    ) -> Result<(), FinalizeFault>
        ensures { Finalizes (⟦<S as NodeConfigs<D>>⟧.of self.old.node)
            (vote_format S.Signature.format D.format)
            (certificate_format S.Certificate.format D.format) L.is_too_small L.is_honest
            L.may_leave L.is_copied_as self.old finalization.now self.new result }
    {
        self.begins();
        self.leaves_what_was_done();
        let round = finalization.round();
        if finalization.kind() != Kind::Finalization {
            return Err(FinalizeFault::NotOfEpoch);
        }
        if round.epoch.0 != self.epoch().0 {
            return Err(FinalizeFault::NotOfEpoch);
        }
        if round.view.0 < self.first_view() {
            return Err(FinalizeFault::Passed);
        }
        if !self.verifies(finalization) {
            return Err(FinalizeFault::Forged);
        }
        match self.make_room(round.view.0) {
            Ok(()) => self.move_by(finalization),
            Err(_) => Err(FinalizeFault::OutOfMemory),
        }
    }

    // Begins with the view of a finalization, which certifies, and for which there is room.
    fn move_by(
        &mut self,
        finalization: &Certificate<S::Certificate, D>,
    ) -> Result<(), FinalizeFault>
        requires certifies { certifies_itself (S.meaning self.old.node.scheme) finalization.now
            ≡ true }
        requires epoch { (round_in (subject_certified finalization.now)).epoch
            ≡ self.old.node.epoch }
        requires up { self.old.node.window.finalized
            ≤ (round_in (subject_certified finalization.now)).view.0 }
        requires room { HasRoom self.old.knowledge
            (round_in (subject_certified finalization.now)).view.0 }
        requires kind { kind_certified finalization.now ≡ Finalization }
        ensures { Finalizes (⟦<S as NodeConfigs<D>>⟧.of self.old.node)
            (vote_format S.Signature.format D.format)
            (certificate_format S.Certificate.format D.format) L.is_too_small L.is_honest
            L.may_leave L.is_copied_as self.old finalization.now self.new result }
    {
        self.begins();
        self.leaves_what_was_done();
        bytes_are_of_one_journal::<S::Signature, D>();
        let bytes = match encoded(self.alloc, finalization) {
            Ok(bytes) => bytes,
            Err(_) => return Err(FinalizeFault::OutOfMemory),
        };
        match self.move_to(finalization.round(), &bytes) {
            Ok(()) => {
                self.note(finalization.subject());
                Ok(())
            }
            Err(RaiseFault::OutOfMemory) => Err(FinalizeFault::OutOfMemory),
            Err(RaiseFault::Full) => Err(FinalizeFault::Full),
            Err(RaiseFault::Lower) => Err(FinalizeFault::Closed),
            Err(RaiseFault::Closed) => Err(FinalizeFault::Closed),
        }
    }

    // Begins with a view, which isn't before the final one.
    fn move_to(&mut self, round: Round, finalization: &[u8]) -> Result<(), RaiseFault>
        requires epoch { round.epoch ≡ self.old.node.epoch }
        requires up { self.old.node.window.finalized ≤ round.view.0 }
        requires finalizes { IsFinalOf (certificate_format S.Certificate.format D.format) round
            finalization.now }
        requires readable { HasFinalization (certificate_format S.Certificate.format D.format)
            (raised self.old.journal.contents self.old.journal.unwritten
            self.old.journal.contents.owner round finalization.now)
            (certifies_itself (S.meaning self.old.node.scheme)) }
        ensures raised { OnOk result ((self.old.journal.is_open ≡ true)
            × (is_below self.old.journal.contents.floor round ≡ false)
            × HasContents self.new.journal
            (raised self.old.journal.contents self.old.journal.unwritten
            self.old.journal.contents.owner round finalization.now)) }
        ensures meets { OnOk result (NodeMeets (⟦<S as NodeConfigs<D>>⟧.of self.old.node)
            self.old.node (view_finalized round.view.0) self.new.node) }
        ensures begins { OnOk result (self.new.node.window.finalized ≡ round.view.0) }
        ensures forgets { OnOk result (Forgets round.view.0 self.old.knowledge
            self.new.knowledge) }
        ensures node { OnErr result (self.new.node ≡ self.old.node) }
        ensures knowledge { OnErr result (self.new.knowledge ≡ self.old.knowledge) }
        ensures memory { result ≡ Err RaiseMemory
            → IsAsBefore self.old.journal self.new.journal }
        ensures full { result ≡ Err RaiseFull → IsAsBefore self.old.journal self.new.journal }
        ensures too_long { result ≡ Err RaiseFull
            → IsTooLongFor (vote_format S.Signature.format D.format) L.is_too_small
            self.old.journal.log (raised self.old.journal.contents self.old.journal.unwritten
            self.old.journal.contents.owner round finalization.now) }
        ensures lower { result ≡ Err Lower → ⊥ }
        ensures closed { result ≡ Err RaiseClosed → self.new.journal.is_open ≡ false }
        ensures leaves { (left : List ℕ) → self.old.journal.is_open ≡ true
            → L.is_honest self.new.journal.log → L.may_leave self.new.journal.log left
            → RaiseLeaves (vote_format S.Signature.format D.format) D.eq self.old.journal
            self.old.journal.contents.owner round finalization.now left }
        ensures same { SameNode self.old.node self.new.node }
        ensures copied { KeepsCopy L.is_copied_as self.old.journal.log self.new.journal.log }
    {
        self.node.promises();
        match self.journal.raise_floor(round, finalization) {
            Ok(()) => {
                self.node.finalize(round.view);
                self.knowledge.forget_before(round.view.0);
                self.waits = waiting_from(self.waits, round.view.0);
                Ok(())
            }
            Err(fault) => Err(fault),
        }
    }

    // Whether a certificate certifies what it names.
    pub(crate) fn verifies(&self, certificate: &Certificate<S::Certificate, D>) -> bool
        ensures { result
            ≡ certifies_itself (S.meaning self.now.node.scheme) certificate.now }
    {
        self.node.verifies(certificate)
    }
}

// What waits to be kept, unless its view is before this one.
fn waiting_from<D: Digest>(waits: Option<Subject<D>>, first: u64) -> Option<Subject<D>>
    ensures { (t : TheSubject D) → first ≤ (round_in t).view.0 → WaitsFor waits t
        → WaitsFor result t }
{
    match waits {
        Some(subject) => {
            if subject.round().view.0 < first {
                return None;
            }
            Some(subject)
        }
        None => None,
    }
}
