//! A proposal is given as final, and who fell behind catches up.

ghost use Rattle.std.specs.Prelude.{◌≡◌, Err, IfOk, IfSome, None, Ok, OnErr};
ghost use Rattle.std.specs.Prelude.{Some, not, take, false};
ghost use Rattle.std.specs.List.{count_by, filter, slice_get};
ghost use Rattle.batcher.specs.messages.Certificate.{Certificate as TheCertificate};
ghost use Rattle.batcher_bytes.specs.Messages.{certificate_format, vote_format};
ghost use Rattle.batcher_journal.specs.Floors.{is_over};
ghost use Rattle.batcher_validator.specs.Disks.{IsTooLongToAnnounce};
ghost use Rattle.batcher_validator.specs.Ending.{GivesTask, HasLessLeft};
ghost use Rattle.batcher_validator.specs.Running.{ForEachRun, RunLeaves, RunStays, tally_from};
ghost use Rattle.batcher_validator.specs.Running.{left_of, SameRun};
ghost use Rattle.batcher_validator.specs.Shelves.{IsFinalAt, IsLowestFinal, IsToAnnounce, is_from};
ghost use Rattle.batcher_validator.specs.declared.task.PollFault.{PollFault};
ghost use Rattle.batcher_voter.specs.declared.answers.FinalizeFault.{FinalizeFault};
ghost use Rattle.batcher_voter.specs.Finalizing.{Finalizes};

use crate::tally::Tally;
use crate::task::{PollFault, Task};
use crate::validator::Validator;
use batcher::messages::{Digest, Identical, Proposal, Vote};
use batcher::positions::Round;
use batcher::scheme::Scheme;
use batcher_bytes::{Codec, Log, OwnedCodec};
use batcher_journal::is_before;
use batcher_node::NodeConfigs;
use batcher_voter::FinalizeFault;

impl<S: Scheme<D>, D: Digest + Codec, L: Log> Validator<S, D, L>
where
    S::Signature: Codec + Identical,
    S::Certificate: OwnedCodec,
{
    // Gives the proposal of the finalization at this place as final.
    pub(crate) fn announce(
        &mut self,
        i: usize,
        proposal: Proposal<D>,
    ) -> Result<Option<Task<S::Signature, D>>, PollFault>
        requires there { IsFinalAt self.old.given.announced self.old.shelf.certificates i proposal }
        requires lowest { IsLowestFinal self.old.given.announced self.old.shelf.certificates
            proposal }
        ensures gives { IfOk result (λ given. IfSome given
            (GivesTask (⟦<S as NodeConfigs<D>>⟧.of self.old.voter.node) self.old self.new)) }
        ensures less { IfOk result (λ given. IfSome given
            (HasLessLeft (⟦<S as NodeConfigs<D>>⟧.of self.old.voter.node) self.old self.new)) }
        ensures nothing { result ≡ Ok None → ForEachRun
            (⟦<S as NodeConfigs<D>>⟧.of self.old.voter.node) self.old (λ past earlier. ⊥) }
        ensures to_announce { IsToAnnounce self.old.given.announced self.old.shelf.certificates }
        ensures stays { OnErr result
            (RunStays (⟦<S as NodeConfigs<D>>⟧.of self.old.voter.node) self.old self.new) }
        ensures closed { result ≡ Err PollFault.Closed
            → self.new.voter.journal.is_open ≡ false }
        ensures memory { result ≡ Err PollFault.OutOfMemory
            → self.new.voter.journal.is_open ≡ self.old.voter.journal.is_open }
        ensures full { result ≡ Err PollFault.Full
            → self.new.voter.journal.is_open ≡ self.old.voter.journal.is_open }
        ensures too_long { result ≡ Err PollFault.Full → IsTooLongToAnnounce
            (vote_format S.Signature.format D.format)
            (certificate_format S.Certificate.format D.format) L.is_too_small self.old }
        ensures leaves { RunLeaves (⟦<S as NodeConfigs<D>>⟧.of self.old.voter.node)
            (vote_format S.Signature.format D.format) L.is_honest L.may_leave self.old self.new }
        ensures frame { SameRun L.is_copied_as self.old self.new }
    {
        let left = self.tally_from(proposal.round);
        match self.finalize_at(i, &proposal) {
            Ok(()) => {
                self.note_final(left, proposal.round.view.0);
                Ok(Some(Task::Final(proposal)))
            }
            Err(FinalizeFault::OutOfMemory) => Err(PollFault::OutOfMemory),
            Err(FinalizeFault::Full) => Err(PollFault::Full),
            Err(FinalizeFault::Closed) => Err(PollFault::Closed),
            // What is kept certifies, is of the epoch, and isn't before the final view.
            Err(FinalizeFault::NotOfEpoch) => Ok(None),
            Err(FinalizeFault::Passed) => Ok(None),
            Err(FinalizeFault::Forged) => Ok(None),
        }
    }

    // The voter makes the view of the finalization at this place the final one.
    fn finalize_at(&mut self, i: usize, proposal: &Proposal<D>) -> Result<(), FinalizeFault>
        requires { IsFinalAt self.old.given.announced self.old.shelf.certificates i proposal.now }
        ensures finalizes { (c : TheCertificate S.Certificate D)
            → slice_get self.old.shelf.certificates i ≡ Some c
            → Finalizes (⟦<S as NodeConfigs<D>>⟧.of self.old.voter.node)
            (vote_format S.Signature.format D.format)
            (certificate_format S.Certificate.format D.format) L.is_too_small L.is_honest
            L.may_leave L.is_copied_as self.old.voter c self.new.voter result }
        ensures leaves { RunLeaves (⟦<S as NodeConfigs<D>>⟧.of self.old.voter.node)
            (vote_format S.Signature.format D.format) L.is_honest L.may_leave self.old self.new }
        ensures frame { SameRun L.is_copied_as self.old self.new }
        ensures given { self.new.given ≡ self.old.given }
        ensures shelf { self.new.shelf ≡ self.old.shelf }
    {
        self.voter.finalize(self.shelf.at(i))
    }

    // The tally where the votes of rounds before this one are gone.
    fn tally_from(&self, floor: Round) -> Tally
        ensures { result ≡ tally_from floor self.now }
    {
        let tally = self.tally();
        Tally {
            begun: self.left_of(tally.begun, floor),
            recast: self.left_of(tally.recast, floor),
            sent: self.left_of(tally.sent, floor),
            resent: self.left_of(tally.resent, floor),
        }
    }

    // How many of the first votes are of rounds from this one on.
    fn left_of(&self, count: usize, floor: Round) -> usize
        ensures { result ≡ left_of floor self.now.voter.journal.contents.votes count }
    {
        let votes = self.voter.journal().votes();
        if count < votes.len() {
            return count_from(&votes[..count], floor);
        }
        count_from(votes, floor)
    }

    // A view is the final one.
    fn note_final(&mut self, tally: Tally, view: u64)
        ensures given { self.new.given ≡ record self.old.given {
          tally = tally;
          announced = view;
        } }
        ensures voter { self.new.voter ≡ self.old.voter }
        ensures certificates { self.new.shelf.certificates
            ≡ filter (is_from view) self.old.shelf.certificates }
        ensures handed { self.new.shelf.handed ≡ count_by (is_from view)
            (take self.old.shelf.handed self.old.shelf.certificates) }
    {
        self.given.tally = tally;
        self.given.announced = view;
        self.shelf.drop_before(view);
    }
}

// How many votes are of rounds from this one on.
fn count_from<G: Copy, D: Digest>(votes: &[Vote<G, D>], floor: Round) -> usize
    ensures { result ≡ count_by (λ vote. not (is_over floor vote)) votes.now }
{
    votes
        .iter()
        .filter(|vote| !is_before(floor, vote.round()))
        .count()
}
