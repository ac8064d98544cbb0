//! What a validator is answered: a proposal, whether one is valid, that a time is over, and that a
//! signature isn't good.

ghost use Rattle.std.specs.Prelude.{◌≡◌, ◌≤◌, ◌<◌, MatchBool, Some, max, true, false};
ghost use Rattle.batcher.specs.messages.Proposal.{Proposal as TheProposal};
ghost use Rattle.batcher_node.specs.Windows.{numbered};
ghost use Rattle.batcher_validator.specs.Histories.{chose, expired, later_of};
ghost use Rattle.batcher_validator.specs.Histories.{refused as was_refused};
ghost use Rattle.batcher_validator.specs.Running.{RunMeets};
ghost use Rattle.batcher_validator.specs.Unsigned.{with_refused};

use crate::validator::Validator;
use batcher::messages::{Digest, Identical, Proposal, Subject};
use batcher::positions::{Round, View};
use batcher::scheme::Scheme;
use batcher_bytes::{Codec, Log, OwnedCodec};
use batcher_node::NodeConfigs;

impl<S: Scheme<D>, D: Digest + Codec, L: Log> Validator<S, D, L>
where
    S::Signature: Codec + Identical,
    S::Certificate: OwnedCodec,
{
    /// It proposes this payload in a view that it was asked for, on the parent that it was given.
    /// Then poll. Of a view that it isn't in yet nothing is proposed.
    pub fn propose(&mut self, view: View, parent: View, payload: D)
        ensures chose { view.0 ≤ self.old.voter.node.window.current → RunMeets
            (⟦<S as NodeConfigs<D>>⟧.of self.old.voter.node) self.old self.new
            (chose (record {
              round = numbered self.old.voter.node.epoch view.0;
              parent = parent;
              payload = payload;
            })) }
        ensures ahead { self.old.voter.node.window.current < view.0 → self.new ≡ self.old }
        ensures voter { self.new.voter ≡ self.old.voter }
        ensures shelf { self.new.shelf ≡ self.old.shelf }
    {
        let round = Round {
            epoch: self.voter.epoch(),
            view,
        };
        self.judge(&Proposal::new(round, parent, payload), true);
    }

    /// The proposal is valid, or it isn't, and its view is given up. Then poll. Of a view that it
    /// isn't in yet nothing is noted.
    pub fn judge(&mut self, proposal: &Proposal<D>, valid: bool)
        ensures chose { valid ≡ true
            → proposal.now.round.view.0 ≤ self.old.voter.node.window.current → RunMeets
            (⟦<S as NodeConfigs<D>>⟧.of self.old.voter.node) self.old self.new
            (chose proposal.now) }
        ensures gave_up { valid ≡ false
            → proposal.now.round.view.0 ≤ self.old.voter.node.window.current → RunMeets
            (⟦<S as NodeConfigs<D>>⟧.of self.old.voter.node) self.old self.new
            (expired proposal.now.round.view.0) }
        ensures ahead { self.old.voter.node.window.current < proposal.now.round.view.0
            → self.new ≡ self.old }
        ensures voter { self.new.voter ≡ self.old.voter }
        ensures shelf { self.new.shelf ≡ self.old.shelf }
    {
        if !valid {
            self.expire(proposal.round.view);
            return;
        }
        if proposal.round.view.0 <= self.current() {
            self.note_chosen(proposal);
        }
    }

    /// The time of a view is over: it is given up, unless its proposal is notarized. Then poll. Of
    /// a view that it isn't in yet nothing is noted.
    pub fn expire(&mut self, view: View)
        ensures expired { view.0 ≤ self.old.voter.node.window.current → RunMeets
            (⟦<S as NodeConfigs<D>>⟧.of self.old.voter.node) self.old self.new
            (expired view.0) }
        ensures ahead { self.old.voter.node.window.current < view.0 → self.new ≡ self.old }
        ensures voter { self.new.voter ≡ self.old.voter }
        ensures shelf { self.new.shelf ≡ self.old.shelf }
    {
        if view.0 <= self.current() {
            self.note_expired(view);
        }
    }

    /// The signature of this, which was to be signed, isn't good, so no vote is cast. This isn't
    /// being signed any more, and is given again after `send_again`. Then poll: meanwhile another
    /// may be.
    pub fn refuse(&mut self, subject: &Subject<D>)
        ensures refused { RunMeets (⟦<S as NodeConfigs<D>>⟧.of self.old.voter.node) self.old
            self.new (was_refused subject.now) }
        ensures voter { self.new.voter ≡ self.old.voter }
        ensures shelf { self.new.shelf ≡ self.old.shelf }
    {
        self.note_refused(subject);
    }

    // The view that it is in.
    pub(crate) fn current(&self) -> u64
        ensures { result ≡ self.now.voter.node.window.current }
    {
        self.voter.node().window().current
    }

    fn note_chosen(&mut self, proposal: &Proposal<D>)
        ensures given { self.new.given ≡ record self.old.given {
          intent = record self.old.given.intent {
            chosen = later_of self.old.given.intent.chosen proposal.now;
          };
        } }
        ensures voter { self.new.voter ≡ self.old.voter }
        ensures shelf { self.new.shelf ≡ self.old.shelf }
    {
        self.given.intent.chosen = later_of(self.given.intent.chosen, *proposal);
    }

    fn note_refused(&mut self, subject: &Subject<D>)
        ensures given { self.new.given ≡ record self.old.given {
          intent = record self.old.given.intent {
            unsigned = with_refused self.old.given.intent.unsigned subject.now;
          };
        } }
        ensures voter { self.new.voter ≡ self.old.voter }
        ensures shelf { self.new.shelf ≡ self.old.shelf }
    {
        self.given.intent.unsigned = self.given.intent.unsigned.with(subject);
    }

    fn note_expired(&mut self, view: View)
        ensures given { self.new.given ≡ record self.old.given {
          intent = record self.old.given.intent {
            expired = max self.old.given.intent.expired view.0;
          };
        } }
        ensures voter { self.new.voter ≡ self.old.voter }
        ensures shelf { self.new.shelf ≡ self.old.shelf }
    {
        self.given.intent.expired = self.given.intent.expired.max(view.0);
    }
}

// Of two proposals the one of the higher view, or the later one.
fn later_of<D: Copy>(chosen: Option<Proposal<D>>, proposal: Proposal<D>) -> Option<Proposal<D>>
    ensures { result ≡ later_of chosen proposal }
{
    match chosen {
        Some(before) => {
            if proposal.round.view.0 < before.round.view.0 {
                return Some(before);
            }
            Some(proposal)
        }
        None => Some(proposal),
    }
}
