//! What is given to be done, once nobody is to be blocked and nothing is to be given as final.

ghost use Rattle.std.specs.Prelude.{◌≡◌, ◌≤◌, ◌<◌, ◌+◌, ◌⊎◌, [], IfNone, IfSome, MatchBool};
ghost use Rattle.std.specs.Prelude.{None, Some, length, max, true, false};
ghost use Rattle.std.specs.List.{slice_get};
ghost use Rattle.batcher_journal.specs.Answers.{MayBeWrittenBehind};
ghost use Rattle.batcher_node.specs.Nodes.{IsAtRest, IsNext};
ghost use Rattle.batcher_validator.specs.Ending.{GivesDue, GivesMeanwhile, HasLessLeft};
ghost use Rattle.batcher_validator.specs.Histories.{forward_with};
ghost use Rattle.batcher_validator.specs.Posing.{BlocksNobody, CastsNone, EntersNone};
ghost use Rattle.batcher_validator.specs.Posing.{IsPlaceToSend, SendsNone};
ghost use Rattle.batcher_validator.specs.Queues.{AreDistinct};
ghost use Rattle.batcher_validator.specs.Resending.{IsPlaceFrom};
ghost use Rattle.batcher_validator.specs.Shelves.{HaveNoFinal, IsAt, kind_and_round};
ghost use Rattle.batcher_voter.specs.Voting.{BeginWithOneView, ForEachLife, IsNextView};

use crate::tally::{Tally, place_from};
use crate::task::Task;
use crate::validator::Validator;
use batcher::messages::{Digest, Identical, Kind, Vote};
use batcher::positions::{Round, View};
use batcher::scheme::Scheme;
use batcher_bytes::{Codec, Log, OwnedCodec};
use batcher_node::NodeConfigs;

impl<S: Scheme<D>, D: Digest + Codec, L: Log> Validator<S, D, L>
where
    S::Signature: Codec + Identical,
    S::Certificate: OwnedCodec,
{
    // A view to enter, or an own vote to cast again or to send, and else what others wait for.
    pub(crate) fn give_own(&mut self) -> Option<Task<S::Signature, D>>
        requires open { self.old.voter.journal.is_open ≡ true }
        requires followed { MayBeWrittenBehind D.eq self.old.voter.journal.contents.floor []
            self.old.voter.journal.contents.votes }
        requires begins { BeginWithOneView self.old.voter }
        requires nobody { BlocksNobody ⟦<S as NodeConfigs<D>>⟧.of self.old }
        requires no_final { HaveNoFinal self.old.given.announced self.old.shelf.certificates }
        ensures gives { GivesDue (⟦<S as NodeConfigs<D>>⟧.of self.old.voter.node) self.old
            self.new result }
        ensures less { IfSome result
            (HasLessLeft (⟦<S as NodeConfigs<D>>⟧.of self.old.voter.node) self.old self.new) }
    {
        match self.next_view() {
            Some(view) => {
                self.note_view(view);
                Some(Task::Enter(view))
            }
            None => match self.next_cast() {
                Some(vote) => {
                    self.note_cast();
                    Some(Task::Cast(vote))
                }
                None => match self.next_vote() {
                    Some((place, vote)) => {
                        let next = self.place_behind(place);
                        self.note_vote(place, next);
                        Some(Task::SendVote(vote))
                    }
                    None => self.give_forward(),
                },
            },
        }
    }

    // A view to enter, an own vote to cast again, what is to be proposed or judged, or votes to
    // have verified.
    pub(crate) fn give_meanwhile(&mut self) -> Option<Task<S::Signature, D>>
        requires open { self.old.voter.journal.is_open ≡ true }
        requires followed { MayBeWrittenBehind D.eq self.old.voter.journal.contents.floor []
            self.old.voter.journal.contents.votes }
        requires begins { BeginWithOneView self.old.voter }
        requires nobody { BlocksNobody ⟦<S as NodeConfigs<D>>⟧.of self.old }
        ensures gives { GivesMeanwhile (⟦<S as NodeConfigs<D>>⟧.of self.old.voter.node) self.old
            self.new result }
        ensures less { IfSome result
            (HasLessLeft (⟦<S as NodeConfigs<D>>⟧.of self.old.voter.node) self.old self.new) }
    {
        match self.next_view() {
            Some(view) => {
                self.note_view(view);
                Some(Task::Enter(view))
            }
            None => match self.next_cast() {
                Some(vote) => {
                    self.note_cast();
                    Some(Task::Cast(vote))
                }
                None => self.pose_meanwhile(),
            },
        }
    }

    // What is to be proposed or judged, or votes to have verified.
    fn pose_meanwhile(&mut self) -> Option<Task<S::Signature, D>>
        requires open { self.old.voter.journal.is_open ≡ true }
        requires begins { BeginWithOneView self.old.voter }
        requires nobody { BlocksNobody ⟦<S as NodeConfigs<D>>⟧.of self.old }
        requires no_view { EntersNone self.old }
        requires no_cast { CastsNone self.old }
        ensures gives { GivesMeanwhile (⟦<S as NodeConfigs<D>>⟧.of self.old.voter.node) self.old
            self.new result }
        ensures less { IfSome result
            (HasLessLeft (⟦<S as NodeConfigs<D>>⟧.of self.old.voter.node) self.old self.new) }
    {
        match self.pose_proposal() {
            Some(task) => Some(task),
            None => {
                if self.has_votes_waiting() {
                    self.note_verifying();
                    return Some(Task::Verify);
                }
                None
            }
        }
    }

    // What is to be forwarded, and else what others wait for.
    fn give_forward(&mut self) -> Option<Task<S::Signature, D>>
        requires open { self.old.voter.journal.is_open ≡ true }
        requires begins { BeginWithOneView self.old.voter }
        requires nobody { BlocksNobody ⟦<S as NodeConfigs<D>>⟧.of self.old }
        requires no_final { HaveNoFinal self.old.given.announced self.old.shelf.certificates }
        requires no_view { EntersNone self.old }
        requires no_cast { CastsNone self.old }
        requires no_vote { SendsNone self.old }
        ensures gives { GivesDue (⟦<S as NodeConfigs<D>>⟧.of self.old.voter.node) self.old
            self.new result }
        ensures less { IfSome result
            (HasLessLeft (⟦<S as NodeConfigs<D>>⟧.of self.old.voter.node) self.old self.new) }
    {
        match self.forwarding() {
            Some(round) => {
                self.note_forwarded();
                Some(Task::Forward(round))
            }
            None => self.give_others(),
        }
    }

    // A certificate to send, what is to be signed, proposed or judged, or votes to have verified.
    fn give_others(&mut self) -> Option<Task<S::Signature, D>>
        requires open { self.old.voter.journal.is_open ≡ true }
        requires begins { BeginWithOneView self.old.voter }
        requires nobody { BlocksNobody ⟦<S as NodeConfigs<D>>⟧.of self.old }
        requires no_final { HaveNoFinal self.old.given.announced self.old.shelf.certificates }
        requires no_view { EntersNone self.old }
        requires no_cast { CastsNone self.old }
        requires no_vote { SendsNone self.old }
        requires no_forward { self.old.given.forwarding ≡ None }
        ensures gives { GivesDue (⟦<S as NodeConfigs<D>>⟧.of self.old.voter.node) self.old
            self.new result }
        ensures less { IfSome result
            (HasLessLeft (⟦<S as NodeConfigs<D>>⟧.of self.old.voter.node) self.old self.new) }
    {
        match self.next_certificate() {
            Some((kind, round)) => {
                self.note_handed(kind, round);
                Some(Task::SendCertificate(kind, round))
            }
            None => match self.pose() {
                Some(task) => Some(task),
                None => {
                    if self.has_votes_waiting() {
                        self.note_verifying();
                        return Some(Task::Verify);
                    }
                    self.note_calm();
                    None
                }
            },
        }
    }

    // The first vote of the journal that wasn't given to be sent, or is to be sent again, with its
    // place.
    fn next_vote(&self) -> Option<(usize, Vote<S::Signature, D>)>
        ensures some { IfSome result (λ it.
            (slice_get self.now.voter.journal.contents.votes it.0 ≡ Some it.1)
            × IsPlaceToSend self.now it.0) }
        ensures none { result ≡ None → SendsNone self.now }
    {
        let place = self.next_place();
        match self.vote_at(place) {
            Some(vote) => Some((place, vote)),
            None => None,
        }
    }

    fn next_place(&self) -> usize
        ensures { IsPlaceToSend self.now result }
    {
        place_from(
            self.voter.journal().votes(),
            self.given.tally.resent,
            self.given.tally.sent,
            self.given.resending.from,
        )
    }

    // The place behind this one of the next vote that is to be sent again, or the end of those that
    // were sent.
    fn place_behind(&self, place: usize) -> usize
        requires { place < length self.now.voter.journal.contents.votes }
        ensures { IsPlaceFrom self.now.given.resending.from
            self.now.voter.journal.contents.votes (place + 1)
            (max self.now.given.tally.sent (place + 1)) result }
    {
        let votes = self.voter.journal().votes();
        let _ = votes.len();
        let end = self.given.tally.sent.max(place + 1);
        place_from(votes, place + 1, end, self.given.resending.from)
    }

    // The vote at a place was given, and the next one of those to be sent again is at another.
    fn note_vote(&mut self, place: usize, next: usize)
        requires { place < length self.old.voter.journal.contents.votes }
        ensures given { self.new.given ≡ record self.old.given {
          tally = record self.old.given.tally {
            sent = max self.old.given.tally.sent (place + 1);
            resent = next;
          };
        } }
        ensures voter { self.new.voter ≡ self.old.voter }
        ensures shelf { self.new.shelf ≡ self.old.shelf }
    {
        let _ = self.voter.journal().votes().len();
        self.given.tally.sent = self.given.tally.sent.max(place + 1);
        self.given.tally.resent = next;
    }

    // The first vote of an earlier life that wasn't given to be cast again.
    fn next_cast(&self) -> Option<Vote<S::Signature, D>>
        ensures some { IfSome result (λ vote. (slice_get self.now.voter.journal.contents.votes
            self.now.given.tally.recast ≡ Some vote)
            × (self.now.given.tally.recast < self.now.given.tally.begun)) }
        ensures none { result ≡ None → CastsNone self.now }
    {
        let tally = self.tally();
        if tally.recast < tally.begun {
            match self.vote_at(tally.recast) {
                Some(vote) => return Some(vote),
                None => return None,
            }
        }
        None
    }

    pub(crate) fn tally(&self) -> Tally
        ensures { result ≡ self.now.given.tally }
    {
        self.given.tally
    }

    // The vote of the journal at this place.
    fn vote_at(&self, i: usize) -> Option<Vote<S::Signature, D>>
        ensures { result ≡ slice_get self.now.voter.journal.contents.votes i }
    {
        self.voter.journal().votes().get(i).copied()
    }

    fn note_cast(&mut self)
        requires { self.old.given.tally.recast < length self.old.voter.journal.contents.votes }
        ensures given { self.new.given ≡ record self.old.given {
          tally = record self.old.given.tally { recast = self.old.given.tally.recast + 1 };
        } }
        ensures voter { self.new.voter ≡ self.old.voter }
        ensures shelf { self.new.shelf ≡ self.old.shelf }
    {
        let _ = self.voter.journal().votes().len();
        self.given.tally.recast += 1;
    }

    // The kind and the round of the first certificate that wasn't given to be sent.
    fn next_certificate(&self) -> Option<(Kind, Round)>
        ensures none { result ≡ None
            → length self.now.shelf.certificates ≤ self.now.shelf.handed }
        ensures some { IfSome result (λ key. IsAt self.now.shelf.certificates
            self.now.shelf.handed (key.0, key.1)) }
        ensures distinct { AreDistinct kind_and_round self.now.shelf.certificates }
    {
        let _ = self.shelf.as_slice();
        self.shelf.next()
    }

    fn note_handed(&mut self, kind: Kind, round: Round)
        requires { self.old.shelf.handed < length self.old.shelf.certificates }
        ensures given { self.new.given ≡ record self.old.given {
          forwarding = forward_with kind round self.old.given.forwarding;
        } }
        ensures voter { self.new.voter ≡ self.old.voter }
        ensures certificates { self.new.shelf.certificates ≡ self.old.shelf.certificates }
        ensures handed { self.new.shelf.handed ≡ self.old.shelf.handed + 1 }
    {
        self.shelf.note_handed();
        if kind == Kind::Notarization {
            self.given.forwarding = Some(round);
        }
    }

    fn forwarding(&self) -> Option<Round>
        ensures { result ≡ self.now.given.forwarding }
    {
        self.given.forwarding
    }

    fn note_forwarded(&mut self)
        ensures given { self.new.given ≡ record self.old.given { forwarding = None } }
        ensures voter { self.new.voter ≡ self.old.voter }
        ensures shelf { self.new.shelf ≡ self.old.shelf }
    {
        self.given.forwarding = None;
    }

    // The view to be in, where it wasn't entered, nor given to be.
    fn next_view(&self) -> Option<View>
        ensures beyond { IfSome result (λ view.
            self.now.voter.node.window.current < view.0) }
        ensures unasked { IfSome result (λ view. self.now.given.asked < view.0) }
        ensures next { IfSome result (λ view. ForEachLife
            (⟦<S as NodeConfigs<D>>⟧.of self.now.voter.node) self.now.voter
            (λ past earlier. IsNextView self.now.voter past view.0)) }
        ensures is_next { IfSome result (λ view.
            view.0 ≡ self.now.voter.knowledge.highest + 1) }
        ensures none { result ≡ None → EntersNone self.now }
    {
        match self.voter.next_view() {
            Some(view) => {
                if view.0 > self.voter.node().window().current && view.0 > self.given.asked {
                    return Some(view);
                }
                None
            }
            None => None,
        }
    }

    fn note_view(&mut self, view: View)
        ensures given { self.new.given ≡ record self.old.given { asked = view.0 } }
        ensures voter { self.new.voter ≡ self.old.voter }
        ensures shelf { self.new.shelf ≡ self.old.shelf }
    {
        self.given.asked = view.0;
    }

    // Whether votes wait to be verified, and weren't given to be.
    fn has_votes_waiting(&self) -> bool
        ensures { MatchBool result ((self.now.given.verifying ≡ false)
            × (IsAtRest self.now.voter.node → ⊥))
            ((self.now.given.verifying ≡ true) ⊎ IsAtRest self.now.voter.node) }
    {
        if self.is_verifying() {
            return false;
        }
        match self.next_construction() {
            Some(_) => true,
            None => false,
        }
    }

    fn is_verifying(&self) -> bool
        ensures { result ≡ self.now.given.verifying }
    {
        self.given.verifying
    }

    // The view of the next construction.
    fn next_construction(&self) -> Option<View>
        ensures next { IfSome result (λ view. IsNext self.now.voter.node.rounds view.0) }
        ensures none { IfNone result (IsAtRest self.now.voter.node) }
    {
        self.voter.node().next_view()
    }

    fn note_verifying(&mut self)
        ensures given { self.new.given ≡ record self.old.given { verifying = true } }
        ensures voter { self.new.voter ≡ self.old.voter }
        ensures shelf { self.new.shelf ≡ self.old.shelf }
    {
        self.given.verifying = true;
    }
}
