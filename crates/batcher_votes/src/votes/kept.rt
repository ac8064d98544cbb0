//! The votes that a tracker keeps in full.

ghost use Rattle.std.specs.Prelude.{ℕ, ◌≡◌, ◌≤◌, [], false, length, IsOk, OnOk};
ghost use Rattle.std.specs.Option.{option_copied, option_map};
ghost use Rattle.batcher_types.specs.Lists.{is_some_and};
ghost use Rattle.batcher_types.specs.Votes.{kind_of, is_eligible};
ghost use Rattle.batcher_votes.specs.RoundState.{of_kind, for_each};

use crate::votes::ObservedVote;
use crate::votes::entry::{Seen, is_selected};
use batcher_types::messages::{
    Digest, Finalize, Kind, Notarize, Nullify, Proposal, Vote, make_room_below,
};
use std::alloc::{AllocError, Global};

/// The kept votes, of each kind as they came.
#[derive(Drop)]
pub(crate) struct KeptLists<G: Copy, D: Copy> {
    pub(crate) notarizes: Vec<Notarize<G, D>>,
    pub(crate) nullifies: Vec<Nullify<G>>,
    pub(crate) finalizes: Vec<Finalize<G, D>>,
}

impl<G: Copy, D: Digest> KeptLists<G, D> {
    ghost use Rattle.batcher_votes.specs.Entries.{votes_in, room_in, with_vote, without, vote_at};
    ghost use Rattle.batcher_votes.specs.Entries.{proposal_at, observed_seen, seen_released};
    ghost use Rattle.batcher_votes.specs.TrackerSteps.{shown, is_seen_for};
    ghost use Rattle.batcher_types.specs.declared.messages.Vote.TheVariants.{Notarize as NotarizeVote};

    /// No votes. They take no memory.
    pub(crate) fn new(alloc: Global) -> Self
        ensures { votes_in result ≡ for_each [] }
    {
        KeptLists {
            notarizes: Vec::new(alloc),
            nullifies: Vec::new(alloc),
            finalizes: Vec::new(alloc),
        }
    }

    /// How many of a kind are kept.
    pub(crate) fn len(&self, kind: Kind) -> usize
        ensures { result ≡ length (of_kind (votes_in self.now) kind) }
    {
        match kind {
            Kind::Notarization => self.notarizes.len(),
            Kind::Nullification => self.nullifies.len(),
            Kind::Finalization => self.finalizes.len(),
        }
    }

    /// The vote of a kind, where what is known of its signer has its index.
    pub(crate) fn vote(&self, kind: Kind, seen: Seen) -> Option<Vote<G, D>>
        ensures { result ≡ vote_at (of_kind (votes_in self.now) kind) seen }
    {
        let Seen::Kept(index) = seen else {
            return None;
        };
        let index = index as usize;
        match kind {
            Kind::Notarization => Some(Vote::Notarize(*self.notarizes.get(index)?)),
            Kind::Nullification => Some(Vote::Nullify(*self.nullifies.get(index)?)),
            Kind::Finalization => Some(Vote::Finalize(*self.finalizes.get(index)?)),
        }
    }

    /// The notarize, where what is known of its signer has its index.
    pub(crate) fn notarize(&self, seen: Seen) -> Option<Notarize<G, D>>
        ensures { option_map NotarizeVote result ≡ vote_at (votes_in self.now).notarize seen }
    {
        match seen {
            Seen::Kept(index) => self.notarizes.get(index as usize).copied(),
            Seen::Nothing | Seen::Uncompared | Seen::Differs | Seen::Matches => None,
        }
    }

    // The proposal of the vote, where it carries one.
    fn proposal(&self, kind: Kind, seen: Seen) -> Option<&Proposal<D>>
        ensures { option_copied result
            ≡ proposal_at (vote_at (of_kind (votes_in self.now) kind) seen) }
    {
        let Seen::Kept(index) = seen else {
            return None;
        };
        let index = index as usize;
        match kind {
            Kind::Notarization => Some(&self.notarizes.get(index)?.proposal),
            Kind::Nullification => None,
            Kind::Finalization => Some(&self.finalizes.get(index)?.proposal),
        }
    }

    /// The vote of the kind, where one was seen.
    pub(crate) fn observed(&self, kind: Kind, seen: Seen) -> Option<ObservedVote<Vote<G, D>>>
        ensures { (i : ℕ) → result
            ≡ shown (observed_seen i (of_kind (votes_in self.now) kind) seen) }
    {
        match seen {
            Seen::Nothing => None,
            Seen::Kept(_) => Some(ObservedVote::Retained(self.vote(kind, seen)?)),
            Seen::Uncompared | Seen::Differs | Seen::Matches => Some(ObservedVote::Compacted),
        }
    }

    /// Whether a vote for the proposal was seen, or of votes that aren't kept, whether one was for
    /// the selected one.
    pub(crate) fn is_seen_for(&self, kind: Kind, seen: Seen, proposal: &Proposal<D>) -> bool
        ensures { (i : ℕ) → result ≡ is_seen_for D.eq proposal.now
            (observed_seen i (of_kind (votes_in self.now) kind) seen) }
    {
        match seen {
            Seen::Matches => true,
            Seen::Nothing | Seen::Uncompared | Seen::Differs => false,
            Seen::Kept(_) => match self.proposal(kind, seen) {
                Some(kept) => *proposal == *kept,
                None => false,
            },
        }
    }

    /// Whether a vote of the kind is kept that waits with the proposal.
    pub(crate) fn keeps_for(&self, kind: Kind, seen: Seen, proposal: &Proposal<D>) -> bool
        ensures { result ≡ is_some_and (vote_at (of_kind (votes_in self.now) kind) seen)
            (is_eligible D.eq (Some proposal.now)) }
    {
        match self.vote(kind, seen) {
            Some(vote) => vote.eligible_with(proposal),
            None => false,
        }
    }

    /// What is known of a signer with facts in the place of its vote of the kind, compared with the
    /// selected proposal.
    pub(crate) fn released(&self, kind: Kind, seen: Seen, selected: Option<&Proposal<D>>) -> Seen
        ensures { result ≡ seen_released D.eq (option_copied selected.entry)
            (of_kind (votes_in self.now) kind) seen }
    {
        match seen {
            Seen::Kept(_) => {
                Seen::Nothing.compared(is_selected(self.proposal(kind, seen), selected))
            }
            Seen::Nothing | Seen::Uncompared | Seen::Differs | Seen::Matches => seen,
        }
    }

    /// Makes room for one more vote of the kind, of which there are to be `most` at most, and
    /// changes nothing else. Where there is room it takes no memory.
    pub(crate) fn make_room(&mut self, kind: Kind, most: usize) -> Result<(), AllocError>
        ensures room { OnOk result (1 ≤ of_kind (room_in self.new) kind) }
        ensures votes { votes_in self.new ≡ votes_in self.old }
        ensures no_memory { 1 ≤ of_kind (room_in self.old) kind → IsOk result }
    {
        match kind {
            Kind::Notarization => make_room_below(&mut self.notarizes, 1, most),
            Kind::Nullification => make_room_below(&mut self.nullifies, 1, most),
            Kind::Finalization => make_room_below(&mut self.finalizes, 1, most),
        }
    }

    /// Keeps the vote behind the others of its kind. It takes no memory.
    pub(crate) fn push(&mut self, vote: &Vote<G, D>)
        requires { 1 ≤ of_kind (room_in self.old) (kind_of vote.now) }
        ensures { votes_in self.new ≡ with_vote vote.now (votes_in self.old) }
    {
        match vote {
            Vote::Notarize(vote) => self.notarizes.push_reserved(*vote),
            Vote::Nullify(vote) => self.nullifies.push_reserved(*vote),
            Vote::Finalize(vote) => self.finalizes.push_reserved(*vote),
        }
    }

    /// Drops the votes of a kind, and gives their memory back.
    pub(crate) fn clear(&mut self, kind: Kind)
        ensures { votes_in self.new ≡ without kind (votes_in self.old) }
    {
        match kind {
            Kind::Notarization => self.notarizes = Vec::new(*self.notarizes.allocator()),
            Kind::Nullification => self.nullifies = Vec::new(*self.nullifies.allocator()),
            Kind::Finalization => self.finalizes = Vec::new(*self.finalizes.allocator()),
        }
    }
}
