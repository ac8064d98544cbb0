//! How many of the journal's votes were given.

ghost use Rattle.std.specs.Prelude.{◌≡◌, IsTrue, Some, false, true};
ghost use Rattle.std.specs.List.{slice_get};
ghost use Rattle.batcher.specs.Votes.{subject_of};
ghost use Rattle.batcher.specs.messages.Vote.{Vote as TheVote};
ghost use Rattle.batcher_validator.specs.Resending.{IsPlaceFrom, is_earlier};

use batcher::messages::{Digest, Vote};

/// Of the journal's votes, which are in the order in which they were written.
#[derive(Clone, Copy)]
pub(crate) struct Tally {
    /// How many are of earlier lives.
    pub(crate) begun: usize,
    /// How many of these were given to be cast again.
    pub(crate) recast: usize,
    /// How many were given to be sent.
    pub(crate) sent: usize,
    /// Of how many of these it was looked whether they are to be sent again, and was given where
    /// they are.
    pub(crate) resent: usize,
}

/// The place of the first of the votes between two places that isn't of a view before this one, or
/// the second of the two where there is none.
pub(crate) fn place_from<G: Copy, D: Digest>(
    votes: &[Vote<G, D>],
    first: usize,
    end: usize,
    view: u64,
) -> usize
    ensures { IsPlaceFrom view votes.now first end result }
{
    for i in first..end {
        if is_from_at(votes, i, view) {
            return i;
        }
    }
    end
}

// Whether the vote at a place isn't of a view before this one.
fn is_from_at<G: Copy, D: Digest>(votes: &[Vote<G, D>], i: usize, view: u64) -> bool
    ensures yes { IsTrue result → (vote : TheVote G D) → slice_get votes.now i ≡ Some vote
        → is_earlier view (subject_of vote) ≡ false }
    ensures no { result ≡ false → (vote : TheVote G D) → slice_get votes.now i ≡ Some vote
        → is_earlier view (subject_of vote) ≡ true }
{
    match votes.get(i) {
        Some(vote) => view <= vote.round().view.0,
        None => false,
    }
}
