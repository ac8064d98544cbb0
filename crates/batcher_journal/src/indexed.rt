//! Votes, with where those of each round are.

ghost use Rattle.std.specs.Prelude.{◌≡◌, ◌⊎◌, ◌<◌, ◌≤◌, ◌+◌, ◌++◌, ◌∷◌, [], IfSome, List};
ghost use Rattle.std.specs.Prelude.{MatchBool, None, OnErr, OnOk, false, length, slice_index_or};
ghost use Rattle.std.specs.Prelude.{take, true, ℕ};
ghost use Rattle.std.specs.List.{list_any};
ghost use Rattle.batcher.specs.Reports.{subjects_contradict};
ghost use Rattle.batcher_journal.specs.Contradictions.{IsFree, LeavesFree, BarsSubject};
ghost use Rattle.batcher_journal.specs.Floors.{is_below};
ghost use Rattle.batcher_journal.specs.Index.{AreByRounds, IsIndex};
ghost use Rattle.batcher_journal.specs.declared.indexed.Entry.{Entry};
ghost use Rattle.batcher_types.specs.Votes.{round_in, same_round, same_subject, subject_of};

use crate::asking::is_before;
use batcher_evidence::contradict;
use batcher_types::messages::{Digest, Subject, Vote};
use batcher_types::positions::Round;
use std::alloc::{AllocError, Global};
use std::marker::Model;

/// Where a vote of a round is.
#[derive(Clone, Copy)]
pub struct Entry {
    pub round: Round,
    pub at: usize,
}

/// Votes in the order in which they were written. Those of a round are found by the index, which
/// is by rounds. Votes that aren't in it, since memory was out, are gone over.
#[derive(Drop)]
pub struct IndexedVotes<G: Copy, D: Digest> {
    votes: Vec<Vote<G, D>>,
    index: Vec<Entry>,
}

impl<G: Copy, D: Digest> Model for IndexedVotes<G, D> {
    ghost use Rattle.std.specs.Prelude.{List};
    ghost use Rattle.batcher_journal.specs.Index.{IsIndex};
    ghost use Rattle.batcher_types.specs.declared.messages.Vote.{Vote};

    ghost Value = { List (Vote G D) };

    ghost view = { λ it. it.votes.items };

    ghost invariant = { λ it. IsIndex it.votes.items it.index.items };
}

impl<G: Copy, D: Digest> IndexedVotes<G, D> {
    pub fn of(votes: Vec<Vote<G, D>>) -> Self
        ensures { result ≡ votes.items }
    {
        let mut index = Vec::new(*votes.allocator());
        index_all(&votes, &mut index);
        IndexedVotes { votes, index }
    }

    pub fn as_slice(&self) -> &[Vote<G, D>]
        ensures { result.now ≡ self.now }
    {
        &self.votes
    }

    pub fn allocator(&self) -> Global {
        *self.votes.allocator()
    }

    /// Puts more behind them. They aren't in the index yet.
    pub fn extend(&mut self, more: &[Vote<G, D>]) -> Result<(), AllocError>
        ensures ok { OnOk result (self.new ≡ self.old ++ more.now) }
        ensures err { OnErr result (self.new ≡ self.old) }
    {
        self.votes.extend_from_slice(more)?;
        Ok(())
    }

    /// Puts one more behind them.
    pub fn push(&mut self, vote: Vote<G, D>) -> Result<(), AllocError>
        ensures { OnOk result (self.new ≡ self.old ++ vote ∷ []) }
    {
        self.votes.push(vote)?;
        Ok(())
    }

    /// Drops all but the first.
    pub fn truncate(&mut self, len: usize)
        ensures { self.new ≡ take len self.old }
    {
        cut(&mut self.votes, &mut self.index, len);
    }

    /// Puts those into the index that aren't in it, as far as there is memory.
    pub fn index_more(&mut self)
        ensures { self.new ≡ self.old }
    {
        index_all(&self.votes, &mut self.index);
    }

    /// A vote that is for the subject, or contradicts it.
    pub fn find(&self, subject: &Subject<D>) -> Option<Vote<G, D>>
        ensures some { IfSome result (BarsSubject D.eq self.now subject.now) }
        ensures none { result ≡ None → IsFree D.eq self.now subject.now }
    {
        match find_indexed(&self.votes, &self.index, subject) {
            Some(vote) => Some(vote),
            None => find_among(&self.votes[self.index.len()..], subject),
        }
    }

    /// Whether one of them is of the round.
    pub fn has_one_of(&self, round: Round) -> bool
        ensures { result
            ≡ list_any (λ vote. same_round (round_in (subject_of vote)) round) self.now }
    {
        if has_one_indexed(&self.votes, &self.index, round) {
            return true;
        }
        has_one_among(&self.votes[self.index.len()..], round)
    }
}

// Drops all votes but the first, and an index of others.
fn cut<G: Copy, D: Digest>(votes: &mut Vec<Vote<G, D>>, index: &mut Vec<Entry>, len: usize)
    requires { IsIndex votes.old.items index.old.items }
    ensures cut { votes.new.items ≡ take len votes.old.items }
    ensures index { IsIndex votes.new.items index.new.items }
{
    votes.truncate(len);
    if len < index.len() {
        index.truncate(0);
    }
}

// Whether a vote is for the subject, or contradicts it.
fn meets<G: Copy, D: Digest>(vote: &Vote<G, D>, subject: &Subject<D>) -> bool
    ensures { MatchBool result ((same_subject D.eq (subject_of vote.now) subject.now ≡ true)
        ⊎ (subjects_contradict D.eq (subject_of vote.now) subject.now ≡ true))
        (LeavesFree D.eq subject.now vote.now) }
{
    let other = vote.subject();
    other.is_same(subject) || contradict(other, *subject)
}

/// A vote among these that is for the subject, or contradicts it.
pub fn find_among<G: Copy, D: Digest>(
    votes: &[Vote<G, D>],
    subject: &Subject<D>,
) -> Option<Vote<G, D>>
    ensures some { IfSome result (BarsSubject D.eq votes.now subject.now) }
    ensures none { result ≡ None → IsFree D.eq votes.now subject.now }
{
    for vote in votes {
        if meets(vote, subject) {
            return Some(*vote);
        }
    }
    None
}

// A vote in the index that is for the subject, or contradicts it.
fn find_indexed<G: Copy, D: Digest>(
    votes: &[Vote<G, D>],
    index: &[Entry],
    subject: &Subject<D>,
) -> Option<Vote<G, D>>
    requires { IsIndex votes.now index.now }
    ensures some { IfSome result (BarsSubject D.eq votes.now subject.now) }
    ensures none { result ≡ None → IsFree D.eq (take (length index.now) votes.now) subject.now }
{
    let round = subject.round();
    for i in place_of(index, round)..index.len() {
        let entry = index[i];
        if is_before(entry.round, round) {
            return None;
        }
        let vote = &votes[entry.at];
        if meets(vote, subject) {
            return Some(*vote);
        }
    }
    None
}

// Whether a vote in the index is of the round.
fn has_one_indexed<G: Copy, D: Digest>(votes: &[Vote<G, D>], index: &[Entry], round: Round) -> bool
    requires { IsIndex votes.now index.now }
    ensures yes { result ≡ true
        → list_any (λ vote. same_round (round_in (subject_of vote)) round) votes.now ≡ true }
    ensures no { result ≡ false
        → list_any (λ vote. same_round (round_in (subject_of vote)) round)
        (take (length index.now) votes.now) ≡ false }
{
    let place = place_of(index, round);
    if place < index.len() {
        let entry = index[place];
        let vote = &votes[entry.at];
        return vote.round() == round;
    }
    false
}

// Whether a vote among these is of the round.
fn has_one_among<G: Copy, D: Digest>(votes: &[Vote<G, D>], round: Round) -> bool
    ensures { result
        ≡ list_any (λ vote. same_round (round_in (subject_of vote)) round) votes.now }
{
    votes.iter().any(|vote| vote.round() == round)
}

// Where a round begins in the index, or is to.
fn place_of(index: &[Entry], round: Round) -> usize
    requires { AreByRounds index.now }
    ensures bound { result ≤ length index.now }
    ensures before { (k : ℕ) (d : Entry) → k < result
        → is_below round (slice_index_or index.now k d).round ≡ true }
    ensures behind { (k : ℕ) (d : Entry) → result ≤ k → k < length index.now
        → is_below round (slice_index_or index.now k d).round ≡ false }
{
    index.partition_point(|entry| is_before(round, entry.round))
}

// Puts the first vote that isn't in the index into it, if there is memory.
fn index_one<G: Copy, D: Digest>(votes: &[Vote<G, D>], index: &mut Vec<Entry>) -> bool
    requires index { IsIndex votes.now index.old.items }
    requires more { length index.old.items < length votes.now }
    ensures index { IsIndex votes.now index.new.items }
    ensures longer { result ≡ true → length index.new.items ≡ length index.old.items + 1 }
{
    let at = index.len();
    let round = votes[at].round();
    let place = place_of(index, round);
    match index.insert(place, Entry { round, at }) {
        Ok(()) => true,
        Err(_) => false,
    }
}

// Puts all of them into the index, as far as there is memory.
fn index_all<G: Copy, D: Digest>(votes: &[Vote<G, D>], index: &mut Vec<Entry>)
    requires { IsIndex votes.now index.old.items }
    ensures { IsIndex votes.now index.new.items }
{
    while index.len() < votes.len() {
        if !index_one(votes, index) {
            return;
        }
    }
}
