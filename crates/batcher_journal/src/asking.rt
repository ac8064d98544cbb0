//! What a journal's votes say of a subject that is asked about.

ghost use Rattle.std.specs.Prelude.{◌≡◌, MatchBool, true};
ghost use Rattle.batcher_journal.specs.Answers.{Answers, MayBeWrittenBehind};
ghost use Rattle.batcher_journal.specs.Floors.{is_below};

use crate::indexed::{IndexedVotes, find_among};
use crate::journal::Answer;
use batcher_types::messages::{Digest, Subject, Vote};
use batcher_types::positions::Round;

/// Whether a round is before the floor.
pub fn is_before(floor: Round, round: Round) -> bool
    ensures { result ≡ is_below floor round }
{
    round.epoch.0 < floor.epoch.0 || (round.epoch.0 == floor.epoch.0 && round.view.0 < floor.view.0)
}

/// What these votes and the floor say of a subject.
pub fn answer_of<G: Copy, D: Digest>(
    votes: &IndexedVotes<G, D>,
    floor: Round,
    subject: &Subject<D>,
) -> Answer<G, D>
    ensures { Answers D.eq floor true votes.now subject.now result }
{
    if is_before(floor, subject.round()) {
        return Answer::Over;
    }
    match votes.find(subject) {
        Some(vote) => {
            if vote.subject().is_same(subject) {
                Answer::Known(vote)
            } else {
                Answer::Refused(vote)
            }
        }
        None => Answer::Sign,
    }
}

/// Whether votes may be written behind others.
pub fn may_follow<G: Copy, D: Digest>(
    old: &IndexedVotes<G, D>,
    floor: Round,
    votes: &[Vote<G, D>],
) -> bool
    ensures { MatchBool result (MayBeWrittenBehind D.eq floor old.now votes.now)
        (MayBeWrittenBehind D.eq floor old.now votes.now → ⊥) }
{
    for i in 0..votes.len() {
        let subject = votes[i].subject();
        if is_before(floor, subject.round()) {
            return false;
        }
        match old.find(&subject) {
            Some(_) => return false,
            None => {}
        }
        match find_among(&votes[..i], &subject) {
            Some(_) => return false,
            None => {}
        }
    }
    true
}
