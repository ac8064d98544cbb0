//! What a tracker knows of one signer.

ghost use Rattle.std.specs.Prelude.{◌≡◌};
ghost use Rattle.std.specs.Option.{option_copied};
ghost use Rattle.batcher_votes.specs.Entries.{is_selected_in};

use crate::votes::Outcome;
use batcher_types::messages::{Attributable, Digest, Kind, Proposal};
use batcher_types::positions::Participant;
use std::marker::Model;

/// What is known of a signer's votes of a kind.
#[derive(Clone, Copy, Debug, PartialEq, Eq)]
pub(crate) enum Seen {
    /// None was seen.
    Nothing,
    /// Some were seen, and none is kept. None was compared with the selected proposal, since none
    /// was selected when they came, or they carry none. Nothing is inferred from such a vote, so
    /// this isn't the same as a mismatch.
    Uncompared,
    /// Some were seen, and none is kept. All that were compared are for other proposals.
    Differs,
    /// Some were seen, and none is kept. One is for the selected proposal, so its signer has that
    /// proposal's block.
    Matches,
    /// The first one is kept: it has this index among the kept votes of its kind.
    Kept(u32),
}

// What is known of a signer's votes of a kind, but for the index of the one that is kept.
#[derive(Clone, Copy)]
enum Mark {
    Nothing,
    Uncompared,
    Differs,
    Matches,
    Kept,
}

/// What is known of a signer, by kind.
///
/// It is small, since it is moved where a signer's entry comes before others, and all that is left
/// of votes that are released. So of each kind a mark takes one byte, and an index is kept apart
/// from it, which is read where the mark says that a vote is kept.
#[derive(Drop)]
pub(crate) struct Entry {
    signer: Participant,
    notarize_index: u32,
    nullify_index: u32,
    finalize_index: u32,
    notarize: Mark,
    nullify: Mark,
    finalize: Mark,
}

impl Model for Entry {
    ghost use Rattle.batcher_votes.specs.Entries.{Entry as TheEntry, seen_by};

    ghost Value = { TheEntry };

    ghost view = { λ entry. record {
      signer = entry.signer;
      notarize = seen_by entry.notarize entry.notarize_index;
      nullify = seen_by entry.nullify entry.nullify_index;
      finalize = seen_by entry.finalize entry.finalize_index;
    } };
}

impl Attributable for Entry {
    ghost signed_by = { λ entry. entry.signer };

    fn signer(&self) -> Participant {
        self.signer
    }
}

impl Seen {
    ghost use Rattle.batcher_votes.specs.Entries.{is_any, has_index, compared, seen_by};
    ghost use Rattle.batcher_votes.specs.Entries.{seen_outcome};

    // What a mark says, with the index of the vote that is kept.
    fn by(mark: Mark, index: u32) -> Self
        ensures { result ≡ seen_by mark index }
    {
        match mark {
            Mark::Nothing => Seen::Nothing,
            Mark::Uncompared => Seen::Uncompared,
            Mark::Differs => Seen::Differs,
            Mark::Matches => Seen::Matches,
            Mark::Kept => Seen::Kept(index),
        }
    }

    // Its mark, and the index of the vote that is kept, or 0 where none is.
    fn parts(self) -> (Mark, u32)
        ensures { seen_by result.0 result.1 ≡ self }
    {
        match self {
            Seen::Nothing => (Mark::Nothing, 0),
            Seen::Uncompared => (Mark::Uncompared, 0),
            Seen::Differs => (Mark::Differs, 0),
            Seen::Matches => (Mark::Matches, 0),
            Seen::Kept(index) => (Mark::Kept, index),
        }
    }

    /// Whether any was seen.
    pub(crate) fn is_any(self) -> bool
        ensures { result ≡ is_any self }
    {
        !matches!(self, Seen::Nothing)
    }

    /// Whether the first vote is kept.
    pub(crate) fn is_kept(self) -> bool
        ensures { result ≡ has_index self }
    {
        matches!(self, Seen::Kept(_))
    }

    /// With one more vote that isn't kept, of which it is known whether it is for the selected
    /// proposal.
    pub(crate) fn compared(self, is_selected: Option<bool>) -> Self
        ensures { result ≡ compared is_selected self }
    {
        match (is_selected, self) {
            (None, Seen::Nothing | Seen::Kept(_)) => Seen::Uncompared,
            (None, before) => before,
            (Some(true), _) => Seen::Matches,
            (Some(false), Seen::Matches) => Seen::Matches,
            (Some(false), _) => Seen::Differs,
        }
    }

    /// What comes of recording one more vote, of a kind that is compacted or isn't.
    pub(crate) fn outcome(self, is_compacted: bool, is_selected: Option<bool>) -> Outcome
        ensures { result ≡ seen_outcome is_compacted is_selected self }
    {
        match (self, is_selected) {
            (Seen::Nothing, _) => Outcome::Added {
                retained: !is_compacted,
            },
            (Seen::Kept(_), _) => Outcome::Duplicate { retained: true },
            (Seen::Differs, Some(true)) => Outcome::Conflicting,
            (Seen::Matches, Some(false)) => Outcome::Conflicting,
            (Seen::Uncompared, _)
            | (Seen::Differs, None | Some(false))
            | (Seen::Matches, None | Some(true)) => Outcome::Duplicate { retained: false },
        }
    }
}

/// Whether a proposal is the selected one, where there are both.
pub(crate) fn is_selected<D: Digest>(
    proposal: Option<&Proposal<D>>,
    selected: Option<&Proposal<D>>,
) -> Option<bool>
    ensures { result ≡ is_selected_in D.eq (option_copied selected.entry)
        (option_copied proposal.entry) }
{
    match (proposal, selected) {
        (Some(proposal), Some(selected)) => Some(*selected == *proposal),
        (None, _) | (Some(_), None) => None,
    }
}

impl Entry {
    ghost use Rattle.batcher_votes.specs.Entries.{nothing_seen, part, with_part};

    /// The entry of a signer of whom nothing was seen.
    pub(crate) fn unseen(signer: Participant) -> Self
        ensures { result ≡ nothing_seen signer }
    {
        Entry {
            signer,
            notarize_index: 0,
            nullify_index: 0,
            finalize_index: 0,
            notarize: Mark::Nothing,
            nullify: Mark::Nothing,
            finalize: Mark::Nothing,
        }
    }

    /// What it says of a kind.
    pub(crate) fn seen(&self, kind: Kind) -> Seen
        ensures { result ≡ part kind self.now }
    {
        match kind {
            Kind::Notarization => Seen::by(self.notarize, self.notarize_index),
            Kind::Nullification => Seen::by(self.nullify, self.nullify_index),
            Kind::Finalization => Seen::by(self.finalize, self.finalize_index),
        }
    }

    /// Has it say this of a kind, and of the others what it did.
    pub(crate) fn set(&mut self, kind: Kind, seen: Seen)
        ensures { self.new ≡ with_part kind seen self.old }
    {
        let (mark, index) = seen.parts();
        match kind {
            Kind::Notarization => {
                self.notarize = mark;
                self.notarize_index = index;
            }
            Kind::Nullification => {
                self.nullify = mark;
                self.nullify_index = index;
            }
            Kind::Finalization => {
                self.finalize = mark;
                self.finalize_index = index;
            }
        }
    }
}
