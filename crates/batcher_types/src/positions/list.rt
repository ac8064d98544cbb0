//! A list of participants, as an answer.

ghost use Rattle.std.specs.Prelude.{◌≡◌, ◌↔◌, [], length, IsTrue};
ghost use Rattle.std.specs.Slice.Iter.{iter_rest};

use crate::positions::Participant;
use std::marker::Model;
use std::slice;

/// A list of participants, as an answer. Contracts see it as the list.
#[derive(Clone, Debug, Drop)]
pub struct Participants {
    indices: Vec<Participant>,
}

impl Model for Participants {
    ghost use Rattle.std.specs.Prelude.{List};
    ghost use Rattle.batcher_types.specs.declared.positions.Participant.{Participant};

    ghost Value = { List Participant };

    ghost view = { λ s. s.indices.items };
}

impl Participants {
    /// How many participants there are.
    pub fn len(&self) -> usize
        ensures { result ≡ length self.now }
    {
        self.indices.len()
    }

    /// Whether there is none.
    pub fn is_empty(&self) -> bool
        ensures { IsTrue result ↔ (self.now ≡ []) }
    {
        self.indices.is_empty()
    }

    /// The participants, in the order that the answer has them.
    pub fn iter(&self) -> slice::Iter<'_, Participant>
        ensures { iter_rest result ≡ self.now }
    {
        self.indices.iter()
    }

    /// The participants as a slice, in the same order.
    pub fn as_slice(&self) -> &[Participant]
        ensures { result.now ≡ self.now }
    {
        self.indices.as_slice()
    }
}

impl<'a> IntoIterator for &'a Participants {
    type Item = &'a Participant;

    type IntoIter = slice::Iter<'a, Participant>;

    ghost into_iter_gives = { λ list it. iter_rest it ≡ list.now };

    fn into_iter(self) -> Self::IntoIter {
        self.iter()
    }
}

impl PartialEq for Participants {
    ghost use Rattle.std.specs.Cmp.Lexicographic.{pointwise, lists_per};
    ghost use Rattle.std.specs.Cmp.Rules.{comparing};
    ghost use Rattle.std.proofs.Common.{rules};

    ghost eq = { pointwise ⟦<Participant as PartialEq>⟧.eq };

    ghost laws = { lists_per (Prim.search (comparing, rules)) };

    fn eq(&self, other: &Self) -> bool {
        self.indices == other.indices
    }
}

impl Eq for Participants {
    ghost use Rattle.std.specs.Cmp.Lexicographic.{lists_equiv};
    ghost use Rattle.std.specs.Cmp.Rules.{comparing};
    ghost use Rattle.std.proofs.Common.{rules};

    ghost laws = { lists_equiv (Prim.search (comparing, rules)) };
}

impl From<Vec<Participant>> for Participants {
    ghost from_gives = { λ indices list. list ≡ indices.items };

    fn from(indices: Vec<Participant>) -> Participants {
        Participants { indices }
    }
}

impl From<Participants> for Vec<Participant> {
    ghost from_gives = { λ list indices. indices.items ≡ list };

    fn from(list: Participants) -> Vec<Participant> {
        list.indices
    }
}
