//! The set of the participants' keys.

ghost use Rattle.std.specs.Prelude.{◌≡◌, ◌<◌, ◌≤◌, ◌^◌, ◌↔◌, List, [], length, IsTrue, IsOk, IfOk};
ghost use Rattle.std.specs.Prelude.{IfSome, Some, slice_get};
ghost use Rattle.std.specs.List.{IsDistinct};
ghost use Rattle.std.specs.List.Sorted.{IsPermutation, IsStrictlySortedBy};
ghost use Rattle.std.specs.Option.{option_copied};
ghost use Rattle.std.specs.Slice.Iter.{iter_rest};
ghost use Rattle.batcher_types.specs.Keys.{index_of};

use crate::positions::Participant;
use std::cmp::Ordering;
use std::marker::Model;
use std::slice;
use thiserror::Error;

/// Why a list of keys is no set.
#[derive(Clone, Copy, Debug, PartialEq, Eq, Error)]
pub enum SetFault {
    /// A key comes twice. Of a list that is too long it isn't asked.
    #[error("duplicate key")]
    Duplicate,
    /// There are 2^32 keys or more, so that an index of 32 bits couldn't distinguish them.
    #[error("too many keys")]
    TooMany,
}

/// Distinct keys in ascending order.
#[derive(Drop)]
pub struct Set<P: Copy + Ord> {
    keys: Vec<P>,
}

impl<P: Copy + Ord> Model for Set<P> {
    ghost Value = { List P };

    ghost view = { λ s. s.keys.items };

    ghost invariant = { λ s.
        IsStrictlySortedBy P.cmp s.keys.items × (length s.keys.items < 2 ^ 32) };
}

impl<P: Copy + Ord> Set<P> {
    /// The keys in ascending order.
    pub fn new(mut keys: Vec<P>) -> Result<Set<P>, SetFault>
        ensures keys { IfOk result (IsPermutation keys.items) }
        ensures ascending { IfOk result (IsStrictlySortedBy P.cmp) }
        ensures too_many { (result ≡ Err SetFault.TooMany) ↔ (2 ^ 32 ≤ length keys.items) }
        ensures distinct { IsOk result → IsDistinct P.eq keys.items }
        ensures duplicate { result ≡ Err SetFault.Duplicate → ¬ IsDistinct P.eq keys.items }
    {
        if keys.len() > u32::MAX as usize {
            return Err(SetFault::TooMany);
        }
        keys.sort_unstable();
        for i in 1..keys.len() {
            match keys[i - 1].cmp(&keys[i]) {
                Ordering::Less => {}
                _ => return Err(SetFault::Duplicate),
            }
        }
        Ok(Set { keys })
    }

    /// How many keys there are.
    pub fn len(&self) -> usize
        ensures count { result ≡ length self.now }
        ensures bound { result < 2 ^ 32 }
        ensures ascending { IsStrictlySortedBy P.cmp self.now }
    {
        self.keys.len()
    }

    /// Whether there is no key.
    pub fn is_empty(&self) -> bool
        ensures { IsTrue result ↔ (self.now ≡ []) }
    {
        self.keys.is_empty()
    }

    /// The keys in ascending order, so each at the place of its participant.
    pub fn iter(&self) -> slice::Iter<'_, P>
        ensures { iter_rest result ≡ self.now }
    {
        self.keys.iter()
    }

    /// The participant with the key.
    pub fn index(&self, key: &P) -> Option<Participant>
        ensures index { result ≡ index_of P.cmp self.now key.now }
        ensures in_range { IfSome result (λ p. p.0 < length self.now) }
    {
        match self.keys.binary_search(key) {
            Ok(index) => Some(Participant::from_usize(index)),
            Err(_) => None,
        }
    }

    /// The participant with the key. The likely one is looked at first, which spares a search where
    /// it has the key.
    pub fn index_near(&self, key: &P, likely: Participant) -> Option<Participant>
        ensures index { result ≡ index_of P.cmp self.now key.now }
        ensures in_range { IfSome result (λ p. p.0 < length self.now) }
    {
        if self.is_of(likely, key) {
            return Some(likely);
        }
        self.index(key)
    }

    // Whether the key is the participant's.
    fn is_of(&self, participant: Participant, key: &P) -> bool
        ensures index { IsTrue result → index_of P.cmp self.now key.now ≡ Some participant }
        ensures in_range { IsTrue result → participant.0 < length self.now }
    {
        let index = participant.0 as usize;
        match self.keys.get(index) {
            Some(other) => matches!(other.cmp(key), Ordering::Equal),
            None => false,
        }
    }

    /// The key of the participant.
    pub fn key(&self, participant: Participant) -> Option<&P>
        ensures { option_copied result ≡ slice_get self.now participant.0 }
    {
        self.keys.get(participant.0 as usize)
    }
}

impl<'a, P: Copy + Ord> IntoIterator for &'a Set<P> {
    type Item = &'a P;

    type IntoIter = slice::Iter<'a, P>;

    ghost into_iter_gives = { λ set it. iter_rest it ≡ set.now };

    fn into_iter(self) -> Self::IntoIter {
        self.iter()
    }
}
