//! A map from signers to their items.

ghost use Rattle.std.specs.Prelude.{ℕ, ◌≡◌, ◌+◌, ◌-◌, ◌<◌, ◌≤◌, ◌↔◌, List, [], Some, None, false};
ghost use Rattle.std.specs.Prelude.{length, IsTrue, IsOk, IfOk, OnOk, OnErr, IfErr, vec_len};
ghost use Rattle.std.specs.Prelude.{vec_capacity, slice_get, slice_index_or, slice_set, insert};
ghost use Rattle.std.specs.Prelude.{map, Err, if◌then◌else◌, MatchResult, is_ok, nat_lt, ◌==◌};
ghost use Rattle.std.specs.List.{All};
ghost use Rattle.std.specs.Option.{option_copied};
ghost use Rattle.std.specs.Iterator.{YieldsFirstRef, item_count};
ghost use Rattle.batcher_types.specs.Ascending.{IsAscending, insert_by};
ghost use Rattle.batcher_types.specs.Items.{Items, item_of, is_new, replace_by, place_of, IsPlaced};
ghost use Rattle.batcher_types.specs.Items.{GoesTo};
ghost use Rattle.batcher_types.specs.Lists.{count, is_some_and};

use crate::messages::Attributable;
use crate::positions::Participant;
use std::alloc::{AllocError, Global};
use std::marker::Model;
use std::mem;

// For how many items there is room at first.
const FIRST_ROOM: usize = 16;

/// `Ok` of where the item of a signer is, else `Err` of where it would be.
pub type Place = Result<usize, usize>;

/// The first item of each signer below a bound, in ascending order of the signers.
///
/// It is one list that is searched by halves, so a round with few votes stays small.
#[derive(Drop)]
pub struct AttributableMap<T: Attributable> {
    participants: usize,
    // What changes an item where it is shows that its signer stays.
    pub items: Vec<T>,
}

impl<T: Attributable> Model for AttributableMap<T> {
    ghost Value = { Items T };

    ghost view = { λ m. record {
      participants = m.participants;
      items = m.items.items;
      room = vec_capacity
          m.items - vec_len m.items;
    } };

    ghost invariant = { λ m. IsAscending (λ x. (T.signed_by x).0) m.items.items
        × All (λ x. (T.signed_by x).0 < m.participants) m.items.items };
}

impl<T: Attributable> AttributableMap<T> {
    /// An empty map for the signers below `participants`. It takes no memory.
    pub fn new(alloc: Global, participants: usize) -> Self
        ensures participants { result.participants ≡ participants }
        ensures items { result.items ≡ [] }
    {
        AttributableMap {
            participants,
            items: Vec::new(alloc),
        }
    }

    /// Keeps the item where its signer is below the bound and has none yet, and answers whether
    /// it did. Where it answers false it takes no memory, nor after `make_room`.
    pub fn insert(&mut self, item: T) -> Result<bool, AllocError>
        ensures kept { IfOk result (λ kept. kept ≡ is_new (λ x. (T.signed_by x).0) self.old item) }
        ensures items { MatchResult result
            (λ kept. self.new.items ≡ (if kept then insert_by (λ x. (T.signed_by x).0) item
            self.old.items else self.old.items)) (λ _. self.new.items ≡ self.old.items) }
        ensures participants { self.new.participants ≡ self.old.participants }
        ensures no_memory { is_new (λ x. (T.signed_by x).0) self.old item ≡ false → IsOk result }
        ensures with_room { OnErr result (self.old.room ≡ 0) }
        ensures room { self.old.room ≤ self.new.room + 1 }
    {
        if usize::from(item.signer()) >= self.participants {
            return Ok(false);
        }
        match self.place(item.signer()) {
            Ok(_) => Ok(false),
            Err(place) => {
                make_room_below(&mut self.items, 1, self.participants)?;
                insert_reserved(&mut self.items, place, item);
                Ok(true)
            }
        }
    }

    /// The item of the signer.
    pub fn get(&self, signer: Participant) -> Option<&T>
        ensures item { option_copied result
            ≡ item_of (λ x. (T.signed_by x).0) self.now.items signer.0 }
        ensures ascending { IsAscending (λ x. (T.signed_by x).0) self.now.items }
    {
        self.get_at(self.place(signer))
    }

    /// The item at a place that `place` gave for its signer.
    pub fn get_at(&self, place: Place) -> Option<&T>
        ensures item { (i : ℕ) → place ≡ place_of (map (λ x. (T.signed_by x).0) self.now.items) i
            → option_copied result ≡ item_of (λ x. (T.signed_by x).0) self.now.items i }
        ensures ascending { IsAscending (λ x. (T.signed_by x).0) self.now.items }
        ensures few { length self.now.items ≤ self.now.participants }
    {
        match place {
            Ok(index) => self.items.get(index),
            Err(_) => None,
        }
    }

    /// How many items there are.
    pub fn len(&self) -> usize
        ensures { result ≡ length self.now.items }
    {
        self.items.len()
    }

    /// Whether there is no item.
    pub fn is_empty(&self) -> bool
        ensures { IsTrue result ↔ (self.now.items ≡ []) }
    {
        self.items.is_empty()
    }

    /// The items in ascending order of their signers.
    pub fn iter(&self) -> MapIter<'_, T>
        ensures { result ≡ self.now.items }
    {
        MapIter {
            rest: self.items.as_slice(),
        }
    }

    /// Makes room for one insert, and changes nothing else. Where there is room it takes no memory.
    pub fn make_room(&mut self) -> Result<(), AllocError>
        ensures room { OnOk result (1 ≤ self.new.room) }
        ensures items { self.new.items ≡ self.old.items }
        ensures participants { self.new.participants ≡ self.old.participants }
        ensures no_memory { 1 ≤ self.old.room → IsOk result }
    {
        make_room_below(&mut self.items, 1, self.participants)
    }

    /// Puts the item in the place of its signer's, and answers that one. It takes no memory.
    pub fn replace(&mut self, item: T) -> Option<T>
        ensures before { result ≡ item_of (λ x. (T.signed_by x).0) self.old.items
            (T.signed_by item).0 }
        ensures items { self.new.items ≡ replace_by (λ x. (T.signed_by x).0) item self.old.items }
        ensures participants { self.new.participants ≡ self.old.participants }
        ensures room { self.new.room ≡ self.old.room }
    {
        match self.place(item.signer()) {
            Ok(place) => Some(mem::replace(&mut self.items[place], item)),
            Err(_) => None,
        }
    }

    /// The bound on signers.
    pub fn participants(&self) -> usize
        ensures { result ≡ self.now.participants }
    {
        self.participants
    }

    /// The items in ascending order of their signers. It takes no memory.
    pub fn as_slice(&self) -> &[T]
        ensures items { result.now ≡ self.now.items }
        ensures ascending { IsAscending (λ x. (T.signed_by x).0) self.now.items }
    {
        self.items.as_slice()
    }

    /// The item at a place where there is one. It takes no memory.
    pub fn item_at(&self, place: usize) -> &T
        requires { place < length self.now.items }
        ensures item { (default : T) → result.now ≡ slice_index_or self.now.items place default }
    {
        &self.items[place]
    }

    /// Puts the item of a signer that has none in its place, which `place` gives. It takes no
    /// memory.
    pub fn insert_at(&mut self, place: usize, item: T)
        requires signer { (T.signed_by item).0 < self.old.participants }
        requires place { place_of (map (λ x. (T.signed_by x).0) self.old.items) (T.signed_by item).0
            ≡ Err place }
        requires room { 1 ≤ self.old.room }
        ensures items { self.new.items ≡ insert_by (λ x. (T.signed_by x).0) item self.old.items }
        ensures participants { self.new.participants ≡ self.old.participants }
    {
        insert_reserved(&mut self.items, place, item);
    }

    /// The item at a place in the order of the signers. It takes no memory.
    pub fn at(&self, i: usize) -> Option<&T>
        ensures { option_copied result ≡ slice_get self.now.items i }
    {
        self.items.get(i)
    }

    /// Where the signer's item is, else where it would be. Items often come in the order of their
    /// signers, or in reverse, so the last one and the first are looked at; and once each signer
    /// has one, its item is at the signer's own number, so that is looked at next.
    pub fn place(&self, signer: Participant) -> Place
        ensures place { result ≡ place_of (map (λ x. (T.signed_by x).0) self.now.items) signer.0 }
        ensures ascending { IsAscending (λ x. (T.signed_by x).0) self.now.items }
        ensures found { IfOk result
            (IsPlaced (λ x. (T.signed_by x).0) self.now.items signer.0) }
        ensures absent { IfErr result
            (GoesTo (λ x. (T.signed_by x).0) self.now.items signer.0) }
    {
        let index = usize::from(signer);
        if self.is_below(signer) {
            Err(self.items.len())
        } else if self.is_above(signer) {
            Err(0)
        } else if self.is_at(index, signer) {
            Ok(index)
        } else {
            self.searched_place(signer)
        }
    }

    /// Where the signer's item is, else where it would be, by how many items are of lower signers.
    /// Who goes over all signers in their order knows that, and needs no search.
    pub fn place_after(&self, lower: usize, signer: Participant) -> Place
        requires { lower ≡ count (λ s. nat_lt s signer.0)
            (map (λ x. (T.signed_by x).0) self.now.items) }
        ensures place { result ≡ place_of (map (λ x. (T.signed_by x).0) self.now.items) signer.0 }
        ensures next { count (λ s. nat_lt s (signer.0 + 1))
            (map (λ x. (T.signed_by x).0) self.now.items)
            ≡ lower + (if is_ok result then 1 else 0) }
    {
        if self.is_at(lower, signer) {
            Ok(lower)
        } else {
            Err(lower)
        }
    }

    // Whether all items are of lower signers.
    fn is_below(&self, signer: Participant) -> bool
        ensures ascending { IsAscending (λ x. (T.signed_by x).0) self.now.items }
        ensures below { IsTrue result → All (λ x. (T.signed_by x).0 < signer.0) self.now.items }
    {
        match self.items.last() {
            Some(last) => last.signer().0 < signer.0,
            None => true,
        }
    }

    // Whether all items are of higher signers.
    fn is_above(&self, signer: Participant) -> bool
        ensures { IsTrue result → All (λ x. signer.0 < (T.signed_by x).0) self.now.items }
    {
        match self.items.first() {
            Some(first) => signer.0 < first.signer().0,
            None => true,
        }
    }

    // Whether the signer's item is at the index.
    fn is_at(&self, index: usize, signer: Participant) -> bool
        ensures at { IsTrue result → (index < length self.now.items)
            × ((d : T) → (T.signed_by (slice_index_or self.now.items index d)).0 ≡ signer.0) }
        ensures test { result ≡ is_some_and (slice_get self.now.items index)
            (λ x. (T.signed_by x).0 == signer.0) }
        ensures ascending { IsAscending (λ x. (T.signed_by x).0) self.now.items }
    {
        match self.items.get(index) {
            Some(item) => item.signer().0 == signer.0,
            None => false,
        }
    }

    // Where the signer's item is, else where it would be, by halves.
    fn searched_place(&self, signer: Participant) -> Place
        ensures place { result ≡ place_of (map (λ x. (T.signed_by x).0) self.now.items) signer.0 }
        ensures found { IfOk result
            (IsPlaced (λ x. (T.signed_by x).0) self.now.items signer.0) }
        ensures absent { IfErr result
            (GoesTo (λ x. (T.signed_by x).0) self.now.items signer.0) }
    {
        self.items
            .binary_search_by_key(&signer.0, |item| item.signer().0)
    }
}

/// Makes room for `additional` more items in a list that is to hold `most` at most, and changes
/// nothing else. Where it is asked for one item at a time the room doubles up to the bound, so that
/// a full list has none to spare. Where there is room it takes no memory.
pub fn make_room_below<T>(
    items: &mut Vec<T>,
    additional: usize,
    most: usize,
) -> Result<(), AllocError>
    ensures room { OnOk result (additional ≤ vec_capacity items.new - vec_len items.new) }
    ensures items { items.new.items ≡ items.old.items }
    ensures kept { vec_capacity items.old - vec_len items.old
        ≤ vec_capacity items.new - vec_len items.new }
    ensures no_memory { additional ≤ vec_capacity items.old - vec_len items.old → IsOk result }
{
    let len = items.len();
    if additional <= items.capacity() - len {
        return Ok(());
    }
    let more = len.max(FIRST_ROOM).min(most.saturating_sub(len));
    items.reserve_exact(more.max(additional))
}

// Inserts an item at a place. It takes no memory. The test is never true; the compiler concludes
// from it that no sum wraps, and so moves the later items as one block.
fn insert_reserved<T: Drop>(items: &mut Vec<T>, place: usize, item: T)
    requires place { place ≤ vec_len items.old }
    requires room { 1 ≤ vec_capacity items.old - vec_len items.old }
    ensures items { items.new.items ≡ insert items.old.items place item }
    ensures room { vec_capacity items.old - vec_len items.old
        ≤ vec_capacity items.new - vec_len items.new + 1 }
{
    if items.len() >= items.capacity() || place > items.len() {
        unreachable!()
    }
    if items.insert(place, item).is_err() {
        unreachable!()
    }
}

/// The items of a map in ascending order of their signers.
#[derive(Drop)]
pub struct MapIter<'a, T> {
    rest: &'a [T],
}

impl<'a, T> Model for MapIter<'a, T> {
    ghost Value = { List T };

    ghost view = { λ s. s.rest.now };
}

impl<'a, T> Iterator for MapIter<'a, T> {
    type Item = &'a T;

    ghost next_gives = { YieldsFirstRef (λ s. s) };

    ghost remaining = { item_count (λ s. s) };

    fn next(&mut self) -> Option<&'a T> {
        let (first, others) = self.rest.split_first()?;
        self.rest = others;
        Some(first)
    }
}

impl<'a, T: Attributable> IntoIterator for &'a AttributableMap<T> {
    type Item = &'a T;

    type IntoIter = MapIter<'a, T>;

    ghost into_iter_gives = { λ map it. it ≡ map.now.items };

    fn into_iter(self) -> Self::IntoIter {
        self.iter()
    }
}
