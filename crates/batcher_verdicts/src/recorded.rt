//! The verdicts of one kind.

ghost use Rattle.std.specs.Prelude.{◌≡◌, ◌<◌, ◌≤◌, ◌↔◌, ◌+◌, ◌++◌, [], true, false, Bool, List};
ghost use Rattle.std.specs.Prelude.{length, map, take, None, Some, Ok, IfOk, OnErr, OnOk, IsTrue};
ghost use Rattle.batcher_types.specs.declared.messages.Attestation.{Attestation as TheAttestation};
ghost use Rattle.batcher_types.specs.declared.messages.Subject.{Subject as TheSubject};
ghost use Rattle.batcher_verdicts.specs.Recorded.{Asks, IsKnown, AreTrue, AddsVerdicts};
ghost use Rattle.batcher_verdicts.specs.Recorded.{VerdictsNeed};

use batcher_types::messages::{Attestation, Digest, Identical, Subject, are_identical};
use std::alloc::{AllocError, Global};
use std::marker::Model;

/// Verdicts on the attestations of one subject, in the order in which they wait.
#[derive(Drop)]
pub(crate) struct KindVerdicts<G, D> {
    subject: Option<Subject<D>>,
    list: Vec<Attestation<G>>,
    verdicts: Vec<bool>,
    // For so many there is room in both.
    room: usize,
}

impl<G, D> Model for KindVerdicts<G, D> {
    ghost use Rattle.std.specs.Prelude.{◌≡◌, ◌≤◌, length};
    ghost use Rattle.std.specs.Vec.{vec_capacity};
    ghost use Rattle.batcher_verdicts.specs.Recorded.{Recorded};

    ghost Value = { Recorded G D };

    ghost view = { λ k. record {
      subject = k.subject;
      list = k.list.items;
      verdicts = k.verdicts.items;
      room = k.room;
    } };

    ghost invariant = { λ k. (length k.verdicts.items ≡ length k.list.items)
        × ((length k.list.items ≤ k.room)
        × ((k.room ≤ vec_capacity k.list) × (k.room ≤ vec_capacity k.verdicts))) };
}

impl<G: Identical, D: Digest> KindVerdicts<G, D> {
    /// None. It takes no memory.
    pub(crate) fn new(alloc: Global) -> Self
        ensures subject { result.subject ≡ None }
        ensures list { result.list ≡ [] }
        ensures verdicts { result.verdicts ≡ [] }
    {
        KindVerdicts {
            subject: None,
            list: Vec::new(alloc),
            verdicts: Vec::new(alloc),
            room: 0,
        }
    }

    /// On how many attestations that wait for a subject, from the first on, a verdict is recorded.
    pub(crate) fn known(&self, subject: &Subject<D>, waiting: &[Attestation<G>]) -> usize
        ensures known { IsKnown self.now subject.now waiting.now result }
        ensures within { result ≤ length waiting.now }
        ensures recorded { result ≤ length self.now.list }
        ensures even { length self.now.verdicts ≡ length self.now.list }
        ensures room { length self.now.list ≤ self.now.room }
    {
        let Some(about) = &self.subject else {
            return 0;
        };
        let count = self.list.len();
        if !about.is_same(subject) || waiting.len() < count {
            return 0;
        }
        if are_identical(self.list.as_slice(), &waiting[..count]) {
            count
        } else {
            0
        }
    }

    /// So many attestations of the list, from the first on, and the verdicts on them.
    pub(crate) fn first(&self, count: usize) -> (&[Attestation<G>], &[bool])
        requires { count ≤ length self.now.list }
        ensures list { result.0.now ≡ take count self.now.list }
        ensures verdicts { result.1.now ≡ take count self.now.verdicts }
    {
        (&self.list[..count], &self.verdicts[..count])
    }

    /// Forgets all. It takes no memory.
    pub(crate) fn forget(&mut self)
        ensures list { self.new.list ≡ [] }
        ensures truths { (attests : TheSubject D → TheAttestation G → Bool)
            → AreTrue attests self.new }
    {
        self.list.clear();
        self.verdicts.clear();
    }

    /// Those that no verdict is recorded on, of the attestations that wait for a subject.
    pub(crate) fn asked<'w>(
        &self,
        subject: &Subject<D>,
        waiting: &'w [Attestation<G>],
    ) -> &'w [Attestation<G>]
        ensures { Asks self.now subject.now waiting.now result.now }
    {
        &waiting[self.known(subject, waiting)..]
    }

    /// Records verdicts on a list, of what is asked about first. False where the list isn't that:
    /// then nothing changes. A refusal for memory changes nothing either.
    pub(crate) fn record(
        &mut self,
        subject: &Subject<D>,
        waiting: &[Attestation<G>],
        list: &[Attestation<G>],
        verdicts: &[bool],
    ) -> Result<bool, AllocError>
        requires { length verdicts.now ≡ length list.now }
        ensures asked { result ≡ Ok true → (rest : List (TheAttestation G))
            × (Asks self.old subject.now waiting.now (list.now ++ rest)) }
        ensures not_stale { (rest : List (TheAttestation G))
            → Asks self.old subject.now waiting.now (list.now ++ rest)
            → IfOk result (λ is_next. is_next ≡ true) }
        ensures adds { result ≡ Ok true
            → AddsVerdicts self.old self.new subject.now waiting.now list.now verdicts.now }
        ensures truths { (attests : TheSubject D → TheAttestation G → Bool)
            → AreTrue attests self.old → verdicts.now ≡ map (attests subject.now) list.now
            → AreTrue attests self.new }
        ensures needed { OnErr result (VerdictsNeed self.old subject.now waiting.now list.now) }
        ensures stale { result ≡ Ok false → self.new ≡ self.old }
        ensures refused { OnErr result (self.new ≡ self.old) }
    {
        let known = self.known(subject, waiting);
        if !begins(list, &waiting[known..]) {
            return Ok(false);
        }
        self.make_room(known + verdicts.len())?;
        self.put(subject, known, list, verdicts);
        Ok(true)
    }

    // Makes room for so many.
    fn make_room(&mut self, count: usize) -> Result<(), AllocError>
        ensures room { OnOk result (count ≤ self.new.room) }
        ensures needed { OnErr result (self.old.room < count) }
        ensures refused { OnErr result (self.new ≡ self.old) }
        ensures subject { self.new.subject ≡ self.old.subject }
        ensures list { self.new.list ≡ self.old.list }
        ensures verdicts { self.new.verdicts ≡ self.old.verdicts }
    {
        if count <= self.room {
            return Ok(());
        }
        let more = count - self.list.len();
        self.list.reserve(more)?;
        self.verdicts.reserve(more)?;
        self.room = count;
        Ok(())
    }

    // Puts verdicts on a list behind the first ones, for which there is room.
    fn put(
        &mut self,
        subject: &Subject<D>,
        known: usize,
        list: &[Attestation<G>],
        verdicts: &[bool],
    )
        requires one_each { length verdicts.now ≡ length list.now }
        requires known { known ≤ length self.old.list }
        requires room { known + length list.now ≤ self.old.room }
        ensures subject { self.new.subject ≡ Some subject.now }
        ensures list { self.new.list ≡ take known self.old.list ++ list.now }
        ensures verdicts { self.new.verdicts ≡ take known self.old.verdicts ++ verdicts.now }
        ensures room { self.new.room ≡ self.old.room }
    {
        self.subject = Some(*subject);
        self.list.truncate(known);
        self.verdicts.truncate(known);
        self.list.extend_from_slice(list).unwrap();
        self.verdicts.extend_from_slice(verdicts).unwrap();
    }
}

// Whether a list begins another.
fn begins<G: Identical>(list: &[Attestation<G>], whole: &[Attestation<G>]) -> bool
    ensures { IsTrue result
        ↔ ((rest : List (TheAttestation G)) × (whole.now ≡ list.now ++ rest)) }
{
    list.len() <= whole.len() && are_identical(list, &whole[..list.len()])
}
