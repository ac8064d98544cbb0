//! What was handed out to be verified on one subject.

ghost use Rattle.std.specs.Prelude.{◌≡◌, ◌≢◌, ◌≤◌, ◌<◌, ◌+◌, [], Bool, List, false, length, take};
ghost use Rattle.std.specs.Prelude.{true, None, Some, OnErr, OnOk, IfOk, IfSome, MatchBool};
ghost use Rattle.batcher_types.specs.declared.messages.Attestation.{Attestation as TheAttestation};
ghost use Rattle.batcher_types.specs.declared.messages.Subject.{Subject as TheSubject};
ghost use Rattle.batcher_verdicts.specs.Recorded.{IsKnown};
ghost use Rattle.batcher_verdicts.specs.Requests.{AreJudged, AreTrueOn, Asked, HasTrueVerdicts};
ghost use Rattle.batcher_verdicts.specs.Requests.{IsAwaited, IsHandedAs, IsLeftOver, IsStamped};
ghost use Rattle.batcher_verdicts.specs.Requests.{judged_by};

use batcher_types::messages::{Attestation, Digest, Identical, Subject, are_identical};
use std::alloc::{AllocError, Global};
use std::marker::Model;

/// All that was handed out of what waits for a subject, in its order, and verdicts on the first of
/// it.
#[derive(Drop)]
pub(crate) struct Request<G, D> {
    subject: Subject<D>,
    list: Vec<Attestation<G>>,
    verdicts: Vec<bool>,
    // For so many there is room in both.
    room: usize,
    // What was handed out last has this stamp, and is behind so many.
    stamp: u64,
    behind: usize,
}

impl<G, D> Model for Request<G, D> {
    ghost use Rattle.std.specs.Prelude.{◌≤◌, Some, length};
    ghost use Rattle.std.specs.Vec.{vec_capacity};
    ghost use Rattle.batcher_verdicts.specs.Requests.{RequestView};

    ghost Value = { RequestView G D };

    ghost view = { λ r. record {
      handed = record {
        subject = Some r.subject;
        list = r.list.items;
        verdicts = r.verdicts.items;
        room = r.room;
      };
      stamp = r.stamp;
      behind = r.behind;
    } };

    ghost invariant = { λ r. (r.behind ≤ length r.verdicts.items)
        × ((length r.verdicts.items ≤ length r.list.items)
        × ((length r.list.items ≤ r.room)
        × ((r.room ≤ vec_capacity r.list) × (r.room ≤ vec_capacity r.verdicts)))) };
}

impl<G: Identical, D: Digest> Request<G, D> {
    // One of which nothing was handed out. It takes no memory.
    fn new(alloc: Global, subject: &Subject<D>) -> Self
        ensures subject { result.handed.subject ≡ Some subject.now }
        ensures list { result.handed.list ≡ [] }
        ensures verdicts { result.handed.verdicts ≡ [] }
        ensures behind { result.behind ≡ 0 }
    {
        Request {
            subject: *subject,
            list: Vec::new(alloc),
            verdicts: Vec::new(alloc),
            room: 0,
            stamp: 0,
            behind: 0,
        }
    }

    /// One of all that waits for a subject, which is handed out by this stamp.
    pub(crate) fn first(
        alloc: Global,
        subject: &Subject<D>,
        waiting: &[Attestation<G>],
        stamp: u64,
    ) -> Result<Self, AllocError>
        ensures asked { IfOk result (λ r. Asked r subject.now waiting.now stamp waiting.now) }
        ensures truths { (attests : TheSubject D → TheAttestation G → Bool)
            → IfOk result (HasTrueVerdicts attests) }
    {
        let mut request = Request::new(alloc, subject);
        request.make_room(waiting.len())?;
        request.hand_out(subject, waiting, 0, stamp);
        Ok(request)
    }

    // How many of what waits for a subject were handed out, from the first on.
    fn known(&self, subject: &Subject<D>, waiting: &[Attestation<G>]) -> usize
        ensures known { IsKnown self.now.handed subject.now waiting.now result }
        ensures within { result ≤ length waiting.now }
        ensures handed { result ≤ length self.now.handed.list }
    {
        let count = self.list.len();
        if !self.is_about(subject) || waiting.len() < count {
            return 0;
        }
        if are_identical(self.list.as_slice(), &waiting[..count]) {
            count
        } else {
            0
        }
    }

    fn is_about(&self, subject: &Subject<D>) -> bool
        ensures { MatchBool result (self.now.handed.subject ≡ Some subject.now)
            (self.now.handed.subject ≢ Some subject.now) }
    {
        self.subject.is_same(subject)
    }

    // Whether its verdicts aren't there yet.
    fn is_open(&self) -> bool
        ensures { MatchBool result (IsAwaited self.now) (IsAwaited self.now → ⊥) }
    {
        self.verdicts.len() < self.list.len()
    }

    // Whether verdicts on what was handed out of what waits for the subject aren't there yet.
    fn is_awaited(&self, subject: &Subject<D>) -> bool
        ensures { MatchBool result
            ((self.now.handed.subject ≡ Some subject.now) × IsAwaited self.now)
            (self.now.handed.subject ≡ Some subject.now → IsAwaited self.now → ⊥) }
    {
        self.is_about(subject) && self.is_open()
    }

    /// Hands out what is left of what waits for a subject, by this stamp, and answers it. Nothing
    /// is while verdicts on what was handed out of it aren't there yet.
    pub(crate) fn ask<'w>(
        &mut self,
        subject: &Subject<D>,
        waiting: &'w [Attestation<G>],
        stamp: u64,
    ) -> Result<&'w [Attestation<G>], AllocError>
        ensures left { IfOk result (λ left. IsLeftOver self.old subject.now waiting.now left.now) }
        ensures asks { IfOk result (λ left. left.now ≢ []
            → Asked self.new subject.now waiting.now stamp left.now) }
        ensures none { IfOk result (λ left. left.now ≡ [] → self.new ≡ self.old) }
        ensures truths { (attests : TheSubject D → TheAttestation G → Bool)
            → HasTrueVerdicts attests self.old → HasTrueVerdicts attests self.new }
        ensures needed { OnErr result (IsLeftOver self.old subject.now waiting.now [] → ⊥) }
        ensures refused { OnErr result (self.new ≡ self.old) }
    {
        if self.is_awaited(subject) {
            return Ok(&waiting[waiting.len()..]);
        }
        let known = self.known(subject, waiting);
        if known < waiting.len() {
            self.make_room(waiting.len())?;
            self.hand_out(subject, waiting, known, stamp);
        }
        Ok(&waiting[known..])
    }

    // Makes room for so many.
    fn make_room(&mut self, count: usize) -> Result<(), AllocError>
        ensures room { OnOk result (count ≤ self.new.handed.room) }
        ensures refused { OnErr result (self.new ≡ self.old) }
        ensures same { IsHandedAs self.old self.new }
    {
        if count <= self.room {
            return Ok(());
        }
        self.list.reserve(count - self.list.len())?;
        self.verdicts.reserve(count - self.verdicts.len())?;
        self.room = count;
        Ok(())
    }

    // Hands out what is behind so many of what waits for a subject, for all of which there is room.
    fn hand_out(
        &mut self,
        subject: &Subject<D>,
        waiting: &[Attestation<G>],
        known: usize,
        stamp: u64,
    )
        requires room { length waiting.now ≤ self.old.handed.room }
        requires known { IsKnown self.old.handed subject.now waiting.now known }
        requires within { known ≤ length waiting.now }
        requires closed { self.old.handed.subject ≡ Some subject.now → IsAwaited self.old → ⊥ }
        ensures subject { self.new.handed.subject ≡ Some subject.now }
        ensures list { self.new.handed.list ≡ waiting.now }
        ensures stamp { self.new.stamp ≡ stamp }
        ensures behind { self.new.behind ≡ known }
        ensures verdicts { self.new.handed.verdicts ≡ take known self.old.handed.verdicts }
        ensures truths { (attests : TheSubject D → TheAttestation G → Bool)
            → HasTrueVerdicts attests self.old → HasTrueVerdicts attests self.new }
    {
        self.subject = *subject;
        self.list.truncate(known);
        self.verdicts.truncate(known);
        self.list.extend_from_slice(&waiting[known..]).unwrap();
        self.stamp = stamp;
        self.behind = self.verdicts.len();
    }

    /// Takes in verdicts on what was handed out last, by this stamp, in the place of others on it.
    /// False where it has another stamp, or they aren't as many.
    pub(crate) fn judge_by(&mut self, stamp: u64, verdicts: &[bool]) -> bool
        ensures judged { result ≡ true → self.new ≡ judged_by verdicts.now self.old }
        ensures stamped { result ≡ true → IsStamped (Some self.old) stamp verdicts.now }
        ensures complete { result ≡ true → (subject : TheSubject D) × AreJudged self.new subject
            self.new.handed.list self.new.handed.verdicts }
        ensures not_stale { IsStamped (Some self.old) stamp verdicts.now → result ≡ true }
        ensures truths { (attests : TheSubject D → TheAttestation G → Bool)
            → HasTrueVerdicts attests self.old → (self.old.stamp ≡ stamp
            → AreTrueOn attests self.old verdicts.now) → HasTrueVerdicts attests self.new }
        ensures stale { result ≡ false → self.new ≡ self.old }
    {
        if self.stamp != stamp || verdicts.len() != self.list.len() - self.behind {
            return false;
        }
        self.judge(verdicts);
        true
    }

    // Takes in verdicts on what was handed out last.
    fn judge(&mut self, verdicts: &[bool])
        requires { length verdicts.now + self.old.behind ≡ length self.old.handed.list }
        ensures judged { self.new ≡ judged_by verdicts.now self.old }
        ensures truths { (attests : TheSubject D → TheAttestation G → Bool)
            → HasTrueVerdicts attests self.old → AreTrueOn attests self.old verdicts.now
            → HasTrueVerdicts attests self.new }
    {
        self.verdicts.truncate(self.behind);
        self.verdicts.extend_from_slice(verdicts).unwrap();
    }

    /// The subject, all that was handed out of it, and a verdict on each, once they are there.
    pub(crate) fn judged(&self) -> Option<(&Subject<D>, &[Attestation<G>], &[bool])>
        ensures some { IfSome result (λ it. AreJudged self.now it.0.now it.1.now it.2.now) }
        ensures none { result ≡ None → (subject : TheSubject D) (list : List (TheAttestation G))
            (verdicts : List Bool) → AreJudged self.now subject list verdicts → ⊥ }
    {
        if self.is_open() {
            return None;
        }
        Some((
            &self.subject,
            self.list.as_slice(),
            self.verdicts.as_slice(),
        ))
    }
}
