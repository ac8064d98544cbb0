//! What is handed out to be verified, each attestation once.

ghost use Rattle.std.specs.Prelude.{◌≡◌, ◌≢◌, ◌≤◌, ◌<◌, ◌+◌, [], true, false, Bool, List, ℕ};
ghost use Rattle.std.specs.Prelude.{None, Some, Ok, IfOk, IfSome, OnErr, OnOk, IsSomeAnd, map};
ghost use Rattle.std.specs.BTreeMap.{get};
ghost use Rattle.std.specs.Ordering.{nat_cmp};
ghost use Rattle.batcher_types.specs.declared.messages.Attestation.{Attestation as TheAttestation};
ghost use Rattle.batcher_types.specs.declared.messages.Subject.{Subject as TheSubject};
ghost use Rattle.batcher_votes.specs.Verifiers.{IfGiven};
ghost use Rattle.batcher_verdicts.specs.Requests.{AllHaveTrueVerdicts, AreJudged, AreTrueAt, Asked};
ghost use Rattle.batcher_verdicts.specs.Requests.{DropsPassed, HandsOut, IsLeftAt, IsStamped};
ghost use Rattle.batcher_verdicts.specs.Requests.{JudgesStamped, MayBeRefused, request_at};
ghost use Rattle.batcher_verdicts.specs.Requests.{request_key, request_key_in};

use crate::request::Request;
use batcher_types::messages::{Attestation, Digest, Identical, Kind, Subject};
use std::alloc::{AllocError, Global};
use std::collections::BTreeMap;
use std::marker::Model;
use std::mem::drop;

/// What was handed out to be verified, of each kind and view, and the verdicts that came back.
#[derive(Drop)]
pub struct Requests<G, D> {
    alloc: Global,
    all: BTreeMap<u128, Request<G, D>>,
    // The stamp of what is handed out next.
    next: u64,
    // The last view up to which those of earlier ones were dropped.
    first: u64,
}

impl<G, D> Model for Requests<G, D> {
    ghost use Rattle.batcher_verdicts.specs.Requests.{RequestsView};

    ghost Value = { RequestsView G D };

    ghost view = { λ r. record { all = r.all.entries; next = r.next; first = r.first } };
}

impl<G: Identical, D: Digest> Requests<G, D> {
    /// None. It takes no memory.
    pub fn new(alloc: Global) -> Self
        ensures none { (key : ℕ) → request_at result key ≡ None }
        ensures truths { (attests : TheSubject D → TheAttestation G → Bool)
            → AllHaveTrueVerdicts attests result }
    {
        Requests {
            alloc,
            all: BTreeMap::new(alloc),
            next: 0,
            first: 0,
        }
    }

    /// Hands out what is left of what waits for the subject, and answers it with its stamp, which
    /// no other has. None where nothing is left, or verdicts on what was handed out of it aren't
    /// there yet: then nothing changes, and where memory is refused.
    pub fn ask<'w>(
        &mut self,
        subject: &Subject<D>,
        waiting: &'w [Attestation<G>],
    ) -> Result<Option<(u64, &'w [Attestation<G>])>, AllocError>
        ensures asks { IfGiven result (λ asked. HandsOut self.old self.new subject.now waiting.now
            asked.0 asked.1.now) }
        ensures none { result ≡ Ok None → IsLeftAt (request_at self.old (request_key subject.now))
            subject.now waiting.now [] }
        ensures truths { (attests : TheSubject D → TheAttestation G → Bool)
            → AllHaveTrueVerdicts attests self.old → AllHaveTrueVerdicts attests self.new }
        ensures stays { result ≡ Ok None → self.new ≡ self.old }
        ensures needed { OnErr result (MayBeRefused self.old subject.now waiting.now) }
        ensures refused { OnErr result (self.new ≡ self.old) }
    {
        let Some(after) = self.next.checked_add(1) else {
            return Err(AllocError);
        };
        let stamp = self.next;
        let left = self.ask_by(subject, waiting, stamp)?;
        if left.is_empty() {
            return Ok(None);
        }
        self.next = after;
        Ok(Some((stamp, left)))
    }

    // The same by this stamp.
    fn ask_by<'w>(
        &mut self,
        subject: &Subject<D>,
        waiting: &'w [Attestation<G>],
        stamp: u64,
    ) -> Result<&'w [Attestation<G>], AllocError>
        ensures left { IfOk result (λ left. IsLeftAt (request_at self.old (request_key subject.now))
            subject.now waiting.now left.now) }
        ensures asks { IfOk result (λ left. left.now ≢ [] → IsSomeAnd
            (request_at self.new (request_key subject.now))
            (λ r. Asked r subject.now waiting.now stamp left.now)) }
        ensures others { (key : ℕ) → key ≢ request_key subject.now
            → request_at self.new key ≡ request_at self.old key }
        ensures truths { (attests : TheSubject D → TheAttestation G → Bool)
            → AllHaveTrueVerdicts attests self.old → AllHaveTrueVerdicts attests self.new }
        ensures none { IfOk result (λ left. left.now ≡ [] → self.new ≡ self.old) }
        ensures needed { OnErr result (IsLeftAt (request_at self.old (request_key subject.now))
            subject.now waiting.now [] → ⊥) }
        ensures refused { OnErr result (self.new ≡ self.old) }
        ensures next { self.new.next ≡ self.old.next }
        ensures first { self.new.first ≡ self.old.first }
    {
        let key = key_of(subject);
        match self.all.get_mut(&key) {
            Some(request) => request.ask(subject, waiting, stamp),
            None => {
                if waiting.is_empty() {
                    return Ok(waiting);
                }
                let request = Request::first(self.alloc, subject, waiting, stamp)?;
                self.put(key, request)?;
                Ok(waiting)
            }
        }
    }

    /// Takes in verdicts on what was handed out last of a kind of a view, where it has this stamp.
    /// False where it hasn't, or where there isn't one verdict on each: then nothing changes.
    pub fn judge(&mut self, kind: Kind, view: u64, stamp: u64, verdicts: &[bool]) -> bool
        ensures judges { result ≡ true → JudgesStamped self.old self.new
            (request_key_in kind view) stamp verdicts.now }
        ensures not_stale { IsStamped (request_at self.old (request_key_in kind view)) stamp
            verdicts.now → result ≡ true }
        ensures complete { result ≡ true → IsSomeAnd
            (request_at self.new (request_key_in kind view)) (λ r. (subject : TheSubject D)
            × AreJudged r subject r.handed.list r.handed.verdicts) }
        ensures truths { (attests : TheSubject D → TheAttestation G → Bool)
            → AllHaveTrueVerdicts attests self.old
            → AreTrueAt attests (request_at self.old (request_key_in kind view)) stamp verdicts.now
            → AllHaveTrueVerdicts attests self.new }
        ensures stale { result ≡ false → self.new ≡ self.old }
    {
        let key = key_in(kind, view);
        match self.all.get_mut(&key) {
            Some(request) => request.judge_by(stamp, verdicts),
            None => false,
        }
    }

    /// The subject of a kind of a view, all that was handed out of it, and a verdict on each, once
    /// they are there.
    pub fn judged(&self, kind: Kind, view: u64) -> Option<(&Subject<D>, &[Attestation<G>], &[bool])>
        ensures some { IfSome result (λ it. IsSomeAnd
            (request_at self.now (request_key_in kind view))
            (λ r. AreJudged r it.0.now it.1.now it.2.now)) }
        ensures none { result ≡ None → (subject : TheSubject D) (list : List (TheAttestation G))
            (verdicts : List Bool) → IsSomeAnd (request_at self.now (request_key_in kind view))
            (λ r. AreJudged r subject list verdicts) → ⊥ }
        ensures truths { (attests : TheSubject D → TheAttestation G → Bool)
            → AllHaveTrueVerdicts attests self.now
            → IfSome result (λ it. it.2.now ≡ map (attests it.0.now) it.1.now) }
    {
        match self.all.get(&key_in(kind, view)) {
            Some(request) => request.judged(),
            None => None,
        }
    }

    /// Drops those of views before this one, unless that was done before.
    pub fn drop_before(&mut self, view: u64)
        ensures drops { DropsPassed self.old self.new view }
        ensures truths { (attests : TheSubject D → TheAttestation G → Bool)
            → AllHaveTrueVerdicts attests self.old → AllHaveTrueVerdicts attests self.new }
    {
        if view <= self.first {
            return;
        }
        drop_before(&mut self.all, key_in(Kind::Notarization, view));
        self.first = view;
    }

    // Puts a request where there is none.
    fn put(&mut self, key: u128, request: Request<G, D>) -> Result<(), AllocError>
        ensures here { OnOk result (request_at self.new key ≡ Some request) }
        ensures others { (other : ℕ) → other ≢ key
            → request_at self.new other ≡ request_at self.old other }
        ensures refused { OnErr result (self.new ≡ self.old) }
        ensures next { self.new.next ≡ self.old.next }
        ensures first { self.new.first ≡ self.old.first }
    {
        drop(self.all.insert(key, request)?);
        Ok(())
    }
}

// Drops those of views before this one.
fn drop_before<R: Drop>(all: &mut BTreeMap<u128, R>, first: u128)
    ensures kept { (key : ℕ) → first ≤ key → get nat_cmp all.new key ≡ get nat_cmp all.old key }
    ensures gone { (key : ℕ) → key < first → get nat_cmp all.new key ≡ None }
{
    all.retain(move |key, _| *key >= first);
}

// Each view and kind has a key of its own.
fn key_in(kind: Kind, view: u64) -> u128
    ensures { result ≡ request_key_in kind view }
{
    match kind {
        Kind::Notarization => view as u128 * 3,
        Kind::Nullification => view as u128 * 3 + 1,
        Kind::Finalization => view as u128 * 3 + 2,
    }
}

fn key_of<D: Digest>(subject: &Subject<D>) -> u128
    ensures { result ≡ request_key subject.now }
{
    match subject {
        Subject::Notarize { proposal } => key_in(Kind::Notarization, proposal.round.view.0),
        Subject::Nullify { round } => key_in(Kind::Nullification, round.view.0),
        Subject::Finalize { proposal } => key_in(Kind::Finalization, proposal.round.view.0),
    }
}
