//! The certificates that a validator keeps, to send them, and to send them again.

ghost use Rattle.std.specs.Prelude.{◌≡◌, ◌≤◌, ◌<◌, ◌+◌, ◌⊎◌, ◌++◌, [], ◌∷◌, Contains, IfOk, IfSome};
ghost use Rattle.std.specs.Prelude.{IsPermutation, IsTrue, MatchBool, None, OnErr, OnOk, Some};
ghost use Rattle.std.specs.Prelude.{get_or, length, nat_le, take, true, false, ℕ};
ghost use Rattle.std.specs.List.{count_by, filter, slice_get};
ghost use Rattle.batcher.specs.Votes.{kind_certified, round_in, subject_certified};
ghost use Rattle.batcher.specs.messages.Certificate.{Certificate as TheCertificate};
ghost use Rattle.batcher.specs.messages.Proposal.{Proposal as TheProposal};
ghost use Rattle.batcher.specs.messages.Subject.TheVariants.{Finalize};
ghost use Rattle.batcher_validator.specs.Queues.{AreDistinct, AreParted, HasKey};
ghost use Rattle.batcher_validator.specs.Resending.{is_again, is_again_above};
ghost use Rattle.batcher_validator.specs.Shelves.{HaveNoFinal, IsAt, IsFinalAt, IsLowestFinal};
ghost use Rattle.batcher_validator.specs.Shelves.{PutsBehind, ShelfView, ShelvesOne, is_from};
ghost use Rattle.batcher_validator.specs.Shelves.{kind_and_round};

use crate::resending::{below_turn, is_again};
use batcher::messages::{Certificate, Digest, Kind, Proposal, Subject};
use batcher::positions::Round;
use batcher_node::Window;
use std::alloc::{AllocError, Global};
use std::marker::Model;

/// Certificates, of each kind and round one.
#[derive(Drop)]
pub(crate) struct Shelf<C: Drop, D: Digest> {
    certificates: Vec<Certificate<C, D>>,
    // How many of them were given to be sent.
    handed: usize,
    // No finalization is of a view after this one, and of the other kinds none after these.
    last_final: u64,
    last_notarized: u64,
    last_nullified: u64,
}

impl<C: Drop, D: Digest> Model for Shelf<C, D> {
    ghost use Rattle.std.specs.Prelude.{◌-◌, length};
    ghost use Rattle.std.specs.Vec.{vec_capacity};
    ghost use Rattle.batcher_validator.specs.Shelves.{AreShelved, ShelfView, last_of};

    ghost Value = { ShelfView C D };

    ghost view = { λ s. record {
      certificates = s.certificates.items;
      handed = s.handed;
      room = vec_capacity s.certificates - length s.certificates.items;
    } };

    ghost invariant = { λ s. AreShelved s.last_final
        (last_of s.last_final s.last_notarized s.last_nullified) s.certificates.items };
}

impl<C: Drop, D: Digest> Shelf<C, D> {
    pub(crate) fn new(alloc: Global) -> Self
        ensures certificates { result.certificates ≡ [] }
        ensures handed { result.handed ≡ 0 }
    {
        Shelf {
            certificates: Vec::new(alloc),
            handed: 0,
            last_final: 0,
            last_notarized: 0,
            last_nullified: 0,
        }
    }

    /// The certificates, in the order in which they came, but for those that were given again.
    pub(crate) fn as_slice(&self) -> &[Certificate<C, D>]
        ensures all { result.now ≡ self.now.certificates }
        ensures distinct { AreDistinct kind_and_round self.now.certificates }
    {
        &self.certificates
    }

    /// Makes room for one more.
    pub(crate) fn make_room(&mut self) -> Result<(), AllocError>
        ensures room { OnOk result (1 ≤ self.new.room) }
        ensures needed { OnErr result (self.old.room ≡ 0) }
        ensures certificates { self.new.certificates ≡ self.old.certificates }
        ensures handed { self.new.handed ≡ self.old.handed }
    {
        self.certificates.reserve(1)
    }

    /// Takes one in, for which there is room, unless there is one of its kind and round.
    pub(crate) fn put(&mut self, certificate: Certificate<C, D>)
        requires { 1 ≤ self.old.room }
        ensures certificates { ShelvesOne certificate self.old.certificates self.new.certificates }
        ensures handed { self.new.handed ≡ self.old.handed }
    {
        if self.has_one_of(&certificate) {
            drop(certificate);
            return;
        }
        let finalized = final_view_of(&certificate);
        let notarized = view_of_kind(&certificate, Kind::Notarization);
        let nullified = view_of_kind(&certificate, Kind::Nullification);
        let last_final = self.last_final.max(finalized);
        let last_notarized = self.last_notarized.max(notarized);
        let last_nullified = self.last_nullified.max(nullified);
        self.last_final = last_final;
        self.last_notarized = last_notarized;
        self.last_nullified = last_nullified;
        self.certificates.push_reserved(certificate);
    }

    // Whether one of the certificate's kind and round is among them.
    fn has_one_of(&self, certificate: &Certificate<C, D>) -> bool
        ensures { MatchBool result
            (HasKey kind_and_round self.now.certificates (kind_and_round certificate.now))
            (HasKey kind_and_round self.now.certificates (kind_and_round certificate.now) → ⊥) }
    {
        match self.get(certificate.kind(), certificate.round()) {
            Some(_) => true,
            None => false,
        }
    }

    /// The kind and the round of the first that wasn't given to be sent.
    pub(crate) fn next(&self) -> Option<(Kind, Round)>
        ensures none { result ≡ None → length self.now.certificates ≤ self.now.handed }
        ensures some { IfSome result (λ key. IsAt self.now.certificates self.now.handed
            (key.0, key.1)) }
    {
        key_at(&self.certificates, self.handed)
    }

    /// The proposal of the lowest finalization of a view above this one, with its place.
    pub(crate) fn final_after(&self, view: u64) -> Option<(usize, Proposal<D>)>
        ensures none { result ≡ None → HaveNoFinal view self.now.certificates }
        ensures some { IfSome result (λ it. IsFinalAt view self.now.certificates it.0 it.1) }
        ensures lowest { IfSome result (λ it. IsLowestFinal view self.now.certificates it.1) }
    {
        if self.last_final <= view {
            return None;
        }
        final_after(&self.certificates, view)
    }

    /// The one at this place.
    pub(crate) fn at(&self, i: usize) -> &Certificate<C, D>
        requires { i < length self.now.certificates }
        ensures { slice_get self.now.certificates i ≡ Some result.now }
    {
        &self.certificates[i]
    }

    /// The one of this kind and round. One that would be the latest of its kind isn't looked for.
    pub(crate) fn get(&self, kind: Kind, round: Round) -> Option<&Certificate<C, D>>
        ensures some { IfSome result (λ c. Contains self.now.certificates c.now
            × (kind_and_round c.now ≡ (kind, round))) }
        ensures none { result ≡ None → HasKey kind_and_round self.now.certificates (kind, round)
            → ⊥ }
    {
        if self.last_of(kind) < round.view.0 {
            return None;
        }
        find(&self.certificates, kind, round)
    }

    // The view up to which those of a kind are.
    fn last_of(&self, kind: Kind) -> u64
        ensures { (c : TheCertificate C D) → Contains self.now.certificates c
            → kind_certified c ≡ kind → (round_in (subject_certified c)).view.0 ≤ result }
    {
        match kind {
            Kind::Notarization => self.last_notarized,
            Kind::Nullification => self.last_nullified,
            Kind::Finalization => self.last_final,
        }
    }

    /// The one that waits to be kept for the disk.
    pub(crate) fn waiting(&self, waits: Option<Subject<D>>) -> Option<&Certificate<C, D>> {
        match waits {
            Some(Subject::Notarize { proposal }) => self.get(Kind::Notarization, proposal.round),
            Some(Subject::Nullify { round }) => self.get(Kind::Nullification, round),
            Some(Subject::Finalize { proposal }) => self.get(Kind::Finalization, proposal.round),
            None => None,
        }
    }

    /// The next one was given.
    pub(crate) fn note_handed(&mut self)
        requires { self.old.handed < length self.old.certificates }
        ensures certificates { self.new.certificates ≡ self.old.certificates }
        ensures handed { self.new.handed ≡ self.old.handed + 1 }
    {
        self.handed += 1;
    }

    /// Those that are given again come behind the others that were given, and so they are no longer
    /// among those that were.
    pub(crate) fn begin_again(&mut self, window: Window, turn: u64)
        ensures { PutsBehind (λ c. is_again window turn (kind_and_round c)) self.old self.new }
    {
        let below = below_turn(window, turn);
        let end = self.handed.min(self.certificates.len());
        self.handed = put_behind(&mut self.certificates, end, window, below);
    }

    /// Drops those of views before this one.
    pub(crate) fn drop_before(&mut self, first: u64)
        ensures certificates { self.new.certificates
            ≡ filter (is_from first) self.old.certificates }
        ensures handed { self.new.handed
            ≡ count_by (is_from first) (take self.old.handed self.old.certificates) }
    {
        self.handed = self.handed_from(first);
        self.certificates
            .retain(move |certificate| first <= certificate.round().view.0);
    }

    // How many of those that were given are of views from this one on.
    fn handed_from(&self, first: u64) -> usize
        ensures { result ≡ count_by (is_from first) (take self.now.handed self.now.certificates) }
    {
        if self.handed < self.certificates.len() {
            return count_from(&self.certificates[..self.handed], first);
        }
        count_from(&self.certificates, first)
    }
}

// Puts those up to an end that are given again behind the others, and answers how many others there
// are.
fn put_behind<C, D: Digest>(
    certificates: &mut Vec<Certificate<C, D>>,
    end: usize,
    window: Window,
    below: u64,
) -> usize
    requires { end ≤ length certificates.old.items }
    ensures moves { IsPermutation certificates.old.items certificates.new.items }
    ensures behind { (i : ℕ) (c : TheCertificate C D) → end ≤ i
        → get_or certificates.new.items i c ≡ get_or certificates.old.items i c }
    ensures parted { AreParted (λ c. is_again_above window below (kind_and_round c))
        certificates.new.items end result }
{
    let mut stay = 0;
    for i in 0..end {
        if !is_again_at(certificates, i, window, below) {
            certificates.swap(stay, i);
            stay += 1;
        }
    }
    stay
}

// Whether the one at this place is given again.
fn is_again_at<C, D: Digest>(
    certificates: &[Certificate<C, D>],
    i: usize,
    window: Window,
    below: u64,
) -> bool
    requires { i < length certificates.now }
    ensures { (c : TheCertificate C D) → result
        ≡ is_again_above window below (kind_and_round (get_or certificates.now i c)) }
{
    is_again(
        window,
        below,
        certificates[i].kind(),
        certificates[i].round(),
    )
}

fn count_from<C, D: Digest>(certificates: &[Certificate<C, D>], first: u64) -> usize
    ensures { result ≡ count_by (is_from first) certificates.now }
{
    certificates
        .iter()
        .filter(|certificate| first <= certificate.round().view.0)
        .count()
}

// The view that a finalization makes the final one, and 0 of what is none.
fn final_view_of<C, D: Digest>(certificate: &Certificate<C, D>) -> u64
    ensures { (p : TheProposal D) → subject_certified certificate.now ≡ Finalize p
        → p.round.view.0 ≤ result }
{
    match certificate.subject() {
        Subject::Finalize { proposal } => proposal.round.view.0,
        Subject::Notarize { .. } => 0,
        Subject::Nullify { .. } => 0,
    }
}

// The view of a certificate of the kind, and 0 of another.
fn view_of_kind<C, D: Digest>(certificate: &Certificate<C, D>, kind: Kind) -> u64
    ensures { kind_certified certificate.now ≡ kind
        → (round_in (subject_certified certificate.now)).view.0 ≤ result }
{
    if certificate.kind() == kind {
        return certificate.round().view.0;
    }
    0
}

// The same among these.
fn final_after<C, D: Digest>(
    certificates: &[Certificate<C, D>],
    view: u64,
) -> Option<(usize, Proposal<D>)>
    ensures none { result ≡ None → HaveNoFinal view certificates.now }
    ensures some { IfSome result (λ it. IsFinalAt view certificates.now it.0 it.1) }
    ensures lowest { IfSome result (λ it. IsLowestFinal view certificates.now it.1) }
{
    let mut found: Option<(usize, Proposal<D>)> = None;
    for i in 0..certificates.len() {
        found = lower_of(found, i, final_at(certificates, i, view));
    }
    found
}

// The lower of what was found and of what is at a place.
fn lower_of<D: Copy>(
    found: Option<(usize, Proposal<D>)>,
    i: usize,
    here: Option<Proposal<D>>,
) -> Option<(usize, Proposal<D>)>
    ensures none { result ≡ None → (found ≡ None) × (here ≡ None) }
    ensures some { IfSome result (λ it. (found ≡ Some it)
        ⊎ ((it.0 ≡ i) × (here ≡ Some it.1))) }
    ensures found { IfSome result (λ it. IfSome found (λ other.
        it.1.round.view.0 ≤ other.1.round.view.0)) }
    ensures here { IfSome result (λ it. IfSome here (λ other.
        it.1.round.view.0 ≤ other.round.view.0)) }
{
    match (found, here) {
        (Some((at, lowest)), Some(proposal)) => {
            if proposal.round.view.0 < lowest.round.view.0 {
                return Some((i, proposal));
            }
            Some((at, lowest))
        }
        (None, Some(proposal)) => Some((i, proposal)),
        (found, None) => found,
    }
}

// The proposal of the finalization at this place, if it is one of a later view.
fn final_at<C, D: Digest>(
    certificates: &[Certificate<C, D>],
    i: usize,
    view: u64,
) -> Option<Proposal<D>>
    requires { i < length certificates.now }
    ensures some { IfSome result (λ p. IsFinalAt view certificates.now i p) }
    ensures none { result ≡ None → (c : TheCertificate C D)
        → slice_get certificates.now i ≡ Some c → (p : TheProposal D)
        → subject_certified c ≡ Finalize p → p.round.view.0 ≤ view }
{
    match certificates[i].subject() {
        Subject::Finalize { proposal } => {
            if view < proposal.round.view.0 {
                return Some(proposal);
            }
            None
        }
        Subject::Notarize { .. } => None,
        Subject::Nullify { .. } => None,
    }
}

// The one of this kind and round among these. It is looked for from the last one on, since that of
// a late view is asked for most.
fn find<C, D: Digest>(
    certificates: &[Certificate<C, D>],
    kind: Kind,
    round: Round,
) -> Option<&Certificate<C, D>>
    ensures some { IfSome result (λ c. Contains certificates.now c.now
        × (kind_and_round c.now ≡ (kind, round))) }
    ensures none { result ≡ None → HasKey kind_and_round certificates.now (kind, round) → ⊥ }
{
    for i in 0..certificates.len() {
        let at = certificates.len() - 1 - i;
        if is_key_at(certificates, at, kind, round) {
            return Some(&certificates[at]);
        }
    }
    None
}

fn is_key_at<C, D: Digest>(
    certificates: &[Certificate<C, D>],
    i: usize,
    kind: Kind,
    round: Round,
) -> bool
    requires { i < length certificates.now }
    ensures yes { IsTrue result → (c : TheCertificate C D)
        → slice_get certificates.now i ≡ Some c → kind_and_round c ≡ (kind, round) }
    ensures no { result ≡ false → (c : TheCertificate C D)
        → slice_get certificates.now i ≡ Some c → kind_and_round c ≡ (kind, round) → ⊥ }
{
    certificates[i].kind() == kind && certificates[i].round() == round
}

// The kind and the round of the one at this place.
fn key_at<C, D: Digest>(certificates: &[Certificate<C, D>], i: usize) -> Option<(Kind, Round)>
    ensures none { result ≡ None → length certificates.now ≤ i }
    ensures some { IfSome result (λ key. IsAt certificates.now i (key.0, key.1)) }
{
    match certificates.get(i) {
        Some(certificate) => Some((certificate.kind(), certificate.round())),
        None => None,
    }
}
