//! What is handed out of a validator to be verified, each attestation once, and the verdicts that
//! come back.

ghost use Rattle.std.specs.Prelude.{◌≡◌, Bool, IfSome, None, []};
ghost use Rattle.batcher_types.specs.declared.messages.Attestation.{Attestation as TheAttestation};
ghost use Rattle.batcher_types.specs.declared.messages.Sha256Digest.{Sha256Digest as TheDigest};
ghost use Rattle.batcher_types.specs.declared.messages.Subject.{Subject as TheSubject};
ghost use Rattle.batcher_bytes.specs.declared.signature.Signature.{Signature as TheSignature};
ghost use Rattle.batcher_node.specs.Nodes.{SameNode};
ghost use Rattle.batcher_verdicts.specs.Requests.{AllHaveTrueVerdicts, request_key, request_key_in};
ghost use Rattle.batcher_ffi.specs.Judging.{AreTrueNow, AsksEarly, AsksLeft, AsksOfNext, AsksOf};
ghost use Rattle.batcher_ffi.specs.Judging.{ConcludesJudged, DropsRested, HasUnverified};
ghost use Rattle.batcher_ffi.specs.Judging.{IsFirstDue, IsJudgedAt, IsUnasked};
ghost use Rattle.batcher_ffi.specs.Judging.{IsNotJudged, LendsNext, LooksAtNow, TakesVerdicts};
ghost use Rattle.batcher_ffi.specs.Judging.{output};
ghost use Rattle.batcher_ffi.specs.Validators.{Enters, LendsNone};

use crate::codes::{IDLE, MALFORMED, OUT_OF_MEMORY, SHORT, STALE, VERIFY};
use crate::flat::{FlatAttestation, FlatStep, kind_of};
use crate::validators::{self, CValidator, conclude_by, has_room, rest};
use crate::writing::write_wanted;
use batcher_bytes::Signature;
use batcher_types::messages::{Kind, Sha256Digest, Subject, are_identical};
use batcher_types::positions::View;
use batcher_verdicts::Requests;
use batcher_votes::verifier::NextAttempt;
use std::alloc::Global;
use std::marker::Model;

/// How many views are looked at for what may be verified early, from that of the next construction
/// on.
const EARLY: u64 = 5;

/// A validator, with what was handed out of it to be verified, and the verdicts that came back.
#[derive(Drop)]
pub struct JudgedValidator {
    pub(crate) validator: CValidator,
    pub(crate) requests: Requests<Signature, Sha256Digest>,
}

impl Model for JudgedValidator {
    ghost use Rattle.batcher_ffi.specs.Judging.{JudgedValidatorView, attests_by};
    ghost use Rattle.batcher_verdicts.specs.Requests.{AllHaveTrueVerdicts};

    ghost Value = { JudgedValidatorView };

    ghost view = { λ j. record { validator = j.validator; requests = j.requests } };

    ghost invariant = { λ j. AllHaveTrueVerdicts (attests_by j.validator) j.requests };
}

impl JudgedValidator {
    /// One of which nothing was handed out.
    pub fn new(alloc: Global, validator: CValidator) -> Self
        ensures validator { result.validator ≡ validator }
        ensures unasked { IsUnasked result }
    {
        JudgedValidator {
            validator,
            requests: Requests::new(alloc),
        }
    }
}

/// Hands out attestations of one subject that are to be verified, each once, by a stamp that
/// nothing else has. Where a verdict on each that the next construction looks at is there, that is
/// made.
pub fn lend(
    it: &mut JudgedValidator,
    out: &mut FlatStep,
    stamp: &mut u64,
    list: &mut [FlatAttestation],
) -> u8
    ensures lends { LendsNext it.old result it.new (output out.old stamp.old list.old)
        (output out.new stamp.new list.new) }
    ensures same { SameNode it.old.validator.voter.node it.new.validator.voter.node }
{
    if !has_room(&it.validator, list) {
        return SHORT;
    }
    if let Some(subject) = next_verified(it) {
        return conclude_by(&mut it.validator, subject, &[], &[]);
    }
    if let Some((kind, view)) = next_judged(it) {
        return conclude_judged(it, kind, view);
    }
    match ask_next(it, out, stamp, list) {
        Some(IDLE) => ask_early(it, out, stamp, list),
        Some(code) => code,
        None => rest(&mut it.validator),
    }
}

// What the next construction is about, where it looks at nothing that isn't verified.
fn next_verified(it: &JudgedValidator) -> Option<Subject<Sha256Digest>>
    ensures some { IfSome result (λ subject. LooksAtNow it.now.validator subject []) }
    ensures none { result ≡ None → HasUnverified it.now.validator }
{
    let wanted = it.validator.next_attempt()?;
    if are_identical(wanted.pending, &[]) {
        Some(wanted.subject)
    } else {
        None
    }
}

// The kind and the view of the next construction, where a verdict on each attestation that it looks
// at is there.
fn next_judged(it: &JudgedValidator) -> Option<(Kind, View)>
    ensures some { IfSome result (λ place. IsJudgedAt it.now place.0 place.1.0) }
    ensures none { result ≡ None → IsNotJudged it.now }
{
    let wanted = it.validator.next_attempt()?;
    let (kind, view) = place_of(&wanted.subject);
    let (subject, list, _) = it.requests.judged(kind, view.0)?;
    if subject.is_same(&wanted.subject) && are_identical(list, wanted.pending) {
        Some((kind, view))
    } else {
        None
    }
}

// The kind and the view of a subject.
fn place_of(subject: &Subject<Sha256Digest>) -> (Kind, View)
    ensures { request_key_in result.0 result.1.0 ≡ request_key subject.now }
{
    match subject {
        Subject::Notarize { proposal } => (Kind::Notarization, proposal.round.view),
        Subject::Nullify { round } => (Kind::Nullification, round.view),
        Subject::Finalize { proposal } => (Kind::Finalization, proposal.round.view),
    }
}

// Makes the next construction by the verdicts of a kind of a view, where they are on what it looks
// at.
fn conclude_judged(it: &mut JudgedValidator, kind: Kind, view: View) -> u8
    ensures concludes { ConcludesJudged it.old result it.new kind view.0 }
    ensures same { SameNode it.old.validator.voter.node it.new.validator.voter.node }
{
    match it.requests.judged(kind, view.0) {
        Some((subject, list, verdicts)) => {
            conclude_by(&mut it.validator, *subject, list, verdicts)
        }
        None => STALE,
    }
}

// Hands out what is left of what the next construction looks at. None where it looks at nothing.
fn ask_next(
    it: &mut JudgedValidator,
    out: &mut FlatStep,
    stamp: &mut u64,
    list: &mut [FlatAttestation],
) -> Option<u8>
    ensures none { result ≡ None → LendsNone it.old.validator }
    ensures some { IfSome result (λ code. AsksOfNext it.old code it.new
        (output out.old stamp.old list.old) (output out.new stamp.new list.new)) }
    ensures same { result ≡ None → it.new ≡ it.old }
    ensures stays { result ≡ None
        → output out.new stamp.new list.new ≡ output out.old stamp.old list.old }
{
    match it.validator.next_attempt() {
        Some(wanted) => Some(hand_out(&mut it.requests, &wanted, out, stamp, list)),
        None => None,
    }
}

// Hands out what is left of what an attempt looks at.
fn hand_out(
    requests: &mut Requests<Signature, Sha256Digest>,
    wanted: &NextAttempt<'_, Signature, Sha256Digest>,
    out: &mut FlatStep,
    stamp: &mut u64,
    list: &mut [FlatAttestation],
) -> u8
    ensures asks { AsksLeft requests.old requests.new result wanted.now.subject
        wanted.now.pending.now (output out.old stamp.old list.old)
        (output out.new stamp.new list.new) }
    ensures truths { (attests : TheSubject TheDigest → TheAttestation TheSignature → Bool)
        → AllHaveTrueVerdicts attests requests.old → AllHaveTrueVerdicts attests requests.new }
{
    match requests.ask(&wanted.subject, wanted.pending) {
        Ok(Some((number, left))) => {
            let asked = NextAttempt {
                subject: wanted.subject,
                pending: left,
                verified: wanted.verified,
            };
            write_wanted(&asked, out, &mut [], list);
            *stamp = number;
            VERIFY
        }
        Ok(None) => IDLE,
        Err(_) => OUT_OF_MEMORY,
    }
}

// The same of attempts that aren't next: of the other kinds of its view, and of views after it, up
// to the one after that which the validator is in.
fn ask_early(
    it: &mut JudgedValidator,
    out: &mut FlatStep,
    stamp: &mut u64,
    list: &mut [FlatAttestation],
) -> u8
    ensures { AsksEarly it.old result it.new (output out.old stamp.old list.old)
        (output out.new stamp.new list.new) }
{
    let node = it.validator.voter().node();
    let last = node.window().current.saturating_add(1);
    let first = match node.next_view() {
        Some(view) => view.0,
        None => last,
    };
    for ahead in 0..EARLY {
        let view = first.saturating_add(ahead);
        if last < view {
            return IDLE;
        }
        let code = ask_kinds(it, View(view), out, stamp, list);
        if code != IDLE {
            return code;
        }
    }
    IDLE
}

fn ask_kinds(
    it: &mut JudgedValidator,
    view: View,
    out: &mut FlatStep,
    stamp: &mut u64,
    list: &mut [FlatAttestation],
) -> u8
    ensures { AsksEarly it.old result it.new (output out.old stamp.old list.old)
        (output out.new stamp.new list.new) }
{
    let notarizes = ask_of(it, view, Kind::Notarization, out, stamp, list);
    if notarizes != IDLE {
        return notarizes;
    }
    let nullifies = ask_of(it, view, Kind::Nullification, out, stamp, list);
    if nullifies != IDLE {
        return nullifies;
    }
    ask_of(it, view, Kind::Finalization, out, stamp, list)
}

fn ask_of(
    it: &mut JudgedValidator,
    view: View,
    kind: Kind,
    out: &mut FlatStep,
    stamp: &mut u64,
    list: &mut [FlatAttestation],
) -> u8
    ensures { AsksOf it.old result it.new view.0 kind (output out.old stamp.old list.old)
        (output out.new stamp.new list.new) }
{
    match it.validator.attempt_in(view, kind) {
        Some(wanted) => hand_out(&mut it.requests, &wanted, out, stamp, list),
        None => IDLE,
    }
}

/// Takes in verdicts on what was handed out by a stamp, and makes the next construction where they
/// complete those that it wants.
pub fn conclude(it: &mut JudgedValidator, view: u64, kind: u8, stamp: u64, verdicts: &[bool]) -> u8
    requires { AreTrueNow it.old view kind stamp verdicts.now }
    ensures takes { TakesVerdicts it.old result it.new view kind stamp verdicts.now }
    ensures same { SameNode it.old.validator.voter.node it.new.validator.voter.node }
{
    let Some(kind) = kind_of(kind) else {
        return MALFORMED;
    };
    if !it.requests.judge(kind, view, stamp, verdicts) {
        return STALE;
    }
    conclude_judged(it, kind, View(view))
}

/// Enters a view with its leader, and drops what was handed out of views in which nothing is due.
pub fn enter(it: &mut JudgedValidator, view: u64, leader: u32) -> u8
    ensures enters { Enters it.old.validator result it.new.validator view leader }
    ensures drops { DropsRested it.old.requests it.new.requests it.new.validator }
    ensures same { SameNode it.old.validator.voter.node it.new.validator.voter.node }
{
    let code = validators::enter(&mut it.validator, view, leader);
    let first = first_due(&it.validator);
    it.requests.drop_before(first);
    code
}

// The first view of which something may be constructed, or the one that it is in.
fn first_due(it: &CValidator) -> u64
    ensures { IsFirstDue it.now result }
{
    let node = it.voter().node();
    match node.next_view() {
        Some(view) => view.0,
        None => node.window().current,
    }
}
