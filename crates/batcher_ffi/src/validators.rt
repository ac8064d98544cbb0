//! The calls of a validator, over flat values. Each answers a code.

ghost use Rattle.std.specs.Prelude.{◌≡◌, ◌≢◌, ◌<◌, ◌≤◌, ◌⊎◌, Err, MatchBool, None};
ghost use Rattle.std.specs.Prelude.{Some, false, length, map, true};
ghost use Rattle.batcher_types.specs.Votes.{attestation_of};
ghost use Rattle.batcher_types.specs.Votes.{subject_of};
ghost use Rattle.batcher_validator.specs.Histories.{answered, refused};
ghost use Rattle.batcher_validator.specs.Running.{RunMeets};
ghost use Rattle.batcher_ffi.specs.Validators.{AnswersPoll, AreVerifiedIn};
ghost use Rattle.batcher_ffi.specs.Validators.{AsksCertified, AsksKept, AsksListing, AsksOwed};
ghost use Rattle.batcher_ffi.specs.Validators.{AsksViews, AsksWanted, CastCode, CastsOwn};
ghost use Rattle.batcher_ffi.specs.Validators.{CertificateCame, Enters, EntersWith};
ghost use Rattle.batcher_ffi.specs.Validators.{Expires, Gave, GivesMessage, HearsCertificate};
ghost use Rattle.batcher_ffi.specs.Validators.{HearsVote, IsConcluded, IsFromAhead};
ghost use Rattle.batcher_ffi.specs.Validators.{IsNotCopied, IsOfPeer};
ghost use Rattle.batcher_ffi.specs.Validators.{Judges};
ghost use Rattle.batcher_ffi.specs.Validators.{Polls, SaysIfWanted, ShowsKept};
ghost use Rattle.batcher_ffi.specs.Validators.{VoteCast, Wrote, hears_code};
ghost use Rattle.batcher_ffi.specs.Validators.{is_over_in, validator_config, validator_copy};
ghost use Rattle.batcher_ffi.specs.Validators.{validator_namespace, validator_participants};
ghost use Rattle.batcher_ffi.specs.Flat.{kind_in};
ghost use Rattle.batcher_ffi.specs.Progress.{AsksProgress};
ghost use Rattle.batcher_ffi.specs.Rounds.{IsVerifiedBy};
ghost use Rattle.batcher_ffi.specs.Validators.{RestsWithout, validator_keys};
ghost use Rattle.batcher_node.specs.Nodes.{SameNode};
ghost use Rattle.batcher_node.specs.Windows.{is_ahead};
ghost use Rattle.batcher_ffi.specs.Tasks.{IsProposedIn};

use crate::answers::{ahead_code_of, enter_code_of, verdict_code_of, write_receipt};
use crate::caller::Caller;
use crate::certificates::{certifies, listing_of};
use crate::codes::{
    CLOSED, DONE, DROPPED, ELSEWHERE, FORGED, FULL, IDLE, KNOWN, MALFORMED, NOT_GIVEN, NOT_OWN,
    NOT_VERIFIED, NOT_WRITTEN, OUT_OF_MEMORY, REFUSED, SHORT, SIGNED, STALE, UNKNOWN, VERIFY,
    WRITE,
};
use crate::flat::{
    FlatAdmission, FlatAttestation, FlatProposal, FlatStep, FlatVote, fault_code, flat_subject,
    kind_of, subject_of,
};
use crate::progress::{FlatProgress, progress};
use crate::rounds::{is_verified, take_part};
use crate::signing::write_message;
use crate::tasks::FlatTask;
use crate::writing::{attestations_of, copied, write_all, write_attestations, write_wanted};
use batcher_bytes::{CopiedLog, Proof, Signature, Signed};
use batcher_node::Cast;
use batcher_types::messages::{Attestation, Certificate, Kind, Sha256Digest, Subject, Vote};
use batcher_types::positions::{Epoch, Participant, Round, View};
use batcher_types::scheme::{Counter, Name};
use batcher_validator::{Next, PollFault, Validator};
use batcher_voter::CastFault;
use std::alloc::Global;

/// A validator as C has it.
pub type CValidator = Validator<Signed<Caller, true>, Sha256Digest, CopiedLog>;

/// What is to be done next.
pub fn poll(it: &mut CValidator, out: &mut FlatTask) -> u8
    ensures polls { Polls it.old result it.new out.old out.new }
    ensures same { SameNode it.old.voter.node it.new.voter.node }
{
    let epoch = it.voter().epoch();
    let answer = it.next();
    write_next(&answer, epoch, out)
}

fn write_next(answer: &Result<Option<Next>, PollFault>, epoch: Epoch, out: &mut FlatTask) -> u8
    ensures answer { AnswersPoll answer.now result out.old out.new }
    ensures proposed { IsProposedIn epoch out.new ⊎ (result ≢ DONE) }
{
    match answer {
        Ok(Some(Next::Do(task))) => {
            out.write(task, epoch);
            DONE
        }
        Ok(Some(Next::Write)) => WRITE,
        Ok(None) => IDLE,
        Err(PollFault::OutOfMemory) => OUT_OF_MEMORY,
        Err(PollFault::Full) => FULL,
        Err(PollFault::Closed) => CLOSED,
    }
}

/// What is to be written to the disk, behind what is there or in its place. Once it is handed out,
/// it is under way by this number.
pub fn give(
    it: &mut CValidator,
    number: u64,
    room: &mut [u8],
    count: &mut u64,
    replaces: &mut bool,
) -> u8
    ensures asks { AsksOwed it.old result room.old room.new count.old count.new replaces.old
        replaces.new }
    ensures gives { Gave it.old result it.new number }
    ensures same { SameNode it.old.voter.node it.new.voter.node }
{
    let code = write_owed(it, room, count, replaces);
    if code != DONE {
        return code;
    }
    it.give(number);
    DONE
}

fn write_owed(it: &CValidator, room: &mut [u8], count: &mut u64, replaces: &mut bool) -> u8
    ensures { AsksOwed it.now result room.old room.new count.old count.new replaces.old
        replaces.new }
{
    match it.owed() {
        Some(owed) => {
            *replaces = owed.replaces;
            write_all(owed.bytes, room, count)
        }
        None => IDLE,
    }
}

/// The write that is under way by this number lasts.
pub fn wrote(it: &mut CValidator, number: u64) -> u8
    ensures wrote { Wrote it.old result it.new number }
    ensures same { SameNode it.old.voter.node it.new.voter.node }
{
    if it.wrote(number) { DONE } else { NOT_GIVEN }
}

/// Takes in a vote of the peer whose key is the number.
pub fn receive_vote(it: &mut CValidator, peer: u64, vote: &FlatVote, out: &mut FlatAdmission) -> u8
    ensures hears { HearsVote it.old result it.new peer vote.now out.old out.new }
    ensures same { SameNode it.old.voter.node it.new.voter.node }
{
    let Some(typed) = vote.vote() else {
        return MALFORMED;
    };
    let answer = it.receive_vote(Name(peer), typed);
    write_receipt(&answer, out)
}

/// Takes in a certificate that a peer sent, with the caller's verdicts on the attestations that its
/// bytes list.
pub fn receive_certificate(
    it: &mut CValidator,
    alloc: Global,
    peer: u64,
    kind: u8,
    proposal: &FlatProposal,
    bytes: &[u8],
    verdicts: &[bool],
) -> u8
    requires { AreVerifiedIn it.old kind proposal.now bytes.now verdicts.now }
    ensures hears { HearsCertificate it.old result it.new peer kind proposal.now bytes.now
        verdicts.now }
    ensures same { SameNode it.old.voter.node it.new.voter.node }
{
    let Some(subject) = subject_of(kind, proposal) else {
        return MALFORMED;
    };
    match certifies(alloc, bytes, verdicts, it.participants()) {
        Ok(Some(certifies)) => take_in(it, alloc, peer, subject, bytes, certifies),
        Ok(None) => MALFORMED,
        Err(_) => OUT_OF_MEMORY,
    }
}

fn take_in(
    it: &mut CValidator,
    alloc: Global,
    peer: u64,
    subject: Subject<Sha256Digest>,
    bytes: &[u8],
    certifies: bool,
) -> u8
    ensures came { IsNotCopied it.old result it.new bytes.now
        ⊎ CertificateCame it.old result it.new peer subject bytes.now certifies }
    ensures same { SameNode it.old.voter.node it.new.voter.node }
{
    let Ok(copied) = copied(alloc, bytes) else {
        return OUT_OF_MEMORY;
    };
    let certificate = Certificate::new(subject, Proof::new(subject, certifies, copied));
    if is_ahead(it, subject.round()) {
        return catch_up(it, peer, certificate);
    }
    hear_certificate(it, peer, certificate)
}

/// The attestations that the bytes of a certificate list, on which verdicts are wanted.
pub fn listed(
    it: &CValidator,
    alloc: Global,
    bytes: &[u8],
    list: &mut [FlatAttestation],
    count: &mut u64,
) -> u8
    ensures { AsksListing it.now result bytes.now list.old list.new count.old count.new }
{
    if !has_room(it, list) {
        return SHORT;
    }
    match listing_of(alloc, bytes, it.participants()) {
        Ok(Some(all)) => {
            *count = all.len() as u64;
            write_attestations(&all, list);
            VERIFY
        }
        Ok(None) => FORGED,
        Err(_) => OUT_OF_MEMORY,
    }
}

/// Whether a certificate of this kind and round is looked at that the peer sends whose key is the
/// number.
pub fn wants(it: &CValidator, peer: u64, kind: u8, proposal: &FlatProposal) -> u8
    ensures { AsksWanted it.now result peer kind proposal.now }
{
    match kind_of(kind) {
        Some(kind) => wants_of(it, peer, kind, proposal.round()),
        None => MALFORMED,
    }
}

fn wants_of(it: &CValidator, peer: u64, kind: Kind, round: Round) -> u8
    ensures { SaysIfWanted it.now result peer kind round }
{
    if peer >= it.participants() as u64 {
        return UNKNOWN;
    }
    if !it.voter().node().is_heard(&Name(peer)) {
        return DROPPED;
    }
    if is_over(it, round) {
        return ELSEWHERE;
    }
    match it.certificate(kind, round) {
        Some(_) => KNOWN,
        None => DONE,
    }
}

// Whether a round is of another epoch, or of a view before the final one.
fn is_over(it: &CValidator, round: Round) -> bool
    ensures { result ≡ is_over_in it.now round }
{
    let voter = it.voter();
    round.epoch != voter.epoch() || round.view.0 < voter.node().window().finalized
}

/// Whether what the peer sends whose key is the number is looked at.
pub fn hears(it: &CValidator, peer: u64) -> u8
    ensures { result ≡ hears_code it.now peer }
{
    if it.voter().node().is_heard(&Name(peer)) {
        DONE
    } else {
        DROPPED
    }
}

// Whether a round is of a view beyond the window.
fn is_ahead(it: &CValidator, round: Round) -> bool
    ensures { result ≡ is_ahead it.now.voter.node.epoch
        it.now.voter.node.window round }
{
    let voter = it.voter();
    round.epoch == voter.epoch() && voter.node().window().is_beyond(round.view.0)
}

fn catch_up(it: &mut CValidator, peer: u64, certificate: Certificate<Proof, Sha256Digest>) -> u8
    ensures came { IsFromAhead it.old result it.new peer certificate }
    ensures on_disk { validator_copy it.new ≡ validator_copy it.old }
    ensures same { SameNode it.old.voter.node it.new.voter.node }
{
    let answer = it.catch_up(Name(peer), certificate);
    ahead_code_of(&answer)
}

fn hear_certificate(
    it: &mut CValidator,
    peer: u64,
    certificate: Certificate<Proof, Sha256Digest>,
) -> u8
    ensures came { IsOfPeer it.old result it.new peer certificate }
    ensures on_disk { validator_copy it.new ≡ validator_copy it.old }
    ensures same { SameNode it.old.voter.node it.new.voter.node }
{
    let answer = it.receive_certificate(Name(peer), certificate);
    verdict_code_of(&answer)
}

/// Whether a list has a place for each participant.
pub fn has_room(it: &CValidator, list: &[FlatAttestation]) -> bool
    ensures { MatchBool result (validator_participants it.now ≤ length list.now)
        (length list.now < validator_participants it.now) }
{
    list.len() >= it.participants()
}

/// A construction without verdicts.
pub fn rest(it: &mut CValidator) -> u8
    ensures rests { RestsWithout it.old result it.new }
    ensures same { SameNode it.old.voter.node it.new.voter.node }
{
    match it.try_construct(&mut Counter::new(0)) {
        Ok(_) => IDLE,
        Err(_) => OUT_OF_MEMORY,
    }
}

/// Makes the next construction by verdicts on a list, where it is what that looks at.
pub fn conclude_by(
    it: &mut CValidator,
    subject: Subject<Sha256Digest>,
    all: &[Attestation<Signature>],
    verdicts: &[bool],
) -> u8
    requires { verdicts.now ≡ map ((validator_config it.old).meaning.attests subject) all.now }
    ensures concluded { IsConcluded it.old result it.new subject all.now }
    ensures same { SameNode it.old.voter.node it.new.voter.node }
{
    match it.conclude(subject, all, verdicts) {
        Ok(true) => DONE,
        Ok(false) => IDLE,
        Err(_) => OUT_OF_MEMORY,
    }
}

/// Casts a vote of its own, by the caller's verdict on it. One that doesn't attest isn't written,
/// and is given to be signed again once a time is over.
pub fn cast(it: &mut CValidator, vote: &FlatVote, attests: bool) -> u8
    requires { IsVerifiedBy (validator_keys it.old) vote.now attests }
    ensures casts { CastsOwn it.old result it.new vote.now attests }
    ensures same { SameNode it.old.voter.node it.new.voter.node }
{
    let Some(typed) = vote.vote() else {
        return MALFORMED;
    };
    if !is_verified(&typed, attests, it.participants()) {
        refuse(it, &typed);
        return NOT_VERIFIED;
    }
    cast_verified(it, typed)
}

fn refuse(it: &mut CValidator, vote: &Vote<Signature, Sha256Digest>)
    ensures refuses { RunMeets (validator_config it.old) it.old it.new
        (refused (subject_of vote.now)) }
    ensures unwritten { it.new.voter ≡ it.old.voter }
    ensures same { SameNode it.old.voter.node it.new.voter.node }
{
    it.refuse(&vote.subject());
}

fn cast_verified(it: &mut CValidator, vote: Vote<Signature, Sha256Digest>) -> u8
    requires { (validator_config it.old).meaning.attests (subject_of vote) (attestation_of vote)
        ≡ true }
    ensures casts { VoteCast it.old result it.new vote }
    ensures same { SameNode it.old.voter.node it.new.voter.node }
{
    let answer = it.cast(vote);
    cast_code_of(answer)
}

// What a vote of its own is answered that attests.
fn cast_code_of(
    answer: Result<Cast<Signature, Sha256Digest>, CastFault<Signature, Sha256Digest>>,
) -> u8
    ensures { CastCode answer result }
{
    match answer {
        Ok(Cast::ToSend(_)) => DONE,
        Ok(Cast::Known) => KNOWN,
        Ok(Cast::Outside) => ELSEWHERE,
        Err(CastFault::OutOfMemory) => OUT_OF_MEMORY,
        Err(CastFault::Full) => FULL,
        Err(CastFault::NotOwn) => NOT_OWN,
        Err(CastFault::Signed(_)) => SIGNED,
        Err(CastFault::Refused(_)) => REFUSED,
        Err(CastFault::Closed) => CLOSED,
        Err(CastFault::Excluded(fault)) => fault_code(fault),
    }
}

/// The bytes to sign for a subject, in the namespace of its journal's owner.
pub fn message(
    it: &CValidator,
    kind: u8,
    proposal: &FlatProposal,
    room: &mut [u8],
    count: &mut u64,
) -> u8
    ensures { GivesMessage (validator_namespace it.now) result kind proposal.now room.old room.new
        count.old count.new }
{
    message_in(
        it.voter().journal().namespace(),
        kind,
        proposal,
        room,
        count,
    )
}

/// The bytes to sign for a subject, in a namespace.
pub fn message_in(
    namespace: &[u8],
    kind: u8,
    proposal: &FlatProposal,
    room: &mut [u8],
    count: &mut u64,
) -> u8
    ensures { GivesMessage namespace.now result kind proposal.now room.old room.new count.old
        count.new }
{
    match subject_of(kind, proposal) {
        Some(subject) => write_message(namespace, &subject, room, count),
        None => MALFORMED,
    }
}

/// Enters a view with its leader, who has to take part.
pub fn enter(it: &mut CValidator, view: u64, leader: u32) -> u8
    ensures enters { Enters it.old result it.new view leader }
    ensures same { SameNode it.old.voter.node it.new.voter.node }
{
    if leader as usize >= it.participants() {
        return UNKNOWN;
    }
    enter_with(it, view, leader)
}

fn enter_with(it: &mut CValidator, view: u64, leader: u32) -> u8
    ensures enters { EntersWith it.old result it.new view leader }
    ensures same { SameNode it.old.voter.node it.new.voter.node }
{
    enter_code_of(it.enter(View(view), Participant(leader)))
}

/// The proposal is valid, as one of its own is, or it isn't, and its view is given up.
pub fn judge(it: &mut CValidator, proposal: &FlatProposal, valid: bool) -> u8
    ensures judges { Judges it.old result it.new proposal.now valid }
    ensures same { SameNode it.old.voter.node it.new.voter.node }
{
    it.judge(&proposal.proposal(), valid);
    DONE
}

/// The time of a view is over. A part of what was sent is given again. How far the view is says
/// why.
pub fn expire(it: &mut CValidator, view: u64, out: &mut FlatProgress) -> u8
    ensures expires { Expires it.old result it.new view }
    ensures progress { AsksProgress it.old view out.new }
    ensures same { SameNode it.old.voter.node it.new.voter.node }
{
    *out = progress(it, view);
    it.expire(View(view));
    it.send_again();
    DONE
}

/// How far a view is.
pub fn ask_progress(it: &CValidator, view: u64, out: &mut FlatProgress) -> u8
    ensures code { result ≡ DONE }
    ensures progress { AsksProgress it.now view out.new }
{
    *out = progress(it, view);
    DONE
}

/// Which view it is in, and which one is final.
pub fn views(it: &CValidator, current: &mut u64, last: &mut u64) -> u8
    ensures { AsksViews it.now result current.new last.new }
{
    let window = it.voter().node().window();
    *current = window.current;
    *last = window.finalized;
    DONE
}

/// The proposal of the certificate of this kind and of the round of the proposal, if one is kept.
/// That shows no vote, so it doesn't wait for the disk.
pub fn certified(it: &CValidator, kind: u8, proposal: &mut FlatProposal) -> u8
    ensures { AsksCertified it.now result kind proposal.old proposal.new }
{
    let Some(typed) = kind_of(kind) else {
        return MALFORMED;
    };
    match it.certificate(typed, proposal.round()) {
        Some(certificate) => {
            let (_, whole) = flat_subject(&certificate.subject());
            *proposal = whole;
            DONE
        }
        None => IDLE,
    }
}

/// The certificate of this kind and of the round of the proposal, if one is kept. It may have an
/// own vote, so it waits until all is written.
pub fn kept(
    it: &CValidator,
    kind: u8,
    proposal: &mut FlatProposal,
    room: &mut [u8],
    count: &mut u64,
) -> u8
    ensures { AsksKept it.now result kind proposal.old proposal.new room.old room.new count.old
        count.new }
{
    let Some(typed) = kind_of(kind) else {
        return MALFORMED;
    };
    if !it.is_written() {
        return NOT_WRITTEN;
    }
    write_kept(it, typed, kind, proposal, room, count)
}

fn write_kept(
    it: &CValidator,
    typed: Kind,
    kind: u8,
    proposal: &mut FlatProposal,
    room: &mut [u8],
    count: &mut u64,
) -> u8
    requires { kind_in kind ≡ Some typed }
    ensures { ShowsKept it.now result typed kind proposal.old proposal.new room.old room.new
        count.old count.new }
{
    match it.certificate(typed, proposal.round()) {
        Some(certificate) => {
            let code = write_all(certificate.content().bytes(), room, count);
            if code == DONE {
                let (_, whole) = flat_subject(&certificate.subject());
                *proposal = whole;
            }
            code
        }
        None => IDLE,
    }
}
