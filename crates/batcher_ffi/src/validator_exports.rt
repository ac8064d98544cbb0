//! The functions of a validator that C calls. Each answers a code of the header.

ghost use Rattle.std.specs.Prelude.{◌≡◌, ⊤, None};
ghost use Rattle.batcher_ffi.specs.Disks.{AreVerifiedAt, ListsDisk, MakesValidator};
ghost use Rattle.batcher_ffi.specs.Forwarding.{AsksLacking};
ghost use Rattle.batcher_ffi.specs.Handles.{OnEntering, OnJudged, OnValidator};
ghost use Rattle.batcher_ffi.specs.Judging.{AreTrueFor, AreVerifiedFor, IsVerifiedFor, LendsNext};
ghost use Rattle.batcher_ffi.specs.Judging.{TakesVerdicts, output};
ghost use Rattle.batcher_ffi.specs.Validators.{AsksCertified};
ghost use Rattle.batcher_ffi.specs.Validators.{AsksKept, AsksListing, AsksOwed, AsksViews};
ghost use Rattle.batcher_ffi.specs.Validators.{AsksWanted, CastsOwn, Enters, Expires};
ghost use Rattle.batcher_ffi.specs.Validators.{Gave, GivesMessage, HearsCertificate, HearsVote};
ghost use Rattle.batcher_ffi.specs.Validators.{Judges, Polls, Wrote};
ghost use Rattle.batcher_ffi.specs.Validators.{hears_code, validator_namespace};
ghost use Rattle.batcher_ffi.specs.Progress.{AsksProgress};

use crate::codes::{DONE, NONE, OUT_OF_MEMORY};
use crate::flat::{FlatAdmission, FlatAttestation, FlatProposal, FlatStep, FlatVote};
use crate::handle::ValidatorHandle;
use crate::judging::{self, JudgedValidator};
use crate::progress::FlatProgress;
use crate::starting::ValidatorOptions;
use crate::tasks::FlatTask;
use crate::{disks, forwarding, validators};
use std::alloc::Global;

/// The votes that the disk of a validator shows: its own, and those that its certificates list.
/// Each is to be verified before one is made that goes on by it.
#[unsafe(no_mangle)]
pub extern "C" fn batcher_validator_disk(
    alloc: Global,
    options: &ValidatorOptions,
    namespace_bytes: &[u8],
    disk: &[u8],
    list: &mut [FlatVote],
    count: &mut u64,
) -> u8
    ensures { ListsDisk options.now namespace_bytes.now disk.now result list.old list.new count.old
        count.new }
{
    disks::list_disk(alloc, options, namespace_bytes, disk, list, count)
}

/// Makes a validator that begins, or that goes on by what its disk has, with a verdict on each vote
/// that this shows. The handle's earlier one is freed.
#[unsafe(no_mangle)]
pub extern "C" fn batcher_validator_start(
    validator: &mut ValidatorHandle,
    alloc: Global,
    options: &ValidatorOptions,
    namespace_bytes: &[u8],
    disk: &[u8],
    verdicts: &[bool],
) -> u8
    requires { AreVerifiedAt options.now namespace_bytes.now disk.now verdicts.now }
    ensures { MakesValidator options.now namespace_bytes.now disk.now validator.old.value
        validator.new.value result verdicts.now }
{
    match disks::started_by(alloc, options, namespace_bytes, disk, verdicts) {
        Ok(made) => match Box::new(alloc, JudgedValidator::new(alloc, made)) {
            Ok(made) => {
                validator.put(made);
                DONE
            }
            Err(_) => OUT_OF_MEMORY,
        },
        Err(code) => code,
    }
}

/// Frees the validator, if there is one, and leaves the handle empty.
#[unsafe(no_mangle)]
pub extern "C" fn batcher_validator_free(validator: &mut ValidatorHandle, alloc: Global)
    ensures { validator.new.value ≡ None }
{
    drop(validator.take(alloc));
}

/// What is to be done next, or that something is to be written before, or that nothing is until
/// something comes.
#[unsafe(no_mangle)]
pub extern "C" fn batcher_validator_poll(validator: &mut ValidatorHandle, out: &mut FlatTask) -> u8
    ensures { OnValidator validator.old.value validator.new.value result (out.new ≡ out.old)
        (λ before after. Polls before result after out.old out.new) }
{
    let Some(it) = validator.as_mut() else {
        return NONE;
    };
    validators::poll(&mut it.validator, out)
}

/// What is to be written to the disk: behind what is there, or in its place. Where it fits into the
/// room, it is handed out and under way from now on, by this number.
#[unsafe(no_mangle)]
pub extern "C" fn batcher_validator_give(
    validator: &mut ValidatorHandle,
    number: u64,
    room: &mut [u8],
    count: &mut u64,
    replaces: &mut bool,
) -> u8
    ensures { OnValidator validator.old.value validator.new.value result ((room.new ≡ room.old)
        × ((count.new ≡ count.old) × (replaces.new ≡ replaces.old))) (λ before after.
        Gave before result after number × AsksOwed before result room.old room.new count.old
        count.new replaces.old replaces.new) }
{
    let Some(it) = validator.as_mut() else {
        return NONE;
    };
    validators::give(&mut it.validator, number, room, count, replaces)
}

/// The write that is under way by this number is done, and lasts.
#[unsafe(no_mangle)]
pub extern "C" fn batcher_validator_wrote(validator: &mut ValidatorHandle, number: u64) -> u8
    ensures { OnValidator validator.old.value validator.new.value result (Unit {0}) (λ before after.
        Wrote before result after number) }
{
    let Some(it) = validator.as_mut() else {
        return NONE;
    };
    validators::wrote(&mut it.validator, number)
}

/// Takes in a vote that was sent by the peer with this key.
#[unsafe(no_mangle)]
pub extern "C" fn batcher_validator_vote(
    validator: &mut ValidatorHandle,
    peer: u64,
    vote: &FlatVote,
    out: &mut FlatAdmission,
) -> u8
    ensures { OnValidator validator.old.value validator.new.value result (out.new ≡ out.old)
        (λ before after. HearsVote before result after peer vote.now out.old out.new) }
{
    let Some(it) = validator.as_mut() else {
        return NONE;
    };
    validators::receive_vote(&mut it.validator, peer, vote, out)
}

/// Takes in a certificate that was sent by the peer with this key, with a verdict on each of the
/// attestations that its bytes list. One from beyond the window is taken in too: by it a validator
/// that fell behind goes on.
#[unsafe(no_mangle)]
pub extern "C" fn batcher_validator_certificate(
    validator: &mut ValidatorHandle,
    alloc: Global,
    peer: u64,
    kind: u8,
    proposal: &FlatProposal,
    bytes: &[u8],
    verdicts: &[bool],
) -> u8
    requires { AreVerifiedFor validator.old.value kind proposal.now bytes.now verdicts.now }
    ensures { OnValidator validator.old.value validator.new.value result (Unit {0}) (λ before after.
        HearsCertificate before result after peer kind proposal.now bytes.now verdicts.now) }
{
    let Some(it) = validator.as_mut() else {
        return NONE;
    };
    validators::receive_certificate(
        &mut it.validator,
        alloc,
        peer,
        kind,
        proposal,
        bytes,
        verdicts,
    )
}

/// The attestations that the bytes of a certificate list, on which verdicts are wanted.
#[unsafe(no_mangle)]
pub extern "C" fn batcher_validator_listed(
    validator: &mut ValidatorHandle,
    alloc: Global,
    bytes: &[u8],
    list: &mut [FlatAttestation],
    count: &mut u64,
) -> u8
    ensures { OnValidator validator.old.value validator.new.value result ((list.new ≡ list.old)
        × (count.new ≡ count.old)) (λ before after. (after ≡ before)
        × AsksListing before result bytes.now list.old list.new count.old count.new) }
{
    let Some(it) = validator.as_mut() else {
        return NONE;
    };
    validators::listed(&it.validator, alloc, bytes, list, count)
}

/// Whether a certificate of this kind, and of the round of the proposal, is looked at that is sent
/// by the peer with this key. Else it needn't be verified.
#[unsafe(no_mangle)]
pub extern "C" fn batcher_validator_wants(
    validator: &mut ValidatorHandle,
    peer: u64,
    kind: u8,
    proposal: &FlatProposal,
) -> u8
    ensures { OnValidator validator.old.value validator.new.value result ⊤ (λ before after.
        (after ≡ before) × AsksWanted before result peer kind proposal.now) }
{
    let Some(it) = validator.as_mut() else {
        return NONE;
    };
    validators::wants(&it.validator, peer, kind, proposal)
}

/// Hands out attestations that are to be verified, each once, with what they are to attest and a
/// stamp that nothing else has. Where the verdicts on all that the next construction looks at are
/// there, that is made, and where no kind is ready, its view rests.
#[unsafe(no_mangle)]
pub extern "C" fn batcher_validator_lend(
    validator: &mut ValidatorHandle,
    out: &mut FlatStep,
    stamp: &mut u64,
    list: &mut [FlatAttestation],
) -> u8
    ensures { OnJudged validator.old.value validator.new.value result
        (output out.new stamp.new list.new ≡ output out.old stamp.old list.old) (λ before after.
        LendsNext before result after (output out.old stamp.old list.old)
        (output out.new stamp.new list.new)) }
{
    let Some(it) = validator.as_mut() else {
        return NONE;
    };
    judging::lend(it, out, stamp, list)
}

/// Takes in verdicts on what was handed out last of a kind of a view, by its stamp, and makes the
/// next construction, where they complete what that wants.
#[unsafe(no_mangle)]
pub extern "C" fn batcher_validator_conclude(
    validator: &mut ValidatorHandle,
    view: u64,
    kind: u8,
    stamp: u64,
    verdicts: &[bool],
) -> u8
    requires { AreTrueFor validator.old.value view kind stamp verdicts.now }
    ensures { OnJudged validator.old.value validator.new.value result (Unit {0}) (λ before after.
        TakesVerdicts before result after view kind stamp verdicts.now) }
{
    let Some(it) = validator.as_mut() else {
        return NONE;
    };
    judging::conclude(it, view, kind, stamp, verdicts)
}

/// The bytes to sign for a subject in a namespace, and to verify a signature on it. No other
/// subject has the same ones, and none in another namespace.
#[unsafe(no_mangle)]
pub extern "C" fn batcher_message(
    namespace_bytes: &[u8],
    kind: u8,
    proposal: &FlatProposal,
    room: &mut [u8],
    count: &mut u64,
) -> u8
    ensures { GivesMessage namespace_bytes.now result kind proposal.now room.old room.new count.old
        count.new }
{
    validators::message_in(namespace_bytes, kind, proposal, room, count)
}

/// The same in the namespace of the validator.
#[unsafe(no_mangle)]
pub extern "C" fn batcher_validator_message(
    validator: &mut ValidatorHandle,
    kind: u8,
    proposal: &FlatProposal,
    room: &mut [u8],
    count: &mut u64,
) -> u8
    ensures { OnValidator validator.old.value validator.new.value result ((room.new ≡ room.old)
        × (count.new ≡ count.old)) (λ before after. (after ≡ before) × GivesMessage
        (validator_namespace before) result kind proposal.now room.old room.new count.old
        count.new) }
{
    let Some(it) = validator.as_mut() else {
        return NONE;
    };
    validators::message(&it.validator, kind, proposal, room, count)
}

/// Casts a vote of its own, by the caller's verdict on it: one that was to be signed, or to be cast
/// again. One that doesn't attest isn't written, and is to be signed again once a time is over.
#[unsafe(no_mangle)]
pub extern "C" fn batcher_validator_cast(
    validator: &mut ValidatorHandle,
    vote: &FlatVote,
    attests: bool,
) -> u8
    requires { IsVerifiedFor validator.old.value vote.now attests }
    ensures { OnValidator validator.old.value validator.new.value result (Unit {0}) (λ before after.
        CastsOwn before result after vote.now attests) }
{
    let Some(it) = validator.as_mut() else {
        return NONE;
    };
    validators::cast(&mut it.validator, vote, attests)
}

/// Enters a view with its leader. What was handed out of views in which
/// nothing is due is dropped.
#[unsafe(no_mangle)]
pub extern "C" fn batcher_validator_enter(
    validator: &mut ValidatorHandle,
    view: u64,
    leader: u32,
) -> u8
    ensures { OnEntering validator.old.value validator.new.value result (λ before after.
        Enters before result after view leader) }
{
    let Some(it) = validator.as_mut() else {
        return NONE;
    };
    judging::enter(it, view, leader)
}

/// A proposal is valid, or it isn't, and its view is given up. One of its own is valid.
#[unsafe(no_mangle)]
pub extern "C" fn batcher_validator_judge(
    validator: &mut ValidatorHandle,
    proposal: &FlatProposal,
    valid: bool,
) -> u8
    ensures { OnValidator validator.old.value validator.new.value result (Unit {0}) (λ before after.
        Judges before result after proposal.now valid) }
{
    let Some(it) = validator.as_mut() else {
        return NONE;
    };
    validators::judge(&mut it.validator, proposal, valid)
}

/// The time of a view is over, now or again: it is given up, unless its proposal is notarized. All
/// that is to be sent is given again. How far the view is says why its time is over.
#[unsafe(no_mangle)]
pub extern "C" fn batcher_validator_expire(
    validator: &mut ValidatorHandle,
    view: u64,
    out: &mut FlatProgress,
) -> u8
    ensures { OnValidator validator.old.value validator.new.value result (out.new ≡ out.old)
        (λ before after. Expires before result after view × AsksProgress before view out.new) }
{
    let Some(it) = validator.as_mut() else {
        return NONE;
    };
    validators::expire(&mut it.validator, view, out)
}

/// How far a view is, and so why it hangs.
#[unsafe(no_mangle)]
pub extern "C" fn batcher_validator_progress(
    validator: &mut ValidatorHandle,
    view: u64,
    out: &mut FlatProgress,
) -> u8
    ensures { OnValidator validator.old.value validator.new.value result (out.new ≡ out.old)
        (λ before after. (after ≡ before)
        × ((result ≡ DONE) × AsksProgress before view out.new)) }
{
    let Some(it) = validator.as_mut() else {
        return NONE;
    };
    validators::ask_progress(&it.validator, view, out)
}

/// Which view it is in, and the highest that is final.
#[unsafe(no_mangle)]
pub extern "C" fn batcher_validator_views(
    validator: &mut ValidatorHandle,
    current: &mut u64,
    last: &mut u64,
) -> u8
    ensures { OnValidator validator.old.value validator.new.value result
        ((current.new ≡ current.old) × (last.new ≡ last.old))
        (λ before after. (after ≡ before) × AsksViews before result current.new last.new) }
{
    let Some(it) = validator.as_mut() else {
        return NONE;
    };
    validators::views(&it.validator, current, last)
}

/// Whether what is sent by the peer with this key is looked at, so that a certificate of another
/// one needn't be verified.
#[unsafe(no_mangle)]
pub extern "C" fn batcher_validator_hears(validator: &mut ValidatorHandle, peer: u64) -> u8
    ensures { OnValidator validator.old.value validator.new.value result ⊤
        (λ before after. (after ≡ before) × (result ≡ hears_code before peer)) }
{
    let Some(it) = validator.as_mut() else {
        return NONE;
    };
    validators::hears(&it.validator, peer)
}

/// The proposal of the certificate of this kind and of the round of the proposal, if one is kept.
#[unsafe(no_mangle)]
pub extern "C" fn batcher_validator_certified(
    validator: &mut ValidatorHandle,
    kind: u8,
    proposal: &mut FlatProposal,
) -> u8
    ensures { OnValidator validator.old.value validator.new.value result
        (proposal.new ≡ proposal.old) (λ before after. (after ≡ before)
        × AsksCertified before result kind proposal.old proposal.new) }
{
    let Some(it) = validator.as_mut() else {
        return NONE;
    };
    validators::certified(&it.validator, kind, proposal)
}

/// The certificate of this kind and of the round of the proposal, if one is kept: its bytes, and
/// the whole proposal.
#[unsafe(no_mangle)]
pub extern "C" fn batcher_validator_kept(
    validator: &mut ValidatorHandle,
    kind: u8,
    proposal: &mut FlatProposal,
    room: &mut [u8],
    count: &mut u64,
) -> u8
    ensures { OnValidator validator.old.value validator.new.value result
        ((proposal.new ≡ proposal.old)
        × ((room.new ≡ room.old) × (count.new ≡ count.old))) (λ before after. (after ≡ before)
        × AsksKept before result kind proposal.old proposal.new room.old room.new count.old
        count.new) }
{
    let Some(it) = validator.as_mut() else {
        return NONE;
    };
    validators::kept(&it.validator, kind, proposal, room, count)
}

/// Who isn't known to have the payload of the proposal that is notarized in the round of this one:
/// neither a vote that came shows it, nor the notarization.
#[unsafe(no_mangle)]
pub extern "C" fn batcher_validator_lacking(
    validator: &mut ValidatorHandle,
    alloc: Global,
    proposal: &FlatProposal,
    list: &mut [u32],
    count: &mut u64,
) -> u8
    ensures { OnValidator validator.old.value validator.new.value result ((list.new ≡ list.old)
        × (count.new ≡ count.old)) (λ before after. (after ≡ before)
        × AsksLacking before result proposal.now list.old list.new count.old count.new) }
{
    let Some(it) = validator.as_mut() else {
        return NONE;
    };
    forwarding::lacking(&it.validator, alloc, proposal, list, count)
}
