//! A validator is made, which begins, or goes on by what its disk has.

ghost use Rattle.std.specs.Prelude.{◌≡◌, ◌≢◌, ◌≤◌, [], Err, IfErr, IfOk, MatchBool, None, length};
ghost use Rattle.std.specs.Prelude.{false, true};
ghost use Rattle.batcher_bytes.specs.declared.fault.DecodeFault.TheVariants.{Version};
ghost use Rattle.batcher_journal.specs.Text.{fields_of, owner_format};
ghost use Rattle.batcher_ffi.specs.Validators.{AreDamaged, AreWithin, GoesOnFrom, IsMade, IsOf};
ghost use Rattle.batcher_ffi.specs.Validators.{IsOthers, WhyNotMade, start_code, start_codes};
ghost use Rattle.batcher_ffi.specs.Validators.{validator_disk, validator_writing};
ghost use Rattle.batcher_ffi.specs.Rounds.{is_one_of};

use crate::caller::Caller;
use crate::codes::{
    BEGUN, DAMAGED, MALFORMED, NOT_BEGUN, OTHER_OWNER, OTHER_VERSION, OUT_OF_MEMORY,
};
use crate::validators::CValidator;
use crate::writing::copied;
use batcher_bytes::{Keys, Signed, WIDTH};
use batcher_journal::{OpenFault, Owner};
use batcher_types::positions::{Epoch, Participant};
use batcher_types::scheme::names;
use batcher_validator::{DiskFault, Validator};
use batcher_voter::StartFault;
use std::alloc::Global;
use std::rc::Rc;

/// How many participants there may be.
pub const MOST_PARTICIPANTS: u32 = 65_535;
/// How many views beyond the current one may be of the window. A faulty participant can have a
/// validator keep something of each.
pub const MOST_AHEAD: u64 = 1_024;

/// What a validator is made of.
#[repr(C)]
#[derive(Clone, Copy)]
pub struct ValidatorOptions {
    pub epoch: u64,
    /// How many views beyond the current one are of its window, `MOST_AHEAD` at most.
    pub ahead: u64,
    /// How many participants there are, whose names are 0, 1, .. in this order, and
    /// `MOST_PARTICIPANTS` at most.
    pub participants: u32,
    /// Which of them it is.
    pub participant: u32,
    /// Bytes that distinguish their list of keys from other lists, as its hash does.
    pub keys: [u8; 32],
    /// Whether a view keeps its votes in full to the end.
    pub track_historical_votes: bool,
    /// Whether this participant never signed anything in the epoch, so that its disk has no bytes.
    pub begins: bool,
}

/// A validator that begins, or goes on by what its disk has. Else the code says why there is none.
pub fn made(
    alloc: Global,
    options: &ValidatorOptions,
    namespace: &[u8],
    disk: &[u8],
) -> Result<CValidator, u8>
    ensures made { IfOk result (IsMade options.now namespace.now disk.now) }
    ensures refused { IfErr result (WhyNotMade options.now namespace.now disk.now) }
{
    if !are_within(options) {
        return Err(MALFORMED);
    }
    if options.begins && !disk.is_empty() {
        return Err(BEGUN);
    }
    if !options.begins && disk.is_empty() {
        return Err(NOT_BEGUN);
    }
    let Ok(names) = names(alloc, options.participants) else {
        return Err(OUT_OF_MEMORY);
    };
    let Ok(scheme) = Rc::new(alloc, Signed::new(names, Keys(options.keys))) else {
        return Err(OUT_OF_MEMORY);
    };
    let keys = options.keys;
    let owner = Owner {
        namespace,
        keys: &keys,
        participant: Participant(options.participant),
        digest_len: 32,
        signature_len: WIDTH as u32,
    };
    if options.begins {
        return begun(alloc, scheme, options, &owner);
    }
    started(alloc, scheme, options, &owner, disk)
}

// Whether it takes part, and there aren't too many participants or views ahead.
fn are_within(options: &ValidatorOptions) -> bool
    ensures { MatchBool result (AreWithin options.now) (AreWithin options.now → ⊥) }
{
    options.participant < options.participants
        && options.participants <= MOST_PARTICIPANTS
        && options.ahead <= MOST_AHEAD
}

fn begun(
    alloc: Global,
    scheme: Rc<Signed<Caller, true>>,
    options: &ValidatorOptions,
    owner: &Owner,
) -> Result<CValidator, u8>
    requires { 1 ≤ length scheme.value.participants }
    ensures is_of { IfOk result (IsOf options.now scheme.value (fields_of owner.now)) }
    ensures goes_on { IfOk result (GoesOnFrom true []) }
    ensures on_disk { IfOk result (λ it. (validator_disk it ≡ []) × (validator_writing it ≡ None)) }
    ensures refused { IfErr result (λ code. code ≡ OUT_OF_MEMORY) }
{
    match Validator::begin(
        alloc,
        scheme,
        options.ahead,
        options.track_historical_votes,
        owner,
        Epoch(options.epoch),
    ) {
        Ok(it) => Ok(it),
        // Its journal is its own, and in memory.
        Err(_) => Err(OUT_OF_MEMORY),
    }
}

fn started(
    alloc: Global,
    scheme: Rc<Signed<Caller, true>>,
    options: &ValidatorOptions,
    owner: &Owner,
    disk: &[u8],
) -> Result<CValidator, u8>
    requires { 1 ≤ length scheme.value.participants }
    ensures is_of { IfOk result (IsOf options.now scheme.value (fields_of owner.now)) }
    ensures goes_on { IfOk result (GoesOnFrom false disk.now) }
    ensures on_disk { IfOk result (λ it.
        (validator_disk it ≡ disk.now) × (validator_writing it ≡ None)) }
    ensures refused { IfErr result (λ code. is_one_of start_codes code ≡ true) }
    ensures not_begun { IfErr result (λ code. code ≡ NOT_BEGUN → disk.now ≡ []) }
    ensures others { IfErr result (λ code. code ≡ OTHER_OWNER
        → IsOthers options.now (fields_of owner.now) disk.now) }
    ensures other_version { IfErr result (λ code. code ≡ OTHER_VERSION
        → owner_format.decoding disk.now ≡ Err Version) }
    ensures damaged { IfErr result (λ code. code ≡ DAMAGED
        → AreDamaged (fields_of owner.now) disk.now) }
{
    let Ok(bytes) = copied(alloc, disk) else {
        return Err(OUT_OF_MEMORY);
    };
    match Validator::restart(
        alloc,
        scheme,
        options.ahead,
        options.track_historical_votes,
        owner,
        bytes,
    ) {
        Ok(it) => {
            if is_of_epoch(&it, Epoch(options.epoch)) {
                return Ok(it);
            }
            drop(it);
            Err(OTHER_OWNER)
        }
        Err(fault) => Err(start_code_of(fault)),
    }
}

fn is_of_epoch(it: &CValidator, epoch: Epoch) -> bool
    ensures { MatchBool result (it.now.voter.node.epoch ≡ epoch)
        (it.now.voter.node.epoch ≢ epoch) }
{
    it.voter().epoch() == epoch
}

fn start_code_of(fault: DiskFault) -> u8
    ensures code { result ≡ start_code fault }
    ensures codes { is_one_of start_codes result ≡ true }
{
    match fault {
        DiskFault::OutOfMemory => OUT_OF_MEMORY,
        DiskFault::NotOpened(OpenFault::OutOfMemory) => OUT_OF_MEMORY,
        DiskFault::NotOpened(OpenFault::NotBegun) => NOT_BEGUN,
        DiskFault::NotOpened(OpenFault::OtherVersion) => OTHER_VERSION,
        DiskFault::NotOpened(
            OpenFault::OtherLengths
            | OpenFault::OtherParticipant
            | OpenFault::OtherKeys
            | OpenFault::OtherNamespace,
        ) => OTHER_OWNER,
        DiskFault::NotOpened(OpenFault::Malformed | OpenFault::Contradiction) => DAMAGED,
        DiskFault::NotStarted(StartFault::OutOfMemory) => OUT_OF_MEMORY,
        DiskFault::NotStarted(StartFault::NotFinal | StartFault::Malformed | StartFault::Forged) =>
            DAMAGED,
    }
}
