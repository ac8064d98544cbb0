//! The calls of two files that take turns, over flat values. Each answers a code.

ghost use Rattle.std.specs.Prelude.{◌≡◌, Err, IfErr, IfOk};
ghost use Rattle.batcher_file.specs.Disks.{IsBlank};
ghost use Rattle.batcher_ffi.specs.Files.{Appends, AsksChange, CarriesOut, IsCreated, IsOpenedAs};
ghost use Rattle.batcher_ffi.specs.Files.{Replaces, WhyNotCreated, WhyNotOpened, change_in};
ghost use Rattle.batcher_ffi.specs.Files.{fault_code};
ghost use Rattle.batcher_ffi.specs.Output.{WritesAll};

use crate::codes::{
    BEGUN, CHANGE_BYTE, CHANGE_FRAME, CHANGE_LENGTH, DAMAGED, DONE, FULL, IDLE, NOT_BEGUN,
    OUT_OF_MEMORY, UNFINISHED,
};
use crate::writing::write_all;
use batcher_bytes::LogFault;
use batcher_file::{OpenFault, Plan, Step, TwoFiles};
use std::alloc::Global;

/// Two files, with what is to be done to them.
#[derive(Drop)]
pub struct Files {
    pub(crate) files: TwoFiles,
    pub(crate) plan: Option<Plan>,
}

/// One thing to do to a file, which is synced before anything else is done.
#[repr(C)]
#[derive(Clone, Copy)]
pub struct FlatChange {
    /// At which byte it is written, or how many bytes are left.
    pub at: u64,
    /// What it is, by `CHANGE_FRAME` and so on.
    pub change: u8,
    /// The byte that is written.
    pub byte: u8,
    /// Whether it is to be done to the file that isn't in use.
    pub in_other: bool,
}

/// What is in two files that have these bytes, and whether the second is the one in use.
pub fn opened(alloc: Global, first: &[u8], second: &[u8], turned: &mut bool) -> Result<Files, u8>
    ensures opened { IfOk result (IsOpenedAs first.now second.now turned.new) }
    ensures refused { IfErr result (WhyNotOpened first.now second.now) }
    ensures empty { result ≡ Err NOT_BEGUN → IsBlank first.now × IsBlank second.now }
    ensures blank { IsBlank first.now → IsBlank second.now → result ≡ Err NOT_BEGUN }
{
    let mut files = TwoFiles::new(alloc);
    match files.open(first, second) {
        Ok((is_turned, plan)) => {
            *turned = is_turned;
            Ok(Files {
                files,
                plan: Some(plan),
            })
        }
        Err(fault) => Err(fault_code_of(fault)),
    }
}

/// Two files that have nothing in them are to have these bytes.
pub fn created(alloc: Global, first: &[u8], second: &[u8], bytes: &[u8]) -> Result<Files, u8>
    ensures created { IfOk result (IsCreated first.now second.now bytes.now) }
    ensures refused { IfErr result (WhyNotCreated first.now second.now) }
    ensures needed { result ≡ Err OUT_OF_MEMORY → IsBlank first.now × IsBlank second.now }
{
    let mut files = TwoFiles::new(alloc);
    match files.create(first, second, bytes) {
        Ok(plan) => Ok(Files {
            files,
            plan: Some(plan),
        }),
        Err(fault) => Err(fault_code_of(fault)),
    }
}

fn fault_code_of(fault: OpenFault) -> u8
    ensures { result ≡ fault_code fault }
{
    match fault {
        OpenFault::OutOfMemory => OUT_OF_MEMORY,
        OpenFault::Empty => NOT_BEGUN,
        OpenFault::Taken => BEGUN,
        OpenFault::Failed | OpenFault::Apart | OpenFault::TooLong => DAMAGED,
        OpenFault::Damaged { .. } => DAMAGED,
    }
}

/// These bytes are to be behind the others.
pub fn append(it: &mut Files, bytes: &[u8]) -> u8
    ensures { Appends it.old result it.new bytes.now }
{
    if it.plan.is_some() {
        return UNFINISHED;
    }
    match it.files.append(bytes) {
        Ok(plan) => {
            it.plan = Some(plan);
            DONE
        }
        Err(LogFault::OutOfMemory) => OUT_OF_MEMORY,
        Err(LogFault::Full | LogFault::Failed) => FULL,
    }
}

/// These bytes are to be in the place of all others.
pub fn replace(it: &mut Files, bytes: &[u8]) -> u8
    ensures { Replaces it.old result it.new bytes.now }
{
    if it.plan.is_some() {
        return UNFINISHED;
    }
    match it.files.replace(bytes) {
        Ok(plan) => {
            it.plan = Some(plan);
            DONE
        }
        Err(LogFault::OutOfMemory) => OUT_OF_MEMORY,
        Err(LogFault::Full | LogFault::Failed) => FULL,
    }
}

/// The change of this number, from 0 on.
pub fn change(it: &Files, number: u64, out: &mut FlatChange) -> u8
    ensures { AsksChange it.now result number out.old out.new }
{
    let Some(plan) = it.plan else {
        return IDLE;
    };
    match plan.step(number as usize) {
        Some((in_other, step)) => {
            *out = flat_change(in_other, step);
            DONE
        }
        None => IDLE,
    }
}

fn flat_change(in_other: bool, step: Step) -> FlatChange
    ensures { change_in result ≡ Some (in_other, step) }
{
    match step {
        Step::Frame(at) => FlatChange {
            at: at as u64,
            change: CHANGE_FRAME,
            byte: 0,
            in_other,
        },
        Step::Byte(at, byte) => FlatChange {
            at: at as u64,
            change: CHANGE_BYTE,
            byte,
            in_other,
        },
        Step::SetLen(length) => FlatChange {
            at: length as u64,
            change: CHANGE_LENGTH,
            byte: 0,
            in_other,
        },
    }
}

/// All changes are done.
pub fn carried_out(it: &mut Files) -> u8
    ensures { CarriesOut it.old result it.new }
{
    match it.plan {
        Some(plan) => {
            it.files.carried_out(plan);
            it.plan = None;
            DONE
        }
        None => IDLE,
    }
}

/// The bytes of the frame that the changes write.
pub fn frame(it: &Files, room: &mut [u8], count: &mut u64) -> u8
    ensures { WritesAll it.now.files.frame.items room.old room.new count.new result }
{
    write_all(it.files.frame(), room, count)
}

/// The bytes that are there once the changes are done.
pub fn bytes(it: &Files, room: &mut [u8], count: &mut u64) -> u8
    ensures { WritesAll it.now.files.bytes.items room.old room.new count.new result }
{
    write_all(it.files.bytes(), room, count)
}
