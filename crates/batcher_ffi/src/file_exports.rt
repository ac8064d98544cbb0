//! The functions of two files that take turns. Each answers a code of the header.

ghost use Rattle.std.specs.Prelude.{◌≡◌, ⊤, None};
ghost use Rattle.batcher_ffi.specs.Files.{Appends, AsksChange, CarriesOut, CreatesFiles};
ghost use Rattle.batcher_ffi.specs.Files.{OpensFiles, Replaces};
ghost use Rattle.batcher_ffi.specs.Handles.{OnFiles};
ghost use Rattle.batcher_ffi.specs.Output.{WritesAll};

use crate::codes::{DONE, NONE, OUT_OF_MEMORY};
use crate::files::{self, FlatChange};
use crate::handle::FilesHandle;
use std::alloc::Global;

/// What is in two files that have these bytes, and whether the second is the one in use. Then what
/// a crash left unfinished is to be cut off, as the changes say. The handle's earlier ones are
/// freed.
#[unsafe(no_mangle)]
pub extern "C" fn batcher_files_open(
    files: &mut FilesHandle,
    alloc: Global,
    first: &[u8],
    second: &[u8],
    turned: &mut bool,
) -> u8
    ensures { OpensFiles files.old.value files.new.value result first.now second.now turned.old
        turned.new }
{
    let mut second_is_used = false;
    match files::opened(alloc, first, second, &mut second_is_used) {
        Ok(made) => match Box::new(alloc, made) {
            Ok(made) => {
                *turned = second_is_used;
                files.put(made);
                DONE
            }
            Err(_) => OUT_OF_MEMORY,
        },
        Err(code) => code,
    }
}

/// Two files that have nothing in them, which are to have these bytes, as the changes say. The
/// handle's earlier ones are freed.
#[unsafe(no_mangle)]
pub extern "C" fn batcher_files_create(
    files: &mut FilesHandle,
    alloc: Global,
    first: &[u8],
    second: &[u8],
    bytes: &[u8],
) -> u8
    ensures { CreatesFiles files.old.value files.new.value result first.now second.now bytes.now }
{
    match files::created(alloc, first, second, bytes) {
        Ok(made) => match Box::new(alloc, made) {
            Ok(made) => {
                files.put(made);
                DONE
            }
            Err(_) => OUT_OF_MEMORY,
        },
        Err(code) => code,
    }
}

/// Frees what is known of the files, and leaves the handle empty.
#[unsafe(no_mangle)]
pub extern "C" fn batcher_files_free(files: &mut FilesHandle, alloc: Global)
    ensures { files.new.value ≡ None }
{
    drop(files.take(alloc));
}

/// These bytes are to be behind the others, as the changes say.
#[unsafe(no_mangle)]
pub extern "C" fn batcher_files_append(files: &mut FilesHandle, bytes: &[u8]) -> u8
    ensures { OnFiles files.old.value files.new.value result (Unit {0}) (λ before after.
        Appends before result after bytes.now) }
{
    let Some(files) = files.as_mut() else {
        return NONE;
    };
    files::append(files, bytes)
}

/// These bytes are to be in the place of all others, as the changes say. Then the other file is the
/// one in use.
#[unsafe(no_mangle)]
pub extern "C" fn batcher_files_replace(files: &mut FilesHandle, bytes: &[u8]) -> u8
    ensures { OnFiles files.old.value files.new.value result (Unit {0}) (λ before after.
        Replaces before result after bytes.now) }
{
    let Some(files) = files.as_mut() else {
        return NONE;
    };
    files::replace(files, bytes)
}

/// The change of this number that is to be done, from 0 on.
#[unsafe(no_mangle)]
pub extern "C" fn batcher_files_change(
    files: &mut FilesHandle,
    number: u64,
    out: &mut FlatChange,
) -> u8
    ensures { OnFiles files.old.value files.new.value result (out.new ≡ out.old)
        (λ before after. (after ≡ before) × AsksChange before result number out.old out.new) }
{
    let Some(files) = files.as_mut() else {
        return NONE;
    };
    files::change(files, number, out)
}

/// All changes are done, and last.
#[unsafe(no_mangle)]
pub extern "C" fn batcher_files_carried_out(files: &mut FilesHandle) -> u8
    ensures { OnFiles files.old.value files.new.value result (Unit {0}) (λ before after.
        CarriesOut before result after) }
{
    let Some(files) = files.as_mut() else {
        return NONE;
    };
    files::carried_out(files)
}

/// The bytes of the frame that the changes write.
#[unsafe(no_mangle)]
pub extern "C" fn batcher_files_frame(
    files: &mut FilesHandle,
    room: &mut [u8],
    count: &mut u64,
) -> u8
    ensures { OnFiles files.old.value files.new.value result
        ((room.new ≡ room.old) × (count.new ≡ count.old)) (λ before after. (after ≡ before)
        × WritesAll before.files.frame.items room.old room.new count.new result) }
{
    let Some(files) = files.as_mut() else {
        return NONE;
    };
    files::frame(files, room, count)
}

/// The bytes that are there once the changes are done.
#[unsafe(no_mangle)]
pub extern "C" fn batcher_files_bytes(
    files: &mut FilesHandle,
    room: &mut [u8],
    count: &mut u64,
) -> u8
    ensures { OnFiles files.old.value files.new.value result
        ((room.new ≡ room.old) × (count.new ≡ count.old)) (λ before after. (after ≡ before)
        × WritesAll before.files.bytes.items room.old room.new count.new result) }
{
    let Some(files) = files.as_mut() else {
        return NONE;
    };
    files::bytes(files, room, count)
}
