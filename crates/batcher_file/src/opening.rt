//! Opening a log that a crash may have left, and making a new one.

ghost use Rattle.std.specs.Prelude.{◌≡◌, ◌≢◌, ◌+◌, ◌≤◌, ◌<◌, ◌^◌, ◌⊎◌, Err, IfErr, IfOk, IsTrue};
ghost use Rattle.std.specs.Prelude.{List, MatchBool, OnOk, false, length, min, ℕ};
ghost use Rattle.sqlite_disk.specs.Disk.{Only};
ghost use Rattle.batcher_file.specs.Disks.{IsBlank};
ghost use Rattle.batcher_file.specs.Frames.{AreContents, IsUnread};
ghost use Rattle.batcher_file.specs.Pairs.{Hold, HoldNone, IsFound};
ghost use Rattle.batcher_file.specs.Settled.{HasFailed, AreHonestDisks, IsSynced, IsSettled};
ghost use Rattle.batcher_file.specs.Settled.{MayLeave, MayLose};
ghost use Rattle.batcher_file.specs.Refusals.{IsOfMaking, IsOfReading, IsUnopened, IsWholeBefore};
ghost use Rattle.batcher_file.specs.Refusals.{FaultShows};
ghost use Rattle.batcher_file.specs.declared.opening.OpenFault.TheVariants.{Damaged, Empty, Failed};
ghost use Rattle.batcher_file.specs.declared.opening.OpenFault.TheVariants.{OutOfMemory, Taken};
ghost use Rattle.batcher_file.specs.declared.opening.OpenFault.TheVariants.{TooLong};

use crate::contents::{Contents, Unreadable, contents_of};
use crate::files::TwoFiles;
use crate::frame::UNUSED;
use crate::log::FileLog;
use sqlite_disk::Disk;
use std::alloc::{AllocError, Global};

// No file is longer: as many bytes as a log has at most, a frame behind them, and what is around
// it.
const MOST_TO_READ: usize = 1 << 42;

/// Why a log wasn't opened.
#[derive(Clone, Copy, Debug, PartialEq, Eq)]
pub enum OpenFault {
    OutOfMemory,
    /// The disk failed.
    Failed,
    /// No log is here: neither file has anything in it.
    Empty,
    /// A log is here, where a new one was to be made.
    Taken,
    /// A file has other bytes than were written. The frames before this byte are whole.
    Damaged { in_second: bool, at: usize },
    /// Each file is whole, but they don't belong together.
    Apart,
    /// A file is longer than any that was written.
    TooLong,
}

impl From<AllocError> for OpenFault {
    ghost from_gives = { λ _ e. e ≡ OutOfMemory };

    fn from(_: AllocError) -> Self {
        OpenFault::OutOfMemory
    }
}

/// Whether nothing is in a file.
pub fn is_blank(file: &[u8]) -> bool
    ensures { MatchBool result (IsBlank file.now) (IsBlank file.now → ⊥) }
{
    match file {
        [] | [_] => true,
        [UNUSED, ..] => true,
        [_, ..] => false,
    }
}

// What is in one of the files.
fn side(alloc: Global, file: &[u8], in_second: bool) -> Result<Contents, OpenFault>
    ensures found { IfOk result (λ it.
        AreContents file.now it.first it.next it.end it.bytes.items) }
    ensures refused { IfErr result (FaultShows (IsUnread file.now)) }
    ensures damage { IfErr result (IsWholeBefore file.now file.now) }
    ensures side { (second : _) (at : ℕ) → result ≡ Err (Damaged second at) → second ≡ in_second }
    ensures some { result ≢ Err Empty }
{
    match contents_of(alloc, file) {
        Ok(contents) => Ok(contents),
        Err(Unreadable::OutOfMemory) => Err(OpenFault::OutOfMemory),
        Err(Unreadable::Damaged(at)) => Err(OpenFault::Damaged { in_second, at }),
    }
}

/// What is in both, and whether the second is the one in use.
pub fn in_use(alloc: Global, a: &[u8], b: &[u8]) -> Result<(Contents, bool), OpenFault>
    ensures found { IfOk result (λ it. IsFound a.now b.now it.1 it.0.first it.0.next it.0.end
        it.0.bytes.items) }
    ensures refused { IfErr result (FaultShows (HoldNone a.now b.now)) }
    ensures damage { IfErr result (IsWholeBefore a.now b.now) }
    ensures empty { result ≡ Err Empty → IsBlank a.now × IsBlank b.now }
    ensures blank { IsBlank a.now → IsBlank b.now → result ≡ Err Empty }
{
    if is_blank(a) {
        if is_blank(b) {
            return Err(OpenFault::Empty);
        }
        return match side(alloc, b, true) {
            Ok(second) => Ok((second, true)),
            Err(fault) => Err(fault),
        };
    }
    let first = match side(alloc, a, false) {
        Ok(first) => first,
        Err(fault) => return Err(fault),
    };
    if is_blank(b) {
        return Ok((first, false));
    }
    let second = match side(alloc, b, true) {
        Ok(second) => second,
        Err(fault) => return Err(fault),
    };
    if first.next == second.first {
        Ok((second, true))
    } else if second.next == first.first {
        Ok((first, false))
    } else {
        Err(OpenFault::Apart)
    }
}

// The bytes of a file, all of them on the disk now.
fn read_all<K: Disk>(alloc: Global, disk: &mut K) -> Result<Vec<u8>, OpenFault>
    ensures bytes { IfOk result (λ it. IsTrue (K.is_clean disk.new) → it.items ≡ K.seen disk.old) }
    ensures long { IfOk result (λ it. length it.items ≤ 2 ^ 42) }
    ensures too_long { result ≡ Err TooLong → IsTrue (K.is_clean disk.new)
        → 2 ^ 42 < length (K.seen disk.old) }
    ensures cause { IfErr result IsOfReading }
    ensures seen { K.seen disk.new ≡ K.seen disk.old }
    ensures crash { (file : List ℕ) → K.may_leave disk.new file → K.may_leave disk.old file }
    ensures durable { OnOk result (Only (K.seen disk.new) (K.may_leave disk.new)) }
    ensures usable { OnOk result (IsTrue (K.is_usable disk.new)) }
    ensures clean { IsTrue (K.is_clean disk.new) → IsTrue (K.is_clean disk.old) }
    ensures failed { result ≡ Err Failed
        → (K.is_usable disk.old ≡ false) ⊎ (0 < K.faults disk.new) }
{
    if !disk.may_be_used() {
        return Err(OpenFault::Failed);
    }
    match disk.sync() {
        Ok(()) => {}
        Err(_) => return Err(OpenFault::Failed),
    }
    let len = match disk.len() {
        Ok(len) => len,
        Err(_) => return Err(OpenFault::Failed),
    };
    if len > MOST_TO_READ {
        return Err(OpenFault::TooLong);
    }
    let mut bytes = vec![in alloc; 0; len]?;
    match disk.read_at(0, &mut bytes) {
        Ok(()) => Ok(bytes),
        Err(_) => Err(OpenFault::Failed),
    }
}

/// How much of the file that isn't in use is to be left.
pub fn left_of(file: &[u8]) -> usize
    ensures blank { IsBlank file.now → result ≡ min 1 (length file.now) }
    ensures used { (IsBlank file.now → ⊥) → result ≡ length file.now }
{
    if is_blank(file) && !file.is_empty() {
        1
    } else {
        file.len()
    }
}

impl<K: Disk + Drop> FileLog<K> {
    /// A log in two files, of which nothing is read yet: it is to be opened, or created.
    pub fn new(alloc: Global, first: K, second: K) -> Self
        ensures { (result.current ≡ first) × (result.other ≡ second) }
    {
        FileLog {
            files: TwoFiles::new(alloc),
            current: first,
            other: second,
        }
    }

    /// Opens the log that is in the two files, also after a crash, or after a failure. What a crash
    /// left unfinished is cut off.
    pub fn open(&mut self) -> Result<(), OpenFault>
        ensures settled { OnOk result
            (IsSettled K.seen K.may_leave K.is_usable K.is_clean self.new) }
        ensures found { OnOk result
            (AreHonestDisks K.seen K.may_leave K.is_usable K.is_clean self.new
            → Hold (K.seen self.old.current) (K.seen self.old.other) self.new.files.bytes.items) }
        ensures refused { IfErr result (λ fault.
            AreHonestDisks K.seen K.may_leave K.is_usable K.is_clean self.new
            → IsUnopened (K.seen self.old.current) (K.seen self.old.other) fault) }
        // Whatever it answers, a crash leaves nothing that it couldn't have left before.
        ensures leaves { (left : List ℕ)
            → AreHonestDisks K.seen K.may_leave K.is_usable K.is_clean self.new
            → MayLeave K.seen K.may_leave K.is_usable K.is_clean self.new left
            → MayLeave K.seen K.may_leave K.is_usable K.is_clean self.old left }
        // And what was there can be opened again.
        ensures opens { (bytes : List ℕ)
            → IsSynced K.seen K.may_leave K.is_usable K.is_clean self.old bytes
            → AreHonestDisks K.seen K.may_leave K.is_usable K.is_clean self.new
            → MayLose K.seen K.may_leave K.is_usable K.is_clean K.is_mixing self.new → ⊥ }
        ensures failed { result ≡ Err Failed → (K.is_usable self.old.current ≡ false)
            ⊎ (K.is_usable self.old.other ≡ false)
            ⊎ HasFailed K.seen K.may_leave K.is_usable K.is_clean K.faults self.new }
        ensures honest { AreHonestDisks K.seen K.may_leave K.is_usable K.is_clean self.new
            → AreHonestDisks K.seen K.may_leave K.is_usable K.is_clean self.old }
    {
        let first = read_all(self.files.alloc, &mut self.current)?;
        let second = read_all(self.files.alloc, &mut self.other)?;
        let (is_turned, plan) = match self.files.open(&first, &second) {
            Ok(opened) => opened,
            Err(fault) => return Err(fault),
        };
        self.turn(is_turned);
        match self.carry_out(plan) {
            Ok(()) => Ok(()),
            Err(_) => Err(OpenFault::Failed),
        }
    }

    /// Makes a log that has these bytes, in two files that have nothing in them.
    pub fn create(&mut self, bytes: &[u8]) -> Result<(), OpenFault>
        ensures settled { OnOk result
            (IsSettled K.seen K.may_leave K.is_usable K.is_clean self.new) }
        ensures bytes { OnOk result (self.new.files.bytes.items ≡ bytes.now) }
        ensures blank { OnOk result
            (AreHonestDisks K.seen K.may_leave K.is_usable K.is_clean self.new
            → IsBlank (K.seen self.old.current) × IsBlank (K.seen self.old.other)) }
        ensures cause { IfErr result IsOfMaking }
        ensures taken { result ≡ Err Taken
            → AreHonestDisks K.seen K.may_leave K.is_usable K.is_clean self.new
            → IsBlank (K.seen self.old.current) × IsBlank (K.seen self.old.other) → ⊥ }
        // Whatever it answers, a crash leaves nothing but these bytes that it couldn't have left
        // before.
        ensures leaves { (left : List ℕ)
            → AreHonestDisks K.seen K.may_leave K.is_usable K.is_clean self.new
            → MayLeave K.seen K.may_leave K.is_usable K.is_clean self.new left
            → MayLeave K.seen K.may_leave K.is_usable K.is_clean self.old left
            ⊎ (left ≡ bytes.now) }
        ensures failed { result ≡ Err Failed → (K.is_usable self.old.current ≡ false)
            ⊎ (K.is_usable self.old.other ≡ false)
            ⊎ HasFailed K.seen K.may_leave K.is_usable K.is_clean K.faults self.new }
    {
        let first = read_all(self.files.alloc, &mut self.current)?;
        let second = read_all(self.files.alloc, &mut self.other)?;
        let plan = self.files.create(&first, &second, bytes)?;
        match self.carry_out(plan) {
            Ok(()) => Ok(()),
            Err(_) => Err(OpenFault::Failed),
        }
    }
}
