//! Bytes that outlive a crash, to which more are added.

ghost use Rattle.std.specs.Prelude.{◌≡◌, ◌≤◌, ◌⊎◌, ◌++◌, [], Err, List, OnOk, ℕ};
ghost use Rattle.batcher_bytes.specs.Copies.{CopyView};
ghost use Rattle.batcher_bytes.specs.declared.log.LogFault.TheVariants.{Failed, Full, OutOfMemory};

use std::alloc::Global;

/// Why nothing was written.
#[derive(Clone, Copy, Debug, PartialEq, Eq)]
pub enum LogFault {
    /// Nothing has changed.
    OutOfMemory,
    /// So many bytes don't fit in. Nothing has changed.
    Full,
    /// The disk failed. Until the log is opened again nobody knows what is there.
    Failed,
}

/// Bytes on a disk, to which more are added, or which others replace: all of them, or none. Bytes
/// in memory are no log, since a crash empties them.
pub trait Log: Drop {
    /// What is on the disk.
    ghost written: { Self → List ℕ };

    /// Whether nothing is under way.
    ghost is_settled: { Self → Type 0 };

    /// What is found after a crash at this moment, or after the end of the program.
    ghost may_leave: { Self → List ℕ → Type 0 };

    /// Whether a crash at this moment may leave what can't be opened.
    ghost may_lose: { Self → Type 0 };

    /// Whether the disk has kept what it said that it has.
    ghost is_honest: { Self → Type 0 };

    /// Whether the disk has failed.
    ghost has_failed: { Self → Type 0 };

    /// Whether these bytes don't fit in, behind what is there.
    ghost is_full: { Self → List ℕ → Type 0 };

    /// Whether these bytes don't fit in, in the place of all others.
    ghost is_too_small: { Self → List ℕ → Type 0 };

    /// Whether this is the copy of it that somebody else keeps. Where nobody does, any is.
    ghost is_copied_as: { Self → CopyView → Type 0 };

    /// Adds bytes at the end. At `Ok` they are on the disk.
    fn append(&mut self, bytes: &[u8]) -> Result<(), LogFault>
        requires { is_settled self.old }
        ensures ok { OnOk result
            (is_settled self.new × (written self.new ≡ written self.old ++ bytes.now)) }
        ensures kept { (result ≡ Err OutOfMemory) ⊎ (result ≡ Err Full)
            → is_settled self.new × (written self.new ≡ written self.old) }
        ensures full { result ≡ Err Full → is_full self.old bytes.now }
        ensures failed { result ≡ Err Failed → has_failed self.new }
        // Whatever it answers, a crash leaves what was there, or that and these bytes.
        ensures leaves { (left : List ℕ) → is_honest self.new → may_leave self.new left
            → (left ≡ written self.old) ⊎ (left ≡ written self.old ++ bytes.now) }
        // And that opens.
        ensures opens { is_honest self.new → may_lose self.new → ⊥ }
        ensures honest { is_honest self.new → is_honest self.old }
        ensures copied { (copy : CopyView) → is_copied_as self.old copy
            → is_copied_as self.new copy };

    /// Puts these bytes in the place of all others. At `Ok` they are on the disk.
    fn replace(&mut self, bytes: &[u8]) -> Result<(), LogFault>
        requires { is_settled self.old }
        ensures ok { OnOk result (is_settled self.new × (written self.new ≡ bytes.now)) }
        ensures kept { (result ≡ Err OutOfMemory) ⊎ (result ≡ Err Full)
            → is_settled self.new × (written self.new ≡ written self.old) }
        ensures full { result ≡ Err Full → is_too_small self.old bytes.now }
        ensures failed { result ≡ Err Failed → has_failed self.new }
        // Whatever it answers, a crash leaves what was there, or these bytes.
        ensures leaves { (left : List ℕ) → is_honest self.new → may_leave self.new left
            → (left ≡ written self.old) ⊎ (left ≡ bytes.now) }
        ensures opens { is_honest self.new → may_lose self.new → ⊥ }
        ensures honest { is_honest self.new → is_honest self.old }
        ensures copied { (copy : CopyView) → is_copied_as self.old copy
            → is_copied_as self.new copy };

    /// The bytes that are on the disk.
    fn bytes(&self) -> &[u8]
        requires { is_settled self.now }
        ensures { result.now ≡ written self.now };

    /// Where nothing is under way, what is found after a crash is what is written, ..
    ghost settled: { (log : Self) (left : List ℕ) → is_honest log → is_settled log
        → may_leave log left → left ≡ written log };

    /// .. it can be opened, ..
    ghost kept: { (log : Self) → is_honest log → is_settled log → may_lose log → ⊥ };

    /// .. and it is found.
    ghost stays: { (log : Self) → is_honest log → is_settled log → may_leave log (written log) };
}

/// Bytes in memory that are taken to outlive a crash, for tests.
#[derive(Drop)]
pub struct MemoryLog {
    bytes: Vec<u8>,
}

impl MemoryLog {
    pub fn new(alloc: Global) -> Self
        ensures { result.bytes.items ≡ [] }
    {
        MemoryLog {
            bytes: Vec::new(alloc),
        }
    }

    /// Bytes that were written before.
    pub fn of(bytes: Vec<u8>) -> Self
        ensures { result.bytes.items ≡ bytes.items }
    {
        MemoryLog { bytes }
    }
}

impl Log for MemoryLog {
    ghost use Rattle.std.proofs.Common.{refl};

    ghost written = { λ log. log.bytes.items };

    ghost is_settled = { λ log. Unit {0} };

    ghost may_leave = { λ log left. left ≡ log.bytes.items };

    ghost may_lose = { λ log. ⊥ };

    ghost is_honest = { λ log. Unit {0} };

    ghost has_failed = { λ log. ⊥ };

    ghost is_full = { λ log bytes. ⊥ };

    ghost is_too_small = { λ log bytes. ⊥ };

    ghost is_copied_as = { λ log copy. Unit {0} };

    ghost settled = { λ log left honest settled may. may };

    ghost kept = { λ log honest settled lose. lose };

    ghost stays = { λ log honest settled. refl };

    fn append(&mut self, bytes: &[u8]) -> Result<(), LogFault> {
        match self.bytes.extend_from_slice(bytes) {
            Ok(()) => Ok(()),
            Err(_) => Err(LogFault::OutOfMemory),
        }
    }

    fn replace(&mut self, bytes: &[u8]) -> Result<(), LogFault> {
        let mut others = Vec::new(*self.bytes.allocator());
        match others.extend_from_slice(bytes) {
            Ok(()) => {
                self.bytes = others;
                Ok(())
            }
            Err(_) => Err(LogFault::OutOfMemory),
        }
    }

    fn bytes(&self) -> &[u8] {
        &self.bytes
    }
}
