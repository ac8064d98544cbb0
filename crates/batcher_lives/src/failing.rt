//! A disk in memory that fails where it is asked to.

ghost use Rattle.std.specs.Prelude.{◌≡◌, [], Err, true, false};
ghost use Rattle.batcher_bytes.specs.declared.log.LogFault.TheVariants.{Failed};

use crate::restart::Restart;
use batcher_bytes::{Log, LogFault, MemoryLog};
use std::alloc::Global;

/// What becomes of one call that writes.
#[derive(Clone, Copy, Debug, PartialEq, Eq)]
pub enum Mishap {
    /// Nothing: it is done.
    None,
    /// The disk fails, and nothing of it is there.
    Before,
    /// The disk fails, and all of it is there.
    Behind,
}

/// A log in memory. Each call that writes meets the next mishap,
/// and none where there are no more.
#[derive(Drop)]
pub struct FailingLog<'a> {
    log: MemoryLog,
    mishaps: &'a [Mishap],
    has_failed: bool,
}

impl<'a> FailingLog<'a> {
    pub fn new(alloc: Global, mishaps: &'a [Mishap]) -> Self
        ensures { (result.log.bytes.items ≡ []) × (result.has_failed ≡ false) }
    {
        FailingLog {
            log: MemoryLog::new(alloc),
            mishaps,
            has_failed: false,
        }
    }

    /// Whether the disk has failed, and the power hasn't gone since.
    pub fn is_failing(&self) -> bool
        ensures { result ≡ self.now.has_failed }
    {
        self.has_failed
    }

    // The next mishap.
    fn mishap(&mut self) -> Mishap
        ensures { (self.new.log ≡ self.old.log) × (self.new.has_failed ≡ self.old.has_failed) }
    {
        match self.mishaps {
            [] => Mishap::None,
            [first, rest @ ..] => {
                self.mishaps = rest;
                *first
            }
        }
    }
}

impl FailingLog<'_> {
    // The disk fails.
    fn fail(&mut self) -> Result<(), LogFault>
        ensures failed { result ≡ Err Failed }
        ensures log { (self.new.log ≡ self.old.log) × (self.new.has_failed ≡ true) }
    {
        self.has_failed = true;
        Err(LogFault::Failed)
    }
}

impl Log for FailingLog<'_> {
    ghost use Rattle.std.specs.Prelude.{true};
    ghost use Rattle.std.proofs.Common.{refl};

    ghost written = { λ log. log.log.bytes.items };

    ghost is_settled = { λ log. log.has_failed ≡ false };

    ghost may_leave = { λ log left. left ≡ log.log.bytes.items };

    ghost may_lose = { λ log. ⊥ };

    ghost is_honest = { λ log. Unit {0} };

    ghost has_failed = { λ log. log.has_failed ≡ true };

    ghost is_full = { λ log bytes. ⊥ };

    ghost is_too_small = { λ log bytes. ⊥ };

    ghost is_copied_as = { λ log copy. Unit {0} };

    ghost settled = { λ log left honest settled may. may };

    ghost kept = { λ log honest settled lose. lose };

    ghost stays = { λ log honest settled. refl };

    fn append(&mut self, bytes: &[u8]) -> Result<(), LogFault> {
        let mishap = self.mishap();
        if mishap == Mishap::Before {
            return self.fail();
        }
        self.log.append(bytes)?;
        if mishap == Mishap::Behind {
            return self.fail();
        }
        Ok(())
    }

    fn replace(&mut self, bytes: &[u8]) -> Result<(), LogFault> {
        let mishap = self.mishap();
        if mishap == Mishap::Before {
            return self.fail();
        }
        self.log.replace(bytes)?;
        if mishap == Mishap::Behind {
            return self.fail();
        }
        Ok(())
    }

    fn bytes(&self) -> &[u8] {
        self.log.bytes()
    }
}

impl Restart for FailingLog<'_> {
    fn restart(&mut self) -> Result<(), LogFault> {
        self.has_failed = false;
        Ok(())
    }
}
