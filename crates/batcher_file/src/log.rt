//! A log in two files that take turns.

ghost use Rattle.std.specs.Prelude.{◌≡◌, IsTrue, OnErr, OnOk};
ghost use Rattle.batcher_file.specs.Carrying.{IsBegun, IsCarriedOut, put_first};
ghost use Rattle.batcher_file.specs.Plans.{IsFull, IsTooSmall};
ghost use Rattle.batcher_file.specs.Settled.{HasFailed, AreHonestDisks, IsSettled, MayLeave};
ghost use Rattle.batcher_file.specs.Settled.{MayLose};

use crate::files::TwoFiles;
use crate::steps::{Plan, carry_out};
use batcher_bytes::{Log, LogFault};
use sqlite_disk::Disk;
use std::io;

/// Bytes in a file, in frames one behind the other, and in memory. Another file takes its turn as
/// they are replaced.
#[derive(Drop)]
pub struct FileLog<K: Disk + Drop> {
    pub(crate) files: TwoFiles,
    pub(crate) current: K,
    pub(crate) other: K,
}

impl<K: Disk + Drop> FileLog<K> {
    // Does what a plan says.
    pub(crate) fn carry_out(&mut self, plan: Plan) -> io::Result<()>
        requires current { IsTrue (K.is_usable self.old.current) }
        requires other { IsTrue (K.is_usable self.old.other) }
        ensures done { OnOk result (IsCarriedOut K.seen K.may_leave K.is_usable K.is_clean
            K.is_mixing K.faults plan self.old self.new) }
        ensures begun { OnErr result (IsBegun K.seen K.may_leave K.is_usable K.is_clean K.is_mixing
            K.faults plan self.old self.new) }
    {
        carry_out(plan, &self.files.frame, &mut self.current, &mut self.other)?;
        self.files.carried_out(plan);
        Ok(())
    }

    // Puts the file first that is in use.
    pub(crate) fn turn(&mut self, is_turned: bool)
        ensures { self.new ≡ put_first is_turned self.old }
    {
        if is_turned {
            std::mem::swap(&mut self.current, &mut self.other);
        }
    }
}

impl<K: Disk + Drop> Log for FileLog<K> {
    ghost use Rattle.batcher_file.specs.Settled.{rest_opens, rest_settled, rest_stays};

    ghost written = { λ log. log.files.bytes.items };

    ghost is_settled = { IsSettled K.seen K.may_leave K.is_usable K.is_clean };

    ghost may_leave = { MayLeave K.seen K.may_leave K.is_usable K.is_clean };

    ghost may_lose = { MayLose K.seen K.may_leave K.is_usable K.is_clean K.is_mixing };

    ghost is_honest = { AreHonestDisks K.seen K.may_leave K.is_usable K.is_clean };

    ghost has_failed = { HasFailed K.seen K.may_leave K.is_usable K.is_clean K.faults };

    ghost is_full = { λ log bytes. IsFull log.files bytes };

    ghost is_too_small = { λ log bytes. IsTooSmall log.files bytes };

    ghost is_copied_as = { λ log copy. Unit {0} };

    ghost settled = { rest_settled K.seen K.may_leave K.is_usable K.is_clean };

    ghost kept = { rest_opens K.seen K.may_leave K.is_usable K.is_clean K.is_mixing };

    ghost stays = { rest_stays K.seen K.may_leave K.is_usable K.is_clean K.seen_may_stay };

    fn append(&mut self, bytes: &[u8]) -> Result<(), LogFault> {
        let plan = self.files.append(bytes)?;
        match self.carry_out(plan) {
            Ok(()) => Ok(()),
            Err(_) => Err(LogFault::Failed),
        }
    }

    fn replace(&mut self, bytes: &[u8]) -> Result<(), LogFault> {
        let plan = self.files.replace(bytes)?;
        match self.carry_out(plan) {
            Ok(()) => {
                self.turn(true);
                Ok(())
            }
            Err(_) => Err(LogFault::Failed),
        }
    }

    fn bytes(&self) -> &[u8] {
        &self.files.bytes
    }
}
