//! What is in two files that take turns, and what is to be done to them. Here nothing is done.

ghost use Rattle.std.specs.Prelude.{◌≡◌, ◌<◌, ◌≤◌, ◌-◌, ◌^◌, ◌⊎◌, Err, IfErr, IfOk, List, OnErr};
ghost use Rattle.std.specs.Prelude.{length};
ghost use Rattle.batcher_file.specs.Disks.{IsBlank};
ghost use Rattle.batcher_file.specs.Needing.{AddingNeeds, ReplacingNeeds};
ghost use Rattle.batcher_file.specs.Pairs.{HoldNone};
ghost use Rattle.batcher_file.specs.Plans.{IsAddition, IsFull, IsOpened, IsReplacement, IsTaken};
ghost use Rattle.batcher_file.specs.Plans.{IsTooSmall, MakesFiles, SameBytes};
ghost use Rattle.batcher_file.specs.Refusals.{IsWholeBefore, FaultShows};
ghost use Rattle.batcher_file.specs.declared.opening.OpenFault.TheVariants.{Empty};
ghost use Rattle.batcher_bytes.specs.declared.log.LogFault.TheVariants.{Failed, Full, OutOfMemory};

use crate::frame::put_frame;
use crate::opening::{OpenFault, in_use, is_blank, left_of};
use crate::steps::{Job, Plan};
use batcher_bytes::LogFault;
use std::alloc::Global;

// A file has at most so many bytes, and so has what is added to it at once.
const MOST_BYTES: usize = 1 << 40;

// So many frames are never written.
const MOST_FRAMES: u64 = (1 << 63) - 2;

/// What is in two files that take turns. It reads and writes no file: each call gives a plan, and
/// says what is there once somebody has carried it out and said so (`carried_out`), before the next
/// call. What a disk fails to do has to be read anew by `open`.
#[derive(Drop)]
pub struct TwoFiles {
    pub(crate) alloc: Global,
    pub(crate) bytes: Vec<u8>,
    pub(crate) frame: Vec<u8>,
    pub(crate) next: u64,
    pub(crate) end: usize,
}

impl TwoFiles {
    /// Files of which nothing is known yet.
    pub fn new(alloc: Global) -> Self {
        TwoFiles {
            alloc,
            bytes: Vec::new(alloc),
            frame: Vec::new(alloc),
            next: 0,
            end: 0,
        }
    }

    /// What is to be done to two files that have these bytes, as they are opened, and whether the
    /// second is the one in use.
    pub fn open(&mut self, first: &[u8], second: &[u8]) -> Result<(bool, Plan), OpenFault>
        ensures found { IfOk result (λ it. IsOpened first.now second.now it.0 it.1 self.new) }
        ensures refused { IfErr result (FaultShows (HoldNone first.now second.now)) }
        ensures damage { IfErr result (IsWholeBefore first.now second.now) }
        ensures empty { result ≡ Err Empty → IsBlank first.now × IsBlank second.now }
        ensures blank { IsBlank first.now → IsBlank second.now → result ≡ Err Empty }
        ensures kept { OnErr result (SameBytes self.old self.new) }
    {
        let (contents, is_turned) = in_use(self.alloc, first, second)?;
        let other = if is_turned { first } else { second };
        self.bytes = contents.bytes;
        self.next = contents.next;
        self.end = contents.end;
        let plan = Plan {
            job: Job::Tidy(self.end + 1, left_of(other)),
            next: self.next,
            end: self.end,
        };
        Ok((is_turned, plan))
    }

    /// What is to be done to two files that have these bytes, so that they have others. The first
    /// is the one in use.
    pub fn create(&mut self, first: &[u8], second: &[u8], bytes: &[u8]) -> Result<Plan, OpenFault>
        ensures made { IfOk result (MakesFiles first.now second.now bytes.now self.new) }
        ensures taken { IfErr result (IsTaken first.now second.now) }
        ensures kept { OnErr result (SameBytes self.old self.new) }
    {
        if !is_blank(first) || !is_blank(second) {
            return Err(OpenFault::Taken);
        }
        if bytes.len() > MOST_BYTES {
            return Err(OpenFault::OutOfMemory);
        }
        put_frame(&mut self.frame, 1, bytes)?;
        let mut others = Vec::new(self.alloc);
        others.extend_from_slice(bytes)?;
        self.bytes = others;
        Ok(Plan {
            job: Job::Start(left_of(first), left_of(second)),
            next: 2,
            end: self.frame.len(),
        })
    }

    /// What is to be done so that these bytes are behind the others.
    pub fn append(&mut self, bytes: &[u8]) -> Result<Plan, LogFault>
        ensures added { IfOk result (IsAddition self.old bytes.now self.new) }
        ensures kept { OnErr result (SameBytes self.old self.new) }
        ensures full { result ≡ Err Full → IsFull self.old bytes.now }
        ensures cause { result ≡ Err Failed → ⊥ }
        ensures needed { result ≡ Err OutOfMemory → AddingNeeds self.old bytes.now }
    {
        if self.next >= MOST_FRAMES || self.end > MOST_BYTES || bytes.len() > MOST_BYTES {
            return Err(LogFault::Full);
        }
        match put_frame(&mut self.frame, self.next, bytes) {
            Ok(()) => {}
            Err(_) => return Err(LogFault::OutOfMemory),
        }
        match self.bytes.extend_from_slice(bytes) {
            Ok(()) => {}
            Err(_) => return Err(LogFault::OutOfMemory),
        }
        Ok(Plan {
            job: Job::Add(self.end, self.end + 1),
            next: self.next + 1,
            end: self.end + self.frame.len(),
        })
    }

    /// What is to be done so that these bytes are in the place of all others. Once it is, the other
    /// file is the one in use.
    pub fn replace(&mut self, bytes: &[u8]) -> Result<Plan, LogFault>
        ensures replaced { IfOk result (IsReplacement self.old bytes.now self.new) }
        ensures kept { OnErr result (SameBytes self.old self.new) }
        ensures full { result ≡ Err Full → IsTooSmall self.old bytes.now }
        ensures cause { result ≡ Err Failed → ⊥ }
        ensures needed { result ≡ Err OutOfMemory → ReplacingNeeds self.old bytes.now }
    {
        if self.next >= MOST_FRAMES || bytes.len() > MOST_BYTES {
            return Err(LogFault::Full);
        }
        match put_frame(&mut self.frame, self.next, bytes) {
            Ok(()) => {}
            Err(_) => return Err(LogFault::OutOfMemory),
        }
        let mut replacement = Vec::new(self.alloc);
        match replacement.extend_from_slice(bytes) {
            Ok(()) => {}
            Err(_) => return Err(LogFault::OutOfMemory),
        }
        self.bytes = replacement;
        Ok(Plan {
            job: Job::Replace,
            next: self.next + 1,
            end: self.frame.len(),
        })
    }

    /// A plan was carried out.
    pub fn carried_out(&mut self, plan: Plan)
        ensures bytes { self.new.bytes.items ≡ self.old.bytes.items }
        ensures plan { (self.new.next ≡ plan.next) × (self.new.end ≡ plan.end) }
    {
        self.next = plan.next;
        self.end = plan.end;
    }

    /// The frame that the steps of the last plan write.
    pub fn frame(&self) -> &[u8]
        ensures { result.now ≡ self.now.frame.items }
    {
        &self.frame
    }

    /// The bytes that are there once the last plan is carried out.
    pub fn bytes(&self) -> &[u8]
        ensures { result.now ≡ self.now.bytes.items }
    {
        &self.bytes
    }
}
