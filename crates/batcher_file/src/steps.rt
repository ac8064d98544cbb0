//! What is to be done to two files, as a value. A step is a write that is waited for.

ghost use Rattle.std.specs.Prelude.{◌≡◌, ◌<◌, IsTrue, OnErr, OnOk, drop, slice_get};
ghost use Rattle.batcher_file.specs.Steps.{AreBegun, AreDone, IsDone, IsFailed, IsOneOn};
ghost use Rattle.batcher_file.specs.Steps.{IsStepDone, IsTried, Touches, steps};

use crate::frame::{OPEN, UNUSED};
use sqlite_disk::Disk;
use std::io;

/// One thing to do to a file. Then the file is synced, before anything else is done.
#[derive(Clone, Copy, Debug, PartialEq, Eq)]
pub enum Step {
    /// The frame is written at this offset.
    Frame(usize),
    /// A byte is written at this offset.
    Byte(usize, u8),
    /// The file is cut to so many bytes.
    SetLen(usize),
}

/// What is done to two files at once.
#[derive(Clone, Copy, Debug, PartialEq, Eq)]
pub enum Job {
    /// The frame is added to the file in use: where its gate is, and what is behind that.
    Add(usize, usize),
    /// The other file is made anew with the frame, and is the one in use from then on.
    Replace,
    /// The file in use, and then the other, are cut to so many bytes.
    Tidy(usize, usize),
    /// Files that have nothing in them are cut to so many bytes, and the first is made anew with
    /// the frame.
    Start(usize, usize),
}

/// What is to be done to two files, step by step.
#[derive(Clone, Copy, Debug, PartialEq, Eq)]
pub struct Plan {
    pub(crate) job: Job,
    pub(crate) next: u64,
    pub(crate) end: usize,
}

// No plan has more steps.
const MOST_STEPS: usize = 6;

impl Plan {
    /// The step of this number, from 0 on, and whether it is one of the file that isn't in use.
    /// `None` where all are done.
    pub fn step(&self, number: usize) -> Option<(bool, Step)>
        ensures { result ≡ slice_get (steps self.now.job) number }
    {
        match self.job {
            Job::Add(gate, behind) => match number {
                0 => Some((false, Step::Frame(behind))),
                1 => Some((false, Step::Byte(gate, OPEN))),
                _ => None,
            },
            Job::Replace => match number {
                0 => Some((true, Step::Byte(0, UNUSED))),
                1 => Some((true, Step::SetLen(1))),
                2 => Some((true, Step::Frame(1))),
                3 => Some((true, Step::Byte(0, OPEN))),
                4 => Some((false, Step::Byte(0, UNUSED))),
                5 => Some((false, Step::SetLen(1))),
                _ => None,
            },
            Job::Tidy(len, other_len) => match number {
                0 => Some((false, Step::SetLen(len))),
                1 => Some((true, Step::SetLen(other_len))),
                _ => None,
            },
            Job::Start(len, other_len) => match number {
                0 => Some((true, Step::SetLen(other_len))),
                1 => Some((false, Step::SetLen(len))),
                2 => Some((false, Step::Byte(0, UNUSED))),
                3 => Some((false, Step::SetLen(1))),
                4 => Some((false, Step::Frame(1))),
                5 => Some((false, Step::Byte(0, OPEN))),
                _ => None,
            },
        }
    }
}

// Begins a step, which is done once the file is synced.
fn begin_step<K: Disk>(disk: &mut K, step: Step, frame: &[u8]) -> io::Result<()>
    requires { IsTrue (K.is_usable disk.old) }
    ensures tried { IsTried K.seen K.may_leave K.is_usable K.is_clean K.is_mixing K.faults
        frame.now step disk.old disk.new }
    ensures touched { Touches K.seen K.may_leave K.is_usable K.is_clean K.is_mixing K.faults
        frame.now step (K.seen disk.old) (K.seen disk.new) }
    ensures there { OnOk result (IsStepDone K.seen K.may_leave K.is_usable K.is_clean K.is_mixing
        K.faults frame.now step (K.seen disk.new)) }
    ensures usable { IsTrue (K.is_usable disk.new) }
    ensures failed { OnErr result (0 < K.faults disk.new) }
{
    match step {
        Step::Frame(at) => disk.write_at(at, frame),
        Step::Byte(at, byte) => disk.write_at(at, &[byte]),
        Step::SetLen(len) => disk.set_len(len),
    }
}

// Does one step.
fn do_step<K: Disk>(disk: &mut K, step: Step, frame: &[u8]) -> io::Result<()>
    requires { IsTrue (K.is_usable disk.old) }
    ensures done { OnOk result (IsDone K.seen K.may_leave K.is_usable K.is_clean K.is_mixing
        K.faults frame.now step disk.old disk.new) }
    ensures failed { OnErr result (IsFailed K.seen K.may_leave K.is_usable K.is_clean K.is_mixing
        K.faults frame.now step disk.old disk.new) }
{
    begin_step(disk, step, frame)?;
    disk.sync()
}

// Does the step of this number, if there is one.
fn do_next<K: Disk>(
    plan: Plan,
    number: usize,
    frame: &[u8],
    current: &mut K,
    other: &mut K,
) -> io::Result<()>
    requires current { IsTrue (K.is_usable current.old) }
    requires other { IsTrue (K.is_usable other.old) }
    ensures done { OnOk result (IsOneOn K.seen K.may_leave K.is_usable K.is_clean K.is_mixing
        K.faults frame.now (steps plan.job) number current.old other.old current.new other.new) }
    ensures begun { OnErr result (AreBegun K.seen K.may_leave K.is_usable K.is_clean K.is_mixing
        K.faults frame.now (drop number (steps plan.job)) current.old other.old current.new
        other.new) }
{
    match plan.step(number) {
        Some((true, step)) => do_step(other, step, frame),
        Some((false, step)) => do_step(current, step, frame),
        None => Ok(()),
    }
}

/// Does what a plan says.
pub fn carry_out<K: Disk>(
    plan: Plan,
    frame: &[u8],
    current: &mut K,
    other: &mut K,
) -> io::Result<()>
    requires current { IsTrue (K.is_usable current.old) }
    requires other { IsTrue (K.is_usable other.old) }
    ensures done { OnOk result (AreDone K.seen K.may_leave K.is_usable K.is_clean K.is_mixing
        K.faults frame.now (steps plan.job) current.old other.old current.new other.new) }
    ensures begun { OnErr result (AreBegun K.seen K.may_leave K.is_usable K.is_clean K.is_mixing
        K.faults frame.now (steps plan.job) current.old other.old current.new other.new) }
    ensures usable { OnOk result
        (IsTrue (K.is_usable current.new) × IsTrue (K.is_usable other.new)) }
{
    for number in 0..MOST_STEPS {
        do_next(plan, number, frame, current, other)?;
    }
    Ok(())
}
