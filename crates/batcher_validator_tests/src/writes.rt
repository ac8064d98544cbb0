//! Tests of what no clause says: that a validator goes on by what its caller wrote alone.

ghost use Rattle.std.specs.Prelude.{◌≡◌, length};

use batcher::messages::{Attestation, Sha256Digest, Vote};
use batcher::positions::{Epoch, Participant};
use batcher::scheme::{Counter, names};
use batcher_bytes::{CopiedLog, Keys, Signature, Signed, Truth};
use batcher_journal::Owner;
use batcher_validator::{Next, Task, Validator};
use std::alloc::Global;
use std::marker::Model;
use std::process::Abort;
use std::rc::Rc;
use std::test::Fail;

type Digest = Sha256Digest;

type TestValidator = Validator<Signed<Anything, true>, Digest, CopiedLog>;

// Each attestation attests.
#[derive(Clone, Copy)]
struct Anything;

impl Truth for Anything {
    ghost use Rattle.std.specs.Prelude.{true};

    ghost attests = { λ keys subject a. true };

    ghost passes = { λ keys subject all. true };

    ghost certifies = { λ keys subject bytes. true };
}

const EPOCH: Epoch = Epoch(5);

fn owner() -> Owner<'static> {
    Owner {
        namespace: b"test",
        keys: b"keys",
        participant: Participant(0),
        digest_len: 32,
        signature_len: 96,
    }
}

// A validator alone, whose vote is a quorum.
#[derive(Drop)]
struct Alone {
    running: TestValidator,
    disk: Vec<u8>,
    // How often bytes were written behind others, and in their place.
    appends: usize,
    replacements: usize,
    // What was sent, and the view of the last proposal that is final.
    sent: usize,
    last: u64,
}

impl Model for Alone {
    ghost use Rattle.std.specs.Prelude.{◌≡◌, ℕ, length};

    ghost Value = { ℕ };

    ghost view = { λ a. a.last };

    ghost invariant = { λ a. length a.running.voter.node.scheme.participants ≡ 1 };
}

impl Alone {
    // One of whom nothing was ever signed, on a disk without bytes.
    fn new(alloc: Global) -> Result<Self, Fail> {
        let scheme = Rc::new(alloc, Signed::new(names(alloc, 1)?, Keys([7; 32])))?;
        match Validator::begin(alloc, scheme, 5, true, &owner(), EPOCH) {
            Ok(running) => Ok(Alone::with(running, Vec::new(alloc))),
            Err(_) => Err(Fail::new("no validator begins")),
        }
    }

    // What it is by the bytes of its disk.
    fn of(alloc: Global, bytes: &[u8]) -> Result<Self, Fail> {
        let scheme = Rc::new(alloc, Signed::new(names(alloc, 1)?, Keys([7; 32])))?;
        let mut disk = Vec::new(alloc);
        disk.extend_from_slice(bytes)?;
        let mut copy = Vec::new(alloc);
        copy.extend_from_slice(bytes)?;
        match Validator::restart(alloc, scheme, 5, true, &owner(), copy) {
            Ok(running) => Ok(Alone::with(running, disk)),
            Err(_) => Err(Fail::new("no validator is made of the disk")),
        }
    }

    fn with(running: TestValidator, disk: Vec<u8>) -> Self
        requires { length running.voter.node.scheme.participants ≡ 1 }
    {
        Alone {
            running,
            disk,
            appends: 0,
            replacements: 0,
            sent: 0,
            last: 0,
        }
    }

    // Does so many things that are to be done.
    fn go_on(&mut self, times: usize) -> Result<(), Fail> {
        for _ in 0..times {
            match self.running.next() {
                Ok(Some(Next::Write)) => self.write()?,
                Ok(Some(Next::Do(task))) => self.perform(task)?,
                Ok(None) => return Err(Fail::new("it stands still")),
                Err(_) => return Err(Fail::new("the disk failed")),
            }
        }
        Ok(())
    }

    fn write(&mut self) -> Result<(), Fail> {
        if let Some(owed) = self.running.owed() {
            if owed.replaces {
                self.disk.clear();
                self.replacements = self.replacements.saturating_add(1);
            } else {
                self.appends = self.appends.saturating_add(1);
            }
            self.disk.extend_from_slice(owed.bytes)?;
        }
        if self.running.give(7) && !self.running.wrote(6) && self.running.wrote(7) {
            Ok(())
        } else {
            Err(Fail::new("what is owed isn't given"))
        }
    }

    fn perform(&mut self, task: Task<Signature, Digest>) -> Result<(), Fail> {
        match task {
            Task::Enter(view) => {
                if self.running.enter(view, Participant(0)).is_err() {
                    return Err(Fail::new("the view isn't entered"));
                }
            }
            Task::Propose { view, parent } => {
                self.running.propose(view, parent, Sha256Digest([1; 32]));
            }
            Task::Sign(subject) => {
                let Some(signature) = Signature::new(&[1]) else {
                    return Err(Fail::new("a signature has no byte"));
                };
                let attestation = Attestation {
                    signer: Participant(0),
                    signature,
                };
                self.cast(Vote::new(subject, attestation))?;
            }
            Task::Cast(vote) => self.cast(vote)?,
            Task::Verify => self.verify()?,
            Task::SendVote(_) | Task::SendCertificate(_, _) | Task::Forward(_) => {
                self.sent = self.sent.saturating_add(1);
            }
            Task::Final(proposal) => self.last = proposal.round.view.0,
            Task::Judge(_) | Task::Block(_, _) => {
                return Err(Fail::new("nobody else is there"));
            }
        }
        Ok(())
    }

    fn cast(&mut self, vote: Vote<Signature, Digest>) -> Result<(), Fail> {
        if vote.signer().0 != 0 {
            return Err(Fail::new("the vote is of somebody else"));
        }
        match self.running.cast(vote) {
            Ok(_) => Ok(()),
            Err(_) => Err(Fail::new("the vote is refused")),
        }
    }

    // Its own votes are all that there are, so nothing waits for a verdict.
    fn verify(&mut self) -> Result<(), Fail> {
        let subject = match self.running.next_attempt() {
            Some(attempt) => Some(attempt.subject),
            None => None,
        };
        let made = match subject {
            Some(subject) => self.running.conclude(subject, &[], &[])?,
            None => self.running.try_construct(&mut Counter::new(0))?,
        };
        if !made {
            return Err(Fail::new("no construction is made"));
        }
        Ok(())
    }
}

#[test]
fn it_goes_on_by_what_was_written(rt: HostRuntime) -> Result<(), Fail> {
    let alloc = rt.alloc();
    let mut alone = Alone::new(alloc)?;
    let mut last = 0;
    // It is stopped after each number of things that it did, and started by its disk.
    for times in 40..60usize {
        match alone.go_on(times) {
            Ok(()) => {}
            Err(fail) => {
                drop(alone);
                return Err(fail);
            }
        }
        assert!(&rt; alone.last > last);
        assert!(&rt; alone.appends > 0);
        assert!(&rt; alone.replacements > 0);
        last = alone.last;
        let again = Alone::of(alloc, alone.disk.as_slice());
        drop(alone);
        alone = again?;
    }
    drop(alone);
    Ok(())
}
