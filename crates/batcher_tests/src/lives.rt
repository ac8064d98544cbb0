//! Tests of what no clause says: that deeds are done where memory is there and the disk works.
//! What is handed out, and what a crash leaves, is by hand.

use batcher_file::{FileLog, OpenFault};
use batcher_journal::{Journal, Owner, Unopened};
use batcher_lives::{Deed, FailingLog, Lived, Mishap, live};
use batcher_types::messages::{Attestation, Proposal, Sha256Digest, Subject, Vote};
use batcher_types::positions::{Epoch, Participant, Round, View};
use sqlite_disk::{Fuse, Memory};
use std::alloc::Global;
use std::process::Abort;
use std::test::Fail;

type TestVote = Vote<[u8; 1], Sha256Digest>;

type TestDeed<'a> = Deed<'a, [u8; 1], Sha256Digest>;

type TestJournal<'a> = Journal<[u8; 1], Sha256Digest, FailingLog<'a>>;

fn owner(keys: &[u8]) -> Owner<'_> {
    Owner {
        namespace: b"test",
        keys,
        participant: Participant(7),
        digest_len: 32,
        signature_len: 1,
    }
}

fn at(view: u64) -> Round {
    Round::new(Epoch(5), View(view))
}

fn notarize(view: u64, payload: u8) -> Subject<Sha256Digest> {
    Subject::Notarize {
        proposal: Proposal::new(at(view), View(0), Sha256Digest([payload; 32])),
    }
}

fn signed(subject: Subject<Sha256Digest>, byte: u8) -> TestVote {
    let attestation = Attestation {
        signer: Participant(7),
        signature: [byte],
    };
    Vote::new(subject, attestation)
}

// Plays a life, and gives the signatures of what was handed out with the certificates and the floor
// that are there in the end.
fn play(
    rt: &impl Abort,
    alloc: Global,
    deeds: &[TestDeed],
    mishaps: &[Mishap],
    keys: &[u8],
    handed_out: &[u8],
    floor: Round,
    certificates: &[u8],
) -> Result<(), Fail> {
    let log = FailingLog::new(alloc, mishaps);
    let Lived { handed, log } = live(alloc, log, &owner(b"keys"), at(1), b"first", deeds);
    assert_eq!(rt; handed.len(), handed_out.len());
    for i in 0..handed_out.len() {
        assert_eq!(rt; handed[i].attestation().signature[0], handed_out[i]);
    }
    if log.is_failing() {
        return Ok(());
    }
    let journal: TestJournal = match Journal::open(alloc, log, &owner(keys)) {
        Ok(journal) => journal,
        Err(Unopened { .. }) => return Err(Fail::new("no journal is there")),
    };
    assert_eq!(rt; journal.floor(), floor);
    assert_eq!(rt; journal.certificates().len(), certificates.len());
    for i in 0..certificates.len() {
        let certificate = journal.certificates()[i].certificate();
        assert_eq!(rt; certificate.len(), 1);
        assert_eq!(rt; certificate[0], certificates[i]);
    }
    Ok(())
}

#[test]
fn what_was_written_is_known(rt: HostRuntime) -> Result<(), Fail> {
    let first = [signed(notarize(1, 10), 1)];
    let second = [signed(notarize(1, 11), 2)];
    let deeds = [
        Deed::Write(&first),
        Deed::Ask(notarize(1, 10)),
        Deed::Ask(notarize(1, 11)),
        Deed::Restart(owner(b"keys")),
        Deed::Ask(notarize(1, 10)),
        Deed::Write(&second),
    ];
    play(
        &rt,
        rt.alloc(),
        &deeds,
        &[],
        b"keys",
        &[1, 1, 1],
        at(1),
        &[],
    )
}

// The first call that writes begins the journal.
#[test]
fn a_disk_that_fails_before_has_nothing(rt: HostRuntime) -> Result<(), Fail> {
    let first = [signed(notarize(1, 10), 1)];
    let second = [signed(notarize(1, 11), 2)];
    let third = [signed(notarize(1, 11), 3)];
    let deeds = [
        Deed::Write(&first),
        Deed::Ask(notarize(1, 10)),
        Deed::Write(&second),
        Deed::Restart(owner(b"keys")),
        Deed::Write(&third),
    ];
    let mishaps = [Mishap::None, Mishap::Before];
    play(&rt, rt.alloc(), &deeds, &mishaps, b"keys", &[3], at(1), &[])
}

#[test]
fn a_disk_that_fails_behind_has_all(rt: HostRuntime) -> Result<(), Fail> {
    let first = [signed(notarize(1, 10), 1)];
    let second = [signed(notarize(1, 11), 2)];
    let deeds = [
        Deed::Write(&first),
        Deed::Restart(owner(b"keys")),
        Deed::Ask(notarize(1, 10)),
        Deed::Write(&second),
    ];
    let mishaps = [Mishap::None, Mishap::Behind];
    play(&rt, rt.alloc(), &deeds, &mishaps, b"keys", &[1], at(1), &[])
}

#[test]
fn certificates_are_written_with_votes(rt: HostRuntime) -> Result<(), Fail> {
    let first = [signed(notarize(4, 10), 1)];
    let deeds = [
        Deed::Keep(at(2), &[20]),
        Deed::Restart(owner(b"keys")),
        Deed::Keep(at(2), &[21]),
        Deed::Write(&[]),
        Deed::Keep(at(3), &[30]),
        Deed::Write(&first),
        Deed::Restart(owner(b"keys")),
    ];
    play(
        &rt,
        rt.alloc(),
        &deeds,
        &[],
        b"keys",
        &[1],
        at(1),
        &[21, 30],
    )?;
    let deeds = [
        Deed::Keep(at(2), &[20]),
        Deed::Keep(at(3), &[30]),
        Deed::Raise(at(3), b"third"),
    ];
    play(&rt, rt.alloc(), &deeds, &[], b"keys", &[], at(3), &[30])
}

#[test]
fn nothing_is_signed_below_the_floor(rt: HostRuntime) -> Result<(), Fail> {
    let first = [signed(notarize(1, 10), 1)];
    let second = [signed(notarize(1, 11), 2)];
    let third = [signed(notarize(2, 10), 3)];
    let deeds = [
        Deed::Write(&first),
        Deed::Raise(at(2), b"second"),
        Deed::Ask(notarize(1, 10)),
        Deed::Write(&second),
        Deed::Raise(at(1), b"first"),
        Deed::Write(&third),
    ];
    play(&rt, rt.alloc(), &deeds, &[], b"keys", &[1, 3], at(2), &[])
}

#[test]
fn an_epoch_has_other_keys(rt: HostRuntime) -> Result<(), Fail> {
    let next = Round::new(Epoch(6), View(1));
    let subject = Subject::Nullify { round: next };
    let first = [signed(notarize(1, 10), 1)];
    let second = [signed(subject, 2)];
    let third = [signed(notarize(1, 11), 3)];
    let fourth = [signed(subject, 4)];
    let deeds = [
        Deed::Write(&first),
        Deed::BeginEpoch(owner(b"other"), next, b"last"),
        Deed::Restart(owner(b"keys")),
        Deed::Write(&second),
        Deed::Restart(owner(b"other")),
        Deed::Write(&third),
        Deed::Write(&fourth),
    ];
    play(&rt, rt.alloc(), &deeds, &[], b"other", &[1, 4], next, &[])
}

// A life over two files, of which each fails from so many calls on, until the power goes. `None` is
// handed out where no log can be made.
fn play_on_files(
    rt: &impl Abort,
    alloc: Global,
    calls: u64,
    other_calls: u64,
    deeds: &[TestDeed],
    handed_out: Option<&[u8]>,
) -> Result<(), Fail> {
    let mut log = FileLog::new(
        alloc,
        Fuse::new(Memory::new(alloc), calls),
        Fuse::new(Memory::new(alloc), other_calls),
    );
    match log.create(&[]) {
        Ok(()) => {}
        Err(fault) => {
            std::mem::drop(log);
            assert_eq!(rt; fault, OpenFault::Failed);
            assert!(rt; handed_out.is_none());
            return Ok(());
        }
    }
    let Lived { handed, log } = live(alloc, log, &owner(b"keys"), at(1), b"first", deeds);
    std::mem::drop(log);
    let expected = match handed_out {
        Some(signatures) => signatures,
        None => return Err(Fail::new("a log was made")),
    };
    assert_eq!(rt; handed.len(), expected.len());
    for i in 0..expected.len() {
        assert_eq!(rt; handed[i].attestation().signature[0], expected[i]);
    }
    Ok(())
}

// The first file takes 3 calls to be read, and 10 to be made. Then the journal is begun in the
// other, and 4 calls empty the first.
#[test]
fn the_first_file_fails_at_any_call(rt: HostRuntime) -> Result<(), Fail> {
    let first = [signed(notarize(1, 10), 1)];
    let second = [signed(notarize(1, 11), 2)];
    let deeds = [
        Deed::Write(&first),
        Deed::Restart(owner(b"keys")),
        Deed::Write(&second),
    ];
    for calls in 0..20 {
        let handed_out: Option<&[u8]> = if calls < 13 {
            None
        } else if calls < 17 {
            Some(&[2])
        } else {
            Some(&[1])
        };
        play_on_files(&rt, rt.alloc(), calls, 100, &deeds, handed_out)?;
    }
    Ok(())
}

// The second file takes 3 calls to be read, and 2 to be cut. Then 8 calls make it anew, with the
// journal, and 4 add a vote.
#[test]
fn the_second_file_fails_at_any_call(rt: HostRuntime) -> Result<(), Fail> {
    let first = [signed(notarize(1, 10), 1)];
    let second = [signed(notarize(1, 11), 2)];
    let deeds = [
        Deed::Write(&first),
        Deed::Restart(owner(b"keys")),
        Deed::Write(&second),
    ];
    for calls in 0..20 {
        let handed_out: Option<&[u8]> = if calls < 5 {
            None
        } else if calls < 13 {
            Some(&[])
        } else if calls < 17 {
            Some(&[2])
        } else {
            Some(&[1])
        };
        play_on_files(&rt, rt.alloc(), 100, calls, &deeds, handed_out)?;
    }
    Ok(())
}
