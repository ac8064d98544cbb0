//! Each growth refused once: the call leaves everything as it was, and the same call then
//! succeeds.
//!
//! As they are these tests refuse nothing. `tools/refuse` runs them with their first request
//! for memory refused, then their second, and so on.

use super::*;
use batcher::messages::{Activity, AttributableMap, Finalization, Notarization};
use batcher::round::OwnFault;
use batcher::run::{Call, run};
use batcher::scheme::{Sealed, Verification};
use batcher_evidence::{convicted, culprits};

// What comes of a second try, where the first was refused.
fn twice<T: Drop, E: Drop, F: Fn() -> Result<T, E>>(make: F) -> Result<T, E>
    requires { F.IsAlwaysCallable make }
{
    match make() {
        Ok(value) => Ok(value),
        Err(_) => make(),
    }
}

fn keyed_twice(alloc: Global, n: u32) -> Result<Keyed<true>, AllocError> {
    twice(|| keyed(alloc, n))
}

fn fresh_twice(
    rt: &impl Abort,
    alloc: Global,
    n: u32,
    track_historical_votes: bool,
) -> Result<(TestRound, Keyed<true>), AllocError> {
    twice(|| fresh(rt, alloc, n, track_historical_votes))
}

// Inserts an item that is new.
fn inserts_new(
    rt: &impl Abort,
    map: &mut AttributableMap<Nullify<[u8; 32]>>,
    item: Nullify<[u8; 32]>,
) -> Result<(), AllocError> {
    let before = map.len();
    let kept = match map.insert(item) {
        Ok(kept) => kept,
        Err(_) => {
            assert_eq!(rt; map.len(), before);
            assert!(rt; map.get(item.attestation.signer).is_none());
            map.insert(item)?
        }
    };
    assert!(rt; kept);
    Ok(())
}

// A map begins with room for 16 at most, so with 18 it grows once.
#[test]
fn inserts(rt: HostRuntime) -> Result<(), Fail> {
    let alloc = rt.alloc();
    let scheme = keyed_twice(alloc, 18)?;
    let mut map = AttributableMap::new(alloc, 18);
    for signer in 0..18 {
        let item = nullify(&scheme, signer, true);
        inserts_new(&rt, &mut map, item)?;
        assert!(rt;
            !map.insert(item)?,
            "an insert that answers false takes no memory"
        );
    }
    assert_eq!(rt; map.len(), 18);
    Ok(())
}

// Makes room in a map that has none, and once more where memory was refused.
fn makes_room(
    rt: &impl Abort,
    map: &mut AttributableMap<Nullify<[u8; 32]>>,
) -> Result<(), AllocError> {
    match map.make_room() {
        Ok(()) => Ok(()),
        Err(_) => {
            assert!(rt; map.is_empty());
            map.make_room()
        }
    }
}

// Inserts an item that is new, for which there is room.
fn inserts_at_once(
    rt: &impl Abort,
    map: &mut AttributableMap<Nullify<[u8; 32]>>,
    item: Nullify<[u8; 32]>,
) {
    assert_eq!(rt; map.insert(item).ok(), Some(true));
}

#[test]
fn room(rt: HostRuntime) -> Result<(), Fail> {
    let alloc = rt.alloc();
    let scheme = keyed_twice(alloc, 2)?;
    let mut map = AttributableMap::new(alloc, 2);
    makes_room(&rt, &mut map)?;
    inserts_at_once(&rt, &mut map, nullify(&scheme, 1, true));
    Ok(())
}

// What the scheme finds of a good nullify of 1, a bad one of 0 and a good one of 3.
fn finds<S: Scheme<Digest, Signature = [u8; 32]>>(
    rt: &impl Abort,
    alloc: Global,
    scheme: &S,
) -> Result<(), Fail> {
    let signers = keyed_twice(alloc, 4)?;
    let pending = [
        nullify(&signers, 1, true).attestation,
        nullify(&signers, 0, false).attestation,
        nullify(&signers, 3, true).attestation,
    ];
    let found = verified(alloc, scheme, &pending)?;
    assert_eq!(rt;
        found.verified.as_slice(),
        [pending[0], pending[2]].as_slice()
    );
    assert_eq!(rt; found.invalid.as_slice(), [Participant::new(0)].as_slice());
    Ok(())
}

fn verified<S: Scheme<Digest>>(
    alloc: Global,
    scheme: &S,
    pending: &[Attestation<S::Signature>],
) -> Result<Verification<S::Signature>, AllocError> {
    let subject = Subject::Nullify { round: number() };
    let mut rng = Counter::new(0);
    match scheme.verify_attestations(alloc, &mut rng, subject, pending) {
        Ok(found) => Ok(found),
        Err(_) => scheme.verify_attestations(alloc, &mut rng, subject, pending),
    }
}

#[test]
fn verifications(rt: HostRuntime) -> Result<(), Fail> {
    let alloc = rt.alloc();
    finds(&rt, alloc, &keyed_twice(alloc, 4)?)?;
    finds(&rt, alloc, &Sealed::new(twice(|| names(alloc, 4))?, ROOT))
}

// Brings a vote that is new, and once more where memory was refused. It comes again, and is then
// refused without memory.
fn adds(rt: &impl Abort, round: &mut TestRound, vote: SignedVote) -> Result<(), AllocError> {
    let added = match bring(rt, round, vote) {
        Ok(added) => added,
        Err(_) => bring(rt, round, vote)?,
    };
    assert!(rt; added);
    assert!(rt; !bring(rt, round, vote)?);
    Ok(())
}

// Makes an attempt, and the same once more where memory was refused.
fn constructs(
    rt: &impl Abort,
    round: &mut TestRound,
    processed: usize,
    invalid: &[Participant],
    certified: Option<Kind>,
) -> Result<(), Fail> {
    let batch = match construct(round) {
        Ok(batch) => batch,
        Err(_) => construct(round)?,
    };
    let batch = batch.ok_or("no kind was ready")?;
    assert_eq!(rt; batch.processed, processed);
    assert_eq!(rt; batch.invalid.as_slice(), invalid);
    assert_eq!(rt;
        batch.certificate.map(|certificate| certificate.kind()),
        certified
    );
    Ok(())
}

// Makes no attempt, and takes no memory.
fn constructs_nothing(rt: &impl Abort, round: &mut TestRound) -> Result<(), AllocError> {
    assert!(rt; construct(round)?.is_none());
    Ok(())
}

// The first three of seven nullifies are bad.
fn brings_bad_votes(
    rt: &impl Abort,
    round: &mut TestRound,
    scheme: &Keyed<true>,
) -> Result<(), Fail> {
    for signer in 0..7 {
        adds(
            rt,
            round,
            Vote::Nullify(nullify(scheme, signer, signer > 2)),
        )?;
        // Five votes are a quorum.
        if signer < 4 {
            constructs_nothing(rt, round)?;
        }
    }
    let invalid = [
        Participant::new(0),
        Participant::new(1),
        Participant::new(2),
    ];
    constructs(rt, round, 7, &invalid, None)?;
    constructs_nothing(rt, round)?;
    Ok(())
}

#[test]
fn bad_votes(rt: HostRuntime) -> Result<(), Fail> {
    let (mut round, scheme) = fresh_twice(&rt, rt.alloc(), 7, true)?;
    let brought = brings_bad_votes(&rt, &mut round, &scheme);
    drop((round, scheme));
    brought
}

// The leader's notarize selects its proposal. Seventeen votes of a kind follow, which are a quorum
// of 25. Lists and buffers begin with room for 16 at most, so each grows once.
fn brings_a_quorum(
    rt: &impl Abort,
    round: &mut TestRound,
    scheme: &Keyed<true>,
    kind: Kind,
    processed: usize,
) -> Result<(), Fail> {
    assert!(rt; round.set_leader(Participant::new(0)).is_ok());
    adds(rt, round, vote(scheme, Kind::Notarization, 0))?;
    for signer in 1..18 {
        adds(rt, round, vote(scheme, kind, signer))?;
    }
    constructs(rt, round, processed, &[], Some(kind))
}

fn certifies(rt: &impl Abort, alloc: Global, kind: Kind, processed: usize) -> Result<(), Fail> {
    let (mut round, scheme) = fresh_twice(rt, alloc, 25, false)?;
    let brought = brings_a_quorum(rt, &mut round, &scheme, kind, processed);
    drop((round, scheme));
    brought
}

#[test]
fn certificates(rt: HostRuntime) -> Result<(), Fail> {
    // The leader's notarize counts for a notarization too.
    for (kind, processed) in [
        (Kind::Notarization, 18),
        (Kind::Nullification, 17),
        (Kind::Finalization, 17),
    ] {
        certifies(&rt, rt.alloc(), kind, processed)?;
    }
    Ok(())
}

// Who is missing payload 1.
fn missing(round: &TestRound) -> Result<positions::Participants, AllocError> {
    round.missing_voters(&proposal(1))
}

fn brings_two_votes(
    rt: &impl Abort,
    round: &mut TestRound,
    scheme: &Keyed<true>,
) -> Result<(), AllocError> {
    adds(rt, round, vote(scheme, Kind::Notarization, 1))?;
    adds(rt, round, vote(scheme, Kind::Finalization, 2))?;
    let missing = match missing(round) {
        Ok(missing) => missing,
        Err(_) => missing(round)?,
    };
    assert_eq!(rt;
        missing.as_slice(),
        [Participant::new(0), Participant::new(3)].as_slice()
    );
    Ok(())
}

#[test]
fn missing_voters(rt: HostRuntime) -> Result<(), Fail> {
    let (mut round, scheme) = fresh_twice(&rt, rt.alloc(), 4, false)?;
    let brought = brings_two_votes(&rt, &mut round, &scheme);
    drop((round, scheme));
    Ok(brought?)
}

// A finalization for payload 2, which no one has verified.
fn finalization(alloc: Global) -> TestCertificate {
    Certificate::Finalization(Finalization {
        proposal: proposal(2),
        certificate: AttestationList::new(Vec::new(alloc)),
    })
}

// Records a certificate, and the same once more where memory was refused.
fn records(
    rt: &impl Abort,
    round: &mut TestRound,
    certificate: &TestCertificate,
) -> Result<(), AllocError> {
    if record(rt, round, certificate).is_err() {
        record(rt, round, certificate)?;
    }
    Ok(())
}

fn record(
    rt: &impl Abort,
    round: &mut TestRound,
    certificate: &TestCertificate,
) -> Result<bool, AllocError> {
    assert!(rt; round.belongs_certificate(certificate));
    round.record_certificate(certificate)
}

// The leader's notarize is for payload 1, and those of the others for payload 2. They are restored
// where a certificate fixes it.
fn replaces_a_proposal(
    rt: &impl Abort,
    round: &mut TestRound,
    scheme: &Keyed<true>,
    certificate: &TestCertificate,
) -> Result<(), Fail> {
    assert!(rt; round.set_leader(Participant::new(0)).is_ok());
    adds(rt, round, vote(scheme, Kind::Notarization, 0))?;
    for signer in 1..4 {
        adds(rt, round, notarize(scheme, signer, 2))?;
    }
    records(rt, round, certificate)?;
    constructs(rt, round, 3, &[], Some(Kind::Notarization))
}

#[test]
fn votes_are_restored(rt: HostRuntime) -> Result<(), Fail> {
    let (mut round, scheme) = fresh_twice(&rt, rt.alloc(), 4, true)?;
    let certificate = finalization(rt.alloc());
    let replaced = replaces_a_proposal(&rt, &mut round, &scheme, &certificate);
    drop((round, scheme, certificate));
    replaced
}

// Whether the round takes in a finalize of its own, and once more where memory was refused.
fn accepts(rt: &impl Abort, alloc: Global) -> Result<bool, AllocError> {
    let participants = names(alloc, 4)?;
    assert!(rt; participants.len() >= 2);
    let scheme = Keyed::<true>::new(participants, ROOT);
    let proposal = proposal(1);
    let vote = Vote::Finalize(Finalize {
        proposal,
        attestation: scheme.sign(Participant::new(1), Subject::Finalize { proposal }),
    });
    let mut round = Round::new(alloc, proposal.round, Rc::new(alloc, scheme)?, true);
    let answer = match round.accept_vote(vote) {
        Err(OwnFault::OutOfMemory) => round.accept_vote(vote),
        answer => answer,
    };
    drop(round);
    Ok(answer.is_ok())
}

#[test]
fn own_votes(rt: HostRuntime) -> Result<(), Fail> {
    let alloc = rt.alloc();
    assert!(rt; twice(|| accepts(&rt, alloc))?);
    Ok(())
}

// How many answers a run of one call has.
fn run_once(rt: &impl Abort, alloc: Global) -> Result<usize, AllocError> {
    let participants = names(alloc, 4)?;
    assert!(rt; participants.len() >= 1);
    let scheme = Rc::new(alloc, Keyed::<true>::new(participants, ROOT))?;
    let round = Round::new(alloc, number(), scheme, true);
    let ran = run(alloc, round, &mut Counter::new(0), &[Call::Construct])?;
    let answers = ran.answers.len();
    drop(ran);
    Ok(answers)
}

#[test]
fn runs(rt: HostRuntime) -> Result<(), Fail> {
    let alloc = rt.alloc();
    assert_eq!(rt; twice(|| run_once(&rt, alloc))?, 1);
    Ok(())
}

// What all of 25 notarize, for a payload of equal bytes.
fn notarized_by_all(
    alloc: Global,
    scheme: &Keyed<true>,
    byte: u8,
) -> Result<TestCertificate, AllocError> {
    let proposal = proposal(byte);
    let subject = Subject::Notarize { proposal };
    let mut attestations = Vec::new(alloc);
    for signer in 0..25 {
        attestations.push(scheme.sign(Participant::new(signer), subject))?;
    }
    Ok(Certificate::Notarization(Notarization {
        proposal,
        certificate: AttestationList::new(attestations),
    }))
}

// How many have signed both, if the two contradict each other.
fn count_culprits(
    alloc: Global,
    scheme: &Keyed<true>,
    a: &TestCertificate,
    b: &TestCertificate,
) -> Result<Option<usize>, AllocError> {
    Ok(culprits(alloc, scheme, a, b)?.map(|found| found.len()))
}

// All 25 are named, so that the list grows more than once. Where nobody is, no memory is taken.
#[test]
fn all_culprits(rt: HostRuntime) -> Result<(), Fail> {
    let alloc = rt.alloc();
    let scheme = keyed_twice(alloc, 25)?;
    let one = twice(|| notarized_by_all(alloc, &scheme, 1))?;
    let other = twice(|| notarized_by_all(alloc, &scheme, 2))?;
    assert_eq!(rt; count_culprits(alloc, &scheme, &one, &one)?, None);
    assert_eq!(rt;
        twice(|| count_culprits(alloc, &scheme, &one, &other))?,
        Some(25)
    );
    Ok(())
}

// Whom a report convicts.
fn convicts(
    alloc: Global,
    scheme: &Keyed<true>,
    report: &Activity<[u8; 32], Digest>,
) -> Result<Option<u32>, AllocError> {
    let found = convicted(alloc, scheme, &mut Counter::new(0), report)?;
    Ok(found.map(|participant| participant.get()))
}

// Two notarizes of one signer for the payloads 1 and 2.
fn conflict(scheme: &Keyed<true>, signer: u32) -> Option<Activity<[u8; 32], Digest>> {
    let (Vote::Notarize(a), Vote::Notarize(b)) = (
        notarize(scheme, signer, 1),
        notarize(scheme, signer, 2),
    ) else {
        return None;
    };
    Some(Activity::ConflictingNotarize(a, b))
}

#[test]
fn convictions(rt: HostRuntime) -> Result<(), Fail> {
    let alloc = rt.alloc();
    let scheme = keyed_twice(alloc, 4)?;
    let report = conflict(&scheme, 1).ok_or("a notarize is another vote")?;
    assert_eq!(rt; twice(|| convicts(alloc, &scheme, &report))?, Some(1));
    Ok(())
}
