//! Worked examples, with their values typed from outside.

use super::*;
use batcher::messages::{Attributable, AttributableMap};
use batcher::positions::{Participants, SetFault, quorum};
use batcher::round::{Admission, BlockReason};
use batcher::run::{Answer, Call, blocked, run};
use batcher::verifier::LeaderFault;
use std::fmt::Display;

#[test]
fn quorums_leave_out_less_than_a_third(rt: HostRuntime) {
    for (n, want) in [
        (1, 1),
        (2, 2),
        (3, 3),
        (4, 3),
        (5, 4),
        (7, 5),
        (10, 7),
        (100, 67),
    ] {
        assert_eq!(rt; quorum(n), want, "of {n}");
    }
    assert_eq!(rt; quorum(4294967295), 2863311531);
}

#[test]
fn sets_are_ordered_and_hold_no_key_twice(rt: HostRuntime) -> Result<(), Fail> {
    let alloc = rt.alloc();
    let twice = vec![in alloc; Name(5), Name(2), Name(5)]?;
    assert!(rt; matches!(Set::new(twice), Err(SetFault::Duplicate)));
    let set = Set::new(vec![in alloc; Name(5), Name(2)]?)?;
    assert_eq!(rt; set.len(), 2);
    assert_eq!(rt; set.index(&Name(5)), Some(Participant::new(1)));
    assert_eq!(rt; set.index(&Name(4)), None);
    assert_eq!(rt; set.key(Participant::new(0)).copied(), Some(Name(2)));
    assert_eq!(rt; set.key(Participant::new(2)).copied(), None);
    Ok(())
}

fn keeps_the_first_items(
    rt: &impl Abort,
    alloc: Global,
    map: &mut AttributableMap<Nullify<[u8; 32]>>,
    scheme: &Keyed<true>,
) -> Result<(), Fail> {
    assert!(rt; map.is_empty());
    let first = nullify(scheme, 1, true);
    assert!(rt; map.insert(nullify(scheme, 3, true))?);
    assert!(rt; map.insert(first)?);
    assert!(rt; map.insert(nullify(scheme, 4, true))?);
    assert!(rt; !map.insert(nullify(scheme, 1, false))?);
    assert!(rt; !map.insert(nullify(scheme, 5, true))?);
    assert_eq!(rt; map.len(), 3);
    assert_eq!(rt; map.get(Participant::new(1)).copied(), Some(first));
    let mut signers = Vec::new(alloc);
    for item in map.iter() {
        signers.push(item.signer().get())?;
    }
    assert_eq!(rt; signers.as_slice(), [1, 3, 4].as_slice());
    let second = nullify(scheme, 3, false);
    assert_eq!(rt; map.replace(second), Some(nullify(scheme, 3, true)));
    assert_eq!(rt; map.replace(nullify(scheme, 0, true)), None);
    assert_eq!(rt; map.at(1).copied(), Some(second));
    assert_eq!(rt; map.at(3).copied(), None);
    Ok(())
}

#[test]
fn maps_keep_the_first_item_of_each_signer(rt: HostRuntime) -> Result<(), Fail> {
    let scheme = keyed(rt.alloc(), 6)?;
    let mut map = AttributableMap::new(rt.alloc(), 5);
    let kept = keeps_the_first_items(&rt, rt.alloc(), &mut map, &scheme);
    drop((map, scheme));
    kept
}

// Whether 1's nullify is kept in full, a nullification is there, and 1 misses payload 1.
fn told(round: &TestRound) -> [bool; 3] {
    [
        round.has_nullify(Participant::new(1)),
        round.has_certificate(Kind::Nullification),
        round.is_missing_voter(&proposal(1), Participant::new(1)),
    ]
}

fn belongs(round: &TestRound, certificate: &TestCertificate) -> bool {
    round.belongs_certificate(certificate)
}

// Brings nullifies up to a nullification, and then a notarize.
fn tells(rt: &impl Abort, round: &mut TestRound, scheme: &Keyed<true>) -> Result<(), Fail> {
    assert_eq!(rt; told(round), [false, false, true]);
    for signer in 1..4 {
        assert!(rt; bring(rt, round, vote(scheme, Kind::Nullification, signer))?);
    }
    assert_eq!(rt; told(round), [true, false, true]);
    let batch = construct(round)?.ok_or("no kind was ready")?;
    let certificate = batch.certificate.ok_or("no certificate")?;
    assert!(rt; belongs(round, &certificate));
    // The nullification releases the nullifies.
    assert_eq!(rt; told(round), [false, true, true]);
    assert!(rt; bring(rt, round, vote(scheme, Kind::Notarization, 1))?);
    assert_eq!(rt; told(round), [false, true, false]);
    Ok(())
}

#[test]
fn rounds_tell_what_they_have(rt: HostRuntime) -> Result<(), Fail> {
    let (mut round, scheme) = fresh(&rt, rt.alloc(), 4, false)?;
    let told = tells(&rt, &mut round, &scheme);
    drop((round, scheme));
    told
}

// What a run over no calls leaves of a fresh round, and how many answers it gives.
fn run_nothing(rt: &impl Abort, alloc: Global) -> Result<(TestRound, usize), AllocError> {
    let participants = names(alloc, 4)?;
    assert!(rt; participants.len() >= 1);
    let scheme = Rc::new(alloc, Keyed::new(participants, ROOT))?;
    let round = Round::new(alloc, number(), scheme, true);
    let ran = run(alloc, round, &mut Counter::new(0), &[])?;
    Ok((ran.round, ran.answers.len()))
}

fn goes_on(rt: &impl Abort, alloc: Global, round: &mut TestRound) -> Result<(), AllocError> {
    assert_eq!(rt; told(round), [false, false, true]);
    let vote = vote_of_four(alloc, Kind::Nullification, 1)?;
    assert!(rt; bring(rt, round, vote)?);
    Ok(())
}

// The vote of a kind by a signer among four.
fn vote_of_four(alloc: Global, kind: Kind, signer: u32) -> Result<SignedVote, AllocError> {
    Ok(vote(&keyed(alloc, 4)?, kind, signer))
}

#[test]
fn a_run_over_no_calls_changes_nothing(rt: HostRuntime) -> Result<(), Fail> {
    let (mut round, answers) = run_nothing(&rt, rt.alloc())?;
    assert_eq!(rt; answers, 0);
    let went_on = goes_on(&rt, rt.alloc(), &mut round);
    drop(round);
    Ok(went_on?)
}

// Whether votes of each kind belong to the round, with this proposal or its round number.
fn belong(
    round: &TestRound,
    proposal: Proposal<Digest>,
    attestation: Attestation<[u8; 32]>,
) -> [bool; 3] {
    let number = proposal.round;
    [
        round.belongs(&Vote::Notarize(Notarize {
            proposal,
            attestation,
        })),
        round.belongs(&Vote::Nullify(Nullify {
            round: number,
            attestation,
        })),
        round.belongs(&Vote::Finalize(Finalize {
            proposal,
            attestation,
        })),
    ]
}

#[test]
fn blocked_senders_are_listed_once(rt: HostRuntime) -> Result<(), Fail> {
    let alloc = rt.alloc();
    let scheme = keyed(alloc, 4)?;
    let vote = Vote::Nullify(nullify(&scheme, 1, true));
    let answer = |block| Answer::Network(Admission {
        added: false,
        block,
        report: None,
    });
    let calls: [Call<Name, [u8; 32], (), Digest>; 4] = [
        Call::Network(Name(3), vote),
        Call::Network(Name(1), vote),
        Call::Network(Name(2), vote),
        Call::Network(Name(3), vote),
    ];
    let answers = [
        answer(Some(BlockReason::NullifySignerMismatch)),
        answer(None),
        answer(Some(BlockReason::ConflictingNullify)),
        answer(Some(BlockReason::InvalidSignature)),
    ];
    let senders = blocked(alloc, &calls, &answers)?;
    assert_eq!(rt; senders.as_slice(), [Name(2), Name(3)].as_slice());
    Ok(())
}

fn belongs_by_its_round(rt: &impl Abort, round: &TestRound, scheme: &Keyed<true>) {
    let attestation = nullify(scheme, 0, true).attestation;
    let later = Proposal::new(number(), View::new(9), Sha256Digest([1; 32]));
    let other = Proposal {
        round: positions::Round::new(Epoch::new(1), View::new(1)),
        ..later
    };
    assert_eq!(rt; belong(round, later, attestation), [true; 3]);
    assert_eq!(rt; belong(round, other, attestation), [false; 3]);
}

#[test]
fn votes_belong_by_their_round_alone(rt: HostRuntime) -> Result<(), Fail> {
    let (round, scheme) = fresh(&rt, rt.alloc(), 4, true)?;
    belongs_by_its_round(&rt, &round, &scheme);
    drop((round, scheme));
    Ok(())
}

fn reads<T: Display + Drop>(
    rt: &impl Abort,
    alloc: Global,
    value: T,
    text: &str,
) -> Result<(), Fail> {
    assert_eq!(rt; format!(in alloc; "{value}")?.as_str(), text);
    Ok(())
}

#[test]
fn reasons_have_the_texts_of_the_original(rt: HostRuntime) -> Result<(), Fail> {
    for (reason, text) in [
        (BlockReason::UnknownParticipant, "unknown participant"),
        (
            BlockReason::NotarizeSignerMismatch,
            "notarize signer mismatch",
        ),
        (
            BlockReason::NullifySignerMismatch,
            "nullify signer mismatch",
        ),
        (
            BlockReason::FinalizeSignerMismatch,
            "finalize signer mismatch",
        ),
        (BlockReason::ConflictingNotarize, "conflicting notarize"),
        (BlockReason::ConflictingNullify, "conflicting nullify"),
        (BlockReason::ConflictingFinalize, "conflicting finalize"),
        (BlockReason::InvalidSignature, "invalid signature"),
        (BlockReason::NullifyAfterFinalize, "nullify after finalize"),
        (BlockReason::FinalizeAfterNullify, "finalize after nullify"),
    ] {
        reads(&rt, rt.alloc(), reason, text)?;
    }
    Ok(())
}

#[test]
fn faults_have_texts(rt: HostRuntime) -> Result<(), Fail> {
    let alloc = rt.alloc();
    let changed = LeaderFault::LeaderChanged;
    reads(&rt, alloc, changed, "leader changed within round")?;
    let other = LeaderFault::NotFromLeader;
    reads(&rt, alloc, other, "notarize must be from leader")?;
    reads(&rt, alloc, SetFault::Duplicate, "duplicate key")?;
    reads(&rt, alloc, SetFault::TooMany, "too many keys")
}

#[test]
fn numbers_kinds_and_digests_have_texts(rt: HostRuntime) -> Result<(), Fail> {
    let alloc = rt.alloc();
    reads(&rt, alloc, Epoch::new(7), "7")?;
    reads(&rt, alloc, View::new(12), "12")?;
    reads(&rt, alloc, Participant::new(3), "3")?;
    reads(&rt, alloc, number(), "0 1")?;
    reads(&rt, alloc, Kind::Notarization, "notarization")?;
    reads(&rt, alloc, Kind::Nullification, "nullification")?;
    reads(&rt, alloc, Kind::Finalization, "finalization")?;
    let mut bytes = [0; 32];
    bytes[0] = 0xab;
    bytes[31] = 5;
    let text = "ab00000000000000000000000000000000000000000000000000000000000005";
    reads(&rt, alloc, Sha256Digest(bytes), text)
}

#[test]
fn lists_of_participants_are_compared_and_walked(rt: HostRuntime) -> Result<(), Fail> {
    let alloc = rt.alloc();
    let [one, two] = [Participant::new(1), Participant::new(2)];
    let list = Participants::from(vec![in alloc; one, two]?);
    assert!(rt; list == list.clone()?);
    assert!(rt; list != Participants::from(vec![in alloc; one]?));
    let mut last = None;
    for participant in list.iter() {
        last = Some(*participant);
    }
    assert_eq!(rt; last, Some(two));
    assert!(rt; !list.is_empty());
    assert_eq!(rt; list.len(), 2);
    Ok(())
}
