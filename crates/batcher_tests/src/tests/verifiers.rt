//! Worked examples of a verifier by itself, with their values typed from outside.

use super::*;
use batcher::verifier::{LeaderFault, Verifier};

type TestVerifier = Verifier<Keyed<true>, Digest>;

// A verifier over five names, and the scheme by which they sign.
fn verifier_of_five(
    rt: &impl Abort,
    alloc: Global,
) -> Result<(TestVerifier, Keyed<true>), AllocError> {
    let signing = keyed(alloc, 5)?;
    let participants = names(alloc, 5)?;
    assert!(rt; participants.len() == 5);
    let scheme = Rc::new(alloc, Keyed::new(participants, ROOT))?;
    Ok((Verifier::new(alloc, number(), scheme, 4), signing))
}

// Takes in a vote of which none is buffered.
fn wait<S: Scheme<Digest>>(
    rt: &impl Abort,
    verifier: &mut Verifier<S, Digest>,
    vote: Vote<S::Signature, Digest>,
) -> Result<(), AllocError> {
    assert!(rt; !verifier.buffered(vote.kind(), vote.signer()));
    if let Vote::Nullify(nullify) = &vote {
        assert!(rt; verifier.round() == nullify.round);
    }
    verifier.add(vote, false)
}

// What came of an attempt: how many votes were looked at, whether a certificate was made, and
// whether votes were verified one by one after the scheme gave none.
fn told<C: Drop>(batch: &Batch<C>) -> (usize, bool, bool) {
    (batch.processed, batch.certificate.is_some(), batch.fallback)
}

fn notarizes(
    rt: &impl Abort,
    verifier: &mut TestVerifier,
    answer: (usize, bool, bool),
    invalid: &[Participant],
) -> Result<(), Fail> {
    let batch = verifier.try_construct_notarization(&mut Counter::new(0))?;
    let batch = batch.ok_or("the kind was not ready")?;
    assert_eq!(rt; told(&batch), answer);
    assert_eq!(rt; batch.invalid.as_slice(), invalid);
    Ok(())
}

fn nullifies<S: Scheme<Digest>>(
    rt: &impl Abort,
    verifier: &mut Verifier<S, Digest>,
    answer: (usize, bool, bool),
    invalid: &[Participant],
) -> Result<(), Fail> {
    let batch = verifier.try_construct_nullification(&mut Counter::new(0))?;
    let batch = batch.ok_or("the kind was not ready")?;
    assert_eq!(rt; told(&batch), answer);
    assert_eq!(rt; batch.invalid.as_slice(), invalid);
    Ok(())
}

// Sets leader 0, whose notarize of payload 1 waits too, and brings those of 2 and 3.
fn leads(
    rt: &impl Abort,
    verifier: &mut TestVerifier,
    scheme: &Keyed<true>,
) -> Result<(), AllocError> {
    assert!(rt; verifier.set_leader(Participant::new(0), None).is_ok());
    for signer in [0, 2, 3] {
        wait(rt, verifier, notarize(scheme, signer, 1))?;
    }
    Ok(())
}

fn certifies_four_notarizes(
    rt: &impl Abort,
    verifier: &mut TestVerifier,
    scheme: &Keyed<true>,
) -> Result<(), Fail> {
    leads(rt, verifier, scheme)?;
    wait(rt, verifier, notarize(scheme, 1, 1))?;
    notarizes(rt, verifier, (4, true, false), &[])?;
    assert!(rt; verifier.has_certificate(Kind::Notarization));
    assert_eq!(rt; verifier.lengths(Kind::Notarization), (0, 0));
    Ok(())
}

#[test]
fn a_quorum_of_notarizes_is_enough(rt: HostRuntime) -> Result<(), Fail> {
    let (mut verifier, scheme) = verifier_of_five(&rt, rt.alloc())?;
    let done = certifies_four_notarizes(&rt, &mut verifier, &scheme);
    drop((verifier, scheme));
    done
}

// The notarize of signer 1 in the name of 15.
fn renumbered(scheme: &Keyed<true>) -> SignedVote {
    let proposal = proposal(1);
    let subject = Subject::Notarize { proposal };
    let mut attestation = scheme.sign(Participant::new(1), subject);
    attestation.signer = Participant::new(15);
    Vote::Notarize(Notarize {
        proposal,
        attestation,
    })
}

fn finds_a_signer_out_of_range(
    rt: &impl Abort,
    verifier: &mut TestVerifier,
    scheme: &Keyed<true>,
) -> Result<(), Fail> {
    leads(rt, verifier, scheme)?;
    wait(rt, verifier, renumbered(scheme))?;
    notarizes(rt, verifier, (4, false, true), &[Participant::new(15)])?;
    assert_eq!(rt; verifier.lengths(Kind::Notarization), (0, 3));
    Ok(())
}

#[test]
fn a_signer_out_of_range_is_invalid(rt: HostRuntime) -> Result<(), Fail> {
    let (mut verifier, scheme) = verifier_of_five(&rt, rt.alloc())?;
    let done = finds_a_signer_out_of_range(&rt, &mut verifier, &scheme);
    drop((verifier, scheme));
    done
}

// The nullify of signer 3 that was signed for view 2.
fn of_another_view(scheme: &Keyed<true>) -> SignedVote {
    let round = positions::Round::new(Epoch::new(0), View::new(2));
    Vote::Nullify(Nullify {
        round: number(),
        attestation: scheme.sign(Participant::new(3), Subject::Nullify { round }),
    })
}

fn finds_another_view(
    rt: &impl Abort,
    verifier: &mut TestVerifier,
    scheme: &Keyed<true>,
) -> Result<(), Fail> {
    for signer in 0..3 {
        wait(rt, verifier, Vote::Nullify(nullify(scheme, signer, true)))?;
    }
    wait(rt, verifier, of_another_view(scheme))?;
    nullifies(rt, verifier, (4, false, true), &[Participant::new(3)])?;
    wait(rt, verifier, Vote::Nullify(nullify(scheme, 4, true)))?;
    nullifies(rt, verifier, (1, true, false), &[])
}

#[test]
fn a_vote_for_another_view_is_invalid(rt: HostRuntime) -> Result<(), Fail> {
    let (mut verifier, scheme) = verifier_of_five(&rt, rt.alloc())?;
    let done = finds_another_view(&rt, &mut verifier, &scheme);
    drop((verifier, scheme));
    done
}

fn verifies_at_once(
    rt: &impl Abort,
    verifier: &mut Verifier<Keyed<false>, Digest>,
    vote: SignedVote,
) -> Result<(), Fail> {
    wait(rt, verifier, vote)?;
    nullifies(rt, verifier, (1, false, false), &[])?;
    assert_eq!(rt; verifier.lengths(Kind::Nullification), (0, 1));
    Ok(())
}

#[test]
fn without_batches_each_vote_is_verified(rt: HostRuntime) -> Result<(), Fail> {
    let alloc = rt.alloc();
    let vote = Vote::Nullify(nullify(&keyed(alloc, 5)?, 0, true));
    let participants = names(alloc, 5)?;
    assert!(rt; participants.len() == 5);
    let scheme = Rc::new(alloc, Keyed::<false>::new(participants, ROOT))?;
    let mut verifier = Verifier::new(alloc, number(), scheme, 4);
    let done = verifies_at_once(&rt, &mut verifier, vote);
    drop(verifier);
    done
}

// The notarize of a signer for payload 1, apart from a vote.
fn signed_notarize(scheme: &Keyed<true>, signer: u32) -> Notarize<[u8; 32], Digest> {
    let proposal = proposal(1);
    Notarize {
        proposal,
        attestation: scheme.sign(Participant::new(signer), Subject::Notarize { proposal }),
    }
}

fn eligible_for_its_leader(
    rt: &impl Abort,
    verifier: &mut TestVerifier,
    scheme: &Keyed<true>,
) -> Result<(), Fail> {
    for signer in 0..4 {
        wait(rt, verifier, notarize(scheme, signer, 1))?;
    }
    let early = verifier.try_construct_notarization(&mut Counter::new(0))?;
    assert!(rt; early.is_none());
    assert_eq!(rt; verifier.lengths(Kind::Notarization), (4, 0));
    let leaders = signed_notarize(scheme, 0);
    let answer = verifier.set_leader(Participant::new(0), Some(&leaders));
    assert!(rt; answer.is_ok());
    notarizes(rt, verifier, (4, true, false), &[])
}

#[test]
fn the_leaders_vote_makes_the_others_count(rt: HostRuntime) -> Result<(), Fail> {
    let (mut verifier, scheme) = verifier_of_five(&rt, rt.alloc())?;
    let done = eligible_for_its_leader(&rt, &mut verifier, &scheme);
    drop((verifier, scheme));
    done
}

fn takes_a_leaders_own_notarize(
    rt: &impl Abort,
    verifier: &mut TestVerifier,
    scheme: &Keyed<true>,
) -> Result<(), Fail> {
    let other = signed_notarize(scheme, 1);
    let answer = verifier.set_leader(Participant::new(0), Some(&other));
    assert_eq!(rt; answer, Err(LeaderFault::NotFromLeader));
    assert_eq!(rt; verifier.leader(), None);
    Ok(())
}

#[test]
fn a_leader_has_its_own_notarize(rt: HostRuntime) -> Result<(), Fail> {
    let (mut verifier, scheme) = verifier_of_five(&rt, rt.alloc())?;
    let done = takes_a_leaders_own_notarize(&rt, &mut verifier, &scheme);
    drop((verifier, scheme));
    done
}
