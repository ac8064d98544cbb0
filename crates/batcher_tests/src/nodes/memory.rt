//! Each request for memory of a node's calls refused once: the node is as it was, and the same call
//! then goes well.
//!
//! As they are these tests refuse nothing. `tools/refuse` runs them with their first request
//! for memory refused, then their second, and so on. `Station` makes each call once more where
//! it was refused.

use super::*;
use batcher::scheme::{AttestationList, Keyed};

// A vote that is certified by a batch, after one that names who signs badly.
fn votes(rt: &impl Abort, station: &mut Station) -> Result<(), Fail> {
    station.enter(rt, 1, 0)?;
    station.adds(rt, 0, notarize(1, 1))?;
    station.adds_vote(rt, 1, bad_vote(1, notarize(1, 1)))?;
    let sent = station.cast(rt, notarize(1, 1), 0)?;
    assert_eq!(rt; sent, Some(vote(ME, notarize(1, 1), 0)));
    // The own vote isn't verified.
    station.finds_bad(rt, 1, 2, 1)?;
    station.gives_none(rt, 1)?;
    station.adds(rt, 2, notarize(1, 1))?;
    station.certifies(rt, 1, notarize(1, 1), 1)?;
    station.gives_none(rt, 1)?;
    station.rests(rt)?;
    Ok(())
}

// Each call is the first of its view.
fn rounds(rt: &impl Abort, station: &mut Station) -> Result<(), Fail> {
    station.enter(rt, 1, 0)?;
    station.adds(rt, 0, nullify(2))?;
    assert!(rt; station.cast(rt, nullify(3), 0)?.is_some());
    station.enter(rt, 4, 0)?;
    let learned = station.learn(rt, 0, &certificate(nullify(5), 3))?;
    assert_eq!(rt; learned, Receipt::Answered(Verdict::Recorded(false)));
    assert_eq!(rt; station.node.rounds_kept(), 5);
    Ok(())
}

// The leader's notarize is for another proposal than those of the others, which are restored.
fn restored_votes(rt: &impl Abort, station: &mut Station) -> Result<(), Fail> {
    station.enter(rt, 1, 0)?;
    station.adds(rt, 0, notarize(1, 1))?;
    for peer in 1..4 {
        station.adds(rt, peer, notarize(1, 2))?;
    }
    let learned = station.learn(rt, 0, &certificate(finalize(1, 2), 3))?;
    assert_eq!(rt; learned, Receipt::Answered(Verdict::Recorded(false)));
    station.certifies(rt, 1, notarize(1, 2), 3)
}

// No memory is needed for what is no good, so these calls go well at once.
fn refusals(rt: &impl Abort, station: &mut Station) -> Result<(), Fail> {
    let forged = certificate(nullify(1), 2);
    let first = station.node.receive_certificate(Name(0), &forged)?;
    assert_eq!(rt; first, Receipt::Answered(Verdict::Forged));
    assert_eq!(rt; station.cause_against(0), Some(Cause::Certificate));
    let again = station.node.receive_certificate(Name(0), &forged)?;
    assert_eq!(rt; again, Receipt::Dropped);
    let dropped = station.node.receive_vote(Name(0), vote(0, nullify(1), 0))?;
    assert_eq!(rt; dropped, Receipt::Dropped);
    let outside = station.node.receive_vote(Name(1), vote(1, nullify(9), 0))?;
    assert_eq!(rt; outside, Receipt::Outside);
    let unknown = station.node.receive_vote(Name(9), vote(1, nullify(1), 0))?;
    assert_eq!(rt; unknown, Receipt::Unknown);
    assert_eq!(rt; station.node.rounds_kept(), 0);
    Ok(())
}

#[test]
fn votes_of_a_node(rt: HostRuntime) -> Result<(), Fail> {
    let mut station = Station::new(&rt, rt.alloc(), true)?;
    let played = votes(&rt, &mut station);
    drop(station);
    played
}

#[test]
fn rounds_of_a_node(rt: HostRuntime) -> Result<(), Fail> {
    let mut station = Station::new(&rt, rt.alloc(), true)?;
    let played = rounds(&rt, &mut station);
    drop(station);
    played
}

#[test]
fn restored_votes_of_a_node(rt: HostRuntime) -> Result<(), Fail> {
    let mut station = Station::new(&rt, rt.alloc(), true)?;
    let played = restored_votes(&rt, &mut station);
    drop(station);
    played
}

#[test]
fn refusals_of_a_node(rt: HostRuntime) -> Result<(), Fail> {
    let mut station = Station::new(&rt, rt.alloc(), true)?;
    let played = refusals(&rt, &mut station);
    drop(station);
    played
}

type KeyedNode = Node<Keyed<true>, Digest>;

type KeyedConstruction = Construction<AttestationList, Digest>;

fn keyed_node(rt: &impl Abort, alloc: Global) -> Result<KeyedNode, AllocError> {
    let participants = names(alloc, PARTICIPANTS)?;
    assert!(rt; participants.len() >= 1);
    let scheme = Rc::new(alloc, Keyed::new(participants, [0; 32]))?;
    Node::new(alloc, EPOCH, scheme, View(0), AHEAD, true)
}

fn keyed_node_twice(rt: &impl Abort, alloc: Global) -> Result<KeyedNode, AllocError> {
    match keyed_node(rt, alloc) {
        Ok(node) => Ok(node),
        Err(_) => keyed_node(rt, alloc),
    }
}

fn keyed_scheme(alloc: Global) -> Result<Keyed<true>, AllocError> {
    Ok(Keyed::new(names(alloc, PARTICIPANTS)?, [0; 32]))
}

fn keyed_scheme_twice(alloc: Global) -> Result<Keyed<true>, AllocError> {
    match keyed_scheme(alloc) {
        Ok(scheme) => Ok(scheme),
        Err(_) => keyed_scheme(alloc),
    }
}

fn hear_keyed(node: &mut KeyedNode, scheme: &Keyed<true>, signer: u32) -> Result<(), AllocError> {
    let subject = nullify(1);
    let vote = Vote::new(subject, scheme.sign(Participant::new(signer), subject));
    let peer = Name(u64::from(signer));
    if node.receive_vote(peer, vote).is_err() {
        node.receive_vote(peer, vote)?;
    }
    Ok(())
}

fn construct_keyed(node: &mut KeyedNode) -> Result<Option<KeyedConstruction>, AllocError> {
    match node.try_construct(&mut Counter::new(0)) {
        Ok(made) => Ok(made),
        Err(_) => node.try_construct(&mut Counter::new(0)),
    }
}

// A certificate that lists its attestations takes memory.
fn listed(rt: &impl Abort, node: &mut KeyedNode, scheme: &Keyed<true>) -> Result<(), Fail> {
    for signer in 0..3 {
        hear_keyed(node, scheme, signer)?;
    }
    let made = construct_keyed(node)?.ok_or("all views rest")?;
    let batch = made.batch.ok_or("no kind is ready")?;
    let certificate = batch.certificate.ok_or("no certificate")?;
    assert_eq!(rt; certificate.kind(), Kind::Nullification);
    assert_eq!(rt; certificate.content().attestations().len(), 3);
    Ok(())
}

#[test]
fn listed_certificates_of_a_node(rt: HostRuntime) -> Result<(), Fail> {
    let scheme = keyed_scheme_twice(rt.alloc())?;
    let mut node = keyed_node_twice(&rt, rt.alloc())?;
    let played = listed(&rt, &mut node, &scheme);
    drop((node, scheme));
    played
}
