//! Histories in which a careless node or caller goes wrong, with what they come to by hand.

use super::*;

// What is sent of a vote, and of a second one in its place: the second isn't.
fn sends_the_first(
    rt: &impl Abort,
    station: &mut Station,
    first: Subject<Digest>,
    second: Subject<Digest>,
) -> Result<(), Fail> {
    let sent = station.cast(rt, first, 0)?;
    assert_eq!(rt; sent, Some(vote(ME, first, 0)));
    assert_eq!(rt; station.cast(rt, second, 1)?, None);
    Ok(())
}

// A peer that retains votes takes the first in, and would block whoever sent the second too.
fn peer_tells_apart(
    rt: &impl Abort,
    peer: &mut Station,
    first: Subject<Digest>,
    second: Subject<Digest>,
    reason: BlockReason,
) -> Result<(), Fail> {
    peer.adds_vote(rt, ME, vote(ME, first, 0))?;
    assert_eq!(rt; peer.cause_against(ME), None);
    peer.blocks(rt, ME, vote(ME, second, 1), reason)?;
    Ok(())
}

// In a view that was passed over no vote is kept that a second could be compared with.
fn casts_in_a_skipped_view(rt: &impl Abort, station: &mut Station) -> Result<(), Fail> {
    station.enter(rt, 2, 2)?;
    sends_the_first(rt, station, notarize(1, 1), notarize(1, 2))
}

#[test]
fn second_notarize_in_a_skipped_view(rt: HostRuntime) -> Result<(), Fail> {
    let mut station = Station::new(&rt, rt.alloc(), true)?;
    let cast = casts_in_a_skipped_view(&rt, &mut station);
    drop(station);
    cast?;
    let mut peer = Station::new(&rt, rt.alloc(), true)?;
    let reason = BlockReason::ConflictingNotarize;
    let view_history = peer_tells_apart(&rt, &mut peer, notarize(1, 1), notarize(1, 2), reason);
    drop(peer);
    view_history
}

// The notarization for a third proposal releases the first vote. Neither is for the one that is
// selected then.
fn casts_after_a_release(rt: &impl Abort, station: &mut Station) -> Result<(), Fail> {
    let sent = station.cast(rt, notarize(1, 1), 0)?;
    assert_eq!(rt; sent, Some(vote(ME, notarize(1, 1), 0)));
    let learned = station.learn(rt, 0, &certificate(notarize(1, 3), 3))?;
    assert_eq!(rt; learned, Receipt::Answered(Verdict::Recorded(true)));
    assert_eq!(rt; station.cast(rt, notarize(1, 2), 1)?, None);
    Ok(())
}

#[test]
fn second_notarize_after_a_release(rt: HostRuntime) -> Result<(), Fail> {
    let mut station = Station::new(&rt, rt.alloc(), false)?;
    let cast = casts_after_a_release(&rt, &mut station);
    drop(station);
    cast
}

#[test]
fn nullify_signed_anew(rt: HostRuntime) -> Result<(), Fail> {
    let mut station = Station::new(&rt, rt.alloc(), true)?;
    let cast = sends_the_first(&rt, &mut station, nullify(1), nullify(1));
    drop(station);
    cast?;
    let mut peer = Station::new(&rt, rt.alloc(), true)?;
    let reason = BlockReason::ConflictingNullify;
    let view_history = peer_tells_apart(&rt, &mut peer, nullify(1), nullify(1), reason);
    drop(peer);
    view_history
}

// Two good notarizes and a bad one come, and nullifies of others. The leader's notarize is among
// them, so that they are tried when it is named.
fn constructs_two_kinds(rt: &impl Abort, station: &mut Station) -> Result<(), Fail> {
    station.adds(rt, 1, notarize(1, 1))?;
    station.adds_vote(rt, 2, bad_vote(2, notarize(1, 1)))?;
    for peer in [0, 1, 3] {
        station.adds(rt, peer, nullify(1))?;
    }
    station.adds(rt, 0, notarize(1, 1))?;
    station.enter(rt, 1, 0)?;
    // A batch without a certificate isn't the last.
    station.finds_bad(rt, 1, 3, 2)?;
    station.certifies(rt, 1, nullify(1), 3)?;
    station.gives_none(rt, 1)?;
    station.rests(rt)?;
    Ok(())
}

#[test]
fn nullification_behind_a_bad_notarize(rt: HostRuntime) -> Result<(), Fail> {
    let mut station = Station::new(&rt, rt.alloc(), true)?;
    let constructed = constructs_two_kinds(&rt, &mut station);
    drop(station);
    constructed
}

// A quorum notarizes before the leader is named, so that no proposal is selected.
fn names_the_leader_late(rt: &impl Abort, station: &mut Station) -> Result<(), Fail> {
    for peer in [0, 1, 2] {
        station.adds(rt, peer, notarize(1, 1))?;
    }
    station.gives_none(rt, 1)?;
    station.rests(rt)?;
    station.enter(rt, 1, 0)?;
    station.certifies(rt, 1, notarize(1, 1), 3)?;
    station.gives_none(rt, 1)?;
    station.rests(rt)?;
    Ok(())
}

#[test]
fn quorum_before_the_leader_is_named(rt: HostRuntime) -> Result<(), Fail> {
    let mut station = Station::new(&rt, rt.alloc(), true)?;
    let constructed = names_the_leader_late(&rt, &mut station);
    drop(station);
    constructed
}

// A batch of notarizes is due before the one of nullifies, of which the last vote makes a quorum.
// Who stops at a batch without a certificate loses the nullification.
fn constructs_after_a_nullify(rt: &impl Abort, station: &mut Station) -> Result<(), Fail> {
    station.adds(rt, 1, notarize(1, 1))?;
    station.adds_vote(rt, 2, bad_vote(2, notarize(1, 1)))?;
    for peer in [0, 1] {
        station.adds(rt, peer, nullify(1))?;
    }
    station.gives_none(rt, 1)?;
    station.adds(rt, 0, notarize(1, 1))?;
    station.enter(rt, 1, 0)?;
    station.adds(rt, 3, nullify(1))?;
    station.finds_bad(rt, 1, 3, 2)?;
    station.certifies(rt, 1, nullify(1), 3)?;
    station.gives_none(rt, 1)?;
    station.rests(rt)?;
    Ok(())
}

#[test]
fn nullification_after_a_batch_without_a_certificate(rt: HostRuntime) -> Result<(), Fail> {
    let mut station = Station::new(&rt, rt.alloc(), true)?;
    let constructed = constructs_after_a_nullify(&rt, &mut station);
    drop(station);
    constructed
}
