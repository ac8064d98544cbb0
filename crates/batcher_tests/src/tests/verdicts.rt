//! Rounds whose votes are verified elsewhere: they lend what they want verdicts on, and are handed
//! them, or a certificate of all together.

ghost use Rattle.std.specs.Prelude.{◌≡◌};

use super::*;
use batcher::messages::Identical;
use batcher_example::verdicts_on;

// What a round lent: what the next construction is about, and the attestations that it looks at.
#[derive(Drop)]
struct Wanted<G> {
    subject: Subject<Digest>,
    list: Vec<Attestation<G>>,
}

// What the round wants verdicts on, copied as for another thread.
fn next_wanted<S: Scheme<Digest>>(
    alloc: Global,
    round: &Round<S, Digest>,
) -> Result<Option<Wanted<S::Signature>>, AllocError> {
    match round.next_attempt() {
        Some(next) => Ok(Some(Wanted {
            subject: next.subject,
            list: Vec::from_slice(alloc, next.pending)?,
        })),
        None => Ok(None),
    }
}

// Hands in verdicts on what was wanted, by the round's own scheme.
fn conclude<S: Scheme<Digest>>(
    alloc: Global,
    scheme: &S,
    round: &mut Round<S, Digest>,
    wanted: &Wanted<S::Signature>,
) -> Result<Option<(usize, bool, bool)>, AllocError>
where
    S::Signature: Identical,
    requires { round.old.scheme ≡ scheme.now }
    ensures { round.new.scheme ≡ round.old.scheme }
{
    let list = wanted.list.as_slice();
    let verdicts = verdicts_on(alloc, scheme, wanted.subject, list)?;
    match round.conclude(wanted.subject, list, verdicts.as_slice())? {
        Some(batch) => Ok(Some((batch.processed, batch.certificate.is_some(), batch.fallback))),
        None => Ok(None),
    }
}

// Hands in a certificate of all that was wanted, if it certifies.
fn conclude_with<S: Scheme<Digest>>(
    scheme: &S,
    round: &mut Round<S, Digest>,
    wanted: &Wanted<S::Signature>,
    certificate: S::Certificate,
) -> Option<(usize, bool, bool)>
where
    S::Signature: Identical,
    requires { round.old.scheme ≡ scheme.now }
    ensures { round.new.scheme ≡ round.old.scheme }
{
    if !scheme.verify_certificate(wanted.subject, &certificate) {
        return None;
    }
    match round.conclude_with(wanted.subject, wanted.list.as_slice(), certificate) {
        Some(batch) => Some((batch.processed, batch.certificate.is_some(), batch.fallback)),
        None => None,
    }
}

// Brings the round a nullify from its signer.
fn add(
    rt: &impl Abort,
    scheme: &Keyed<true>,
    round: &mut TestRound,
    signer: u32,
    good: bool,
) -> Result<(), AllocError>
    ensures { round.new.scheme ≡ round.old.scheme }
{
    let vote = Vote::Nullify(nullify(scheme, signer, good));
    assert!(rt; round.belongs(&vote));
    let sender = Name(u64::from(signer));
    let added = round.add_network(sender, vote)?.added;
    assert!(rt; added);
    Ok(())
}

fn plays_late_verdicts(
    rt: &impl Abort,
    alloc: Global,
    scheme: &Keyed<true>,
    round: &mut TestRound,
) -> Result<(), Fail>
    requires { round.old.scheme ≡ scheme.now }
{
    add(rt, scheme, round, 0, true)?;
    add(rt, scheme, round, 1, true)?;
    assert!(rt; next_wanted(alloc, round)?.is_none());
    add(rt, scheme, round, 2, false)?;
    let early = next_wanted(alloc, round)?.ok_or("a quorum waits")?;
    add(rt, scheme, round, 3, true)?;
    // A vote came meanwhile, so these verdicts are stale, and change nothing.
    assert!(rt; conclude(alloc, scheme, round, &early)?.is_none());
    let late = next_wanted(alloc, round)?.ok_or("a quorum waits")?;
    assert_eq!(rt; (early.list.len(), late.list.len()), (3, 4));
    // Three of the four attest.
    assert_eq!(rt;
        conclude(alloc, scheme, round, &late)?,
        Some((4, true, true))
    );
    assert!(rt; next_wanted(alloc, round)?.is_none());
    assert!(rt; conclude(alloc, scheme, round, &late)?.is_none());
    Ok(())
}

fn plays_a_certificate(
    rt: &impl Abort,
    alloc: Global,
    scheme: &Keyed<true>,
    round: &mut TestRound,
) -> Result<(), Fail>
    requires { round.old.scheme ≡ scheme.now }
{
    add(rt, scheme, round, 0, true)?;
    add(rt, scheme, round, 1, true)?;
    add(rt, scheme, round, 2, true)?;
    let wanted = next_wanted(alloc, round)?.ok_or("a quorum waits")?;
    assert!(rt; wanted.list.len() == 3);
    let two = AttestationList::new(Vec::from_slice(alloc, &wanted.list.as_slice()[..2])?);
    assert!(rt; conclude_with(scheme, round, &wanted, two).is_none());
    let all = AttestationList::new(Vec::from_slice(alloc, wanted.list.as_slice())?);
    assert_eq!(rt;
        conclude_with(scheme, round, &wanted, all),
        Some((3, true, false))
    );
    Ok(())
}

#[test]
fn verdicts_from_elsewhere_conclude_and_are_stale_once_a_vote_came(
    rt: HostRuntime,
) -> Result<(), Fail> {
    let alloc = rt.alloc();
    let participants = names(alloc, 4)?;
    assert!(rt; participants.len() >= 1);
    let scheme = Rc::new(alloc, Keyed::new(participants, ROOT))?;
    let mut round = Round::new(alloc, number(), Rc::clone(&scheme)?, true);
    let played = plays_late_verdicts(&rt, alloc, &scheme, &mut round);
    drop(round);
    played
}

#[test]
fn a_certificate_of_all_is_taken_in_place_of_verdicts(rt: HostRuntime) -> Result<(), Fail> {
    let alloc = rt.alloc();
    let participants = names(alloc, 4)?;
    assert!(rt; participants.len() >= 1);
    let scheme = Rc::new(alloc, Keyed::new(participants, ROOT))?;
    let mut round = Round::new(alloc, number(), Rc::clone(&scheme)?, true);
    let played = plays_a_certificate(&rt, alloc, &scheme, &mut round);
    drop(round);
    played
}
