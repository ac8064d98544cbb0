//! One view: makes keys, a scheme and a round, names the leader, hears votes, and certifies.
#![tactic(auto)]

use anyhow::{Result, bail};
use batcher::messages::{Notarize, Proposal, Sha256Digest, Subject, Vote};
use batcher::positions::{Epoch, Participant, Round as Number, Set, View};
use batcher::round::Round;
use batcher::scheme::{Counter, Keyed, Name};
use batcher::verifier::Batch;
use std::rc::Rc;

type TestRound = Round<Keyed<true>, Sha256Digest>;

type TestVote = Vote<[u8; 32], Sha256Digest>;

fn main(rt: HostRuntime) -> Result<()> {
    // The keys of four validators. A participant is the place of its key in ascending order.
    let mut keys = Vec::new(rt.alloc());
    for key in [30, 0, 20, 10] {
        keys.push(Name(key))?;
    }
    let scheme = Rc::new(rt.alloc(), Keyed::new(Set::new(keys)?, [7; 32]))?;
    if scheme.participants.len() == 0 {
        bail!("a round needs a participant");
    }
    let number = Number::new(Epoch::new(0), View::new(1));
    let mut round = Round::new(rt.alloc(), number, Rc::clone(&scheme)?, true);
    let played = play(&rt, &mut round, &scheme);
    // A round is handed to `drop`: one that a `?` may drop is slow to prove.
    std::mem::drop(round);
    played
}

// Participant 0 leads. 1 sends two notarizes, for different proposals.
fn play(rt: &impl Print, round: &mut TestRound, scheme: &Keyed<true>) -> Result<()> {
    // Until it is called notarizes wait: the proposal that they are for is the leader's.
    round.set_leader(Participant::new(0))?;
    for (signer, payload) in [(0, 1), (1, 1), (1, 2), (2, 1)] {
        let digest = Sha256Digest([payload; 32]);
        let proposal = Proposal::new(round.number(), View::zero(), digest);
        let attestation = scheme.sign(Participant::new(signer), Subject::Notarize { proposal });
        let vote = Vote::Notarize(Notarize {
            proposal,
            attestation,
        });
        hear(rt, round, Name(10 * u64::from(signer)), vote)?;
    }
    Ok(())
}

// Takes in a vote that a peer sent, and makes the certificates that are due.
fn hear(rt: &impl Print, round: &mut TestRound, sender: Name, vote: TestVote) -> Result<()> {
    if !round.belongs(&vote) {
        return Ok(());
    }
    let admission = round.add_network(sender, vote)?;
    match admission.block {
        Some(reason) => println!(rt; "{sender:?} is to be blocked: {reason}")?,
        None => println!(rt; "a vote of {sender:?}: added {}", admission.added)?,
    }
    // A round gives three batches in a row at most, so after four constructions it is at rest.
    for _ in 0..4 {
        // `Counter` is for tests. A validator passes in a generator that nobody can predict.
        let Some(batch) = round.try_construct(&mut Counter::new(0))? else {
            break;
        };
        let Batch {
            invalid,
            certificate,
            ..
        } = batch;
        for bad in invalid.iter() {
            println!(rt; "participant {bad} is to be blocked: it signs badly")?;
        }
        if let Some(certificate) = certificate {
            println!(rt; "a {} to send on", certificate.kind())?;
        }
    }
    Ok(())
}
