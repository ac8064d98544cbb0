//! Votes as bytes, as often as is asked for.

use anyhow::{Result, bail};
use batcher::messages::{Attestation, Proposal, Sha256Digest, Subject, Vote};
use batcher::positions::{Epoch, Participant, Round, View};
use batcher_bytes::{decode, encode};
use std::alloc::Global;

type SignedVote = Vote<[u8; 64], Sha256Digest>;

fn vote() -> SignedVote {
    let round = Round::new(Epoch::new(3), View::new(7));
    let proposal = Proposal::new(round, View::new(6), Sha256Digest([5; 32]));
    let attestation = Attestation {
        signer: Participant::new(7),
        signature: [9; 64],
    };
    Vote::new(Subject::Notarize { proposal }, attestation)
}

/// How many bytes a vote has that is encoded so often, into room that is there.
pub fn encoded(alloc: Global, rounds: u32) -> Result<usize> {
    let vote = vote();
    let mut bytes = Vec::new(alloc);
    encode(&vote, &mut bytes)?;
    for _ in 0..rounds {
        bytes.clear();
        encode(&vote, &mut bytes)?;
    }
    Ok(bytes.len())
}

/// How many bytes a vote has that is decoded so often, and each time compared.
pub fn decoded(alloc: Global, rounds: u32) -> Result<usize> {
    let vote = vote();
    let mut bytes = Vec::new(alloc);
    encode(&vote, &mut bytes)?;
    for _ in 0..rounds {
        if decode::<SignedVote>(bytes.as_slice()) != Ok(vote) {
            bail!("another vote was decoded");
        }
    }
    Ok(bytes.len())
}
