//! Tests of the library, of what no clause says: values from outside, and that a call succeeds
//! where memory is there, and again where it was refused once. What rounds answer is shown by the
//! scripts of `vectors/`.
//!
//! A test is proved safe before it runs, and what its calls promise is carried to its end. So the
//! calls of a round are in functions that promise nothing. They take it by `&mut`: wherever a
//! function that owns a round may end, its drop is proved once more.

mod memory;
mod rows;
mod schemes;
mod scripts;
mod texts;
mod verdicts;
mod verifiers;

use batcher::messages::{
    Attestation, Certificate, Finalize, Kind, Notarize, Nullify, Proposal, Sha256Digest, Subject,
    Vote,
};
use batcher::positions::{self, Epoch, Participant, Set, View};
use batcher::round::Round;
use batcher::scheme::{AttestationList, Counter, Keyed, Name, Scheme, names};
use batcher::verifier::Batch;
use std::alloc::{AllocError, Global};
use std::process::Abort;
use std::rc::Rc;
use std::test::Fail;

type Digest = Sha256Digest;

type SignedVote = Vote<[u8; 32], Digest>;

type TestCertificate = Certificate<AttestationList, Digest>;

type TestRound = Round<Keyed<true>, Digest>;

const ROOT: [u8; 32] = [0; 32];

// Epoch 0, view 1.
fn number() -> positions::Round {
    positions::Round::new(Epoch::new(0), View::new(1))
}

// The proposal of that round with parent view 0 and a payload of equal bytes.
fn proposal(byte: u8) -> Proposal<Digest> {
    Proposal::new(number(), View::zero(), Sha256Digest([byte; 32]))
}

fn keyed(alloc: Global, n: u32) -> Result<Keyed<true>, AllocError> {
    Ok(Keyed::new(names(alloc, n)?, ROOT))
}

// A fresh round over `n` names.
fn round(
    rt: &impl Abort,
    alloc: Global,
    n: u32,
    track_historical_votes: bool,
) -> Result<TestRound, AllocError> {
    let participants = names(alloc, n)?;
    assert!(rt; participants.len() >= 1);
    let scheme = Rc::new(alloc, Keyed::new(participants, ROOT))?;
    Ok(Round::new(alloc, number(), scheme, track_historical_votes))
}

// A fresh round over `n` names, and the scheme by which they sign.
fn fresh(
    rt: &impl Abort,
    alloc: Global,
    n: u32,
    track_historical_votes: bool,
) -> Result<(TestRound, Keyed<true>), AllocError> {
    let scheme = keyed(alloc, n)?;
    match round(rt, alloc, n, track_historical_votes) {
        Ok(round) => Ok((round, scheme)),
        Err(error) => {
            drop(scheme);
            Err(error)
        }
    }
}

// The nullify of a signer, or one whose signature is off by a bit.
fn nullify(scheme: &Keyed<true>, signer: u32, good: bool) -> Nullify<[u8; 32]> {
    let round = number();
    let mut attestation = scheme.sign(Participant::new(signer), Subject::Nullify { round });
    if !good {
        attestation.signature[0] ^= 1;
    }
    Nullify { round, attestation }
}

// The notarize of a signer for a payload of equal bytes.
fn notarize(scheme: &Keyed<true>, signer: u32, byte: u8) -> SignedVote {
    let proposal = proposal(byte);
    Vote::Notarize(Notarize {
        proposal,
        attestation: scheme.sign(Participant::new(signer), Subject::Notarize { proposal }),
    })
}

// The vote of a kind by a signer, for payload 1 where it is for a proposal.
fn vote(scheme: &Keyed<true>, kind: Kind, signer: u32) -> SignedVote {
    let participant = Participant::new(signer);
    let proposal = proposal(1);
    match kind {
        Kind::Notarization => notarize(scheme, signer, 1),
        Kind::Nullification => Vote::Nullify(nullify(scheme, signer, true)),
        Kind::Finalization => Vote::Finalize(Finalize {
            proposal,
            attestation: scheme.sign(participant, Subject::Finalize { proposal }),
        }),
    }
}

// Brings the round a vote that its signer sends. Whether it was added.
fn bring<S: Scheme<Digest, PublicKey = Name>>(
    rt: &impl Abort,
    round: &mut Round<S, Digest>,
    vote: Vote<S::Signature, Digest>,
) -> Result<bool, AllocError> {
    assert!(rt; round.belongs(&vote));
    let sender = Name(u64::from(vote.signer().get()));
    Ok(round.add_network(sender, vote)?.added)
}

fn construct<S: Scheme<Digest>>(
    round: &mut Round<S, Digest>,
) -> Result<Option<Batch<Certificate<S::Certificate, Digest>>>, AllocError> {
    round.try_construct(&mut Counter::new(0))
}
