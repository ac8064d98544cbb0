//! What travels: rounds, proposals, attestations, subjects, votes and evidence.

ghost use Rattle.std.specs.Prelude.{◌≡◌, ◌++◌, List, ℕ, None, OnErr, OnOk, Some};
ghost use Rattle.batcher_bytes.specs.Format.{Decodes, StartsWith};
ghost use Rattle.batcher_bytes.specs.Lawful.{activity_is_exact, attestation_is_exact};
ghost use Rattle.batcher_bytes.specs.Lawful.{proposal_is_exact, round_is_exact, sha256_is_exact};
ghost use Rattle.batcher_bytes.specs.Lawful.{subject_is_exact, vote_is_exact};
ghost use Rattle.batcher_bytes.specs.Messages.{activity_format, activity_of, attestation_format};
ghost use Rattle.batcher_bytes.specs.Messages.{evidence_of, proposal_format, round_format};
ghost use Rattle.batcher_bytes.specs.Messages.{sha256_format, subject_format, vote_format};
ghost use Rattle.batcher_bytes.specs.Messages.{votes_bytes};

use crate::codec::Codec;
use crate::fault::DecodeFault;
use batcher_types::messages::{Activity, Attestation, Proposal, Sha256Digest, Subject, Vote};
use batcher_types::positions::{Epoch, Participant, Round, View};
use std::alloc::AllocError;

impl Codec for Sha256Digest {
    ghost format = { sha256_format };

    ghost exact = { sha256_is_exact };

    fn encode(&self, out: &mut Vec<u8>) -> Result<(), AllocError> {
        self.0.encode(out)
    }

    fn decode(bytes: &[u8]) -> Result<(Self, &[u8]), DecodeFault> {
        let (bytes, rest) = <[u8; 32]>::decode(bytes)?;
        Ok((Sha256Digest(bytes), rest))
    }
}

#[tactic(auto, using(crate::specs::Starting::starts))]
impl Codec for Round {
    ghost format = { round_format };

    ghost exact = { round_is_exact };

    fn encode(&self, out: &mut Vec<u8>) -> Result<(), AllocError> {
        self.epoch.0.encode(out)?;
        self.view.0.encode(out)
    }

    fn decode(bytes: &[u8]) -> Result<(Self, &[u8]), DecodeFault> {
        let (epoch, rest) = u64::decode(bytes)?;
        let (view, rest) = u64::decode(rest)?;
        Ok((Round::new(Epoch(epoch), View(view)), rest))
    }
}

#[tactic(auto, using(crate::specs::Starting::starts))]
impl<D: Codec> Codec for Proposal<D> {
    ghost format = { proposal_format D.format };

    ghost exact = { proposal_is_exact D.format D.exact };

    fn encode(&self, out: &mut Vec<u8>) -> Result<(), AllocError> {
        self.round.encode(out)?;
        self.parent.0.encode(out)?;
        self.payload.encode(out)
    }

    fn decode(bytes: &[u8]) -> Result<(Self, &[u8]), DecodeFault> {
        let (round, rest) = Round::decode(bytes)?;
        let (parent, rest) = u64::decode(rest)?;
        let (payload, rest) = D::decode(rest)?;
        Ok((Proposal::new(round, View(parent), payload), rest))
    }
}

#[tactic(auto, using(crate::specs::Starting::starts))]
impl<G: Codec> Codec for Attestation<G> {
    ghost format = { attestation_format G.format };

    ghost exact = { attestation_is_exact G.format G.exact };

    fn encode(&self, out: &mut Vec<u8>) -> Result<(), AllocError> {
        self.signer.0.encode(out)?;
        self.signature.encode(out)
    }

    fn decode(bytes: &[u8]) -> Result<(Self, &[u8]), DecodeFault> {
        let (signer, rest) = u32::decode(bytes)?;
        let (signature, rest) = G::decode(rest)?;
        let attestation = Attestation {
            signer: Participant(signer),
            signature,
        };
        Ok((attestation, rest))
    }
}

#[tactic(auto, using(crate::specs::Starting::starts))]
impl<D: Codec> Codec for Subject<D> {
    ghost format = { subject_format D.format };

    ghost exact = { subject_is_exact D.format D.exact };

    fn encode(&self, out: &mut Vec<u8>) -> Result<(), AllocError> {
        match self {
            Subject::Notarize { proposal } => {
                out.push(0)?;
                proposal.encode(out)
            }
            Subject::Nullify { round } => {
                out.push(1)?;
                round.encode(out)
            }
            Subject::Finalize { proposal } => {
                out.push(2)?;
                proposal.encode(out)
            }
        }
    }

    fn decode(bytes: &[u8]) -> Result<(Self, &[u8]), DecodeFault> {
        match bytes {
            [] => Err(DecodeFault::Short),
            [0, rest @ ..] => {
                let (proposal, rest) = Proposal::decode(rest)?;
                Ok((Subject::Notarize { proposal }, rest))
            }
            [1, rest @ ..] => {
                let (round, rest) = Round::decode(rest)?;
                Ok((Subject::Nullify { round }, rest))
            }
            [2, rest @ ..] => {
                let (proposal, rest) = Proposal::decode(rest)?;
                Ok((Subject::Finalize { proposal }, rest))
            }
            [_, ..] => Err(DecodeFault::Kind),
        }
    }
}

#[tactic(auto, using(crate::specs::Starting::starts))]
impl<G: Codec, D: Codec> Codec for Vote<G, D> {
    ghost format = { vote_format G.format D.format };

    ghost exact = { vote_is_exact G.format D.format G.exact D.exact };

    fn encode(&self, out: &mut Vec<u8>) -> Result<(), AllocError> {
        self.subject().encode(out)?;
        self.attestation().encode(out)
    }

    fn decode(bytes: &[u8]) -> Result<(Self, &[u8]), DecodeFault> {
        let (subject, rest) = Subject::<D>::decode(bytes)?;
        let (attestation, rest) = Attestation::<G>::decode(rest)?;
        Ok((Vote::new(subject, attestation), rest))
    }
}

#[tactic(auto, using(crate::specs::Starting::starts))]
impl<G: Codec, D: Codec> Codec for Activity<G, D> {
    ghost format = { activity_format G.format D.format };

    ghost exact = { activity_is_exact G.format D.format G.exact D.exact };

    fn encode(&self, out: &mut Vec<u8>) -> Result<(), AllocError> {
        match self {
            Activity::Notarize(vote) => put_one::<G, D>(out, &Vote::Notarize(*vote)),
            Activity::Nullify(vote) => put_one::<G, D>(out, &Vote::Nullify(*vote)),
            Activity::Finalize(vote) => put_one::<G, D>(out, &Vote::Finalize(*vote)),
            Activity::ConflictingNotarize(first, second) => {
                put_two::<G, D>(out, &Vote::Notarize(*first), &Vote::Notarize(*second))
            }
            Activity::ConflictingFinalize(first, second) => {
                put_two::<G, D>(out, &Vote::Finalize(*first), &Vote::Finalize(*second))
            }
            Activity::NullifyFinalize(first, second) => {
                put_two::<G, D>(out, &Vote::Nullify(*first), &Vote::Finalize(*second))
            }
        }
    }

    fn decode(bytes: &[u8]) -> Result<(Self, &[u8]), DecodeFault> {
        match bytes {
            [] => Err(DecodeFault::Short),
            [1, rest @ ..] => {
                let (vote, rest) = Vote::<G, D>::decode(rest)?;
                Ok((activity_of(vote), rest))
            }
            [2, rest @ ..] => {
                let (first, rest) = Vote::<G, D>::decode(rest)?;
                let (second, rest) = Vote::<G, D>::decode(rest)?;
                Ok((evidence_of(first, second)?, rest))
            }
            [_, ..] => Err(DecodeFault::Kind),
        }
    }
}

#[tactic(auto, using(crate::specs::Starting::starts))]
fn put_one<G: Codec, D: Codec>(out: &mut Vec<u8>, vote: &Vote<G, D>) -> Result<(), AllocError>
    ensures ok { OnOk result
        (out.new.items ≡ out.old.items ++ votes_bytes G.format D.format (vote.now, None)) }
    ensures err { OnErr result (StartsWith out.old.items out.new.items) }
    ensures value { OnOk result ((vote_format G.format D.format).IsValue vote.now) }
{
    out.push(1)?;
    vote.encode(out)
}

#[tactic(auto, using(crate::specs::Starting::starts))]
fn put_two<G: Codec, D: Codec>(
    out: &mut Vec<u8>,
    first: &Vote<G, D>,
    second: &Vote<G, D>,
) -> Result<(), AllocError>
    ensures ok { OnOk result (out.new.items
        ≡ out.old.items ++ votes_bytes G.format D.format (first.now, Some second.now)) }
    ensures err { OnErr result (StartsWith out.old.items out.new.items) }
    ensures value { OnOk result ((vote_format G.format D.format).IsValue first.now
        × (vote_format G.format D.format).IsValue second.now) }
{
    out.push(2)?;
    first.encode(out)?;
    second.encode(out)
}

fn activity_of<G: Copy, D: Copy>(vote: Vote<G, D>) -> Activity<G, D>
    ensures { result ≡ activity_of vote }
{
    match vote {
        Vote::Notarize(vote) => Activity::Notarize(vote),
        Vote::Nullify(vote) => Activity::Nullify(vote),
        Vote::Finalize(vote) => Activity::Finalize(vote),
    }
}

fn evidence_of<G: Copy, D: Copy>(
    first: Vote<G, D>,
    second: Vote<G, D>,
) -> Result<Activity<G, D>, DecodeFault>
    ensures { result ≡ evidence_of first second }
{
    match (first, second) {
        (Vote::Notarize(first), Vote::Notarize(second)) => {
            Ok(Activity::ConflictingNotarize(first, second))
        }
        (Vote::Finalize(first), Vote::Finalize(second)) => {
            Ok(Activity::ConflictingFinalize(first, second))
        }
        (Vote::Nullify(first), Vote::Finalize(second)) => {
            Ok(Activity::NullifyFinalize(first, second))
        }
        (Vote::Notarize(_), Vote::Nullify(_) | Vote::Finalize(_))
        | (Vote::Nullify(_), Vote::Notarize(_) | Vote::Nullify(_))
        | (Vote::Finalize(_), Vote::Notarize(_) | Vote::Nullify(_)) => Err(DecodeFault::Evidence),
    }
}
