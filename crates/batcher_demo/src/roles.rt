//! What the faulty validators do wrong.

use crate::station::{AnyCertificate, AnyVote, DemoScheme, numbered};
use crate::validator::proposed;
use batcher::messages::{Attestation, Certificate, Proposal, Sha256Digest, Subject, Vote};
use batcher::positions::{Epoch, Participant, Round, View};
use batcher::scheme::AttestationList;
use std::alloc::{AllocError, Global};

/// What a validator does wrong.
#[derive(Clone, Copy, Debug, PartialEq, Eq)]
pub(crate) enum Role {
    Honest,
    /// Proposes two things in its view.
    Equivocates,
    /// Its votes don't attest.
    SignsBadly,
    /// Sends nothing.
    Silent,
    /// Sends votes of far views beside its own.
    Floods,
    /// Sends certificates that no quorum has made, beside its votes.
    Forges,
    /// Sends its votes again and again.
    Repeats,
    /// Gives up each view that it finalizes.
    Contradicts,
    /// Proposes what has no ground.
    Builds,
}

// How many roles do something wrong.
const FAULTY: u64 = 8;

/// The role of a validator in the network of a seed. Those that do something wrong go round, and
/// four in a row of them are played. In some networks all four are silent, so that each honest vote
/// is needed.
pub(crate) fn role_of(seed: u64, validator: u32) -> Role {
    if validator % 3 != 2 {
        return Role::Honest;
    }
    if seed / 32 % 4 == 3 {
        return Role::Silent;
    }
    match (seed % FAULTY + 7 + u64::from(validator / 3)) % FAULTY {
        0 => Role::Equivocates,
        1 => Role::SignsBadly,
        2 => Role::Silent,
        3 => Role::Floods,
        4 => Role::Forges,
        5 => Role::Repeats,
        6 => Role::Contradicts,
        _ => Role::Builds,
    }
}

/// The certificate that the vote would make, if it were a quorum.
pub(crate) fn forged(alloc: Global, vote: &AnyVote) -> Result<AnyCertificate, AllocError> {
    let mut attestations = Vec::new(alloc);
    attestations.push(vote.attestation())?;
    Ok(Certificate::new(vote.subject(), AttestationList::new(attestations)))
}

/// A finalization of another epoch and a far view, which nobody signed. It has to stop nobody.
pub(crate) fn foreign(alloc: Global, far: &AnyVote) -> AnyCertificate {
    let view = far.round().view;
    let round = Round::new(Epoch(0), view);
    let proposal = Proposal::new(round, View(0), Sha256Digest([b'x'; 32]));
    Certificate::new(
        Subject::Finalize { proposal },
        AttestationList::new(Vec::new(alloc)),
    )
}

/// The vote of a validator.
pub(crate) fn signed(scheme: &DemoScheme, me: u32, subject: Subject<Sha256Digest>) -> AnyVote {
    Vote::new(subject, scheme.sign(Participant::new(me), subject))
}

/// The vote with a bit of its signature turned.
pub(crate) fn spoiled(vote: &AnyVote) -> AnyVote {
    let attestation = vote.attestation();
    let mut signature = attestation.signature;
    signature[0] ^= 1;
    Vote::new(
        vote.subject(),
        Attestation {
            signer: attestation.signer,
            signature,
        },
    )
}

/// The proposal on another parent: on the start instead of what is notarized, and else on a view
/// that isn't notarized, or on its own.
pub(crate) fn groundless(proposal: &Proposal<Sha256Digest>) -> Proposal<Sha256Digest> {
    let view = proposal.round.view.0;
    let parent = if proposal.parent.0 > 0 {
        0
    } else if view > 1 {
        view - 1
    } else {
        view
    };
    proposed(view, parent, b'c')
}

/// The nullify of a vote's view.
pub(crate) fn giving_up(scheme: &DemoScheme, me: u32, vote: &AnyVote) -> AnyVote {
    let round = numbered(vote.round().view.0);
    signed(scheme, me, Subject::Nullify { round })
}
