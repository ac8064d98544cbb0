//! What a validator received, noted beside it: what it ought to have done follows from that.

use crate::roles::Role;
use crate::station::AnyCertificate;
use crate::validator::{Message, VALIDATORS, VIEWS, Validator, letter_of};
use anyhow::Result;
use batcher::messages::{Kind, Proposal, Sha256Digest, Subject};
use batcher::positions::quorum;
use std::alloc::{AllocError, Global};

/// A message that was sent.
#[derive(Drop)]
pub(crate) struct Posted {
    pub(crate) message: Message,
    // Who has taken it in, by bits.
    taken: u32,
}

impl Posted {
    pub(crate) fn new(message: Message) -> Self {
        Posted { message, taken: 0 }
    }

    /// The node of a validator has lost it.
    pub(crate) fn forget(&mut self, validator: u32) {
        self.taken &= !bit_of(validator);
    }
}

// Whose good votes were taken in, by bits: those for the first proposal of the leader, those for
// its second, and the others.
#[derive(Clone, Copy)]
struct Voters {
    notarizes: u32,
    others_notarizes: u32,
    nullifies: u32,
    finalizes: u32,
    others_finalizes: u32,
}

const NOBODY: Voters = Voters {
    notarizes: 0,
    others_notarizes: 0,
    nullifies: 0,
    finalizes: 0,
    others_finalizes: 0,
};

impl Voters {
    fn take(&mut self, voter: u32, subject: Subject<Sha256Digest>) {
        let bit = bit_of(voter);
        match subject {
            Subject::Notarize { proposal } => {
                if is_first(&proposal) {
                    self.notarizes |= bit;
                } else {
                    self.others_notarizes |= bit;
                }
            }
            Subject::Nullify { .. } => self.nullifies |= bit,
            Subject::Finalize { proposal } => {
                if is_first(&proposal) {
                    self.finalizes |= bit;
                } else {
                    self.others_finalizes |= bit;
                }
            }
        }
    }

    // How many notarized and finalized the proposal.
    fn count_for(&self, proposal: &Proposal<Sha256Digest>) -> (u32, u32) {
        if is_first(proposal) {
            (self.notarizes.count_ones(), self.finalizes.count_ones())
        } else {
            (
                self.others_notarizes.count_ones(),
                self.others_finalizes.count_ones(),
            )
        }
    }
}

// What one that contradicts itself said in a view.
#[derive(Clone, Copy)]
struct Sides {
    peer: u32,
    view: u64,
    notarized: bool,
    notarized_another: bool,
    nullified: bool,
    finalized: bool,
}

impl Sides {
    fn take(&mut self, subject: Subject<Sha256Digest>) {
        match subject {
            Subject::Notarize { proposal } => {
                if is_first(&proposal) {
                    self.notarized = true;
                } else {
                    self.notarized_another = true;
                }
            }
            Subject::Nullify { .. } => self.nullified = true,
            Subject::Finalize { .. } => self.finalized = true,
        }
    }

    fn contradict(&self) -> bool {
        (self.notarized && self.notarized_another) || (self.nullified && self.finalized)
    }
}

/// What a validator received since it started, and what was found of it.
#[derive(Drop)]
pub(crate) struct Witness {
    // What those that contradict themselves said to it, while votes were kept as evidence.
    sides: Vec<Sides>,
    /// Whether it looked at a certificate that was forged.
    pub(crate) saw_forged: bool,
    // Of whom it took in a vote that doesn't attest, by bits.
    bad_voters: u32,
    // By views.
    voters: Vec<Voters>,
    /// How many votes that it had taken in came to it again.
    pub(crate) repeats: usize,
    /// Whether one of these woke a view.
    pub(crate) was_woken: bool,
    /// Whether it was at rest with a quorum of votes and no certificate of them.
    pub(crate) left_quorum: bool,
}

impl Witness {
    pub(crate) fn new(alloc: Global) -> Result<Self, AllocError> {
        let mut voters = Vec::new(alloc);
        for _ in 0..VIEWS + 2 {
            voters.push(NOBODY)?;
        }
        Ok(Witness {
            sides: Vec::new(alloc),
            saw_forged: false,
            bad_voters: 0,
            voters,
            repeats: 0,
            was_woken: false,
            left_quorum: false,
        })
    }

    /// Whether it heard two votes of the peer that contradict each other.
    pub(crate) fn saw_contradiction(&self, peer: u32) -> bool {
        self.sides
            .iter()
            .any(|it| it.peer == peer && it.contradict())
    }

    /// Whether it took in a vote of the peer's that doesn't attest.
    pub(crate) fn took_bad_vote(&self, peer: u32) -> bool {
        self.bad_voters & bit_of(peer) != 0
    }

    /// The validator was stopped.
    pub(crate) fn forget(&mut self) {
        self.sides.clear();
        self.saw_forged = false;
        self.bad_voters = 0;
        for voters in self.voters.as_mut_slice() {
            *voters = NOBODY;
        }
    }

    /// A message comes to the validator, from a peer of a role.
    pub(crate) fn attend(
        &mut self,
        now: usize,
        validator: &mut Validator,
        from: u32,
        role: Role,
        posted: &mut Posted,
    ) -> Result<()> {
        if let Message::Certificate(certificate) = &posted.message {
            if is_forged(certificate) && looks_at(validator, from, certificate) {
                self.saw_forged = true;
            }
        }
        let added = validator.counts.added;
        let constructions = validator.station.constructions;
        validator.hear(now, from, &posted.message)?;
        let bit = bit_of(validator.me);
        if posted.taken & bit != 0 {
            self.repeats = self.repeats.saturating_add(1);
            if validator.station.constructions != constructions {
                self.was_woken = true;
            }
        }
        if validator.counts.added != added {
            posted.taken |= bit;
            if role == Role::SignsBadly {
                self.bad_voters |= bit_of(from);
            } else {
                self.note(from, &posted.message);
            }
        }
        if role == Role::Equivocates || role == Role::Contradicts {
            self.bear(validator, from, &posted.message)?;
        }
        Ok(())
    }

    /// A good vote was taken in, or cast.
    pub(crate) fn note(&mut self, voter: u32, message: &Message) {
        if let Message::Vote(vote) = message {
            if let Some(voters) = self.voters.get_mut(vote.round().view.0 as usize) {
                voters.take(voter, vote.subject());
            }
        }
    }

    // A vote of one that contradicts itself is evidence for who keeps the votes of the view.
    fn bear(&mut self, validator: &Validator, from: u32, message: &Message) -> Result<()> {
        if let Message::Vote(vote) = message {
            let view = vote.round().view.0;
            if validator.station.keeps_evidence(view) {
                let place = self.place_of(from, view)?;
                if let Some(sides) = self.sides.get_mut(place) {
                    sides.take(vote.subject());
                }
            }
        }
        Ok(())
    }

    // Where it is noted what a peer said in a view.
    fn place_of(&mut self, peer: u32, view: u64) -> Result<usize, AllocError> {
        for (place, sides) in self.sides.iter().enumerate() {
            if sides.peer == peer && sides.view == view {
                return Ok(place);
            }
        }
        self.sides.push(Sides {
            peer,
            view,
            notarized: false,
            notarized_another: false,
            nullified: false,
            finalized: false,
        })?;
        Ok(self.sides.len().saturating_sub(1))
    }

    /// Looks whether the validator, which is at rest, has a certificate of each quorum that
    /// reached it. A skipped view makes none.
    pub(crate) fn look(&mut self, validator: &Validator) {
        let mut left = false;
        for (view, voters) in self.voters.iter().enumerate() {
            if !is_complete(validator, view as u64, voters) {
                left = true;
            }
        }
        self.left_quorum |= left;
    }
}

// Whether the validator has a certificate of the view of each quorum. Votes for a proposal make one
// where it is selected.
fn is_complete(validator: &Validator, view: u64, voters: &Voters) -> bool {
    let station = &validator.station;
    if !station.keeps_evidence(view) {
        return true;
    }
    let needed = quorum(VALIDATORS);
    if voters.nullifies.count_ones() >= needed && !station.has(Kind::Nullification, view) {
        return false;
    }
    match station.selected(view) {
        None => true,
        Some(proposal) => {
            let (notarizes, finalizes) = voters.count_for(&proposal);
            (notarizes < needed || station.has(Kind::Notarization, view))
                && (finalizes < needed || station.has(Kind::Finalization, view))
        }
    }
}

// Whether it is of fewer votes than a quorum.
fn is_forged(certificate: &AnyCertificate) -> bool {
    certificate.content().attestations().len() < quorum(VALIDATORS) as usize
}

// Whether the validator will look at a certificate of the peer's.
fn looks_at(validator: &Validator, from: u32, certificate: &AnyCertificate) -> bool {
    let view = certificate.round().view.0;
    !validator.has_blocked(from)
        && !validator.station.has(certificate.kind(), view)
        && (validator.station.looks_at(view) || validator.is_ahead(certificate))
}

fn is_first(proposal: &Proposal<Sha256Digest>) -> bool {
    letter_of(proposal) == b'a'
}

// The bit of a validator. There are fewer than 32.
fn bit_of(validator: u32) -> u32 {
    1 << (validator % 32)
}
