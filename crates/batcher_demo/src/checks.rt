//! What has to hold of a network that was played.

use crate::network::{Network, Stops, stops_of};
use crate::record::{Record, is_other};
use crate::roles::Role;
use crate::validator::{VALIDATORS, VIEWS, Validator};
use crate::witness::Witness;
use anyhow::Result;
use batcher::messages::{Proposal, Sha256Digest};
use batcher_node::Cause;
use std::alloc::{AllocError, Global};

/// Whether what has to hold of a network holds.
#[derive(Clone, Copy, Debug)]
pub(crate) struct Checks {
    /// How many blocks the chain has that is final.
    pub(crate) blocks: usize,
    /// What is final for one honest validator is in the chain of all that is notarized or final
    /// later for any other, and at the end they have the same final chain.
    pub(crate) agreed: bool,
    /// All honest ones have entered the view after the last, and the chain has grown, also after
    /// the last restart.
    pub(crate) grew: bool,
    /// No honest one has sent a vote that contradicts another of its votes, in all its lives.
    pub(crate) consistent: bool,
    /// The faulty ones are blocked by those that saw why, and by nobody else.
    pub(crate) caught: bool,
    /// No honest one is blocked by anybody.
    pub(crate) spared: bool,
    /// No vote that came again had an honest one construct.
    pub(crate) rested: bool,
    /// Each quorum of votes that came to an honest one was certified there before it rested.
    pub(crate) completed: bool,
}

impl Checks {
    /// Whether all hold.
    pub(crate) fn hold(&self) -> bool {
        self.agreed
            && self.grew
            && self.consistent
            && self.caught
            && self.spared
            && self.rested
            && self.completed
    }
}

/// What holds of a network, once it was played.
pub(crate) fn check(alloc: Global, network: &Network) -> Result<Checks> {
    let chain = Chain::of(alloc, network)?;
    Ok(Checks {
        blocks: chain.blocks.len(),
        agreed: chain.has_agreed,
        grew: have_grown(network),
        consistent: are_consistent(network),
        caught: are_caught(network),
        spared: are_spared(network),
        rested: have_rested(network),
        completed: have_completed(network),
    })
}

/// The chain that is final for the honest ones.
#[derive(Drop)]
pub(crate) struct Chain {
    /// Its views, in ascending order.
    pub(crate) blocks: Vec<u64>,
    /// Whether all honest ones agree on it.
    pub(crate) has_agreed: bool,
}

impl Chain {
    pub(crate) fn of(alloc: Global, network: &Network) -> Result<Self, AllocError> {
        let mut certified = Vec::new(alloc);
        let mut has_agreed = true;
        for view in 0..=VIEWS {
            let (proposal, is_one) = certified_in(network, view);
            certified.push(proposal)?;
            has_agreed = has_agreed && is_one;
        }
        let last = last_final(network);
        let mut blocks = Vec::new(alloc);
        for view in 1..=last {
            if is_above(certified.as_slice(), last, view) {
                blocks.push(view)?;
            }
        }
        for view in 1..=VIEWS {
            if is_final(network, view) && !is_below_all(certified.as_slice(), view) {
                has_agreed = false;
            }
        }
        for me in 0..VALIDATORS {
            if let Some(record) = honest(network, me) {
                has_agreed = has_agreed && record.last_final() == last;
            }
        }
        Ok(Chain { blocks, has_agreed })
    }
}

// The record of a validator, if it is honest.
fn honest(network: &Network, me: u32) -> Option<&Record> {
    if network.role(me) == Role::Honest {
        network.records.get(me as usize)
    } else {
        None
    }
}

// What is notarized or final in a view for an honest one, and whether it is one proposal for all.
fn certified_in(network: &Network, view: u64) -> (Option<Proposal<Sha256Digest>>, bool) {
    let mut found = None;
    let mut is_one = true;
    for me in 0..VALIDATORS {
        if let Some(record) = honest(network, me) {
            if let Some(proposal) = record.seen(view).certified() {
                is_one = is_one && !is_other(found, proposal);
                found = Some(proposal);
            }
        }
    }
    (found, is_one)
}

// Whether a view is final for an honest one.
fn is_final(network: &Network, view: u64) -> bool {
    (0..VALIDATORS).any(|me| match honest(network, me) {
        Some(record) => record.seen(view).finalized.is_some(),
        None => false,
    })
}

// The last view that is final for an honest one, or 0.
fn last_final(network: &Network) -> u64 {
    let mut last = 0;
    for view in 1..=VIEWS {
        if is_final(network, view) {
            last = view;
        }
    }
    last
}

// Whether each proposal of a later view is above this one.
fn is_below_all(certified: &[Option<Proposal<Sha256Digest>>], view: u64) -> bool {
    for (later, proposal) in certified.iter().enumerate() {
        if later as u64 > view && proposal.is_some() && !is_above(certified, later as u64, view) {
            return false;
        }
    }
    true
}

// Whether the proposal of a view is in the chain of that of a later one, or is that.
fn is_above(certified: &[Option<Proposal<Sha256Digest>>], later: u64, view: u64) -> bool {
    let mut at = later;
    for _ in 0..=VIEWS {
        if at <= view {
            break;
        }
        at = match certified.get(at as usize) {
            Some(Some(proposal)) => proposal.parent.0,
            _ => return false,
        };
    }
    at == view
}

fn have_grown(network: &Network) -> bool {
    let last = last_final(network);
    let begins = match stops_of(network.seed) {
        Stops::Nobody => 1,
        _ => network.stopped_in,
    };
    for validator in network.validators.as_slice() {
        if is_honest(network, validator) && validator.current <= VIEWS {
            return false;
        }
    }
    last >= begins
}

fn are_consistent(network: &Network) -> bool {
    (0..VALIDATORS).all(|me| match honest(network, me) {
        Some(record) => !record.is_torn,
        None => true,
    })
}

fn is_honest(network: &Network, validator: &Validator) -> bool {
    network.role(validator.me) == Role::Honest
}

// Whether the honest ones treat each as it deserves, and have found whom they are sure to find.
fn are_caught(network: &Network) -> bool {
    for peer in 0..VALIDATORS {
        let role = network.role(peer);
        let mut caught = network.was_caught(peer);
        for (validator, witness) in network.validators.iter().zip(network.witnesses.iter()) {
            if is_honest(network, validator) {
                if !is_just(role, validator, witness, peer) {
                    return false;
                }
                caught = caught || validator.has_blocked(peer);
            }
        }
        if !caught && (role == Role::SignsBadly || role == Role::Forges) {
            return false;
        }
    }
    network.validators.iter().all(tells_all)
}

fn are_spared(network: &Network) -> bool {
    for validator in network.validators.as_slice() {
        for block in validator.blocks.as_slice() {
            if network.role(block.peer) == Role::Honest {
                return false;
            }
        }
    }
    true
}

fn have_rested(network: &Network) -> bool {
    let mut repeats = 0usize;
    for (validator, witness) in network.validators.iter().zip(network.witnesses.iter()) {
        if is_honest(network, validator) {
            if witness.was_woken {
                return false;
            }
            repeats = repeats.saturating_add(witness.repeats);
        }
    }
    repeats > 0
}

fn have_completed(network: &Network) -> bool {
    for (validator, witness) in network.validators.iter().zip(network.witnesses.iter()) {
        if is_honest(network, validator) && witness.left_quorum {
            return false;
        }
    }
    true
}

// Whether an honest validator has blocked a peer of the role where it saw why, and for that alone.
fn is_just(role: Role, validator: &Validator, witness: &Witness, peer: u32) -> bool {
    match (role, validator.cause_against(peer)) {
        (Role::Equivocates | Role::Contradicts, Some(Cause::Vote(_))) => {
            witness.saw_contradiction(peer) || validator.restarted.is_some()
        }
        (Role::SignsBadly, Some(Cause::Signature)) => witness.took_bad_vote(peer),
        (Role::Forges, Some(Cause::Certificate)) => witness.saw_forged,
        (_, Some(_)) => false,
        (Role::Equivocates | Role::Contradicts, None) => !witness.saw_contradiction(peer),
        (Role::Forges, None) => !witness.saw_forged,
        (_, None) => true,
    }
}

// Whether whom the node has blocked was reported, and for that cause.
fn tells_all(validator: &Validator) -> bool {
    (0..VALIDATORS).all(|peer| match validator.station.cause_against(peer) {
        Some(cause) => validator.cause_against(peer) == Some(cause),
        None => true,
    })
}
