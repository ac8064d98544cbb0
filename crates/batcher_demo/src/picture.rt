//! The picture of a network that was played: a row for each validator, a column for each view, and
//! below it who was blocked, and what became of the votes.

use crate::checks::{Chain, Checks, check};
use crate::network::{Network, SLOWEST, Stops, stops_of};
use crate::record::{Record, Seen};
use crate::roles::Role;
use crate::station::AHEAD;
use crate::validator::{Counts, NOTHING, VALIDATORS, VIEWS, Validator, leader_of, letter_of};
use anyhow::Result;
use batcher::messages::Kind;
use batcher::positions::quorum;
use batcher_node::Cause;

fn word_of(role: Role) -> &'static str {
    match role {
        Role::Honest => "honest",
        Role::Equivocates => "equivocates",
        Role::SignsBadly => "signs badly",
        Role::Silent => "silent",
        Role::Floods => "floods",
        Role::Forges => "forges",
        Role::Repeats => "repeats",
        Role::Contradicts => "contradicts",
        Role::Builds => "builds",
    }
}

// What a faulty one does wrong.
fn deed_of(role: Role) -> &'static str {
    match role {
        Role::Honest => "does nothing wrong",
        Role::Equivocates => "sends notarizes for two proposals in the view that it leads",
        Role::SignsBadly => "flips a bit of the signature of each vote that it sends",
        Role::Silent => "sends nothing: its row shows what its own node did",
        Role::Floods =>
            "sends a nullify of a far view with each vote, and finalizations of another epoch",
        Role::Forges => "makes a certificate of each vote alone, and sends it to a few",
        Role::Repeats => "sends its last eight votes again with each vote",
        Role::Contradicts => "sends a nullify of each view that it finalizes",
        Role::Builds => "proposes on a parent that has no ground, in the view that it leads",
    }
}

/// Draws the network and says what came of it.
pub(crate) fn draw(rt: &(impl AllocGlobal + Print), seed: u64, network: &Network) -> Result<()> {
    let steps = network.steps;
    let needed = quorum(VALIDATORS);
    print!(rt; "seed {seed}: {VALIDATORS} validators, quorum {needed}, {VIEWS} views, ")?;
    println!(rt; "{steps} steps; a message takes 1 to {SLOWEST} of them")?;
    println!(rt; "")?;
    draw_heading(rt)?;
    for (validator, record) in network.validators.iter().zip(network.records.iter()) {
        draw_row(rt, validator, record, network.role(validator.me))?;
    }
    draw_total(rt, network, Kind::Notarization, "notarized at")?;
    draw_total(rt, network, Kind::Nullification, "nullified at")?;
    draw_total(rt, network, Kind::Finalization, "finalized at")?;
    println!(rt; "")?;
    draw_legend(rt)?;
    println!(rt; "")?;
    draw_deeds(rt, network)?;
    println!(rt; "")?;
    for peer in 0..VALIDATORS {
        draw_blocks(rt, network, peer)?;
    }
    draw_restarts(rt, network)?;
    draw_votes(rt, network)?;
    draw_chain(rt, network)?;
    println!(rt; "")?;
    draw_checks(rt, &check(rt.alloc(), network)?)
}

fn draw_heading(rt: &impl Print) -> Result<()> {
    print!(rt; "              view")?;
    for view in 1..=VIEWS {
        print!(rt; "{view:>4} ")?;
    }
    println!(rt; "")?;
    Ok(())
}

fn draw_row(rt: &impl Print, validator: &Validator, record: &Record, role: Role) -> Result<()> {
    let me = validator.me;
    let word = word_of(role);
    print!(rt; "{me:>2} {word:<16}")?;
    for view in 1..=VIEWS {
        draw_cell(
            rt,
            validator,
            &record.seen(view),
            role == Role::Silent,
            view,
        )?;
    }
    println!(rt; "")?;
    Ok(())
}

fn draw_cell(
    rt: &impl Print,
    validator: &Validator,
    seen: &Seen,
    is_silent: bool,
    view: u64,
) -> Result<()> {
    let leads = if leader_of(view) == validator.me {
        '>'
    } else {
        ' '
    };
    let own = if is_silent {
        unsent_mark(seen)
    } else {
        own_mark(seen)
    };
    let made = certified_mark(seen);
    let block = if validator.has_blocked_in(view) {
        '!'
    } else {
        ' '
    };
    print!(rt; "{leads}{own}{made}{block} ")?;
    Ok(())
}

// What it voted for.
fn own_mark(seen: &Seen) -> char {
    match (&seen.voted, seen.gave_up) {
        (Some(proposal), false) => {
            if letter_of(proposal) == b'a' {
                'a'
            } else {
                'b'
            }
        }
        (Some(proposal), true) => {
            if letter_of(proposal) == b'a' {
                'A'
            } else {
                'B'
            }
        }
        (None, true) => 'z',
        (None, false) => '.',
    }
}

// The same of one that sends nothing.
fn unsent_mark(seen: &Seen) -> char {
    if seen.voted.is_some() || seen.gave_up {
        '-'
    } else {
        '.'
    }
}

// What is certified.
fn certified_mark(seen: &Seen) -> char {
    if seen.finalized.is_some() {
        'F'
    } else if seen.notarized.is_some() && seen.nullified {
        '*'
    } else if seen.notarized.is_some() {
        'N'
    } else if seen.nullified {
        '0'
    } else {
        '.'
    }
}

// At how many validators each view has the certificate.
fn draw_total(rt: &impl Print, network: &Network, kind: Kind, title: &str) -> Result<()> {
    print!(rt; "   {title:<15}")?;
    for view in 1..=VIEWS {
        let mut count = 0u32;
        for record in network.records.as_slice() {
            count = count.saturating_add(u32::from(record.seen(view).has(kind)));
        }
        print!(rt; "{count:>4} ")?;
    }
    println!(rt; "")?;
    Ok(())
}

fn draw_legend(rt: &impl Print) -> Result<()> {
    print!(rt; "> leads   a, b notarized that proposal   A, B gave the view up after that")?;
    println!(rt; "   z gave it up")?;
    println!(rt; "- voted, and sent nothing   . nothing yet")?;
    print!(rt; "F finalized   N notarized   0 nullified   * notarized and nullified")?;
    println!(rt; "   ! blocked somebody")?;
    Ok(())
}

// What each faulty one does wrong.
fn draw_deeds(rt: &impl Print, network: &Network) -> Result<()> {
    for validator in network.validators.as_slice() {
        let me = validator.me;
        let role = network.role(me);
        if role != Role::Honest {
            let word = word_of(role);
            let deed = deed_of(role);
            println!(rt; "{me:>2} {word:<12} {deed}")?;
        }
    }
    Ok(())
}

// By whom a faulty one is blocked, and anybody who is.
fn draw_blocks(rt: &impl Print, network: &Network, peer: u32) -> Result<()> {
    let mut cause = None;
    for validator in network.validators.as_slice() {
        cause = cause.or(validator.cause_against(peer));
    }
    let role = network.role(peer);
    if role == Role::Honest && cause.is_none() {
        return Ok(());
    }
    let word = word_of(role);
    print!(rt; "{peer:>2} {word:<12} blocked by")?;
    match cause {
        None => print!(rt; " nobody")?,
        Some(cause) => {
            for validator in network.validators.as_slice() {
                if validator.has_blocked(peer) {
                    let me = validator.me;
                    print!(rt; " {me}")?;
                }
            }
            let why = cause_word(&cause);
            print!(rt; ": {why}")?;
        }
    }
    println!(rt; "")?;
    Ok(())
}

fn cause_word(cause: &Cause) -> &'static str {
    match cause {
        Cause::Signature => "a construction named its vote as bad",
        Cause::Certificate => "forged certificate",
        Cause::Vote(_) => "conflicting votes",
    }
}

fn draw_restarts(rt: &impl Print, network: &Network) -> Result<()> {
    if stops_of(network.seed) == Stops::All {
        if let Some(step) = network.validators.first().and_then(|it| it.restarted) {
            println!(rt; "all were stopped in step {step} and started again by their disks alone")?;
        }
        return Ok(());
    }
    for validator in network.validators.as_slice() {
        if let Some(step) = validator.restarted {
            let me = validator.me;
            println!(rt; "{me:>2} was stopped in step {step} and started again by its disk alone")?;
        }
    }
    Ok(())
}

// The views whose proposals are final, each on the one before it.
fn draw_chain(rt: &(impl AllocGlobal + Print), network: &Network) -> Result<()> {
    print!(rt; "final chain: 0")?;
    let chain = Chain::of(rt.alloc(), network)?;
    for view in chain.blocks.as_slice() {
        print!(rt; " <- {view}")?;
    }
    println!(rt; "")?;
    Ok(())
}

fn draw_votes(rt: &impl Print, network: &Network) -> Result<()> {
    let mut all = NOTHING;
    for validator in network.validators.as_slice() {
        all = all.with(&validator.counts);
    }
    let Counts {
        votes,
        added,
        outside,
        dropped,
        rounds,
    } = all;
    print!(rt; "votes heard {votes}, added {added}, ")?;
    println!(rt; "outside of windows {outside}; messages of blocked peers {dropped}")?;
    print!(rt; "rounds kept at once: {rounds} at most, from the last final view ")?;
    println!(rt; "to {AHEAD} beyond the current")?;
    Ok(())
}

fn draw_checks(rt: &impl Print, checks: &Checks) -> Result<()> {
    let blocks = checks.blocks;
    let agreed = yes_or_no(checks.agreed);
    let grew = yes_or_no(checks.grew);
    let consistent = yes_or_no(checks.consistent);
    let caught = yes_or_no(checks.caught);
    let spared = yes_or_no(checks.spared);
    let rested = yes_or_no(checks.rested);
    let completed = yes_or_no(checks.completed);
    println!(rt; "all honest validators agree on a final chain of {blocks} blocks: {agreed}")?;
    println!(rt; "it grew, also after the last restart, and all of them came to its end: {grew}")?;
    println!(rt; "no honest one contradicted itself: {consistent}")?;
    println!(rt; "each honest one blocked just those that it saw reason to block: {caught}")?;
    println!(rt; "no honest one is blocked by anybody: {spared}")?;
    println!(rt; "no vote that came again woke a view that was at rest: {rested}")?;
    println!(rt;
        "each quorum of votes that came to an honest one was certified there: {completed}"
    )?;
    Ok(())
}

fn yes_or_no(holds: bool) -> &'static str {
    if holds { "yes" } else { "NO" }
}
