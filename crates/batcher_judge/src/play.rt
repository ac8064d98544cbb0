//! The rounds that are played, and one that is handed verdicts which come late.

ghost use Rattle.std.specs.Prelude.{◌≡◌, length, IfOk};
ghost use Rattle.batcher_bytes.specs.Listings.{attests};
ghost use Rattle.batcher_judge.specs.contracts.marked.MarkedTruth.TheImpl.{ghosts};
ghost use Rattle.batcher_verdicts.specs.Rounds.{AllTrue};

use crate::convicting::play_conviction;
use crate::elsewhere::play_certificates;
use crate::marked::{Marked, sign};
use crate::together::play_together;
use crate::verifying::verify;
use crate::views::play_views;
use anyhow::{Result, bail};
use batcher::messages::{Nullify, Sha256Digest, Vote};
use batcher::positions::{Epoch, Participant, Round as Number, View};
use batcher::round::Round;
use batcher::scheme::{Name, names};
use batcher_bytes::{Bytes, Content, Keys};
use batcher_verdicts::Verdicts;
use std::alloc::Global;
use std::rc::Rc;

pub type TheScheme = Bytes<Marked, true>;

pub type TheRound = Round<TheScheme, Sha256Digest>;

/// Plays rounds and a node of participants with these keys. All votes are signed by the keys of
/// sevens.
pub fn play(rt: &impl Print, alloc: Global, keys: Keys) -> Result<()> {
    let scheme = Rc::new(alloc, TheScheme::new(names(alloc, 4)?, keys))?;
    if scheme.participants.len() == 0 {
        bail!("a round needs a participant");
    }
    let number = Number::new(Epoch::new(0), View::new(1));
    let mut round = Round::new(alloc, number, Rc::clone(&scheme)?, true);
    let played = hear_all(rt, alloc, &mut round, &scheme);
    std::mem::drop(round);
    played?;
    let mut round = Round::new(alloc, number, Rc::clone(&scheme)?, true);
    let played = play_together(rt, alloc, &mut round, &scheme);
    std::mem::drop(round);
    played?;
    let mut round = Round::new(alloc, number, Rc::clone(&scheme)?, true);
    let played = play_conviction(rt, &mut round, &scheme);
    std::mem::drop(round);
    played?;
    let mut round = Round::new(alloc, number, Rc::clone(&scheme)?, true);
    let played = play_certificates(rt, alloc, &mut round, &scheme);
    std::mem::drop(round);
    played?;
    play_views(rt, alloc, &scheme)
}

// Three nullifies come, and while they are verified a fourth one.
fn hear_all(rt: &impl Print, alloc: Global, round: &mut TheRound, scheme: &TheScheme) -> Result<()>
    requires { round.old.scheme ≡ scheme.now }
{
    let mut verdicts = Verdicts::new(alloc);
    hear(rt, round, 0)?;
    hear(rt, round, 1)?;
    hear(rt, round, 2)?;
    judge(rt, alloc, round, scheme, &mut verdicts, Some(3))?;
    judge(rt, alloc, round, scheme, &mut verdicts, None)
}

/// A peer sends a nullify.
pub fn hear(rt: &impl Print, round: &mut TheRound, signer: u32) -> Result<()>
    ensures { IfOk result (λ _. round.new.scheme ≡ round.old.scheme) }
{
    let vote = Vote::Nullify(Nullify {
        round: round.number(),
        attestation: sign(Participant::new(signer), Keys([7; 32])),
    });
    if !round.belongs(&vote) {
        bail!("the vote is of this round");
    }
    let admission = round.add_network(Name(u64::from(signer)), vote)?;
    println!(rt; "a nullify of {signer}: added {}", admission.added)?;
    Ok(())
}

// A peer may send one more.
fn hear_late(rt: &impl Print, round: &mut TheRound, signer: Option<u32>) -> Result<()>
    ensures { IfOk result (λ _. round.new.scheme ≡ round.old.scheme) }
{
    match signer {
        Some(signer) => hear(rt, round, signer),
        None => Ok(()),
    }
}

// Verifies what the round wants verdicts on. Meanwhile another vote may come. Then constructs, if
// all are there.
fn judge(
    rt: &impl Print,
    alloc: Global,
    round: &mut TheRound,
    scheme: &TheScheme,
    verdicts: &mut Verdicts<batcher_bytes::Signature, Sha256Digest>,
    comes: Option<u32>,
) -> Result<()>
    requires scheme { round.old.scheme ≡ scheme.now }
    requires truths { AllTrue (attests ghosts scheme.now.keys
        (length scheme.now.participants)) verdicts.old }
    ensures scheme { IfOk result (λ _. round.new.scheme ≡ scheme.now) }
    ensures truths { IfOk result (λ _. AllTrue (attests ghosts scheme.now.keys
        (length scheme.now.participants)) verdicts.new) }
{
    let Some(wanted) = verdicts.wanted(round) else {
        println!(rt; "nothing is wanted")?;
        return Ok(());
    };
    let (subject, list) = (wanted.subject, Vec::from_slice(alloc, wanted.pending)?);
    println!(rt; "wanted: {} verdicts", list.len())?;
    let of_list = verify(alloc, scheme, subject, list.as_slice())?;
    hear_late(rt, round, comes)?;
    let is_next = verdicts.record(round, subject, list.as_slice(), of_list.as_slice())?;
    println!(rt; "recorded: {is_next}")?;
    let Some(batch) = verdicts.try_construct(round)? else {
        println!(rt; "no construction yet")?;
        return Ok(());
    };
    println!(rt;
        "processed {}, fallback {}",
        batch.processed, batch.fallback
    )?;
    for signer in batch.invalid.iter() {
        println!(rt; "participant {signer} is to be blocked: it signs badly")?;
    }
    if let Some(certificate) = &batch.certificate {
        if let Content::Made(listed) = certificate.content() {
            let kind = certificate.kind();
            println!(rt; "a {kind} of {} attestations", listed.attestations().len())?;
        }
    }
    Ok(())
}
