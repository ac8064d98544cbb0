//! A quorum that is verified as a whole, as by a scheme that aggregates.

ghost use Rattle.std.specs.Prelude.{◌≡◌, ◌++◌, ◌≤◌, true, length, IfOk, IfSome};
ghost use Rattle.batcher.specs.Attestations.{IsQuorum, index_of_signer};
ghost use Rattle.batcher.specs.Lists.{EachOnce};
ghost use Rattle.batcher.specs.Quorum.{quorum_of};
ghost use Rattle.batcher_bytes.specs.Meanings.{certifies};

use crate::marked::Marked;
use crate::play::{TheRound, TheScheme, hear};
use crate::verifying::pass;
use anyhow::Result;
use batcher::messages::{Attestation, Sha256Digest, Subject};
use batcher::positions::quorum;
use batcher_bytes::{Content, Signature};
use std::alloc::{AllocError, Global};

/// Three nullifies come. Where they pass as a whole, no attestation is verified by itself.
pub fn play_together(
    rt: &impl Print,
    alloc: Global,
    round: &mut TheRound,
    scheme: &TheScheme,
) -> Result<()>
    requires { round.old.scheme ≡ scheme.now }
{
    hear(rt, round, 0)?;
    hear(rt, round, 1)?;
    hear(rt, round, 2)?;
    let Some(next) = round.next_attempt() else {
        println!(rt; "nothing is wanted")?;
        return Ok(());
    };
    let (subject, pending) = (next.subject, Vec::from_slice(alloc, next.pending)?);
    let made = certify(alloc, scheme, subject, next.verified, next.pending)?;
    let Some(certificate) = made else {
        println!(rt; "they don't pass as a whole")?;
        return Ok(());
    };
    let Some(batch) = round.conclude_with(subject, pending.as_slice(), certificate) else {
        println!(rt; "others wait by now")?;
        return Ok(());
    };
    println!(rt;
        "as a whole: processed {}, fallback {}",
        batch.processed, batch.fallback
    )?;
    Ok(())
}

// The certificate of all of them, where they are a quorum that passes as a whole.
fn certify(
    alloc: Global,
    scheme: &TheScheme,
    subject: Subject<Sha256Digest>,
    verified: &[Attestation<Signature>],
    pending: &[Attestation<Signature>],
) -> Result<Option<Content<Marked>>, AllocError>
    requires { EachOnce index_of_signer (verified.now ++ pending.now) }
    ensures { IfOk result (λ made. IfSome made (λ certificate. certifies scheme.now.keys
        (length scheme.now.participants) subject certificate ≡ true)) }
{
    let mut all = Vec::from_slice(alloc, verified)?;
    all.extend_from_slice(pending)?;
    let participants = scheme.participants.len();
    if participants == 0 || all.len() < quorum(participants as u32) as usize {
        return Ok(None);
    }
    if !pass(scheme, subject, all.as_slice()) {
        return Ok(None);
    }
    Ok(Some(scheme.together(alloc, subject, verified, pending)?))
}
