//! Two rounds that take the same calls, one that retains its votes and one that releases them.

ghost use Rattle.std.specs.Prelude.{◌≡◌, ◌≤◌, All, IfOk, OnErr, [], length, vec_capacity};
ghost use Rattle.batcher_votes.specs.declared.votes.Mode.{Mode};
ghost use Rattle.batcher_histories.specs.Config.{config};
ghost use Rattle.batcher_histories.specs.Steps.{nothing_held};
ghost use Rattle.batcher_histories.specs.Runs.{MayCall};
ghost use Rattle.batcher_histories.specs.Pairs.{IsPairRun, ends_pair};

use crate::messages::Digest;
use crate::round::Round;
use crate::run::lists::{Answer, Call, Ran, step};
use crate::scheme::Scheme;
use rand_core::CryptoRng;
use std::alloc::{AllocError, Global};

/// Two rounds after the same calls, with the answers of each.
#[derive(Drop)]
pub struct PairRan<S: Scheme<D>, D: Digest> {
    pub retaining: Ran<S, D>,
    pub releasing: Ran<S, D>,
    /// The place of the call that one of them refused, the first call being at 0; `None` where
    /// none was refused.
    pub stopped: Option<usize>,
}

/// Makes each call on a round that retains its votes, and then on one that releases them.
///
/// Both rounds are fresh and of one number and scheme, and their generators have the same stream.
/// The first call that is refused, out of memory or by the fault of an own vote, stops both:
/// the refusal is the last answer of the round that refused. Where that is the retaining round the
/// other isn't asked; where it is the other, for memory alone, the retaining one has made the call.
/// Room for both lists of answers is made first: that growth alone gives the error, and both rounds
/// are then dropped.
pub fn run_pair<S: Scheme<D>, D: Digest, R: CryptoRng>(
    alloc: Global,
    retaining: Round<S, D>,
    releasing: Round<S, D>,
    rng_a: &mut R,
    rng_b: &mut R,
    calls: &[Call<S::PublicKey, S::Signature, S::Certificate, D>],
) -> Result<PairRan<S, D>, AllocError>
    requires modes { (retaining.mode ≡ Mode.Retaining) × (releasing.mode ≡ Mode.Releasing) }
    requires same { (releasing.scheme ≡ retaining.scheme) × (releasing.number ≡ retaining.number) }
    requires fresh { (retaining.holds ≡ nothing_held Mode.Retaining)
        × (releasing.holds ≡ nothing_held Mode.Releasing) }
    requires streams { R.stream rng_b.old ≡ R.stream rng_a.old }
    requires calls { All (MayCall (S.meaning retaining.scheme) retaining.number) calls.now }
    ensures ran { IfOk result (λ pair. IsPairRun
        (config (S.meaning retaining.scheme) S.PublicKey.cmp S.Signature.eq D.eq retaining.number
        Mode.Retaining) (R.stream rng_a.old) calls.now pair.stopped pair.retaining.answers.items
        pair.retaining.round.holds (R.stream rng_a.new) pair.releasing.answers.items
        pair.releasing.round.holds (R.stream rng_b.new)) }
    ensures drawn { OnErr result ((R.stream rng_a.new ≡ R.stream rng_a.old)
        × (R.stream rng_b.new ≡ R.stream rng_b.old)) }
    ensures kept { IfOk result (λ pair.
        (pair.retaining.round ≡ record retaining { holds = pair.retaining.round.holds })
        × (pair.releasing.round ≡ record releasing { holds = pair.releasing.round.holds })) }
{
    match rooms(alloc, calls.len()) {
        Ok((retained, released)) => {
            let mut retaining = Ran {
                round: retaining,
                answers: retained,
            };
            let mut releasing = Ran {
                round: releasing,
                answers: released,
            };
            let stopped = step_both(
                &mut retaining.round,
                &mut releasing.round,
                rng_a,
                rng_b,
                calls,
                &mut retaining.answers,
                &mut releasing.answers,
            );
            Ok(PairRan {
                retaining,
                releasing,
                stopped,
            })
        }
        Err(error) => {
            drop(retaining);
            drop(releasing);
            Err(error)
        }
    }
}

// Room for so many answers, twice.
fn rooms<G: Drop, C: Drop, D: Drop>(
    alloc: Global,
    calls: usize,
) -> Result<(Vec<Answer<G, C, D>>, Vec<Answer<G, C, D>>), AllocError>
    ensures empty { IfOk result (λ lists. (lists.0.items ≡ []) × (lists.1.items ≡ [])) }
    ensures room { IfOk result (λ lists. (calls ≤ vec_capacity lists.0)
        × (calls ≤ vec_capacity lists.1)) }
{
    let retained = Vec::with_capacity(alloc, calls)?;
    let released = Vec::with_capacity(alloc, calls)?;
    Ok((retained, released))
}

// Makes the calls up to the first that is refused, and gives its place.
fn step_both<S: Scheme<D>, D: Digest, R: CryptoRng>(
    retaining: &mut Round<S, D>,
    releasing: &mut Round<S, D>,
    rng_a: &mut R,
    rng_b: &mut R,
    calls: &[Call<S::PublicKey, S::Signature, S::Certificate, D>],
    retained: &mut Vec<Answer<S::Signature, S::Certificate, D>>,
    released: &mut Vec<Answer<S::Signature, S::Certificate, D>>,
) -> Option<usize>
    requires modes { (retaining.old.mode ≡ Mode.Retaining) × (releasing.old.mode ≡ Mode.Releasing) }
    requires same { (releasing.old.scheme ≡ retaining.old.scheme)
        × (releasing.old.number ≡ retaining.old.number) }
    requires fresh { (retaining.old.holds ≡ nothing_held Mode.Retaining)
        × (releasing.old.holds ≡ nothing_held Mode.Releasing) }
    requires streams { R.stream rng_b.old ≡ R.stream rng_a.old }
    requires calls { All (MayCall (S.meaning retaining.old.scheme) retaining.old.number) calls.now }
    requires empty { (retained.old.items ≡ []) × (released.old.items ≡ []) }
    requires room { (length calls.now ≤ vec_capacity retained.old)
        × (length calls.now ≤ vec_capacity released.old) }
    ensures ran { IsPairRun (config (S.meaning retaining.old.scheme) S.PublicKey.cmp S.Signature.eq
        D.eq retaining.old.number Mode.Retaining) (R.stream rng_a.old) calls.now result
        retained.new.items retaining.new.holds (R.stream rng_a.new) released.new.items
        releasing.new.holds (R.stream rng_b.new) }
    ensures kept { (retaining.new ≡ record retaining.old { holds = retaining.new.holds })
        × (releasing.new ≡ record releasing.old { holds = releasing.new.holds }) }
{
    // For what it says of every round: that it has participants.
    let _ = retaining.number();
    for call in calls {
        let index = released.len();
        let answer = step(retaining, rng_a, call);
        let is_refused = is_refusal(&answer);
        retained.push_reserved(answer);
        if is_refused {
            return Some(index);
        }
        let answer = step(releasing, rng_b, call);
        let is_refused = is_refusal(&answer);
        released.push_reserved(answer);
        if is_refused {
            return Some(index);
        }
    }
    None
}

// Whether a call was refused out of memory, or by the fault of an own vote.
fn is_refusal<G, C, D>(answer: &Answer<G, C, D>) -> bool
    ensures { result ≡ ends_pair answer.now }
{
    matches!(answer, Answer::OwnRefused(_) | Answer::OutOfMemory)
}
