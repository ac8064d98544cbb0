//! A validator's side of one view: votes come in, and certificates come out.

ghost use Rattle.std.specs.Prelude.{◌≡◌, ◌∷◌, ◌↔◌, true, is_some, IfOk, IfSome, IfNone, OnErr};
ghost use Rattle.batcher.specs.calls.Call.TheVariants.{Network as NetworkCall};
ghost use Rattle.batcher.specs.calls.Call.TheVariants.{Construct as ConstructCall};
ghost use Rattle.batcher.specs.answers.Answer.TheVariants.{Network as NetworkAnswer};
ghost use Rattle.batcher.specs.answers.Answer.TheVariants.{Construct as ConstructAnswer};
ghost use Rattle.batcher.specs.Blocks.{GaveCause};
ghost use Rattle.batcher.specs.RoundState.{SameRound};
ghost use Rattle.batcher.specs.RoundContracts.{ForEachHistory, SimulatesAlways, SimulatesOnOk};
ghost use Rattle.batcher.specs.Verifiers.{certifies_itself};
ghost use Rattle.batcher.specs.Votes.{subject_of, round_in};

use batcher::messages::{Certificate, Digest, Vote};
use batcher::round::{Admission, Round, RoundConfigs};
use batcher::run::possible_histories_are_promised;
use batcher::scheme::Scheme;
use batcher::verifier::Batch;
use rand_core::CryptoRng;
use std::alloc::AllocError;

/// Takes in a vote that a peer sent, and hands on what the round answers: whether it was added, why
/// the peer is to be blocked, if it is, and what to report. A vote of another view is left out.
///
/// A refusal for memory leaves the round as it was, so the vote can be handed in again.
pub fn hear<S: Scheme<D>, D: Digest>(
    round: &mut Round<S, D>,
    sender: S::PublicKey,
    vote: Vote<S::Signature, D>,
) -> Result<Option<Admission<S::Signature, D>>, AllocError>
    ensures heard { IfOk result (λ heard. (is_some heard ≡ true)
        ↔ (round_in (subject_of vote) ≡ round.old.number)) }
    ensures left_out { IfOk result (λ heard. IfNone heard (round.new ≡ round.old)) }
    ensures meets { IfOk result (λ heard. IfSome heard (λ admission.
        SimulatesAlways ⟦<S as RoundConfigs<D>>⟧.of round.old
        (NetworkCall sender vote, NetworkAnswer admission) round.new.holds)) }
    ensures cause { IfOk result (λ heard. IfSome heard (λ admission.
        ForEachHistory ⟦<S as RoundConfigs<D>>⟧.of round.old
        (λ x past. is_some admission.block ≡ true
        → GaveCause x ((NetworkCall sender vote, NetworkAnswer admission) ∷ past) sender))) }
    ensures refused { OnErr result (round.new ≡ round.old) }
    ensures same { SameRound round.old round.new }
{
    if !round.belongs(&vote) {
        return Ok(None);
    }
    // Both are called for their contracts: there is a participant, and each possible history keeps
    // what the library promises.
    let _ = round.number();
    possible_histories_are_promised::<S, D>();
    let admission = round.add_network(sender, vote)?;
    Ok(Some(admission))
}

/// Makes one construction, and hands on the whole batch: a certificate to be sent, which the round
/// has already, and the participants whose votes don't attest.
///
/// A caller goes on by constructions alone while it is given batches. One without a certificate
/// isn't the last, since the next kind may be due. A refusal for memory leaves the round as it was.
pub fn construct<S: Scheme<D>, D: Digest, R: CryptoRng>(
    round: &mut Round<S, D>,
    rng: &mut R,
) -> Result<Option<Batch<Certificate<S::Certificate, D>>>, AllocError>
    ensures certifies { IfOk result (λ given. IfSome given (λ batch. IfSome batch.certificate
        (λ certificate. certifies_itself (S.meaning round.old.scheme) certificate ≡ true))) }
    ensures meets { SimulatesOnOk ⟦<S as RoundConfigs<D>>⟧.of round.old
        ConstructCall ConstructAnswer result round.new.holds }
    ensures refused { OnErr result (round.new ≡ round.old) }
    ensures same { SameRound round.old round.new }
{
    round.try_construct(rng)
}
