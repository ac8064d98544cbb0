//! What holds of verdicts that are kept beside a round, as the contract of a function that does
//! nothing.

ghost use Rattle.batcher_votes.specs.RoundState.{RoundView};
ghost use Rattle.batcher_verdicts.specs.Waiting.{VerdictsStay};

use batcher_round::round::RoundConfigs;
use batcher_types::messages::Digest;
use batcher_types::scheme::Scheme;

/// Does nothing. Its contract says, for every scheme, that what waits of a kind keeps its place in
/// each call of a round. So a verdict that is recorded on it stays recorded, and isn't wanted
/// again, until the kind is tried or certified, or another proposal is selected.
pub fn verdicts_stay_while_they_wait<S: Scheme<D>, D: Digest>()
    ensures { (round : RoundView S S.Signature D)
        → VerdictsStay (⟦<S as RoundConfigs<D>>⟧.of round) }
{}
