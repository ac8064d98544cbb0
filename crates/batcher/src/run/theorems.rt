//! What holds of all rounds, as the contracts of functions that do nothing.

ghost use Rattle.std.specs.Prelude.{◌≤◌, length};
ghost use Rattle.batcher_types.specs.declared.positions.Round.{Round as TheNumber};
ghost use Rattle.batcher_votes.specs.declared.votes.Mode.{Mode as TheMode};
ghost use Rattle.batcher_histories.specs.Config.{config, Config as TheConfig};
ghost use Rattle.batcher_histories.specs.OrderIndependence.{OrderIsFree};
ghost use Rattle.batcher_histories.specs.Examples.Answers.{WorkedExamples};
ghost use Rattle.batcher_histories.specs.Examples.Certificates.{CertificateExamples};
ghost use Rattle.batcher_histories.specs.Examples.Blocks.{BlockExamples};
ghost use Rattle.batcher_histories.specs.Examples.Honest.{HonestExamples};
ghost use Rattle.batcher_histories.specs.Examples.Replays.{ReplayExamples};
ghost use Rattle.batcher_histories.specs.Replay.{EqualRunsGoAlike};
ghost use Rattle.batcher_histories.specs.RunContract.{IsPromised};
ghost use Rattle.batcher_histories.specs.SentVotes.{SendersOfAddedGiveNoCause};
ghost use Rattle.batcher_histories.specs.History.{History as TheHistory};
ghost use Rattle.batcher_histories.specs.Answers.{IsPossible};

use crate::messages::Digest;
use crate::scheme::Scheme;

/// Does nothing. Its contract is the worked examples of `docs/GUARANTEES.md`: what histories of
/// small rounds name as answers, computed from the definitions.
pub fn worked_examples()
    ensures answers { WorkedExamples }
    ensures certificates { CertificateExamples }
    ensures blocks { BlockExamples }
    ensures honest { HonestExamples }
    ensures replays { ReplayExamples }
{}

/// Does nothing. Its contract says, for every scheme, what three constructions certify where no bad
/// vote was accepted, and when the order of the calls before them makes no difference.
pub fn order_is_free<S: Scheme<D>, D: Digest>()
    ensures { (scheme : S) (number : TheNumber) (mode : TheMode)
        → OrderIsFree
        (config (S.meaning scheme) S.PublicKey.cmp S.Signature.eq D.eq number mode) }
{}

/// Does nothing. Its contract says, for every scheme, that what `run` promises of its calls is so
/// of every possible history: one in which each call was answered as those before it name, whoever
/// made the calls. The clauses of a round's methods keep its history possible.
pub fn possible_histories_are_promised<S: Scheme<D>, D: Digest>()
    ensures { (scheme : S) (number : TheNumber) (mode : TheMode)
        → 1 ≤ length (S.meaning scheme).participants
        → (past : TheHistory D S.PublicKey S.Signature S.Certificate)
        → IsPossible
        (config (S.meaning scheme) S.PublicKey.cmp S.Signature.eq D.eq number mode) past
        → IsPromised
        (config (S.meaning scheme) S.PublicKey.cmp S.Signature.eq D.eq number mode) past }
{}

/// Does nothing. Its contract says, for every scheme, that a participant that sends just those own
/// votes which its round answered as added gives no cause to be blocked, in the history of any
/// other round of the number, in whatever mode. What it reads of its own history is promised
/// (`possible_histories_are_promised`), and whoever gives no cause is never blocked.
pub fn senders_of_added_give_no_cause<S: Scheme<D>, D: Digest>()
    ensures { (scheme : S) (number : TheNumber) (mode : TheMode)
        → SendersOfAddedGiveNoCause
        (config (S.meaning scheme) S.PublicKey.cmp S.Signature.eq D.eq number mode) }
{}

/// Does nothing. Its contract says that runs of equal calls on equal rounds, with equal generators,
/// give equal answers and leave equal rounds and generators, as long as memory isn't refused in
/// either; and that a run of the first calls gives the first answers.
pub fn replays<P, G, C, D>()
    ensures { (x : TheConfig D P G C) → EqualRunsGoAlike x }
{}
