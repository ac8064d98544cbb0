//! Lives that end before all that was done in them is on the disk.

ghost use Rattle.std.specs.Prelude.{List};
ghost use Rattle.batcher_agreement.specs.Cuts.{CutLife as TheLife, KeepPolicyByDisk};
ghost use Rattle.batcher_agreement.specs.Cuts.{lives_by_disk};
ghost use Rattle.batcher_agreement.specs.Lives.{conduct_of_lives};
ghost use Rattle.batcher_agreement.specs.Policy.{KeepsPolicy};

use batcher::messages::Digest;
use batcher::scheme::Scheme;

/// Does nothing. A life may end before its last votes are on the disk, and the next one may vote
/// against them. So by all that was done in its lives a participant may break the policy, as in
/// `worked_examples`.
///
/// Its contract says that the lives keep it as their disks have them (`lives_by_disk`), where each
/// kept it behind those before it. These are the lives for `honest_voters_agree`. What a
/// participant learned by a vote that its disk lost doesn't count in them.
pub fn lives_keep_the_policy_by_their_disks<S: Scheme<D>, D: Digest>()
    ensures { (lives : List (TheLife S D S.PublicKey S.Signature S.Certificate))
        → KeepPolicyByDisk lives → KeepsPolicy (conduct_of_lives (lives_by_disk lives)) }
{}
