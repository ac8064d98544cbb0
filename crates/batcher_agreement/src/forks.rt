//! What it takes that two nodes construct certificates which contradict each other.

ghost use Rattle.std.specs.Prelude.{◌≡◌, ◌≤◌, ℕ, true, length};
ghost use Rattle.batcher.specs.messages.Certificate.{Certificate as TheCertificate};
ghost use Rattle.batcher.specs.Backing.{IsGiven};
ghost use Rattle.batcher_evidence.specs.Culprits.{certificates_contradict};
ghost use Rattle.batcher_evidence.specs.Rounds.{TakesContradicting};
ghost use Rattle.batcher_node.specs.Events.{NodeHistory as TheHistory, view_history};
ghost use Rattle.batcher_node.specs.Nodes.{NodeView as TheNode};
ghost use Rattle.batcher_node.specs.Represents.{NodeRepresents, config_of};

use batcher::messages::Digest;
use batcher::scheme::Scheme;
use batcher_evidence::forks_take_contradicting_votes;
use batcher_node::{NodeConfigs, nodes_keep_their_promises};

/// Does nothing. Its contract says of any two nodes over one scheme and of one epoch, whatever they
/// were given, in whatever modes they keep their rounds: where certificates that they constructed
/// in one view contradict each other, more participants than may be faulty have cast votes in that
/// view which do, one at each node.
///
/// So with fewer such participants no two nodes construct such certificates, in any view.
pub fn nodes_fork_by_contradicting_votes<S: Scheme<D>, D: Digest>()
    ensures { (node other : TheNode S S.Signature D)
        → S.meaning other.scheme ≡ S.meaning node.scheme → other.epoch ≡ node.epoch
        → 1 ≤ length (S.meaning node.scheme).participants
        → (past other_past : TheHistory D S.PublicKey S.Signature S.Certificate)
        → NodeRepresents (⟦<S as NodeConfigs<D>>⟧.of node) past node
        → NodeRepresents (⟦<S as NodeConfigs<D>>⟧.of other) other_past other
        → (view : ℕ) (a b : TheCertificate S.Certificate D)
        → IsGiven (view_history view past) a → IsGiven (view_history view other_past) b
        → certificates_contradict D.eq a b ≡ true
        → TakesContradicting (S.meaning node.scheme) D.eq
        (config_of (⟦<S as NodeConfigs<D>>⟧.of node) past view)
        (config_of (⟦<S as NodeConfigs<D>>⟧.of other) other_past view)
        (view_history view past) (view_history view other_past) }
{
    nodes_keep_their_promises::<S, D>();
    forks_take_contradicting_votes::<S, D>()
}
