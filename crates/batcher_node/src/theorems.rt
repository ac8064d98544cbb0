//! What holds of all nodes, as the contracts of functions that do nothing.

ghost use Rattle.std.specs.Prelude.{◌≡◌, ◌≤◌, ◌<◌, ℕ, length, None, All};
ghost use Rattle.batcher_node.specs.Events.{NodeHistory as TheHistory};
ghost use Rattle.batcher_node.specs.Nodes.{NodeView as TheNode, IsAtRest, cause_at};
ghost use Rattle.batcher_node.specs.Represents.{NodeRepresents};
ghost use Rattle.batcher_node.specs.NodePromises.{IsNodePromised, IsComplete};
ghost use Rattle.batcher_node.specs.Sending.{SendsWhatIsToSend, HoldsCertified};
ghost use Rattle.batcher_node.specs.SendingExamples.{SendingExamples};

use crate::node::NodeConfigs;
use batcher::messages::Digest;
use batcher::run::{possible_histories_are_promised, senders_of_added_give_no_cause};
use batcher::scheme::Scheme;

/// Does nothing. Its contract says what is promised of a node, whatever history it represents: in
/// each view all that `run` promises of a round, and that who is blocked gave cause by what it did
/// itself. So an honest peer is never blocked, whatever others send in any view. Where
/// `try_construct` gives no answer, the node rests, and has lost no quorum.
pub fn nodes_keep_their_promises<S: Scheme<D>, D: Digest>()
    ensures promised { (node : TheNode S S.Signature D)
        → 1 ≤ length (S.meaning node.scheme).participants
        → (past : TheHistory D S.PublicKey S.Signature S.Certificate)
        → NodeRepresents (⟦<S as NodeConfigs<D>>⟧.of node) past node
        → IsNodePromised (⟦<S as NodeConfigs<D>>⟧.of node) past }
    ensures complete { (node : TheNode S S.Signature D)
        → 1 ≤ length (S.meaning node.scheme).participants
        → (past : TheHistory D S.PublicKey S.Signature S.Certificate)
        → NodeRepresents (⟦<S as NodeConfigs<D>>⟧.of node) past node
        → IsAtRest node → IsComplete (⟦<S as NodeConfigs<D>>⟧.of node) past node }
{
    possible_histories_are_promised::<S, D>()
}

/// Does nothing. Its contract says of any two nodes over one scheme that a participant which sends
/// the other node just the votes that its own answered as to be sent, and certificates that certify
/// what they name, is not blocked there: in no view, whatever the modes of the nodes, whatever
/// others send, and whenever. Certificates that a node recorded or gave certify what they name.
pub fn senders_of_votes_to_send_are_never_blocked<S: Scheme<D>, D: Digest>()
    ensures not_blocked { (own other : TheNode S S.Signature D)
        → S.meaning other.scheme ≡ S.meaning own.scheme
        → (sent heard : TheHistory D S.PublicKey S.Signature S.Certificate)
        → NodeRepresents (⟦<S as NodeConfigs<D>>⟧.of own) sent own
        → NodeRepresents (⟦<S as NodeConfigs<D>>⟧.of other) heard other
        → (i : ℕ) → i < length (S.meaning own.scheme).participants
        → SendsWhatIsToSend (⟦<S as NodeConfigs<D>>⟧.of other) sent heard i
        → cause_at other.blocked i ≡ None }
    ensures held_certify { (node : TheNode S S.Signature D)
        → 1 ≤ length (S.meaning node.scheme).participants
        → (past : TheHistory D S.PublicKey S.Signature S.Certificate)
        → NodeRepresents (⟦<S as NodeConfigs<D>>⟧.of node) past node
        → All (HoldsCertified (⟦<S as NodeConfigs<D>>⟧.of node)) past }
{
    nodes_keep_their_promises::<S, D>();
    senders_of_added_give_no_cause::<S, D>()
}

/// Does nothing. Its contract is worked examples of the one before: a participant of four that
/// sends what is to be sent, and what comes of others, computed from the definitions.
pub fn worked_examples()
    ensures { SendingExamples }
{}
