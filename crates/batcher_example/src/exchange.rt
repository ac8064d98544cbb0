//! Two nodes, of which one hears what the other casts.

ghost use Rattle.std.specs.Prelude.{◌≡◌, ◌<◌, true, false, length, None, Ok};
ghost use Rattle.batcher.specs.Votes.{subject_of, attestation_of, signer_of};
ghost use Rattle.batcher.specs.answers.Admission.{Admission as TheAdmission};
ghost use Rattle.batcher_node.specs.declared.answers.Receipt.{Receipt as TheReceipt};
ghost use Rattle.batcher_node.specs.Events.{vote_came};
ghost use Rattle.batcher_node.specs.Nodes.{SameNode, cause_at};
ghost use Rattle.batcher_node.specs.Sending.{HearsWhatIsToSend};
ghost use Rattle.batcher_node.specs.Represents.{NodeMeets};

use batcher::messages::{Digest, Vote};
use batcher::round::OwnFault;
use batcher::scheme::Scheme;
use batcher_node::{Cast, Node, NodeConfigs, senders_of_votes_to_send_are_never_blocked};

/// Casts a vote at its signer's own node, and where it is to be sent hands it to another's node,
/// under the key that it came with. It says whether it did.
///
/// Where the other node had heard of the signer only what was to be sent, it goes on so, also where
/// memory is refused to it, and the signer isn't blocked there.
pub fn cast_and_send<S: Scheme<D>, D: Digest>(
    own: &mut Node<S, D>,
    other: &mut Node<S, D>,
    key: S::PublicKey,
    vote: Vote<S::Signature, D>,
) -> Result<bool, OwnFault>
    requires { (S.meaning own.old.scheme).attests (subject_of vote) (attestation_of vote) ≡ true }
    ensures keeps { HearsWhatIsToSend (⟦<S as NodeConfigs<D>>⟧.of own.old)
        (⟦<S as NodeConfigs<D>>⟧.of other.old) own.old other.old (signer_of vote)
        → HearsWhatIsToSend (⟦<S as NodeConfigs<D>>⟧.of own.old)
        (⟦<S as NodeConfigs<D>>⟧.of other.old) own.new other.new (signer_of vote) }
    ensures not_blocked { S.meaning other.old.scheme ≡ S.meaning own.old.scheme
        → signer_of vote < length (S.meaning own.old.scheme).participants
        → HearsWhatIsToSend (⟦<S as NodeConfigs<D>>⟧.of own.old)
        (⟦<S as NodeConfigs<D>>⟧.of other.old) own.old other.old (signer_of vote)
        → cause_at other.new.blocked (signer_of vote) ≡ None }
    ensures sent { result ≡ Ok true → (receipt : TheReceipt (TheAdmission S.Signature D))
        × (NodeMeets (⟦<S as NodeConfigs<D>>⟧.of other.old) other.old
        (vote_came key vote receipt) other.new) }
    ensures not_sent { result ≡ Ok false → other.new ≡ other.old }
    ensures same { (SameNode own.old own.new) × (SameNode other.old other.new) }
{
    // It is called for its contract.
    senders_of_votes_to_send_are_never_blocked::<S, D>();
    let cast = own.cast_vote(vote)?;
    match cast {
        Cast::ToSend(_) => {
            let _ = other.receive_vote(key, vote)?;
            Ok(true)
        }
        Cast::Known | Cast::Outside => Ok(false),
    }
}
