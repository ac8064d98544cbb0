//! A node that is handed verdicts on what waits in its next view.

ghost use Rattle.std.specs.Prelude.{◌≡◌, ◌≤◌, length, IfOk};
ghost use Rattle.batcher_bytes.specs.Listings.{attests};
ghost use Rattle.batcher_judge.specs.contracts.marked.MarkedTruth.TheImpl.{ghosts};
ghost use Rattle.batcher_verdicts.specs.Rounds.{AllTrue};

use crate::marked::sign;
use crate::play::TheScheme;
use crate::verifying::verify;
use anyhow::Result;
use batcher::messages::{Nullify, Sha256Digest, Vote};
use batcher::positions::{Epoch, Participant, Round as Number, View};
use batcher::scheme::Name;
use batcher_bytes::{Keys, Signature};
use batcher_node::Node;
use batcher_verdicts::Verdicts;
use std::alloc::Global;
use std::rc::Rc;

type TheNode = Node<TheScheme, Sha256Digest>;

/// Three nullifies of view 1 come, and verdicts on them.
pub fn play_views(rt: &impl Print, alloc: Global, scheme: &Rc<TheScheme>) -> Result<()>
    requires { 1 ≤ length scheme.now.value.participants }
{
    let shared = Rc::clone(scheme)?;
    let mut node = Node::new(alloc, Epoch::new(0), shared, View::zero(), 2, true)?;
    let played = judge_next(rt, alloc, &mut node, scheme);
    std::mem::drop(node);
    played
}

fn judge_next(rt: &impl Print, alloc: Global, node: &mut TheNode, scheme: &TheScheme) -> Result<()>
    requires { node.old.scheme ≡ scheme.now }
{
    receive(rt, node, 0)?;
    receive(rt, node, 1)?;
    receive(rt, node, 2)?;
    let mut verdicts = Verdicts::new(alloc);
    record_next(rt, alloc, node, scheme, &mut verdicts)?;
    match verdicts.try_construct_next(node)? {
        Some(one) => {
            let made = one.batch.is_some_and(|batch| batch.certificate.is_some());
            println!(rt; "view {}: a certificate {made}", one.view.0)?;
        }
        None => println!(rt; "no construction yet")?,
    }
    let blocked = node
        .blocked()
        .iter()
        .filter(|cause| cause.is_some())
        .count();
    println!(rt; "{blocked} participants are blocked")?;
    Ok(())
}

fn receive(rt: &impl Print, node: &mut TheNode, signer: u32) -> Result<()>
    ensures { IfOk result (λ _. node.new.scheme ≡ node.old.scheme) }
{
    let vote = Vote::Nullify(Nullify {
        round: Number::new(Epoch::new(0), View::new(1)),
        attestation: sign(Participant::new(signer), Keys([7; 32])),
    });
    node.receive_vote(Name(u64::from(signer)), vote)?;
    println!(rt; "a nullify of {signer}")?;
    Ok(())
}

// Verifies what the node's next view wants verdicts on.
fn record_next(
    rt: &impl Print,
    alloc: Global,
    node: &TheNode,
    scheme: &TheScheme,
    verdicts: &mut Verdicts<Signature, Sha256Digest>,
) -> Result<()>
    requires { AllTrue (attests ghosts scheme.now.keys (length scheme.now.participants))
        verdicts.old }
    ensures { IfOk result (λ _. AllTrue (attests ghosts scheme.now.keys
        (length scheme.now.participants)) verdicts.new) }
{
    let Some(view) = node.next_view() else {
        return Ok(());
    };
    let Some(round) = node.round(view) else {
        return Ok(());
    };
    let Some(wanted) = verdicts.wanted(round) else {
        return Ok(());
    };
    let (subject, list) = (wanted.subject, wanted.pending);
    let of_list = verify(alloc, scheme, subject, list)?;
    let is_next = verdicts.record(round, subject, list, of_list.as_slice())?;
    println!(rt; "view {}: recorded {is_next}", view.0)?;
    Ok(())
}
