//! Two votes that contradict each other, and whom they convict by verdicts on both.

ghost use Rattle.std.specs.Prelude.{◌≡◌};

use crate::marked::sign;
use crate::play::{TheRound, TheScheme};
use crate::verifying::attests_one;
use anyhow::{Result, bail};
use batcher::messages::{Activity, Notarize, Proposal, Sha256Digest, Subject, Vote};
use batcher::positions::{Participant, View};
use batcher::scheme::Name;
use batcher_bytes::{Keys, Signature};
use batcher_evidence::convicted_with;

/// A peer notarizes two proposals of the view. What the round reports convicts it, if both attest.
pub fn play_conviction(rt: &impl Print, round: &mut TheRound, scheme: &TheScheme) -> Result<()> {
    for payload in 1..3 {
        let proposal = Proposal::new(round.number(), View::zero(), Sha256Digest([payload; 32]));
        let attestation = sign(Participant::new(1), Keys([7; 32]));
        let vote = Vote::Notarize(Notarize {
            proposal,
            attestation,
        });
        if !round.belongs(&vote) {
            bail!("the vote is of this round");
        }
        let admission = round.add_network(Name(1), vote)?;
        let Some(report) = admission.report else {
            continue;
        };
        match convicted_of(scheme, &report) {
            Some(signer) => println!(rt; "participant {signer} is convicted")?,
            None => println!(rt; "a report that convicts nobody")?,
        }
    }
    Ok(())
}

// The participant that the report convicts, by a verdict on each of its votes.
fn convicted_of(
    scheme: &TheScheme,
    report: &Activity<Signature, Sha256Digest>,
) -> Option<Participant> {
    let Activity::ConflictingNotarize(first, second) = report else {
        return None;
    };
    let first_attests = attests_one(scheme, about(first.proposal), &first.attestation);
    let second_attests = attests_one(scheme, about(second.proposal), &second.attestation);
    convicted_with(scheme, report, first_attests, second_attests)
}

fn about(proposal: Proposal<Sha256Digest>) -> Subject<Sha256Digest>
    ensures { result ≡ Subject.Notarize proposal }
{
    Subject::Notarize { proposal }
}
