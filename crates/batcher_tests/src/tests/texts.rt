//! The texts of values with a digest, which no clause states, and of a round for programmers.

use super::*;
use batcher::messages::{Activity, Finalization, Notarization, Nullification};
use batcher::round::{Admission, BlockReason};
use std::fmt;

// A digest that displays as a number, and signatures that don't display.
type NumberedVote = Vote<(), u64>;

type NumberedReport = Activity<(), u64>;

type NumberedCertificate = Certificate<(), u64>;

fn numbered(payload: u64) -> Proposal<u64> {
    Proposal::new(number(), View::zero(), payload)
}

fn signed_by(signer: u32) -> Attestation<()> {
    Attestation {
        signer: Participant::new(signer),
        signature: (),
    }
}

fn notarize_for(signer: u32, payload: u64) -> Notarize<(), u64> {
    Notarize {
        proposal: numbered(payload),
        attestation: signed_by(signer),
    }
}

fn nullify_by(signer: u32) -> Nullify<()> {
    Nullify {
        round: number(),
        attestation: signed_by(signer),
    }
}

fn finalize_for(signer: u32, payload: u64) -> Finalize<(), u64> {
    Finalize {
        proposal: numbered(payload),
        attestation: signed_by(signer),
    }
}

fn displays<T: fmt::Display>(
    rt: &impl Abort,
    alloc: Global,
    value: &T,
    text: &str,
) -> Result<(), AllocError> {
    let shown = format!(in alloc; "{value}")?;
    assert_eq!(rt; shown.as_str(), text);
    Ok(())
}

#[test]
fn votes_display_their_kind_signer_and_payload(rt: HostRuntime) -> Result<(), Fail> {
    let notarize: NumberedVote = Vote::Notarize(notarize_for(3, 7));
    let nullify: NumberedVote = Vote::Nullify(nullify_by(3));
    let finalize: NumberedVote = Vote::Finalize(finalize_for(3, 7));
    displays(&rt, rt.alloc(), &notarize, "notarize(3, 7)")?;
    displays(&rt, rt.alloc(), &nullify, "nullify(3)")?;
    displays(&rt, rt.alloc(), &finalize, "finalize(3, 7)")?;
    Ok(())
}

#[test]
fn certificates_display_their_kind_and_payload(rt: HostRuntime) -> Result<(), Fail> {
    let notarization: NumberedCertificate = Certificate::Notarization(Notarization {
        proposal: numbered(7),
        certificate: (),
    });
    let nullification: NumberedCertificate = Certificate::Nullification(Nullification {
        round: number(),
        certificate: (),
    });
    let finalization: NumberedCertificate = Certificate::Finalization(Finalization {
        proposal: numbered(7),
        certificate: (),
    });
    displays(&rt, rt.alloc(), &notarization, "notarization(7)")?;
    displays(&rt, rt.alloc(), &nullification, "nullification")?;
    displays(&rt, rt.alloc(), &finalization, "finalization(7)")?;
    Ok(())
}

#[test]
fn reports_display_both_payloads(rt: HostRuntime) -> Result<(), Fail> {
    let notarizes: NumberedReport = Activity::ConflictingNotarize(
        notarize_for(3, 7),
        notarize_for(3, 8),
    );
    let finalizes: NumberedReport = Activity::ConflictingFinalize(
        finalize_for(3, 7),
        finalize_for(3, 8),
    );
    let both: NumberedReport = Activity::NullifyFinalize(nullify_by(3), finalize_for(3, 7));
    displays(&rt, rt.alloc(), &notarizes, "conflicting-notarize(3, 7, 8)")?;
    displays(&rt, rt.alloc(), &finalizes, "conflicting-finalize(3, 7, 8)")?;
    displays(&rt, rt.alloc(), &both, "nullify-finalize(3, 7)")?;
    Ok(())
}

#[test]
fn an_admission_displays_its_reason_and_report(rt: HostRuntime) -> Result<(), Fail> {
    let refused: Admission<(), u64> = Admission {
        added: false,
        block: Some(BlockReason::ConflictingNullify),
        report: None,
    };
    let added: Admission<(), u64> = Admission {
        added: true,
        block: None,
        report: Some(Activity::Nullify(nullify_by(0))),
    };
    let text = "refused, block conflicting nullify, report none";
    displays(&rt, rt.alloc(), &refused, text)?;
    let text = "added, block none, report nullify(0)";
    displays(&rt, rt.alloc(), &added, text)?;
    Ok(())
}

fn debugs(rt: &impl Abort, alloc: Global, round: &TestRound) -> Result<(), AllocError> {
    let shown = format!(in alloc; "{round:?}")?;
    assert_eq!(rt;
        shown.as_str(),
        "Round { number: Round { epoch: Epoch(0), view: View(1) }, mode: Retaining, \
         leader: None, proposal: None, .. }"
    );
    Ok(())
}

#[test]
fn a_round_shows_what_is_no_vote(rt: HostRuntime) -> Result<(), Fail> {
    let round = round(&rt, rt.alloc(), 4, true)?;
    let shown = debugs(&rt, rt.alloc(), &round);
    drop(round);
    Ok(shown?)
}
