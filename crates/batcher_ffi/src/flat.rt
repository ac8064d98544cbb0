//! What crosses to C: structs of numbers, and codes in place of enums.

ghost use Rattle.std.specs.Prelude.{◌≡◌, ◌≢◌, true, false, Some, None, if◌then◌else◌};
ghost use Rattle.batcher_ffi.specs.Rounds.{is_one_of, refusals};
ghost use Rattle.batcher_ffi.specs.Flat.{kind_in, mode_in, block_in, cause_of_code, fault_in};
ghost use Rattle.batcher_ffi.specs.Flat.{round_of_flat, proposal_of_flat, attestation_in, raw_in};
ghost use Rattle.batcher_ffi.specs.Flat.{vote_of_flat, raw_vote_in, report_in, admission_in};
ghost use Rattle.batcher_ffi.specs.Flat.{outcome_in, subject_in};

use crate::codes::{
    BLOCK_CONFLICTING_FINALIZE, BLOCK_CONFLICTING_NOTARIZE, BLOCK_CONFLICTING_NULLIFY,
    BLOCK_FINALIZE_AFTER_NULLIFY, BLOCK_FINALIZE_SIGNER_MISMATCH, BLOCK_INVALID_SIGNATURE,
    BLOCK_NONE, BLOCK_NOTARIZE_SIGNER_MISMATCH, BLOCK_NULLIFY_AFTER_FINALIZE,
    BLOCK_NULLIFY_SIGNER_MISMATCH, BLOCK_UNKNOWN_PARTICIPANT, CAUSE_CERTIFICATE, CAUSE_NONE,
    CAUSE_SIGNATURE, CONFLICTING, DONE, DUPLICATE_FINALIZE, DUPLICATE_NOTARIZE, ELSEWHERE,
    FINALIZATION, FINALIZE_AFTER_NULLIFY, MALFORMED, NOT_VERIFIED, NOTARIZATION, NULLIFICATION,
    NULLIFY_AFTER_FINALIZE, OUT_OF_MEMORY, RELEASING, REPORT_CONFLICTING_FINALIZE,
    REPORT_CONFLICTING_NOTARIZE, REPORT_FINALIZE, REPORT_NONE, REPORT_NOTARIZE, REPORT_NULLIFY,
    REPORT_NULLIFY_FINALIZE, RETAINING, SKIPPED,
};
use batcher_bytes::{Signature, WIDTH};
use batcher_histories::answers::{Admission, BlockReason, OwnFault};
use batcher_node::Cause;
use batcher_types::messages::{
    Activity, Attestation, Finalize, Kind, Notarize, Nullify, Proposal, Sha256Digest, Subject, Vote,
};
use batcher_types::positions::{Epoch, Participant, Round, View};
use batcher_votes::votes::{Mode, Outcome};

/// A proposal; of a nullify and a nullification its epoch and view alone count.
#[repr(C)]
#[derive(Clone, Copy)]
pub struct FlatProposal {
    pub epoch: u64,
    pub view: u64,
    pub parent: u64,
    pub payload: [u8; 32],
}

/// An attestation: a signature of the signer, which is the first `length` of the bytes.
#[repr(C)]
#[derive(Clone, Copy)]
pub struct FlatAttestation {
    pub signer: u32,
    pub length: u8,
    pub bytes: [u8; WIDTH],
}

/// A vote.
#[repr(C)]
#[derive(Clone, Copy)]
pub struct FlatVote {
    pub proposal: FlatProposal,
    pub attestation: FlatAttestation,
    pub kind: u8,
}

/// The answer to a vote.
#[repr(C)]
#[derive(Clone, Copy)]
pub struct FlatAdmission {
    /// The votes of the report: of one that is new the first alone. The others stay as they were.
    pub first: FlatVote,
    pub second: FlatVote,
    pub report: u8,
    pub block: u8,
    pub added: bool,
    /// Of an own vote, whether votes of its kind are kept in full. False of a vote of a peer.
    pub retained: bool,
}

/// What a construction comes to.
#[repr(C)]
#[derive(Clone, Copy)]
pub struct FlatStep {
    /// What the attestations are to attest, or what the certificate is of.
    pub proposal: FlatProposal,
    pub processed: u64,
    /// How many attestations there are, also where the list has room for fewer.
    pub listed: u64,
    /// How many others are known to attest.
    pub verified: u64,
    /// How many signers of votes that don't attest there are.
    pub invalid: u64,
    pub kind: u8,
    pub certified: bool,
    pub fallback: bool,
}

/// The kind of a code.
pub fn kind_of(code: u8) -> Option<Kind>
    ensures { result ≡ kind_in code }
{
    match code {
        NOTARIZATION => Some(Kind::Notarization),
        NULLIFICATION => Some(Kind::Nullification),
        FINALIZATION => Some(Kind::Finalization),
        _ => None,
    }
}

/// The code of a kind.
pub fn kind_code(kind: Kind) -> u8
    ensures { kind_in result ≡ Some kind }
{
    match kind {
        Kind::Notarization => NOTARIZATION,
        Kind::Nullification => NULLIFICATION,
        Kind::Finalization => FINALIZATION,
    }
}

/// The mode of a code.
pub fn mode_of(code: u8) -> Option<Mode>
    ensures { result ≡ mode_in code }
{
    match code {
        RETAINING => Some(Mode::Retaining),
        RELEASING => Some(Mode::Releasing),
        SKIPPED => Some(Mode::Skipped),
        _ => None,
    }
}

// The code of a reason to block, or that there is none.
fn block_code(block: Option<BlockReason>) -> u8
    ensures { block_in result ≡ block }
{
    let Some(reason) = block else {
        return BLOCK_NONE;
    };
    match reason {
        BlockReason::UnknownParticipant => BLOCK_UNKNOWN_PARTICIPANT,
        BlockReason::NotarizeSignerMismatch => BLOCK_NOTARIZE_SIGNER_MISMATCH,
        BlockReason::NullifySignerMismatch => BLOCK_NULLIFY_SIGNER_MISMATCH,
        BlockReason::FinalizeSignerMismatch => BLOCK_FINALIZE_SIGNER_MISMATCH,
        BlockReason::ConflictingNotarize => BLOCK_CONFLICTING_NOTARIZE,
        BlockReason::ConflictingNullify => BLOCK_CONFLICTING_NULLIFY,
        BlockReason::ConflictingFinalize => BLOCK_CONFLICTING_FINALIZE,
        BlockReason::InvalidSignature => BLOCK_INVALID_SIGNATURE,
        BlockReason::NullifyAfterFinalize => BLOCK_NULLIFY_AFTER_FINALIZE,
        BlockReason::FinalizeAfterNullify => BLOCK_FINALIZE_AFTER_NULLIFY,
    }
}

/// The code of why a participant is blocked, or that it isn't.
pub fn cause_code(cause: Option<Cause>) -> u8
    ensures { cause_of_code result ≡ cause }
{
    match cause {
        None => CAUSE_NONE,
        Some(Cause::Vote(reason)) => block_code(Some(reason)),
        Some(Cause::Certificate) => CAUSE_CERTIFICATE,
        Some(Cause::Signature) => CAUSE_SIGNATURE,
    }
}

/// The code of why an own vote is refused, which says nothing else.
pub fn fault_code(fault: OwnFault) -> u8
    ensures fault { fault_in result ≡ Some fault }
    ensures codes { is_one_of refusals result ≡ true }
    ensures done { result ≢ DONE }
    ensures malformed { result ≢ MALFORMED }
    ensures elsewhere { result ≢ ELSEWHERE }
    ensures not_verified { result ≢ NOT_VERIFIED }
{
    match fault {
        OwnFault::OutOfMemory => OUT_OF_MEMORY,
        OwnFault::DuplicateNotarize => DUPLICATE_NOTARIZE,
        OwnFault::DuplicateFinalize => DUPLICATE_FINALIZE,
        OwnFault::Conflicting => CONFLICTING,
        OwnFault::NullifyAfterFinalize => NULLIFY_AFTER_FINALIZE,
        OwnFault::FinalizeAfterNullify => FINALIZE_AFTER_NULLIFY,
    }
}

/// A round number.
pub fn round_of(epoch: u64, view: u64) -> Round
    ensures epoch { result.epoch.0 ≡ epoch }
    ensures view { result.view.0 ≡ view }
{
    Round::new(Epoch(epoch), View(view))
}

impl FlatProposal {
    /// The proposal.
    pub fn proposal(&self) -> Proposal<Sha256Digest>
        ensures { result ≡ proposal_of_flat self.now }
    {
        Proposal {
            round: self.round(),
            parent: View(self.parent),
            payload: Sha256Digest(self.payload),
        }
    }

    /// The round number.
    pub fn round(&self) -> Round
        ensures { result ≡ round_of_flat self.now }
    {
        round_of(self.epoch, self.view)
    }

    /// A proposal, flat.
    pub fn of(proposal: &Proposal<Sha256Digest>) -> Self
        ensures { proposal_of_flat result ≡ proposal.now }
    {
        FlatProposal {
            epoch: proposal.round.epoch.0,
            view: proposal.round.view.0,
            parent: proposal.parent.0,
            payload: proposal.payload.0,
        }
    }

    /// A round number, flat.
    pub fn of_round(round: Round) -> Self
        ensures { round_of_flat result ≡ round }
    {
        FlatProposal {
            epoch: round.epoch.0,
            view: round.view.0,
            parent: 0,
            payload: [0; 32],
        }
    }
}

/// What is signed, flat: its kind and its proposal, or for a nullify its round number.
pub fn flat_subject(subject: &Subject<Sha256Digest>) -> (u8, FlatProposal)
    ensures { subject_in result.0 result.1 ≡ Some subject.now }
{
    match subject {
        Subject::Notarize { proposal } => (NOTARIZATION, FlatProposal::of(proposal)),
        Subject::Nullify { round } => (NULLIFICATION, FlatProposal::of_round(*round)),
        Subject::Finalize { proposal } => (FINALIZATION, FlatProposal::of(proposal)),
    }
}

/// What is signed by votes of the kind for the proposal, where the kind is one.
pub fn subject_of(kind: u8, proposal: &FlatProposal) -> Option<Subject<Sha256Digest>>
    ensures { result ≡ subject_in kind proposal.now }
{
    match kind_of(kind)? {
        Kind::Notarization => Some(Subject::Notarize {
            proposal: proposal.proposal(),
        }),
        Kind::Nullification => Some(Subject::Nullify {
            round: proposal.round(),
        }),
        Kind::Finalization => Some(Subject::Finalize {
            proposal: proposal.proposal(),
        }),
    }
}

impl FlatAttestation {
    /// The attestation. None where its signature is longer than there are bytes.
    pub fn attestation(&self) -> Option<Attestation<Signature>>
        ensures { result ≡ attestation_in self.now }
    {
        let length = self.length as usize;
        if length > WIDTH {
            return None;
        }
        let signature = Signature::new(&self.bytes[..length])?;
        Some(Attestation {
            signer: Participant(self.signer),
            signature,
        })
    }

    /// An attestation, flat.
    pub fn of(attestation: &Attestation<Signature>) -> Self
        ensures { raw_in result ≡ attestation.now }
    {
        FlatAttestation {
            signer: attestation.signer.0,
            length: attestation.signature.length,
            bytes: attestation.signature.bytes,
        }
    }
}

impl FlatVote {
    /// The vote. None where its kind is none, or its signature is longer than there are bytes.
    pub fn vote(&self) -> Option<Vote<Signature, Sha256Digest>>
        ensures { result ≡ vote_of_flat self.now }
    {
        let attestation = self.attestation.attestation()?;
        match kind_of(self.kind)? {
            Kind::Notarization => Some(Vote::Notarize(Notarize {
                proposal: self.proposal.proposal(),
                attestation,
            })),
            Kind::Nullification => Some(Vote::Nullify(Nullify {
                round: self.proposal.round(),
                attestation,
            })),
            Kind::Finalization => Some(Vote::Finalize(Finalize {
                proposal: self.proposal.proposal(),
                attestation,
            })),
        }
    }

    /// Writes a vote.
    pub fn write(&mut self, vote: &Vote<Signature, Sha256Digest>)
        ensures { raw_vote_in self.new ≡ Some vote.now }
    {
        match vote {
            Vote::Notarize(vote) => self.write_notarize(vote),
            Vote::Nullify(vote) => self.write_nullify(vote),
            Vote::Finalize(vote) => self.write_finalize(vote),
        }
    }

    // Each is written in place: a flat vote that is made first would be copied.
    fn write_notarize(&mut self, vote: &Notarize<Signature, Sha256Digest>)
        ensures { raw_vote_in self.new ≡ Some (Vote.Notarize vote.now) }
    {
        self.proposal = FlatProposal::of(&vote.proposal);
        self.attestation = FlatAttestation::of(&vote.attestation);
        self.kind = NOTARIZATION;
    }

    fn write_nullify(&mut self, vote: &Nullify<Signature>)
        ensures { raw_vote_in self.new ≡ Some (Vote.Nullify vote.now) }
    {
        self.proposal = FlatProposal::of_round(vote.round);
        self.attestation = FlatAttestation::of(&vote.attestation);
        self.kind = NULLIFICATION;
    }

    fn write_finalize(&mut self, vote: &Finalize<Signature, Sha256Digest>)
        ensures { raw_vote_in self.new ≡ Some (Vote.Finalize vote.now) }
    {
        self.proposal = FlatProposal::of(&vote.proposal);
        self.attestation = FlatAttestation::of(&vote.attestation);
        self.kind = FINALIZATION;
    }
}

impl FlatAdmission {
    /// Writes the answer to a vote of a peer.
    pub fn write(&mut self, admission: &Admission<Signature, Sha256Digest>)
        ensures admission { admission_in self.new ≡ admission.now }
        ensures retained { self.new.retained ≡ false }
    {
        self.set(admission.added, false, admission.block, &admission.report);
    }

    /// Writes the answer to an own vote: it is added, or one of its kind and signer was there.
    pub fn write_own(
        &mut self,
        added: bool,
        retained: bool,
        report: &Option<Activity<Signature, Sha256Digest>>,
    )
        ensures outcome { outcome_in self.new ≡ (if added then Outcome.Added retained else
            Outcome.Duplicate retained) }
        ensures report { report_in self.new ≡ report.now }
    {
        self.set(added, retained, None, report);
    }

    // A vote that the report doesn't have stays as it was: it takes as long to write as all else.
    fn set(
        &mut self,
        added: bool,
        retained: bool,
        block: Option<BlockReason>,
        report: &Option<Activity<Signature, Sha256Digest>>,
    )
        ensures added { self.new.added ≡ added }
        ensures retained { self.new.retained ≡ retained }
        ensures block { block_in self.new.block ≡ block }
        ensures report { report_in self.new ≡ report.now }
    {
        self.added = added;
        self.retained = retained;
        self.block = block_code(block);
        match report {
            None => self.report = REPORT_NONE,
            Some(Activity::Notarize(vote)) => {
                self.report = REPORT_NOTARIZE;
                self.first.write_notarize(vote);
            }
            Some(Activity::Nullify(vote)) => {
                self.report = REPORT_NULLIFY;
                self.first.write_nullify(vote);
            }
            Some(Activity::Finalize(vote)) => {
                self.report = REPORT_FINALIZE;
                self.first.write_finalize(vote);
            }
            Some(Activity::ConflictingNotarize(first, second)) => {
                self.report = REPORT_CONFLICTING_NOTARIZE;
                self.first.write_notarize(first);
                self.second.write_notarize(second);
            }
            Some(Activity::ConflictingFinalize(first, second)) => {
                self.report = REPORT_CONFLICTING_FINALIZE;
                self.first.write_finalize(first);
                self.second.write_finalize(second);
            }
            Some(Activity::NullifyFinalize(first, second)) => {
                self.report = REPORT_NULLIFY_FINALIZE;
                self.first.write_nullify(first);
                self.second.write_finalize(second);
            }
        }
    }
}
