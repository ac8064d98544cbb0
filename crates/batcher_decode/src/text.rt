//! The texts of messages.

use batcher_bytes::DecodeFault;
use batcher_types::messages::{
    Activity, Attestation, Certificate, Proposal, Sha256Digest, Subject, Vote,
};
use batcher_types::positions::Round;
use batcher_types::scheme::AttestationList;
use std::fmt::{self, Write};

/// What a fault is called.
pub fn fault_of(fault: DecodeFault) -> &'static str {
    match fault {
        DecodeFault::Short => "short",
        DecodeFault::Version => "version",
        DecodeFault::Kind => "kind",
        DecodeFault::Malformed => "malformed",
        DecodeFault::Evidence => "evidence",
        DecodeFault::Trailing => "trailing",
    }
}

/// What has a text here: all its numbers, and its bytes in hexadecimal.
pub trait Text: Drop {
    fn write<W: Write>(&self, to: &mut W) -> fmt::Result;
}

impl Text for Round {
    fn write<W: Write>(&self, to: &mut W) -> fmt::Result {
        write!(to, "{} {}", self.epoch.0, self.view.0)
    }
}

impl Text for Proposal<Sha256Digest> {
    fn write<W: Write>(&self, to: &mut W) -> fmt::Result {
        self.round.write(to)?;
        write!(to, " {} {}", self.parent.0, self.payload)
    }
}

impl Text for Subject<Sha256Digest> {
    fn write<W: Write>(&self, to: &mut W) -> fmt::Result {
        match self {
            Subject::Notarize { proposal } => {
                to.write_str("notarize ")?;
                proposal.write(to)
            }
            Subject::Nullify { round } => {
                to.write_str("nullify ")?;
                round.write(to)
            }
            Subject::Finalize { proposal } => {
                to.write_str("finalize ")?;
                proposal.write(to)
            }
        }
    }
}

impl<const N: usize> Text for Attestation<[u8; N]> {
    fn write<W: Write>(&self, to: &mut W) -> fmt::Result {
        write!(to, "{} ", self.signer.0)?;
        for byte in self.signature.as_slice() {
            write!(to, "{byte:02x}")?;
        }
        Ok(())
    }
}

impl Text for Vote<[u8; 64], Sha256Digest> {
    fn write<W: Write>(&self, to: &mut W) -> fmt::Result {
        self.subject().write(to)?;
        to.write_str(" by ")?;
        self.attestation().write(to)
    }
}

impl Text for Activity<[u8; 64], Sha256Digest> {
    fn write<W: Write>(&self, to: &mut W) -> fmt::Result {
        match self {
            Activity::Notarize(vote) => Vote::Notarize(*vote).write(to),
            Activity::Nullify(vote) => Vote::Nullify(*vote).write(to),
            Activity::Finalize(vote) => Vote::Finalize(*vote).write(to),
            Activity::ConflictingNotarize(first, second) => {
                Vote::Notarize(*first).write(to)?;
                to.write_str(" and ")?;
                Vote::Notarize(*second).write(to)
            }
            Activity::ConflictingFinalize(first, second) => {
                Vote::Finalize(*first).write(to)?;
                to.write_str(" and ")?;
                Vote::Finalize(*second).write(to)
            }
            Activity::NullifyFinalize(first, second) => {
                Vote::Nullify(*first).write(to)?;
                to.write_str(" and ")?;
                Vote::Finalize(*second).write(to)
            }
        }
    }
}

impl Text for Certificate<AttestationList, Sha256Digest> {
    fn write<W: Write>(&self, to: &mut W) -> fmt::Result {
        self.subject().write(to)?;
        for attestation in self.content().attestations() {
            to.write_str(" by ")?;
            attestation.write(to)?;
        }
        Ok(())
    }
}
