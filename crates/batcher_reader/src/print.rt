//! What a play prints. docs/FORMATS.md has the texts.

use crate::input::Stop;
use crate::script::Opening;
use batcher::run::Answer;
use batcher_round::round::{Admission, BlockReason};
use batcher_types::messages::{Activity, Certificate, Proposal, Sha256Digest};
use batcher_types::positions::{Participant, Participants, quorum};
use batcher_types::scheme::Name;
use batcher_votes::verifier::Batch;
use std::alloc::Global;
use std::collections::BTreeSet;
use std::fmt;
use std::io::Write;

/// How many bytes of text are enough to be written.
const ENOUGH: usize = 8192;

/// Lines on their way to a writer.
#[derive(Drop)]
pub struct Output<W> {
    writer: W,
    /// Text that is not yet written.
    text: String,
}

impl<W: Write> Output<W> {
    pub fn new(alloc: Global, writer: W) -> Output<W> {
        Output {
            writer,
            text: String::new(alloc),
        }
    }

    /// Adds a line. Out of memory may leave a part of it.
    pub fn print<D: fmt::Display + Drop>(&mut self, line: D) -> Result<(), Stop> {
        writeln!(self.text, "{line}").map_err(|_| Stop::OutOfMemory)?;
        if self.text.len() < ENOUGH {
            return Ok(());
        }
        self.write()
    }

    fn write(&mut self) -> Result<(), Stop> {
        self.writer
            .write_all(self.text.as_bytes())
            .map_err(|_| Stop::Output)?;
        self.text.clear();
        Ok(())
    }

    /// Writes all lines that were printed.
    pub fn flush(&mut self) -> Result<(), Stop> {
        self.write()?;
        self.writer.flush().map_err(|_| Stop::Output)
    }
}

/// Prints the line of an answer. To one that is out of memory there is none.
pub fn print_answer<G: Drop, C: Drop, W: Write>(
    answer: &Answer<G, C, Sha256Digest>,
    output: &mut Output<W>,
) -> Result<(), Stop> {
    match answer {
        Answer::Network(admission) => output.print(format_args!("net: {}", AsText(admission))),
        Answer::Own(outcome, report) => {
            let report = AsText(report);
            output.print(format_args!("own: {outcome}, report {report}"))
        }
        Answer::OwnRefused(fault) => output.print(format_args!("own: refused {fault}")),
        Answer::Certificate(changed) => output.print(format_args!("cert: {changed}")),
        Answer::Leader(Ok(())) => output.print(format_args!("leader: ok")),
        Answer::Leader(Err(fault)) => output.print(format_args!("leader: refused {fault}")),
        Answer::Construct(batch) => output.print(format_args!("construct: {}", AsText(batch))),
        Answer::Forward(proposal) => output.print(format_args!("forward: {}", AsText(proposal))),
        Answer::Missing(missing) => output.print(format_args!("missing: {}", AsText(missing))),
        Answer::OutOfMemory => Err(Stop::OutOfMemory),
    }
}

/// A value that has a text in a play's output. Of a value with a digest it isn't the one that the
/// library displays: a script names a payload by one byte, and so it is printed.
pub trait Text: Drop {
    fn write<W: fmt::Write>(&self, f: &mut fmt::Formatter<W>) -> fmt::Result;
}

/// The text of a value.
#[derive(Drop)]
pub struct AsText<'a, T>(pub &'a T);

impl<T: Text> fmt::Display for AsText<'_, T> {
    fn fmt<W: fmt::Write>(&self, f: &mut fmt::Formatter<W>) -> fmt::Result {
        self.0.write(f)
    }
}

impl<T: Text> Text for Option<T> {
    fn write<W: fmt::Write>(&self, f: &mut fmt::Formatter<W>) -> fmt::Result {
        match self {
            None => write!(f, "none"),
            Some(value) => value.write(f),
        }
    }
}

impl<T: Text> Text for &[T] {
    fn write<W: fmt::Write>(&self, f: &mut fmt::Formatter<W>) -> fmt::Result {
        write!(f, "[")?;
        for (place, item) in self.iter().enumerate() {
            if place > 0 {
                write!(f, ", ")?;
            }
            item.write(f)?;
        }
        write!(f, "]")
    }
}

impl<T: Text + Ord> Text for BTreeSet<T> {
    fn write<W: fmt::Write>(&self, f: &mut fmt::Formatter<W>) -> fmt::Result {
        write!(f, "[")?;
        for (place, item) in self.iter().enumerate() {
            if place > 0 {
                write!(f, ", ")?;
            }
            item.write(f)?;
        }
        write!(f, "]")
    }
}

impl Text for Opening {
    fn write<W: fmt::Write>(&self, f: &mut fmt::Formatter<W>) -> fmt::Result {
        let round = self.round;
        let participants = self.participants;
        let quorum = quorum(participants);
        write!(
            f,
            "round {round} participants {participants} quorum {quorum}"
        )
    }
}

impl Text for Participant {
    fn write<W: fmt::Write>(&self, f: &mut fmt::Formatter<W>) -> fmt::Result {
        write!(f, "{self}")
    }
}

impl Text for Name {
    fn write<W: fmt::Write>(&self, f: &mut fmt::Formatter<W>) -> fmt::Result {
        write!(f, "{}", self.0)
    }
}

impl Text for Participants {
    fn write<W: fmt::Write>(&self, f: &mut fmt::Formatter<W>) -> fmt::Result {
        self.as_slice().write(f)
    }
}

impl Text for Sha256Digest {
    fn write<W: fmt::Write>(&self, f: &mut fmt::Formatter<W>) -> fmt::Result {
        write!(f, "{}", self.0[0])
    }
}

impl Text for Proposal<Sha256Digest> {
    fn write<W: fmt::Write>(&self, f: &mut fmt::Formatter<W>) -> fmt::Result {
        self.payload.write(f)
    }
}

impl Text for BlockReason {
    fn write<W: fmt::Write>(&self, f: &mut fmt::Formatter<W>) -> fmt::Result {
        write!(f, "{self}")
    }
}

impl<G: Drop> Text for Activity<G, Sha256Digest> {
    fn write<W: fmt::Write>(&self, f: &mut fmt::Formatter<W>) -> fmt::Result {
        match self {
            Activity::Notarize(vote) => {
                let signer = AsText(&vote.attestation.signer);
                let payload = AsText(&vote.proposal.payload);
                write!(f, "notarize({signer}, {payload})")
            }
            Activity::Nullify(vote) => {
                let signer = AsText(&vote.attestation.signer);
                write!(f, "nullify({signer})")
            }
            Activity::Finalize(vote) => {
                let signer = AsText(&vote.attestation.signer);
                let payload = AsText(&vote.proposal.payload);
                write!(f, "finalize({signer}, {payload})")
            }
            Activity::ConflictingNotarize(first, second) => {
                let signer = AsText(&second.attestation.signer);
                let kept = AsText(&first.proposal.payload);
                let later = AsText(&second.proposal.payload);
                write!(f, "conflicting-notarize({signer}, {kept}, {later})")
            }
            Activity::ConflictingFinalize(first, second) => {
                let signer = AsText(&second.attestation.signer);
                let kept = AsText(&first.proposal.payload);
                let later = AsText(&second.proposal.payload);
                write!(f, "conflicting-finalize({signer}, {kept}, {later})")
            }
            Activity::NullifyFinalize(_, vote) => {
                let signer = AsText(&vote.attestation.signer);
                let payload = AsText(&vote.proposal.payload);
                write!(f, "nullify-finalize({signer}, {payload})")
            }
        }
    }
}

impl<C: Drop> Text for Certificate<C, Sha256Digest> {
    fn write<W: fmt::Write>(&self, f: &mut fmt::Formatter<W>) -> fmt::Result {
        match self {
            Certificate::Notarization(made) => {
                let payload = AsText(&made.proposal.payload);
                write!(f, "notarization({payload})")
            }
            Certificate::Nullification(_) => write!(f, "nullification"),
            Certificate::Finalization(made) => {
                let payload = AsText(&made.proposal.payload);
                write!(f, "finalization({payload})")
            }
        }
    }
}

impl<G: Drop> Text for Admission<G, Sha256Digest> {
    fn write<W: fmt::Write>(&self, f: &mut fmt::Formatter<W>) -> fmt::Result {
        let outcome = if self.added { "added" } else { "refused" };
        let block = AsText(&self.block);
        let report = AsText(&self.report);
        write!(f, "{outcome}, block {block}, report {report}")
    }
}

impl<C: Text> Text for Batch<C> {
    fn write<W: fmt::Write>(&self, f: &mut fmt::Formatter<W>) -> fmt::Result {
        let processed = self.processed;
        let invalid = AsText(&self.invalid);
        let certificate = AsText(&self.certificate);
        let fallback = if self.fallback { "yes" } else { "no" };
        write!(f, "processed {processed}, invalid {invalid}, ")?;
        write!(f, "certificate {certificate}, fallback {fallback}")
    }
}
