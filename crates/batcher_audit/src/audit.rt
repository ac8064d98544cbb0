//! Plays the scripts of nodes, each in a view of one epoch, and prints the evidence that they hold.

ghost use Rattle.std.specs.Prelude.{◌≡◌, true};
ghost use Rattle.std.specs.List.{list_all};
ghost use Rattle.batcher_reader.specs.Commands.{is_signer_among};

use crate::scripts::{Scripts, read_scripts};
use batcher::messages::{Activity, Certificate, Sha256Digest};
use batcher::run::{Answer, Call};
use batcher::scheme::{Counter, Keyed, Sealed};
use batcher_evidence::{Culprit, certificates_contradict, convicted, culprits};
use batcher_reader::calls::TestScheme;
use batcher_reader::input::{Stop, read_all};
use batcher_reader::print::{AsText, Output, Text};
use batcher_reader::rounds::{Answered, answer_all, scheme_of};
use batcher_reader::script::{Command, Opening, SchemeWord, Script};
use std::alloc::{AllocError, Global};
use std::fmt;
use std::io::{Read, Write};
use std::rc::Rc;

/// Audits the scripts that the reader holds, and answers the exit status.
pub fn audit<R: Read + Drop, W: Write + Drop>(alloc: Global, reader: R, writer: W) -> u8 {
    match audit_all(alloc, reader, writer) {
        Ok(()) => 0,
        Err(stop) => stop.status(),
    }
}

fn audit_all<R: Read + Drop, W: Write + Drop>(
    alloc: Global,
    mut reader: R,
    writer: W,
) -> Result<(), Stop> {
    let bytes = read_all(alloc, &mut reader)?;
    let scripts = read_scripts(alloc, bytes.as_slice())?;
    let mut output = Output::new(alloc, writer);
    let audited = print_audit(alloc, &scripts, &mut output);
    if audited != Err(Stop::Output) {
        output.flush()?;
    }
    audited
}

fn print_audit<W: Write>(
    alloc: Global,
    scripts: &Scripts,
    output: &mut Output<W>,
) -> Result<(), Stop> {
    if let Some(first) = scripts.all.first()
        && let Some(opening) = &first.lines.opening
    {
        output.print(AsText(opening))?;
        match opening.scheme {
            SchemeWord::Keyed => print_evidence::<Keyed<true>, W>(alloc, scripts, output)?,
            SchemeWord::Single => print_evidence::<Keyed<false>, W>(alloc, scripts, output)?,
            SchemeWord::Sealed => print_evidence::<Sealed, W>(alloc, scripts, output)?,
        }
    }
    match scripts.malformed {
        None => Ok(()),
        Some(number) => {
            output.print(format_args!("line {number}: malformed"))?;
            Err(Stop::Malformed)
        }
    }
}

/// A scheme by whom its certificates show.
trait Shows: TestScheme {
    /// Who signed both of two certificates, where they show that.
    fn culprits(
        &self,
        alloc: Global,
        a: &Certificate<Self::Certificate, Sha256Digest>,
        b: &Certificate<Self::Certificate, Sha256Digest>,
    ) -> Result<Option<Vec<Culprit<[u8; 32]>>>, AllocError>;
}

impl<const BATCHABLE: bool> Shows for Keyed<BATCHABLE> {
    fn culprits(
        &self,
        alloc: Global,
        a: &Certificate<Self::Certificate, Sha256Digest>,
        b: &Certificate<Self::Certificate, Sha256Digest>,
    ) -> Result<Option<Vec<Culprit<[u8; 32]>>>, AllocError> {
        culprits(alloc, self, a, b)
    }
}

impl Shows for Sealed {
    fn culprits(
        &self,
        _alloc: Global,
        _a: &Certificate<Self::Certificate, Sha256Digest>,
        _b: &Certificate<Self::Certificate, Sha256Digest>,
    ) -> Result<Option<Vec<Culprit<[u8; 32]>>>, AllocError> {
        Ok(None)
    }
}

/// What a node was asked and answered in a view.
#[derive(Drop)]
struct Node<S: TestScheme> {
    /// Which of the scripts is its, counted from 1.
    number: usize,
    scheme: Rc<S>,
    answered: Answered<S::Certificate>,
}

/// Plays the script of a node, if it has a `round` line.
fn play<S: TestScheme>(
    alloc: Global,
    number: usize,
    script: &Script,
) -> Result<Option<Node<S>>, AllocError> {
    let Some(opening) = &script.lines.opening else {
        return Ok(None);
    };
    let scheme = scheme_of::<S>(alloc, opening)?;
    let commands = script.lines.commands.as_slice();
    let answered = answer_all(alloc, opening, Rc::clone(&scheme)?, commands)?;
    Ok(Some(Node {
        number,
        scheme,
        answered,
    }))
}

/// A certificate that a node gave, or that was recorded there.
#[derive(Drop)]
struct Seen<'a, C: Drop> {
    node: usize,
    verb: &'static str,
    certificate: &'a Certificate<C, Sha256Digest>,
}

impl<C: Drop> Text for Seen<'_, C> {
    fn write<W: fmt::Write>(&self, f: &mut fmt::Formatter<W>) -> fmt::Result {
        let certificate = AsText(self.certificate);
        write!(f, "node {} {} {certificate}", self.node, self.verb)
    }
}

fn print_evidence<S: Shows, W: Write>(
    alloc: Global,
    scripts: &Scripts,
    output: &mut Output<W>,
) -> Result<(), Stop> {
    let mut nodes = Vec::new(alloc);
    for (place, script) in scripts.all.iter().enumerate() {
        if let Some(node) = play::<S>(alloc, place.saturating_add(1), script)? {
            nodes.push(node).map_err(AllocError::from)?;
        }
    }
    for node in &nodes {
        print_reports(alloc, node, output)?;
    }
    print_contradictions(alloc, nodes.as_slice(), output)
}

/// Prints whom each report of two votes convicts.
fn print_reports<S: TestScheme, W: Write>(
    alloc: Global,
    node: &Node<S>,
    output: &mut Output<W>,
) -> Result<(), Stop> {
    let number = node.number;
    for answer in node.answered.answers.as_slice() {
        match answer {
            Answer::OutOfMemory => return Err(Stop::OutOfMemory),
            Answer::Network(admission) => {
                if let Some(report) = &admission.report
                    && is_of_two(report)
                {
                    let mut rng = Counter::new(0);
                    let found = convicted(alloc, &*node.scheme, &mut rng, report)?;
                    let report = AsText(report);
                    let found = AsText(&found);
                    output.print(format_args!("node {number}: {report} convicts {found}"))?;
                }
            }
            Answer::Own(..)
            | Answer::OwnRefused(_)
            | Answer::Certificate(_)
            | Answer::Leader(_)
            | Answer::Construct(_)
            | Answer::Forward(_)
            | Answer::Missing(_) => {}
        }
    }
    Ok(())
}

// Whether a report is of two votes. One of a single vote convicts nobody.
fn is_of_two<G, D>(report: &Activity<G, D>) -> bool {
    !matches!(
        report,
        Activity::Notarize(_) | Activity::Nullify(_) | Activity::Finalize(_)
    )
}

/// The certificates of the nodes, each node's in the order of its calls.
fn certificates<S: TestScheme>(
    alloc: Global,
    nodes: &[Node<S>],
) -> Result<Vec<Seen<'_, S::Certificate>>, AllocError> {
    let mut seen = Vec::new(alloc);
    for node in nodes {
        let calls = node.answered.calls.as_slice();
        let answers = node.answered.answers.as_slice();
        for (call, answer) in calls.iter().zip(answers) {
            if let Call::Certificate(certificate) = call {
                seen.push(Seen {
                    node: node.number,
                    verb: "recorded",
                    certificate,
                })?;
            }
            if let Answer::Construct(Some(batch)) = answer
                && let Some(certificate) = &batch.certificate
            {
                seen.push(Seen {
                    node: node.number,
                    verb: "gave",
                    certificate,
                })?;
            }
        }
    }
    Ok(seen)
}

/// Prints who signed both of each two certificates that contradict each other.
fn print_contradictions<S: Shows, W: Write>(
    alloc: Global,
    nodes: &[Node<S>],
    output: &mut Output<W>,
) -> Result<(), Stop> {
    let Some(first) = nodes.first() else {
        return Ok(());
    };
    let seen = certificates(alloc, nodes)?;
    for (place, later) in seen.iter().enumerate() {
        for earlier in seen.iter().take(place) {
            if certificates_contradict(earlier.certificate, later.certificate) {
                print_culprits(alloc, &*first.scheme, earlier, later, output)?;
            }
        }
    }
    Ok(())
}

fn print_culprits<S: Shows, W: Write>(
    alloc: Global,
    scheme: &S,
    a: &Seen<S::Certificate>,
    b: &Seen<S::Certificate>,
    output: &mut Output<W>,
) -> Result<(), Stop> {
    let earlier = AsText(a);
    let later = AsText(b);
    match scheme.culprits(alloc, a.certificate, b.certificate)? {
        None => output.print(format_args!("{earlier}, {later}: culprits not shown")),
        Some(found) => {
            let signers: Vec<_> = found
                .iter()
                .map(|culprit| culprit.first.signer)
                .collect(alloc)?;
            let signers = signers.as_slice();
            let signers = AsText(&signers);
            output.print(format_args!("{earlier}, {later}: culprits {signers}"))
        }
    }
}
