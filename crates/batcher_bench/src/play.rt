//! Plays a row on a fresh round, and takes the time that it needs.

ghost use Rattle.std.specs.Prelude.{◌≡◌, ◌≤◌, All, IfOk, length};
ghost use Rattle.batcher.specs.Votes.{round_in, subject_of, subject_certified};
ghost use Rattle.batcher_rows.specs.Steps.{IsOfRound};
ghost use Rattle.batcher_rows.specs.declared.plan.TheConstants.{NUMBER};

use anyhow::{Result, ensure};
use batcher::messages::{Activity, Certificate, Nullification, Sha256Digest, Vote};
use batcher::positions::Participant;
use batcher::round::{Admission, Round};
use batcher::scheme::{Counter, Name, names};
use batcher::verifier::Batch;
use batcher_rows::plain::{Padded, Plain, Tally, mixed};
use batcher_rows::plan::{NUMBER, Step, steps_of};
use batcher_rows::rows::{Row, Size};
use std::alloc::{AllocError, Global};
use std::fmt;
use std::rc::Rc;
use std::rt::Clock;
use std::time::Instant;

// What came of the votes of a row.
#[derive(Clone, Copy, Debug, PartialEq, Eq)]
struct Played {
    votes: usize,
    added: usize,
    certificates: usize,
    // All answers in their order, mixed into one word, or 0 where they are counted alone.
    checksum: u64,
}

impl Played {
    // No vote was played yet. The checksum has what was mixed before.
    fn new(checksum: u64) -> Self {
        Played {
            votes: 0,
            added: 0,
            certificates: 0,
            checksum,
        }
    }

    fn count_vote<P>(&mut self, admission: &Admission<Padded<P>, Sha256Digest>, mixes: bool) {
        self.votes = self.votes.saturating_add(1);
        self.added = self.added.saturating_add(usize::from(admission.added));
        if mixes {
            self.checksum = mixed(self.checksum, admission_word(admission));
        }
    }

    fn count_batch(
        &mut self,
        batch: &Option<Batch<Certificate<Tally, Sha256Digest>>>,
        mixes: bool,
    ) {
        let certificates = usize::from(has_certificate(batch));
        self.certificates = self.certificates.saturating_add(certificates);
        if mixes {
            self.checksum = mixed(self.checksum, batch_word(batch));
        }
    }
}

impl fmt::Display for Played {
    fn fmt<W: fmt::Write>(&self, f: &mut fmt::Formatter<W>) -> fmt::Result {
        let votes = self.votes;
        let added = self.added;
        let certificates = self.certificates;
        let checksum = self.checksum;
        write!(
            f,
            "{votes:>5} {added:>5} {certificates:>12} {checksum:016x}"
        )
    }
}

/// A row with what it played and, once it was timed, the time that it took.
#[derive(Drop)]
pub(crate) struct Measured {
    row: Row,
    played: Played,
    /// The fewest nanoseconds that it took.
    best: u64,
}

impl fmt::Display for Measured {
    fn fmt<W: fmt::Write>(&self, f: &mut fmt::Formatter<W>) -> fmt::Result {
        let row = &self.row;
        let played = &self.played;
        write!(f, "{row} {played}")
    }
}

impl Measured {
    /// Plays the row once, and then so many times more. Those have to give as many added votes
    /// and certificates, and their answers aren't looked at any further. The votes are made once.
    pub(crate) fn new(alloc: Global, row: Row, rounds: u32) -> Result<Measured> {
        let played = match row.size {
            Size::Bytes8 => play_rounds(alloc, &row, rounds, ())?,
            Size::Bytes32 => play_rounds(alloc, &row, rounds, [0u64; 3])?,
            Size::Bytes64 => play_rounds(alloc, &row, rounds, [0u64; 7])?,
        };
        Ok(Measured {
            row,
            played,
            best: u64::MAX,
        })
    }

    /// Tenths of a nanosecond that a vote took.
    pub(crate) fn tenths_a_vote(&self) -> u64 {
        self.best.saturating_mul(10) / self.played.votes.max(1) as u64
    }

    /// Plays the row many times more, and keeps the best time. Each time has to give the answers
    /// of the first.
    pub(crate) fn take_time(&mut self, rt: &(impl AllocGlobal + Clock)) -> Result<()> {
        let time = match self.row.size {
            Size::Bytes8 => best_time(rt, &self.row, self.played, ())?,
            Size::Bytes32 => best_time(rt, &self.row, self.played, [0u64; 3])?,
            Size::Bytes64 => best_time(rt, &self.row, self.played, [0u64; 7])?,
        };
        self.best = self.best.min(time);
        Ok(())
    }
}

/// Plays the row once, and says on standard error where it is: when the round is made, before
/// and after each construction, and when a nullification came from outside. Who counts the requests
/// for memory sees there what the round holds.
pub(crate) fn tell_places(rt: &(impl AllocGlobal + Eprint), row: &Row) -> Result<()> {
    match row.size {
        Size::Bytes8 => tell_places_of(rt, row, ()),
        Size::Bytes32 => tell_places_of(rt, row, [0u64; 3]),
        Size::Bytes64 => tell_places_of(rt, row, [0u64; 7]),
    }
}

fn play_rounds<P: Copy + Eq>(alloc: Global, row: &Row, rounds: u32, padding: P) -> Result<Played> {
    let steps = steps_of(alloc, row, padding)?;
    let scheme = scheme_of(alloc, row, padding)?;
    let played = play_fresh(alloc, row, scheme.clone()?, steps.as_slice(), true)?;
    let counted = Played {
        checksum: 0,
        ..played
    };
    for _ in 0..rounds {
        let again = play_fresh(alloc, row, scheme.clone()?, steps.as_slice(), false)?;
        ensure!(again == counted, "a repetition gave other answers");
    }
    Ok(played)
}

// The fewest nanoseconds that the row takes, of many times. Each has to give these answers.
fn best_time<P: Copy + Eq>(
    rt: &(impl AllocGlobal + Clock),
    row: &Row,
    played: Played,
    padding: P,
) -> Result<u64> {
    let steps = steps_of(rt.alloc(), row, padding)?;
    let scheme = scheme_of(rt.alloc(), row, padding)?;
    let mut best = u64::MAX;
    for _ in 0..repetitions(row) {
        let scheme = scheme.clone()?;
        let start = Instant::now(rt)?;
        let again = play_fresh(rt.alloc(), row, scheme, steps.as_slice(), true)?;
        let time = start.elapsed(rt)?.as_nanos();
        best = best.min(u64::try_from(time).unwrap_or(u64::MAX));
        ensure!(again == played, "a repetition gave other answers");
    }
    Ok(best)
}

// So many that each row plays about as many votes.
fn repetitions(row: &Row) -> u32 {
    100_000 / row.participants
}

fn scheme_of<P: Copy>(alloc: Global, row: &Row, padding: P) -> Result<Rc<Plain<P>>, AllocError>
    ensures { IfOk result (λ scheme. 1 ≤ length scheme.value.participants) }
{
    let participants = names(alloc, row.participants)?;
    Ok(Rc::new(
        alloc,
        Plain {
            participants,
            padding,
        },
    )?)
}

// A fresh round for the row. It takes no memory.
fn round_of<P: Copy + Eq>(
    alloc: Global,
    row: &Row,
    scheme: Rc<Plain<P>>,
) -> Round<Plain<P>, Sha256Digest>
    requires { 1 ≤ length scheme.value.participants }
    ensures { result.number ≡ NUMBER }
{
    Round::in_mode(alloc, NUMBER, scheme, row.mode)
}

// The calls of a round are in functions that promise little, since what a call promises is
// carried to its caller's end. Here participant 0 becomes the leader.
fn lead<P: Copy + Eq>(round: &mut Round<Plain<P>, Sha256Digest>) -> bool
    ensures { round.new.number ≡ round.old.number }
{
    round.set_leader(Participant::new(0)).is_ok()
}

// The answer is counted here and not returned: a copy of it on its way to the caller would be the
// benchmark's own, and be counted as the layer's.
fn send<P: Copy + Eq>(
    round: &mut Round<Plain<P>, Sha256Digest>,
    sender: Name,
    vote: Vote<Padded<P>, Sha256Digest>,
    played: &mut Played,
    mixes: bool,
) -> Result<(), AllocError>
    requires { round_in (subject_of vote) ≡ round.old.number }
    ensures { round.new.number ≡ round.old.number }
{
    let admission = round.add_network(sender, vote)?;
    played.count_vote(&admission, mixes);
    Ok(())
}

fn construct<P: Copy + Eq>(
    round: &mut Round<Plain<P>, Sha256Digest>,
    rng: &mut Counter,
) -> Result<Option<Batch<Certificate<Tally, Sha256Digest>>>, AllocError>
    ensures { round.new.number ≡ round.old.number }
{
    round.try_construct(rng)
}

fn record<P: Copy + Eq>(
    round: &mut Round<Plain<P>, Sha256Digest>,
    certificate: &Certificate<Tally, Sha256Digest>,
) -> Result<bool, AllocError>
    requires { round_in (subject_certified certificate.now) ≡ round.old.number }
{
    round.record_certificate(certificate)
}

// Takes the steps in their order, once the leader is set. The answers are mixed into the checksum
// where it is asked for.
fn play<P: Copy + Eq>(
    round: &mut Round<Plain<P>, Sha256Digest>,
    steps: &[Step<P>],
    mixes: bool,
) -> Result<Played, AllocError>
    requires { All (IsOfRound round.old.number) steps.now }
{
    let mut rng = Counter::new(0);
    let is_led = lead(round);
    let mut played = Played::new(u64::from(mixes && is_led));
    for step in steps {
        match *step {
            Step::Send(sender, vote) => {
                send(round, sender, vote, &mut played, mixes)?;
            }
            Step::Construct => {
                let batch = construct(round, &mut rng)?;
                played.count_batch(&batch, mixes);
            }
        }
    }
    Ok(played)
}

// Plays the steps on a fresh round, and drops it. Nothing else happens where the round is, so
// that the prover need not follow it through a caller's returns.
fn play_fresh<P: Copy + Eq>(
    alloc: Global,
    row: &Row,
    scheme: Rc<Plain<P>>,
    steps: &[Step<P>],
    mixes: bool,
) -> Result<Played, AllocError>
    requires participants { 1 ≤ length scheme.value.participants }
    requires steps { All (IsOfRound NUMBER) steps.now }
{
    let mut round = round_of(alloc, row, scheme);
    play(&mut round, steps, mixes)
}

fn tell_places_of<P: Copy + Eq>(
    rt: &(impl AllocGlobal + Eprint),
    row: &Row,
    padding: P,
) -> Result<()> {
    let steps = steps_of(rt.alloc(), row, padding)?;
    let scheme = scheme_of(rt.alloc(), row, padding)?;
    tell_fresh(rt, row, scheme, steps.as_slice())
}

// Takes the steps on a fresh round, and drops it, as `play_fresh` does.
fn tell_fresh<P: Copy + Eq>(
    rt: &(impl AllocGlobal + Eprint),
    row: &Row,
    scheme: Rc<Plain<P>>,
    steps: &[Step<P>],
) -> Result<()>
    requires participants { 1 ≤ length scheme.value.participants }
    requires steps { All (IsOfRound NUMBER) steps.now }
{
    let mut round = round_of(rt.alloc(), row, scheme);
    tell_steps(rt, &mut round, steps)
}

fn tell_steps<P: Copy + Eq>(
    rt: &impl Eprint,
    round: &mut Round<Plain<P>, Sha256Digest>,
    steps: &[Step<P>],
) -> Result<()>
    requires number { round.old.number ≡ NUMBER }
    requires steps { All (IsOfRound NUMBER) steps.now }
{
    let mut rng = Counter::new(0);
    let mut played = Played::new(0);
    let _ = lead(round);
    eprintln!(rt; "made")?;
    for step in steps {
        match *step {
            Step::Send(sender, vote) => {
                send(round, sender, vote, &mut played, false)?;
            }
            Step::Construct => {
                eprintln!(rt; "before a construction")?;
                let _ = construct(round, &mut rng)?;
                eprintln!(rt; "after it")?;
            }
        }
    }
    let nullification = Certificate::Nullification(Nullification {
        round: NUMBER,
        certificate: Tally { count: 0, sum: 0 },
    });
    let _ = record(round, &nullification)?;
    eprintln!(rt; "after a nullification")?;
    Ok(())
}

fn admission_word<P>(admission: &Admission<Padded<P>, Sha256Digest>) -> u64 {
    let block = match admission.block {
        None => 0,
        Some(reason) => reason as u64 + 1,
    };
    let report = match &admission.report {
        None => 0,
        Some(activity) => activity_word(activity),
    };
    mixed(mixed(report, block), u64::from(admission.added))
}

fn activity_word<P>(activity: &Activity<Padded<P>, Sha256Digest>) -> u64 {
    match activity {
        Activity::Notarize(vote) => mixed(1, vote.attestation.signature.word),
        Activity::Nullify(vote) => mixed(2, vote.attestation.signature.word),
        Activity::Finalize(vote) => mixed(3, vote.attestation.signature.word),
        Activity::ConflictingNotarize(first, second) => mixed(
            mixed(4, first.attestation.signature.word),
            second.attestation.signature.word,
        ),
        Activity::ConflictingFinalize(first, second) => mixed(
            mixed(5, first.attestation.signature.word),
            second.attestation.signature.word,
        ),
        Activity::NullifyFinalize(nullify, finalize) => mixed(
            mixed(6, nullify.attestation.signature.word),
            finalize.attestation.signature.word,
        ),
    }
}

fn has_certificate(batch: &Option<Batch<Certificate<Tally, Sha256Digest>>>) -> bool {
    match batch {
        None => false,
        Some(batch) => batch.certificate.is_some(),
    }
}

fn batch_word(batch: &Option<Batch<Certificate<Tally, Sha256Digest>>>) -> u64 {
    match batch {
        None => 0,
        Some(batch) => {
            let certificate = match &batch.certificate {
                None => 1,
                Some(certificate) => certificate_word(certificate),
            };
            let looked_at = mixed(certificate, batch.processed as u64);
            let invalid = signers_word(looked_at, batch.invalid.as_slice());
            mixed(invalid, u64::from(batch.fallback))
        }
    }
}

fn certificate_word(certificate: &Certificate<Tally, Sha256Digest>) -> u64 {
    match certificate {
        Certificate::Notarization(made) => tally_word(1, &made.certificate),
        Certificate::Nullification(made) => tally_word(2, &made.certificate),
        Certificate::Finalization(made) => tally_word(3, &made.certificate),
    }
}

fn tally_word(word: u64, tally: &Tally) -> u64 {
    mixed(mixed(word, tally.count as u64), tally.sum)
}

fn signers_word(word: u64, signers: &[Participant]) -> u64 {
    let mut word = word;
    for signer in signers {
        word = mixed(word, u64::from(signer.get()));
    }
    word
}
