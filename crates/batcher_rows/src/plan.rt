//! The steps of a row: its votes, all made, and its constructions.

ghost use Rattle.std.specs.Prelude.{◌≡◌, ◌≤◌, ◌<◌, ◌^◌, All, IfOk, OnOk, length};
ghost use Rattle.std.specs.List.{range_with_len};
ghost use Rattle.std.specs.List.Sorted.{IsPermutation};
ghost use Rattle.batcher.specs.Votes.{round_in, signer_of, subject_of};
ghost use Rattle.batcher_rows.specs.Steps.{IsOfRound};

use crate::plain::{Padded, sign};
use crate::rows::{Course, Order, Row};
use batcher::messages::{Proposal, Sha256Digest, Subject, Vote};
use batcher::positions::{Epoch, Participant, Round, View, quorum};
use batcher::scheme::Name;
use std::alloc::{AllocError, Global};

/// The number of the round that is played.
pub const NUMBER: Round = Round {
    epoch: Epoch(333),
    view: View(7),
};

/// One step of a run.
#[derive(Clone, Copy, Debug)]
pub enum Step<P> {
    /// A vote that the participant with the key sends.
    Send(Name, Vote<Padded<P>, Sha256Digest>),
    Construct,
}

/// The steps of a row: notarizes with a construction, then finalizes with a construction. All
/// votes are for one proposal, and their signatures have this padding.
pub fn steps_of<P: Copy>(alloc: Global, row: &Row, padding: P) -> Result<Vec<Step<P>>, AllocError>
    ensures { IfOk result (λ steps. All (IsOfRound NUMBER) steps.items) }
{
    let proposal = Proposal::new(NUMBER, View::new(6), Sha256Digest([4; 32]));
    let signers = signers(alloc, row.participants, row.order)?;
    let mut steps = Vec::new(alloc);
    let notarize = Subject::Notarize { proposal };
    add_kind(&mut steps, row, notarize, padding, signers.as_slice())?;
    let finalize = Subject::Finalize { proposal };
    add_kind(&mut steps, row, finalize, padding, signers.as_slice())?;
    Ok(steps)
}

// Adds the votes for a subject, and the construction where it comes.
fn add_kind<P: Copy>(
    steps: &mut Vec<Step<P>>,
    row: &Row,
    subject: Subject<Sha256Digest>,
    padding: P,
    signers: &[u32],
) -> Result<(), AllocError>
    requires number { round_in subject ≡ NUMBER }
    requires signers { length signers.now ≡ row.now.participants }
    requires steps { All (IsOfRound NUMBER) steps.old.items }
    ensures { OnOk result (All (IsOfRound NUMBER) steps.new.items) }
{
    let (before, after) = signers.split_at(early(row));
    add_votes(steps, row.course, subject, padding, before)?;
    steps.push(Step::Construct)?;
    add_votes(steps, row.course, subject, padding, after)
}

// How many votes of a kind come before its construction.
fn early(row: &Row) -> usize
    ensures { result ≤ row.now.participants }
{
    match row.course {
        Course::GoesOn => quorum(row.participants) as usize,
        Course::Once | Course::Repeated | Course::BadThird => row.participants as usize,
    }
}

// The participants in the order in which they vote.
fn signers(alloc: Global, count: u32, order: Order) -> Result<Vec<u32>, AllocError>
    ensures { IfOk result (λ signers. IsPermutation (range_with_len 0 count) signers.items) }
{
    let mut signers = Vec::with_capacity(alloc, count as usize)?;
    for signer in 0..count {
        signers.push(signer)?;
    }
    arrange(signers.as_mut_slice(), order);
    Ok(signers)
}

// Brings ascending numbers into the order.
fn arrange(numbers: &mut [u32], order: Order)
    ensures { IsPermutation numbers.old numbers.new }
{
    match order {
        Order::Ascending => {}
        Order::Shuffled => shuffle(numbers),
        Order::Descending => numbers.reverse(),
    }
}

// Brings the numbers into a mixed order, which is the same each time.
fn shuffle(numbers: &mut [u32])
    ensures { IsPermutation numbers.old numbers.new }
{
    let mut state = 1u64;
    for last in (1..numbers.len()).rev() {
        state = state
            .wrapping_mul(6364136223846793005)
            .wrapping_add(1442695040888963407);
        numbers.swap(last, (state >> 33) as usize % (last + 1));
    }
}

// Adds the votes of the signers for a subject.
fn add_votes<P: Copy>(
    steps: &mut Vec<Step<P>>,
    course: Course,
    subject: Subject<Sha256Digest>,
    padding: P,
    signers: &[u32],
) -> Result<(), AllocError>
    requires number { round_in subject ≡ NUMBER }
    requires steps { All (IsOfRound NUMBER) steps.old.items }
    ensures { OnOk result (All (IsOfRound NUMBER) steps.new.items) }
{
    for signer in signers {
        let step = Step::Send(
            Name(u64::from(*signer)),
            vote(course, subject, padding, Participant::new(*signer)),
        );
        steps.push(step)?;
        if course == Course::Repeated {
            steps.push(step)?;
        }
    }
    Ok(())
}

// The vote of a signer for a subject. In a row with a bad third that of every third signer bears
// a signature that is off by a bit.
fn vote<P: Copy>(
    course: Course,
    subject: Subject<Sha256Digest>,
    padding: P,
    signer: Participant,
) -> Vote<Padded<P>, Sha256Digest>
    ensures signer { signer_of result ≡ signer.0 }
    ensures subject { subject_of result ≡ subject }
{
    let mut attestation = sign(signer, subject, padding);
    if course == Course::BadThird && signer.0 % 3 == 2 {
        attestation.signature.word ^= 1;
    }
    Vote::new(subject, attestation)
}
