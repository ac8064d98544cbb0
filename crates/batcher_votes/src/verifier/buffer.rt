//! A buffer of votes that wait for a certificate.

ghost use Rattle.std.specs.Prelude.{◌≡◌, ◌+◌, ◌-◌, ◌≤◌, ◌<◌, ◌==◌, ◌++◌, ◌∷◌, [], Some, length};
ghost use Rattle.std.specs.Prelude.{filter, map, replicate, take, OnOk, vec_len, vec_capacity};
ghost use Rattle.std.specs.List.{list_all, list_any};
ghost use Rattle.batcher_types.specs.Votes.{signer_of, subject_of, same_subject, is_eligible};
ghost use Rattle.batcher_votes.specs.VerifierSteps.{attestations_of, first_proposal};
ghost use Rattle.batcher_votes.specs.VerifierSteps.{have_one_subject, vote_for};
ghost use Rattle.batcher_votes.specs.BufferView.{may_be_eligible, one_subject_in, subjects_of_runs};
ghost use Rattle.batcher_votes.specs.BufferView.{retained_attestations};

use crate::votes::KeptVotes;
use batcher_types::messages::{Attestation, Digest, Proposal, Subject, Vote, make_room_below};
use batcher_types::positions::Participant;
use std::alloc::{AllocError, Global};
use std::marker::Model;

/// Votes in a row with one subject: one, and so many more.
#[derive(Clone, Copy)]
pub(crate) struct Run<D> {
    pub(crate) subject: Subject<D>,
    pub(crate) more: usize,
}

/// Votes in the order in which they came. Their attestations are kept by themselves, so that they
/// are lent to a scheme as one slice and none is copied. Votes in a row have one subject as a rule,
/// so it is kept once for each run of them.
#[derive(Drop)]
pub(crate) struct Buffer<G, D> {
    runs: Vec<Run<D>>,
    attestations: Vec<Attestation<G>>,
}

impl<G, D> Model for Buffer<G, D> {
    ghost use Rattle.std.specs.Prelude.{◌≡◌, ◌-◌, cond, length, min, nat_lt, vec_len, vec_capacity};
    ghost use Rattle.batcher_votes.specs.BufferView.{BufferView, votes_from, subjects_of_runs};

    ghost Value = { BufferView G D };

    ghost view = { λ b. record {
      votes = votes_from (subjects_of_runs b.runs.items) b.attestations.items;
      room = min
          (vec_capacity b.runs - vec_len b.runs)
          (vec_capacity b.attestations - vec_len b.attestations);
      room_for_run = cond (nat_lt (vec_len b.runs) (vec_capacity b.runs))
          (vec_capacity b.attestations - vec_len b.attestations) 0;
    } };

    ghost invariant = { λ b. length (subjects_of_runs b.runs.items) ≡ length b.attestations.items };
}

impl<G: Copy, D: Digest> Buffer<G, D> {
    /// An empty buffer. It takes no memory.
    pub(crate) fn new(alloc: Global) -> Self
        ensures { result.votes ≡ [] }
    {
        Buffer {
            runs: Vec::new(alloc),
            attestations: Vec::new(alloc),
        }
    }

    pub(crate) fn len(&self) -> usize
        ensures { result ≡ length self.now.votes }
    {
        self.attestations.len()
    }

    /// The attestations, to lend to a scheme.
    pub(crate) fn attestations(&self) -> &[Attestation<G>]
        ensures { result.now ≡ attestations_of self.now.votes }
    {
        self.attestations.as_slice()
    }

    /// Whether there is a vote of the signer.
    pub(crate) fn contains(&self, signer: Participant) -> bool
        ensures { result ≡ list_any (λ vote. signer_of vote == signer.0) self.now.votes }
    {
        has_signer(self.attestations.as_slice(), signer)
    }

    /// Whether all votes have one subject.
    pub(crate) fn is_about_one(&self) -> bool
        ensures { result ≡ have_one_subject D.eq self.now.votes }
    {
        about_one(self.runs.as_slice())
    }

    /// The proposal of the first vote.
    pub(crate) fn first_proposal(&self) -> Option<Proposal<D>>
        ensures { result ≡ first_proposal self.now.votes }
    {
        match self.runs.first()?.subject {
            Subject::Notarize { proposal } => Some(proposal),
            Subject::Nullify { round: _ } => None,
            Subject::Finalize { proposal } => Some(proposal),
        }
    }

    /// Makes room for `additional` more votes, where the buffer is to hold `most` at most, and
    /// changes nothing else.
    pub(crate) fn make_room(&mut self, additional: usize, most: usize) -> Result<(), AllocError>
        ensures room { OnOk result (additional ≤ self.new.room) }
        ensures votes { self.new.votes ≡ self.old.votes }
        ensures kept { self.old.room ≤ self.new.room }
        ensures no_memory { additional ≤ self.old.room → result ≡ Ok tt }
    {
        self.runs.reserve(additional)?;
        make_room_below(&mut self.attestations, additional, most)
    }

    /// Makes room for so many more votes of one subject, and changes nothing else.
    pub(crate) fn make_room_for_run(&mut self, additional: usize) -> Result<(), AllocError>
        ensures room { OnOk result (additional ≤ self.new.room_for_run) }
        ensures votes { self.new.votes ≡ self.old.votes }
        ensures kept { self.old.room ≤ self.new.room }
    {
        self.runs.reserve(1)?;
        self.attestations.reserve(additional)
    }

    /// Takes the vote to the end. With the room that it asks for it takes no memory.
    #[inline(always)]
    pub(crate) fn push(&mut self, vote: &Vote<G, D>)
        requires { 1 ≤ self.old.room }
        ensures votes { self.new.votes ≡ self.old.votes ++ vote.now ∷ [] }
        ensures room { self.old.room ≤ self.new.room + 1 }
    {
        push_subject(&mut self.runs, vote);
        self.attestations.push_reserved(vote.attestation());
    }

    /// Takes votes with one subject to the end. With the room that it asks for it takes no memory.
    pub(crate) fn extend(&mut self, subject: Subject<D>, attestations: &[Attestation<G>])
        requires { length attestations.now ≤ self.old.room_for_run }
        ensures { self.new.votes ≡ self.old.votes ++ map (vote_for subject) attestations.now }
    {
        let count = attestations.len();
        if count == 0 {
            return;
        }
        push_run(&mut self.runs, subject, count);
        self.attestations.extend_from_slice(attestations).unwrap();
    }

    /// Takes those of the votes that wait with the proposal to the end, in their order. With the
    /// room that it asks for it takes no memory.
    pub(crate) fn restore(&mut self, mut votes: KeptVotes<'_, G, D>, proposal: &Proposal<D>)
        requires { length (filter (is_eligible D.eq (Some proposal.now)) votes) ≤ self.old.room }
        ensures { self.new.votes ≡ self.old.votes
            ++ filter (is_eligible D.eq (Some proposal.now)) votes.entry }
    {
        while let Some(vote) = votes.next() {
            if vote.eligible_with(proposal) {
                self.push(&vote);
            }
        }
    }

    /// Drops the votes for other proposals. The others keep their order, and the room stays.
    pub(crate) fn retain(&mut self, proposal: &Proposal<D>)
        ensures votes { self.new.votes ≡ filter
            (is_eligible D.eq (Some proposal.now)) self.old.votes }
        ensures room { self.old.room ≤ self.new.room }
    {
        let kept = retain_attestations(
            self.runs.as_slice(),
            self.attestations.as_mut_slice(),
            proposal,
        );
        self.attestations.truncate(kept);
        let runs = retain_runs(self.runs.as_mut_slice(), proposal);
        self.runs.truncate(runs);
    }

    /// Drops all votes. The room stays.
    pub(crate) fn clear(&mut self)
        ensures votes { self.new.votes ≡ [] }
        ensures room { self.old.room ≤ self.new.room }
    {
        self.runs.clear();
        self.attestations.clear();
    }
}

// Whether there is an attestation of the signer.
fn has_signer<G>(attestations: &[Attestation<G>], signer: Participant) -> bool
    ensures { result ≡ list_any (λ attestation. attestation.signer.0 == signer.0) attestations.now }
{
    attestations
        .iter()
        .any(|attestation| attestation.signer.0 == signer.0)
}

// Whether the vote is for the subject.
fn is_about<G, D: Digest>(subject: &Subject<D>, vote: &Vote<G, D>) -> bool
    ensures { result ≡ same_subject D.eq subject.now (subject_of vote.now) }
{
    match (subject, vote) {
        (Subject::Notarize { proposal: p }, Vote::Notarize(vote)) => *p == vote.proposal,
        (Subject::Nullify { round: r }, Vote::Nullify(vote)) => *r == vote.round,
        (Subject::Finalize { proposal: p }, Vote::Finalize(vote)) => *p == vote.proposal,
        (Subject::Notarize { .. }, Vote::Nullify(_) | Vote::Finalize(_))
        | (Subject::Nullify { .. }, Vote::Notarize(_) | Vote::Finalize(_))
        | (Subject::Finalize { .. }, Vote::Notarize(_) | Vote::Nullify(_)) => false,
    }
}

// Takes the vote's subject to the end, to the last run where it has the same.
fn push_subject<G: Copy, D: Digest>(runs: &mut Vec<Run<D>>, vote: &Vote<G, D>)
    requires { 1 ≤ vec_capacity runs.old - vec_len runs.old }
    ensures subjects { subjects_of_runs runs.new.items
        ≡ subjects_of_runs runs.old.items ++ subject_of vote.now ∷ [] }
    ensures room { vec_capacity runs.old - vec_len runs.old
        ≤ vec_capacity runs.new - vec_len runs.new + 1 }
{
    let len = runs.len();
    if len > 0 && runs[len - 1].more < usize::MAX && is_about(&runs[len - 1].subject, vote) {
        runs[len - 1].more += 1;
    } else {
        begin_run(runs, vote);
    }
}

// Begins a run at the end, of the vote's subject. Few votes begin one, so its code is kept out of
// the way of the others.
#[cold]
#[inline(never)]
fn begin_run<G: Copy, D: Digest>(runs: &mut Vec<Run<D>>, vote: &Vote<G, D>)
    requires { 1 ≤ vec_capacity runs.old - vec_len runs.old }
    ensures subjects { subjects_of_runs runs.new.items
        ≡ subjects_of_runs runs.old.items ++ subject_of vote.now ∷ [] }
    ensures room { vec_capacity runs.old - vec_len runs.old
        ≤ vec_capacity runs.new - vec_len runs.new + 1 }
{
    push_run(runs, vote.subject(), 1);
}

// Takes a run of so many to the end.
fn push_run<D: Digest>(runs: &mut Vec<Run<D>>, subject: Subject<D>, count: usize)
    requires room { 1 ≤ vec_capacity runs.old - vec_len runs.old }
    requires some { 1 ≤ count }
    ensures subjects { subjects_of_runs runs.new.items
        ≡ subjects_of_runs runs.old.items ++ replicate count subject }
    ensures room { vec_capacity runs.old - vec_len runs.old
        ≤ vec_capacity runs.new - vec_len runs.new + 1 }
{
    let more = count - 1;
    runs.push_reserved(Run { subject, more });
}

// Whether all runs have the first one's subject.
fn about_one<D: Digest>(runs: &[Run<D>]) -> bool
    ensures { result ≡ one_subject_in D.eq runs.now }
{
    match runs.split_first() {
        None => true,
        Some((first, others)) => all_same(&first.subject, others),
    }
}

// Whether all runs have the subject.
fn all_same<D: Digest>(subject: &Subject<D>, runs: &[Run<D>]) -> bool
    ensures { result ≡ list_all (λ run. same_subject D.eq subject.now run.subject) runs.now }
{
    for run in runs {
        if !subject.is_same(&run.subject) {
            return false;
        }
    }
    true
}

// Whether votes with the subject wait where the proposal is selected.
fn fits<D: Digest>(subject: Subject<D>, proposal: &Proposal<D>) -> bool
    ensures { result ≡ may_be_eligible D.eq proposal.now subject }
{
    match subject {
        Subject::Notarize { proposal: other } => *proposal == other,
        Subject::Nullify { round: _ } => true,
        Subject::Finalize { proposal: other } => *proposal == other,
    }
}

// Moves the attestations of the runs that wait with the proposal to the front, each run at once,
// and answers how many they are.
fn retain_attestations<G: Copy, D: Digest>(
    runs: &[Run<D>],
    attestations: &mut [Attestation<G>],
    proposal: &Proposal<D>,
) -> usize
    requires { length (subjects_of_runs runs.now) ≡ length attestations.old }
    ensures within { result ≤ length attestations.old }
    ensures votes { take result attestations.new ≡ retained_attestations D.eq proposal.now runs.now
        attestations.old }
{
    let mut kept = 0;
    let mut start = 0;
    for run in runs {
        let end = start + run.more + 1;
        if fits(run.subject, proposal) {
            attestations.copy_within(start..end, kept);
            kept += run.more + 1;
        }
        start = end;
    }
    kept
}

// Moves the runs that wait with the proposal to the front, and answers how many they are.
fn retain_runs<D: Digest>(runs: &mut [Run<D>], proposal: &Proposal<D>) -> usize
    ensures within { result ≤ length runs.old }
    ensures runs { take result runs.new
        ≡ filter (λ run. may_be_eligible D.eq proposal.now run.subject) runs.old }
{
    let mut kept = 0;
    for i in 0..runs.len() {
        let run = runs[i];
        if fits(run.subject, proposal) {
            runs[kept] = run;
            kept += 1;
        }
    }
    kept
}
