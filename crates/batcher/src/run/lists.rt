//! Calls of a round as values, and whole lists of them.

ghost use Rattle.std.specs.Prelude.{◌≡◌, All, IfOk, OnErr, true};
ghost use Rattle.std.specs.List.{list_any};
ghost use Rattle.std.specs.List.Sorted.{IsStrictlySortedBy};
ghost use Rattle.batcher_votes.specs.RoundState.{RoundState as TheRoundState, SameRound};
ghost use Rattle.batcher_histories.specs.Config.{Config as TheConfig};
ghost use Rattle.batcher_histories.specs.History.{history};
ghost use Rattle.batcher_histories.specs.RoundContracts.{ForEachHistory};
ghost use Rattle.batcher_histories.specs.Steps.{nothing_held};
ghost use Rattle.batcher_histories.specs.Answers.{IsAnswered};
ghost use Rattle.batcher_histories.specs.Represents.{Meets};
ghost use Rattle.batcher_histories.specs.Blocks.{GaveCause};
ghost use Rattle.batcher_histories.specs.RunContract.{IsRun};
ghost use Rattle.batcher_histories.specs.Runs.{MayCall, Steps, StepsNetwork, StepsOwn};
ghost use Rattle.batcher_histories.specs.Runs.{StepsCertificate, StepsConstruct, StepsMissing};
ghost use Rattle.batcher_histories.specs.Runs.{blocked_sender, blocked_senders};
ghost use Rattle.batcher_histories.specs.declared.calls.Call.TheVariants.{Network as NetworkCall};
ghost use Rattle.batcher_histories.specs.declared.calls.Call.TheVariants.{Own as OwnCall};
ghost use Rattle.batcher_histories.specs.declared.calls.Call.TheVariants.{Certificate as CertificateCall};
ghost use Rattle.batcher_histories.specs.declared.calls.Call.TheVariants.{Construct as ConstructCall};
ghost use Rattle.batcher_histories.specs.declared.calls.Call.TheVariants.{Missing as MissingCall};
ghost use Rattle.batcher_types.specs.Votes.{round_in, subject_of, attestation_of};
ghost use Rattle.batcher_types.specs.Votes.{subject_certified};
ghost use Rattle.rand_core.specs.Stream.{Stream};

pub use batcher_histories::answers::Answer;
pub use batcher_histories::calls::Call;
use batcher_round::round::{OwnFault, Round, RoundConfigs};
use batcher_types::messages::{Certificate, Digest, Proposal, Vote};
use batcher_types::scheme::Scheme;
use rand_core::CryptoRng;
use std::alloc::{AllocError, Global};
use std::fmt;

/// A round after its calls, with the answers in their order.
#[derive(Drop)]
pub struct Ran<S: Scheme<D>, D: Digest> {
    pub round: Round<S, D>,
    pub answers: Vec<Answer<S::Signature, S::Certificate, D>>,
}

impl<S: Scheme<D>, D: Digest> Ran<S, D> {
    /// The answers alone.
    pub fn into_answers(self) -> Vec<Answer<S::Signature, S::Certificate, D>>
        ensures { result ≡ self.answers }
    {
        let Ran { round, answers } = self;
        drop(round);
        answers
    }
}

impl<S: Scheme<D>, D: Digest + fmt::Debug> fmt::Debug for Ran<S, D>
where
    S::Signature: fmt::Debug,
    S::Certificate: fmt::Debug,
{
    fn fmt<W: fmt::Write>(&self, f: &mut fmt::Formatter<W>) -> fmt::Result {
        f.debug_struct("Ran")
            .field("round", &self.round)
            .field("answers", &self.answers)
            .finish()
    }
}

/// Makes the calls in order on a fresh round, and answers each.
///
/// Room for the answers is made first: that growth alone gives the error, and the round is then
/// dropped. A call that is refused for memory is answered `OutOfMemory`, and the run goes on.
pub fn run<S: Scheme<D>, D: Digest, R: CryptoRng>(
    alloc: Global,
    mut round: Round<S, D>,
    rng: &mut R,
    calls: &[Call<S::PublicKey, S::Signature, S::Certificate, D>],
) -> Result<Ran<S, D>, AllocError>
    requires fresh { round.holds ≡ nothing_held round.mode }
    requires calls { All (MayCall (S.meaning round.scheme) round.number) calls.now }
    ensures ran { IfOk result (λ ran. IsRun (⟦<S as RoundConfigs<D>>⟧.of round) (R.stream rng.old)
        calls.now ran.answers.items ran.round.holds (R.stream rng.new)) }
    ensures drawn { OnErr result (R.stream rng.new ≡ R.stream rng.old) }
    ensures same { IfOk result (λ ran. SameRound round ran.round) }
{
    // For what it says of every round: that it has participants.
    let _ = round.number();
    match Vec::with_capacity(alloc, calls.len()) {
        Ok(mut answers) => {
            for call in calls {
                answers.push_reserved(step(&mut round, rng, call));
            }
            Ok(Ran { round, answers })
        }
        // Handed over, since a drop by `?` would be proved anew here, field by field.
        Err(error) => {
            drop(round);
            Err(error)
        }
    }
}

/// Makes one call.
pub fn step<S: Scheme<D>, D: Digest, R: CryptoRng>(
    round: &mut Round<S, D>,
    rng: &mut R,
    call: &Call<S::PublicKey, S::Signature, S::Certificate, D>,
) -> Answer<S::Signature, S::Certificate, D>
    requires { MayCall (S.meaning round.old.scheme) round.old.number call.now }
    ensures steps { Steps (⟦<S as RoundConfigs<D>>⟧.of round.old) round.old.holds (R.stream rng.old)
        call.now result round.new.holds (R.stream rng.new) }
    ensures meets { ForEachHistory ⟦<S as RoundConfigs<D>>⟧.of round.old
        (λ x past. (Meets x past round.old.holds (call.now, result) round.new.holds)
        × (IsAnswered x past call.now result)) }
    ensures same { SameRound round.old round.new }
{
    match call {
        Call::Network(sender, vote) => answer_network(round, *sender, *vote),
        Call::Own(vote) => answer_own(round, *vote),
        Call::Certificate(certificate) => answer_certificate(round, certificate),
        Call::Leader(leader) => Answer::Leader(round.set_leader(*leader)),
        Call::Construct => answer_construct(round, rng),
        Call::Forward(me) => Answer::Forward(round.try_forward_proposal(*me)),
        Call::Missing(proposal) => answer_missing(round, proposal),
    }
}

// Each kind of call that may be refused has a function of its own, with the clauses of `step` for
// that kind: what is known of one call is then out of the way where another is proved.

// Takes in a vote that the network brought.
fn answer_network<S: Scheme<D>, D: Digest>(
    round: &mut Round<S, D>,
    sender: S::PublicKey,
    vote: Vote<S::Signature, D>,
) -> Answer<S::Signature, S::Certificate, D>
    requires { round_in (subject_of vote) ≡ round.old.number }
    ensures steps { (stream : Stream) → StepsNetwork (⟦<S as RoundConfigs<D>>⟧.of round.old)
        round.old.holds stream sender vote result round.new.holds stream }
    ensures meets { ForEachHistory ⟦<S as RoundConfigs<D>>⟧.of round.old
        (λ x past. (Meets x past round.old.holds (NetworkCall sender vote, result) round.new.holds)
        × (IsAnswered x past (NetworkCall sender vote) result)) }
    ensures same { SameRound round.old round.new }
{
    match round.add_network(sender, vote) {
        Ok(admission) => Answer::Network(admission),
        Err(_) => Answer::OutOfMemory,
    }
}

// Takes in a vote of the node's own.
fn answer_own<S: Scheme<D>, D: Digest>(
    round: &mut Round<S, D>,
    vote: Vote<S::Signature, D>,
) -> Answer<S::Signature, S::Certificate, D>
    requires belongs { round_in (subject_of vote) ≡ round.old.number }
    requires attests { (S.meaning round.old.scheme).attests (subject_of vote) (attestation_of vote)
        ≡ true }
    ensures steps { (stream : Stream) → StepsOwn (⟦<S as RoundConfigs<D>>⟧.of round.old)
        round.old.holds stream vote result round.new.holds stream }
    ensures meets { ForEachHistory ⟦<S as RoundConfigs<D>>⟧.of round.old
        (λ x past. (Meets x past round.old.holds (OwnCall vote, result) round.new.holds)
        × (IsAnswered x past (OwnCall vote) result)) }
    ensures same { SameRound round.old round.new }
{
    match round.accept_vote(vote) {
        Ok((outcome, report)) => Answer::Own(outcome, report),
        Err(OwnFault::OutOfMemory) => Answer::OutOfMemory,
        Err(fault) => Answer::OwnRefused(fault),
    }
}

// Records a certificate.
fn answer_certificate<S: Scheme<D>, D: Digest>(
    round: &mut Round<S, D>,
    certificate: &Certificate<S::Certificate, D>,
) -> Answer<S::Signature, S::Certificate, D>
    requires { round_in (subject_certified certificate.now) ≡ round.old.number }
    ensures steps { (stream : Stream) → StepsCertificate (⟦<S as RoundConfigs<D>>⟧.of round.old)
        round.old.holds stream certificate.now result round.new.holds stream }
    ensures meets { ForEachHistory ⟦<S as RoundConfigs<D>>⟧.of round.old
        (λ x past. (Meets x past round.old.holds (CertificateCall certificate.now, result)
        round.new.holds) × (IsAnswered x past (CertificateCall certificate.now) result)) }
    ensures same { SameRound round.old round.new }
{
    match round.record_certificate(certificate) {
        Ok(changed) => Answer::Certificate(changed),
        Err(_) => Answer::OutOfMemory,
    }
}

// Tries to make a certificate.
fn answer_construct<S: Scheme<D>, D: Digest, R: CryptoRng>(
    round: &mut Round<S, D>,
    rng: &mut R,
) -> Answer<S::Signature, S::Certificate, D>
    ensures steps { StepsConstruct (⟦<S as RoundConfigs<D>>⟧.of round.old) round.old.holds
        (R.stream rng.old) result round.new.holds (R.stream rng.new) }
    ensures meets { ForEachHistory ⟦<S as RoundConfigs<D>>⟧.of round.old
        (λ x past. (Meets x past round.old.holds (ConstructCall, result) round.new.holds)
        × (IsAnswered x past ConstructCall result)) }
    ensures same { SameRound round.old round.new }
{
    match round.try_construct(rng) {
        Ok(batch) => Answer::Construct(batch),
        Err(_) => Answer::OutOfMemory,
    }
}

// Lists the participants without a proposal's block.
fn answer_missing<S: Scheme<D>, D: Digest>(
    round: &Round<S, D>,
    proposal: &Proposal<D>,
) -> Answer<S::Signature, S::Certificate, D>
    ensures steps { (stream : Stream) → StepsMissing (⟦<S as RoundConfigs<D>>⟧.of round.now)
        round.now.holds stream proposal.now result round.now.holds stream }
    ensures meets { ForEachHistory ⟦<S as RoundConfigs<D>>⟧.of round.now
        (λ x past. (Meets x past round.now.holds (MissingCall proposal.now, result) round.now.holds)
        × (IsAnswered x past (MissingCall proposal.now) result)) }
{
    match round.missing_voters(proposal) {
        Ok(missing) => Answer::Missing(missing),
        Err(_) => Answer::OutOfMemory,
    }
}

/// The senders that the answers block, each once, in ascending order of keys.
///
/// Each answer is that to the call at its place, and a call without an answer blocks no one. Of
/// keys that compare as equal one is listed, and which one is left open. Of the answers of a run
/// all who are listed and take part gave cause.
pub fn blocked<P: Copy + Ord, G, C, D>(
    alloc: Global,
    calls: &[Call<P, G, C, D>],
    answers: &[Answer<G, C, D>],
) -> Result<Vec<P>, AllocError>
    ensures ascending { IfOk result (λ keys. IsStrictlySortedBy P.cmp keys.items) }
    ensures senders { IfOk result (λ keys. (key : P) → list_any (P.eq key) keys.items
        ≡ list_any (P.eq key) (blocked_senders calls.now answers.now)) }
    ensures cause { IfOk result (λ keys. (x : TheConfig D P G C) (before after : Stream)
        (held : TheRoundState G D) → IsRun x before calls.now answers.now held after
        → All (GaveCause x (history calls.now answers.now)) keys.items) }
{
    let mut senders = blocked_in_order(alloc, calls, answers)?;
    senders.sort_unstable();
    senders.dedup();
    Ok(senders)
}

// The same in the order of the calls, with repeats.
fn blocked_in_order<P: Copy, G, C, D>(
    alloc: Global,
    calls: &[Call<P, G, C, D>],
    answers: &[Answer<G, C, D>],
) -> Result<Vec<P>, AllocError>
    ensures { IfOk result (λ keys. keys.items ≡ blocked_senders calls.now answers.now) }
{
    calls
        .iter()
        .zip(answers)
        .filter_map(|(call, answer)| blocked_by(call, answer))
        .collect(alloc)
}

// The sender that the answer blocks.
fn blocked_by<P: Copy, G, C, D>(call: &Call<P, G, C, D>, answer: &Answer<G, C, D>) -> Option<P>
    ensures { result ≡ blocked_sender call.now answer.now }
{
    match (call, answer) {
        (Call::Network(sender, _), Answer::Network(admission)) if admission.block.is_some() => {
            Some(*sender)
        }
        (
            Call::Network(..),
            Answer::Network(_)
            | Answer::Own(..)
            | Answer::OwnRefused(_)
            | Answer::Certificate(_)
            | Answer::Leader(_)
            | Answer::Construct(_)
            | Answer::Forward(_)
            | Answer::Missing(_)
            | Answer::OutOfMemory,
        )
        | (
            Call::Own(_)
            | Call::Certificate(_)
            | Call::Leader(_)
            | Call::Construct
            | Call::Forward(_)
            | Call::Missing(_),
            _,
        ) => None,
    }
}
