//! The calls that a node makes to the rounds of its views, of those which may be refused.

use crate::slot::Slot;
use batcher::messages::{Activity, Certificate, Digest, Vote};
use batcher::positions::Participant;
use batcher::round::{Admission, OwnFault, Round, RoundConfigs};
use batcher::scheme::Scheme;
use batcher::verifier::LeaderFault;
use batcher::votes::Outcome;
use std::alloc::AllocError;

/// A call of a round: what it is in the history of the round's view, and how it is made.
pub(crate) trait Step<S: Scheme<D>, D: Digest>: Drop {
    ghost use Rattle.std.specs.Prelude.{◌≡◌, ⊤, true, IfOk, IfErr, OnErr};
    ghost use Rattle.batcher.specs.calls.Call.{Call as TheCall};
    ghost use Rattle.batcher.specs.answers.Answer.{Answer as TheAnswer};
    ghost use Rattle.batcher.specs.RoundState.{RoundView, SameRound};
    ghost use Rattle.batcher.specs.Runs.{MayCall};
    ghost use Rattle.batcher.specs.RoundContracts.{SimulatesOnOk};
    ghost use Rattle.batcher_node.specs.Nodes.{due_after};

    type Answer: Drop;

    type Fault: Drop;

    ghost call: { Self → TheCall S.PublicKey S.Signature S.Certificate D };

    ghost answered: { Self.Answer → TheAnswer S.Signature S.Certificate D };

    // What is known of the round where it refuses the call.
    ghost refuses: { Self → RoundView S S.Signature D → Self.Fault → Type 0 } = { λ _ _ _. ⊤ };

    /// Makes the call, and notes whether the round has to be looked at after it.
    fn make(self, slot: &mut Slot<Round<S, D>>) -> Result<Self::Answer, Self::Fault>
        requires { MayCall (S.meaning slot.old.round.scheme) slot.old.round.number (call self) }
        ensures meets { SimulatesOnOk ⟦<S as RoundConfigs<D>>⟧.of slot.old.round
            (call self) answered result
            slot.new.round.holds }
        ensures due { IfOk result (λ answer. slot.new.changed
            ≡ due_after (call self, answered answer) slot.old.changed) }
        ensures stays { slot.old.changed ≡ true → slot.new.changed ≡ true }
        ensures named { IfErr result (refuses self slot.old.round) }
        ensures refused { OnErr result (slot.new ≡ slot.old) }
        ensures same { SameRound slot.old.round slot.new.round };
}

/// A peer sent a vote.
#[derive(Drop)]
pub(crate) struct Heard<S: Scheme<D>, D: Digest> {
    pub(crate) peer: S::PublicKey,
    pub(crate) vote: Vote<S::Signature, D>,
}

impl<S: Scheme<D>, D: Digest> Step<S, D> for Heard<S, D> {
    ghost use Rattle.std.specs.Prelude.{◌≡◌, true};
    ghost use Rattle.batcher.specs.calls.Call.TheVariants.{Network as NetworkCall};
    ghost use Rattle.batcher.specs.answers.Answer.TheVariants.{Network as NetworkAnswer};
    ghost use Rattle.batcher.specs.Answers.{needs_memory};
    ghost use Rattle.batcher.specs.RoundContracts.{ForEachHistory};

    type Answer = Admission<S::Signature, D>;

    type Fault = AllocError;

    ghost call = { λ step. NetworkCall step.peer step.vote };

    ghost answered = { NetworkAnswer };

    ghost refuses = { λ step round fault. ForEachHistory ⟦<S as RoundConfigs<D>>⟧.of round
        (λ x past. needs_memory x past (NetworkCall step.peer step.vote) ≡ true) };

    fn make(self, slot: &mut Slot<Round<S, D>>) -> Result<Admission<S::Signature, D>, AllocError> {
        let admission = slot.round.add_network(self.peer, self.vote)?;
        let changed = admission.added | slot.changed;
        slot.changed = changed;
        Ok(admission)
    }
}

/// The node casts a vote.
#[derive(Drop)]
pub(crate) struct Cast<S: Scheme<D>, D: Digest> {
    pub(crate) vote: Vote<S::Signature, D>,
}

impl<S: Scheme<D>, D: Digest> Step<S, D> for Cast<S, D> {
    ghost use Rattle.std.specs.Prelude.{◌≡◌, true};
    ghost use Rattle.batcher.specs.calls.Call.TheVariants.{Own as OwnCall};
    ghost use Rattle.batcher.specs.answers.OwnFault.TheVariants.{OutOfMemory};
    ghost use Rattle.batcher.specs.answers.Answer.TheVariants.{Own as OwnAnswer};
    ghost use Rattle.batcher.specs.RoundContracts.{ForEachHistory};
    ghost use Rattle.batcher.specs.Steps.{fault_or_memory};
    ghost use Rattle.batcher.specs.Answers.{needs_memory, own_answer};

    type Answer = (Outcome, Option<Activity<S::Signature, D>>);

    type Fault = OwnFault;

    ghost call = { λ step. OwnCall step.vote };

    ghost answered = { λ answer. OwnAnswer answer.0 answer.1 };

    ghost refuses = { λ step round fault.
        (ForEachHistory ⟦<S as RoundConfigs<D>>⟧.of round
        (λ x past. fault ≡ fault_or_memory (own_answer x past step.vote)))
        × (fault ≡ OutOfMemory → ForEachHistory ⟦<S as RoundConfigs<D>>⟧.of round
        (λ x past. needs_memory x past (OwnCall step.vote) ≡ true)) };

    fn make(
        self,
        slot: &mut Slot<Round<S, D>>,
    ) -> Result<(Outcome, Option<Activity<S::Signature, D>>), OwnFault> {
        let answer = slot.round.accept_vote(self.vote)?;
        slot.changed = true;
        Ok(answer)
    }
}

/// A certificate was verified.
#[derive(Drop)]
pub(crate) struct Verified<'a, S: Scheme<D>, D: Digest> {
    pub(crate) certificate: &'a Certificate<S::Certificate, D>,
}

impl<S: Scheme<D>, D: Digest> Step<S, D> for Verified<'_, S, D> {
    ghost use Rattle.std.specs.Prelude.{◌≡◌, true};
    ghost use Rattle.batcher.specs.calls.Call.TheVariants.{Certificate as CertificateCall};
    ghost use Rattle.batcher.specs.answers.Answer.TheVariants.{Certificate as CertificateAnswer};
    ghost use Rattle.batcher.specs.Answers.{needs_memory};
    ghost use Rattle.batcher.specs.RoundContracts.{ForEachHistory};

    type Answer = bool;

    type Fault = AllocError;

    ghost call = { λ step. CertificateCall step.certificate.now };

    ghost answered = { CertificateAnswer };

    ghost refuses = { λ step round fault. ForEachHistory ⟦<S as RoundConfigs<D>>⟧.of round
        (λ x past. needs_memory x past (CertificateCall step.certificate.now) ≡ true) };

    fn make(self, slot: &mut Slot<Round<S, D>>) -> Result<bool, AllocError> {
        let changed = slot.round.record_certificate(self.certificate)?;
        slot.changed = true;
        Ok(changed)
    }
}

/// The leader of the view is named.
#[derive(Drop)]
pub(crate) struct Led {
    pub(crate) leader: Participant,
}

impl<S: Scheme<D>, D: Digest> Step<S, D> for Led {
    ghost use Rattle.std.specs.Prelude.{◌≡◌, Ok, Err};
    ghost use Rattle.batcher.specs.calls.Call.TheVariants.{Leader as LeaderCall};
    ghost use Rattle.batcher.specs.answers.Answer.TheVariants.{Leader as LeaderAnswer};
    ghost use Rattle.batcher.specs.Steps.{leader_set_answer};

    type Answer = ();

    type Fault = LeaderFault;

    ghost call = { λ step. LeaderCall step.leader };

    ghost answered = { λ answer. LeaderAnswer (Ok answer) };

    ghost refuses = { λ step round fault.
        Err fault ≡ leader_set_answer round.holds.buffered.leader step.leader };

    fn make(self, slot: &mut Slot<Round<S, D>>) -> Result<(), LeaderFault> {
        slot.round.set_leader(self.leader)?;
        slot.changed = true;
        Ok(())
    }
}
