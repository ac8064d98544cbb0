//! What a script stands for: the scheme of its round, and the calls of its commands.

ghost use Rattle.std.specs.Prelude.{◌≡◌, ◌≤◌, ◌&&◌, ℕ, List, All, IfOk, length, nat_lt, true};
ghost use Rattle.std.specs.Prelude.{false};
ghost use Rattle.std.specs.List.{AllPass, AllZip};
ghost use Rattle.batcher_types.specs.declared.messages.Attestation.{Attestation as TheAttestation};
ghost use Rattle.batcher_types.specs.Attestations.{IsQuorum};
ghost use Rattle.batcher_histories.specs.Runs.{MayCall};
ghost use Rattle.batcher_types.specs.Hashed.{same_bytes};
ghost use Rattle.batcher_votes.specs.Verifiers.{certifies_itself};
ghost use Rattle.batcher_types.specs.Votes.{subject_certified};
ghost use Rattle.batcher_reader.specs.Calls.{IsVoteOf, IsCallOf, is_good, proposal_for};
ghost use Rattle.batcher_reader.specs.Calls.{subject_for};
ghost use Rattle.batcher_reader.specs.Commands.{is_signer_among};

use crate::script::{Ballot, Command, Signature};
use batcher::run::Call;
use batcher_types::messages::{Attestation, Certificate, Proposal, Sha256Digest, Subject, Vote};
use batcher_types::positions::{self, Participant, Set, View, quorum};
use batcher_types::scheme::{Keyed, Name, Scheme, Sealed};
use std::alloc::{AllocError, Global};

/// A test scheme, of which every vote can be made.
pub trait TestScheme: Scheme<Sha256Digest, PublicKey = Name, Signature = [u8; 32]> {
    /// The scheme whose root is 32 zero bytes.
    fn of(participants: Set<Name>) -> Self
        ensures { (Self.meaning result).participants ≡ participants };

    /// The attestation of any index.
    fn sign(&self, signer: Participant, subject: Subject<Sha256Digest>) -> Attestation<[u8; 32]>
        ensures signer { result.signer ≡ signer }
        ensures attests { (other : TheAttestation (List ℕ)) → other.signer ≡ signer
            → (Self.meaning self.now).attests subject other
            ≡ (nat_lt signer.0 (length (Self.meaning self.now).participants)
            && same_bytes other.signature result.signature) };
}

impl<const BATCHABLE: bool> TestScheme for Keyed<BATCHABLE> {
    /// The scheme whose root is 32 zero bytes.
    fn of(participants: Set<Name>) -> Keyed<BATCHABLE> {
        Keyed::new(participants, [0; 32])
    }

    fn sign(&self, signer: Participant, subject: Subject<Sha256Digest>) -> Attestation<[u8; 32]> {
        Keyed::sign(self, signer, subject)
    }
}

impl TestScheme for Sealed {
    /// The scheme whose root is 32 zero bytes.
    fn of(participants: Set<Name>) -> Sealed {
        Sealed::new(participants, [0; 32])
    }

    fn sign(&self, signer: Participant, subject: Subject<Sha256Digest>) -> Attestation<[u8; 32]> {
        Sealed::sign(self, signer, subject)
    }
}

/// The calls of the commands, in their order. A certificate is assembled of the votes of the
/// first participants that are a quorum.
pub fn calls_of<S: TestScheme>(
    alloc: Global,
    scheme: &S,
    round: positions::Round,
    commands: &[Command],
) -> Result<Vec<Call<Name, [u8; 32], S::Certificate, Sha256Digest>>, AllocError>
    requires some { 1 ≤ length (S.meaning scheme.now).participants }
    requires few { length (S.meaning scheme.now).participants ≤ 1000 }
    requires among { AllPass
        (is_signer_among (length (S.meaning scheme.now).participants)) commands.now }
    ensures each { IfOk result (λ calls. AllZip (IsCallOf (S.meaning scheme.now) round)
        commands.now calls.items) }
    ensures may { IfOk result (λ calls. All (MayCall (S.meaning scheme.now) round) calls.items) }
{
    let mut calls = Vec::with_capacity(alloc, commands.len())?;
    for command in commands {
        calls.push_reserved(call(alloc, scheme, round, *command)?);
    }
    Ok(calls)
}

fn call<S: TestScheme>(
    alloc: Global,
    scheme: &S,
    round: positions::Round,
    command: Command,
) -> Result<Call<Name, [u8; 32], S::Certificate, Sha256Digest>, AllocError>
    requires some { 1 ≤ length (S.meaning scheme.now).participants }
    requires few { length (S.meaning scheme.now).participants ≤ 1000 }
    requires among { is_signer_among (length (S.meaning scheme.now).participants) command ≡ true }
    ensures each { IfOk result (IsCallOf (S.meaning scheme.now) round command) }
    ensures may { IfOk result (MayCall (S.meaning scheme.now) round) }
{
    Ok(match command {
        Command::Network {
            sender,
            signer,
            ballot,
            signature,
        } => Call::Network(
            Name(sender),
            vote(scheme, round, Participant::new(signer), ballot, signature),
        ),
        Command::Own { signer, ballot } => {
            let signer = Participant::new(signer);
            Call::Own(vote(scheme, round, signer, ballot, Signature::Good))
        }
        Command::Certificate(ballot) => {
            Call::Certificate(certificate(alloc, scheme, round, ballot)?)
        }
        Command::Leader(index) => Call::Leader(Participant::new(index)),
        Command::Construct => Call::Construct,
        Command::Forward(index) => Call::Forward(Participant::new(index)),
        Command::Missing(byte) => Call::Missing(proposal(round, byte)),
    })
}

// The proposal of the round with parent view 0 and a payload of equal bytes.
fn proposal(round: positions::Round, byte: u8) -> Proposal<Sha256Digest>
    ensures { result ≡ proposal_for round byte }
{
    Proposal::new(round, View::zero(), Sha256Digest([byte; 32]))
}

fn subject(round: positions::Round, ballot: Ballot) -> Subject<Sha256Digest>
    ensures { result ≡ subject_for round ballot }
{
    match ballot {
        Ballot::Notarize(byte) => Subject::Notarize {
            proposal: proposal(round, byte),
        },
        Ballot::Nullify => Subject::Nullify { round },
        Ballot::Finalize(byte) => Subject::Finalize {
            proposal: proposal(round, byte),
        },
    }
}

fn vote<S: TestScheme>(
    scheme: &S,
    round: positions::Round,
    signer: Participant,
    ballot: Ballot,
    signature: Signature,
) -> Vote<[u8; 32], Sha256Digest>
    ensures { IsVoteOf (S.meaning scheme.now) round signer.0 ballot signature result }
{
    let subject = subject(round, ballot);
    let attestation = attestation(scheme, signer, subject, signature);
    Vote::new(subject, attestation)
}

fn attestation<S: TestScheme>(
    scheme: &S,
    signer: Participant,
    subject: Subject<Sha256Digest>,
    signature: Signature,
) -> Attestation<[u8; 32]>
    ensures signer { result.signer ≡ signer }
    ensures signed { (S.meaning scheme.now).attests subject result
        ≡ (is_good signature && nat_lt signer.0 (length (S.meaning scheme.now).participants)) }
{
    let attestation = scheme.sign(signer, subject);
    match signature {
        Signature::Good => attestation,
        Signature::Bad => Attestation {
            signer,
            signature: with_a_bit_flipped(attestation.signature),
        },
    }
}

// The bytes with one bit flipped, so not the same.
fn with_a_bit_flipped(bytes: [u8; 32]) -> [u8; 32]
    ensures { same_bytes result bytes ≡ false }
{
    let mut flipped = bytes;
    flipped[0] ^= 1;
    flipped
}

// The certificate of the first participants that are a quorum.
fn certificate<S: TestScheme>(
    alloc: Global,
    scheme: &S,
    round: positions::Round,
    ballot: Ballot,
) -> Result<Certificate<S::Certificate, Sha256Digest>, AllocError>
    requires some { 1 ≤ length (S.meaning scheme.now).participants }
    requires few { length (S.meaning scheme.now).participants ≤ 1000 }
    ensures subject { IfOk result (λ certificate. subject_certified certificate
        ≡ subject_for round ballot) }
    ensures certifies { IfOk result (λ certificate. certifies_itself (S.meaning scheme.now)
        certificate ≡ true) }
{
    let subject = subject(round, ballot);
    let attestations = quorum_of(alloc, scheme, subject)?;
    let certificate = scheme.assemble(alloc, subject, &[], attestations.as_slice())?;
    Ok(Certificate::new(subject, certificate))
}

// The attestations of the first participants that are a quorum.
fn quorum_of<S: TestScheme>(
    alloc: Global,
    scheme: &S,
    subject: Subject<Sha256Digest>,
) -> Result<Vec<Attestation<[u8; 32]>>, AllocError>
    requires some { 1 ≤ length (S.meaning scheme.now).participants }
    requires few { length (S.meaning scheme.now).participants ≤ 1000 }
    ensures quorum { IfOk result (λ attestations. IsQuorum
        (length (S.meaning scheme.now).participants) attestations.items) }
    ensures attested { IfOk result (λ attestations. AllPass
        ((S.meaning scheme.now).attests subject) attestations.items) }
{
    let mut attestations = Vec::new(alloc);
    for index in 0..quorum(scheme.participants().len() as u32) {
        attestations.push(scheme.sign(Participant::new(index), subject))?;
    }
    Ok(attestations)
}
