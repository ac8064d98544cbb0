//! A scheme whose signatures are cheap to make and to verify, and of any length, so that the time
//! of a run is that of the batcher. It protects nothing.

ghost use Rattle.std.specs.Prelude.{◌≡◌, ◌<◌, ℕ, true, length, IfOk, IfErr, OnOk};
ghost use Rattle.std.specs.Result.{result_ok};
ghost use Rattle.std.specs.List.{list_all};
ghost use Rattle.batcher.specs.Attestations.{Sorts};
ghost use Rattle.batcher_rows.specs.Plain.{mixed, round_word, proposal_word, subject_word};
ghost use Rattle.batcher_rows.specs.Plain.{signature_word, bears, is_plainly_signed, sum_from};
ghost use Rattle.batcher_rows.specs.Plain.{tally_of, counts_a_quorum, tallied_at_once};

use batcher::messages::{Attestation, Proposal, Sha256Digest, Subject};
use batcher::positions::{Participant, Round, Set, quorum};
use batcher::scheme::{Name, Scheme, Verification};
use rand_core::CryptoRng;
use std::alloc::{AllocError, Global};

/// A number mixed into a word.
#[tactic(auto, unfolding(crate::specs::Plain::mixed))]
pub fn mixed(word: u64, number: u64) -> u64
    ensures { result ≡ mixed word number }
{
    (word ^ number).wrapping_mul(0x100000001b3)
}

fn round_word(word: u64, round: Round) -> u64
    ensures { result ≡ round_word word round }
{
    mixed(mixed(word, round.epoch.0), round.view.0)
}

fn proposal_word(word: u64, proposal: Proposal<Sha256Digest>) -> u64
    ensures { result ≡ proposal_word word proposal }
{
    let mut word = mixed(round_word(word, proposal.round), proposal.parent.0);
    for byte in &proposal.payload.0 {
        word = mixed(word, u64::from(*byte));
    }
    word
}

// The kind and the context, as a word.
fn subject_word(subject: Subject<Sha256Digest>) -> u64
    ensures { result ≡ subject_word subject }
{
    match subject {
        Subject::Notarize { proposal } => proposal_word(1, proposal),
        Subject::Nullify { round } => round_word(2, round),
        Subject::Finalize { proposal } => proposal_word(3, proposal),
    }
}

/// A signature: a word that is verified, and a padding that gives it its length.
#[derive(Clone, Copy, Debug, PartialEq, Eq)]
pub struct Padded<P> {
    pub word: u64,
    pub padding: P,
}

/// The attestation of an index, which attests where the index is a participant's.
pub fn sign<P>(
    signer: Participant,
    subject: Subject<Sha256Digest>,
    padding: P,
) -> Attestation<Padded<P>>
    ensures signer { result.signer ≡ signer }
    ensures signature { result.signature.word ≡ signature_word subject signer.0 }
    ensures attests { (n : ℕ) → signer.0 < n → is_plainly_signed n subject result ≡ true }
{
    Attestation {
        signer,
        signature: Padded {
            word: mixed(subject_word(subject), u64::from(signer.0)),
            padding,
        },
    }
}

// Whether the attestation is of the subject with the word, among `n` participants.
fn is_signed_by<P>(n: usize, word: u64, attestation: &Attestation<Padded<P>>) -> bool
    ensures { result ≡ bears n word attestation.now }
{
    (attestation.signer.0 as usize) < n
        && attestation.signature.word == mixed(word, u64::from(attestation.signer.0))
}

// Whether all attest.
fn all_signed<P>(
    n: usize,
    subject: Subject<Sha256Digest>,
    attestations: &[Attestation<Padded<P>>],
) -> bool
    ensures { result ≡ list_all (is_plainly_signed n subject) attestations.now }
{
    let word = subject_word(subject);
    attestations
        .iter()
        .all(|attestation| is_signed_by(n, word, attestation))
}

fn verify_each<P: Copy>(
    alloc: Global,
    n: usize,
    subject: Subject<Sha256Digest>,
    pending: &[Attestation<Padded<P>>],
) -> Result<Verification<Padded<P>>, AllocError>
    ensures { IfOk result (Sorts (is_plainly_signed n subject) pending.now) }
{
    let word = subject_word(subject);
    let mut verified = Vec::new(alloc);
    let mut invalid = Vec::new(alloc);
    for attestation in pending {
        if is_signed_by(n, word, attestation) {
            verified.push(*attestation)?;
        } else {
            invalid.push(attestation.signer)?;
        }
    }
    Ok(Verification { verified, invalid })
}

fn sum_from<P>(sum: u64, attestations: &[Attestation<Padded<P>>]) -> u64
    ensures { result ≡ sum_from sum attestations.now }
{
    let mut sum = sum;
    for attestation in attestations {
        sum = sum.wrapping_add(attestation.signature.word);
    }
    sum
}

/// A certificate: how many attestations made it, and the sum of the first words of their
/// signatures. Only the count is verified.
#[derive(Clone, Copy, Debug, PartialEq, Eq)]
pub struct Tally {
    pub count: usize,
    pub sum: u64,
}

fn tally_of<P>(earlier: &[Attestation<Padded<P>>], later: &[Attestation<Padded<P>>]) -> Tally
    ensures { result ≡ tally_of earlier.now later.now }
{
    Tally {
        count: earlier.len() + later.len(),
        sum: sum_from(sum_from(0, earlier), later),
    }
}

/// The scheme of the benchmark.
#[derive(Drop)]
pub struct Plain<P> {
    pub participants: Set<Name>,
    /// The padding of each signature.
    pub padding: P,
}

impl<P: Copy + Eq> Scheme<Sha256Digest> for Plain<P> {
    type PublicKey = Name;

    type Signature = Padded<P>;

    type Certificate = Tally;

    ghost meaning = { λ s. record {
      participants = s.participants;
      batchable = true;
      attests = λ subject a. is_plainly_signed (length s.participants) subject a;
      certifies = λ subject c. counts_a_quorum (length s.participants) c;
      left_by_verifying = λ subject pending stream. stream;
      assembled_at_once =
          λ subject pending verified stream. tallied_at_once (length s.participants) subject
          pending verified stream;
      assembled = λ subject prior fresh. tally_of prior fresh;
    } };

    ghost use Rattle.batcher_rows.specs.Lawful.{in_range, tallied, tally_certifies, tally_gives};

    ghost lawful = { λ s. record {
      signers_in_range = λ subject a h. in_range (length s.participants) subject a h;
      optimistic_certifies =
          λ subject pending verified stream c may e. tally_certifies (length s.participants)
          subject pending verified stream c may.some may.quorum e;
      optimistic_gives =
          λ subject pending verified stream may all. tally_gives (length s.participants) subject
          pending verified stream all;
      assembled_certifies =
          λ subject prior fresh some quorum pass. tallied (length s.participants) subject prior
          fresh some quorum;
    } };

    fn participants(&self) -> &Set<Name> {
        &self.participants
    }

    fn is_batchable() -> bool {
        true
    }

    fn verify_attestations<R: CryptoRng>(
        &self,
        alloc: Global,
        rng: &mut R,
        subject: Subject<Sha256Digest>,
        pending: &[Attestation<Padded<P>>],
    ) -> Result<Verification<Padded<P>>, AllocError>
        ensures sorts { IfOk result
            (Sorts (is_plainly_signed (length self.now.participants) subject)
            pending.now) }
        ensures stream { OnOk result (R.stream rng.new ≡ R.stream rng.old) }
    {
        let _ = rng;
        verify_each(alloc, self.participants.len(), subject, pending)
    }

    fn optimistic_assemble<R: CryptoRng>(
        &self,
        alloc: Global,
        rng: &mut R,
        subject: Subject<Sha256Digest>,
        pending: &[Attestation<Padded<P>>],
        verified: &[Attestation<Padded<P>>],
    ) -> Result<Result<Tally, Verification<Padded<P>>>, AllocError>
        ensures sorts { IfOk result (λ answer. IfErr answer
            (Sorts (is_plainly_signed (length self.now.participants) subject) pending.now)) }
        ensures function { IfOk result (λ answer. (result_ok answer, R.stream rng.new)
            ≡ tallied_at_once (length self.now.participants) subject pending.now verified.now
            (R.stream rng.old)) }
    {
        let _ = rng;
        let n = self.participants.len();
        if all_signed(n, subject, pending) {
            Ok(Ok(tally_of(verified, pending)))
        } else {
            let found = verify_each(alloc, n, subject, pending)?;
            Ok(Err(found))
        }
    }

    fn assemble(
        &self,
        alloc: Global,
        subject: Subject<Sha256Digest>,
        prior: &[Attestation<Padded<P>>],
        fresh: &[Attestation<Padded<P>>],
    ) -> Result<Tally, AllocError>
        ensures function { IfOk result (λ certificate. certificate ≡ tally_of prior.now fresh.now) }
    {
        let _ = alloc;
        let _ = subject;
        Ok(tally_of(prior, fresh))
    }

    fn verify_certificate(&self, subject: Subject<Sha256Digest>, certificate: &Tally) -> bool
        ensures { result ≡ counts_a_quorum (length self.now.participants) certificate.now }
    {
        let _ = subject;
        let n = self.participants.len();
        n >= 1 && certificate.count >= quorum(n as u32) as usize
    }
}
