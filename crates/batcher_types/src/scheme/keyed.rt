//! A scheme whose certificates list their attestations.

ghost use Rattle.std.specs.Prelude.{◌≡◌, ◌++◌, ◌<◌, ◌≤◌, ◌&&◌, true, length, All, IfOk, IfErr};
ghost use Rattle.std.specs.Prelude.{OnOk};
ghost use Rattle.std.specs.Result.{result_ok};
ghost use Rattle.std.specs.List.{AllPass, list_all};
ghost use Rattle.batcher_types.specs.Hashed.{is_signed, is_signed-range, hashed_signature};
ghost use Rattle.batcher_types.specs.Lists.{EachOnce};
ghost use Rattle.batcher_types.specs.Attestations.{Sorts, IsQuorum, index_of_signer};
ghost use Rattle.batcher_types.specs.Ascending.{is_ascending as ascends, ordered_by};
ghost use Rattle.batcher_types.specs.Keyed.{is_listed, listed_at_once};

use crate::messages::{Attestation, Sha256Digest, Subject};
use crate::positions::{Participant, Set, quorum};
use crate::scheme::hashing::{attestation, is_signed_by};
use crate::scheme::{Scheme, Verification};
use rand_core::CryptoRng;
use std::alloc::{AllocError, Global};
use std::marker::Model;

/// The public key of the test schemes, ordered by its number.
#[derive(Clone, Copy, Debug, PartialEq, Eq, PartialOrd, Ord, Hash)]
pub struct Name(pub u64);

/// The participants 0 to `count` - 1.
pub fn names(alloc: Global, count: u32) -> Result<Set<Name>, AllocError>
    ensures count { IfOk result (λ set. length set ≡ count) }
    ensures below { IfOk result (All (λ name. name.0 < count)) }
{
    let mut names = Vec::new(alloc);
    for number in 0..count {
        names.push(Name(u64::from(number)))?;
    }
    match Set::new(names) {
        Ok(set) => Ok(set),
        Err(_) => unreachable!(),
    }
}

/// A list of attestations, as a certificate. Contracts see it as the list.
#[derive(Clone, Debug, Drop)]
pub struct AttestationList {
    attestations: Vec<Attestation<[u8; 32]>>,
}

impl Model for AttestationList {
    ghost use Rattle.std.specs.Prelude.{List, ℕ};
    ghost use Rattle.batcher_types.specs.declared.messages.Attestation.{Attestation};

    ghost Value = { List (Attestation (List ℕ)) };

    ghost view = { λ s. s.attestations.items };
}

impl AttestationList {
    /// A certificate of any list. Only `verify_certificate` verifies it.
    pub fn new(attestations: Vec<Attestation<[u8; 32]>>) -> Self
        ensures { result ≡ attestations.items }
    {
        AttestationList { attestations }
    }

    /// The attestations, in the order that they were listed.
    pub fn attestations(&self) -> &[Attestation<[u8; 32]>]
        ensures { result.now ≡ self.now }
    {
        self.attestations.as_slice()
    }
}

impl PartialEq for AttestationList {
    ghost use Rattle.std.specs.Cmp.Lexicographic.{pointwise, lists_per};
    ghost use Rattle.std.specs.Cmp.Rules.{comparing};
    ghost use Rattle.std.proofs.Common.{rules};

    ghost eq = { pointwise ⟦<Attestation<[u8; 32]> as PartialEq>⟧.eq };

    ghost laws = { lists_per (Prim.search (comparing, rules)) };

    fn eq(&self, other: &Self) -> bool {
        self.attestations == other.attestations
    }
}

impl Eq for AttestationList {
    ghost use Rattle.std.specs.Cmp.Lexicographic.{lists_equiv};
    ghost use Rattle.std.specs.Cmp.Rules.{comparing};
    ghost use Rattle.std.proofs.Common.{rules};

    ghost laws = { lists_equiv (Prim.search (comparing, rules)) };
}

// Verifies each attestation.
pub(super) fn verify_each(
    alloc: Global,
    n: usize,
    root: &[u8; 32],
    subject: Subject<Sha256Digest>,
    pending: &[Attestation<[u8; 32]>],
) -> Result<Verification<[u8; 32]>, AllocError>
    ensures { IfOk result (Sorts (is_signed n root.now subject) pending.now) }
{
    let mut verified = Vec::new(alloc);
    let mut invalid = Vec::new(alloc);
    for attestation in pending {
        if is_signed_by(n, root, subject, attestation) {
            verified.push(*attestation)?;
        } else {
            invalid.push(attestation.signer)?;
        }
    }
    Ok(Verification { verified, invalid })
}

// Whether the signers ascend.
fn is_ascending(attestations: &[Attestation<[u8; 32]>]) -> bool
    ensures { result ≡ ascends index_of_signer attestations.now }
{
    for i in 1..attestations.len() {
        if attestations[i - 1].signer.0 >= attestations[i].signer.0 {
            return false;
        }
    }
    true
}

// Whether all attest.
fn all_signed(
    n: usize,
    root: &[u8; 32],
    subject: Subject<Sha256Digest>,
    attestations: &[Attestation<[u8; 32]>],
) -> bool
    ensures { result ≡ list_all (is_signed n root.now subject) attestations.now }
{
    attestations
        .iter()
        .all(|a| is_signed_by(n, root, subject, a))
}

// The attestations in ascending order of their signers.
fn in_order(
    alloc: Global,
    prior: &[Attestation<[u8; 32]>],
    fresh: &[Attestation<[u8; 32]>],
) -> Result<Vec<Attestation<[u8; 32]>>, AllocError>
    requires { EachOnce index_of_signer (prior.now ++ fresh.now) }
    ensures { IfOk result (λ v. v.items ≡ ordered_by index_of_signer (prior.now ++ fresh.now)) }
{
    let mut all = Vec::with_capacity(alloc, prior.len().saturating_add(fresh.len()))?;
    all.extend_from_slice(prior)?;
    all.extend_from_slice(fresh)?;
    all.sort_unstable_by_key(|a| a.signer.0);
    Ok(all)
}

/// A test scheme whose certificates list their attestations. It protects nothing, since each
/// participant's key follows from the public root.
#[derive(Drop)]
pub struct Keyed<const BATCHABLE: bool> {
    pub participants: Set<Name>,
    pub root: [u8; 32],
}

impl<const BATCHABLE: bool> Keyed<BATCHABLE> {
    /// It takes no memory.
    pub fn new(participants: Set<Name>, root: [u8; 32]) -> Self
        ensures keys { result.participants ≡ participants }
        ensures root { result.root ≡ root }
    {
        Keyed { participants, root }
    }

    /// The attestation of an index, which attests where the index is a participant's. It takes
    /// no memory.
    pub fn sign(&self, signer: Participant, subject: Subject<Sha256Digest>) -> Attestation<[u8; 32]>
        ensures signer { result.signer ≡ signer }
        ensures signature { result.signature ≡ hashed_signature self.now.root signer.0 subject }
        ensures attests { signer.0 < length self.now.participants
            → is_signed (length self.now.participants) self.now.root subject result ≡ true }
    {
        attestation(&self.root, signer, subject)
    }
}

impl<const BATCHABLE: bool> Scheme<Sha256Digest> for Keyed<BATCHABLE> {
    type PublicKey = Name;

    type Signature = [u8; 32];

    type Certificate = AttestationList;

    ghost meaning = { λ s. record {
      participants = s.participants;
      batchable = BATCHABLE;
      attests = λ subject a. is_signed (length s.participants) s.root subject a;
      certifies = λ subject c. is_listed (length s.participants) s.root subject c;
      left_by_verifying = λ subject pending stream. stream;
      assembled_at_once =
          λ subject pending verified stream. listed_at_once (length s.participants) s.root subject
          pending verified stream;
      assembled = λ subject prior fresh. ordered_by index_of_signer (prior ++ fresh);
    } };

    ghost use Rattle.batcher_types.specs.Lawful.{listed, list_certifies, list_gives};

    ghost lawful = { λ s. record {
      signers_in_range = λ subject a h. is_signed-range (length s.participants) s.root subject a h;
      optimistic_certifies =
          λ subject pending verified stream c may e. list_certifies (length s.participants) s.root
          subject pending verified stream c may.some may.quorum may.attested e;
      optimistic_gives =
          λ subject pending verified stream may all. list_gives (length s.participants) s.root
          subject pending verified stream all;
      assembled_certifies =
          λ subject prior fresh some quorum pass. listed (length s.participants) s.root subject
          (prior ++ fresh) some quorum pass;
    } };

    fn participants(&self) -> &Set<Name> {
        &self.participants
    }

    fn is_batchable() -> bool {
        BATCHABLE
    }

    fn verify_attestations<R: CryptoRng>(
        &self,
        alloc: Global,
        rng: &mut R,
        subject: Subject<Sha256Digest>,
        pending: &[Attestation<[u8; 32]>],
    ) -> Result<Verification<[u8; 32]>, AllocError>
        ensures sorts { IfOk result (Sorts
            (is_signed (length self.now.participants) self.now.root subject) pending.now) }
        ensures stream { OnOk result (R.stream rng.new ≡ R.stream rng.old) }
        ensures drawn { R.stream rng.new ≡ R.stream rng.old }
    {
        let _ = rng;
        verify_each(alloc, self.participants.len(), &self.root, subject, pending)
    }

    fn optimistic_assemble<R: CryptoRng>(
        &self,
        alloc: Global,
        rng: &mut R,
        subject: Subject<Sha256Digest>,
        pending: &[Attestation<[u8; 32]>],
        verified: &[Attestation<[u8; 32]>],
    ) -> Result<Result<AttestationList, Verification<[u8; 32]>>, AllocError>
        requires some { 1 ≤ length self.now.participants }
        requires quorum { IsQuorum (length self.now.participants) (verified.now ++ pending.now) }
        requires attested { AllPass (is_signed (length self.now.participants) self.now.root subject)
            verified.now }
        ensures sorts { IfOk result (λ answer. IfErr answer
            (Sorts (is_signed (length self.now.participants) self.now.root subject) pending.now)) }
        ensures function { IfOk result (λ answer. (result_ok answer, R.stream rng.new)
            ≡ listed_at_once (length self.now.participants) self.now.root subject pending.now
            verified.now (R.stream rng.old)) }
        ensures drawn { R.stream rng.new ≡ R.stream rng.old }
    {
        if all_signed(self.participants.len(), &self.root, subject, pending) {
            let certificate = self.assemble(alloc, subject, verified, pending)?;
            Ok(Ok(certificate))
        } else {
            let found = self.verify_attestations(alloc, rng, subject, pending)?;
            Ok(Err(found))
        }
    }

    fn assemble(
        &self,
        alloc: Global,
        subject: Subject<Sha256Digest>,
        prior: &[Attestation<[u8; 32]>],
        fresh: &[Attestation<[u8; 32]>],
    ) -> Result<AttestationList, AllocError>
        requires some { 1 ≤ length self.now.participants }
        requires quorum { IsQuorum (length self.now.participants) (prior.now ++ fresh.now) }
        requires attested { AllPass (is_signed (length self.now.participants) self.now.root subject)
            (prior.now ++ fresh.now) }
        ensures function { IfOk result (λ certificate. certificate
            ≡ ordered_by index_of_signer (prior.now ++ fresh.now)) }
    {
        let _ = subject;
        let attestations = in_order(alloc, prior, fresh)?;
        Ok(AttestationList { attestations })
    }

    fn verify_certificate(
        &self,
        subject: Subject<Sha256Digest>,
        certificate: &AttestationList,
    ) -> bool
        ensures { result ≡ is_listed (length self.now.participants) self.now.root subject
            certificate.now }
    {
        let n = self.participants.len();
        let listed = certificate.attestations.as_slice();
        n >= 1
            && listed.len() >= quorum(n as u32) as usize
            && is_ascending(listed)
            && all_signed(n, &self.root, subject, listed)
    }
}
