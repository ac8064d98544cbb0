//! Proposals, votes, certificates, and what is reported of them.

ghost use Rattle.std.specs.Prelude.{◌≡◌, ◌↔◌, true, Some, IsTrue};
ghost use Rattle.batcher_types.specs.declared.positions.Participant.{Participant};

mod map;

use crate::positions::{Participant, Round, View};
pub use map::{AttributableMap, MapIter, Place, make_room_below};
use std::fmt;

/// The digest of a payload: a value, of which `==` says whether two are the same.
pub trait Digest: Copy + Eq {
    ghost identical: { (a b : Self) → Self.eq a b ≡ true → a ≡ b };
}

/// A value of which `==` tells apart whatever differs, as bytes do.
pub trait Identical: Copy + Eq {
    ghost identical: { (a b : Self) → Self.eq a b ≡ true → a ≡ b };
}

impl<const N: usize> Identical for [u8; N] {
    ghost use Rattle.std.proofs.Common.{rules};

    ghost identical = { Prim.search rules };
}

/// A SHA-256 digest.
#[derive(Clone, Copy, Debug, PartialEq, Eq)]
pub struct Sha256Digest(pub [u8; 32]);

impl Digest for Sha256Digest {
    ghost use Rattle.std.proofs.Common.{rules};

    ghost identical = { Prim.search rules };
}

impl fmt::Display for Sha256Digest {
    /// In lower hexadecimal digits, two for each byte.
    fn fmt<W: fmt::Write>(&self, f: &mut fmt::Formatter<W>) -> fmt::Result {
        for byte in self.0.as_slice() {
            write!(f, "{byte:02x}")?;
        }
        Ok(())
    }
}

/// What a leader proposes for a round, on top of the proposal of the view `parent`.
#[derive(Clone, Copy, Debug, PartialEq, Eq)]
pub struct Proposal<D> {
    pub round: Round,
    pub parent: View,
    pub payload: D,
}

impl<D> Proposal<D> {
    /// The proposal of a payload for a round. Nothing says that the parent is an earlier view.
    pub fn new(round: Round, parent: View, payload: D) -> Self
        ensures round { result.round ≡ round }
        ensures parent { result.parent ≡ parent }
        ensures payload { result.payload ≡ payload }
    {
        Proposal {
            round,
            parent,
            payload,
        }
    }
}

impl<D: fmt::Display> fmt::Display for Proposal<D> {
    /// Its payload.
    fn fmt<W: fmt::Write>(&self, f: &mut fmt::Formatter<W>) -> fmt::Result {
        write!(f, "{}", self.payload)
    }
}

/// A signature with the index of its signer. Only a scheme can verify it.
#[derive(Clone, Copy, Debug, PartialEq, Eq)]
pub struct Attestation<G> {
    pub signer: Participant,
    pub signature: G,
}

/// Whether two lists of attestations are one.
pub fn are_identical<G: Identical>(one: &[Attestation<G>], other: &[Attestation<G>]) -> bool
    ensures { IsTrue result ↔ (one.now ≡ other.now) }
{
    one == other
}

/// What is signed by one participant.
pub trait Attributable: Drop {
    ghost signed_by: { Self → Participant };

    /// Who signed it, as it says itself.
    fn signer(&self) -> Participant
        ensures { result ≡ signed_by self.now };
}

/// A vote to certify a proposal.
#[derive(Clone, Copy, Debug, PartialEq, Eq)]
pub struct Notarize<G, D> {
    pub proposal: Proposal<D>,
    pub attestation: Attestation<G>,
}

/// A vote to give a round up.
#[derive(Clone, Copy, Debug, PartialEq, Eq)]
pub struct Nullify<G> {
    pub round: Round,
    pub attestation: Attestation<G>,
}

/// A vote to make a notarized proposal final.
#[derive(Clone, Copy, Debug, PartialEq, Eq)]
pub struct Finalize<G, D> {
    pub proposal: Proposal<D>,
    pub attestation: Attestation<G>,
}

impl<G: Drop, D: Drop> Attributable for Notarize<G, D> {
    ghost signed_by = { λ vote. vote.attestation.signer };

    fn signer(&self) -> Participant {
        self.attestation.signer
    }
}

impl<G: Drop> Attributable for Nullify<G> {
    ghost signed_by = { λ vote. vote.attestation.signer };

    fn signer(&self) -> Participant {
        self.attestation.signer
    }
}

impl<G: Drop, D: Drop> Attributable for Finalize<G, D> {
    ghost signed_by = { λ vote. vote.attestation.signer };

    fn signer(&self) -> Participant {
        self.attestation.signer
    }
}

/// A vote of any kind.
#[derive(Clone, Copy, Debug, PartialEq, Eq)]
pub enum Vote<G, D> {
    Notarize(Notarize<G, D>),
    Nullify(Nullify<G>),
    Finalize(Finalize<G, D>),
}

impl<G, D: fmt::Display> fmt::Display for Notarize<G, D> {
    fn fmt<W: fmt::Write>(&self, f: &mut fmt::Formatter<W>) -> fmt::Result {
        write!(
            f,
            "notarize({}, {})",
            self.attestation.signer, self.proposal
        )
    }
}

impl<G> fmt::Display for Nullify<G> {
    fn fmt<W: fmt::Write>(&self, f: &mut fmt::Formatter<W>) -> fmt::Result {
        write!(f, "nullify({})", self.attestation.signer)
    }
}

impl<G, D: fmt::Display> fmt::Display for Finalize<G, D> {
    fn fmt<W: fmt::Write>(&self, f: &mut fmt::Formatter<W>) -> fmt::Result {
        write!(
            f,
            "finalize({}, {})",
            self.attestation.signer, self.proposal
        )
    }
}

impl<G, D: fmt::Display> fmt::Display for Vote<G, D> {
    /// Its kind, signer and payload.
    fn fmt<W: fmt::Write>(&self, f: &mut fmt::Formatter<W>) -> fmt::Result {
        match self {
            Vote::Notarize(notarize) => write!(f, "{notarize}"),
            Vote::Nullify(nullify) => write!(f, "{nullify}"),
            Vote::Finalize(finalize) => write!(f, "{finalize}"),
        }
    }
}

impl<G, D> Vote<G, D> {
    ghost use Rattle.std.specs.Option.{option_copied};
    ghost use Rattle.batcher_types.specs.Votes.{kind_of, attestation_of, proposal_in, subject_of};

    /// Who signed it, as it says itself.
    pub fn signer(&self) -> Participant
        ensures { result ≡ (attestation_of self.now).signer }
    {
        match self {
            Vote::Notarize(notarize) => notarize.attestation.signer,
            Vote::Nullify(nullify) => nullify.attestation.signer,
            Vote::Finalize(finalize) => finalize.attestation.signer,
        }
    }

    /// The kind of certificate that it is for.
    pub fn kind(&self) -> Kind
        ensures { result ≡ kind_of self.now }
    {
        match self {
            Vote::Notarize(_) => Kind::Notarization,
            Vote::Nullify(_) => Kind::Nullification,
            Vote::Finalize(_) => Kind::Finalization,
        }
    }

    /// The proposal that it is for, unless it is a nullify.
    pub fn proposal(&self) -> Option<&Proposal<D>>
        ensures { option_copied result ≡ proposal_in (subject_of self.now) }
    {
        match self {
            Vote::Notarize(notarize) => Some(&notarize.proposal),
            Vote::Nullify(_) => None,
            Vote::Finalize(finalize) => Some(&finalize.proposal),
        }
    }
}

impl<G: Copy, D: Copy> Vote<G, D> {
    ghost use Rattle.batcher_types.specs.Votes.{subject_of, attestation_of, round_in};

    /// The vote for the subject, with the attestation of it.
    pub fn new(subject: Subject<D>, attestation: Attestation<G>) -> Self
        ensures subject { subject_of result ≡ subject }
        ensures attestation { attestation_of result ≡ attestation }
    {
        match subject {
            Subject::Notarize { proposal } => Vote::Notarize(Notarize {
                proposal,
                attestation,
            }),
            Subject::Nullify { round } => Vote::Nullify(Nullify { round, attestation }),
            Subject::Finalize { proposal } => Vote::Finalize(Finalize {
                proposal,
                attestation,
            }),
        }
    }

    /// What its signer signs.
    pub fn subject(&self) -> Subject<D>
        ensures { result ≡ subject_of self.now }
    {
        match self {
            Vote::Notarize(notarize) => Subject::Notarize {
                proposal: notarize.proposal,
            },
            Vote::Nullify(nullify) => Subject::Nullify {
                round: nullify.round,
            },
            Vote::Finalize(finalize) => Subject::Finalize {
                proposal: finalize.proposal,
            },
        }
    }

    /// The signature on its subject, with the index of its signer.
    pub fn attestation(&self) -> Attestation<G>
        ensures { result ≡ attestation_of self.now }
    {
        match self {
            Vote::Notarize(notarize) => notarize.attestation,
            Vote::Nullify(nullify) => nullify.attestation,
            Vote::Finalize(finalize) => finalize.attestation,
        }
    }

    /// The round that it is of.
    pub fn round(&self) -> Round
        ensures { result ≡ round_in (subject_of self.now) }
    {
        self.subject().round()
    }
}

impl<G, D: Digest> Vote<G, D> {
    ghost use Rattle.batcher_types.specs.Votes.{is_eligible};

    /// Whether the vote waits where the proposal is selected: a nullify, or a vote for it.
    pub fn eligible_with(&self, proposal: &Proposal<D>) -> bool
        ensures { result ≡ is_eligible D.eq (Some proposal.now) self.now }
    {
        match self {
            Vote::Notarize(notarize) => *proposal == notarize.proposal,
            Vote::Nullify(_) => true,
            Vote::Finalize(finalize) => *proposal == finalize.proposal,
        }
    }
}

/// That a quorum notarized a proposal.
#[derive(Clone, Debug, Drop, PartialEq, Eq)]
pub struct Notarization<C, D> {
    pub proposal: Proposal<D>,
    pub certificate: C,
}

/// That a quorum gave a round up.
#[derive(Clone, Debug, Drop, PartialEq, Eq)]
pub struct Nullification<C> {
    pub round: Round,
    pub certificate: C,
}

/// That a quorum made a proposal final.
#[derive(Clone, Debug, Drop, PartialEq, Eq)]
pub struct Finalization<C, D> {
    pub proposal: Proposal<D>,
    pub certificate: C,
}

/// A certificate of any kind.
#[derive(Clone, Debug, Drop, PartialEq, Eq)]
pub enum Certificate<C, D> {
    Notarization(Notarization<C, D>),
    Nullification(Nullification<C>),
    Finalization(Finalization<C, D>),
}

/// A kind of certificate, and of the votes that it is made of.
#[derive(Clone, Copy, Debug, PartialEq, Eq, PartialOrd, Ord, Hash)]
pub enum Kind {
    Notarization,
    Nullification,
    Finalization,
}

impl fmt::Display for Kind {
    fn fmt<W: fmt::Write>(&self, f: &mut fmt::Formatter<W>) -> fmt::Result {
        f.write_str(match self {
            Kind::Notarization => "notarization",
            Kind::Nullification => "nullification",
            Kind::Finalization => "finalization",
        })
    }
}

impl<C, D: fmt::Display> fmt::Display for Certificate<C, D> {
    /// Its kind and payload.
    fn fmt<W: fmt::Write>(&self, f: &mut fmt::Formatter<W>) -> fmt::Result {
        match self {
            Certificate::Notarization(made) => write!(f, "notarization({})", made.proposal),
            Certificate::Nullification(_) => write!(f, "nullification"),
            Certificate::Finalization(made) => write!(f, "finalization({})", made.proposal),
        }
    }
}

impl<C, D> Certificate<C, D> {
    ghost use Rattle.batcher_types.specs.Votes.{kind_certified};

    /// The kind of votes that it is made of.
    pub fn kind(&self) -> Kind
        ensures { result ≡ kind_certified self.now }
    {
        match self {
            Certificate::Notarization(_) => Kind::Notarization,
            Certificate::Nullification(_) => Kind::Nullification,
            Certificate::Finalization(_) => Kind::Finalization,
        }
    }
}

impl<C, D: Copy> Certificate<C, D> {
    ghost use Rattle.batcher_types.specs.Votes.{subject_certified, content_of, round_in};
    ghost use Rattle.batcher_types.specs.Votes.{proposal_in};

    /// The certificate that a quorum signed the subject.
    pub fn new(subject: Subject<D>, certificate: C) -> Self
        ensures subject { subject_certified result ≡ subject }
        ensures content { content_of result ≡ certificate }
    {
        match subject {
            Subject::Notarize { proposal } => Certificate::Notarization(Notarization {
                proposal,
                certificate,
            }),
            Subject::Nullify { round } => {
                Certificate::Nullification(Nullification { round, certificate })
            }
            Subject::Finalize { proposal } => Certificate::Finalization(Finalization {
                proposal,
                certificate,
            }),
        }
    }

    /// What each signer behind it signed. `Scheme::verify_certificate` is asked with it.
    pub fn subject(&self) -> Subject<D>
        ensures { result ≡ subject_certified self.now }
    {
        match self {
            Certificate::Notarization(notarization) => Subject::Notarize {
                proposal: notarization.proposal,
            },
            Certificate::Nullification(nullification) => Subject::Nullify {
                round: nullification.round,
            },
            Certificate::Finalization(finalization) => Subject::Finalize {
                proposal: finalization.proposal,
            },
        }
    }

    /// What the scheme has made, without what it is for.
    pub fn content(&self) -> &C
        ensures { result.now ≡ content_of self.now }
    {
        match self {
            Certificate::Notarization(notarization) => &notarization.certificate,
            Certificate::Nullification(nullification) => &nullification.certificate,
            Certificate::Finalization(finalization) => &finalization.certificate,
        }
    }

    /// The round that it is of.
    pub fn round(&self) -> Round
        ensures { result ≡ round_in (subject_certified self.now) }
    {
        self.subject().round()
    }

    /// The proposal that it is for, unless it is a nullification.
    pub fn proposal(&self) -> Option<Proposal<D>>
        ensures { result ≡ proposal_in (subject_certified self.now) }
    {
        self.subject().proposal()
    }
}

/// What a signer signs: a kind of vote with its context, which is the round number for a
/// nullify and the proposal for the others.
#[derive(Clone, Copy, Debug, PartialEq, Eq)]
pub enum Subject<D> {
    Notarize { proposal: Proposal<D> },
    Nullify { round: Round },
    Finalize { proposal: Proposal<D> },
}

impl<D: Copy> Subject<D> {
    ghost use Rattle.batcher_types.specs.Votes.{round_in, proposal_in};

    /// The round that it is of.
    pub fn round(&self) -> Round
        ensures { result ≡ round_in self.now }
    {
        match self {
            Subject::Notarize { proposal } | Subject::Finalize { proposal } => proposal.round,
            Subject::Nullify { round } => *round,
        }
    }

    /// The proposal, unless it is that of a nullify.
    pub fn proposal(&self) -> Option<Proposal<D>>
        ensures { result ≡ proposal_in self.now }
    {
        match self {
            Subject::Notarize { proposal } | Subject::Finalize { proposal } => Some(*proposal),
            Subject::Nullify { .. } => None,
        }
    }
}

impl<D: Digest> Subject<D> {
    ghost use Rattle.batcher_types.specs.Votes.{same_subject};

    /// Whether the two are one.
    pub fn is_same(&self, other: &Self) -> bool
        ensures { result ≡ same_subject D.eq self.now other.now }
    {
        match (self, other) {
            (Subject::Notarize { proposal: p }, Subject::Notarize { proposal: q }) => *p == *q,
            (Subject::Nullify { round: r }, Subject::Nullify { round: s }) => *r == *s,
            (Subject::Finalize { proposal: p }, Subject::Finalize { proposal: q }) => *p == *q,
            (Subject::Notarize { .. }, Subject::Nullify { .. } | Subject::Finalize { .. })
            | (Subject::Nullify { .. }, Subject::Notarize { .. } | Subject::Finalize { .. })
            | (Subject::Finalize { .. }, Subject::Notarize { .. } | Subject::Nullify { .. }) => {
                false
            }
        }
    }
}

/// What a round reports: a vote that is new, or two votes of one signer that contradict each
/// other, as evidence against it. The earlier one of two notarizes or finalizes comes first.
#[derive(Clone, Copy, Debug, PartialEq, Eq)]
pub enum Activity<G, D> {
    Notarize(Notarize<G, D>),
    Nullify(Nullify<G>),
    Finalize(Finalize<G, D>),
    ConflictingNotarize(Notarize<G, D>, Notarize<G, D>),
    ConflictingFinalize(Finalize<G, D>, Finalize<G, D>),
    NullifyFinalize(Nullify<G>, Finalize<G, D>),
}

impl<G, D: fmt::Display> fmt::Display for Activity<G, D> {
    /// What it is, with the signer and the payload of each vote that has one.
    fn fmt<W: fmt::Write>(&self, f: &mut fmt::Formatter<W>) -> fmt::Result {
        match self {
            Activity::Notarize(vote) => write!(f, "{vote}"),
            Activity::Nullify(vote) => write!(f, "{vote}"),
            Activity::Finalize(vote) => write!(f, "{vote}"),
            Activity::ConflictingNotarize(first, second) => {
                let signer = second.attestation.signer;
                let kept = &first.proposal;
                let later = &second.proposal;
                write!(f, "conflicting-notarize({signer}, {kept}, {later})")
            }
            Activity::ConflictingFinalize(first, second) => {
                let signer = second.attestation.signer;
                let kept = &first.proposal;
                let later = &second.proposal;
                write!(f, "conflicting-finalize({signer}, {kept}, {later})")
            }
            Activity::NullifyFinalize(_, vote) => {
                let signer = vote.attestation.signer;
                let payload = &vote.proposal;
                write!(f, "nullify-finalize({signer}, {payload})")
            }
        }
    }
}
