//! Votes of one kind on their way to a certificate.

ghost use Rattle.std.specs.Prelude.{◌≡◌, ◌+◌, ◌≤◌, ◌&&◌, ◌||◌, ◌==◌, ◌++◌, ◌∷◌, [], not, cond};
ghost use Rattle.std.specs.Prelude.{true, false, length, filter, map, nat_le, nat_lt, Some, OnOk};
ghost use Rattle.std.specs.Prelude.{IsOk};
ghost use Rattle.std.specs.List.{list_any};
ghost use Rattle.batcher_types.specs.Votes.{signer_of, is_eligible};
ghost use Rattle.batcher_votes.specs.VerifierSteps.{attestations_of, first_proposal};
ghost use Rattle.batcher_votes.specs.VerifierSteps.{have_one_subject, vote_for};
ghost use Rattle.batcher_votes.specs.Certifications.{is_complete, pending_of, verified_of};
ghost use Rattle.batcher_votes.specs.Certifications.{pending_room, verified_room, room_for_run};

use crate::verifier::buffer::Buffer;
use crate::votes::KeptVotes;
use batcher_types::messages::{Attestation, Digest, Proposal, Subject, Vote};
use batcher_types::positions::Participant;
use std::alloc::{AllocError, Global};

/// Votes of one kind on their way to a certificate.
#[derive(Drop)]
pub(crate) enum Certification<G, D> {
    /// No certificate is there.
    Open {
        /// Votes of which no one knows yet whether they attest.
        pending: Buffer<G, D>,
        /// Votes that attest, kept until they are a quorum.
        verified: Buffer<G, D>,
    },
    /// A certificate is there, so no vote of the kind is needed any more.
    Complete,
}

impl<G: Copy, D: Digest> Certification<G, D> {
    /// No vote, and no certificate. It takes no memory.
    pub(crate) fn new(alloc: Global) -> Self
        ensures complete { is_complete result ≡ false }
        ensures pending { pending_of result ≡ [] }
        ensures verified { verified_of result ≡ [] }
    {
        Certification::Open {
            pending: Buffer::new(alloc),
            verified: Buffer::new(alloc),
        }
    }

    /// Whether a certificate is there.
    pub(crate) fn is_complete(&self) -> bool
        ensures { result ≡ is_complete self.now }
    {
        match self {
            Certification::Open { .. } => false,
            Certification::Complete => true,
        }
    }

    /// How many votes are pending, and how many verified.
    pub(crate) fn lengths(&self) -> (usize, usize)
        ensures pending { result.0 ≡ length (pending_of self.now) }
        ensures verified { result.1 ≡ length (verified_of self.now) }
    {
        match self {
            Certification::Open { pending, verified } => (pending.len(), verified.len()),
            Certification::Complete => (0, 0),
        }
    }

    /// The pending attestations.
    pub(crate) fn pending(&self) -> &[Attestation<G>]
        ensures { result.now ≡ attestations_of (pending_of self.now) }
    {
        match self {
            Certification::Open { pending, .. } => pending.attestations(),
            Certification::Complete => &[],
        }
    }

    /// The verified attestations.
    pub(crate) fn verified(&self) -> &[Attestation<G>]
        ensures { result.now ≡ attestations_of (verified_of self.now) }
    {
        match self {
            Certification::Open { verified, .. } => verified.attestations(),
            Certification::Complete => &[],
        }
    }

    /// The proposal of the first verified vote.
    pub(crate) fn first_proposal(&self) -> Option<Proposal<D>>
        ensures { result ≡ first_proposal (verified_of self.now) }
    {
        match self {
            Certification::Open { verified, .. } => verified.first_proposal(),
            Certification::Complete => None,
        }
    }

    /// Whether a vote of the signer is buffered.
    pub(crate) fn contains(&self, signer: Participant) -> bool
        ensures { result ≡ (list_any (λ vote. signer_of vote == signer.0) (verified_of self.now)
            || list_any (λ vote. signer_of vote == signer.0) (pending_of self.now)) }
    {
        match self {
            Certification::Open { pending, verified } => {
                verified.contains(signer) || pending.contains(signer)
            }
            Certification::Complete => false,
        }
    }

    /// Whether an attempt is to be made. While votes for any proposal wait, only verified ones
    /// that carry one proposal are tried.
    pub(crate) fn is_ready(&self, batchable: bool, quorum: usize, any_proposal: bool) -> bool
        ensures { result ≡ (not (is_complete self.now) && cond any_proposal
            (nat_le quorum (length (verified_of self.now))
            && have_one_subject D.eq (verified_of self.now))
            (nat_le quorum (length (verified_of self.now))
            || (nat_lt 0 (length (pending_of self.now))
            && (not batchable || nat_le quorum
            (length (verified_of self.now) + length (pending_of self.now)))))) }
    {
        let Certification::Open { pending, verified } = self else {
            return false;
        };
        let reaches = verified.len() >= quorum;
        if any_proposal {
            return reaches && verified.is_about_one();
        }
        let most = verified.len().saturating_add(pending.len());
        reaches || (pending.len() > 0 && (!batchable || most >= quorum))
    }

    /// Makes room for `additional` more votes in one of the buffers, which is to hold `most` at
    /// most, and changes nothing else.
    pub(crate) fn make_room(
        &mut self,
        verified: bool,
        additional: usize,
        most: usize,
    ) -> Result<(), AllocError>
        ensures complete { is_complete self.new ≡ is_complete self.old }
        ensures pending { pending_of self.new ≡ pending_of self.old }
        ensures verified { verified_of self.new ≡ verified_of self.old }
        ensures pending_room { pending_room self.old ≤ pending_room self.new }
        ensures verified_room { verified_room self.old ≤ verified_room self.new }
        ensures room { OnOk result (additional
            ≤ cond verified (verified_room self.new) (pending_room self.new)) }
        ensures no_memory { additional
            ≤ cond verified (verified_room self.old) (pending_room self.old) → IsOk result }
    {
        match self {
            Certification::Open {
                pending,
                verified: attesting,
            } => {
                if verified {
                    attesting.make_room(additional, most)
                } else {
                    pending.make_room(additional, most)
                }
            }
            Certification::Complete => Ok(()),
        }
    }

    /// Makes room for so many more verified votes of one subject, and changes nothing else.
    pub(crate) fn make_room_for_run(&mut self, additional: usize) -> Result<(), AllocError>
        ensures complete { is_complete self.new ≡ is_complete self.old }
        ensures pending { pending_of self.new ≡ pending_of self.old }
        ensures verified { verified_of self.new ≡ verified_of self.old }
        ensures room { OnOk result (additional ≤ room_for_run self.new) }
    {
        match self {
            Certification::Open { verified, .. } => verified.make_room_for_run(additional),
            Certification::Complete => Ok(()),
        }
    }

    /// Takes the vote to the end of one of the buffers, in which there is room, unless a
    /// certificate is there. It is inlined, as `push` of a buffer is, since nearly every
    /// vote comes here.
    #[inline(always)]
    pub(crate) fn push(&mut self, vote: &Vote<G, D>, verified: bool)
        requires { is_complete self.old ≡ false
            → 1 ≤ cond verified (verified_room self.old) (pending_room self.old) }
        ensures complete { is_complete self.new ≡ is_complete self.old }
        ensures pending { pending_of self.new ≡ pending_of self.old
            ++ cond (not verified && not (is_complete self.old)) (vote.now ∷ []) [] }
        ensures verified { verified_of self.new ≡ verified_of self.old
            ++ cond (verified && not (is_complete self.old)) (vote.now ∷ []) [] }
        ensures pending_room { pending_room self.old
            ≤ pending_room self.new + cond (not verified) 1 0 }
        ensures verified_room { verified_room self.old
            ≤ verified_room self.new + cond verified 1 0 }
    {
        match self {
            Certification::Open {
                pending,
                verified: attesting,
            } => {
                if verified {
                    attesting.push(vote);
                } else {
                    pending.push(vote);
                }
            }
            Certification::Complete => {}
        }
    }

    /// Drops the votes for other proposals.
    pub(crate) fn retain(&mut self, proposal: &Proposal<D>)
        ensures complete { is_complete self.new ≡ is_complete self.old }
        ensures pending { pending_of self.new
            ≡ filter (is_eligible D.eq (Some proposal.now)) (pending_of self.old) }
        ensures verified { verified_of self.new
            ≡ filter (is_eligible D.eq (Some proposal.now)) (verified_of self.old) }
        ensures pending_room { pending_room self.old ≤ pending_room self.new }
        ensures verified_room { verified_room self.old ≤ verified_room self.new }
    {
        match self {
            Certification::Open { pending, verified } => {
                pending.retain(proposal);
                verified.retain(proposal);
            }
            Certification::Complete => {}
        }
    }

    /// Votes that were kept are restored as pending, where they wait with the proposal, unless a
    /// certificate is there.
    pub(crate) fn restore(&mut self, votes: KeptVotes<'_, G, D>, proposal: &Proposal<D>)
        requires { is_complete self.old ≡ false
            → length (filter (is_eligible D.eq (Some proposal.now)) votes) ≤ pending_room self.old }
        ensures complete { is_complete self.new ≡ is_complete self.old }
        ensures pending { pending_of self.new ≡ pending_of self.old
            ++ cond (is_complete self.old) []
            (filter (is_eligible D.eq (Some proposal.now)) votes.entry) }
        ensures verified { verified_of self.new ≡ verified_of self.old }
        ensures verified_room { verified_room self.old ≤ verified_room self.new }
    {
        match self {
            Certification::Open { pending, .. } => pending.restore(votes, proposal),
            Certification::Complete => {}
        }
    }

    /// A certificate is there, so the memory of the votes goes back.
    pub(crate) fn finish(&mut self)
        ensures complete { is_complete self.new ≡ true }
        ensures pending { pending_of self.new ≡ [] }
        ensures verified { verified_of self.new ≡ [] }
    {
        *self = Certification::Complete;
    }

    /// Verified votes join the others, and none is pending any more.
    pub(crate) fn absorb(&mut self, subject: Subject<D>, joining: &[Attestation<G>])
        requires open { is_complete self.old ≡ false }
        requires room { length joining.now ≤ room_for_run self.old }
        ensures complete { is_complete self.new ≡ is_complete self.old }
        ensures pending { pending_of self.new ≡ [] }
        ensures verified { verified_of self.new ≡ verified_of self.old
            ++ map (vote_for subject) joining.now }
    {
        match self {
            Certification::Open { pending, verified } => {
                pending.clear();
                verified.extend(subject, joining);
            }
            Certification::Complete => {}
        }
    }
}
