//! What a new source makes of the selected proposal.

ghost use Rattle.std.specs.Prelude.{◌≡◌, cond, true, None, is_some};
ghost use Rattle.std.specs.Option.{option_copied};
ghost use Rattle.batcher_types.specs.Votes.{is_eligible};
ghost use Rattle.batcher_votes.specs.ProposalStates.{proposal_of, updated, same_selected};

use crate::verifier::ProposalState;
use batcher_types::messages::{Digest, Proposal, Vote};

impl<D> ProposalState<D> {
    pub(super) fn selected(&self) -> Option<&Proposal<D>>
        ensures { option_copied result ≡ proposal_of self.now }
    {
        match self {
            ProposalState::Unknown => None,
            ProposalState::Leader(proposal) => Some(proposal),
            ProposalState::Certificate(proposal) => Some(proposal),
        }
    }
}

impl<D: Digest> ProposalState<D> {
    // What a new source makes of it: where none is selected it is taken, and what is certified
    // takes the place of the leader's.
    pub(super) fn updated(self, next: ProposalState<D>) -> ProposalState<D>
        ensures { result ≡ updated self next }
    {
        match self {
            ProposalState::Unknown => next,
            ProposalState::Leader(_) => match next {
                ProposalState::Certificate(_) => next,
                ProposalState::Unknown | ProposalState::Leader(_) => self,
            },
            ProposalState::Certificate(_) => self,
        }
    }

    // The selected proposal, where it is another than before.
    pub(super) fn changed_from(self, before: ProposalState<D>) -> Option<Proposal<D>>
        requires { is_some (proposal_of before) ≡ true → is_some (proposal_of self) ≡ true }
        ensures { result ≡ cond (same_selected D.eq (proposal_of before) (proposal_of self)) None
            (proposal_of self) }
    {
        let proposal = *self.selected()?;
        match before.selected() {
            Some(known) => {
                if *known == proposal {
                    None
                } else {
                    Some(proposal)
                }
            }
            None => Some(proposal),
        }
    }

    // Whether the vote waits with what is selected.
    pub(super) fn may_be_eligible<G: Copy>(&self, vote: &Vote<G, D>) -> bool
        ensures { result ≡ is_eligible D.eq (proposal_of self.now) vote.now }
    {
        match self.selected() {
            None => true,
            Some(proposal) => vote.eligible_with(proposal),
        }
    }
}
