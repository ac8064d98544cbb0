//! A validator's own votes are cast.

ghost use Rattle.std.specs.Prelude.{◌≡◌, Err, IfOk, OnErr, true};
ghost use Rattle.batcher.specs.Votes.{attestation_of, subject_of};
ghost use Rattle.batcher_bytes.specs.Messages.{vote_format};
ghost use Rattle.batcher_validator.specs.Running.{ForEachRun, RunCasts, RunMayWrite};
ghost use Rattle.batcher_voter.specs.declared.answers.CastFault.{CastFault};
ghost use Rattle.batcher_voter.specs.Casting.{CastsVote};

use crate::validator::Validator;
use batcher::messages::{Digest, Identical, Vote};
use batcher::scheme::Scheme;
use batcher_bytes::{Codec, Log, OwnedCodec};
use batcher_node::{Cast, NodeConfigs};
use batcher_voter::CastFault;

impl<S: Scheme<D>, D: Digest + Codec, L: Log> Validator<S, D, L>
where
    S::Signature: Codec + Identical,
    S::Certificate: OwnedCodec,
{
    /// Casts a vote of its own, which attests, as the voter does. Then poll, which gives it to be
    /// sent.
    pub fn cast(
        &mut self,
        vote: Vote<S::Signature, D>,
    ) -> Result<Cast<S::Signature, D>, CastFault<S::Signature, D>>
        requires { (S.meaning self.old.voter.node.scheme).attests (subject_of vote)
            (attestation_of vote) ≡ true }
        ensures meets { IfOk result (λ cast. RunCasts
            (⟦<S as NodeConfigs<D>>⟧.of self.old.voter.node) self.old vote cast self.new) }
        ensures refused { OnErr result (ForEachRun
            (⟦<S as NodeConfigs<D>>⟧.of self.old.voter.node) self.old (λ past earlier. RunMayWrite
            (⟦<S as NodeConfigs<D>>⟧.of self.old.voter.node) vote past earlier self.new)) }
        ensures casts { CastsVote (⟦<S as NodeConfigs<D>>⟧.of self.old.voter.node) D.eq
            (vote_format S.Signature.format D.format) L.is_full L.is_honest L.may_leave
            L.is_copied_as self.old.voter vote self.new.voter result }
    {
        match self.call_cast(vote) {
            Ok(cast) => Ok(cast),
            Err(fault) => Err(fault),
        }
    }

    // The voter casts a vote.
    fn call_cast(
        &mut self,
        vote: Vote<S::Signature, D>,
    ) -> Result<Cast<S::Signature, D>, CastFault<S::Signature, D>>
        requires { (S.meaning self.old.voter.node.scheme).attests (subject_of vote)
            (attestation_of vote) ≡ true }
        ensures casts { CastsVote (⟦<S as NodeConfigs<D>>⟧.of self.old.voter.node) D.eq
            (vote_format S.Signature.format D.format) L.is_full L.is_honest L.may_leave
            L.is_copied_as self.old.voter vote self.new.voter result }
        ensures back { self.new.voter ≡ self.old.voter → self.new ≡ self.old }
        ensures given { self.new.given ≡ self.old.given }
        ensures shelf { self.new.shelf ≡ self.old.shelf }
    {
        let waiting = self.shelf.waiting(self.voter.waits());
        self.voter.cast(vote, waiting)
    }
}
