//! A round over either sort of scheme.

ghost use Rattle.std.specs.Prelude.{◌≡◌, ◌≤◌, [], IfOk, IfSome, IfNone, OnErr, length};
ghost use Rattle.batcher.specs.Represents.{Represents};
ghost use Rattle.batcher_types.specs.declared.messages.Kind.{Kind as TheKind};
ghost use Rattle.batcher_votes.specs.RoundState.{of_kind};
ghost use Rattle.std.specs.Option.{option_map};
ghost use Rattle.batcher_round.specs.Next.{subject_next, pending_next, verified_next};
ghost use Rattle.batcher_verdicts.specs.Rounds.{AsksNext};
ghost use Rattle.batcher_verdicts.specs.Calls.{ForEach};
ghost use Rattle.batcher_verdicts.specs.Judging.{config_in, held_in, keys_in, SameAny};

use crate::calls::{Ask, Call};
use crate::either::Either;
use crate::judged::Judged;
use batcher::messages::Sha256Digest;
use batcher::positions;
use batcher::scheme::names;
use batcher::verifier::NextAttempt;
use batcher::votes::Mode;
use batcher_bytes::{Bytes, Keys, Signature, Truth};
use std::alloc::{AllocError, Global};
use std::marker::Model;
use std::rc::Rc;

/// A round over either sort of scheme, with its verdicts.
#[derive(Drop)]
pub struct AnyRound<T: Truth> {
    either: Either<Judged<Bytes<T, true>>, Judged<Bytes<T, false>>>,
}

impl<T: Truth> Model for AnyRound<T> {
    ghost use Rattle.batcher_verdicts.specs.Judging.{AnyView};

    ghost Value = { AnyView T };

    ghost view = { λ r. r.either };
}

impl<T: Truth> AnyRound<T> {
    /// A round in which nothing has happened, of so many participants, whose names are 0, 1, .. in
    /// this order. None where there is no participant.
    ///
    /// A batchable scheme waits for a quorum before it wants verdicts, another wants each as votes
    /// come.
    pub fn new(
        alloc: Global,
        number: positions::Round,
        participants: u32,
        keys: Keys,
        mode: Mode,
        batchable: bool,
    ) -> Result<Option<Self>, AllocError>
        ensures none { IfOk result (λ made. IfNone made (participants ≡ 0)) }
        ensures some { IfOk result (λ made. IfSome made (λ _. 1 ≤ participants)) }
        ensures participants { IfOk result (λ made. IfSome made (λ r.
            length (config_in T.Truth r).meaning.participants ≡ participants)) }
        ensures batchable { IfOk result (λ made. IfSome made (λ r.
            (config_in T.Truth r).meaning.batchable ≡ batchable)) }
        ensures keys { IfOk result (λ made. IfSome made (λ r. keys_in r ≡ keys)) }
        ensures number { IfOk result (λ made. IfSome made (λ r.
            (config_in T.Truth r).number ≡ number)) }
        ensures mode { IfOk result (λ made. IfSome made (λ r.
            (config_in T.Truth r).mode ≡ mode)) }
        ensures unknown { IfOk result (λ made. IfSome made (λ r. (kind : TheKind)
            → (of_kind (held_in r).verdicts kind).list ≡ [])) }
        ensures needed { OnErr result (1 ≤ participants) }
        ensures represents { IfOk result (λ made. IfSome made (λ r.
            Represents (config_in T.Truth r) [] (held_in r).round)) }
    {
        if participants == 0 {
            return Ok(None);
        }
        let all = names(alloc, participants)?;
        let either = if batchable {
            let scheme = Rc::new(alloc, Bytes::new(all, keys))?;
            Either::Batchable(Judged::new(alloc, number, &scheme, mode)?)
        } else {
            let scheme = Rc::new(alloc, Bytes::new(all, keys))?;
            Either::OneByOne(Judged::new(alloc, number, &scheme, mode)?)
        };
        Ok(Some(AnyRound { either }))
    }

    /// Makes a call.
    pub fn call<C: Call<T>>(&mut self, call: C) -> C::Answer
        requires { C.needs call (config_in T.Truth self.old) (keys_in self.old) }
        ensures does { C.does call (config_in T.Truth self.old) (keys_in self.old)
            (held_in self.old) result (held_in self.new) }
        ensures same { SameAny self.old self.new }
        ensures whole { held_in self.new ≡ held_in self.old → self.new ≡ self.old }
    {
        match &mut self.either {
            Either::Batchable(judged) => call.make(judged),
            Either::OneByOne(judged) => call.make(judged),
        }
    }

    /// Asks a question.
    pub fn ask<Q: Ask<T>>(&self, question: Q) -> Q::Answer
        ensures { ForEach (config_in T.Truth self.now) (held_in self.now)
            (λ past. Q.says question (config_in T.Truth self.now) past result) }
    {
        match &self.either {
            Either::Batchable(judged) => question.ask(&judged.round),
            Either::OneByOne(judged) => question.ask(&judged.round),
        }
    }

    /// What the next construction wants verdicts on, and those that are known to attest. It wants
    /// none where the list of pending ones is empty. None where no kind is ready.
    pub fn wanted(&self) -> Option<NextAttempt<'_, Signature, Sha256Digest>>
        ensures subject { option_map (λ a. a.subject) result
            ≡ subject_next (config_in T.Truth self.now) (held_in self.now).round }
        ensures asked { IfSome result (λ a. AsksNext (config_in T.Truth self.now)
            (held_in self.now).round (held_in self.now).verdicts a.subject a.pending.now) }
        ensures verified { IfSome result (λ a. a.verified.now
            ≡ verified_next (config_in T.Truth self.now) (held_in self.now).round) }
    {
        match &self.either {
            Either::Batchable(judged) => judged.verdicts.wanted(&judged.round),
            Either::OneByOne(judged) => judged.verdicts.wanted(&judged.round),
        }
    }

    /// What the next construction looks at: all that waits, and those that are known to attest.
    /// Where a quorum of them passes as a whole, no verdict is wanted.
    pub fn next_attempt(&self) -> Option<NextAttempt<'_, Signature, Sha256Digest>>
        ensures subject { option_map (λ a. a.subject) result
            ≡ subject_next (config_in T.Truth self.now) (held_in self.now).round }
        ensures pending { IfSome result (λ a. a.pending.now
            ≡ pending_next (config_in T.Truth self.now) (held_in self.now).round) }
        ensures verified { IfSome result (λ a. a.verified.now
            ≡ verified_next (config_in T.Truth self.now) (held_in self.now).round) }
    {
        match &self.either {
            Either::Batchable(judged) => judged.round.next_attempt(),
            Either::OneByOne(judged) => judged.round.next_attempt(),
        }
    }

    /// How many participants there are.
    pub fn participants(&self) -> usize
        ensures { result ≡ length (config_in T.Truth self.now).meaning.participants }
    {
        match &self.either {
            Either::Batchable(judged) => judged.scheme.participants.len(),
            Either::OneByOne(judged) => judged.scheme.participants.len(),
        }
    }

    /// Which keys they have.
    pub fn keys(&self) -> Keys
        ensures { result ≡ keys_in self.now }
    {
        match &self.either {
            Either::Batchable(judged) => judged.scheme.keys,
            Either::OneByOne(judged) => judged.scheme.keys,
        }
    }
}
