//! What a call of a round is, whichever sort its scheme is of.

use crate::judged::Judged;
use batcher::messages::{Attestation, Identical, Sha256Digest, Subject};
use batcher::round::{Round, RoundConfigs};
use batcher::scheme::{Name, Scheme};
use batcher_bytes::{Bytes, Content, Signature, Truth};
use std::alloc::{AllocError, Global};

/// A scheme whose signatures are bytes.
pub trait OfBytes<T: Truth>: Scheme<
    Sha256Digest,
    PublicKey = Name,
    Signature = Signature,
    Certificate = Content<T>,
> {
    ghost use Rattle.std.specs.Prelude.{◌≡◌, ◌++◌, true, length, IfOk};
    ghost use Rattle.batcher_types.specs.Attestations.{IsQuorum};
    ghost use Rattle.batcher_bytes.specs.Meanings.{made_of};
    ghost use Rattle.batcher_bytes.specs.declared.signature.Keys.{Keys};

    ghost keys: { Self → Keys };

    /// The certificate of a quorum that passes as a whole.
    fn together(
        &self,
        alloc: Global,
        subject: Subject<Sha256Digest>,
        prior: &[Attestation<Signature>],
        fresh: &[Attestation<Signature>],
    ) -> Result<Content<T>, AllocError>
        requires quorum { IsQuorum (length (Self.meaning self.now).participants)
            (prior.now ++ fresh.now) }
        requires passes { T.passes (keys self.now) subject (prior.now ++ fresh.now) ≡ true }
        ensures made { IfOk result (λ certificate. certificate ≡ made_of (keys self.now)
            (length (Self.meaning self.now).participants) subject (prior.now ++ fresh.now)) }
        ensures assembled { IfOk result (λ certificate. certificate
            ≡ (Self.meaning self.now).assembled subject prior.now fresh.now) }
        ensures certifies { IfOk result (λ certificate.
            (Self.meaning self.now).certifies subject certificate ≡ true) };
}

impl<T: Truth, const BATCHABLE: bool> OfBytes<T> for Bytes<T, BATCHABLE> {
    ghost keys = { λ s. s.keys };

    fn together(
        &self,
        alloc: Global,
        subject: Subject<Sha256Digest>,
        prior: &[Attestation<Signature>],
        fresh: &[Attestation<Signature>],
    ) -> Result<Content<T>, AllocError> {
        Bytes::together(self, alloc, subject, prior, fresh)
    }
}

/// A call of a round: how it is made, what it needs, and what it does to what the round holds.
pub trait Call<T: Truth>: Drop {
    ghost use Rattle.batcher_bytes.specs.declared.signature.Keys.{Keys};
    ghost use Rattle.batcher_votes.specs.RoundState.{SameRound};
    ghost use Rattle.batcher_verdicts.specs.Judging.{Held, BytesConfig, held_of};

    type Answer: Drop;

    // what has to hold before it, by the configuration and the keys of the round
    ghost needs: { Self → BytesConfig T → Keys → Type 0 };

    // what it does to what the round holds, and what it answers
    ghost does: { Self → BytesConfig T → Keys → Held → Self.Answer → Held → Type 0 };

    /// Makes the call.
    fn make<S: OfBytes<T>>(self, judged: &mut Judged<S>) -> Self::Answer
        requires { needs self (⟦<S as RoundConfigs<Sha256Digest>>⟧.of judged.old.round)
            (S.keys judged.old.round.scheme) }
        ensures does { does self (⟦<S as RoundConfigs<Sha256Digest>>⟧.of judged.old.round)
            (S.keys judged.old.round.scheme) (held_of judged.old) result (held_of judged.new) }
        ensures same { SameRound judged.old.round judged.new.round };
}

/// A question to a round, which changes nothing.
pub trait Ask<T: Truth>: Drop {
    ghost use Rattle.batcher_histories.specs.History.{History};
    ghost use Rattle.batcher_histories.specs.RoundContracts.{ForEachHistory};
    ghost use Rattle.batcher_types.specs.declared.messages.Sha256Digest.{Sha256Digest as TheDigest};
    ghost use Rattle.batcher_types.specs.declared.scheme.keyed.Name.{Name as TheName};
    ghost use Rattle.batcher_bytes.specs.declared.certificates.Content.{Content as TheContent};
    ghost use Rattle.batcher_bytes.specs.declared.signature.Signature.{Signature as TheSignature};
    ghost use Rattle.batcher_verdicts.specs.Judging.{BytesConfig};

    type Answer: Drop;

    // what it answers, by the history of the round
    ghost says: { Self → BytesConfig T → History TheDigest TheName TheSignature (TheContent T)
        → Self.Answer → Type 0 };

    /// Asks.
    fn ask<S: OfBytes<T>>(self, round: &Round<S, Sha256Digest>) -> Self::Answer
        ensures { ForEachHistory ⟦<S as RoundConfigs<Sha256Digest>>⟧.of round.now
            (λ x past. says self x past result) };
}
