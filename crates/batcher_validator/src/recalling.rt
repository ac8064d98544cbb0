//! A validator takes in what its disk has.

ghost use Rattle.std.specs.Prelude.{◌≡◌, ◌<◌, ◌≤◌, ◌∷◌, HoldsAt, IfErr, IfOk, IfSome, None, Ok};
ghost use Rattle.std.specs.Prelude.{OnOk, false, length, true};
ghost use Rattle.batcher.specs.Verifiers.{certifies_itself};
ghost use Rattle.batcher.specs.messages.Certificate.{Certificate as TheCertificate};
ghost use Rattle.batcher_agreement.specs.Lives.{verified};
ghost use Rattle.batcher_bytes.specs.Format.{whole};
ghost use Rattle.batcher_bytes.specs.Messages.{certificate_format, versioned};
ghost use Rattle.batcher_validator.specs.Recalling.{IsAtPlace, Recalls};
ghost use Rattle.batcher_validator.specs.Running.{AreBytesOf, HasCertificate, RunTakes};
ghost use Rattle.batcher.specs.Votes.{round_in, subject_certified};
ghost use Rattle.batcher_voter.specs.Keeping.{HasOnDisk};
ghost use Rattle.batcher_voter.specs.Reopening.{StaysKnown};
ghost use Rattle.batcher_voter.specs.Unstarted.{IsReadAs, WhyNotLearned, WhyNotStarted, WhyUnread};
ghost use Rattle.batcher_voter.specs.declared.answers.StartFault.TheVariants.{OutOfMemory as NoMemory};
ghost use Rattle.batcher_voter.specs.Voting.{ForEachLife, IsVoting};

use crate::validator::Validator;
use batcher::messages::{Certificate, Digest, Identical, Kind};
use batcher::positions::Round;
use batcher::scheme::Scheme;
use batcher_bytes::{Codec, DecodeError, Log, OwnedCodec, decode_owned};
use batcher_node::NodeConfigs;
use batcher_voter::StartFault;
use std::alloc::{AllocError, Global};

impl<S: Scheme<D>, D: Digest + Codec, L: Log> Validator<S, D, L>
where
    S::Signature: Codec + Identical,
    S::Certificate: OwnedCodec,
{
    // Takes in the certificates that are on the disk, to send them again.
    pub(crate) fn recall(&mut self, alloc: Global) -> Result<(), StartFault>
        ensures recalls { OnOk result (Recalls
            (⟦<S as NodeConfigs<D>>⟧.of self.old.voter.node) (HasCertificate
            (certificate_format S.Certificate.format D.format) self.old.voter.journal.contents)
            self.old self.new) }
        ensures knows { OnOk result
            (StaysKnown self.old.voter.knowledge self.new.voter.knowledge) }
        ensures why { IfErr result (WhyNotStarted
            (certificate_format S.Certificate.format D.format) self.old.voter.journal.contents
            (certifies_itself (S.meaning self.old.voter.node.scheme))) }
        ensures node { self.new.voter.node ≡ self.old.voter.node }
        ensures journal { self.new.voter.journal ≡ self.old.voter.journal }
    {
        match self.recall_floor(alloc) {
            Ok(()) => match self.recall_others(alloc) {
                Ok(()) => Ok(()),
                Err(fault) => Err(fault),
            },
            Err(fault) => Err(fault),
        }
    }

    // The start of an epoch has no finalization.
    fn recall_floor(&mut self, alloc: Global) -> Result<(), StartFault>
        ensures recalls { OnOk result (Recalls
            (⟦<S as NodeConfigs<D>>⟧.of self.old.voter.node) (λ c. whole
            (versioned (certificate_format S.Certificate.format D.format))
            self.old.voter.journal.contents.finalization ≡ Ok c) self.old self.new) }
        ensures knows { OnOk result
            (StaysKnown self.old.voter.knowledge self.new.voter.knowledge) }
        ensures why { IfErr result (WhyNotStarted
            (certificate_format S.Certificate.format D.format) self.old.voter.journal.contents
            (certifies_itself (S.meaning self.old.voter.node.scheme))) }
        ensures node { self.new.voter.node ≡ self.old.voter.node }
        ensures journal { self.new.voter.journal ≡ self.old.voter.journal }
    {
        match self.floor_certificate(alloc) {
            Ok(Some(certificate)) => match self.recall_one(certificate) {
                Ok(()) => Ok(()),
                Err(fault) => Err(fault),
            },
            Ok(None) => Ok(()),
            Err(fault) => Err(fault),
        }
    }

    fn recall_others(&mut self, alloc: Global) -> Result<(), StartFault>
        ensures recalls { OnOk result (Recalls
            (⟦<S as NodeConfigs<D>>⟧.of self.old.voter.node) (AreBytesOf
            (certificate_format S.Certificate.format D.format)
            self.old.voter.journal.contents.certificates) self.old self.new) }
        ensures knows { OnOk result
            (StaysKnown self.old.voter.knowledge self.new.voter.knowledge) }
        ensures why { IfErr result (WhyNotStarted
            (certificate_format S.Certificate.format D.format) self.old.voter.journal.contents
            (certifies_itself (S.meaning self.old.voter.node.scheme))) }
        ensures node { self.new.voter.node ≡ self.old.voter.node }
        ensures journal { self.new.voter.journal ≡ self.old.voter.journal }
    {
        for i in 0..self.voter.journal().certificates().len() {
            match self.recall_at(alloc, i) {
                Ok(()) => {}
                Err(fault) => return Err(fault),
            }
        }
        Ok(())
    }

    fn recall_at(&mut self, alloc: Global, i: usize) -> Result<(), StartFault>
        requires { i < length self.old.voter.journal.contents.certificates }
        ensures recalls { OnOk result (Recalls
            (⟦<S as NodeConfigs<D>>⟧.of self.old.voter.node) (IsAtPlace
            (certificate_format S.Certificate.format D.format)
            self.old.voter.journal.contents.certificates i) self.old self.new) }
        ensures knows { OnOk result
            (StaysKnown self.old.voter.knowledge self.new.voter.knowledge) }
        ensures why { IfErr result (WhyNotStarted
            (certificate_format S.Certificate.format D.format) self.old.voter.journal.contents
            (certifies_itself (S.meaning self.old.voter.node.scheme))) }
        ensures node { self.new.voter.node ≡ self.old.voter.node }
        ensures journal { self.new.voter.journal ≡ self.old.voter.journal }
    {
        match self.kept_certificate(alloc, i) {
            Ok(certificate) => match self.recall_one(certificate) {
                Ok(()) => Ok(()),
                Err(fault) => Err(fault),
            },
            Err(fault) => Err(fault),
        }
    }

    // The voter has verified it.
    fn recall_one(&mut self, certificate: Certificate<S::Certificate, D>) -> Result<(), StartFault>
        requires { HasOnDisk (certificate_format S.Certificate.format D.format)
            self.old.voter.journal.contents certificate }
        ensures took { OnOk result (RunTakes (⟦<S as NodeConfigs<D>>⟧.of self.old.voter.node)
            certificate self.old self.new) }
        ensures knows { OnOk result
            (StaysKnown self.old.voter.knowledge self.new.voter.knowledge) }
        ensures why { IfErr result (WhyNotLearned
            (certifies_itself (S.meaning self.old.voter.node.scheme))
            (round_in (subject_certified certificate)) certificate) }
        ensures node { self.new.voter.node ≡ self.old.voter.node }
        ensures journal { self.new.voter.journal ≡ self.old.voter.journal }
    {
        if !self.verifies(&certificate) {
            drop(certificate);
            return Err(StartFault::Forged);
        }
        match self.make_room() {
            Ok(()) => match self.recall_with_room(certificate) {
                Ok(()) => Ok(()),
                Err(fault) => Err(fault),
            },
            Err(_) => {
                drop(certificate);
                Err(StartFault::OutOfMemory)
            }
        }
    }

    // The same of one that certifies, for which there is room.
    fn recall_with_room(
        &mut self,
        certificate: Certificate<S::Certificate, D>,
    ) -> Result<(), StartFault>
        requires room { 1 ≤ self.old.shelf.room }
        requires stirred { self.old.given.calm ≡ false }
        requires certifies { certifies_itself (S.meaning self.old.voter.node.scheme) certificate
            ≡ true }
        requires there { HasOnDisk (certificate_format S.Certificate.format D.format)
            self.old.voter.journal.contents certificate }
        ensures took { OnOk result (RunTakes (⟦<S as NodeConfigs<D>>⟧.of self.old.voter.node)
            certificate self.old self.new) }
        ensures knows { OnOk result
            (StaysKnown self.old.voter.knowledge self.new.voter.knowledge) }
        ensures memory { IfErr result (λ fault. fault ≡ NoMemory) }
        ensures node { self.new.voter.node ≡ self.old.voter.node }
        ensures journal { self.new.voter.journal ≡ self.old.voter.journal }
    {
        match self.learn_again(&certificate) {
            Ok(()) => {
                self.shelve(certificate);
                Ok(())
            }
            Err(_) => {
                drop(certificate);
                Err(StartFault::OutOfMemory)
            }
        }
    }

    // The voter learns it again.
    fn learn_again(
        &mut self,
        certificate: &Certificate<S::Certificate, D>,
    ) -> Result<(), AllocError>
        requires certifies { certifies_itself (S.meaning self.old.voter.node.scheme)
            certificate.now ≡ true }
        requires there { HasOnDisk (certificate_format S.Certificate.format D.format)
            self.old.voter.journal.contents certificate.now }
        ensures learned { OnOk result (ForEachLife
            (⟦<S as NodeConfigs<D>>⟧.of self.old.voter.node) self.old.voter (λ past earlier.
            IsVoting (⟦<S as NodeConfigs<D>>⟧.of self.old.voter.node)
            (verified certificate.now ∷ past) earlier self.new.voter)) }
        ensures knows { OnOk result
            (StaysKnown self.old.voter.knowledge self.new.voter.knowledge) }
        ensures node { self.new.voter.node ≡ self.old.voter.node }
        ensures journal { self.new.voter.journal ≡ self.old.voter.journal }
        ensures given { self.new.given ≡ self.old.given }
        ensures shelf { self.new.shelf ≡ self.old.shelf }
    {
        self.voter.learn_again(certificate)
    }

    fn floor_certificate(
        &self,
        alloc: Global,
    ) -> Result<Option<Certificate<S::Certificate, D>>, StartFault>
        ensures some { IfOk result (λ it. IfSome it (λ c. whole
            (versioned (certificate_format S.Certificate.format D.format))
            self.now.voter.journal.contents.finalization ≡ Ok c)) }
        ensures none { result ≡ Ok None → (c : TheCertificate S.Certificate D) → whole
            (versioned (certificate_format S.Certificate.format D.format))
            self.now.voter.journal.contents.finalization ≡ Ok c → ⊥ }
        ensures there { IfOk result (λ it. IfSome it (HasOnDisk
            (certificate_format S.Certificate.format D.format) self.now.voter.journal.contents)) }
        ensures round { IfOk result (λ it. IfSome it (λ c.
            round_in (subject_certified c) ≡ self.now.voter.journal.contents.floor)) }
        ensures why { IfErr result (WhyNotStarted
            (certificate_format S.Certificate.format D.format) self.now.voter.journal.contents
            (certifies_itself (S.meaning self.now.voter.node.scheme))) }
    {
        let bytes = self.voter.journal().finalization();
        if bytes.is_empty() {
            return Ok(None);
        }
        match decoded_of(alloc, self.voter.journal().floor(), bytes) {
            Ok(certificate) => {
                // The voter has looked at its kind.
                if certificate.kind() != Kind::Finalization {
                    drop(certificate);
                    return Err(StartFault::Malformed);
                }
                Ok(Some(certificate))
            }
            Err(fault) => Err(fault),
        }
    }

    fn kept_certificate(
        &self,
        alloc: Global,
        i: usize,
    ) -> Result<Certificate<S::Certificate, D>, StartFault>
        requires { i < length self.now.voter.journal.contents.certificates }
        ensures at { IfOk result (IsAtPlace (certificate_format S.Certificate.format D.format)
            self.now.voter.journal.contents.certificates i) }
        ensures there { IfOk result (HasOnDisk
            (certificate_format S.Certificate.format D.format) self.now.voter.journal.contents) }
        ensures read { IfOk result (λ c. HoldsAt (λ kept. IsReadAs
            (certificate_format S.Certificate.format D.format) kept c)
            self.now.voter.journal.contents.certificates i) }
        ensures why { IfErr result (WhyNotStarted
            (certificate_format S.Certificate.format D.format) self.now.voter.journal.contents
            (certifies_itself (S.meaning self.now.voter.node.scheme))) }
    {
        let kept = &self.voter.journal().certificates()[i];
        match decoded_of(alloc, kept.round(), kept.certificate()) {
            Ok(certificate) => Ok(certificate),
            Err(fault) => Err(fault),
        }
    }
}

// The certificate of a round that bytes are.
fn decoded_of<C: OwnedCodec, D: Digest + Codec>(
    alloc: Global,
    round: Round,
    bytes: &[u8],
) -> Result<Certificate<C, D>, StartFault>
    ensures whole { IfOk result (λ c. whole (versioned (certificate_format C.format D.format))
        bytes.now ≡ Ok c) }
    ensures bytes { IfOk result (λ c. bytes.now
        ≡ (versioned (certificate_format C.format D.format)).encoding c) }
    ensures round { IfOk result (λ c. round_in (subject_certified c) ≡ round) }
    ensures why { IfErr result (WhyUnread (certificate_format C.format D.format)
        (round, bytes.now)) }
{
    match decode_owned::<Certificate<C, D>>(alloc, bytes) {
        Ok(certificate) => {
            // The voter has looked at its round.
            if certificate.round() != round {
                drop(certificate);
                return Err(StartFault::Malformed);
            }
            Ok(certificate)
        }
        Err(DecodeError::OutOfMemory) => Err(StartFault::OutOfMemory),
        Err(DecodeError::Fault(_)) => Err(StartFault::Malformed),
    }
}
