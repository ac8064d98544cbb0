//! What is learned of certificates, and how they are kept for the disk.

ghost use Rattle.std.specs.Prelude.{◌≡◌, ◌≢◌, ◌<◌, ◌≤◌, Err, IfOk, MatchBool, None, Ok, OnErr};
ghost use Rattle.std.specs.Prelude.{OnOk, Some, is_some, true, false};
ghost use Rattle.batcher.specs.Votes.{round_in, subject_certified};
ghost use Rattle.batcher.specs.Verifiers.{certifies_itself};
ghost use Rattle.batcher.specs.messages.Subject.{Subject as TheSubject};
ghost use Rattle.batcher_bytes.specs.Format.{whole};
ghost use Rattle.batcher_bytes.specs.Messages.{certificate_format, versioned};
ghost use Rattle.batcher_journal.specs.Ready.{Keeps};
ghost use Rattle.batcher_voter.specs.Keeping.{IsKeptAmong, IsKnownAlready, IsSafelyKept, kept_for};
ghost use Rattle.batcher_voter.specs.Keeping.{WaitsFor};
ghost use Rattle.batcher_voter.specs.Unstarted.{IsVouched};
ghost use Rattle.batcher_voter.specs.Knowledge.{HasRoom, SameKnowledge, Learns};
ghost use Rattle.batcher_voter.specs.Voting.{VoterStays, SameOnDisk};

use crate::voter::Voter;
use batcher::messages::{Certificate, Digest, Identical, Subject};
use batcher::positions::Round;
use batcher::scheme::Scheme;
use batcher_bytes::{Codec, Log, OwnedCodec, encode_owned};
use batcher_node::NodeConfigs;
use std::alloc::{AllocError, Global};

impl<S: Scheme<D>, D: Digest + Codec, L: Log> Voter<S, D, L>
where
    S::Signature: Codec + Identical,
    S::Certificate: OwnedCodec,
{
    // Learns a certificate that the node made, of a view for which there is room. Where there is no
    // memory to keep it, it waits for that.
    pub(crate) fn learn(&mut self, certificate: &Certificate<S::Certificate, D>)
        requires certifies { certifies_itself (S.meaning self.old.node.scheme) certificate.now
            ≡ true }
        requires room { HasRoom self.old.knowledge
            (round_in (subject_certified certificate.now)).view.0 }
        requires epoch { (round_in (subject_certified certificate.now)).epoch
            ≡ self.old.knowledge.epoch }
        requires none { self.old.waits ≡ None }
        ensures learns { Learns (subject_certified certificate.now) self.old.knowledge
            self.new.knowledge }
        ensures frame { SameOnDisk self.old self.new }
    {
        match self.learn_if_kept(certificate) {
            Ok(()) => {}
            Err(_) => self.note_waiting(certificate.subject()),
        }
    }

    // Keeps a certificate for the disk, and learns it: of a view for which there is room.
    pub(crate) fn learn_if_kept(
        &mut self,
        certificate: &Certificate<S::Certificate, D>,
    ) -> Result<(), AllocError>
        requires certifies { certifies_itself (S.meaning self.old.node.scheme) certificate.now
            ≡ true }
        requires room { HasRoom self.old.knowledge
            (round_in (subject_certified certificate.now)).view.0 }
        requires epoch { (round_in (subject_certified certificate.now)).epoch
            ≡ self.old.knowledge.epoch }
        ensures learns { OnOk result (Learns (subject_certified certificate.now)
            self.old.knowledge self.new.knowledge) }
        ensures needed { OnErr result
            (IsKnownAlready self.old.knowledge (subject_certified certificate.now) → ⊥) }
        ensures err { OnErr result (self.new ≡ self.old) }
        ensures frame { SameOnDisk self.old self.new }
    {
        if self.has(certificate) {
            self.note_known(certificate.subject());
            return Ok(());
        }
        match self.keep(certificate) {
            Ok(()) => {
                self.note(certificate.subject());
                Ok(())
            }
            Err(fault) => Err(fault),
        }
    }

    // Whether it is known, or of what is final, one of its view.
    pub(crate) fn has(&self, certificate: &Certificate<S::Certificate, D>) -> bool
        ensures { MatchBool result
            (IsKnownAlready self.now.knowledge (subject_certified certificate.now))
            (IsKnownAlready self.now.knowledge (subject_certified certificate.now) → ⊥) }
    {
        self.knowledge.has(&certificate.subject())
    }

    // Keeps a certificate for the disk, which certifies.
    pub(crate) fn keep(
        &mut self,
        certificate: &Certificate<S::Certificate, D>,
    ) -> Result<(), AllocError>
        requires { certifies_itself (S.meaning self.old.node.scheme) certificate.now ≡ true }
        ensures kept { OnOk result (Keeps self.old.journal self.new.journal (
          round_in (subject_certified certificate.now),
          (versioned (certificate_format S.Certificate.format D.format)).encoding
              certificate.now,
        )) }
        ensures err { OnErr result (self.new ≡ self.old) }
        ensures node { self.new.node ≡ self.old.node }
        ensures knowledge { self.new.knowledge ≡ self.old.knowledge }
        ensures waits { self.new.waits ≡ self.old.waits }
    {
        match encoded(self.alloc, certificate) {
            Ok(bytes) => self.keep_bytes(certificate.round(), &bytes),
            Err(fault) => Err(fault),
        }
    }

    fn keep_bytes(&mut self, round: Round, bytes: &[u8]) -> Result<(), AllocError>
        requires { IsVouched (certificate_format S.Certificate.format D.format)
            (certifies_itself (S.meaning self.old.node.scheme)) (round, bytes.now) }
        ensures kept { OnOk result
            (Keeps self.old.journal self.new.journal (round, bytes.now)) }
        ensures err { OnErr result (self.new ≡ self.old) }
        ensures node { self.new.node ≡ self.old.node }
        ensures knowledge { self.new.knowledge ≡ self.old.knowledge }
        ensures waits { self.new.waits ≡ self.old.waits }
    {
        self.journal.keep(round, bytes)
    }

    // A certificate of this is learned, which is kept, or waits for that.
    pub(crate) fn note(&mut self, subject: Subject<D>)
        requires room { HasRoom self.old.knowledge (round_in subject).view.0 }
        requires epoch { (round_in subject).epoch ≡ self.old.knowledge.epoch }
        requires kept { self.old.knowledge.floor ≤ (round_in subject).view.0
            → IsSafelyKept (certificate_format S.Certificate.format D.format)
            self.old.journal self.old.waits subject }
        ensures learns { Learns subject self.old.knowledge self.new.knowledge }
        ensures node { self.new.node ≡ self.old.node }
        ensures journal { self.new.journal ≡ self.old.journal }
        ensures waits { self.new.waits ≡ self.old.waits }
    {
        self.knowledge.learn(subject);
    }

    // The same of one that is known.
    pub(crate) fn note_known(&mut self, subject: Subject<D>)
        requires room { HasRoom self.old.knowledge (round_in subject).view.0 }
        requires epoch { (round_in subject).epoch ≡ self.old.knowledge.epoch }
        requires known { IsKnownAlready self.old.knowledge subject }
        ensures learns { Learns subject self.old.knowledge self.new.knowledge }
        ensures node { self.new.node ≡ self.old.node }
        ensures journal { self.new.journal ≡ self.old.journal }
        ensures waits { self.new.waits ≡ self.old.waits }
    {
        self.keeps_what_it_knows();
        self.note(subject);
    }

    // The same of one that there was no memory to keep.
    fn note_waiting(&mut self, subject: Subject<D>)
        requires room { HasRoom self.old.knowledge (round_in subject).view.0 }
        requires epoch { (round_in subject).epoch ≡ self.old.knowledge.epoch }
        requires none { self.old.waits ≡ None }
        ensures learns { Learns subject self.old.knowledge self.new.knowledge }
        ensures node { self.new.node ≡ self.old.node }
        ensures journal { self.new.journal ≡ self.old.journal }
    {
        self.waits = Some(subject);
        self.knowledge.learn(subject);
    }

    // Keeps the certificate that waits for memory, if this is it. Where there is none, or another,
    // or one that doesn't certify, nothing changes.
    fn keep_again(&mut self, certificate: &Certificate<S::Certificate, D>) -> Result<(), AllocError>
        ensures kept { OnOk result (self.old.waits ≡ Some (subject_certified certificate.now)
            → self.new.waits ≡ None) }
        ensures none { self.old.waits ≡ None → self.new.waits ≡ None }
        ensures knowledge { self.new.knowledge ≡ self.old.knowledge }
        ensures frame { SameOnDisk self.old self.new }
    {
        if !self.is_waiting(&certificate.subject()) {
            return Ok(());
        }
        // The one that waits was verified. Another of its subject may be handed in.
        if !self.verifies(certificate) {
            return Err(AllocError);
        }
        match self.keep(certificate) {
            Ok(()) => {
                self.note_kept();
                Ok(())
            }
            Err(fault) => Err(fault),
        }
    }

    // Whether the certificate of this waits.
    fn is_waiting(&self, subject: &Subject<D>) -> bool
        ensures { MatchBool result (self.now.waits ≡ Some subject.now)
            (self.now.waits ≢ Some subject.now) }
    {
        match &self.waits {
            Some(waiting) => is_subject(waiting, subject),
            None => false,
        }
    }

    // What waited is kept.
    fn note_kept(&mut self)
        requires { self.old.journal.is_open ≡ true → (t : TheSubject D)
            → WaitsFor self.old.waits t → IsKeptAmong
            (certificate_format S.Certificate.format D.format) (kept_for self.old.journal t) t }
        ensures waits { self.new.waits ≡ None }
        ensures node { self.new.node ≡ self.old.node }
        ensures journal { self.new.journal ≡ self.old.journal }
        ensures knowledge { self.new.knowledge ≡ self.old.knowledge }
    {
        self.waits = None;
    }

    // Makes room for what may be learned of a view, where no certificate waits to be kept any more.
    pub(crate) fn make_ready(
        &mut self,
        view: u64,
        waiting: Option<&Certificate<S::Certificate, D>>,
    ) -> Result<(), AllocError>
        ensures room { OnOk result (HasRoom self.new.knowledge view) }
        ensures none { OnOk result (self.new.waits ≡ None) }
        ensures needed { OnErr result (HasRoom self.old.knowledge view → self.old.waits ≡ None
            → ⊥) }
        ensures stays { VoterStays (⟦<S as NodeConfigs<D>>⟧.of self.old.node) self.old self.new }
        ensures knowledge { SameKnowledge self.old.knowledge self.new.knowledge }
        ensures frame { SameOnDisk self.old self.new }
    {
        self.keep_given(waiting);
        if self.has_waiting() {
            return Err(AllocError);
        }
        match self.make_room(view) {
            Ok(()) => Ok(()),
            Err(fault) => Err(fault),
        }
    }

    // Keeps the certificate that waits for memory, if it is given, and as far as there is memory.
    pub(crate) fn keep_given(&mut self, waiting: Option<&Certificate<S::Certificate, D>>)
        ensures none { self.old.waits ≡ None → self.new.waits ≡ None }
        ensures knowledge { self.new.knowledge ≡ self.old.knowledge }
        ensures frame { SameOnDisk self.old self.new }
    {
        match waiting {
            Some(certificate) => match self.keep_again(certificate) {
                Ok(()) => {}
                Err(_) => {}
            },
            None => {}
        }
    }

    // Whether a certificate waits to be kept.
    pub(crate) fn has_waiting(&self) -> bool
        ensures { result ≡ is_some self.now.waits }
    {
        self.waits.is_some()
    }

    // Makes room for what may be learned of a view.
    pub(crate) fn make_room(&mut self, view: u64) -> Result<(), AllocError>
        ensures room { OnOk result (HasRoom self.new.knowledge view) }
        ensures needed { OnErr result (HasRoom self.old.knowledge view → ⊥) }
        ensures stays { VoterStays (⟦<S as NodeConfigs<D>>⟧.of self.old.node) self.old self.new }
        ensures knowledge { SameKnowledge self.old.knowledge self.new.knowledge }
        ensures node { self.new.node ≡ self.old.node }
        ensures journal { self.new.journal ≡ self.old.journal }
        ensures waits { self.new.waits ≡ self.old.waits }
    {
        match self.take_room(view) {
            Ok(()) => Ok(()),
            Err(fault) => Err(fault),
        }
    }

    fn take_room(&mut self, view: u64) -> Result<(), AllocError>
        ensures room { OnOk result (HasRoom self.new.knowledge view) }
        ensures needed { OnErr result (HasRoom self.old.knowledge view → ⊥) }
        ensures knowledge { SameKnowledge self.old.knowledge self.new.knowledge }
        ensures node { self.new.node ≡ self.old.node }
        ensures journal { self.new.journal ≡ self.old.journal }
        ensures waits { self.new.waits ≡ self.old.waits }
    {
        self.knowledge.make_room(view)
    }
}

// The bytes of a certificate, which are read as it.
pub(crate) fn encoded<C: OwnedCodec, D: Digest + Codec>(
    alloc: Global,
    certificate: &Certificate<C, D>,
) -> Result<Vec<u8>, AllocError>
    ensures bytes { IfOk result (λ it. it.items
        ≡ (versioned (certificate_format C.format D.format)).encoding certificate.now) }
    ensures read { IfOk result (λ it. whole (versioned (certificate_format C.format D.format))
        it.items ≡ Ok certificate.now) }
{
    let mut bytes = Vec::new(alloc);
    match encode_owned(certificate, &mut bytes) {
        Ok(()) => Ok(bytes),
        Err(fault) => Err(fault),
    }
}

// Whether the two are one.
fn is_subject<D: Digest>(a: &Subject<D>, b: &Subject<D>) -> bool
    ensures { MatchBool result (a.now ≡ b.now) (a.now ≢ b.now) }
{
    a.is_same(b)
}
