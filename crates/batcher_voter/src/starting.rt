//! A voter is made from its journal.

ghost use Rattle.std.specs.Prelude.{◌≡◌, ◌≢◌, ◌≤◌, ◌<◌, ◌⊎◌, ◌∷◌, [], All, HoldsAt, IfErr, IfOk};
ghost use Rattle.std.specs.Prelude.{Bool, MatchBool, Ok, OnOk, length, true};
ghost use Rattle.batcher.specs.Verifiers.{certifies_itself};
ghost use Rattle.batcher.specs.Votes.{kind_certified, round_in, subject_certified};
ghost use Rattle.batcher.specs.messages.Certificate.{Certificate as TheCertificate};
ghost use Rattle.batcher.specs.messages.Kind.TheVariants.{Finalization};
ghost use Rattle.batcher_voter.specs.Knowledge.{HasLearned, HasRoom, IsHighest, Learns};
ghost use Rattle.batcher_bytes.specs.Format.{whole};
ghost use Rattle.batcher_bytes.specs.Messages.{certificate_format, versioned};
ghost use Rattle.batcher_voter.specs.Keeping.{HasOnDisk};
ghost use Rattle.batcher_types.specs.declared.positions.Round.{Round as TheRound};
ghost use Rattle.batcher_voter.specs.Unstarted.{AreReadable, WhyNotLearned, WhyNotStarted, all_in};
ghost use Rattle.batcher_voter.specs.Unstarted.{WhyUnread};
ghost use Rattle.batcher_journal.specs.Text.{Contents};
ghost use Rattle.batcher_voter.specs.declared.answers.StartFault.{StartFault as TheFault};
ghost use Rattle.batcher_voter.specs.declared.answers.StartFault.TheVariants.{OutOfMemory as NoMemory};
ghost use Rattle.batcher_voter.specs.Reopening.{IsFinalView, IsKindKnown, IsTakenIn, StaysKnown};
ghost use Rattle.batcher_agreement.specs.Policy.{Conduct, KeepsPolicy};
ghost use Rattle.batcher_node.specs.Events.{started};
ghost use Rattle.batcher_node.specs.Represents.{NodeRepresents};
ghost use Rattle.batcher_voter.specs.Remembering.{Remembers};
ghost use Rattle.batcher_voter.specs.Voting.{HasStarted, IsMadeOf};

use crate::answers::StartFault;
use crate::knowledge::Knowledge;
use crate::reading::read;
use crate::voter::Voter;
use batcher::messages::{Certificate, Digest, Identical, Kind};
use batcher::positions::Round;
use batcher::scheme::Scheme;
use batcher_bytes::{Codec, DecodeError, Log, OwnedCodec, decode_owned};
use batcher_journal::Journal;
use batcher_node::{Node, NodeConfigs};
use std::alloc::Global;
use std::rc::Rc;

/// Why a voter isn't made, with the journal that it isn't made from.
#[derive(Drop)]
pub struct NotStarted<G: Codec, D: Digest + Codec, L: Log> {
    pub fault: StartFault,
    pub journal: Journal<G, D, L>,
}

impl<S: Scheme<D>, D: Digest + Codec, L: Log> Voter<S, D, L>
where
    S::Signature: Codec + Identical,
    S::Certificate: OwnedCodec,
{
    /// The voter whose votes are in a journal. Its view is that of the journal's floor, of which it
    /// knows the finalization, and it knows the certificates that were written with votes. All that
    /// the journal has are verified again.
    pub fn start(
        alloc: Global,
        scheme: Rc<S>,
        ahead: u64,
        track_historical_votes: bool,
        journal: Journal<S::Signature, D, L>,
    ) -> Result<Self, NotStarted<S::Signature, D, L>>
        requires { 1 ≤ length (S.meaning scheme.value).participants }
        ensures voting { IfOk result (λ voter. (earlier : Conduct D) → KeepsPolicy earlier
            → Remembers earlier journal.contents
            → HasStarted (⟦<S as NodeConfigs<D>>⟧.of voter.node) earlier voter) }
        ensures knows_floor { IfOk result (λ voter. (journal.contents.floor.view.0 ≡ 0)
            ⊎ IsFinalView voter.knowledge journal.contents.floor.view.0) }
        ensures knows_kept { IfOk result (λ voter. All (IsTakenIn
            (certificate_format S.Certificate.format D.format) voter.node.epoch voter.knowledge)
            journal.contents.certificates) }
        ensures made { IfOk result
            (IsMadeOf scheme.value ahead track_historical_votes journal) }
        ensures refused { IfErr result (λ it. it.journal ≡ journal) }
        // Also what isn't written yet has to be readable, since its next write puts that there.
        ensures why { IfErr result (λ it. WhyNotStarted
            (certificate_format S.Certificate.format D.format) (all_in journal)
            (certifies_itself (S.meaning scheme.value)) it.fault) }
    {
        let mut voter = match Voter::begin(alloc, scheme, ahead, track_historical_votes, journal) {
            Ok(voter) => voter,
            Err(it) => return Err(it),
        };
        match voter.learn_all() {
            Ok(()) => Ok(voter),
            Err(fault) => {
                let journal = voter.into_journal();
                Err(NotStarted { fault, journal })
            }
        }
    }

    // A node and a journal that is readable, put together.
    fn begin(
        alloc: Global,
        scheme: Rc<S>,
        ahead: u64,
        track_historical_votes: bool,
        journal: Journal<S::Signature, D, L>,
    ) -> Result<Self, NotStarted<S::Signature, D, L>>
        requires { 1 ≤ length (S.meaning scheme.value).participants }
        ensures represents { IfOk result (λ voter. NodeRepresents
            (⟦<S as NodeConfigs<D>>⟧.of voter.node) (started voter.node.window ∷ []) voter.node) }
        ensures nothing { IfOk result (λ voter. HasLearned voter.knowledge []) }
        ensures highest { IfOk result (λ voter. IsHighest voter.knowledge []) }
        ensures made { IfOk result
            (IsMadeOf scheme.value ahead track_historical_votes journal) }
        ensures readable { IfOk result (λ voter. AreReadable
            (certificate_format S.Certificate.format D.format) journal.contents
            (certifies_itself (S.meaning scheme.value))) }
        ensures refused { IfErr result (λ it. it.journal ≡ journal) }
        ensures why { IfErr result (λ it. WhyNotStarted
            (certificate_format S.Certificate.format D.format) (all_in journal)
            (certifies_itself (S.meaning scheme.value)) it.fault) }
    {
        let floor = journal.floor();
        let made = Node::new(
            alloc,
            floor.epoch,
            scheme,
            floor.view,
            ahead,
            track_historical_votes,
        );
        match made {
            Ok(node) => match read(alloc, &node, &journal) {
                Ok(()) => Ok(Voter {
                    alloc,
                    node,
                    journal,
                    knowledge: Knowledge::new(alloc, floor.epoch, floor.view.0),
                    waits: None,
                }),
                Err(fault) => {
                    drop(node);
                    Err(NotStarted { fault, journal })
                }
            },
            Err(_) => Err(NotStarted {
                fault: StartFault::OutOfMemory,
                journal,
            }),
        }
    }

    /// The journal of its votes.
    pub fn into_journal(self) -> Journal<S::Signature, D, L>
        ensures { result ≡ self.journal }
    {
        let Voter { node, journal, .. } = self;
        drop(node);
        journal
    }

    // Learns what the journal has.
    fn learn_all(&mut self) -> Result<(), StartFault>
        requires epoch { self.old.node.epoch ≡ self.old.journal.contents.floor.epoch }
        requires readable { AreReadable (certificate_format S.Certificate.format D.format)
            self.old.journal.contents (certifies_itself (S.meaning self.old.node.scheme)) }
        ensures started { OnOk result ((earlier : Conduct D)
            → HasStarted (⟦<S as NodeConfigs<D>>⟧.of self.old.node) earlier self.old
            → HasStarted (⟦<S as NodeConfigs<D>>⟧.of self.old.node) earlier self.new) }
        ensures known { OnOk result ((self.old.journal.contents.floor.view.0 ≡ 0)
            ⊎ IsFinalView self.new.knowledge self.old.journal.contents.floor.view.0) }
        ensures kept { OnOk result (All (IsTakenIn
            (certificate_format S.Certificate.format D.format) self.old.node.epoch
            self.new.knowledge) self.old.journal.contents.certificates) }
        ensures why { IfErr result (WhyNotStarted
            (certificate_format S.Certificate.format D.format) self.old.journal.contents
            (certifies_itself (S.meaning self.old.node.scheme))) }
        ensures node { self.new.node ≡ self.old.node }
        ensures journal { self.new.journal ≡ self.old.journal }
    {
        match self.learn_floor() {
            Ok(()) => match self.learn_kept() {
                Ok(()) => Ok(()),
                Err(fault) => Err(fault),
            },
            Err(fault) => Err(fault),
        }
    }

    // Learns the floor's finalization. The start of an epoch has none.
    fn learn_floor(&mut self) -> Result<(), StartFault>
        requires epoch { self.old.node.epoch ≡ self.old.journal.contents.floor.epoch }
        requires readable { AreReadable (certificate_format S.Certificate.format D.format)
            self.old.journal.contents (certifies_itself (S.meaning self.old.node.scheme)) }
        ensures started { OnOk result ((earlier : Conduct D)
            → HasStarted (⟦<S as NodeConfigs<D>>⟧.of self.old.node) earlier self.old
            → HasStarted (⟦<S as NodeConfigs<D>>⟧.of self.old.node) earlier self.new) }
        ensures known { OnOk result ((self.old.journal.contents.floor.view.0 ≡ 0)
            ⊎ IsFinalView self.new.knowledge self.old.journal.contents.floor.view.0) }
        ensures why { IfErr result (WhyNotStarted
            (certificate_format S.Certificate.format D.format) self.old.journal.contents
            (certifies_itself (S.meaning self.old.node.scheme))) }
        ensures node { self.new.node ≡ self.old.node }
        ensures journal { self.new.journal ≡ self.old.journal }
    {
        if self.begins_with_epoch() {
            return Ok(());
        }
        match self.floor_certificate() {
            Ok((round, certificate)) => {
                if certificate.kind() != Kind::Finalization {
                    drop(certificate);
                    return Err(StartFault::Malformed);
                }
                match self.take_in(round, &certificate) {
                    Ok(()) => {
                        drop(certificate);
                        Ok(())
                    }
                    Err(fault) => {
                        drop(certificate);
                        Err(fault)
                    }
                }
            }
            Err(fault) => Err(fault),
        }
    }

    // Learns the certificates that were written with votes.
    fn learn_kept(&mut self) -> Result<(), StartFault>
        requires readable { AreReadable (certificate_format S.Certificate.format D.format)
            self.old.journal.contents (certifies_itself (S.meaning self.old.node.scheme)) }
        ensures started { OnOk result ((earlier : Conduct D)
            → HasStarted (⟦<S as NodeConfigs<D>>⟧.of self.old.node) earlier self.old
            → HasStarted (⟦<S as NodeConfigs<D>>⟧.of self.old.node) earlier self.new) }
        ensures kept { OnOk result (All (IsTakenIn
            (certificate_format S.Certificate.format D.format) self.old.node.epoch
            self.new.knowledge) self.old.journal.contents.certificates) }
        ensures stays { StaysKnown self.old.knowledge self.new.knowledge }
        ensures why { IfErr result (WhyNotStarted
            (certificate_format S.Certificate.format D.format) self.old.journal.contents
            (certifies_itself (S.meaning self.old.node.scheme))) }
        ensures node { self.new.node ≡ self.old.node }
        ensures journal { self.new.journal ≡ self.old.journal }
    {
        for i in 0..self.journal.certificates().len() {
            match self.learn_at(i) {
                Ok(()) => {}
                Err(fault) => return Err(fault),
            }
        }
        Ok(())
    }

    fn learn_at(&mut self, i: usize) -> Result<(), StartFault>
        requires within { i < length self.old.journal.contents.certificates }
        requires readable { AreReadable (certificate_format S.Certificate.format D.format)
            self.old.journal.contents (certifies_itself (S.meaning self.old.node.scheme)) }
        ensures started { OnOk result ((earlier : Conduct D)
            → HasStarted (⟦<S as NodeConfigs<D>>⟧.of self.old.node) earlier self.old
            → HasStarted (⟦<S as NodeConfigs<D>>⟧.of self.old.node) earlier self.new) }
        ensures kept { OnOk result (HoldsAt (IsTakenIn
            (certificate_format S.Certificate.format D.format) self.old.node.epoch
            self.new.knowledge) self.old.journal.contents.certificates i) }
        ensures stays { StaysKnown self.old.knowledge self.new.knowledge }
        ensures why { IfErr result (WhyNotStarted
            (certificate_format S.Certificate.format D.format) self.old.journal.contents
            (certifies_itself (S.meaning self.old.node.scheme))) }
        ensures node { self.new.node ≡ self.old.node }
        ensures journal { self.new.journal ≡ self.old.journal }
    {
        match self.kept_certificate(i) {
            Ok((round, certificate)) => match self.take_in(round, &certificate) {
                Ok(()) => {
                    drop(certificate);
                    Ok(())
                }
                Err(fault) => {
                    drop(certificate);
                    Err(fault)
                }
            },
            Err(fault) => Err(fault),
        }
    }

    // Whether the floor is the start of the epoch.
    fn begins_with_epoch(&self) -> bool
        ensures { MatchBool result (self.now.journal.contents.floor.view.0 ≡ 0)
            (self.now.journal.contents.finalization ≡ []
            → self.now.journal.contents.floor.view.0 ≢ 0) }
    {
        self.journal.floor().view.0 == 0 && self.journal.finalization().is_empty()
    }

    // The floor's finalization, where it isn't the start of the epoch.
    fn floor_certificate(&self) -> Result<(Round, Certificate<S::Certificate, D>), StartFault>
        requires { self.now.journal.contents.finalization ≡ []
            → self.now.journal.contents.floor.view.0 ≢ 0 }
        ensures round { IfOk result (λ it. it.0 ≡ self.now.journal.contents.floor) }
        ensures bytes { IfOk result (λ it. self.now.journal.contents.finalization
            ≡ (versioned (certificate_format S.Certificate.format D.format)).encoding it.1) }
        ensures decoded { IfOk result (λ it. whole
            (versioned (certificate_format S.Certificate.format D.format))
            self.now.journal.contents.finalization ≡ Ok it.1) }
        ensures why { IfErr result (WhyNotStarted
            (certificate_format S.Certificate.format D.format) self.now.journal.contents
            (certifies_itself (S.meaning self.now.node.scheme))) }
    {
        let bytes = self.journal.finalization();
        if bytes.is_empty() {
            return Err(StartFault::NotFinal);
        }
        match decoded(self.alloc, bytes) {
            Ok(certificate) => Ok((self.journal.floor(), certificate)),
            Err(fault) => Err(fault),
        }
    }

    fn kept_certificate(
        &self,
        i: usize,
    ) -> Result<(Round, Certificate<S::Certificate, D>), StartFault>
        requires { i < length self.now.journal.contents.certificates }
        ensures at { IfOk result (λ it. HoldsAt (λ kept. (kept.0 ≡ it.0) × (kept.1
            ≡ (versioned (certificate_format S.Certificate.format D.format)).encoding it.1))
            self.now.journal.contents.certificates i) }
        ensures decoded { IfOk result (λ it. HoldsAt (λ kept. whole
            (versioned (certificate_format S.Certificate.format D.format)) kept.1 ≡ Ok it.1)
            self.now.journal.contents.certificates i) }
        ensures why { IfErr result (WhyNotStarted
            (certificate_format S.Certificate.format D.format) self.now.journal.contents
            (certifies_itself (S.meaning self.now.node.scheme))) }
    {
        let kept = &self.journal.certificates()[i];
        match decoded(self.alloc, kept.certificate()) {
            Ok(certificate) => Ok((kept.round(), certificate)),
            Err(fault) => Err(fault),
        }
    }

    // Learns a certificate of a round, which certifies. One of another epoch is passed over.
    fn take_in(
        &mut self,
        round: Round,
        certificate: &Certificate<S::Certificate, D>,
    ) -> Result<(), StartFault>
        requires certifies { certifies_itself (S.meaning self.old.node.scheme) certificate.now
            ≡ true }
        requires there { round_in (subject_certified certificate.now) ≡ round
            → HasOnDisk (certificate_format S.Certificate.format D.format)
            self.old.journal.contents certificate.now }
        ensures started { OnOk result ((earlier : Conduct D)
            → HasStarted (⟦<S as NodeConfigs<D>>⟧.of self.old.node) earlier self.old
            → HasStarted (⟦<S as NodeConfigs<D>>⟧.of self.old.node) earlier self.new) }
        ensures known { OnOk result (kind_certified certificate.now ≡ Finalization
            → round.epoch ≡ self.old.node.epoch → IsFinalView self.new.knowledge round.view.0) }
        ensures of_round { OnOk result (round_in (subject_certified certificate.now) ≡ round) }
        ensures learned { OnOk result ((round.epoch ≢ self.old.node.epoch)
            ⊎ IsKindKnown self.new.knowledge (subject_certified certificate.now)) }
        ensures why { IfErr result (WhyNotLearned
            (certifies_itself (S.meaning self.old.node.scheme)) round certificate.now) }
        ensures stays { StaysKnown self.old.knowledge self.new.knowledge }
        ensures node { self.new.node ≡ self.old.node }
        ensures journal { self.new.journal ≡ self.old.journal }
    {
        self.begins();
        if certificate.round() != round {
            return Err(StartFault::Malformed);
        }
        if round.epoch.0 != self.epoch().0 {
            return Ok(());
        }
        match self.make_room(round.view.0) {
            Ok(()) => {
                self.take_in_with_room(certificate);
                Ok(())
            }
            Err(_) => Err(StartFault::OutOfMemory),
        }
    }

    fn take_in_with_room(&mut self, certificate: &Certificate<S::Certificate, D>)
        requires certifies { certifies_itself (S.meaning self.old.node.scheme) certificate.now
            ≡ true }
        requires epoch { (round_in (subject_certified certificate.now)).epoch
            ≡ self.old.node.epoch }
        requires room { HasRoom self.old.knowledge
            (round_in (subject_certified certificate.now)).view.0 }
        requires there { HasOnDisk (certificate_format S.Certificate.format D.format)
            self.old.journal.contents certificate.now }
        ensures started { (earlier : Conduct D)
            → HasStarted (⟦<S as NodeConfigs<D>>⟧.of self.old.node) earlier self.old
            → HasStarted (⟦<S as NodeConfigs<D>>⟧.of self.old.node) earlier self.new }
        ensures learns { Learns (subject_certified certificate.now) self.old.knowledge
            self.new.knowledge }
        ensures stays { StaysKnown self.old.knowledge self.new.knowledge }
        ensures node { self.new.node ≡ self.old.node }
        ensures journal { self.new.journal ≡ self.old.journal }
    {
        self.begins();
        self.note(certificate.subject());
    }
}

/// Does nothing. Where each certificate of a journal is read as one of its round that certifies, a
/// voter is refused for memory alone.
pub fn what_is_readable_starts<S: Scheme<D>, D: Digest + Codec>()
where
    S::Signature: Codec,
    S::Certificate: OwnedCodec,
    ensures { (contents : Contents S.Signature D)
        (certifies : TheCertificate S.Certificate D → Bool) (fault : TheFault)
        → AreReadable (certificate_format S.Certificate.format D.format) contents certifies
        → WhyNotStarted (certificate_format S.Certificate.format D.format) contents certifies
        fault → fault ≡ NoMemory }
{}

// The certificate that bytes are.
pub(crate) fn decoded<C: OwnedCodec, D: Digest + Codec>(
    alloc: Global,
    bytes: &[u8],
) -> Result<Certificate<C, D>, StartFault>
    ensures bytes { IfOk result (λ it. bytes.now
        ≡ (versioned (certificate_format C.format D.format)).encoding it) }
    ensures whole { IfOk result (λ it. whole (versioned (certificate_format C.format D.format))
        bytes.now ≡ Ok it) }
    ensures why { (at : TheRound) → IfErr result (WhyUnread
        (certificate_format C.format D.format) (at, bytes.now)) }
{
    match decode_owned(alloc, bytes) {
        Ok(certificate) => Ok(certificate),
        Err(DecodeError::OutOfMemory) => Err(StartFault::OutOfMemory),
        Err(DecodeError::Fault(_)) => Err(StartFault::Malformed),
    }
}
