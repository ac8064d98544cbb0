//! What a journal has is read and verified, before a voter is made from it.

ghost use Rattle.std.specs.Prelude.{◌≡◌, ◌<◌, ◌⊎◌, [], All, Contains, HoldsAt, IfErr, IfOk, OnOk};
ghost use Rattle.std.specs.Prelude.{◌≢◌, MatchBool, length, true};
ghost use Rattle.batcher.specs.messages.Kind.TheVariants.{Finalization};
ghost use Rattle.batcher.specs.Verifiers.{certifies_itself};
ghost use Rattle.batcher.specs.Votes.{kind_certified, round_in, subject_certified};
ghost use Rattle.batcher_bytes.specs.Messages.{certificate_format};
ghost use Rattle.batcher_journal.specs.Records.{Certified as TheCertified};
ghost use Rattle.batcher_journal.specs.Text.{Contents};
ghost use Rattle.batcher_voter.specs.Unstarted.{AreReadable, HasFinalization, IsVouched};
ghost use Rattle.batcher_voter.specs.Unstarted.{IsCertifiedAs, WhyNotLearned, WhyNotStarted};
ghost use Rattle.batcher_voter.specs.Unstarted.{WhyUncertified, all_in};

use crate::answers::StartFault;
use crate::starting::decoded;
use batcher::messages::{Certificate, Digest, Identical, Kind};
use batcher::positions::Round;
use batcher::scheme::Scheme;
use batcher_bytes::{Codec, Log, OwnedCodec};
use batcher_journal::{Certified, Journal};
use batcher_node::Node;
use std::alloc::Global;

/// Whether all that a journal has, written or not, is read as certificates of their rounds that
/// certify, and its floor's as a finalization.
pub(crate) fn read<S: Scheme<D>, D: Digest + Codec, L: Log>(
    alloc: Global,
    node: &Node<S, D>,
    journal: &Journal<S::Signature, D, L>,
) -> Result<(), StartFault>
where
    S::Signature: Codec + Identical,
    S::Certificate: OwnedCodec,
    ensures readable { OnOk result (AreReadable
        (certificate_format S.Certificate.format D.format) (all_in journal.now)
        (certifies_itself (S.meaning node.now.scheme))) }
    ensures why { IfErr result (WhyNotStarted
        (certificate_format S.Certificate.format D.format) (all_in journal.now)
        (certifies_itself (S.meaning node.now.scheme))) }
{
    match read_floor(alloc, node, journal) {
        Ok(()) => match read_each(alloc, node, journal.certificates()) {
            Ok(()) => match read_each(alloc, node, journal.unwritten()) {
                Ok(()) => Ok(()),
                Err(fault) => Err(fault),
            },
            Err(fault) => Err(fault),
        },
        Err(fault) => Err(fault),
    }
}

// The floor's finalization. The start of an epoch has none.
fn read_floor<S: Scheme<D>, D: Digest + Codec, L: Log>(
    alloc: Global,
    node: &Node<S, D>,
    journal: &Journal<S::Signature, D, L>,
) -> Result<(), StartFault>
where
    S::Signature: Codec + Identical,
    S::Certificate: OwnedCodec,
    ensures read { OnOk result (((journal.now.contents.finalization ≡ [])
        × (journal.now.contents.floor.view.0 ≡ 0)) ⊎ HasFinalization
        (certificate_format S.Certificate.format D.format) journal.now.contents
        (certifies_itself (S.meaning node.now.scheme))) }
    ensures why { IfErr result (WhyNotStarted
        (certificate_format S.Certificate.format D.format) (all_in journal.now)
        (certifies_itself (S.meaning node.now.scheme))) }
{
    let floor = journal.floor();
    let bytes = journal.finalization();
    if bytes.is_empty() {
        if floor.view.0 == 0 {
            return Ok(());
        }
        return Err(StartFault::NotFinal);
    }
    match certified_as(alloc, node, floor, bytes) {
        Ok(kind) => {
            if !is_final(kind) {
                return Err(StartFault::Malformed);
            }
            Ok(())
        }
        Err(fault) => Err(fault),
    }
}

fn is_final(kind: Kind) -> bool
    ensures { MatchBool result (kind ≡ Finalization) (kind ≢ Finalization) }
{
    kind == Kind::Finalization
}

// What is beside votes.
fn read_each<S: Scheme<D>, D: Digest + Codec>(
    alloc: Global,
    node: &Node<S, D>,
    list: &[Certified],
) -> Result<(), StartFault>
where
    S::Signature: Codec + Identical,
    S::Certificate: OwnedCodec,
    ensures read { OnOk result (All (IsVouched
        (certificate_format S.Certificate.format D.format)
        (certifies_itself (S.meaning node.now.scheme))) list.now) }
    ensures why { (contents : Contents S.Signature D)
        → ((kept : TheCertified) → Contains list.now kept → Contains contents.certificates kept)
        → IfErr result (WhyNotStarted (certificate_format S.Certificate.format D.format) contents
        (certifies_itself (S.meaning node.now.scheme))) }
{
    for i in 0..list.len() {
        match read_at(alloc, node, list, i) {
            Ok(()) => {}
            Err(fault) => return Err(fault),
        }
    }
    Ok(())
}

fn read_at<S: Scheme<D>, D: Digest + Codec>(
    alloc: Global,
    node: &Node<S, D>,
    list: &[Certified],
    i: usize,
) -> Result<(), StartFault>
where
    S::Signature: Codec + Identical,
    S::Certificate: OwnedCodec,
    requires { i < length list.now }
    ensures read { OnOk result (HoldsAt (IsVouched
        (certificate_format S.Certificate.format D.format)
        (certifies_itself (S.meaning node.now.scheme))) list.now i) }
    ensures why { IfErr result (λ fault. HoldsAt (λ kept. WhyUncertified
        (certificate_format S.Certificate.format D.format)
        (certifies_itself (S.meaning node.now.scheme)) kept fault) list.now i) }
{
    let it = &list[i];
    match certified_as(alloc, node, it.round(), it.certificate()) {
        Ok(_) => Ok(()),
        Err(fault) => Err(fault),
    }
}

// Of which kind the certificate of a round is that bytes are, if it certifies.
fn certified_as<S: Scheme<D>, D: Digest + Codec>(
    alloc: Global,
    node: &Node<S, D>,
    round: Round,
    bytes: &[u8],
) -> Result<Kind, StartFault>
where
    S::Signature: Codec + Identical,
    S::Certificate: OwnedCodec,
    ensures read { IfOk result (λ kind. IsCertifiedAs
        (certificate_format S.Certificate.format D.format)
        (certifies_itself (S.meaning node.now.scheme)) kind (round, bytes.now)) }
    ensures why { IfErr result (WhyUncertified (certificate_format S.Certificate.format D.format)
        (certifies_itself (S.meaning node.now.scheme)) (round, bytes.now)) }
{
    match decoded::<S::Certificate, D>(alloc, bytes) {
        Ok(certificate) => match kind_if_certified(node, round, &certificate) {
            Ok(kind) => {
                drop(certificate);
                Ok(kind)
            }
            Err(fault) => {
                drop(certificate);
                Err(fault)
            }
        },
        Err(fault) => Err(fault),
    }
}

// Its kind, if it is of the round and certifies.
fn kind_if_certified<S: Scheme<D>, D: Digest>(
    node: &Node<S, D>,
    round: Round,
    certificate: &Certificate<S::Certificate, D>,
) -> Result<Kind, StartFault>
    ensures kind { IfOk result (λ kind. kind ≡ kind_certified certificate.now) }
    ensures of_round { OnOk result (round_in (subject_certified certificate.now) ≡ round) }
    ensures certifies { OnOk result (certifies_itself (S.meaning node.now.scheme) certificate.now
        ≡ true) }
    ensures why { IfErr result (WhyNotLearned (certifies_itself (S.meaning node.now.scheme)) round
        certificate.now) }
{
    if certificate.round() != round {
        return Err(StartFault::Malformed);
    }
    if !node.verifies(certificate) {
        return Err(StartFault::Forged);
    }
    Ok(certificate.kind())
}
