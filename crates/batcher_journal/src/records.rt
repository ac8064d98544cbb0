//! Certificates that are kept beside the votes, and the bytes of both.

ghost use Rattle.std.specs.Prelude.{◌≡◌, ◌++◌, ◌∷◌, [], Err, IfOk, List, ℕ, OnErr, OnOk, map};
ghost use Rattle.batcher_bytes.specs.Format.{Decodes, StartsWith};
ghost use Rattle.batcher_bytes.specs.Messages.{vote_format};
ghost use Rattle.batcher_bytes.specs.declared.fault.DecodeError.TheVariants.{Fault};
ghost use Rattle.batcher_journal.specs.Records.{AreRecords, Certifies, HasRecords, Voted};
ghost use Rattle.batcher_journal.specs.Records.{certificates_of, certified_format, record_bytes};
ghost use Rattle.batcher_journal.specs.Records.{record_format, records_of, records_text, votes_of};
ghost use Rattle.batcher_journal.specs.Seen.{seen};

use batcher_bytes::{Codec, DecodeError, DecodeFault, decode_bytes, encode_bytes};
use batcher_types::messages::Vote;
use batcher_types::positions::Round;
use std::alloc::{AllocError, Global};
use std::marker::Model;

/// A round, and the bytes of a certificate of it.
#[derive(Drop)]
pub struct Certified {
    round: Round,
    bytes: Vec<u8>,
}

impl Model for Certified {
    ghost use Rattle.batcher_journal.specs.Records.{Certified};

    ghost Value = { Certified };

    ghost view = { λ it. (it.round, it.bytes.items) };
}

impl Certified {
    pub(crate) fn new(alloc: Global, round: Round, certificate: &[u8]) -> Result<Self, AllocError>
        ensures { IfOk result (λ it. it ≡ (round, certificate.now)) }
    {
        let mut bytes = Vec::new(alloc);
        bytes.extend_from_slice(certificate)?;
        Ok(Certified { round, bytes })
    }

    pub fn round(&self) -> Round
        ensures { result ≡ self.now.0 }
    {
        self.round
    }

    /// The bytes of the certificate.
    pub fn certificate(&self) -> &[u8]
        ensures { result.now ≡ self.now.1 }
    {
        &self.bytes
    }
}

/// Writes a round and the bytes of a certificate. An `Err` may leave some of it there.
#[tactic(auto, using(batcher_bytes::specs::Starting::starts))]
pub fn put_certified(round: Round, bytes: &[u8], out: &mut Vec<u8>) -> Result<(), AllocError>
    ensures ok { OnOk result
        (out.new.items ≡ out.old.items ++ certified_format.encoding (round, bytes.now)) }
    ensures value { OnOk result (certified_format.IsValue (round, bytes.now)) }
{
    round.encode(out)?;
    encode_bytes(bytes, out)
}

/// Reads a round and the bytes of a certificate, and lends the bytes after that.
pub fn certified_in(bytes: &[u8]) -> Result<(Round, &[u8], &[u8]), DecodeFault>
    ensures { Decodes (λ x. ((x.0, x.1.now), x.2.now)) result
        (certified_format.decoding bytes.now) }
{
    let (round, rest) = Round::decode(bytes)?;
    let (certificate, rest) = decode_bytes(rest)?;
    Ok((round, certificate, rest))
}

// Writes the record of a vote.
#[tactic(auto, using(batcher_bytes::specs::Starting::starts))]
fn put_vote<G: Codec, D: Codec>(vote: &Vote<G, D>, out: &mut Vec<u8>) -> Result<(), AllocError>
    ensures ok { OnOk result (out.new.items
        ≡ out.old.items ++ record_bytes (vote_format G.format D.format) (Voted vote.now)) }
    ensures value { OnOk result ((vote_format G.format D.format).IsValue vote.now) }
{
    out.push(0)?;
    vote.encode(out)
}

// Writes the record of a certificate.
fn put_certificate<G: Codec, D: Codec>(it: &Certified, out: &mut Vec<u8>) -> Result<(), AllocError>
    ensures ok { OnOk result (out.new.items
        ≡ out.old.items ++ record_bytes (vote_format G.format D.format) (Certifies it.now)) }
    ensures value { OnOk result (certified_format.IsValue it.now) }
{
    out.push(1)?;
    put_certified(it.round, &it.bytes, out)
}

// Writes votes. An `Err` may leave some of them there.
fn put_votes<G: Codec, D: Codec>(votes: &[Vote<G, D>], out: &mut Vec<u8>) -> Result<(), AllocError>
    ensures ok { OnOk result (out.new.items ≡ out.old.items
        ++ records_text (vote_format G.format D.format) (map Voted votes.now)) }
    ensures value { OnOk result
        (AreRecords (vote_format G.format D.format) (map Voted votes.now)) }
{
    for vote in votes {
        put_vote(vote, out)?;
    }
    Ok(())
}

// Writes certificates. An `Err` may leave some of them there.
fn put_certificates<G: Codec, D: Codec>(
    certificates: &[Certified],
    out: &mut Vec<u8>,
) -> Result<(), AllocError>
    ensures ok { OnOk result (out.new.items ≡ out.old.items
        ++ records_text (vote_format G.format D.format) (map Certifies certificates.now)) }
    ensures value { OnOk result
        (AreRecords (vote_format G.format D.format) (map Certifies certificates.now)) }
{
    for it in certificates {
        put_certificate::<G, D>(it, out)?;
    }
    Ok(())
}

/// Writes votes, and then certificates. An `Err` may leave some of them there.
pub fn put_records<G: Codec, D: Codec>(
    votes: &[Vote<G, D>],
    certificates: &[Certified],
    out: &mut Vec<u8>,
) -> Result<(), AllocError>
    ensures ok { OnOk result (out.new.items ≡ out.old.items
        ++ records_text (vote_format G.format D.format) (records_of votes.now certificates.now)) }
    ensures value { OnOk result
        (AreRecords (vote_format G.format D.format) (records_of votes.now certificates.now)) }
{
    put_votes(votes, out)?;
    put_certificates::<G, D>(certificates, out)
}

/// A record that was read.
#[derive(Drop)]
pub enum Record<'a, G, D> {
    Vote(Vote<G, D>),
    Certificate(Round, &'a [u8]),
}

// Reads the record at the front, and lends the bytes after it.
fn record_in<G: Codec, D: Codec>(bytes: &[u8]) -> Result<(Record<'_, G, D>, &[u8]), DecodeFault>
    ensures { Decodes (λ x. (seen x.0, x.1.now)) result
        ((record_format (vote_format G.format D.format)).decoding bytes.now) }
{
    match bytes {
        [] => Err(DecodeFault::Short),
        [0, rest @ ..] => {
            let (vote, rest) = Vote::<G, D>::decode(rest)?;
            Ok((Record::Vote(vote), rest))
        }
        [1, rest @ ..] => {
            let (round, certificate, rest) = certified_in(rest)?;
            Ok((Record::Certificate(round, certificate), rest))
        }
        [_, ..] => Err(DecodeFault::Kind),
    }
}

// Puts a record behind those of its kind.
fn add<G: Codec, D: Codec>(
    alloc: Global,
    read: &Record<G, D>,
    votes: &mut Vec<Vote<G, D>>,
    certificates: &mut Vec<Certified>,
) -> Result<(), AllocError>
    ensures { OnOk result
        ((votes.new.items ≡ votes.old.items ++ votes_of (seen read.now ∷ []))
        × (certificates.new.items
        ≡ certificates.old.items ++ certificates_of (seen read.now ∷ []))) }
{
    match read {
        Record::Vote(vote) => votes.push(*vote)?,
        Record::Certificate(round, certificate) => {
            certificates.push(Certified::new(alloc, *round, certificate)?)?
        }
    }
    Ok(())
}

/// Votes and certificates that were read.
pub struct Records<G, D> {
    pub votes: Vec<Vote<G, D>>,
    pub certificates: Vec<Certified>,
}

/// The records that the bytes are.
pub fn records_in<G: Codec, D: Codec>(
    alloc: Global,
    bytes: &[u8],
) -> Result<Records<G, D>, DecodeError>
    ensures found { IfOk result (λ it. HasRecords (vote_format G.format D.format) bytes.now
        it.votes.items it.certificates.items []) }
    ensures fault { (fault : _) → result ≡ Err (Fault fault) → (records : List _)
        → AreRecords (vote_format G.format D.format) records
        → bytes.now ≡ records_text (vote_format G.format D.format) records → ⊥ }
{
    let mut votes = Vec::new(alloc);
    let mut certificates = Vec::new(alloc);
    let mut rest = bytes;
    while !rest.is_empty() {
        match record_in::<G, D>(rest) {
            Ok((record, after)) => {
                add(alloc, &record, &mut votes, &mut certificates)?;
                rest = after;
            }
            Err(fault) => return Err(DecodeError::Fault(fault)),
        }
    }
    Ok(Records {
        votes,
        certificates,
    })
}
