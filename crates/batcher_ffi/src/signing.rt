//! The bytes to sign, which are written into the room that a caller hands in.

ghost use Rattle.std.specs.Prelude.{◌≡◌, ◌+◌, ◌≤◌, length};
ghost use Rattle.std.specs.Int.{w64};
ghost use Rattle.batcher_bytes.specs.Format.{number_bytes};
ghost use Rattle.batcher_bytes.specs.Messages.{proposal_format, round_format, sha256_format};
ghost use Rattle.batcher_bytes.specs.Messages.{signing_format, subject_format};
ghost use Rattle.batcher_ffi.specs.Output.{Puts, WritesAll};

use crate::codes::{DONE, SHORT};
use batcher_types::messages::{Proposal, Sha256Digest, Subject};
use batcher_types::positions::Round;

/// Writes the bytes to sign for a subject in a namespace, where they fit, and how many they are.
pub fn write_message(
    namespace: &[u8],
    subject: &Subject<Sha256Digest>,
    room: &mut [u8],
    count: &mut u64,
) -> u8
    ensures { WritesAll ((signing_format sha256_format).encoding (namespace.now, subject.now))
        room.old room.new count.new result }
{
    let length = message_len(namespace, subject);
    *count = length as u64;
    if room.len() < length {
        return SHORT;
    }
    put_message(namespace, subject, room);
    DONE
}

// How many bytes are signed.
fn message_len(namespace: &[u8], subject: &Subject<Sha256Digest>) -> usize
    ensures { result ≡ length ((signing_format sha256_format).encoding
        (namespace.now, subject.now)) }
{
    8 + namespace.len() + subject_len(subject)
}

fn subject_len(subject: &Subject<Sha256Digest>) -> usize
    ensures is { result ≡ length ((subject_format sha256_format).encoding subject.now) }
    ensures most { result ≤ 57 }
{
    match subject {
        Subject::Notarize { proposal } => 1 + proposal_len(proposal),
        Subject::Nullify { .. } => 17,
        Subject::Finalize { proposal } => 1 + proposal_len(proposal),
    }
}

fn proposal_len(proposal: &Proposal<Sha256Digest>) -> usize
    ensures is { result ≡ length ((proposal_format sha256_format).encoding proposal.now) }
    ensures most { result ≤ 56 }
{
    24 + digest_len(&proposal.payload.0)
}

fn digest_len(digest: &[u8; 32]) -> usize
    ensures is { result ≡ length digest.now }
    ensures most { result ≤ 32 }
{
    32
}

fn put_message(namespace: &[u8], subject: &Subject<Sha256Digest>, room: &mut [u8]) -> usize
    requires { length ((signing_format sha256_format).encoding (namespace.now, subject.now))
        ≤ length room.old }
    ensures { Puts ((signing_format sha256_format).encoding (namespace.now, subject.now))
        room.old 0 room.new result }
{
    let at = put_number(room, 0, namespace.len() as u64);
    let at = put(room, at, namespace);
    put_subject(room, at, subject)
}

// Each of these writes at a place, and answers the one behind.
fn put_subject(room: &mut [u8], at: usize, subject: &Subject<Sha256Digest>) -> usize
    requires { at + length ((subject_format sha256_format).encoding subject.now)
        ≤ length room.old }
    ensures { Puts ((subject_format sha256_format).encoding subject.now) room.old at room.new
        result }
{
    match subject {
        Subject::Notarize { proposal } => {
            let next = put(room, at, &[0]);
            put_proposal(room, next, proposal)
        }
        Subject::Nullify { round } => {
            let next = put(room, at, &[1]);
            put_round(room, next, round)
        }
        Subject::Finalize { proposal } => {
            let next = put(room, at, &[2]);
            put_proposal(room, next, proposal)
        }
    }
}

fn put_proposal(room: &mut [u8], at: usize, proposal: &Proposal<Sha256Digest>) -> usize
    requires { at + length ((proposal_format sha256_format).encoding proposal.now)
        ≤ length room.old }
    ensures { Puts ((proposal_format sha256_format).encoding proposal.now) room.old at room.new
        result }
{
    let next = put_round(room, at, &proposal.round);
    let last = put_number(room, next, proposal.parent.0);
    put(room, last, &proposal.payload.0)
}

fn put_round(room: &mut [u8], at: usize, round: &Round) -> usize
    requires { at + length (round_format.encoding round.now) ≤ length room.old }
    ensures { Puts (round_format.encoding round.now) room.old at room.new result }
{
    let next = put_number(room, at, round.epoch.0);
    put_number(room, next, round.view.0)
}

#[tactic(auto, unfolding(batcher_bytes::specs::Format::number_bytes))]
fn put_number(room: &mut [u8], at: usize, number: u64) -> usize
    requires { at + length (number_bytes w64 number) ≤ length room.old }
    ensures { Puts (number_bytes w64 number) room.old at room.new result }
{
    put(room, at, &number.to_be_bytes())
}

fn put(room: &mut [u8], at: usize, bytes: &[u8]) -> usize
    requires { at + length bytes.now ≤ length room.old }
    ensures { Puts bytes.now room.old at room.new result }
{
    let end = at + bytes.len();
    room[at..end].copy_from_slice(bytes);
    end
}
