//! What is in a file: frames, up to a gate that is closed.

ghost use Rattle.std.specs.Prelude.{◌≡◌, ◌∷◌, ◌+◌, ◌<◌, ◌^◌, Err, IfOk, List, MatchBool, Ok, ℕ};
ghost use Rattle.batcher_file.specs.Frames.{AreContents, AreTwoFrames, IsFrame, IsReadTo, IsUnread};
ghost use Rattle.batcher_file.specs.Opened.{GateOpens};
ghost use Rattle.batcher_file.specs.declared.contents.Unreadable.TheVariants.{Damaged};

use crate::frame::{CLOSED, OPEN, frame_due, frame_in};
use std::alloc::{AllocError, Global};

// So many numbers are never reached.
const MOST_FRAMES: u64 = 1 << 63;

/// What is found in a file.
#[derive(Drop)]
pub struct Contents {
    /// The bytes of all frames, one after the other.
    pub bytes: Vec<u8>,
    /// The number of the first frame, and that of the one that is to follow.
    pub first: u64,
    pub next: u64,
    /// Where the closed gate is.
    pub end: usize,
}

/// Why nothing is found.
#[derive(Clone, Copy, Debug, PartialEq, Eq)]
pub enum Unreadable {
    OutOfMemory,
    /// What is at this byte was not written so.
    Damaged(usize),
}

impl From<AllocError> for Unreadable {
    ghost use Rattle.batcher_file.specs.declared.contents.Unreadable.TheVariants.{OutOfMemory};

    ghost from_gives = { λ _ e. e ≡ OutOfMemory };

    fn from(_: AllocError) -> Self {
        Unreadable::OutOfMemory
    }
}

/// What is at a gate.
pub enum Gate<'a> {
    /// A frame's bytes, and what follows it.
    Open(&'a [u8], &'a [u8]),
    Closed,
    Damaged,
}

// Whether two frames with the numbers that are due are here.
fn are_two_frames(bytes: &[u8], due: u64) -> bool
    requires { due + 1 < 2 ^ 64 }
    ensures { MatchBool result (AreTwoFrames due bytes.now) (AreTwoFrames due bytes.now → ⊥) }
{
    let behind = match frame_due(bytes, due) {
        Some((_, behind)) => behind,
        None => return false,
    };
    match behind {
        [] => false,
        [_, rest @ ..] => match frame_due(rest, due + 1) {
            Some(_) => true,
            None => false,
        },
    }
}

// What is at the gate that the bytes begin with, where this number is due.
fn gate_of(bytes: &[u8], due: u64) -> Gate<'_>
    requires { due + 1 < 2 ^ 64 }
    ensures { GateOpens due bytes.now result }
{
    match bytes {
        [OPEN, rest @ ..] => match frame_due(rest, due) {
            Some((inside, after)) => Gate::Open(inside, after),
            None => Gate::Damaged,
        },
        [CLOSED, rest @ ..] => {
            if are_two_frames(rest, due) {
                Gate::Damaged
            } else {
                Gate::Closed
            }
        }
        [] | [_, ..] => Gate::Damaged,
    }
}

// The number of the first frame, or any other where there is none.
fn first_number(file: &[u8]) -> u64
    ensures { (number : ℕ) (gate : ℕ) (inside after rest : List ℕ) → file.now ≡ gate ∷ rest
        → IsFrame number inside after rest → result ≡ number }
{
    match file {
        [_, rest @ ..] => match frame_in(rest) {
            Ok((number, _, _)) => number,
            Err(_) => 0,
        },
        [] => 0,
    }
}

/// What is in a file: frames that are numbered on, and a closed gate.
pub fn contents_of(alloc: Global, file: &[u8]) -> Result<Contents, Unreadable>
    ensures found { IfOk result (λ it.
        AreContents file.now it.first it.next it.end it.bytes.items) }
    ensures damaged { (at : ℕ) → result ≡ Err (Damaged at) → IsUnread file.now }
    ensures damage { (at : ℕ) → result ≡ Err (Damaged at) → IsReadTo file.now at }
{
    let first = first_number(file);
    let mut next = first;
    let mut bytes = Vec::new(alloc);
    let mut rest = file;
    while next < MOST_FRAMES {
        let end = file.len() - rest.len();
        match gate_of(rest, next) {
            Gate::Open(inside, after) => {
                bytes.extend_from_slice(inside)?;
                next += 1;
                rest = after;
            }
            Gate::Closed => {
                if next == first {
                    return Err(Unreadable::Damaged(end));
                }
                return Ok(Contents {
                    bytes,
                    first,
                    next,
                    end,
                });
            }
            Gate::Damaged => return Err(Unreadable::Damaged(end)),
        }
    }
    Err(Unreadable::Damaged(file.len() - rest.len()))
}
