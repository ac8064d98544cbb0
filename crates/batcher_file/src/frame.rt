//! A frame: a number and how many bytes there are, with their checksum, and the bytes with theirs.

ghost use Rattle.std.specs.Prelude.{◌≡◌, ◌<◌, ◌≤◌, ◌+◌, ◌++◌, ◌∷◌, [], IfOk, IfSome, List, None};
ghost use Rattle.std.specs.Prelude.{OnErr, OnOk, length, ℕ};
ghost use Rattle.std.specs.List.{fold};
ghost use Rattle.std.specs.Int.{w64};
ghost use Rattle.std.specs.Vec.{vec_capacity, vec_len};
ghost use Rattle.batcher_bytes.specs.Format.{Decodes, StartsWith, number_bytes};
ghost use Rattle.batcher_file.specs.Checksums.{checksum, summed};
ghost use Rattle.batcher_file.specs.Frames.{IsFrame, closed_gate, frame, frame_format, header};

use batcher_bytes::{Codec, DecodeFault};
use std::alloc::AllocError;

/// Before a frame.
pub const OPEN: u8 = 0xff;

/// Where no frame follows, or none that is whole yet.
pub const CLOSED: u8 = 0;

/// At the front of a file that isn't in use: four bits from an open gate.
pub const UNUSED: u8 = 0x0f;

const START: u64 = 14695981039346656037;

const PRIME: u64 = 1099511628211;

// A checksum goes on over more bytes.
fn sum_on(sum: u64, bytes: &[u8]) -> u64
    ensures { result ≡ fold summed sum bytes.now }
{
    let mut sum = sum;
    for byte in bytes {
        sum = (sum ^ (*byte as u64)).wrapping_mul(PRIME);
    }
    sum
}

fn header_sum(number: u64, count: u64) -> u64
    ensures { result ≡ checksum (header number count) }
{
    sum_on(sum_on(START, &number.to_be_bytes()), &count.to_be_bytes())
}

// Puts a number behind what is there, for which there is room.
#[tactic(auto, unfolding(batcher_bytes::specs::Format::number_bytes))]
fn put_number(out: &mut Vec<u8>, number: u64)
    requires { vec_len out.old + 8 ≤ vec_capacity out.old }
    ensures items { out.new.items ≡ out.old.items ++ number_bytes w64 number }
    ensures len { vec_len out.new ≡ vec_len out.old + 8 }
    ensures room { vec_capacity out.old ≤ vec_capacity out.new }
{
    out.extend_from_slice(&number.to_be_bytes()).unwrap();
}

/// Puts a frame and a closed gate behind it in the place of what is there.
pub fn put_frame(out: &mut Vec<u8>, number: u64, bytes: &[u8]) -> Result<(), AllocError>
    ensures put { OnOk result (out.new.items ≡ frame number bytes.now ++ closed_gate ∷ []) }
    ensures needed { OnErr result (vec_capacity out.old < length bytes.now + 33) }
{
    out.clear();
    // What a frame has beside its bytes, and the gate.
    out.reserve(bytes.len() + 33)?;
    let count = bytes.len() as u64;
    put_number(out, number);
    put_number(out, count);
    put_number(out, header_sum(number, count));
    out.extend_from_slice(bytes).unwrap();
    put_number(out, sum_on(START, bytes));
    out.push_reserved(CLOSED);
    Ok(())
}

/// The frame at the front: its number, its bytes, and what follows it.
pub fn frame_in(bytes: &[u8]) -> Result<(u64, &[u8], &[u8]), DecodeFault>
    ensures { Decodes (λ x. ((x.0, x.1.now), x.2.now)) result (frame_format.decoding bytes.now) }
{
    let (number, rest) = u64::decode(bytes)?;
    let (count, rest) = u64::decode(rest)?;
    let (sum, rest) = u64::decode(rest)?;
    if sum != header_sum(number, count) {
        return Err(DecodeFault::Malformed);
    }
    if (rest.len() as u64) < count {
        return Err(DecodeFault::Short);
    }
    let (inside, rest) = rest.split_at(count as usize);
    let (sum, rest) = u64::decode(rest)?;
    if sum != sum_on(START, inside) {
        return Err(DecodeFault::Malformed);
    }
    Ok((number, inside, rest))
}

/// What is inside the frame at the front, and what follows it, if it has the number that is due.
pub fn frame_due(bytes: &[u8], due: u64) -> Option<(&[u8], &[u8])>
    ensures some { IfSome result (λ x. IsFrame due x.0.now x.1.now bytes.now) }
    ensures none { result ≡ None → (inside after : List ℕ)
        → IsFrame due inside after bytes.now → ⊥ }
{
    match frame_in(bytes) {
        Ok((number, inside, after)) => {
            if number == due {
                Some((inside, after))
            } else {
                None
            }
        }
        Err(_) => None,
    }
}
