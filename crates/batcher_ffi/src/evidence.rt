//! Whom two votes convict, by the caller's verdicts on both. It rests on no round.

ghost use Rattle.std.specs.Prelude.{◌≡◌, ◌==◌, ◌&&◌};
ghost use Rattle.batcher.specs.Reports.{subjects_contradict};
ghost use Rattle.batcher_bytes.specs.Keys.{same_digest};
ghost use Rattle.batcher_types.specs.Votes.{signer_of, subject_of};
ghost use Rattle.batcher_ffi.specs.Convictions.{AsksConvicted};
ghost use Rattle.batcher_ffi.specs.Rounds.{IsVerifiedBy};

use crate::codes::{DONE, IDLE, MALFORMED};
use crate::flat::FlatVote;
use crate::rounds::is_verified;
use batcher_bytes::{Keys, Signature};
use batcher_evidence::contradict;
use batcher_types::messages::{Sha256Digest, Vote};

/// Whether two votes convict their signer, among so many participants with these keys: they are of
/// one signer, contradict each other, and both attest.
pub fn convicted(
    participants: u32,
    keys: Keys,
    first: &FlatVote,
    second: &FlatVote,
    first_attests: bool,
    second_attests: bool,
    out: &mut u32,
) -> u8
    requires first { IsVerifiedBy keys first.now first_attests }
    requires second { IsVerifiedBy keys second.now second_attests }
    ensures { AsksConvicted result participants keys first.now second.now out.old out.new }
{
    // What is true by the keys is in the verdicts.
    let _ = keys;
    let Some(a) = first.vote() else {
        return MALFORMED;
    };
    let Some(b) = second.vote() else {
        return MALFORMED;
    };
    let count = participants as usize;
    let both = is_verified(&a, first_attests, count) && is_verified(&b, second_attests, count);
    if both && are_contrary(&a, &b) {
        *out = a.signer().0;
        DONE
    } else {
        IDLE
    }
}

// Whether the votes are of one signer, and contradict each other.
fn are_contrary(a: &Vote<Signature, Sha256Digest>, b: &Vote<Signature, Sha256Digest>) -> bool
    ensures { result ≡ ((signer_of a.now == signer_of b.now)
        && subjects_contradict same_digest (subject_of a.now) (subject_of b.now)) }
{
    a.signer() == b.signer() && contradict(a.subject(), b.subject())
}
