//! How answers of a validator's node are written: each as a code, and into what is handed in.

ghost use Rattle.std.specs.Prelude.{◌≡◌};
ghost use Rattle.batcher_ffi.specs.Answers.{AnswersVote, ahead_code, enter_code, receipt_code};
ghost use Rattle.batcher_ffi.specs.Answers.{verdict_code};

use crate::codes::{
    DONE, DROPPED, ELSEWHERE, FORGED, KNOWN, LEADER_CHANGED, OUT_OF_MEMORY, PASSED, UNKNOWN,
};
use crate::flat::FlatAdmission;
use batcher_bytes::Signature;
use batcher_histories::answers::Admission;
use batcher_node::{Ahead, EnterFault, Receipt, Verdict};
use batcher_types::messages::Sha256Digest;
use std::alloc::AllocError;

/// What a vote of a peer is answered.
pub fn write_receipt(
    answer: &Result<Receipt<Admission<Signature, Sha256Digest>>, AllocError>,
    out: &mut FlatAdmission,
) -> u8
    ensures { AnswersVote answer.now result out.old out.new }
{
    match answer {
        Ok(Receipt::Answered(admission)) => {
            out.write(admission);
            DONE
        }
        Ok(Receipt::Outside) => ELSEWHERE,
        Ok(Receipt::Dropped) => DROPPED,
        Ok(Receipt::Unknown) => UNKNOWN,
        Err(_) => OUT_OF_MEMORY,
    }
}

/// What a certificate of a peer is answered.
pub fn verdict_code_of(answer: &Result<Receipt<Verdict>, AllocError>) -> u8
    ensures { result ≡ receipt_code verdict_code answer.now }
{
    match answer {
        Ok(Receipt::Answered(Verdict::Recorded(_))) => DONE,
        Ok(Receipt::Answered(Verdict::Known)) => KNOWN,
        Ok(Receipt::Answered(Verdict::Forged)) => FORGED,
        Ok(Receipt::Outside) => ELSEWHERE,
        Ok(Receipt::Dropped) => DROPPED,
        Ok(Receipt::Unknown) => UNKNOWN,
        Err(_) => OUT_OF_MEMORY,
    }
}

/// What a certificate of a peer from beyond the window is answered.
pub fn ahead_code_of(answer: &Result<Receipt<Ahead>, AllocError>) -> u8
    ensures { result ≡ receipt_code ahead_code answer.now }
{
    match answer {
        Ok(Receipt::Answered(Ahead::Certified)) => DONE,
        Ok(Receipt::Answered(Ahead::Forged)) => FORGED,
        Ok(Receipt::Outside) => ELSEWHERE,
        Ok(Receipt::Dropped) => DROPPED,
        Ok(Receipt::Unknown) => UNKNOWN,
        Err(_) => OUT_OF_MEMORY,
    }
}

/// What a view with its leader is answered.
pub fn enter_code_of(answer: Result<(), EnterFault>) -> u8
    ensures { result ≡ enter_code answer }
{
    match answer {
        Ok(()) => DONE,
        Err(EnterFault::Passed) => PASSED,
        Err(EnterFault::LeaderChanged) => LEADER_CHANGED,
        Err(EnterFault::OutOfMemory) => OUT_OF_MEMORY,
    }
}
