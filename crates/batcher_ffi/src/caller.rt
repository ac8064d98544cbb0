//! The truth that calls from C are verified against.

use batcher_bytes::Truth;

/// What is true of the signatures that a caller verifies, whatever that is. The definitions behind
/// it are closed: no proof sees what is on their right, so each holds of every truth. The caller
/// fixes it, by the verdicts that it hands in.
#[derive(Clone, Copy)]
pub struct Caller;

impl Truth for Caller {
    ghost use Rattle.batcher_ffi.specs.Truths.{is_attested, is_passed, is_certified};

    ghost attests = { is_attested };

    ghost passes = { is_passed };

    ghost certifies = { is_certified };
}
