//! What two files hold: one thing, also where a bit of them has changed.

ghost use Rattle.batcher_file.specs.Pairs.{HoldOne};
ghost use Rattle.batcher_file.specs.Rot.{NoBitIsMissed};

/// Where one bit of two files has changed, wherever it is, a log isn't opened, or it has the bytes
/// that were written.
pub fn no_bit_is_missed()
    ensures { NoBitIsMissed }
{}

/// Two files hold one thing at most. So what a crash may leave is what a log that is opened has.
pub fn two_files_hold_one_thing()
    ensures { HoldOne }
{}
