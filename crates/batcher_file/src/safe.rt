//! What comes of a plan, whoever carries it out.

ghost use Rattle.std.specs.Prelude.{◌++◌, List, false, true, ℕ};
ghost use Rattle.batcher_file.specs.Carrying.{put_first};
ghost use Rattle.batcher_file.specs.Plans.{IsAddition, IsReplacement};
ghost use Rattle.batcher_file.specs.Safe.{IsMakeSafe, IsSafe, IsTidySafe};

use sqlite_disk::Disk;

/// Whoever carries out a plan step by step, and syncs the file behind each, comes to a log that has
/// what the plan was made for. Where a step fails, or the power goes, what was there is found, or
/// that.
pub fn plans_are_safe<K: Disk>()
    ensures append { IsSafe K.seen K.may_leave K.is_usable K.is_clean K.is_mixing K.faults
        IsAddition (λ old bytes. old ++ bytes) (put_first false) }
    ensures replace { IsSafe K.seen K.may_leave K.is_usable K.is_clean K.is_mixing K.faults
        IsReplacement (λ old bytes. bytes) (put_first true) }
    ensures open { IsTidySafe K.seen K.may_leave K.is_usable K.is_clean K.is_mixing K.faults }
    ensures create { IsMakeSafe K.seen K.may_leave K.is_usable K.is_clean K.is_mixing K.faults }
{}
