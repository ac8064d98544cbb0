//! A log that outlives crashes.

ghost use Rattle.std.specs.Prelude.{◌≡◌, List, OnErr, OnOk, ℕ};

use batcher_bytes::{Log, LogFault};

/// A log whose power goes and comes back. Where a disk fails inside a call, and then the power
/// goes, that is a crash inside the call.
pub trait Restart: Log {
    /// The power goes and comes back, and the log is opened again. At an `Err` it can't be opened.
    fn restart(&mut self) -> Result<(), LogFault>
        ensures settled { OnOk result (Self.is_settled self.new) }
        // What is found is what the crash may have left.
        ensures found { OnOk result
            (Self.is_honest self.new → Self.may_leave self.old (Self.written self.new)) }
        ensures err { OnErr result ((left : List ℕ) → Self.is_honest self.new
            → Self.may_leave self.new left → Self.may_leave self.old left) }
        ensures honest { Self.is_honest self.new → Self.is_honest self.old };
}
