//! A log whose power goes, over disks that can be made to crash.

ghost use Rattle.std.specs.Prelude.{◌≡◌, Err, List, OnOk, ℕ};
ghost use Rattle.batcher_file.specs.Settled.{HasFailed, AreHonestDisks, IsSettled, MayLeave};
ghost use Rattle.batcher_file.specs.declared.opening.OpenFault.TheVariants.{Failed};

use crate::log::FileLog;
use crate::opening::OpenFault;
use sqlite_disk::Crash;

impl<K: Crash + Drop> FileLog<K> {
    /// The power goes and comes back, and the log is opened. At an `Err` this can be called again,
    /// and `open` too.
    pub fn restart(&mut self) -> Result<(), OpenFault>
        ensures settled { OnOk result (IsSettled K.Disk.seen K.Disk.may_leave K.Disk.is_usable
            K.Disk.is_clean self.new) }
        // What is found is what the crash may have left.
        ensures found { OnOk result
            (AreHonestDisks K.Disk.seen K.Disk.may_leave K.Disk.is_usable K.Disk.is_clean self.new
            → MayLeave K.Disk.seen K.Disk.may_leave K.Disk.is_usable K.Disk.is_clean self.old
            self.new.files.bytes.items) }
        // Whatever it answers, another crash leaves nothing that this one couldn't have left.
        ensures leaves { (left : List ℕ)
            → AreHonestDisks K.Disk.seen K.Disk.may_leave K.Disk.is_usable K.Disk.is_clean self.new
            → MayLeave K.Disk.seen K.Disk.may_leave K.Disk.is_usable K.Disk.is_clean self.new left
            → MayLeave K.Disk.seen K.Disk.may_leave K.Disk.is_usable K.Disk.is_clean self.old
            left }
        ensures failed { result ≡ Err Failed → HasFailed K.Disk.seen K.Disk.may_leave
            K.Disk.is_usable K.Disk.is_clean K.Disk.faults self.new }
        ensures honest { AreHonestDisks K.Disk.seen K.Disk.may_leave K.Disk.is_usable
            K.Disk.is_clean
            self.new → AreHonestDisks K.Disk.seen K.Disk.may_leave K.Disk.is_usable K.Disk.is_clean
            self.old }
    {
        self.current.crash();
        self.other.crash();
        self.open()
    }
}
