//! A log in two files, whose power goes and comes back.

use crate::restart::Restart;
use batcher_bytes::LogFault;
use batcher_file::FileLog;
use sqlite_disk::Crash;

impl<K: Crash + Drop> Restart for FileLog<K> {
    fn restart(&mut self) -> Result<(), LogFault> {
        match FileLog::restart(self) {
            Ok(()) => Ok(()),
            Err(_) => Err(LogFault::Failed),
        }
    }
}
