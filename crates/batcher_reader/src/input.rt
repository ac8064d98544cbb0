//! What a program reads, and why it stops.

ghost use Rattle.std.specs.Prelude.{◌≡◌, IfOk, IfSome};
ghost use Rattle.batcher_reader.specs.Stops.{status_of};

use std::alloc::{AllocError, Global};
use std::io::{ErrorKind, Read};

/// Why a program stops before the end of its script.
#[derive(Clone, Copy, Debug, PartialEq, Eq)]
pub enum Stop {
    /// A line is malformed, and the last line printed says which.
    Malformed,
    OutOfMemory,
    /// A fault of the input, before anything is printed.
    Input,
    /// A fault of the output, after which nothing is written.
    Output,
}

impl From<AllocError> for Stop {
    fn from(_error: AllocError) -> Stop {
        Stop::OutOfMemory
    }
}

impl Stop {
    /// The exit status of a program that stops so.
    pub fn status(self) -> u8
        ensures { result ≡ status_of self }
    {
        match self {
            Stop::Malformed => 2,
            Stop::OutOfMemory => 3,
            Stop::Input | Stop::Output => 4,
        }
    }
}

/// All bytes that the reader holds. An error of the reader is a fault of the input, also where
/// it says that memory was short.
pub fn read_all<R: Read>(alloc: Global, reader: &mut R) -> Result<Vec<u8>, Stop>
    ensures { IfOk result (λ bytes. IfSome (R.remaining reader.old) (λ all. bytes.items ≡ all)) }
{
    let mut bytes = Vec::new(alloc);
    let mut buffer = [0u8; 4096];
    for _ in 0..u64::MAX {
        match reader.read(&mut buffer) {
            Ok(0) => return Ok(bytes),
            Ok(count) => bytes.extend_from_slice(&buffer[..count])?,
            Err(error) if error.kind() == ErrorKind::Interrupted => {}
            Err(_) => return Err(Stop::Input),
        }
    }
    Err(Stop::Input)
}
