//! Why bytes are refused.

ghost use Rattle.std.specs.Prelude.{◌≡◌};
ghost use Rattle.batcher_bytes.specs.declared.fault.DecodeError.TheVariants.{Fault, OutOfMemory};

use std::alloc::{AllocError, AllocFailed};

/// What is wrong with the bytes: the first fault from left to right.
#[derive(Clone, Copy, Debug, PartialEq, Eq)]
pub enum DecodeFault {
    /// They end within a field.
    Short,
    /// They are of another version.
    Version,
    /// A byte that says what follows is none of those that do.
    Kind,
    /// A signature, a digest or a certificate isn't in its form.
    Malformed,
    /// Two votes that don't contradict each other are no evidence.
    Evidence,
    /// Something follows the value.
    Trailing,
}

/// Why bytes of what takes memory are refused.
#[derive(Clone, Copy, Debug, PartialEq, Eq)]
pub enum DecodeError {
    OutOfMemory,
    Fault(DecodeFault),
}

impl From<DecodeFault> for DecodeError {
    ghost from_gives = { λ f e. e ≡ Fault f };

    fn from(fault: DecodeFault) -> Self {
        DecodeError::Fault(fault)
    }
}

impl From<AllocError> for DecodeError {
    ghost from_gives = { λ _ e. e ≡ OutOfMemory };

    fn from(_: AllocError) -> Self {
        DecodeError::OutOfMemory
    }
}

impl<T: Drop> From<AllocFailed<T>> for DecodeError {
    ghost from_gives = { λ _ e. e ≡ OutOfMemory };

    fn from(_: AllocFailed<T>) -> Self {
        DecodeError::OutOfMemory
    }
}
