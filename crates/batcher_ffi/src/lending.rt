//! What a handle lends: its value, in place. A question writes nothing, so C has its handle as
//! `const`.

ghost use Rattle.std.specs.Prelude.{◌≡◌, None, Some};
ghost use Rattle.std.specs.Borrow.{sem};
ghost use Rattle.std.specs.Option.{MatchOption};
ghost use Rattle.batcher_ffi.specs.Lending.{LendsFiles, LendsRound, LendsValidator};

use crate::files::Files;
use crate::handle::{FilesHandle, Round, RoundHandle, ValidatorHandle};
use crate::judging::JudgedValidator;

impl RoundHandle {
    /// The round, where there is one.
    pub fn as_mut(&mut self) -> Option<&mut Round>
        ensures* writes_back { sem 𝓛 (LendsRound self.entry result) }
        ensures value { MatchOption result (self.old.value ≡ None)
            (λ round. self.old.value ≡ Some round.now) }
    {
        let at = self.at as *mut Round;
        if at.is_null() {
            None
        } else {
            Some(unsafe { &mut *at })
        }
    }
}

impl ValidatorHandle {
    /// The validator, where there is one.
    pub fn as_mut(&mut self) -> Option<&mut JudgedValidator>
        ensures* writes_back { sem 𝓛 (LendsValidator self.entry result) }
        ensures value { MatchOption result (self.old.value ≡ None)
            (λ validator. self.old.value ≡ Some validator.now) }
    {
        let at = self.at as *mut JudgedValidator;
        if at.is_null() {
            None
        } else {
            Some(unsafe { &mut *at })
        }
    }
}

impl FilesHandle {
    /// The files, where there is one.
    pub fn as_mut(&mut self) -> Option<&mut Files>
        ensures* writes_back { sem 𝓛 (LendsFiles self.entry result) }
        ensures value { MatchOption result (self.old.value ≡ None)
            (λ files. self.old.value ≡ Some files.now) }
    {
        let at = self.at as *mut Files;
        if at.is_null() {
            None
        } else {
            Some(unsafe { &mut *at })
        }
    }
}
