//! What C holds of a round, of a validator and of files. Each handle has a type of its own, since
//! no type with parameters passes to C. What their proofs by hand have in common is in
//! `proofs/Pointers`.

ghost use Rattle.std.specs.Prelude.{◌≡◌, Option, None, Some};
ghost use Rattle.std.specs.Option.{MatchOption};
ghost use Rattle.batcher_ffi.specs.Files.{CFiles};
ghost use Rattle.batcher_ffi.specs.Judging.{JudgedValidatorView};
ghost use Rattle.batcher_ffi.specs.Rounds.{CRound};

use crate::caller::Caller;
use crate::files::Files;
use crate::judging::JudgedValidator;
use crate::unboxed::Unboxed;
use batcher_verdicts::AnyRound;
use std::alloc::Global;
use std::marker::Model;
use std::{mem, ptr};

/// A round as C has it.
pub type Round = AnyRound<Caller>;

/// A round, or none. C sees one pointer, which is null where there is none.
#[repr(C)]
pub struct RoundHandle {
    pub(crate) at: *mut u8,
    alloc: Global,
    pub ghost value: { Option CRound },
}

impl Model for RoundHandle {
    ghost use Rattle.batcher_ffi.specs.Ownership.{owned_or_null};
    ghost use Rattle.batcher_ffi.specs.Rows.{round_row};

    ghost also_owns = { λ h. owned_or_null round_row h.alloc h.at h.value };
}

impl RoundHandle {
    // A handle of none.
    fn empty(alloc: Global) -> RoundHandle
        ensures { result.value ≡ None }
    {
        RoundHandle {
            at: ptr::null_mut(),
            alloc,
        }
    }

    fn from_unboxed(whole: Unboxed<Round, Global>) -> RoundHandle
        ensures { result.value ≡ Some whole.value }
    {
        let Unboxed { at, alloc } = whole;
        RoundHandle {
            at: at as *mut u8,
            alloc,
        }
    }

    fn into_unboxed(self) -> Option<Unboxed<Round, Global>>
        ensures { MatchOption result (self.value ≡ None) (λ whole. self.value ≡ Some whole.value) }
    {
        let RoundHandle { at, alloc } = self;
        if at.is_null() {
            None
        } else {
            Some(Unboxed {
                at: at as *mut Round,
                alloc,
            })
        }
    }

    /// A handle of the round.
    fn of(round: Box<Round>) -> RoundHandle
        ensures { result.value ≡ Some round.value }
    {
        RoundHandle::from_unboxed(Unboxed::of(round))
    }

    fn into_box(self) -> Option<Box<Round>>
        ensures { MatchOption result (self.value ≡ None) (λ b. self.value ≡ Some b.value) }
    {
        match self.into_unboxed() {
            Some(whole) => Some(whole.into_box()),
            None => None,
        }
    }

    /// Takes the round out, where there is one, so that the handle is empty.
    pub fn take(&mut self, alloc: Global) -> Option<Box<Round>>
        ensures taken { MatchOption result (self.old.value ≡ None)
            (λ round. self.old.value ≡ Some round.value) }
        ensures left { self.new.value ≡ None }
    {
        mem::replace(self, RoundHandle::empty(alloc)).into_box()
    }

    /// Puts a round in. One that was there is freed.
    pub fn put(&mut self, round: Box<Round>)
        ensures { self.new.value ≡ Some round.value }
    {
        drop(mem::replace(self, RoundHandle::of(round)).into_box());
    }
}

/// A validator, or none. C sees one pointer, which is null where there is none.
#[repr(C)]
pub struct ValidatorHandle {
    pub(crate) at: *mut u8,
    alloc: Global,
    pub ghost value: { Option JudgedValidatorView },
}

impl Model for ValidatorHandle {
    ghost use Rattle.batcher_ffi.specs.Ownership.{owned_or_null};
    ghost use Rattle.batcher_ffi.specs.Rows.{validator_row};

    ghost also_owns = { λ h. owned_or_null validator_row h.alloc h.at h.value };
}

impl ValidatorHandle {
    // A handle of none.
    fn empty(alloc: Global) -> ValidatorHandle
        ensures { result.value ≡ None }
    {
        ValidatorHandle {
            at: ptr::null_mut(),
            alloc,
        }
    }

    fn from_unboxed(whole: Unboxed<JudgedValidator, Global>) -> ValidatorHandle
        ensures { result.value ≡ Some whole.value }
    {
        let Unboxed { at, alloc } = whole;
        ValidatorHandle {
            at: at as *mut u8,
            alloc,
        }
    }

    fn into_unboxed(self) -> Option<Unboxed<JudgedValidator, Global>>
        ensures { MatchOption result (self.value ≡ None) (λ whole. self.value ≡ Some whole.value) }
    {
        let ValidatorHandle { at, alloc } = self;
        if at.is_null() {
            None
        } else {
            Some(Unboxed {
                at: at as *mut JudgedValidator,
                alloc,
            })
        }
    }

    /// A handle of the validator.
    fn of(validator: Box<JudgedValidator>) -> ValidatorHandle
        ensures { result.value ≡ Some validator.value }
    {
        ValidatorHandle::from_unboxed(Unboxed::of(validator))
    }

    fn into_box(self) -> Option<Box<JudgedValidator>>
        ensures { MatchOption result (self.value ≡ None) (λ b. self.value ≡ Some b.value) }
    {
        match self.into_unboxed() {
            Some(whole) => Some(whole.into_box()),
            None => None,
        }
    }

    /// Takes the validator out, where there is one, so that the handle is empty.
    pub fn take(&mut self, alloc: Global) -> Option<Box<JudgedValidator>>
        ensures taken { MatchOption result (self.old.value ≡ None)
            (λ validator. self.old.value ≡ Some validator.value) }
        ensures left { self.new.value ≡ None }
    {
        mem::replace(self, ValidatorHandle::empty(alloc)).into_box()
    }

    /// Puts a validator in. One that was there is freed.
    pub fn put(&mut self, validator: Box<JudgedValidator>)
        ensures { self.new.value ≡ Some validator.value }
    {
        drop(mem::replace(self, ValidatorHandle::of(validator)).into_box());
    }
}

/// Two files, or none. C sees one pointer, which is null where there is none.
#[repr(C)]
pub struct FilesHandle {
    pub(crate) at: *mut u8,
    alloc: Global,
    pub ghost value: { Option CFiles },
}

impl Model for FilesHandle {
    ghost use Rattle.batcher_ffi.specs.Ownership.{owned_or_null};
    ghost use Rattle.batcher_ffi.specs.Rows.{files_row};

    ghost also_owns = { λ h. owned_or_null files_row h.alloc h.at h.value };
}

impl FilesHandle {
    // A handle of none.
    fn empty(alloc: Global) -> FilesHandle
        ensures { result.value ≡ None }
    {
        FilesHandle {
            at: ptr::null_mut(),
            alloc,
        }
    }

    fn from_unboxed(whole: Unboxed<Files, Global>) -> FilesHandle
        ensures { result.value ≡ Some whole.value }
    {
        let Unboxed { at, alloc } = whole;
        FilesHandle {
            at: at as *mut u8,
            alloc,
        }
    }

    fn into_unboxed(self) -> Option<Unboxed<Files, Global>>
        ensures { MatchOption result (self.value ≡ None) (λ whole. self.value ≡ Some whole.value) }
    {
        let FilesHandle { at, alloc } = self;
        if at.is_null() {
            None
        } else {
            Some(Unboxed {
                at: at as *mut Files,
                alloc,
            })
        }
    }

    /// A handle of the files.
    fn of(files: Box<Files>) -> FilesHandle
        ensures { result.value ≡ Some files.value }
    {
        FilesHandle::from_unboxed(Unboxed::of(files))
    }

    fn into_box(self) -> Option<Box<Files>>
        ensures { MatchOption result (self.value ≡ None) (λ b. self.value ≡ Some b.value) }
    {
        match self.into_unboxed() {
            Some(whole) => Some(whole.into_box()),
            None => None,
        }
    }

    /// Takes the files out, where there is one, so that the handle is empty.
    pub fn take(&mut self, alloc: Global) -> Option<Box<Files>>
        ensures taken { MatchOption result (self.old.value ≡ None)
            (λ files. self.old.value ≡ Some files.value) }
        ensures left { self.new.value ≡ None }
    {
        mem::replace(self, FilesHandle::empty(alloc)).into_box()
    }

    /// Puts files in. Those that were there are freed.
    pub fn put(&mut self, files: Box<Files>)
        ensures { self.new.value ≡ Some files.value }
    {
        drop(mem::replace(self, FilesHandle::of(files)).into_box());
    }
}
