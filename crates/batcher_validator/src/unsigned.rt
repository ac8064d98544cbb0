//! What isn't given to be signed, since its signature wasn't good.

ghost use Rattle.std.specs.Prelude.{◌≡◌};
ghost use Rattle.batcher_validator.specs.Unsigned.{higher_of, is_unsigned, is_up_to};
ghost use Rattle.batcher_validator.specs.Unsigned.{nothing_unsigned, with_refused};

use batcher::messages::Subject;

/// Of each kind the highest view of which a signature was refused, since what was sent was to be
/// again. Nothing of the kind is given to be signed, of that view or an earlier one.
#[derive(Clone, Copy)]
pub(crate) struct Unsigned {
    pub(crate) notarize: Option<u64>,
    pub(crate) nullify: Option<u64>,
    pub(crate) finalize: Option<u64>,
}

impl Unsigned {
    /// No signature was refused.
    pub(crate) fn nothing() -> Self
        ensures { result ≡ nothing_unsigned }
    {
        Unsigned {
            notarize: None,
            nullify: None,
            finalize: None,
        }
    }

    /// The same, where the signature of the subject is refused too.
    pub(crate) fn with<D: Copy>(self, subject: &Subject<D>) -> Self
        ensures { result ≡ with_refused self subject.now }
    {
        let mut unsigned = self;
        match subject {
            Subject::Notarize { proposal } => {
                unsigned.notarize = higher_of(self.notarize, proposal.round.view.0);
            }
            Subject::Nullify { round } => {
                unsigned.nullify = higher_of(self.nullify, round.view.0);
            }
            Subject::Finalize { proposal } => {
                unsigned.finalize = higher_of(self.finalize, proposal.round.view.0);
            }
        }
        unsigned
    }

    /// Whether the subject isn't given to be signed.
    pub(crate) fn has<D: Copy>(&self, subject: &Subject<D>) -> bool
        ensures { result ≡ is_unsigned self.now subject.now }
    {
        match subject {
            Subject::Notarize { proposal } => is_up_to(self.notarize, proposal.round.view.0),
            Subject::Nullify { round } => is_up_to(self.nullify, round.view.0),
            Subject::Finalize { proposal } => is_up_to(self.finalize, proposal.round.view.0),
        }
    }
}

// The higher of two views.
fn higher_of(highest: Option<u64>, view: u64) -> Option<u64>
    ensures { result ≡ higher_of highest view }
{
    match highest {
        Some(before) => Some(before.max(view)),
        None => Some(view),
    }
}

// Whether a view is this one or an earlier one.
fn is_up_to(highest: Option<u64>, view: u64) -> bool
    ensures { result ≡ is_up_to highest view }
{
    match highest {
        Some(before) => view <= before,
        None => false,
    }
}
