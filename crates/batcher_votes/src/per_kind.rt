//! One of each kind of votes.

ghost use Rattle.std.specs.Prelude.{◌≡◌};
ghost use Rattle.std.specs.Borrow.{sem};
ghost use Rattle.batcher_votes.specs.RoundState.{of_kind};
ghost use Rattle.batcher_votes.specs.Kinds.{LendsKind};

use batcher_types::messages::Kind;
use std::marker::Model;

/// One of each kind.
#[derive(Drop)]
pub(crate) struct PerKind<T> {
    notarize: T,
    nullify: T,
    finalize: T,
}

impl<T> Model for PerKind<T> {
    ghost use Rattle.batcher_votes.specs.RoundState.{PerKind as OfEachKind};

    ghost Value = { OfEachKind T };

    ghost view = { λ a. record {
      notarize = a.notarize;
      nullify = a.nullify;
      finalize = a.finalize;
    } };
}

impl<T> PerKind<T> {
    pub(crate) fn new(notarize: T, nullify: T, finalize: T) -> Self
        ensures { result ≡ record {
          notarize = notarize;
          nullify = nullify;
          finalize = finalize;
        } }
    {
        PerKind {
            notarize,
            nullify,
            finalize,
        }
    }

    pub(crate) fn get(&self, kind: Kind) -> &T
        ensures { result.now ≡ of_kind self.now kind }
    {
        match kind {
            Kind::Notarization => &self.notarize,
            Kind::Nullification => &self.nullify,
            Kind::Finalization => &self.finalize,
        }
    }

    pub(crate) fn get_mut(&mut self, kind: Kind) -> &mut T
        ensures* lends { sem 𝓛 (LendsKind T.row self.entry kind result) }
        ensures value { result.now ≡ of_kind self.old kind }
    {
        match kind {
            Kind::Notarization => &mut self.notarize,
            Kind::Nullification => &mut self.nullify,
            Kind::Finalization => &mut self.finalize,
        }
    }
}
