//! How far a view is, as it crosses to C.

ghost use Rattle.batcher_ffi.specs.Progress.{AsksProgress, IsCounted, IsProgress, IsUnbegun};

use crate::caller::Caller;
use crate::validators::CValidator;
use batcher::round::Round;
use batcher_bytes::Signed;
use batcher_types::messages::{Kind, Sha256Digest};
use batcher_types::positions::View;

/// How far a kind of a view is from its certificate. Once that is there, no vote of it waits.
#[repr(C)]
#[derive(Clone, Copy)]
pub struct FlatCounts {
    /// How many votes wait that weren't verified.
    pub pending: u64,
    /// How many votes wait that attest.
    pub verified: u64,
    pub certified: bool,
}

/// How far a view is, and so why it hangs.
#[repr(C)]
#[derive(Clone, Copy)]
pub struct FlatProgress {
    pub notarizes: FlatCounts,
    pub nullifies: FlatCounts,
    pub finalizes: FlatCounts,
    /// Who leads the view, where that is known.
    pub leader: u32,
    pub has_leader: bool,
    /// Whether a proposal is selected.
    pub has_proposal: bool,
}

/// How far a view is.
pub fn progress(it: &CValidator, view: u64) -> FlatProgress
    ensures { AsksProgress it.now view result }
{
    match it.voter().node().round(View(view)) {
        Some(round) => of_round(round),
        None => unbegun(),
    }
}

fn of_round(round: &Round<Signed<Caller, true>, Sha256Digest>) -> FlatProgress
    ensures { IsProgress round.now result }
{
    let leader = round.leader();
    FlatProgress {
        notarizes: counts(round, Kind::Notarization),
        nullifies: counts(round, Kind::Nullification),
        finalizes: counts(round, Kind::Finalization),
        leader: match leader {
            Some(leader) => leader.0,
            None => 0,
        },
        has_leader: leader.is_some(),
        has_proposal: round.proposal().is_some(),
    }
}

fn counts(round: &Round<Signed<Caller, true>, Sha256Digest>, kind: Kind) -> FlatCounts
    ensures { IsCounted round.now kind result }
{
    let progress = round.progress(kind);
    FlatCounts {
        pending: progress.pending as u64,
        verified: progress.verified as u64,
        certified: round.has_certificate(kind),
    }
}

// Of a view in which nothing was said.
fn unbegun() -> FlatProgress
    ensures { IsUnbegun result }
{
    let none = FlatCounts {
        pending: 0,
        verified: 0,
        certified: false,
    };
    FlatProgress {
        notarizes: none,
        nullifies: none,
        finalizes: none,
        leader: 0,
        has_leader: false,
        has_proposal: false,
    }
}
