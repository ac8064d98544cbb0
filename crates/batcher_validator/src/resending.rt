//! What is given again once what was sent is to be sent again.

ghost use Rattle.std.specs.Prelude.{◌≡◌, ◌<◌, ◌+◌, ◌*◌, ◌⊎◌};
ghost use Rattle.batcher_validator.specs.Resending.{below_turn, is_again, is_again_above};
ghost use Rattle.batcher_validator.specs.Resending.{is_due_again, is_finalization_of};
ghost use Rattle.batcher_validator.specs.Resending.{still_to_forward, turn_at};

use batcher::messages::Kind;
use batcher::positions::Round;
use batcher_node::Window;

/// What was to be sent again, last of all.
#[derive(Clone, Copy)]
pub(crate) struct Resending {
    /// The view from which on own votes were to be, or 0.
    pub(crate) from: u64,
    /// Whose turn it is next: how many fours of views behind the final one come before.
    pub(crate) turn: u64,
}

/// Whose turn it is. Once all had their turn, it is that of the first.
pub(crate) fn turn_at(window: Window, turn: u64) -> u64
    ensures turn { result ≡ turn_at window turn }
    ensures within { (result ≡ 0) ⊎ (window.finalized + result * 4 < window.current) }
{
    match turn.checked_mul(4) {
        Some(views) => {
            if views < window.current.saturating_sub(window.finalized) {
                return turn;
            }
            0
        }
        None => 0,
    }
}

/// The view behind which the four views are whose turn it is.
pub(crate) fn below_turn(window: Window, turn: u64) -> u64
    ensures { result ≡ below_turn window turn }
{
    window.finalized + turn_at(window, turn) * 4
}

/// Whether a certificate is given again, by its kind and round.
pub(crate) fn is_again(window: Window, below: u64, kind: Kind, round: Round) -> bool
    ensures { result ≡ is_again_above window below (kind, round) }
{
    is_finalization_of(window.finalized, kind, round) || is_due_again(window, below, round.view.0)
}

// Whether it is a finalization of this view.
fn is_finalization_of(view: u64, kind: Kind, round: Round) -> bool
    ensures { result ≡ is_finalization_of view (kind, round) }
{
    match kind {
        Kind::Finalization => round.view.0 == view,
        Kind::Notarization => false,
        Kind::Nullification => false,
    }
}

// Whether a view is one of the two newest, or of the four behind another.
fn is_due_again(window: Window, below: u64, view: u64) -> bool
    ensures { result ≡ is_due_again window below view }
{
    window.current.saturating_sub(1) <= view || (below < view && view - below <= 4)
}

/// What is still to be forwarded, unless its notarization is given again.
pub(crate) fn still_to_forward(window: Window, turn: u64, due: Option<Round>) -> Option<Round>
    ensures { result ≡ still_to_forward window turn due }
{
    match due {
        Some(round) => {
            if is_again(window, below_turn(window, turn), Kind::Notarization, round) {
                return None;
            }
            Some(round)
        }
        None => None,
    }
}
