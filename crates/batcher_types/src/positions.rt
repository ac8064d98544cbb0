//! Round numbers, indices of participants, the quorum, and the set of the participants' keys.

ghost use Rattle.std.specs.Prelude.{◌≡◌, ◌<◌, ◌≤◌, ◌^◌};
ghost use Rattle.batcher_types.specs.Quorum.{quorum_of};

mod keys;
mod list;

pub use keys::{Set, SetFault};
pub use list::Participants;
use std::fmt;

/// A period with one set of participants.
#[derive(Clone, Copy, Debug, PartialEq, Eq, PartialOrd, Ord, Hash)]
pub struct Epoch(pub u64);

impl fmt::Display for Epoch {
    fn fmt<W: fmt::Write>(&self, f: &mut fmt::Formatter<W>) -> fmt::Result {
        write!(f, "{}", self.0)
    }
}

impl Epoch {
    /// The epoch of this number, the first being 0.
    pub const fn new(epoch: u64) -> Self
        ensures { result.0 ≡ epoch }
    {
        Epoch(epoch)
    }

    /// The first epoch.
    pub const fn zero() -> Self
        ensures { result.0 ≡ 0 }
    {
        Epoch(0)
    }

    /// The number of the epoch.
    pub const fn get(self) -> u64
        ensures { result ≡ self.0 }
    {
        self.0
    }
}

/// A view within an epoch: one leader's turn to propose.
#[derive(Clone, Copy, Debug, PartialEq, Eq, PartialOrd, Ord, Hash)]
pub struct View(pub u64);

impl fmt::Display for View {
    fn fmt<W: fmt::Write>(&self, f: &mut fmt::Formatter<W>) -> fmt::Result {
        write!(f, "{}", self.0)
    }
}

impl View {
    /// The view of this number, the first being 0.
    pub const fn new(view: u64) -> Self
        ensures { result.0 ≡ view }
    {
        View(view)
    }

    /// The first view of an epoch.
    pub const fn zero() -> Self
        ensures { result.0 ≡ 0 }
    {
        View(0)
    }

    /// The number of the view.
    pub const fn get(self) -> u64
        ensures { result ≡ self.0 }
    {
        self.0
    }
}

/// A round number: a view of an epoch. The module `round` has what happens in it.
#[derive(Clone, Copy, Debug, PartialEq, Eq, PartialOrd, Ord, Hash)]
pub struct Round {
    pub epoch: Epoch,
    pub view: View,
}

impl fmt::Display for Round {
    /// The epoch and the view, with a blank between them.
    fn fmt<W: fmt::Write>(&self, f: &mut fmt::Formatter<W>) -> fmt::Result {
        write!(f, "{} {}", self.epoch, self.view)
    }
}

impl Round {
    /// The round of a view in an epoch.
    pub const fn new(epoch: Epoch, view: View) -> Self
        ensures epoch { result.epoch ≡ epoch }
        ensures view { result.view ≡ view }
    {
        Round { epoch, view }
    }

    /// The epoch that the round is in.
    pub const fn epoch(self) -> Epoch
        ensures { result ≡ self.epoch }
    {
        self.epoch
    }

    /// The view that the round is of.
    pub const fn view(self) -> View
        ensures { result ≡ self.view }
    {
        self.view
    }
}

/// The index of a participant: its key's place among all keys in ascending order.
#[derive(Clone, Copy, Debug, PartialEq, Eq, PartialOrd, Ord, Hash)]
pub struct Participant(pub u32);

impl fmt::Display for Participant {
    fn fmt<W: fmt::Write>(&self, f: &mut fmt::Formatter<W>) -> fmt::Result {
        write!(f, "{}", self.0)
    }
}

impl Participant {
    /// The participant at this place, the first being 0. A round knows whether there is one.
    pub const fn new(index: u32) -> Self
        ensures { result.0 ≡ index }
    {
        Participant(index)
    }

    /// The participant at this place, which is one of fewer than 2^32.
    pub const fn from_usize(index: usize) -> Self
        requires { index < 2 ^ 32 }
        ensures { result.0 ≡ index }
    {
        Participant(index as u32)
    }

    /// The participant's place, the first being 0.
    pub const fn get(self) -> u32
        ensures { result ≡ self.0 }
    {
        self.0
    }
}

impl From<Participant> for usize {
    ghost from_gives = { λ participant index. index ≡ participant.0 };

    fn from(participant: Participant) -> usize {
        participant.0 as usize
    }
}

/// How many votes make a certificate among `n` participants: all but the third, rounded down,
/// of the others that may be faulty.
pub const fn quorum(n: u32) -> u32
    requires { 1 ≤ n }
    ensures { result ≡ quorum_of n }
{
    n - (n - 1) / 3
}
