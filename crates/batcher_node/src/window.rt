//! Which views a node keeps rounds of.

ghost use Rattle.std.specs.Prelude.{◌≡◌};

use batcher::votes::Mode;

/// Views by their numbers: those from the finalized one to some beyond the current one are in it.
#[derive(Clone, Copy, Debug, PartialEq, Eq)]
pub struct Window {
    /// The highest view that is known to be finalized.
    pub finalized: u64,
    /// The highest view that was entered or finalized.
    pub current: u64,
    /// How many views beyond the current one are in the window.
    pub ahead: u64,
}

impl Window {
    ghost use Rattle.batcher_node.specs.Windows.{contains, entered, finalized, is_beyond, mode_now};

    /// Whether the view of this number is in the window.
    pub fn contains(&self, view: u64) -> bool
        ensures { result ≡ contains self.now view }
    {
        self.finalized <= view && (view <= self.current || view - self.current <= self.ahead)
    }

    /// Whether the view of this number is beyond the window. A good certificate of it shows that
    /// the node fell behind.
    pub fn is_beyond(&self, view: u64) -> bool
        ensures { result ≡ is_beyond self.now view }
    {
        self.current < view && self.ahead < view - self.current
    }

    // How a round of the view keeps its votes that is made now. It is skipped where its view was
    // passed over.
    pub(crate) fn mode(&self, view: u64, retains: bool) -> Mode
        ensures { result ≡ mode_now retains self.now view }
    {
        if view < self.current {
            Mode::Skipped
        } else if retains {
            Mode::Retaining
        } else {
            Mode::Releasing
        }
    }

    // The window once a view was entered.
    pub(crate) fn enter(&mut self, view: u64)
        ensures { self.new ≡ entered self.old view }
    {
        self.current = self.current.max(view);
    }

    // The window once a view was finalized.
    pub(crate) fn finalize(&mut self, view: u64)
        ensures { self.new ≡ finalized self.old view }
    {
        self.finalized = self.finalized.max(view);
        self.current = self.current.max(view);
    }
}
