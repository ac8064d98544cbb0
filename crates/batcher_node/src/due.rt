//! The views whose rounds have to be looked at, of which the lowest is found at once.

ghost use Rattle.std.specs.Prelude.{◌≡◌, ◌+◌, ◌≤◌, ◌<◌, ◌&&◌, ◌==◌, ℕ, true, cond, OnOk, IfSome};
ghost use Rattle.std.specs.Prelude.{IfNone};
ghost use Rattle.std.specs.BinaryHeap.{heap_items, heap_len, heap_capacity, IsHeap, IsHeap-prop};
ghost use Rattle.batcher_node.specs.Due.{times, later};

use std::alloc::{AllocError, Global};
use std::cmp::Reverse;
use std::collections::BinaryHeap;

/// Views in a heap.
#[derive(Drop)]
pub(crate) struct Due {
    pub(crate) views: BinaryHeap<Reverse<u64>>,
    ghost ordered: { IsHeap later (heap_items views) } by { IsHeap-prop later (heap_items views) },
}

impl Due {
    /// None. It takes no memory.
    pub(crate) fn new(alloc: Global) -> Self
        ensures { (view : ℕ) → times (heap_items result.views) view ≡ 0 }
    {
        Due {
            views: BinaryHeap::new(alloc),
        }
    }

    /// The lowest view.
    pub(crate) fn lowest(&self) -> Option<u64>
        ensures found { IfSome result (λ view. 1 ≤ times (heap_items self.now.views) view) }
        ensures lowest { IfSome result (λ view. (lower : ℕ) → lower < view
            → times (heap_items self.now.views) lower ≡ 0) }
        ensures none { IfNone result ((view : ℕ) → times (heap_items self.now.views) view ≡ 0) }
    {
        match self.views.peek() {
            Some(view) => Some(view.0),
            None => None,
        }
    }

    /// Makes room for so many views in all, and changes nothing else.
    pub(crate) fn make_room(&mut self, total: usize) -> Result<(), AllocError>
        ensures room { OnOk result (total ≤ heap_capacity self.new.views) }
        ensures kept { heap_capacity self.old.views ≤ heap_capacity self.new.views }
        ensures same { heap_items self.new.views ≡ heap_items self.old.views }
    {
        let additional = total.saturating_sub(self.views.len());
        self.views.reserve(additional)
    }

    /// Adds a view where its round wakes. With room for it it takes no memory.
    pub(crate) fn wake(&mut self, view: u64, wakes: bool)
        requires { wakes ≡ true → heap_len self.old.views < heap_capacity self.old.views }
        ensures times { (other : ℕ) → times (heap_items self.new.views) other
            ≡ cond (wakes && (view == other)) 1 0 + times (heap_items self.old.views) other }
        ensures kept { heap_capacity self.old.views ≤ heap_capacity self.new.views }
    {
        if wakes {
            self.add(view);
        }
    }

    /// Takes the lowest view away where its round rests.
    pub(crate) fn rest(&mut self, rests: bool)
        ensures times { (view : ℕ) → 1 ≤ times (heap_items self.old.views) view
            → ((lower : ℕ) → lower < view → times (heap_items self.old.views) lower ≡ 0)
            → (other : ℕ) → times (heap_items self.old.views) other
            ≡ cond (rests && (view == other)) 1 0 + times (heap_items self.new.views) other }
        ensures kept { heap_capacity self.new.views ≡ heap_capacity self.old.views }
    {
        if rests {
            self.remove_lowest();
        }
    }

    // Adds a view. With room for it it takes no memory.
    fn add(&mut self, view: u64)
        requires { heap_len self.old.views < heap_capacity self.old.views }
        ensures times { (other : ℕ) → times (heap_items self.new.views) other
            ≡ cond (view == other) 1 0 + times (heap_items self.old.views) other }
        ensures kept { heap_capacity self.old.views ≤ heap_capacity self.new.views }
    {
        match self.views.push(Reverse(view)) {
            Ok(()) => {}
            // There is room.
            Err(_) => unreachable!(),
        }
    }

    // Takes the lowest view away.
    fn remove_lowest(&mut self) -> Option<u64>
        ensures times { IfSome result (λ view. (other : ℕ) → times (heap_items self.old.views) other
            ≡ cond (view == other) 1 0 + times (heap_items self.new.views) other) }
        ensures lowest { IfSome result (λ view. (lower : ℕ) → lower < view
            → times (heap_items self.old.views) lower ≡ 0) }
        ensures none { IfNone result ((view : ℕ)
            → times (heap_items self.old.views) view ≡ 0) }
        ensures len { IfSome result (λ _.
            heap_len self.new.views + 1 ≡ heap_len self.old.views) }
        ensures kept { heap_capacity self.new.views ≡ heap_capacity self.old.views }
    {
        match self.views.pop() {
            Some(view) => Some(view.0),
            None => None,
        }
    }

    /// Takes the views before this one away.
    pub(crate) fn drop_before(&mut self, first: u64)
        ensures kept { (view : ℕ) → first ≤ view
            → times (heap_items self.new.views) view ≡ times (heap_items self.old.views) view }
        ensures dropped { (view : ℕ) → view < first
            → times (heap_items self.new.views) view ≡ 0 }
        ensures room { heap_capacity self.new.views ≡ heap_capacity self.old.views }
    {
        while let Some(view) = self.lowest() {
            if view >= first {
                return;
            }
            self.remove_lowest();
        }
    }
}
