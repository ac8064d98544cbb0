//! The views of a node, in their order.

use crate::slot::Slot;
use batcher::positions::View;
use std::collections::btree_map;
use std::marker::Model;

/// The views with a round, of type `R`, in ascending order.
#[derive(Drop)]
pub struct Views<'a, R> {
    pub(crate) keys: btree_map::Keys<'a, u64, Slot<R>>,
}

impl<'a, R> Model for Views<'a, R> {
    ghost use Rattle.std.specs.Prelude.{ℕ, List};

    // Their numbers.
    ghost Value = { List ℕ };

    ghost view = { λ views. views.keys };
}

impl<'a, R> Iterator for Views<'a, R> {
    ghost use Rattle.std.specs.Iterator.{YieldsFirstBy, item_count};

    type Item = View;

    ghost next_gives = { YieldsFirstBy (λ view. view.0) (λ views. views) };

    ghost remaining = { item_count (λ views. views) };

    fn next(&mut self) -> Option<View> {
        match self.keys.next() {
            Some(number) => Some(View(*number)),
            None => None,
        }
    }
}
