//! Calls of a round as values, whole lists of them, and what holds of all rounds.

mod lists;
mod pair;
mod theorems;

pub use lists::{Answer, Call, Ran, blocked, run};
pub use pair::{PairRan, run_pair};
pub use theorems::{
    order_is_free, possible_histories_are_promised, replays, senders_of_added_give_no_cause,
    worked_examples,
};
