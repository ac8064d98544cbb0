//! For readers who begin: a user of the library, and a scheme that is written outside of it.
//! docs/USE.md and docs/SCHEMES.md show them, word for word. And verdicts, for who verifies
//! elsewhere.
#![tactic(auto)]

mod exchange;
mod scheme;
mod user;
mod verdicts;

pub use exchange::cast_and_send;
pub use scheme::Trusting;
pub use user::{construct, hear};
pub use verdicts::verdicts_on;
