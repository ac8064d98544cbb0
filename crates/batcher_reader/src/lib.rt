//! Scripts of calls, for programs that play rounds: how they are read, what they stand for, and
//! the texts of answers. docs/FORMATS.md has the form.
#![tactic(auto)]

pub mod calls;
pub mod input;
pub mod print;
pub mod rounds;
pub mod script;
