//! A static library: rounds and validators of the batcher for C, and for what calls C.
#![tactic(auto)]

mod answers;
mod caller;
mod certificates;
mod codes;
mod disks;
mod evidence;
mod exports;
mod file_exports;
mod files;
mod flat;
mod forwarding;
mod handle;
mod judging;
mod lending;
mod progress;
mod rounds;
mod signing;
mod starting;
mod tasks;
mod unboxed;
mod validator_exports;
mod validators;
mod writing;
