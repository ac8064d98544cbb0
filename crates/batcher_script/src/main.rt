//! Plays a script on one round: reads it from standard input, and prints a line for each answer.
#![tactic(auto)]

mod play;

use std::process::ExitCode;

fn main(rt: HostRuntime) -> ExitCode {
    ExitCode::from(play::play(rt.alloc(), rt.stdin(), rt.stdout()))
}
