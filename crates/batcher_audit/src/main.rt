//! Audits nodes: plays their scripts, and prints whom their reports convict and who signed
//! certificates that contradict each other. docs/FORMATS.md has the form.
#![tactic(auto)]

mod audit;
mod scripts;

use std::process::ExitCode;

fn main(rt: HostRuntime) -> ExitCode {
    ExitCode::from(audit::audit(rt.alloc(), rt.stdin(), rt.stdout()))
}
