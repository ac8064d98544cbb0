//! Bytes in two files that take turns, which outlive a crash at any moment.
#![tactic(auto)]

mod contents;
mod crash;
mod files;
mod frame;
mod log;
mod opening;
mod rot;
mod safe;
mod steps;

pub use files::TwoFiles;
pub use log::FileLog;
pub use opening::OpenFault;
pub use rot::{no_bit_is_missed, two_files_hold_one_thing};
pub use safe::plans_are_safe;
pub use steps::{Plan, Step};
