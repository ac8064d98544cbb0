//! Rounds over signatures as bytes, which somebody else verifies, as in another thread.
//!
//! Verdicts are on votes, and come late, on a quorum as a whole, on two votes that contradict each
//! other, and on certificates. What is good by one list of keys is bad by another.
#![tactic(auto)]

mod convicting;
mod elsewhere;
mod marked;
mod play;
mod together;
mod verifying;
mod views;

use anyhow::Result;
use batcher_bytes::Keys;
use play::play;

fn main(rt: HostRuntime) -> Result<()> {
    println!(rt; "by their own keys:")?;
    play(&rt, rt.alloc(), Keys([7; 32]))?;
    println!(rt; "by other keys:")?;
    play(&rt, rt.alloc(), Keys([8; 32]))
}
