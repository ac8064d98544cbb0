//! Plays a network of validators, four of them faulty, over some views, and draws what happened.
//!
//! It draws the network of seed 1, or of the seed that is given. `seeds COUNT` plays so many
//! networks without drawing them, and its last line is 'N passed, M failed'.
#![tactic(auto)]

mod checks;
mod network;
mod picture;
mod record;
mod roles;
mod station;
mod validator;
mod witness;

use anyhow::{Result, bail};
use std::env;
use std::rt::Env;

// What is asked for.
#[derive(Clone, Copy)]
enum Task {
    Draw(u64),
    Count(u64),
}

fn main(rt: HostRuntime) -> Result<()> {
    match asked(&rt)? {
        Task::Draw(seed) => draw(&rt, seed),
        Task::Count(seeds) => count(&rt, seeds),
    }
}

fn asked(rt: &(impl Env + AllocGlobal)) -> Result<Task> {
    let mut words = Vec::new(rt.alloc());
    for word in env::args(rt)? {
        words.push(word)?;
    }
    match task_named(words.as_slice()) {
        Some(task) => Ok(task),
        None => bail!("usage: batcher_demo [SEED | seeds COUNT]"),
    }
}

// The task that the arguments name. The first is the program's name.
fn task_named(words: &[String]) -> Option<Task> {
    if words.len() <= 1 {
        return Some(Task::Draw(1));
    }
    match words[1].as_str() {
        "seeds" if words.len() == 3 => Some(Task::Count(words[2].as_str().parse::<u64>().ok()?)),
        seed if words.len() == 2 => Some(Task::Draw(seed.parse::<u64>().ok()?)),
        _ => None,
    }
}

fn draw(rt: &(impl AllocGlobal + Print), seed: u64) -> Result<()> {
    let network = network::play(rt.alloc(), seed)?;
    picture::draw(rt, seed, &network)
}

fn count(rt: &(impl AllocGlobal + Print), seeds: u64) -> Result<()> {
    let mut passed = 0u64;
    let mut failed = 0u64;
    for seed in 0..seeds {
        if holds(rt, seed)? {
            passed = passed.saturating_add(1);
        } else {
            failed = failed.saturating_add(1);
        }
    }
    println!(rt; "{passed} passed, {failed} failed")?;
    Ok(())
}

// Whether all checks hold of the network of a seed. One of which they don't is named.
fn holds(rt: &(impl AllocGlobal + Print), seed: u64) -> Result<bool> {
    let network = network::play(rt.alloc(), seed)?;
    let checks = checks::check(rt.alloc(), &network)?;
    drop(network);
    let hold = checks.hold();
    if !hold {
        println!(rt; "seed {seed}: {checks:?}")?;
    }
    Ok(hold)
}
