//! Measures the batcher: plays rounds over a scheme that costs next to nothing, and prints for
//! each row what came of its votes.
//!
//! `time` prints nanoseconds a vote too. `rounds COUNT ROW` plays one row so many times more, for a
//! profiler, and `places ROW` plays one and says where it is, for who counts its memory; a row
//! is named by the words in its line, as `100 8 retaining shuffled once`. `encode COUNT` and
//! `decode COUNT` do that with a vote so many times more.
#![tactic(auto)]

mod bytes;
mod play;

use crate::play::{Measured, tell_places};
use anyhow::{Result, bail};
use batcher_rows::rows::{Row, row_named, rows};
use std::alloc::Global;
use std::env;
use std::rt::{Clock, Env};

/// How often all rows are timed, one after the other, so that each is at some quiet moment.
const PASSES: u32 = 10;

// What is asked for.
#[derive(Clone, Copy)]
enum Task {
    Count,
    Time,
    Rounds(u32, Row),
    Places(Row),
    Encodes(u32),
    Decodes(u32),
}

fn main(rt: HostRuntime) -> Result<()> {
    match asked(&rt)? {
        Task::Count => print_counts(&rt),
        Task::Time => print_times(&rt),
        Task::Rounds(rounds, row) => print_rounds(&rt, row, rounds),
        Task::Places(row) => tell_places(&rt, &row),
        Task::Encodes(rounds) => {
            let bytes = bytes::encoded(rt.alloc(), rounds)?;
            println!(rt; "a vote of {bytes} bytes")?;
            Ok(())
        }
        Task::Decodes(rounds) => {
            let bytes = bytes::decoded(rt.alloc(), rounds)?;
            println!(rt; "a vote of {bytes} bytes")?;
            Ok(())
        }
    }
}

fn asked(rt: &(impl Env + AllocGlobal)) -> Result<Task> {
    let mut words = Vec::new(rt.alloc());
    for word in env::args(rt)? {
        words.push(word)?;
    }
    match task_named(words.as_slice()) {
        Some(task) => Ok(task),
        None => {
            bail!(
                "usage: batcher_bench [time | rounds COUNT ROW | places ROW | encode|decode COUNT]"
            )
        }
    }
}

// The task that the arguments name. The first is the program's name.
fn task_named(words: &[String]) -> Option<Task> {
    if words.len() <= 1 {
        return Some(Task::Count);
    }
    match words[1].as_str() {
        "time" if words.len() == 2 => Some(Task::Time),
        "rounds" if words.len() > 3 => {
            let rounds = words[2].as_str().parse::<u32>().ok()?;
            Some(Task::Rounds(rounds, row_named(&words[3..])?))
        }
        "places" => Some(Task::Places(row_named(&words[2..])?)),
        "encode" if words.len() == 3 => Some(Task::Encodes(words[2].as_str().parse::<u32>().ok()?)),
        "decode" if words.len() == 3 => Some(Task::Decodes(words[2].as_str().parse::<u32>().ok()?)),
        _ => None,
    }
}

// All rows, each played once.
fn play_all(alloc: Global) -> Result<Vec<Measured>> {
    let mut played = Vec::new(alloc);
    for row in &rows(alloc)? {
        played.push(Measured::new(alloc, *row, 0)?)?;
    }
    Ok(played)
}

fn print_counts(rt: &(impl AllocGlobal + Print)) -> Result<()> {
    println!(rt;
        "participants bytes mode      order      course    votes added certificates checksum"
    )?;
    for row in &rows(rt.alloc())? {
        let measured = Measured::new(rt.alloc(), *row, 0)?;
        println!(rt; "{measured}")?;
    }
    Ok(())
}

fn print_rounds(rt: &(impl AllocGlobal + Print), row: Row, rounds: u32) -> Result<()> {
    let measured = Measured::new(rt.alloc(), row, rounds)?;
    println!(rt; "{measured}")?;
    Ok(())
}

// The heading comes first, so that a closed output is known before anything is timed, and each row
// as soon as its last time is taken. Where the passes are is said on standard error.
fn print_times(rt: &(impl AllocGlobal + Clock + Print + Eprint)) -> Result<()> {
    print!(rt; "participants bytes mode      order      course    votes added ")?;
    println!(rt; "certificates checksum            ns a vote")?;
    let mut rows = play_all(rt.alloc())?;
    for pass in 1..PASSES {
        tell_pass(rt, pass);
        for measured in rows.iter_mut() {
            measured.take_time(rt)?;
        }
    }
    tell_pass(rt, PASSES);
    for measured in rows.iter_mut() {
        measured.take_time(rt)?;
        let tenths = measured.tenths_a_vote();
        let whole = tenths / 10;
        let tenth = tenths % 10;
        println!(rt; "{measured} {whole:>10}.{tenth}")?;
    }
    Ok(())
}

// Nothing depends on it, so a fault of standard error is no matter.
fn tell_pass(rt: &impl Eprint, pass: u32) {
    let _ = eprintln!(rt; "pass {pass} of {PASSES}");
}
