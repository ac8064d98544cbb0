//! The scripts out of one input: each but the first begins at a line whose first word is `round`.

use batcher_reader::script::Script;
use std::alloc::{AllocError, Global};

/// The scripts of an input up to its first malformed line.
#[derive(Drop)]
pub struct Scripts {
    pub all: Vec<Script>,
    /// The number of the malformed line, counted through the whole input.
    pub malformed: Option<usize>,
}

impl Scripts {
    // Reads one more, before which there are so many lines. Nothing is read behind a malformed
    // line.
    fn read(&mut self, alloc: Global, bytes: &[u8], before: usize) -> Result<(), AllocError> {
        if self.malformed.is_some() {
            return Ok(());
        }
        let script = Script::parse(alloc, bytes)?;
        if let Some(first) = self.all.first()
            && !are_of_one_epoch(first, &script)
        {
            self.malformed = Some(before.saturating_add(1));
            return Ok(());
        }
        self.malformed = script.malformed.map(|number| number.saturating_add(before));
        self.all.push(script)?;
        Ok(())
    }
}

/// Reads the scripts up to the first malformed line. Out of memory is the only error.
///
/// A later `round` line that names another epoch, other participants or another scheme than the
/// first is malformed.
pub fn read_scripts(alloc: Global, bytes: &[u8]) -> Result<Scripts, AllocError> {
    let mut scripts = Scripts {
        all: Vec::new(alloc),
        malformed: None,
    };
    let mut begin = 0usize;
    let mut before = 0usize;
    let mut at = 0usize;
    let mut is_begun = false;
    for (number, line) in bytes.split_inclusive(|byte| *byte == b'\n').enumerate() {
        if begins_script(line) {
            if is_begun {
                scripts.read(alloc, bytes.get(begin..at).unwrap_or(&[]), before)?;
                begin = at;
                before = number;
            }
            is_begun = true;
        }
        at = at.saturating_add(line.len());
    }
    scripts.read(alloc, bytes.get(begin..).unwrap_or(&[]), before)?;
    Ok(scripts)
}

// Whether the first word of a line is `round`.
fn begins_script(line: &[u8]) -> bool {
    let text = line.trim_ascii_start();
    match text.strip_prefix(b"round") {
        None => false,
        Some([]) => true,
        Some([next, ..]) => matches!(*next, b' ' | b'\t' | b'\r' | b'\n'),
    }
}

// Whether two scripts name the same epoch, participants and scheme. Where the first line of one is
// malformed there is nothing to compare, and its own reading says so.
fn are_of_one_epoch(first: &Script, later: &Script) -> bool {
    match (&first.lines.opening, &later.lines.opening) {
        (Some(a), Some(b)) => {
            a.round.epoch == b.round.epoch
                && a.participants == b.participants
                && a.scheme == b.scheme
        }
        _ => true,
    }
}
