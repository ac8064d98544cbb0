//! A call that is refused for memory changes nothing: the others are answered as in a run that
//! never had it.
//!
//! As they are these tests refuse nothing. `tools/refuse` runs them with their first request
//! for memory refused, then their second, and so on.

use super::pairs::told;
use super::printed;
use batcher::scheme::Keyed;
use batcher_reader::rounds::{answer_all, scheme_of};
use batcher_reader::script::Script;
use std::alloc::{AllocError, Global};
use std::test::Fail;

/// Scripts in which later calls show what earlier ones have changed.
const SCRIPTS: [&str; 3] = [
    // A proposal takes another's place, and finalizes are restored.
    "round 0 1 4 retaining keyed
leader 0
net 0 0 notarize 1 ok
net 1 1 finalize 2 ok
net 2 2 finalize 2 ok
net 3 3 finalize 2 ok
cert notarization 2
construct
missing 2
forward 3
forward 3
",
    // One validator, with votes of its own.
    "round 0 1 1 retaining keyed
own 0 notarize 3
own 0 notarize 3
construct
own 0 finalize 3
own 0 nullify -
own 0 nullify -
construct
construct
construct
",
    // Each kind is tried in its turn.
    "round 0 1 4 retaining keyed
leader 0
net 0 0 notarize 1 ok
net 1 1 notarize 1 ok
net 2 2 notarize 1 bad
net 1 1 nullify - ok
net 2 2 nullify - ok
net 3 3 nullify - ok
net 0 0 finalize 1 ok
construct
construct
construct
construct
net 3 3 notarize 1 ok
construct
",
];

/// What the calls of a script are answered.
fn answers(alloc: Global, text: &str) -> Result<Vec<Vec<u8>>, AllocError> {
    let script = Script::parse(alloc, text.as_bytes())?;
    let mut lines = Vec::new(alloc);
    if let Some(opening) = &script.lines.opening {
        let commands = script.lines.commands.as_slice();
        let scheme = scheme_of::<Keyed<true>>(alloc, opening)?;
        let answered = answer_all(alloc, opening, scheme, commands)?;
        for answer in answered.answers.as_slice() {
            lines.push(printed(alloc, answer)?)?;
        }
    }
    Ok(lines)
}

/// The script without the call at a place. The first line makes none.
fn without(alloc: Global, text: &str, place: usize) -> Result<String, AllocError> {
    let mut left = String::new(alloc);
    for (number, line) in text.lines().enumerate() {
        if number != place.saturating_add(1) {
            writeln!(left, "{line}")?;
        }
    }
    Ok(left)
}

/// Whether the other calls are answered as in a run without the one that was refused, if one was.
fn is_as_without(alloc: Global, text: &str) -> Result<bool, AllocError> {
    let mut lines = match answers(alloc, text) {
        Ok(lines) => lines,
        Err(_) => answers(alloc, text)?,
    };
    let Some(place) = lines.as_slice().iter().position(|line| line.is_empty()) else {
        return Ok(true);
    };
    lines.remove(place);
    let others = answers(alloc, without(alloc, text, place)?.as_str())?;
    Ok(lines.as_slice() == others.as_slice())
}

#[test]
fn refused_calls_change_nothing(rt: HostRuntime) -> Result<(), Fail> {
    for script in SCRIPTS {
        assert!(rt; is_as_without(rt.alloc(), script)?, "{script}");
    }
    Ok(())
}

/// Whether these are the first of the others, but for the last, which was refused.
fn is_front(lines: &[Vec<u8>], others: &[Vec<u8>], stopped: usize) -> bool {
    lines.len() <= others.len()
        && lines.iter().zip(others).enumerate().all(|(place, (line, other))| line == other
            || (place == stopped && line.is_empty()))
}

/// Whether a call was refused for memory.
fn is_refused(lines: &[Vec<u8>]) -> bool {
    lines.iter().any(|line| line.is_empty())
}

/// Whether a pair that memory stopped, if it did, has answered what it answers with ample memory,
/// up to the call that was refused.
fn stops_where_refused(alloc: Global, text: &str) -> Result<bool, AllocError> {
    let first = match told(alloc, text) {
        Ok(told) => told,
        Err(_) => told(alloc, text)?,
    };
    let retaining = first.retaining.as_slice();
    let releasing = first.releasing.as_slice();
    if !is_refused(retaining) && !is_refused(releasing) {
        return Ok(true);
    }
    let Some(place) = first.stopped else {
        return Ok(false);
    };
    let whole = told(alloc, text)?;
    Ok(
        releasing.len() >= place
            && retaining.len() == place.saturating_add(1)
            && is_front(retaining, whole.retaining.as_slice(), place)
            && is_front(releasing, whole.releasing.as_slice(), place),
    )
}

#[test]
fn refused_calls_stop_pairs(rt: HostRuntime) -> Result<(), Fail> {
    for script in SCRIPTS {
        assert!(rt; stops_where_refused(rt.alloc(), script)?, "{script}");
    }
    Ok(())
}
