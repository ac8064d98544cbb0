//! Tests of the player of scripts.

mod keeping;
mod questions;

use super::*;
use std::alloc::AllocError;
use std::io::{self, ErrorKind};
use std::process::Abort;
use std::test::Fail;

/// The lines of the first run, each with its answer.
const FIRST_RUN: [(&str, &str); 6] = [
    (
        "round 0 1 4 releasing keyed",
        "round 0 1 participants 4 quorum 3",
    ),
    (
        "net 0 0 nullify - ok",
        "net: added, block none, report nullify(0)",
    ),
    (
        "net 1 1 nullify - ok",
        "net: added, block none, report nullify(1)",
    ),
    (
        "net 2 2 nullify - ok",
        "net: added, block none, report nullify(2)",
    ),
    (
        "construct",
        "construct: processed 3, invalid [], certificate nullification, fallback no",
    ),
    ("construct", "construct: none"),
];

/// Lines that are malformed as the first.
const MALFORMED_FIRST: [&str; 7] = [
    "round 0 1 0 releasing keyed",
    "round 0 1 1001 releasing keyed",
    "round 18446744073709551616 1 4 retaining keyed",
    "round 0 +1 4 retaining keyed",
    "round 0 1 4 Releasing keyed",
    "round 0 1 4 releasing",
    "construct",
];

/// Lines that are malformed after a `round` of 4.
const MALFORMED_NEXT: [&str; 16] = [
    "round 0 1 4 releasing keyed",
    "net 0 4294967296 nullify - ok",
    "net 0 0 nullify 1 ok",
    "net 0 0 notarize - ok",
    "net 0 0 notarize 256 ok",
    "net 0 -1 nullify - ok",
    "net 0 0 nullify - OK",
    "own 4 nullify -",
    "leader",
    "leader 4294967296",
    "forward -1",
    "missing -",
    "construct now",
    "con struct",
    "construct\r",
    "# \u{e9}",
];

/// Lines after a `round` of 4, with their answers.
const ANSWERED_NEXT: [(&str, &str); 4] = [
    ("leader 000", "leader: ok"),
    (
        "net 0 4294967295 nullify - ok",
        "net: refused, block nullify signer mismatch, report none",
    ),
    (
        " net\t000  0 nullify - ok \r\n",
        "net: added, block none, report nullify(0)",
    ),
    ("\tconstruct\n# the end", "construct: none"),
];

fn check(
    rt: &impl Abort,
    alloc: Global,
    script: &str,
    output: &str,
    status: u8,
) -> Result<(), AllocError> {
    let mut written = Vec::new(alloc);
    assert_eq!(rt;
        play(alloc, script.as_bytes(), &mut written),
        status,
        "{script}"
    );
    assert_eq!(rt;
        str::from_utf8(written.as_slice()).ok(),
        Some(output),
        "{script}"
    );
    Ok(())
}

#[test]
fn tells_malformed_lines(rt: HostRuntime) -> Result<(), Fail> {
    for line in MALFORMED_FIRST {
        check(&rt, rt.alloc(), line, "line 1: malformed\n", 2)?;
    }
    let (round, answer) = FIRST_RUN[0];
    for line in MALFORMED_NEXT {
        let script = format!(in rt.alloc(); "{round}\n{line}")?;
        let output = format!(in rt.alloc(); "{answer}\nline 2: malformed\n")?;
        check(&rt, rt.alloc(), script.as_str(), output.as_str(), 2)?;
    }
    for (line, reply) in ANSWERED_NEXT {
        let script = format!(in rt.alloc(); "{round}\n{line}")?;
        let output = format!(in rt.alloc(); "{answer}\n{reply}\n")?;
        check(&rt, rt.alloc(), script.as_str(), output.as_str(), 0)?;
    }
    Ok(())
}

/// Bytes in pieces of eight, until a read fails.
#[derive(Drop)]
struct FailingReader<'a> {
    bytes: &'a [u8],
    reads: u8,
}

impl Read for FailingReader<'_> {
    fn read(&mut self, buffer: &mut [u8]) -> io::Result<usize> {
        if self.reads == 0 {
            return Err(io::Error::from(ErrorKind::Other));
        }
        self.reads -= 1;
        let size = buffer.len().min(8);
        self.bytes.read(&mut buffer[..size])
    }
}

/// Memory that takes eight bytes at a time, until a write fails.
#[derive(Drop)]
struct FailingWriter<'a> {
    written: &'a mut Vec<u8>,
    writes: u8,
}

impl Write for FailingWriter<'_> {
    fn write(&mut self, bytes: &[u8]) -> io::Result<usize> {
        if self.writes == 0 {
            return Err(io::Error::from(ErrorKind::Other));
        }
        self.writes -= 1;
        let size = bytes.len().min(8);
        self.written.write(&bytes[..size])
    }

    fn flush(&mut self) -> io::Result<()> {
        Ok(())
    }
}

/// A script of these lines, and what is printed for it.
fn written(alloc: Global, lines: &[(&str, &str)]) -> Result<(String, String), AllocError> {
    let mut script = String::new(alloc);
    let mut output = String::new(alloc);
    for (line, answer) in lines {
        writeln!(script, "{line}")?;
        writeln!(output, "{answer}")?;
    }
    Ok((script, output))
}

/// Plays a script of these lines, each with its answer.
fn plays(rt: &impl Abort, alloc: Global, lines: &[(&str, &str)]) -> Result<(), AllocError> {
    let (script, output) = written(alloc, lines)?;
    check(rt, alloc, script.as_str(), output.as_str(), 0)
}

#[test]
fn stops_where_a_read_fails(rt: HostRuntime) -> Result<(), Fail> {
    let (script, output) = written(rt.alloc(), &FIRST_RUN)?;
    for reads in 0..u8::MAX {
        let mut written = Vec::new(rt.alloc());
        let reader = FailingReader {
            bytes: script.as_bytes(),
            reads,
        };
        let status = play(rt.alloc(), reader, &mut written);
        if status == 0 {
            assert!(rt; reads > 10);
            assert_eq!(rt; written.as_slice(), output.as_bytes());
            return Ok(());
        }
        assert_eq!(rt; status, 4);
        assert!(rt; written.is_empty());
    }
    Err(Fail::from("each read failed"))
}

#[test]
fn stops_where_a_write_fails(rt: HostRuntime) -> Result<(), Fail> {
    let (script, output) = written(rt.alloc(), &FIRST_RUN)?;
    for writes in 0..u8::MAX {
        let mut written = Vec::new(rt.alloc());
        let writer = FailingWriter {
            written: &mut written,
            writes,
        };
        let status = play(rt.alloc(), script.as_bytes(), writer);
        if status == 0 {
            assert!(rt; writes > 10);
            assert_eq!(rt; written.as_slice(), output.as_bytes());
            return Ok(());
        }
        assert_eq!(rt; status, 4);
        assert_eq!(rt; written.len(), usize::from(writes) * 8);
        assert!(rt; output.as_bytes().starts_with(written.as_slice()));
    }
    Err(Fail::from("each write failed"))
}
