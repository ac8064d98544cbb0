//! Keeps own votes in a journal, in a file and one beside it. A line of input is a command, and a
//! line of output says what came of it. docs/FORMATS.md has the texts.
#![tactic(auto)]

ghost use Rattle.std.specs.Prelude.{IfOk, IfSome, OnOk};

use anyhow::{Result, bail};
use batcher_bytes::Log;
use batcher_file::{FileLog, OpenFault as FileFault};
use batcher_journal::{Answer, Journal, Owner, Unopened};
use batcher_types::messages::{Attestation, Proposal, Sha256Digest, Subject, Vote};
use batcher_types::positions::{Epoch, Participant, Round, View};
use sqlite_std_file::{File, OpenError, Unknown, open};
use std::fs;
use std::str::SplitWhitespace;

type Keeper = Journal<[u8; 64], Sha256Digest, FileLog<File>>;

fn main(rt: HostRuntime) -> Result<()> {
    let mut journal: Option<Keeper> = None;
    for line in rt.lines(rt.alloc()) {
        let line = line?;
        let mut words = line.as_str().split_whitespace();
        match words.next() {
            Some("begin") => {
                drop(journal.take());
                let path = word(&mut words)?;
                let floor = round(&mut words)?;
                journal = begin(&rt, path, floor)?;
            }
            Some("open") => {
                drop(journal.take());
                journal = opened(&rt, word(&mut words)?)?;
            }
            Some("close") => {
                drop(journal.take());
                println!(rt; "closed")?;
            }
            Some("raise") => {
                let floor = round(&mut words)?;
                match &mut journal {
                    Some(journal) => match journal.raise_floor(floor, b"finalization") {
                        Ok(()) => println!(rt; "raised")?,
                        Err(fault) => println!(rt; "{fault:?}")?,
                    },
                    None => println!(rt; "no journal")?,
                }
            }
            Some("keep") => {
                let round = round(&mut words)?;
                let byte = byte(&mut words)?;
                match &mut journal {
                    Some(journal) => match journal.keep(round, &[byte; 100]) {
                        Ok(()) => println!(rt; "kept")?,
                        Err(_) => println!(rt; "OutOfMemory")?,
                    },
                    None => println!(rt; "no journal")?,
                }
            }
            Some("certificates") => match &journal {
                Some(journal) => say_certificates(&rt, journal)?,
                None => println!(rt; "no journal")?,
            },
            Some("both") => {
                let proposal = proposal(&mut words)?;
                let byte = byte(&mut words)?;
                match &mut journal {
                    Some(journal) => cast_both(&rt, journal, proposal, byte)?,
                    None => println!(rt; "no journal")?,
                }
            }
            Some(kind) => {
                let subject = subject(kind, &mut words)?;
                let byte = byte(&mut words)?;
                match &mut journal {
                    Some(journal) => cast(&rt, journal, subject, byte)?,
                    None => println!(rt; "no journal")?,
                }
            }
            None => {}
        }
    }
    Ok(())
}

// Whose journals these are.
fn owner() -> Owner<'static> {
    Owner {
        namespace: b"test",
        keys: b"keys",
        participant: Participant(7),
        digest_len: 32,
        signature_len: 64,
    }
}

// Asks about a subject, and if it is to be signed, signs it by this byte and writes the vote. What
// may be sent is said behind the word "send".
fn cast(
    rt: &HostRuntime,
    journal: &mut Keeper,
    subject: Subject<Sha256Digest>,
    byte: u8,
) -> Result<()> {
    match journal.ask(&subject) {
        Answer::Sign => {
            let attestation = Attestation {
                signer: Participant(7),
                signature: [byte; 64],
            };
            match journal.write(&[Vote::new(subject, attestation)]) {
                Ok(()) => println!(rt; "send {byte}")?,
                Err(fault) => println!(rt; "{fault:?}")?,
            }
        }
        Answer::Known(vote) => println!(rt; "send {} again", vote.attestation().signature[0])?,
        Answer::Refused(_) => println!(rt; "refused")?,
        Answer::Over => println!(rt; "over")?,
        Answer::Closed => println!(rt; "closed")?,
    }
    Ok(())
}

// The same of a notarize and a finalize of one proposal, which are written at once.
fn cast_both(
    rt: &HostRuntime,
    journal: &mut Keeper,
    proposal: Proposal<Sha256Digest>,
    byte: u8,
) -> Result<()> {
    let notarize = Subject::Notarize { proposal };
    let finalize = Subject::Finalize { proposal };
    let attestation = Attestation {
        signer: Participant(7),
        signature: [byte; 64],
    };
    match journal.write(&[
        Vote::new(notarize, attestation),
        Vote::new(finalize, attestation),
    ]) {
        Ok(()) => println!(rt; "send {byte}")?,
        Err(fault) => println!(rt; "{fault:?}")?,
    }
    Ok(())
}

// Says of which rounds the certificates on the disk are, and the first byte of each.
fn say_certificates(rt: &HostRuntime, journal: &Keeper) -> Result<()> {
    print!(rt; "certificates")?;
    for it in journal.certificates() {
        let Round { epoch, view } = it.round();
        match it.certificate() {
            [byte, ..] => print!(rt; " {}.{}.{byte}", epoch.0, view.0)?,
            [] => print!(rt; " {}.{}", epoch.0, view.0)?,
        }
    }
    println!(rt; "")?;
    Ok(())
}

// Begins a journal, also where that was begun before and came to no end.
fn begin(rt: &HostRuntime, path: &str, floor: Round) -> Result<Option<Keeper>> {
    let alloc = rt.alloc();
    let files = match open(rt, path, Unknown) {
        Ok(files) => files,
        Err(OpenError::Busy) => {
            println!(rt; "in use")?;
            return Ok(None);
        }
        Err(_) => bail!("the file can't be opened"),
    };
    let mut log = FileLog::new(alloc, files.db, files.log);
    match create_or_open(&mut log) {
        Ok(()) => begin_in(rt, log, floor),
        Err(fault) => {
            std::mem::drop(log);
            println!(rt; "{fault:?}")?;
            Ok(None)
        }
    }
}

// Makes a log, or opens the one that is there.
fn create_or_open(log: &mut FileLog<File>) -> Result<(), FileFault>
    ensures { OnOk result (⟦<FileLog<File> as Log>⟧.is_settled log.new) }
{
    match log.create(&[]) {
        Ok(()) => Ok(()),
        Err(FileFault::Taken) => log.open(),
        Err(fault) => Err(fault),
    }
}

fn begin_in(rt: &HostRuntime, log: FileLog<File>, floor: Round) -> Result<Option<Keeper>>
    requires { ⟦<FileLog<File> as Log>⟧.is_settled log }
{
    let mut log = log;
    match Keeper::begin(rt.alloc(), &mut log, &owner(), floor, b"finalization") {
        Ok(()) => open_in(rt, log, "begun"),
        Err(fault) => {
            println!(rt; "{fault:?}")?;
            Ok(None)
        }
    }
}

// Opens the journal that is in a log, and says so in these words.
fn open_in(rt: &HostRuntime, log: FileLog<File>, words: &str) -> Result<Option<Keeper>>
    requires { ⟦<FileLog<File> as Log>⟧.is_settled log }
{
    match Journal::open(rt.alloc(), log, &owner()) {
        Ok(journal) => {
            println!(rt; "{words}")?;
            Ok(Some(journal))
        }
        Err(Unopened { fault, .. }) => {
            println!(rt; "{fault:?}")?;
            Ok(None)
        }
    }
}

// The log that is at a path.
fn log_at(rt: &HostRuntime, path: &str) -> Result<Option<FileLog<File>>>
    ensures { IfOk result (λ it. IfSome it ⟦<FileLog<File> as Log>⟧.is_settled) }
{
    if !fs::exists(rt, path)? {
        println!(rt; "missing")?;
        return Ok(None);
    }
    let files = match open(rt, path, Unknown) {
        Ok(files) => files,
        Err(OpenError::Busy) => {
            println!(rt; "in use")?;
            return Ok(None);
        }
        Err(_) => bail!("the file can't be opened"),
    };
    let mut log = FileLog::new(rt.alloc(), files.db, files.log);
    match log.open() {
        Ok(()) => Ok(Some(log)),
        Err(fault) => {
            std::mem::drop(log);
            println!(rt; "{fault:?}")?;
            Ok(None)
        }
    }
}

// The journal that is at a path.
fn opened(rt: &HostRuntime, path: &str) -> Result<Option<Keeper>> {
    match log_at(rt, path)? {
        Some(log) => open_in(rt, log, "open"),
        None => Ok(None),
    }
}

// A kind and what follows it in the line.
fn subject(kind: &str, words: &mut SplitWhitespace) -> Result<Subject<Sha256Digest>> {
    let round = round(words)?;
    if kind == "nullify" {
        return Ok(Subject::Nullify { round });
    }
    let proposal = proposal_in(round, words)?;
    match kind {
        "notarize" => Ok(Subject::Notarize { proposal }),
        "finalize" => Ok(Subject::Finalize { proposal }),
        _ => bail!("{kind} is no command"),
    }
}

fn proposal(words: &mut SplitWhitespace) -> Result<Proposal<Sha256Digest>> {
    let round = round(words)?;
    proposal_in(round, words)
}

fn proposal_in(round: Round, words: &mut SplitWhitespace) -> Result<Proposal<Sha256Digest>> {
    let parent = View::new(number(words)?);
    let payload = Sha256Digest([byte(words)?; 32]);
    Ok(Proposal::new(round, parent, payload))
}

fn round(words: &mut SplitWhitespace) -> Result<Round> {
    let epoch = Epoch::new(number(words)?);
    Ok(Round::new(epoch, View::new(number(words)?)))
}

fn number(words: &mut SplitWhitespace) -> Result<u64> {
    match word(words)?.parse::<u64>() {
        Ok(number) => Ok(number),
        Err(_) => bail!("a number is wanted"),
    }
}

fn byte(words: &mut SplitWhitespace) -> Result<u8> {
    match word(words)?.parse::<u8>() {
        Ok(byte) => Ok(byte),
        Err(_) => bail!("a byte is wanted"),
    }
}

fn word<'a>(words: &mut SplitWhitespace<'a>) -> Result<&'a str> {
    match words.next() {
        Some(word) => Ok(word),
        None => bail!("a word is missing"),
    }
}
