//! A life, played.

ghost use Rattle.std.specs.Prelude.{◌≡◌, [], All, List, ℕ};
ghost use Rattle.batcher_bytes.specs.Messages.{vote_format};
ghost use Rattle.batcher_journal.specs.Contradictions.{AreCompatible, AreSignedOnce};
ghost use Rattle.batcher_journal.specs.Lives.{IsKept};
ghost use Rattle.batcher_journal.specs.Text.{Contents, IsText};
ghost use Rattle.batcher_lives.specs.Living.{IsLived, LeadsToOpen, IsShut};
ghost use Rattle.batcher_types.specs.declared.positions.Round.{Round};

use crate::deeds::{Deed, Lived, Place};
use crate::restart::Restart;
use batcher_bytes::{Codec, Log};
use batcher_journal::{
    Answer, Journal, Owner, Unopened, bytes_are_of_one_journal, handed_out_never_contradict,
};
use batcher_types::messages::{Digest, Subject, Vote};
use batcher_types::positions::Round;
use std::alloc::Global;

// Asks about a subject. A vote that is known is handed out.
fn ask<G: Codec, D: Digest + Codec, L: Log>(
    journal: &Journal<G, D, L>,
    handed: &mut Vec<Vote<G, D>>,
    subject: &Subject<D>,
)
    ensures { (floor : Round)
        → LeadsToOpen (vote_format G.format D.format) D.eq L.is_honest L.may_leave floor journal.now
        handed.old.items
        → LeadsToOpen (vote_format G.format D.format) D.eq L.is_honest L.may_leave floor journal.now
        handed.new.items }
{
    match journal.ask(subject) {
        Answer::Known(vote) => match handed.push(vote) {
            Ok(()) => {}
            Err(_) => {}
        },
        _ => {}
    }
}

// Writes votes, which are handed out where that went well.
fn write<G: Codec, D: Digest + Codec, L: Log>(
    journal: &mut Journal<G, D, L>,
    handed: &mut Vec<Vote<G, D>>,
    votes: &[Vote<G, D>],
)
    ensures { (floor : Round)
        → LeadsToOpen (vote_format G.format D.format) D.eq L.is_honest L.may_leave floor journal.old
        handed.old.items
        → LeadsToOpen (vote_format G.format D.format) D.eq L.is_honest L.may_leave floor journal.new
        handed.new.items }
{
    bytes_are_of_one_journal::<G, D>();
    let len = handed.len();
    match handed.extend_from_slice(votes) {
        Ok(()) => {}
        Err(_) => return,
    }
    match journal.write(votes) {
        Ok(()) => {}
        Err(_) => handed.truncate(len),
    }
}

// Raises the floor, of this epoch or of one that begins.
fn raise<G: Codec, D: Digest + Codec, L: Log>(
    journal: &mut Journal<G, D, L>,
    owner: Option<&Owner>,
    to: Round,
    finalization: &[u8],
)
    ensures { (floor : Round) (handed : List _)
        → LeadsToOpen (vote_format G.format D.format) D.eq L.is_honest L.may_leave floor journal.old
        handed
        → LeadsToOpen (vote_format G.format D.format) D.eq L.is_honest L.may_leave floor journal.new
        handed }
{
    bytes_are_of_one_journal::<G, D>();
    match owner {
        Some(owner) => match journal.begin_epoch(owner, to, finalization) {
            Ok(()) => {}
            Err(_) => {}
        },
        None => match journal.raise_floor(to, finalization) {
            Ok(()) => {}
            Err(_) => {}
        },
    }
}

// The power goes and comes back, and the journal is opened.
fn restart<G: Codec, D: Digest + Codec, L: Restart>(
    alloc: Global,
    place: Place<G, D, L>,
    owner: &Owner,
) -> Place<G, D, L>
    ensures { (floor : Round) (handed : List _)
        → IsLived (vote_format G.format D.format) D.eq L.is_honest L.may_leave floor place handed
        → IsLived (vote_format G.format D.format) D.eq L.is_honest L.may_leave floor result handed }
{
    bytes_are_of_one_journal::<G, D>();
    let mut log = shut(place);
    match log.restart() {
        Ok(()) => match Journal::open(alloc, log, owner) {
            Ok(journal) => Place::Open(journal),
            Err(Unopened { log, .. }) => Place::Shut(log),
        },
        Err(_) => Place::Shut(log),
    }
}

// The log in which a journal is.
fn shut<G: Codec, D: Digest + Codec, L: Log>(place: Place<G, D, L>) -> L
    ensures { (floor : Round) (handed : List _)
        → IsLived (vote_format G.format D.format) D.eq L.is_honest L.may_leave floor place handed
        → IsShut (vote_format G.format D.format) D.eq L.is_honest L.may_leave floor result handed }
{
    match place {
        Place::Open(journal) => {
            bytes_are_of_one_journal::<G, D>();
            // What an open journal has is on the disk.
            let _ = journal.is_open();
            journal.into_log()
        }
        Place::Shut(log) => log,
    }
}

// One deed with a journal that is open.
fn act<G: Codec, D: Digest + Codec, L: Log>(
    journal: &mut Journal<G, D, L>,
    handed: &mut Vec<Vote<G, D>>,
    deed: &Deed<G, D>,
)
    ensures { (floor : Round)
        → LeadsToOpen (vote_format G.format D.format) D.eq L.is_honest L.may_leave floor journal.old
        handed.old.items
        → LeadsToOpen (vote_format G.format D.format) D.eq L.is_honest L.may_leave floor journal.new
        handed.new.items }
{
    match deed {
        Deed::Ask(subject) => ask(journal, handed, subject),
        Deed::Write(votes) => write(journal, handed, votes),
        Deed::Keep(round, certificate) => match journal.keep(*round, certificate) {
            Ok(()) => {}
            Err(_) => {}
        },
        Deed::Raise(floor, finalization) => raise(journal, None, *floor, finalization),
        Deed::BeginEpoch(owner, floor, finalization) => {
            raise(journal, Some(owner), *floor, finalization)
        }
        Deed::Restart(_) => {}
    }
}

// One deed.
fn go_on<G: Codec, D: Digest + Codec, L: Restart>(
    alloc: Global,
    place: Place<G, D, L>,
    handed: &mut Vec<Vote<G, D>>,
    deed: &Deed<G, D>,
) -> Place<G, D, L>
    ensures { (floor : Round)
        → IsLived (vote_format G.format D.format) D.eq L.is_honest L.may_leave floor place
        handed.old.items
        → IsLived (vote_format G.format D.format) D.eq L.is_honest L.may_leave floor result
        handed.new.items }
{
    match deed {
        Deed::Restart(owner) => restart(alloc, place, owner),
        _ => match place {
            Place::Open(journal) => {
                let mut journal = journal;
                act(&mut journal, handed, deed);
                Place::Open(journal)
            }
            Place::Shut(log) => Place::Shut(log),
        },
    }
}

/// Begins a journal in a log without bytes, and plays a life: one deed after another. No two votes
/// that were handed out contradict each other, none of one subject has two signatures, and each is
/// on the disk, unless its round is over.
pub fn live<G: Codec, D: Digest + Codec, L: Restart>(
    alloc: Global,
    log: L,
    owner: &Owner,
    floor: Round,
    finalization: &[u8],
    deeds: &[Deed<G, D>],
) -> Lived<G, D, L>
    requires settled { L.is_settled log }
    requires empty { L.written log ≡ [] }
    ensures compatible { L.is_honest result.log → AreCompatible D.eq result.handed.items }
    ensures once { L.is_honest result.log → AreSignedOnce D.eq result.handed.items }
    ensures kept { L.is_honest result.log → (left : List ℕ) → L.may_leave result.log left
        → (contents : Contents G D) → IsText (vote_format G.format D.format) left contents
        → All (IsKept contents.floor contents.votes) result.handed.items }
{
    handed_out_never_contradict::<G, D>();
    let mut handed = Vec::new(alloc);
    let mut place = first::<G, D, L>(alloc, log, owner, floor, finalization);
    for deed in deeds {
        place = go_on(alloc, place, &mut handed, deed);
    }
    Lived {
        handed,
        log: shut(place),
    }
}

// A journal that was just begun.
fn first<G: Codec, D: Digest + Codec, L: Log>(
    alloc: Global,
    log: L,
    owner: &Owner,
    floor: Round,
    finalization: &[u8],
) -> Place<G, D, L>
    requires settled { L.is_settled log }
    requires empty { L.written log ≡ [] }
    ensures { IsLived (vote_format G.format D.format) D.eq L.is_honest L.may_leave floor result [] }
{
    bytes_are_of_one_journal::<G, D>();
    let mut log = log;
    match Journal::<G, D, L>::begin(alloc, &mut log, owner, floor, finalization) {
        Ok(()) => match Journal::open(alloc, log, owner) {
            Ok(journal) => Place::Open(journal),
            Err(Unopened { log, .. }) => Place::Shut(log),
        },
        Err(_) => Place::Shut(log),
    }
}
