//! A log in memory, for whoever writes it down elsewhere.

ghost use Rattle.std.specs.Option.{option_map};
ghost use Rattle.std.specs.Prelude.{◌≡◌, ◌≢◌, ◌++◌, [], IfOk, IfSome, MatchBool, None};
ghost use Rattle.batcher_bytes.specs.Copies.{is_done_in, is_given};

use crate::{Log, LogFault};
use std::alloc::{AllocError, Global};
use std::marker::Model;

/// What a copy lacks.
#[derive(Clone, Copy, Debug)]
pub struct Owed<'a> {
    /// Whether the bytes take the place of all that are there. Else they come behind them.
    pub replaces: bool,
    pub bytes: &'a [u8],
}

/// Bytes in memory of which somebody else keeps a copy, to which he writes. They are taken to
/// outlive a crash, so the copy is brought up to date before anything is done that rests on them.
///
/// One write is under way at a time: what comes meanwhile is given with the next one.
#[derive(Drop)]
pub struct CopiedLog {
    bytes: Vec<u8>,
    // How many of them the copy has, ..
    copied: usize,
    // .. unless it has others.
    others: Option<Vec<u8>>,
    // The number of the write that is under way.
    under_way: Option<u64>,
    // How many of the bytes the copy has by that write, ..
    given: usize,
    // .. unless it has others then.
    between: Option<Vec<u8>>,
}

impl Model for CopiedLog {
    ghost use Rattle.std.specs.Option.{option_map};
    ghost use Rattle.std.specs.Prelude.{◌≤◌, length};
    ghost use Rattle.batcher_bytes.specs.Copies.{CopiedView, copy_in};

    ghost Value = { CopiedView };

    ghost view = { λ l. record {
      bytes = l.bytes.items;
      copy = record {
        lasting = copy_in (option_map (λ v. v.items) l.others) l.copied l.bytes.items;
        under_way = option_map (λ number.
            (number, copy_in (option_map (λ v. v.items) l.between) l.given l.bytes.items))
            l.under_way;
      };
    } };

    ghost invariant = { λ l. (l.copied ≤ length l.bytes.items)
        × (l.given ≤ length l.bytes.items) };
}

impl CopiedLog {
    /// No bytes, and nobody has any.
    pub fn new(alloc: Global) -> Self
        ensures bytes { result.bytes ≡ [] }
        ensures copy { result.copy ≡ record { lasting = []; under_way = None } }
    {
        CopiedLog {
            bytes: Vec::new(alloc),
            copied: 0,
            others: None,
            under_way: None,
            given: 0,
            between: None,
        }
    }

    /// Bytes of which there is a copy.
    pub fn of(bytes: Vec<u8>) -> Self
        ensures bytes { result.bytes ≡ bytes.items }
        ensures copy { result.copy ≡ record { lasting = bytes.items; under_way = None } }
    {
        let copied = bytes.len();
        CopiedLog {
            bytes,
            copied,
            others: None,
            under_way: None,
            given: 0,
            between: None,
        }
    }

    /// Whether the copy lacks something.
    pub fn owes(&self) -> bool
        ensures { MatchBool result (self.now.copy.lasting ≢ self.now.bytes)
            (self.now.copy.lasting ≡ self.now.bytes) }
    {
        match &self.others {
            Some(others) => *others != self.bytes,
            None => self.copied != self.bytes.len(),
        }
    }

    /// The number of the write that is under way.
    pub fn under_way(&self) -> Option<u64>
        ensures { result ≡ option_map (λ it. it.0) self.now.copy.under_way }
    {
        self.under_way
    }

    /// What the copy lacks, where no write is under way.
    pub fn owed(&self) -> Option<Owed<'_>>
        ensures some { IfSome result (λ owed. MatchBool owed.replaces
            (owed.bytes.now ≡ self.now.bytes)
            (self.now.copy.lasting ++ owed.bytes.now ≡ self.now.bytes)) }
        ensures lacks { IfSome result (λ owed. self.now.copy.lasting ≢ self.now.bytes) }
        ensures waits { IfSome result (λ owed. self.now.copy.under_way ≡ None) }
        ensures none { result ≡ None → self.now.copy.under_way ≡ None
            → self.now.copy.lasting ≡ self.now.bytes }
    {
        match self.under_way {
            Some(_) => None,
            None => self.lacking(),
        }
    }

    // What the copy lacks.
    fn lacking(&self) -> Option<Owed<'_>>
        ensures some { IfSome result (λ owed. MatchBool owed.replaces
            (owed.bytes.now ≡ self.now.bytes)
            (self.now.copy.lasting ++ owed.bytes.now ≡ self.now.bytes)) }
        ensures lacks { IfSome result (λ owed. self.now.copy.lasting ≢ self.now.bytes) }
        ensures none { result ≡ None → self.now.copy.lasting ≡ self.now.bytes }
    {
        if !self.owes() {
            return None;
        }
        match self.others {
            Some(_) => Some(Owed {
                replaces: true,
                bytes: &self.bytes,
            }),
            None => Some(Owed {
                replaces: false,
                bytes: &self.bytes[self.copied..],
            }),
        }
    }

    /// A write of all that the copy lacks is under way, by this number.
    pub fn note_given(&mut self, number: u64)
        ensures { self.new ≡ is_given number self.old }
    {
        self.under_way = Some(number);
        self.given = self.bytes.len();
        self.between = None;
    }

    /// The write that was under way is done: the copy has what it had then, and no more.
    pub fn note_done(&mut self)
        ensures { self.new ≡ is_done_in self.old }
    {
        match self.under_way {
            Some(_) => {
                self.copied = self.given;
                self.others = self.between.take();
                self.under_way = None;
            }
            None => {}
        }
    }

    // What the write that is under way leaves, on its own.
    fn given(&self) -> Result<Option<Vec<u8>>, AllocError>
        ensures { IfOk result (λ kept. option_map (λ v. v.items) kept
            ≡ option_map (λ it. it.1) self.now.copy.under_way) }
    {
        match self.under_way {
            Some(_) => {
                let mut kept = Vec::new(*self.bytes.allocator());
                kept.extend_from_slice(self.given_bytes())?;
                Ok(Some(kept))
            }
            None => Ok(None),
        }
    }

    fn given_bytes(&self) -> &[u8]
        ensures { IfSome self.now.copy.under_way (λ it. result.now ≡ it.1) }
    {
        match &self.between {
            Some(between) => between,
            None => &self.bytes[..self.given],
        }
    }

    // Other bytes take the place of all. The copy stays, and so does what is under way.
    fn put(&mut self, bytes: Vec<u8>, kept: Option<Vec<u8>>)
        requires { option_map (λ v. v.items) kept
            ≡ option_map (λ it. it.1) self.old.copy.under_way }
        ensures bytes { self.new.bytes ≡ bytes.items }
        ensures copy { self.new.copy ≡ self.old.copy }
    {
        let mut before = std::mem::replace(&mut self.bytes, bytes);
        match self.others {
            Some(_) => {}
            None => {
                // A copy without bytes has the first of any.
                if self.copied > 0 {
                    before.truncate(self.copied);
                    self.others = Some(before);
                }
            }
        }
        self.copied = 0;
        self.between = kept;
        self.given = 0;
    }
}

impl Log for CopiedLog {
    ghost use Rattle.std.proofs.Common.{refl};

    ghost written = { λ log. log.bytes };

    ghost is_settled = { λ log. Unit {0} };

    ghost may_leave = { λ log left. left ≡ log.bytes };

    ghost may_lose = { λ log. ⊥ };

    ghost is_honest = { λ log. Unit {0} };

    ghost has_failed = { λ log. ⊥ };

    // Memory alone bounds it.
    ghost is_full = { λ log bytes. ⊥ };

    ghost is_too_small = { λ log bytes. ⊥ };

    ghost is_copied_as = { λ log copy. log.copy ≡ copy };

    ghost settled = { λ log left honest settled may. may };

    ghost kept = { λ log honest settled lose. lose };

    ghost stays = { λ log honest settled. refl };

    fn append(&mut self, bytes: &[u8]) -> Result<(), LogFault> {
        match self.bytes.extend_from_slice(bytes) {
            Ok(()) => Ok(()),
            Err(_) => Err(LogFault::OutOfMemory),
        }
    }

    fn replace(&mut self, bytes: &[u8]) -> Result<(), LogFault> {
        let mut others = Vec::new(*self.bytes.allocator());
        match others.extend_from_slice(bytes) {
            Ok(()) => match self.given() {
                Ok(kept) => {
                    self.put(others, kept);
                    Ok(())
                }
                Err(_) => Err(LogFault::OutOfMemory),
            },
            Err(_) => Err(LogFault::OutOfMemory),
        }
    }

    fn bytes(&self) -> &[u8] {
        &self.bytes
    }
}
