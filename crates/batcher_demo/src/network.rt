//! The network: how messages are delayed, brought out of their order, repeated and lost, what the
//! faulty ones send instead of what they should, and who is stopped and started again.

use crate::record::Record;
use crate::roles::{Role, foreign, forged, giving_up, groundless, role_of, signed, spoiled};
use crate::station::{AnyVote, DemoScheme, Station, numbered};
use crate::validator::{Message, VALIDATORS, Validator, leader_of, proposed};
use crate::witness::{Posted, Witness};
use anyhow::Result;
use batcher::messages::{Sha256Digest, Subject};
use batcher::scheme::{Keyed, names};
use rand_core::Rng;
use rand_pcg::Pcg32;
use std::alloc::{AllocError, Global};
use std::mem;
use std::rc::Rc;

/// A message takes at most so many steps.
pub(crate) const SLOWEST: u32 = 3;
// Long enough for each view to be given up.
const STEPS: usize = 320;
// Which of 8 messages comes twice.
const REPEATED: u32 = 8;
// So far beyond its own view are the views that a flood names.
const FAR: u64 = 1000;
// A forged certificate goes to one of so many validators.
const SPARED: u32 = 8;
// A repeated vote comes with so many of those before it.
const EARLIER: usize = 8;
// In one of so many steps validators are stopped, from the first of them on.
const STOPS: u64 = 40;

const FIRST_STOP: u64 = 10;
// The honest validator that is stopped where one is.
const STOPPED: u32 = 7;

/// Who is stopped, and started again by its disk alone. What is on its way to it is lost.
#[derive(Clone, Copy, Debug, PartialEq, Eq)]
pub(crate) enum Stops {
    Nobody,
    /// One honest validator.
    One,
    /// All of them in one step.
    All,
    /// Each of them, in a step of its own.
    Each,
}

/// Who is stopped in the network of a seed.
pub(crate) fn stops_of(seed: u64) -> Stops {
    match seed / 8 % 4 {
        0 => Stops::Nobody,
        1 => Stops::One,
        2 => Stops::All,
        _ => Stops::Each,
    }
}

// In which step a validator is stopped, if it is.
fn stop_of(seed: u64, validator: u32) -> Option<usize> {
    let step = match stops_of(seed) {
        Stops::Nobody => return None,
        Stops::One if validator != STOPPED => return None,
        Stops::One | Stops::All => seed,
        Stops::Each => seed.saturating_add(u64::from(validator).saturating_mul(7)),
    };
    Some((FIRST_STOP + step % STOPS) as usize)
}

// A message on its way.
#[derive(Clone, Copy)]
struct Delivery {
    to: u32,
    from: u32,
    // Where it is among all that were posted.
    message: usize,
}

#[derive(Drop)]
pub(crate) struct Network {
    alloc: Global,
    pub(crate) seed: u64,
    rng: Pcg32,
    scheme: Rc<DemoScheme>,
    pub(crate) validators: Vec<Validator>,
    pub(crate) witnesses: Vec<Witness>,
    pub(crate) records: Vec<Record>,
    posted: Vec<Posted>,
    // Where the votes are that one validator repeats.
    repeated: Vec<usize>,
    // What comes at each step.
    calendar: Vec<Vec<Delivery>>,
    /// The steps until nothing was on its way any more.
    pub(crate) steps: usize,
    /// The highest view that a validator was in when one was stopped.
    pub(crate) stopped_in: u64,
    // Whom honest ones had blocked before they were stopped.
    caught: Vec<u32>,
}

/// Plays a network to its end.
pub(crate) fn play(alloc: Global, seed: u64) -> Result<Network> {
    let mut network = begin(alloc, seed)?;
    match network.run() {
        Ok(()) => Ok(network),
        Err(fault) => {
            drop(network);
            Err(fault)
        }
    }
}

fn begin(alloc: Global, seed: u64) -> Result<Network> {
    let participants = names(alloc, VALIDATORS)?;
    let scheme = Rc::new(alloc, Keyed::new(participants, [16; 32]))?;
    let mut validators = Vec::new(alloc);
    let mut witnesses = Vec::new(alloc);
    let mut records = Vec::new(alloc);
    for me in 0..VALIDATORS {
        let station = Station::new(alloc, scheme.clone()?, me)?;
        validators.push(Validator::new(alloc, station, me)?)?;
        witnesses.push(Witness::new(alloc)?)?;
        records.push(Record::new(alloc)?)?;
    }
    let mut calendar = Vec::new(alloc);
    for _ in 0..STEPS {
        calendar.push(Vec::new(alloc))?;
    }
    Ok(Network {
        alloc,
        seed,
        rng: Pcg32::new(seed, 16),
        scheme,
        validators,
        witnesses,
        records,
        posted: Vec::new(alloc),
        repeated: Vec::new(alloc),
        calendar,
        steps: 0,
        stopped_in: 0,
        caught: Vec::new(alloc),
    })
}

impl Network {
    /// The role of a validator.
    pub(crate) fn role(&self, validator: u32) -> Role {
        role_of(self.seed, validator)
    }

    fn run(&mut self) -> Result<()> {
        for now in 0..STEPS {
            for me in 0..VALIDATORS {
                if stop_of(self.seed, me) == Some(now) {
                    self.restart(now, me)?;
                }
            }
            let mut due = self.take_due(now);
            if !due.is_empty() {
                self.steps = now;
            }
            shuffle(&mut self.rng, due.as_mut_slice());
            for delivery in due.as_slice() {
                self.deliver(now, *delivery)?;
            }
            for me in 0..VALIDATORS {
                self.let_wait(now, me)?;
            }
        }
        Ok(())
    }

    fn take_due(&mut self, now: usize) -> Vec<Delivery> {
        match self.calendar.get_mut(now) {
            Some(due) => mem::replace(due, Vec::new(self.alloc)),
            None => Vec::new(self.alloc),
        }
    }

    fn deliver(&mut self, now: usize, delivery: Delivery) -> Result<()> {
        let to = delivery.to as usize;
        let role = self.role(delivery.from);
        if let Some(posted) = self.posted.get_mut(delivery.message) {
            if let Some(validator) = self.validators.get_mut(to) {
                if let Some(witness) = self.witnesses.get_mut(to) {
                    witness.attend(now, validator, delivery.from, role, posted)?;
                }
            }
        }
        self.post(now, delivery.to)
    }

    fn let_wait(&mut self, now: usize, me: u32) -> Result<()> {
        if let Some(validator) = self.validators.get_mut(me as usize) {
            validator.wait(now)?;
            if let Some(witness) = self.witnesses.get_mut(me as usize) {
                witness.look(validator);
            }
        }
        self.post(now, me)
    }

    // A validator is stopped, and started again. What is on its way to it is lost.
    fn restart(&mut self, now: usize, me: u32) -> Result<()> {
        for due in self.calendar.as_mut_slice() {
            due.retain(move |delivery| delivery.to != me);
        }
        for posted in self.posted.as_mut_slice() {
            posted.forget(me);
        }
        if let Some(witness) = self.witnesses.get_mut(me as usize) {
            witness.forget();
        }
        self.note_caught(me)?;
        let place = me as usize;
        if place < self.validators.len() {
            let validator = self.validators.remove(place);
            self.stopped_in = self.stopped_in.max(validator.current);
            let again = validator.restarted(self.alloc, now)?;
            self.validators.insert(place, again)?;
        }
        self.post(now, me)
    }

    // Notes whom an honest one has blocked.
    fn note_caught(&mut self, me: u32) -> Result<(), AllocError> {
        if self.role(me) == Role::Honest {
            if let Some(validator) = self.validators.get(me as usize) {
                for block in validator.blocks.as_slice() {
                    self.caught.push(block.peer)?;
                }
            }
        }
        Ok(())
    }

    /// Whether an honest one had blocked the peer before it was stopped.
    pub(crate) fn was_caught(&self, peer: u32) -> bool {
        self.caught.contains(&peer)
    }

    // Sends what the validator has to send, as its role has it.
    fn post(&mut self, now: usize, me: u32) -> Result<()> {
        for message in self.take_outbox(me) {
            if let Some(witness) = self.witnesses.get_mut(me as usize) {
                witness.note(me, &message);
            }
            if let Some(record) = self.records.get_mut(me as usize) {
                record.note(&message);
            }
            self.post_one(now, me, message)?;
        }
        Ok(())
    }

    fn post_one(&mut self, now: usize, me: u32, message: Message) -> Result<()> {
        let role = self.role(me);
        let Message::Vote(vote) = message else {
            if role != Role::Silent {
                self.send_all(now, me, message)?;
            }
            return Ok(());
        };
        match role {
            Role::Silent => {}
            Role::SignsBadly => self.send_all(now, me, Message::Vote(spoiled(&vote)))?,
            Role::Equivocates => self.equivocate(now, me, vote)?,
            Role::Builds => self.build(now, me, vote)?,
            Role::Honest => self.send_all(now, me, Message::Vote(vote))?,
            Role::Floods => {
                self.send_all(now, me, Message::Vote(vote))?;
                let far = self.far_vote(me, vote.round().view.0);
                self.send_all(now, me, Message::Vote(far))?;
                let certificate = foreign(self.alloc, &far);
                self.send_some(now, me, Message::Certificate(certificate))?;
            }
            Role::Forges => {
                self.send_all(now, me, Message::Vote(vote))?;
                let certificate = forged(self.alloc, &vote)?;
                self.send_some(now, me, Message::Certificate(certificate))?;
            }
            Role::Repeats => {
                self.repeated.push(self.posted.len())?;
                self.send_all(now, me, Message::Vote(vote))?;
                self.repeat(now, me)?;
            }
            Role::Contradicts => {
                self.send_all(now, me, Message::Vote(vote))?;
                if let Subject::Finalize { .. } = vote.subject() {
                    let other = giving_up(&self.scheme, me, &vote);
                    self.send_all(now, me, Message::Vote(other))?;
                }
            }
        }
        Ok(())
    }

    fn take_outbox(&mut self, me: u32) -> Vec<Message> {
        match self.validators.get_mut(me as usize) {
            Some(validator) => mem::replace(&mut validator.outbox, Vec::new(self.alloc)),
            None => Vec::new(self.alloc),
        }
    }

    fn send_all(&mut self, now: usize, from: u32, message: Message) -> Result<(), AllocError> {
        let place = self.posted.len();
        self.posted.push(Posted::new(message))?;
        self.send_posted(now, from, place)
    }

    fn send_posted(&mut self, now: usize, from: u32, message: usize) -> Result<(), AllocError> {
        for to in 0..VALIDATORS {
            if to != from {
                self.send(now, from, to, message)?;
            }
        }
        Ok(())
    }

    // Sends a message to a few, so that it isn't seen by all at once.
    fn send_some(&mut self, now: usize, from: u32, message: Message) -> Result<(), AllocError> {
        let place = self.posted.len();
        self.posted.push(Posted::new(message))?;
        for to in 0..VALIDATORS {
            if to != from && below(&mut self.rng, SPARED) == 0 {
                self.send(now, from, to, place)?;
            }
        }
        Ok(())
    }

    // Sends the last few votes again.
    fn repeat(&mut self, now: usize, me: u32) -> Result<(), AllocError> {
        let sent = self.repeated.len();
        for place in sent.saturating_sub(EARLIER)..sent {
            if let Some(message) = self.repeated.get(place).copied() {
                self.send_posted(now, me, message)?;
            }
        }
        Ok(())
    }

    // One of a few messages comes twice.
    fn send(&mut self, now: usize, from: u32, to: u32, message: usize) -> Result<(), AllocError> {
        let delivery = Delivery { to, from, message };
        self.schedule(now, delivery)?;
        if below(&mut self.rng, REPEATED) == 0 {
            self.schedule(now, delivery)?;
        }
        Ok(())
    }

    fn schedule(&mut self, now: usize, delivery: Delivery) -> Result<(), AllocError> {
        let delay = below(&mut self.rng, SLOWEST).saturating_add(1);
        match self.calendar.get_mut(now.saturating_add(delay as usize)) {
            Some(due) => due.push(delivery)?,
            None => {}
        }
        Ok(())
    }

    // A vote of a view far beyond the one of the vote that it goes with.
    fn far_vote(&mut self, me: u32, view: u64) -> AnyVote {
        let beyond = FAR.saturating_add(u64::from(below(&mut self.rng, VALIDATORS)));
        let round = numbered(view.saturating_add(beyond));
        signed(&self.scheme, me, Subject::Nullify { round })
    }

    // In its own view it sends some validators its proposal, others another, and some both.
    fn equivocate(&mut self, now: usize, me: u32, vote: AnyVote) -> Result<(), AllocError> {
        let Subject::Notarize { proposal } = vote.subject() else {
            return self.send_all(now, me, Message::Vote(vote));
        };
        let view = proposal.round.view.0;
        if leader_of(view) != me {
            return self.send_all(now, me, Message::Vote(vote));
        }
        let proposal = proposed(view, proposal.parent.0, b'b');
        let second = signed(&self.scheme, me, Subject::Notarize { proposal });
        let place = self.posted.len();
        self.posted.push(Posted::new(Message::Vote(vote)))?;
        self.posted.push(Posted::new(Message::Vote(second)))?;
        for to in 0..VALIDATORS {
            if to != me {
                let choice = below(&mut self.rng, 3);
                if choice != 1 {
                    self.send(now, me, to, place)?;
                }
                if choice != 0 {
                    self.send(now, me, to, place.saturating_add(1))?;
                }
            }
        }
        Ok(())
    }

    // In its own view it proposes what has no ground.
    fn build(&mut self, now: usize, me: u32, vote: AnyVote) -> Result<(), AllocError> {
        let sent = match vote.subject() {
            Subject::Notarize { proposal } if leader_of(proposal.round.view.0) == me => {
                let proposal = groundless(&proposal);
                signed(&self.scheme, me, Subject::Notarize { proposal })
            }
            _ => vote,
        };
        self.send_all(now, me, Message::Vote(sent))
    }
}

// A number below the bound, which isn't 0.
fn below(rng: &mut Pcg32, bound: u32) -> u32 {
    rng.next_u32() % bound.max(1)
}

fn shuffle(rng: &mut Pcg32, due: &mut [Delivery]) {
    for last in (1..due.len()).rev() {
        due.swap(last, rng.next_u32() as usize % (last + 1));
    }
}
