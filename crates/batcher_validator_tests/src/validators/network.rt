//! Four validators that hear each other, of which one is stopped and goes on by its disk.

ghost use Rattle.std.specs.Prelude.{◌<◌};

use super::*;

// What a validator sends to all others.
#[derive(Drop)]
enum Message {
    Vote(TestVote),
    Certificate(TestCertificate),
}

// A validator in a network, which does what is to be done.
#[derive(Drop)]
struct Member {
    station: Station,
    outbox: Vec<Message>,
    // The view of the last proposal that was given as final.
    last: u64,
    // Whether proposals were given as final by ascending views.
    ascends: bool,
    // The view that it is in, and for how many turns it was.
    view: u64,
    waits: usize,
}

impl Member {
    fn new(rt: &impl Abort, alloc: Global, me: u32) -> Result<Self, Fail>
        requires { me < 4 }
    {
        Ok(Member {
            station: Station::new(rt, alloc, me)?,
            outbox: Vec::new(alloc),
            last: 0,
            ascends: true,
            view: 0,
            waits: 0,
        })
    }

    // It ends, and is started by its disk alone. What it was about to send is lost.
    fn restarted(self, rt: &impl Abort, alloc: Global) -> Result<Self, Fail> {
        let Member { station, last, .. } = self;
        let mut member = Member {
            station: station.restarted(rt, alloc)?,
            outbox: Vec::new(alloc),
            last: 0,
            ascends: true,
            view: 0,
            waits: 0,
        };
        match member.settle(rt) {
            Ok(()) => {}
            Err(fail) => {
                drop(member);
                return Err(fail);
            }
        }
        // What was final is known from the disk.
        assert_eq!(rt; member.last, last);
        Ok(member)
    }

    // Does what is to be done, until nothing is.
    fn settle(&mut self, rt: &impl Abort) -> Result<(), Fail> {
        for _ in 0..200 {
            match self.station.poll() {
                Ok(Some(task)) => self.perform(rt, task)?,
                Ok(None) => return Ok(()),
                Err(_) => return Err(Fail::new("the disk or memory failed")),
            }
        }
        Err(Fail::new("it never rests"))
    }

    fn perform(&mut self, rt: &impl Abort, task: TestTask) -> Result<(), Fail> {
        match task {
            Task::Block(_, _) => panic!(rt; "somebody honest is blocked"),
            Task::Final(proposal) => {
                if proposal.round.view.0 <= self.last {
                    self.ascends = false;
                }
                self.last = proposal.round.view.0;
            }
            Task::SendVote(vote) => self.outbox.push(Message::Vote(vote))?,
            // Nobody has a payload.
            Task::Forward(_) => {}
            Task::SendCertificate(kind, round) => {
                if let Some(it) = self.station.copied(kind, round)? {
                    self.outbox.push(Message::Certificate(it))?;
                }
            }
            Task::Enter(view) => {
                assert!(rt; self.station.enters(view, (view.0 % 4) as u32));
                self.view = view.0;
                self.waits = 0;
            }
            Task::Verify => {
                let _ = self.station.construct()?;
            }
            Task::Cast(vote) => assert!(rt; self.station.try_cast(vote.subject())),
            Task::Sign(subject) => assert!(rt; self.station.try_cast(subject)),
            Task::Propose { view, parent } => {
                self.station.propose(view, parent);
            }
            Task::Judge(proposal) => self.station.judge(&proposal, true),
        }
        Ok(())
    }

    // A turn has passed. A view that takes too long is given up, and what was sent is sent again.
    fn wait(&mut self) {
        self.waits = self.waits.saturating_add(1);
        if self.waits % 4 == 0 {
            self.station.expire(self.view);
            self.station.send_again();
        }
    }

    fn hear(&mut self, peer: u32, message: &Message) -> Result<(), Fail> {
        match message {
            Message::Vote(vote) => {
                self.station.receive_vote(peer, *vote)?;
            }
            Message::Certificate(certificate) => {
                let copy = certificate.clone()?;
                let view = copy.round().view.0;
                if self.station.looks_at(view) {
                    let _ = self.station.receive(peer, copy)?;
                } else {
                    let _ = self.station.catch_up(peer, copy)?;
                }
            }
        }
        Ok(())
    }
}

#[test]
fn a_network_goes_on(rt: HostRuntime) -> Result<(), Fail> {
    let alloc = rt.alloc();
    let mut members = Vec::new(alloc);
    for me in 0..4u32 {
        members.push(Member::new(&rt, alloc, me)?)?;
    }
    run(&rt, alloc, &mut members, 12)?;
    // One is stopped, and started by its disk alone. The others go on meanwhile.
    let stopped = match members.pop() {
        Some(member) => member,
        None => return Err(Fail::new("nobody is there")),
    };
    match run(&rt, alloc, &mut members, 24) {
        Ok(()) => {}
        Err(fail) => {
            drop(stopped);
            return Err(fail);
        }
    }
    members.push(stopped.restarted(&rt, alloc)?)?;
    run(&rt, alloc, &mut members, 12)?;
    let mut lowest = u64::MAX;
    for member in members.as_slice() {
        assert!(rt; member.ascends);
        lowest = lowest.min(member.last);
    }
    assert!(rt; lowest >= 24);
    Ok(())
}

// So many times what was sent comes to all others.
fn run(
    rt: &impl Abort,
    alloc: Global,
    members: &mut Vec<Member>,
    times: usize,
) -> Result<(), Fail> {
    for _ in 0..times {
        for from in 0..members.len() {
            let sent = match members.get_mut(from) {
                Some(member) => {
                    member.wait();
                    member.settle(rt)?;
                    std::mem::replace(&mut member.outbox, Vec::new(alloc))
                }
                None => Vec::new(alloc),
            };
            let peer = match members.get(from) {
                Some(member) => member.station.me,
                None => 0,
            };
            for to in 0..members.len() {
                if let Some(member) = members.get_mut(to) {
                    if member.station.me != peer {
                        for message in sent.as_slice() {
                            member.hear(peer, message)?;
                        }
                        member.settle(rt)?;
                    }
                }
            }
        }
    }
    Ok(())
}
