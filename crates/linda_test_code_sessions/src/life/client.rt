//! Client of a life: what it knows, and what it says next.

use super::random::Random;
use super::said::{Asked, OFFER, REFUSED, Said, Told, WELCOME};
use linda_wire::VERSION;
use std::alloc::{AllocError, Global};

/// How far a client is on its connection.
#[derive(Clone, Copy)]
enum Stage {
    /// It said nothing, or was refused.
    Silent,
    /// It greeted, and was not answered.
    Greeting,
    /// It is welcome.
    Open,
    /// It said that it leaves.
    Leaving,
}

/// What a client knows.
#[derive(Drop)]
pub(super) struct Client {
    pub(super) number: u32,
    stage: Stage,
    // It was never here.
    is_fresh: bool,
    // The number of its next request, and the ticket of its last ask.
    next: u64,
    ticket: u64,
    // The tickets and ids of offers that it did not accept yet.
    offers: Vec<(u64, u64)>,
}

impl Client {
    /// The first client, which was never here.
    pub(super) fn new(alloc: Global) -> Client {
        Client {
            number: 1,
            stage: Stage::Silent,
            is_fresh: true,
            next: 1,
            ticket: 0,
            offers: Vec::new(alloc),
        }
    }

    /// Its connection was lost: it comes again, or another one that was never here.
    pub(super) fn come_again(&mut self, is_other: bool) {
        self.stage = Stage::Silent;
        self.is_fresh = is_other;
        self.offers.clear();
        if is_other {
            self.number = self.number.saturating_add(1);
            self.next = 1;
            self.ticket = 0;
        }
    }

    /// It hears this.
    pub(super) fn hear(&mut self, told: Told) -> Result<(), AllocError> {
        if told.kind == OFFER {
            return Ok(self.offers.push((told.n, told.id))?);
        }
        if told.kind == WELCOME {
            self.stage = Stage::Open;
            self.next = told.n.saturating_add(1);
        } else if told.kind == REFUSED {
            self.stage = match self.stage {
                Stage::Greeting => Stage::Silent,
                other => other,
            };
        }
        Ok(())
    }

    /// What it says next; nothing if it waits.
    pub(super) fn choose(&mut self, random: &mut Random) -> Option<Said> {
        match self.stage {
            Stage::Silent => Some(self.choose_first(random)),
            Stage::Greeting => self.choose_early(random),
            Stage::Open => Some(self.choose_open(random)),
            Stage::Leaving => Some(self.choose_late(random)),
        }
    }

    // Mostly its Hello.
    fn choose_first(&mut self, random: &mut Random) -> Said {
        self.stage = Stage::Greeting;
        match random.below(16) {
            0 => self.ask(random),
            1 => hello(1, false),
            2 => hello(VERSION, true),
            _ => hello(VERSION, self.is_fresh),
        }
    }

    // Before it knows that it is welcome.
    fn choose_early(&mut self, random: &mut Random) -> Option<Said> {
        match random.below(16) {
            0 => Some(hello(VERSION, self.is_fresh)),
            1..=3 => Some(self.ask(random)),
            4 => Some(self.cancel(random)),
            _ => None,
        }
    }

    // Once it is welcome.
    fn choose_open(&mut self, random: &mut Random) -> Said {
        match random.below(64) {
            0..=19 => self.put(random),
            20..=25 => self.repeat(random),
            26..=35 => self.ask(random),
            36..=56 => self.accept(random),
            57..=59 => self.cancel(random),
            60 => hello(VERSION, self.is_fresh),
            61 => self.skip(random),
            62 => self.guess(random),
            _ => self.leave(random),
        }
    }

    // Once it said that it leaves.
    fn choose_late(&mut self, random: &mut Random) -> Said {
        match random.below(8) {
            0..=1 => Said::Leave {
                n: self.next.saturating_sub(1),
            },
            2..=3 => self.repeat(random),
            4 => self.put(random),
            5 => self.cancel(random),
            _ => self.ask(random),
        }
    }

    // The number of its next request.
    fn take_number(&mut self) -> u64 {
        let n = self.next;
        self.next = n.saturating_add(1);
        n
    }

    // A ticket of before, or one that it never had.
    fn old_ticket(&self, random: &mut Random) -> u64 {
        self.ticket.saturating_sub(random.below(16))
    }

    fn put(&mut self, random: &mut Random) -> Said {
        Said::Out {
            n: self.take_number(),
            row: random.row(),
        }
    }

    // It says a number that is beyond its next one.
    fn skip(&mut self, random: &mut Random) -> Said {
        Said::Out {
            n: self.next.saturating_add(1),
            row: random.row(),
        }
    }

    // It accepts what it may not have been offered.
    fn guess(&mut self, random: &mut Random) -> Said {
        Said::Accept {
            n: self.take_number(),
            ticket: self.old_ticket(random),
            id: random.below(64),
        }
    }

    fn cancel(&mut self, random: &mut Random) -> Said {
        Said::Cancel {
            ticket: self.old_ticket(random),
        }
    }

    // It says a number again, mostly the last one, with what it said then or something else.
    fn repeat(&mut self, random: &mut Random) -> Said {
        let back = if random.below(4) == 0 {
            random.below(8)
        } else {
            1
        };
        let n = self.next.saturating_sub(back);
        let row = random.row();
        if random.below(2) == 0 {
            return Said::Out { n, row };
        }
        Said::Accept {
            n,
            ticket: self.old_ticket(random),
            id: 1,
        }
    }

    // An ask, mostly of a new ticket, and mostly to take.
    fn ask(&mut self, random: &mut Random) -> Said {
        let row = random.row();
        let is_any = random.below(2) > 0;
        let remove = random.below(4) > 0;
        let mut ticket = self.ticket.saturating_add(1);
        if random.below(8) == 0 {
            ticket = self.old_ticket(random);
        } else {
            self.ticket = ticket;
        }
        Said::Ask(Asked {
            ticket,
            remove,
            row,
            is_any,
        })
    }

    // It accepts an offer that it has; else it asks.
    fn accept(&mut self, random: &mut Random) -> Said {
        let len = self.offers.len();
        if len == 0 {
            return self.ask(random);
        }
        let place = random.below(len as u64) as usize;
        let (ticket, id) = self.offers.swap_remove(place);
        Said::Accept {
            n: self.take_number(),
            ticket,
            id,
        }
    }

    // It leaves, if it can still be answered so; mostly it puts.
    fn leave(&mut self, random: &mut Random) -> Said {
        if random.below(8) > 0 {
            return self.put(random);
        }
        self.stage = Stage::Leaving;
        Said::Leave {
            n: self.take_number(),
        }
    }
}

// A Hello.
fn hello(version: u8, fresh: bool) -> Said {
    Said::Hello { version, fresh }
}
