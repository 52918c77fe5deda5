//! Client of a run: its number, what it asked for, and what it makes of replies.

use crate::servers::draw::{bad_of, form_of, value_of};
use crate::servers::words::{SPOKEN, Said, Told};
use linda_test_runs::Dice;
use std::alloc::{AllocError, Global};
use std::collections::VecDeque;

/// How many numbered messages a client has unanswered at most.
const MOST_PENDING: usize = 4;

/// A client.
#[derive(Drop)]
pub struct Client {
    pub number: u32,
    /// It does not keep to the rules.
    pub is_rude: bool,
    /// It asks for as much as it can.
    pub is_greedy: bool,
    /// Its connection.
    pub conn: Option<usize>,
    // It sent a Hello over it, and was greeted.
    has_hailed: bool,
    is_greeted: bool,
    // It sent a numbered message once.
    is_known: bool,
    has_left: bool,
    // The last number that was answered, and messages after it.
    last: u64,
    pending: VecDeque<Said>,
    // So many numbered messages are still to be refused, as one before them was.
    gaps: usize,
    ticket: u64,
    tickets: Vec<u64>,
    offers: Vec<(u64, u64)>,
}

impl Client {
    /// The client of this number, which was never there.
    pub fn new(alloc: Global, number: u32) -> Client {
        Client {
            number,
            is_rude: false,
            is_greedy: false,
            conn: None,
            has_hailed: false,
            is_greeted: false,
            is_known: false,
            has_left: false,
            last: 0,
            pending: VecDeque::new(alloc),
            gaps: 0,
            ticket: 0,
            tickets: Vec::new(alloc),
            offers: Vec::new(alloc),
        }
    }

    /// Its connection is gone.
    pub fn lose(&mut self) {
        self.conn = None;
        self.has_hailed = false;
        self.is_greeted = false;
        self.gaps = 0;
        self.tickets.clear();
        self.offers.clear();
    }

    /// It never comes again; another client does in its place.
    pub fn renew(&mut self, number: u32) {
        self.lose();
        self.number = number;
        self.is_known = false;
        self.has_left = false;
        self.last = 0;
        self.pending.clear();
    }

    /// Whether it left the server for good.
    pub fn has_left(&self) -> bool {
        self.has_left
    }

    // The number after the last that it sent.
    fn next(&self) -> u64 {
        self.last
            .wrapping_add(self.pending.len() as u64)
            .wrapping_add(1)
    }

    /// What it says next, if it says something.
    pub fn compose(&mut self, dice: &mut Dice, is_full: bool) -> Result<Option<Said>, AllocError> {
        if !self.has_hailed {
            return Ok(Some(self.hail(dice)));
        }
        if !self.is_greeted {
            return Ok(None);
        }
        if self.is_rude && dice.one_in(8) {
            return Ok(Some(self.misbehave(dice)));
        }
        self.behave(dice, is_full)
    }

    fn hail(&mut self, dice: &mut Dice) -> Said {
        if self.is_rude && dice.one_in(8) {
            self.has_hailed = true;
            return match dice.below(3) {
                0 => Said::Hello {
                    version: 1,
                    client: self.number,
                    fresh: false,
                },
                1 => Said::Leave { n: 1 },
                _ => Said::Cancel { ticket: 1 },
            };
        }
        self.has_hailed = true;
        let fresh = if self.is_rude {
            dice.one_in(2)
        } else {
            !self.is_known
        };
        Said::Hello {
            version: SPOKEN,
            client: self.number,
            fresh,
        }
    }

    // Something that no client should say.
    fn misbehave(&mut self, dice: &mut Dice) -> Said {
        let ticket = u64::from(dice.below(4));
        match dice.below(5) {
            0 => self.misnumber(dice, ticket),
            1 => self.misnumber(dice, ticket),
            2 => {
                let remove = dice.one_in(2);
                let form = form_of(dice);
                Said::Ask {
                    ticket,
                    remove,
                    form,
                }
            }
            3 => Said::Cancel { ticket },
            _ => self.misframe(dice),
        }
    }

    // A number that is old, kept or a gap.
    fn misnumber(&mut self, dice: &mut Dice, ticket: u64) -> Said {
        let last = self.last;
        let value = value_of(dice);
        let gap = u64::from(dice.below(4)).saturating_add(2);
        match dice.below(6) {
            0 => Said::Out { n: 0, value },
            1 => Said::Out { n: last, value },
            2 => {
                let n = last.saturating_add(gap);
                Said::Out { n, value }
            }
            3 => Said::Accept {
                n: last,
                ticket: 0,
                id: 0,
            },
            4 => Said::Accept {
                n: last.saturating_sub(1),
                ticket,
                id: 1,
            },
            _ => Said::Leave { n: u64::MAX },
        }
    }

    // A second Hello, or seldom a frame that spells nothing.
    fn misframe(&mut self, dice: &mut Dice) -> Said {
        if dice.one_in(8) {
            return Said::Bad(bad_of(dice));
        }
        Said::Hello {
            version: SPOKEN,
            client: self.number,
            fresh: false,
        }
    }

    fn behave(&mut self, dice: &mut Dice, is_full: bool) -> Result<Option<Said>, AllocError> {
        let may_number = self.pending.len() < MOST_PENDING && !self.has_left;
        let choice = dice.below(16);
        if choice < 8 && may_number {
            if let Some((ticket, id)) = self.offers.pop() {
                if dice.one_in(8) {
                    self.forget(ticket);
                    return Ok(Some(Said::Cancel { ticket }));
                }
                let n = self.next();
                return self.number(Said::Accept { n, ticket, id });
            }
        }
        if choice < 9 || is_full {
            return self.ask(dice);
        }
        if choice < 14 && may_number {
            let n = self.next();
            return self.number(Said::Out {
                n,
                value: value_of(dice),
            });
        }
        if choice == 14 {
            return Ok(self.give_up(dice));
        }
        if may_number && dice.one_in(64) {
            let n = self.next();
            self.has_left = true;
            return self.number(Said::Leave { n });
        }
        Ok(None)
    }

    // A numbered message, which waits for its answer.
    fn number(&mut self, said: Said) -> Result<Option<Said>, AllocError> {
        self.is_known = true;
        self.pending.push_back(said)?;
        Ok(Some(said))
    }

    fn ask(&mut self, dice: &mut Dice) -> Result<Option<Said>, AllocError> {
        let most: usize = if self.is_greedy { 80 } else { 6 };
        if self.tickets.len() >= most {
            return Ok(None);
        }
        self.ticket = self.ticket.wrapping_add(1);
        let ticket = self.ticket;
        self.tickets.push(ticket)?;
        Ok(Some(Said::Ask {
            ticket,
            remove: !dice.one_in(4),
            form: form_of(dice),
        }))
    }

    // Some ask is given up.
    fn give_up(&mut self, dice: &mut Dice) -> Option<Said> {
        let few = u32::try_from(self.tickets.len()).unwrap_or(0);
        let at = dice.below(few) as usize;
        let ticket = self.tickets.get(at).copied()?;
        self.forget(ticket);
        Some(Said::Cancel { ticket })
    }

    fn forget(&mut self, ticket: u64) {
        self.tickets.retain(|one| *one != ticket);
        self.offers.retain(|offer| offer.0 != ticket);
    }

    /// What it has to send again once it is greeted.
    pub fn pending(&self, at: usize) -> Option<Said> {
        self.pending.get(at).copied()
    }

    /// A reply came. Returns what is wrong with it.
    pub fn hear(&mut self, told: Told) -> Result<Option<&'static str>, AllocError> {
        match told {
            Told::Welcome { last } => Ok(self.welcome(last)),
            Told::Stored { n, .. } => Ok(self.answered(n)),
            Told::Gone { n } => Ok(self.answered(n)),
            Told::Left { n } => Ok(self.answered(n)),
            Told::Taken { n, .. } => {
                if let Some(Said::Accept { ticket, .. }) = self.pending.front().copied() {
                    self.forget(ticket);
                }
                Ok(self.answered(n))
            }
            Told::Offer { ticket, id, .. } => {
                if self.tickets.as_slice().contains(&ticket) {
                    self.offers.push((ticket, id))?;
                }
                Ok(None)
            }
            Told::Read { ticket, .. } => {
                self.forget(ticket);
                Ok(None)
            }
            Told::Refused { code, detail } => Ok(self.refused(code, detail)),
        }
    }

    // It is welcome: what it sent before and was done is answered.
    fn welcome(&mut self, last: u64) -> Option<&'static str> {
        self.is_greeted = true;
        let most = self.last.saturating_add(self.pending.len() as u64);
        if !self.is_rude && (last < self.last || last > most) {
            return Some("a client was answered what its server has forgotten");
        }
        for _ in 0..self.pending.len() {
            if self.last.saturating_add(1) >= last {
                break;
            }
            let _ = self.pending.pop_front();
            self.last = self.last.saturating_add(1);
        }
        if self.is_rude {
            self.last = last;
            self.pending.clear();
        }
        None
    }

    fn answered(&mut self, n: u64) -> Option<&'static str> {
        if self.is_rude {
            self.last = self.last.max(n);
            self.pending.clear();
            return None;
        }
        let _ = self.pending.pop_front();
        self.last = self.last.saturating_add(1);
        if self.last == n {
            None
        } else {
            Some("a client was answered out of order")
        }
    }

    // Its first numbered message without an answer found no room. Those after it are refused, as
    // their numbers do not come next; what it asks for it may ask for again.
    fn find_no_room(&mut self) {
        if !self.is_rude {
            let after = self.pending.len().saturating_sub(1);
            self.gaps = self.gaps.saturating_add(after);
        }
        if let Some(Said::Accept { ticket, id, .. }) = self.pending.front().copied() {
            // Without memory it is forgotten, which is no fault of the server.
            let _ = self.offers.push((ticket, id));
        }
        self.has_left = false;
        self.pending.clear();
    }

    fn refused(&mut self, code: u8, detail: u64) -> Option<&'static str> {
        match code {
            // It greets again.
            1 | 3 | 12 => {
                if !self.is_greeted {
                    self.has_hailed = false;
                }
                None
            }
            2 => {
                self.has_hailed = false;
                self.is_known = true;
                None
            }
            5 if self.gaps > 0 => {
                self.gaps = self.gaps.saturating_sub(1);
                None
            }
            4 | 5 => {
                self.last = detail;
                self.pending.clear();
                if self.is_rude {
                    None
                } else {
                    Some("a client that counts was refused a number")
                }
            }
            6 => {
                self.find_no_room();
                None
            }
            10 => {
                self.forget(detail);
                None
            }
            11 => {
                self.has_left = true;
                self.pending.clear();
                None
            }
            _ => None,
        }
    }
}
