//! Notes of a server's connections, held against the model.

use crate::servers::model::refused;
use crate::servers::net::Noted;
use crate::servers::things::{LAPSES, MESSAGES, hear};
use crate::servers::words::{Said, Told};
use crate::servers::world::World;

/// How many notes are heard at once at most.
const MOST_NOTES: u32 = 1_000_000;

/// A second, in nanoseconds.
const SECOND: u64 = 1_000_000_000;

impl World {
    /// Hears what connections noted until now.
    pub fn hear_notes(&mut self, now: u64) {
        self.group.is_begun = false;
        for _ in 0..MOST_NOTES {
            let Some((at, noted)) = self.next_note() else {
                if !self.is_noted {
                    self.blame("the run has no memory");
                }
                return;
            };
            self.hear(at, noted, now);
        }
    }

    fn next_note(&mut self) -> Option<(usize, Noted)> {
        let Ok(mut net) = self.net.try_borrow_mut() else {
            return None;
        };
        let net = &mut *net;
        self.is_noted = self.is_noted && !net.is_lost;
        net.notes.pop_front()
    }

    fn hear(&mut self, at: usize, noted: Noted, now: u64) {
        match noted {
            Noted::Greeted(said, answer) => self.greeted(at, said, answer, now),
            Noted::Busy => self.greeted_again(at, now),
            Noted::Heard(said, is_done) => self.served(at, said, is_done, now),
            Noted::Ended(word) => self.ended(at, word, now),
            Noted::Failed => self.failed(at),
            Noted::Leaves => self.left(at),
            Noted::Over => self.over(at),
        }
    }

    // What a connection sent next, which has to be this.
    fn next_said(&mut self, at: usize, taken: Option<Said>, now: u64) -> Option<Said> {
        let conn = self.conns.get_mut(at)?;
        conn.spoke = now;
        conn.looks = 0;
        let said = conn.sent.pop_front();
        if said.is_none() || said != taken {
            self.blame("a message was taken that was not the next one of its connection");
            return None;
        }
        said
    }

    // The client of a connection that was greeted.
    fn client_of(&self, at: usize) -> Option<u32> {
        match self.conns.get(at) {
            Some(conn) => conn.greeted,
            None => None,
        }
    }

    // This is due to the connection.
    fn owe(&mut self, at: usize, told: Told) {
        if let Some(conn) = self.conns.get_mut(at) {
            let done = conn.owe(told);
            self.note(done);
        }
    }

    // What the model answered is due to the connections of its clients.
    fn owe_all(&mut self) {
        for index in 0..self.sends.len() {
            let Some((client, told)) = self.sends.get(index).copied() else {
                break;
            };
            hear(&mut self.tally, told);
            if let Some(at) = self.find_seat(client) {
                self.owe(at, told);
            }
        }
        self.sends.clear();
    }

    fn greeted(
        &mut self,
        at: usize,
        taken: Option<Said>,
        answer: Option<Result<u64, (u8, u64)>>,
        now: u64,
    ) {
        let Some(said) = self.next_said(at, taken, now) else {
            return;
        };
        let Some(answer) = answer else {
            self.is_down = true;
            self.is_over = self.is_over || self.shaky > 0;
            return;
        };
        let client = match said {
            Said::Hello { client, .. } => client,
            _ => 0,
        };
        let is_busy = self.find_seat(client).is_some();
        let wanted = self.model.greet(said, is_busy);
        let came = match answer {
            Ok(last) => Told::Welcome { last },
            Err((code, detail)) => refused(code, detail),
        };
        if wanted != came {
            self.blame("a greeting was answered otherwise");
        }
        hear(&mut self.tally, wanted);
        self.owe(at, wanted);
        if answer.is_ok() {
            if let Some(conn) = self.conns.get_mut(at) {
                conn.greeted = Some(client);
            }
        }
    }

    fn greeted_again(&mut self, at: usize, now: u64) {
        let Some(conn) = self.conns.get_mut(at) else {
            return;
        };
        conn.spoke = now;
        conn.looks = 0;
        if let Some(Said::Hello { .. }) = conn.sent.pop_front() {
            self.owe(at, refused(3, 0));
        } else {
            self.blame("a message was taken for a Hello");
        }
    }

    fn served(&mut self, at: usize, taken: Option<Said>, is_done: bool, now: u64) {
        let Some(said) = self.next_said(at, taken, now) else {
            return;
        };
        let Some(client) = self.client_of(at) else {
            self.blame("a message was served of a connection that was not greeted");
            return;
        };
        self.begin_group(client, said);
        if !is_done {
            self.is_down = true;
            self.is_over = self.is_over || self.shaky > 0 || self.model.bank.is_tight();
            if self.unanswered.push((client, said)).is_err() {
                self.blame("the run has no memory");
            }
            return;
        }
        if self.is_down {
            self.blame("a server that is down answered");
        }
        self.tally.count(MESSAGES);
        let done = self.model.say(client, said, &mut self.sends);
        self.note(done);
        self.owe_all();
    }

    fn ended(&mut self, at: usize, word: Option<(u8, u64)>, now: u64) {
        let is_late = self.is_late(at, now);
        let is_down = self.is_down;
        let Some(conn) = self.conns.get_mut(at) else {
            return;
        };
        let is_right = match word {
            Some((8, 0)) => is_down,
            Some((9, offset)) => match conn.next_bad() {
                Some(bad) => bad.offset() == offset,
                None => false,
            },
            Some(_) => false,
            None => is_down || conn.is_lost || is_late,
        };
        if let Some((code, detail)) = word {
            let done = conn.owe(refused(code, detail));
            conn.is_closed = true;
            self.note(done);
        } else {
            conn.is_closed = true;
            if is_late {
                self.tally.count(LAPSES);
            }
        }
        if !is_right {
            self.blame("a connection ended by itself, or with another word");
        }
    }

    // Whether the client of a connection holds a tuple and said nothing for as long as it may.
    fn is_late(&self, at: usize, now: u64) -> bool {
        let (Some(conn), Some(lease)) = (self.conns.get(at), self.lease) else {
            return false;
        };
        let silent = now.saturating_sub(conn.spoke);
        match conn.greeted {
            Some(client) => {
                self.model.holds_any(client) && silent >= u64::from(lease).saturating_mul(SECOND)
            }
            None => false,
        }
    }

    fn failed(&mut self, at: usize) {
        let is_down = self.is_down;
        let written = self.written(at);
        let Some(conn) = self.conns.get_mut(at) else {
            return;
        };
        let is_right = is_down || conn.is_lost || conn.is_closed;
        conn.is_failed = true;
        conn.due.truncate(written);
        if !is_right {
            self.blame("a connection broke by itself");
        }
    }

    fn left(&mut self, at: usize) {
        let Some(client) = self.client_of(at) else {
            self.blame("a client left that was not greeted");
            return;
        };
        if let Some(conn) = self.conns.get_mut(at) {
            conn.greeted = None;
        }
        if !self.is_down {
            let done = self.model.close(client, &mut self.sends);
            self.note(done);
            self.owe_all();
        }
    }

    fn over(&mut self, at: usize) {
        let written = self.written(at);
        let Some(conn) = self.conns.get_mut(at) else {
            return;
        };
        let is_due = !conn.is_failed && conn.due.len() != written;
        let owner = conn.owner;
        conn.clear();
        if is_due {
            self.blame("a connection was over before all was written");
        }
        if let Some(client) = self.clients.get_mut(owner) {
            if client.conn == Some(at) {
                client.lose();
            }
        }
    }
}
