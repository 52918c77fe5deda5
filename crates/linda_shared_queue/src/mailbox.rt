//! A session's mailbox.

ghost use Rattle.std.specs.Prelude.{◌≡◌};

use crate::answer::Answer;
use crate::mail::Mail;
use crate::recipient::Recipient;
use linda_shared_outbox::Sent;
use linda_wire::Reply;
use std::alloc::{AllocError, Global};
use std::sync::ledger::Ledger;
use std::sync::{Condvar, Mutex, Wait};

/// What others put there for the session of one client. A thread that has its lock asks for no
/// other.
#[derive(Drop)]
pub struct Mailbox<L: Ledger> {
    client: u32,
    mail: Mutex<Mail<L>>,
    // The thread that submitted is answered, or is to lead.
    turned: Condvar,
    // There is a reply.
    came: Condvar,
    // There is a reply that others' messages led to.
    news: Condvar,
}

impl<L: Ledger> Mailbox<L> {
    /// The client's, with nothing in it.
    pub fn new(alloc: Global, client: u32) -> Mailbox<L>
        ensures { result.client ≡ client }
    {
        Mailbox {
            client,
            mail: Mutex::new(Mail::new(alloc)),
            turned: Condvar::new(),
            came: Condvar::new(),
            news: Condvar::new(),
        }
    }

    /// The client whose it is.
    pub fn client(&self) -> u32
        ensures { result ≡ self.now.client }
    {
        self.client
    }

    /// Puts a reply of the session's own after the others.
    ///
    /// # Errors
    ///
    /// `AllocError`: nothing changes.
    pub fn post_one<R: Wait>(&self, rt: &R, reply: Reply) -> Result<(), AllocError> {
        self.mail.lock(rt).post_one(reply)?;
        self.came.notify_all();
        Ok(())
    }

    /// Puts replies to its client after the others. If there is no memory for them, none comes any
    /// more. A thread that waits for news is woken too, if others' messages led to these, or if no
    /// reply comes any more.
    pub(crate) fn post<R: Wait>(&self, rt: &R, sent: Sent, is_news: bool)
        requires { sent.client ≡ self.now.client }
    {
        let mut mail = self.mail.lock(rt);
        mail.post(sent);
        let is_over = mail.is_over();
        drop(mail);
        self.came.notify_all();
        if is_news || is_over {
            self.news.notify_all();
        }
    }

    /// Places for so many answers, which are due.
    ///
    /// # Errors
    ///
    /// `AllocError`: nothing may be submitted.
    pub fn open<R: Wait>(&self, rt: &R, n: usize) -> Result<(), AllocError> {
        self.mail.lock(rt).open(n)
    }

    /// Puts an answer to its client into its place. With the last one the thread that submitted is
    /// woken.
    pub(crate) fn put<R: Wait>(&self, rt: &R, answer: Answer<Recipient, L>)
        requires { answer.address.client ≡ self.now.client }
    {
        let mut mail = self.mail.lock(rt);
        mail.put(answer);
        let is_last = mail.is_last();
        drop(mail);
        if is_last {
            self.turned.notify_one();
        }
    }

    /// The thread that submitted is to serve the next group.
    pub(crate) fn lead<R: Wait>(&self, rt: &R) {
        let mut mail = self.mail.lock(rt);
        mail.set_leads();
        drop(mail);
        self.turned.notify_one();
    }

    /// No reply comes any more.
    pub fn end<R: Wait>(&self, rt: &R) {
        let mut mail = self.mail.lock(rt);
        mail.set_over();
        drop(mail);
        self.came.notify_all();
        self.news.notify_all();
    }

    /// Waits until all answers are there, or the session is to lead. Says whether it is to lead; if
    /// not, takes the answer of this place.
    pub fn wait_turn<R: Wait>(&self, rt: &R, place: usize) -> (bool, Option<Answer<Recipient, L>>) {
        let mut mail = self
            .turned
            .wait_while(rt, self.mail.lock(rt), |mail| mail.is_idle());
        mail.turn(place)
    }

    // The replies that are there.
    pub(crate) fn drain<R: Wait>(&self, rt: &R, alloc: Global) -> Vec<Reply> {
        self.mail.lock(rt).drain(alloc)
    }

    // Waits until there is a reply, or none comes any more; takes what is there.
    pub(crate) fn drain_wait<R: Wait>(&self, rt: &R, alloc: Global) -> Vec<Reply> {
        let mut mail = self
            .came
            .wait_while(rt, self.mail.lock(rt), |mail| mail.is_empty());
        mail.drain(alloc)
    }

    // Waits until there is a reply, or none comes any more. Says whether one may come.
    pub(crate) fn wait_news<R: Wait>(&self, rt: &R) -> bool {
        let mail = self
            .news
            .wait_while(rt, self.mail.lock(rt), |mail| mail.is_empty());
        !mail.is_over()
    }
}
