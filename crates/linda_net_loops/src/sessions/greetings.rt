//! Greetings of clients, and what they came to: a session, or a refusal.

use super::Sessions;
use crate::socket::{ConnectionNotice, Socket};
use linda_net_marks::{Counters, word_of};
use linda_net_relays::LoopDirectory;
use linda_shared::{Account, Admission, SharedFault};
use linda_wire::Message;
use std::sync::Wait;
use std::sync::ledger::Ledger;

/// What a greeting came to: an account with the number of the last request that is kept, or a code
/// and a detail.
type Greeting<L> = Result<Admission<L>, SharedFault>;

impl<S: Socket, L: Ledger> Sessions<S, L> {
    /// The connection of this key takes note of what its greeting came to.
    pub(crate) fn note_greeting(&mut self, key: usize, message: &Message, greeting: &Greeting<L>) {
        let answer = match greeting {
            Ok(Admission::Welcome(_, last)) => Some(Ok(*last)),
            Ok(Admission::Refused(code, detail)) => Some(Err((*code, *detail))),
            Err(_) => None,
        };
        if let Some(connection) = self.connections.get_mut(key) {
            connection.note(ConnectionNotice::Greeted(message, answer));
        }
    }

    /// A greeting came to this. Returns the account if there is no connection for it.
    pub(crate) fn greet<R: Wait>(
        &mut self,
        rt: &R,
        directory: &LoopDirectory,
        key: usize,
        greeting: Greeting<L>,
    ) -> Option<Account<L>> {
        let left = match greeting {
            Ok(Admission::Welcome(account, last)) => {
                self.welcome(rt, directory, key, account, last)
            }
            Ok(Admission::Refused(code, detail)) => {
                self.refuse(&directory.counters, key, code, detail);
                None
            }
            Err(fault) => {
                self.drop_greeting(key, fault);
                None
            }
        };
        self.make_ready(key);
        self.touch(key);
        left
    }

    // The client is welcome. What was sent to it in an earlier session goes nowhere. Returns the
    // account if there is no connection for it.
    fn welcome<R: Wait>(
        &mut self,
        rt: &R,
        directory: &LoopDirectory,
        key: usize,
        account: Account<L>,
        last: u64,
    ) -> Option<Account<L>> {
        let client = account.client();
        self.take_sent(rt, directory);
        let Some(connection) = self.connections.get_mut(key) else {
            return Some(account);
        };
        let is_kept = self.clients.insert(client, key).is_ok()
            && directory.open(rt, client, self.index).is_ok();
        connection.welcome(&directory.counters, account, last);
        if !is_kept {
            connection.fail();
        }
        None
    }

    // The client is refused. It may greet again.
    fn refuse(&mut self, counters: &Counters, key: usize, code: u8, detail: u64) {
        if let Some(connection) = self.connections.get_mut(key) {
            connection.refuse(counters, code, detail);
        }
    }

    // The server could not greet the client: its connection ends.
    fn drop_greeting(&mut self, key: usize, fault: SharedFault) {
        if let Some(connection) = self.connections.get_mut(key) {
            connection.drop_greeting(word_of(fault));
        }
    }
}
