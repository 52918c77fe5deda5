//! Replies to clients: answers of a group that was served, which their sessions hear, and what this
//! loop or another one sends.

ghost use Rattle.std.specs.Prelude.{◌≡◌, ◌≢◌, ◌<◌, [], IsOk, OnOk, IfErr};
ghost use Rattle.linda_shared.specs.Group.{group_of};
ghost use Rattle.linda_shared_queue.specs.Hearing.{IsAnswered};
ghost use Rattle.linda_shared_queue.specs.Seat.{back, IsLeft, IsLost};

use super::Sessions;
use crate::socket::{ConnectionNotice, Socket};
use linda_net_marks::{Counters, word_of};
use linda_net_relays::LoopDirectory;
use linda_net_session::Way;
use linda_shared::{Account, Ack, MessageGroup, Sent, ServedGroup, SharedFault, hear_answer};
use linda_wire::Message;
use std::sync::Wait;
use std::sync::ledger::Ledger;

impl<S: Socket, L: Ledger> Sessions<S, L> {
    /// Sessions hear the answers of a group that was served, whose messages went this way. Returns
    /// the room of the group.
    pub(crate) fn hear_all(
        &mut self,
        served: ServedGroup<usize, L>,
        way: Way,
    ) -> MessageGroup<usize, L>
        ensures { result ≡ group_of served.room [] [] }
    {
        let mut served = served;
        for _ in 0..served.len() {
            let Some((client, message, answered)) = served.next() else {
                break;
            };
            self.hear(client, &message, answered, way);
        }
        served.into_group()
    }

    // The session of this client hears the answer to its message.
    fn hear(&mut self, client: u32, message: &Message, answered: Ack<usize, L>, way: Way) {
        let key = *answered.address();
        let Some(connection) = self.connections.get_mut(key) else {
            return;
        };
        connection.answered(way);
        if let Some(account) = &mut connection.account {
            let heard = hear_own(account, client, message, answered);
            connection.note(ConnectionNotice::Heard(message, heard.is_ok()));
            if let Err(fault) = heard {
                connection.end_with(word_of(fault));
            }
        }
        self.touch(key);
        self.make_ready(key);
    }

    /// How many bytes clients were given since this was asked last.
    pub(crate) fn take_told(&mut self) -> u64 {
        std::mem::replace(&mut self.bytes_sent, 0)
    }

    /// Takes what other loops handed to this one.
    pub(crate) fn take_sent<R: Wait>(&mut self, rt: &R, directory: &LoopDirectory) {
        let Some(inbox) = directory.get(self.index) else {
            return;
        };
        let mut handed = std::mem::replace(&mut self.handed, Vec::new(self.alloc));
        inbox.take_sent(rt, &mut handed);
        for sent in handed.drain(..) {
            self.tell(&directory.counters, sent);
        }
        self.handed = handed;
    }

    /// These go to their client, after all that went to it before; nowhere if it has no connection
    /// here.
    pub(crate) fn tell(&mut self, counters: &Counters, sent: Sent) {
        let Some(key) = self.clients.get(&sent.client()).copied() else {
            return;
        };
        if let Some(connection) = self.connections.get_mut(key) {
            for reply in sent.into_replies() {
                self.bytes_sent = self
                    .bytes_sent
                    .saturating_add(connection.tell(counters, &reply));
            }
        }
        self.touch(key);
    }
}

// The account hears the answer to this message, if it is of the message's client.
fn hear_own<L: Ledger>(
    account: &mut Account<L>,
    client: u32,
    message: &Message,
    answered: Ack<usize, L>,
) -> Result<(), SharedFault>
    ensures same { account.new.client ≡ account.old.client }
    // An answer to another client, or if nothing is on its way, is passed over.
    ensures other { account.old.client ≢ client → (account.new ≡ account.old) × IsOk result }
    ensures none { account.old.asked ≡ 0 → (account.new ≡ account.old) × IsOk result }
    // Else what it hears and what is left of it is what `hear_answer` says.
    ensures own { account.old.client ≡ client → 0 < account.old.asked
        → IsAnswered account.old message.now answered.told result }
    ensures ok { account.old.client ≡ client → 0 < account.old.asked
        → OnOk result (IsLost message.now (back account.old) account.new) }
    ensures err { account.old.client ≡ client → 0 < account.old.asked
        → IfErr result (λ fault. IsLeft message.now (back account.old) fault account.new) }
{
    if account.asked() == 0 || account.client() != client {
        return Ok(());
    }
    hear_answer(account, message, answered)
}
