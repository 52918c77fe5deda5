//! Places of a connection's messages, as its session says.

ghost use Rattle.std.specs.Prelude.{◌≡◌};
ghost use Rattle.linda_shared_accounts.specs.declared.limits.TheConstants as accounts;
ghost use Rattle.linda_net_session.specs.declared.phase.TheConstants as sessions;
ghost use Rattle.linda_net_loops.specs.Joining.{joined, joined_by_way, groups_of, TakesFrom};
ghost use Rattle.linda_net_loops.specs.Joining.{IsCalled, CallsFrom};

use crate::connection::{Connection, ConnectionEvent};
use crate::groups::{Groups, LoopCall};
use crate::socket::Socket;
use linda_net_marks::Counters;
use linda_net_session::{Route, Way};
use linda_shared::{MOST_ASKED, MessageGroup};
use linda_wire::Message;
use std::collections::VecDeque;
use std::sync::ledger::Ledger;

/// As many messages of a connection may be on their way as its client's account has parts for.
pub fn account_has_parts_for_all()
    ensures { sessions.MOST_ASKED ≡ accounts.MOST_ASKED }
{}

/// What came of a look at a connection.
#[derive(Clone, Copy)]
pub(crate) enum LookOutcome {
    /// A message was taken, and put on the route that its session says.
    Taken,
    /// There is one that cannot go yet: it is given again.
    Kept,
    /// There is nothing for now.
    None,
    /// It was read often enough: others are looked at first.
    Later,
}

/// Takes the next message of the connection of this key, if there is room for it, and puts it on
/// the route that its session says.
pub(crate) fn take_next<S: Socket, L: Ledger>(
    connection: &mut Connection<S, L>,
    key: usize,
    buffer: &mut [u8],
    calls: &mut VecDeque<LoopCall>,
    batch: &mut Groups<L>,
    counters: &Counters,
) -> LookOutcome
    // The message that the session took joins the group of its way, as it was given; or it took
    // none, and the groups are as they were.
    ensures takes { TakesFrom connection.old.account key connection.old.session
        connection.new.session (groups_of batch.old.asking batch.old.doing)
        (groups_of batch.new.asking batch.new.doing) }
    // If it greets it is the next call, as it was taken; else no call is added.
    ensures calls { CallsFrom key connection.old.session connection.new.session calls.old.items
        calls.new.items }
{
    match connection.next(buffer, batch.room()) {
        ConnectionEvent::Message(message, route) => {
            put(connection, key, message, route, calls, batch, counters);
            LookOutcome::Taken
        }
        ConnectionEvent::Kept => LookOutcome::Kept,
        ConnectionEvent::None => LookOutcome::None,
        ConnectionEvent::Later => LookOutcome::Later,
    }
}

// Puts a message of the connection of this key on the route that its session says.
fn put<S: Socket, L: Ledger>(
    connection: &mut Connection<S, L>,
    key: usize,
    message: Message,
    route: Route,
    calls: &mut VecDeque<LoopCall>,
    batch: &mut Groups<L>,
    counters: &Counters,
)
    // It joins the group of its way, as it was given, if its account has a part left for it and the
    // group has room; else none.
    ensures joins { groups_of batch.new.asking batch.new.doing
        ≡ joined_by_way route connection.old.account key message
        (groups_of batch.old.asking batch.old.doing) }
    ensures taken { connection.new.session.taken ≡ connection.old.session.taken }
    // A Hello is the next call, as it was taken.
    ensures calls { IsCalled route key message calls.old.items calls.new.items }
{
    match route {
        Route::Greet => {
            if calls.push_back(LoopCall::Greet(key, message)).is_err() {
                connection.drop_greeting(None);
            }
        }
        Route::Busy => connection.tell_busy(counters),
        Route::Goes(Way::Asks) => ask(connection, key, message, &mut batch.asking, Way::Asks),
        Route::Goes(Way::Deeds) => ask(connection, key, message, &mut batch.doing, Way::Deeds),
        Route::Keep => {}
    }
}

// The message joins the group of this way. Its session saw that there is room, and that few of it
// are on their way; else the connection fails.
fn ask<S: Socket, L: Ledger>(
    connection: &mut Connection<S, L>,
    key: usize,
    message: Message,
    group: &mut MessageGroup<usize, L>,
    way: Way,
)
    ensures joins { group.new ≡ joined connection.old.account key message group.old }
    ensures taken { connection.new.session.taken ≡ connection.old.session.taken }
{
    if let Some(account) = &mut connection.account {
        if account.asked() < MOST_ASKED && group.has_room() {
            group.ask(account, key, message);
            return;
        }
    }
    connection.answered(way);
    connection.fail();
}
