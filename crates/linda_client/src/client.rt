//! The client: what it keeps, and how that changes. Its calls are in the modules below, one in
//! each.

mod abandon;
mod call;
mod leave;
mod out;
mod receive;
mod resend;
mod sync;
mod tick;

ghost use Rattle.std.specs.Prelude.{◌≡◌, ◌+◌, ◌↔◌, ◌<◌, ◌≤◌, ◌⊎◌, [], None, true, is_some, max};
ghost use Rattle.std.specs.Prelude.{◌==◌, false, map, option_copied, All, IfOk, IfErr, OnOk, OnErr};
ghost use Rattle.std.specs.Prelude.{IsErrOf};
ghost use Rattle.std.specs.List.{enumerate_from, list_any};
ghost use Rattle.linda_wire.specs.declared.limits.TheConstants.{NUMBER_LIMIT};
ghost use Rattle.linda_client.specs.declared.limits.TheConstants.{MAX_SERVERS};
ghost use Rattle.linda_client.specs.declared.fault.ClientFault.TheVariants as faults;
ghost use Rattle.linda_client.specs.declared.task.Task.TheVariants as tasks;
ghost use Rattle.linda_client.specs.Client.{IsClient, OfPending, has_left, is_idle, next_at};
ghost use Rattle.linda_client.specs.Client.{pending_in};
ghost use Rattle.linda_client.specs.Client.{servers, with_pending};
ghost use Rattle.linda_client.specs.Pending.{FitsOpen, IsOpenInput, let_go};
ghost use Rattle.linda_client.specs.Pending.{save_last, take_oldest, ticket_count};
ghost use Rattle.linda_client.specs.React.{leave, new_client, on_left, out_server, put, use_number};

use crate::arrived_tuple::{ArrivedTuple, PendingAccept};
use crate::fault::ClientFault;
use crate::leaves::Leaves;
use crate::limits::MAX_SERVERS;
use crate::pending::Pending;
use crate::task::Task;
use linda_tuple::Tuple;
use linda_wire::NUMBER_LIMIT;
use std::alloc::{AllocError, Global};
use std::marker::Model;

/// A client of the tuple space: what it puts and waits for, over its servers, until it leaves. At
/// most one out, one synchronization or the leave is pending. The client sends nothing itself: each
/// call gives the packets to be sent.
pub struct Client {
    number: u32,
    clock: u64,
    /// For each server the number that the next numbered message to it gets.
    next: Vec<u64>,
    outs: u64,
    ticket: u64,
    task: Task,
}

impl Drop for Client {
    fn drop(self) {
        let Client {
            number: _,
            clock: _,
            next: _,
            outs: _,
            ticket: _,
            task: _,
        } = self;
    }
}

impl Model for Client {
    ghost use Rattle.linda_client.specs.Client as seen;
    ghost use Rattle.linda_client.specs.Client.{IsClient};
    ghost use Rattle.linda_client.specs.ClientCode.{client_code};

    ghost Value = { seen.Client };

    ghost coded = { client_code };

    ghost use Rattle.linda_client.specs.View.{client_of};

    ghost view = { client_of };

    ghost invariant = { λ c. IsClient (client_of c) };
}

impl Client {
    /// A client of this number, over so many servers, which are numbered from 0. Nothing is
    /// pending, its clock is at 0, and its numbers and tickets begin with 1.
    ///
    /// # Errors
    ///
    /// `ServersRange` if the servers are not 1 to 16; else `Memory` if memory runs out.
    pub fn new(alloc: Global, client: u32, servers: u32) -> Result<Client, ClientFault>
        ensures ok { IfOk result (λ c. c ≡ new_client client servers) }
        ensures range { IsErrOf result ClientFault.ServersRange
            ↔ ((servers ≡ 0) ⊎ (MAX_SERVERS < servers)) }
        ensures faults { IfErr result (λ f. (f ≡ faults.ServersRange) ⊎ (f ≡ faults.Memory)) }
    {
        if servers == 0 || servers > MAX_SERVERS {
            return Err(ClientFault::ServersRange);
        }
        Ok(Client {
            number: client,
            clock: 0,
            next: vec![in alloc; 1; servers as usize]?,
            outs: 0,
            ticket: 1,
            task: Task::Idle,
        })
    }

    /// The number of the client.
    pub fn number(&self) -> u32
        ensures number { result ≡ self.now.number }
        ensures ranges { IsClient self.now }
    {
        self.number
    }

    /// How many servers the client has, 1 to 16.
    pub fn servers(&self) -> u32
        ensures count { result ≡ servers self.now }
        ensures ranges { IsClient self.now }
    {
        self.next.len() as u32
    }

    /// The greatest time that the client was given.
    pub fn clock(&self) -> u64
        ensures { result ≡ self.now.clock }
    {
        self.clock
    }

    /// Whether nothing is pending; so it is of a client that has left.
    pub fn is_idle(&self) -> bool
        ensures { result ≡ is_idle self.now.task }
    {
        matches!(self.task, Task::Idle | Task::Left)
    }

    /// Whether the client has left.
    pub fn has_left(&self) -> bool
        ensures { result ≡ has_left self.now.task }
    {
        matches!(self.task, Task::Left)
    }

    // The next ticket, which is free.
    fn ticket(&self) -> u64
        ensures ticket { result ≡ self.now.ticket }
        ensures ranges { IsClient self.now }
    {
        self.ticket
    }

    // The synchronization that is pending.
    fn pending(&self) -> Option<&Pending>
        ensures pending { option_copied result ≡ pending_in self.now.task }
        ensures ranges { IsClient self.now }
    {
        match &self.task {
            Task::Syncing(pending) => Some(pending),
            _ => None,
        }
    }

    // The number that the next numbered message to the server gets.
    fn next_at(&self, server: u32) -> u64
        requires { server < servers self.now }
        ensures number { result ≡ next_at self.now server }
        ensures ranges { (1 ≤ result) × (result ≤ NUMBER_LIMIT) }
    {
        self.next[server as usize]
    }

    // The server of the next out.
    fn out_server(&self) -> u32
        ensures server { result ≡ out_server self.now }
        ensures range { result < servers self.now }
    {
        ((u64::from(self.number) + self.outs) % self.next.len() as u64) as u32
    }

    // The count of outs so far.
    fn outs(&self) -> u64
        ensures count { result ≡ self.now.outs }
        ensures range { result < NUMBER_LIMIT }
    {
        self.outs
    }

    // What was pending has ended.
    fn finish(&mut self)
        ensures { self.new ≡ record self.old { task = tasks.Idle } }
    {
        self.task = Task::Idle;
    }

    // The clock goes on, and never falls.
    fn advance(&mut self, now: u64)
        ensures { self.new ≡ record self.old { clock = max self.old.clock now } }
    {
        self.clock = self.clock.max(now);
    }

    // The tuple is put at this server, under the next number there.
    fn put(&mut self, server: u32, tuple: Tuple)
        requires server { server < servers self.old }
        requires number { next_at self.old server < NUMBER_LIMIT }
        requires outs { self.old.outs + 1 < NUMBER_LIMIT }
        ensures { self.new ≡ (put self.old server tuple).client }
    {
        let n = self.next[server as usize];
        self.next[server as usize] = n + 1;
        self.outs += 1;
        self.task = Task::Putting { server, n, tuple };
    }

    // A synchronization is pending, which takes the next tickets.
    fn begin(&mut self, pending: Pending)
        requires first { pending.first ≡ self.old.ticket }
        requires accepted { pending.accepted ≡ None }
        requires saved { pending.saved ≡ [] }
        ensures { self.new
            ≡ with_pending (record self.old { ticket = self.old.ticket + ticket_count pending })
            pending }
    {
        self.ticket += pending.ticket_count();
        self.task = Task::Syncing(pending);
    }

    // An offer is accepted, under the next number of its server: the oldest that is saved, if some
    // are.
    fn accept(&mut self, accepted: PendingAccept)
        requires server { accepted.server < servers self.old }
        requires number { accepted.n ≡ next_at self.old accepted.server }
        requires room { accepted.n < NUMBER_LIMIT }
        requires input { OfPending self.old (λ p. IsOpenInput p accepted.ticket) }
        ensures { OfPending self.old (λ p. self.new
            ≡ with_pending (use_number self.old accepted.server) (take_oldest accepted p)) }
    {
        let Task::Syncing(pending) = &mut self.task else {
            return;
        };
        self.next[accepted.server as usize] += 1;
        pending.accept(accepted);
    }

    // An arrival is saved; or memory runs out, and the client is as before.
    fn save(&mut self, arrival: ArrivedTuple) -> Result<(), AllocError>
        requires server { arrival.server < servers self.old }
        requires fits { OfPending self.old (λ p. FitsOpen p arrival) }
        requires accepted { OfPending self.old (λ p. is_some p.accepted ≡ true) }
        ensures ok { OnOk result (OfPending self.old
            (λ p. self.new ≡ with_pending self.old (save_last arrival p))) }
        ensures err { OnErr result (self.new ≡ self.old) }
    {
        let Task::Syncing(pending) = &mut self.task else {
            return Ok(());
        };
        pending.save(arrival)
    }

    // Whether the next number of some server is 2^63.
    fn is_any_spent(&self) -> bool
        ensures spent { result ≡ list_any (λ n. n == NUMBER_LIMIT) self.now.next }
    {
        self.next.iter().any(|n| *n == NUMBER_LIMIT)
    }

    // A Leave to each server, under its next number.
    fn leaves(&self, alloc: Global) -> Result<Leaves, AllocError>
        ensures { IfOk result (λ l. l ≡ enumerate_from 0 self.now.next) }
    {
        Leaves::new(alloc, &self.next)
    }

    // The client leaves by these Leaves, and the next number of each server is used.
    fn depart(&mut self, leaves: Leaves)
        requires leaves { leaves ≡ enumerate_from 0 self.old.next }
        requires numbers { list_any (λ n. n == NUMBER_LIMIT) self.old.next ≡ false }
        ensures { self.new ≡ (leave self.old).client }
    {
        use_each(&mut self.next);
        self.task = Task::Leaving(leaves);
    }

    // A server has answered the Leave of this number. Whether the client has left by that.
    fn drop_leave(&mut self, server: u32, n: u64) -> bool
        ensures client { self.new ≡ (on_left self.old self.old.task server n).client }
        ensures left { result ≡ is_some (on_left self.old self.old.task server n).outcome }
    {
        let Task::Leaving(leaves) = &mut self.task else {
            return false;
        };
        leaves.drop_answered(server, n);
        if !leaves.is_empty() {
            return false;
        }
        self.task = Task::Left;
        true
    }

    // The accepted offer is gone, and nothing is saved.
    fn wait(&mut self)
        requires { OfPending self.old (λ p. p.saved ≡ []) }
        ensures { OfPending self.old (λ p. self.new ≡ with_pending self.old (let_go p)) }
    {
        if let Task::Syncing(pending) = &mut self.task {
            pending.wait();
        }
    }
}

// Each next number is used.
fn use_each(next: &mut Vec<u64>)
    requires { All (λ n. n < NUMBER_LIMIT) next.old.items }
    ensures { next.new.items ≡ map (λ n. n + 1) next.old.items }
{
    for n in next.iter_mut() {
        *n += 1;
    }
}
