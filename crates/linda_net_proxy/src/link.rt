//! The connection of a client to one of its servers, greeted again if it was lost.

ghost use Rattle.std.specs.Prelude.{◌≡◌, None, Some};

use crate::course::{GreetingCourse, RetryDecision, arrival_of};
use crate::fault::ProxyFault;
use crate::inbox::EventInbox;
use crate::proxy::{Proxy, end, send};
use crate::server_events::ServerEvent;
use linda_wire::Message;
use std::alloc::{AllocError, Global};
use std::net::{Net, TcpStream};
use std::sync::{Mutex, Wait};
use std::thread;
use std::time::{Clock, Duration};

/// How many milliseconds pass between two looks at whether a server that was given up is to be
/// tried again.
const LOOK: u64 = 10;

/// The connection to one server. One thread keeps it up, another sends.
#[derive(Drop)]
pub struct ServerLink {
    server: u32,
    port: u16,
    // The path of the unix socket on which the server listens, if it does not listen on a port.
    path: Option<String>,
    client: u32,
    // The client was never used before.
    fresh: bool,
    // The connection that there is.
    connection: Mutex<Option<LinkConnection>>,
    // The server was given up, and is to be tried again.
    retries: Mutex<bool>,
}

// A connection, for the thread that sends or ends it.
#[derive(Drop)]
struct LinkConnection {
    stream: TcpStream,
    // The server has welcomed the client on it.
    is_greeted: bool,
}

impl ServerLink {
    /// No connection yet, to the server of this number, which listens on this port; of a client
    /// that was never used before, or of one that goes on.
    pub fn new(server: u32, port: u16, client: u32, fresh: bool) -> ServerLink
        ensures server { result.server ≡ server }
        ensures port { result.port ≡ port }
        ensures path { result.path ≡ None }
        ensures client { result.client ≡ client }
        ensures fresh { result.fresh ≡ fresh }
    {
        ServerLink {
            server,
            port,
            path: None,
            client,
            fresh,
            connection: Mutex::new(None),
            retries: Mutex::new(false),
        }
    }

    /// As `new` makes it, to a server that listens on the unix socket at this path.
    pub fn at(server: u32, path: String, client: u32, fresh: bool) -> ServerLink
        ensures server { result.server ≡ server }
        ensures path { result.path ≡ Some path }
        ensures client { result.client ≡ client }
        ensures fresh { result.fresh ≡ fresh }
    {
        let mut link = ServerLink::new(server, 0, client, fresh);
        link.path = Some(path);
        link
    }

    /// Has the server tried again that was given up for want of a connection.
    pub fn retry(&self, rt: &impl Wait) {
        *self.retries.lock(rt) = true;
    }

    /// Sends if there is a greeted connection. If there is none, or it is lost, what counts is sent
    /// again after the next greeting.
    ///
    /// # Errors
    ///
    /// `AllocError`: nothing was sent.
    pub fn send(&self, rt: &impl Wait, alloc: Global, message: &Message) -> Result<(), AllocError> {
        let mut connection = self.connection.lock(rt);
        let Some(connection) = &mut *connection else {
            return Ok(());
        };
        if !connection.is_greeted {
            return Ok(());
        }
        match send(&mut connection.stream, alloc, message) {
            Ok(()) => Ok(()),
            Err(ProxyFault::Memory) => Err(AllocError),
            Err(_) => {
                end(&connection.stream);
                Ok(())
            }
        }
    }

    /// Ends the connection from both sides, so that the thread that keeps it sees its end.
    pub fn end(&self, rt: &impl Wait) {
        let connection = self.connection.lock(rt);
        if let Some(connection) = &*connection {
            end(&connection.stream);
        }
    }

    /// Keeps the connection up and brings what comes into the inbox, until that is over or the
    /// server is given up.
    ///
    /// The first greeting is that of a client that was never used, or of one that goes on; if no
    /// connection can be had for it, or the server refuses it, the server is given up at once, but
    /// Busy is tried again for a client that goes on. A connection that is lost after a greeting is
    /// greeted again; if that fails too often, `NoConnection` is brought, and the tries begin again
    /// after `retry`. What answers any greeting by bytes that are no answer of a server is given up
    /// at once.
    pub fn keep<R: Net<Stream = TcpStream> + Wait + Clock>(
        &self,
        rt: &R,
        alloc: Global,
        inbox: &EventInbox,
    ) {
        let mut course = GreetingCourse::new(self.fresh);
        for _ in rt.forever() {
            if inbox.is_over(rt) {
                return;
            }
            match self.greet(rt, alloc, inbox, course.says_fresh()) {
                Ok(proxy) => {
                    course.welcome();
                    self.relay_until_closed(rt, alloc, inbox, proxy);
                }
                Err(fault) => {
                    self.let_go(rt);
                    if !self.goes_on(rt, inbox, course.fail(fault), fault) {
                        return;
                    }
                }
            }
        }
    }

    // Waits for the next greeting after one that failed so. Whether there is to be one.
    fn goes_on<R: Wait + Clock>(
        &self,
        rt: &R,
        inbox: &EventInbox,
        next: RetryDecision,
        fault: ProxyFault,
    ) -> bool {
        match next {
            RetryDecision::Again => {
                thread::sleep(rt, Duration::from_millis(1));
                true
            }
            RetryDecision::Later => {
                inbox.bring(rt, self.server, ServerEvent::NoConnection);
                self.wait_retry(rt, inbox)
            }
            RetryDecision::Over => {
                inbox.bring(rt, self.server, arrival_of(fault));
                false
            }
        }
    }

    // Brings what comes over a greeted connection until it ends.
    fn relay_until_closed(&self, rt: &impl Wait, alloc: Global, inbox: &EventInbox, proxy: Proxy) {
        let mut proxy = proxy;
        self.listen(rt, alloc, inbox, &mut proxy);
        self.let_go(rt);
    }

    // Waits until the server is to be tried again. Returns whether it is: else nobody takes any
    // more.
    fn wait_retry<R: Wait + Clock>(&self, rt: &R, inbox: &EventInbox) -> bool {
        for _ in rt.forever() {
            if inbox.is_over(rt) {
                return false;
            }
            if self.takes_retry(rt) {
                return true;
            }
            thread::sleep(rt, Duration::from_millis(LOOK));
        }
        false
    }

    // Whether the server is to be tried again, which is said once.
    fn takes_retry(&self, rt: &impl Wait) -> bool {
        let mut retries = self.retries.lock(rt);
        let retry = *retries;
        *retries = false;
        retry
    }

    // Brings what comes until the connection ends.
    fn listen(&self, rt: &impl Wait, alloc: Global, inbox: &EventInbox, proxy: &mut Proxy) {
        for _ in rt.forever() {
            match proxy.receive(alloc) {
                Ok(reply) => inbox.bring(rt, self.server, ServerEvent::Came(reply)),
                Err(ProxyFault::Memory) => {
                    inbox.bring(rt, self.server, ServerEvent::Memory);
                    return;
                }
                Err(_) => return,
            }
        }
    }

    // One greeting. The connection can be ended from outside before it is waited for: a thread that
    // ends all says so in the inbox first.
    fn greet<R: Net<Stream = TcpStream> + Wait>(
        &self,
        rt: &R,
        alloc: Global,
        inbox: &EventInbox,
        fresh: bool,
    ) -> Result<Proxy, ProxyFault> {
        let mut proxy = self.connect(rt, alloc)?;
        let stream = proxy.sender()?;
        *self.connection.lock(rt) = Some(LinkConnection {
            stream,
            is_greeted: false,
        });
        if inbox.is_over(rt) {
            return Err(ProxyFault::Lost);
        }
        let last = proxy.greet(alloc, self.client, fresh)?;
        self.welcome(rt);
        inbox.bring(rt, self.server, ServerEvent::Greeted(last));
        Ok(proxy)
    }

    // A connection to the server, at its path or on its port.
    fn connect<R: Net<Stream = TcpStream>>(
        &self,
        rt: &R,
        alloc: Global,
    ) -> Result<Proxy, ProxyFault> {
        match &self.path {
            Some(path) => Proxy::connect_at(rt, alloc, path.as_str()),
            None => Proxy::connect(rt, alloc, self.port),
        }
    }

    // What is sent goes out from now on.
    fn welcome(&self, rt: &impl Wait) {
        let mut connection = self.connection.lock(rt);
        if let Some(connection) = &mut *connection {
            connection.is_greeted = true;
        }
    }

    // There is no connection any more.
    fn let_go(&self, rt: &impl Wait) {
        *self.connection.lock(rt) = None;
    }
}
