//! The bytes of one connection, to the server and back.

use linda_gate_pass::{ClientGate, PassFault};
use std::alloc::Global;
use std::io::{Eprint, Read, Write};
use std::net::Shutdown;
use std::os::unix::net::UnixStream;
use std::sync::Wait;

/// The most bytes that are read at once.
const PIECE: usize = 4096;

/// Both sides of a connection.
#[derive(Drop)]
pub(crate) struct Sides {
    /// Where the client's bytes come from, by way of HAProxy.
    pub(crate) client: UnixStream,
    /// Where they go.
    pub(crate) server: UnixStream,
}

impl Sides {
    /// Passes on what may pass, until the client ends or something comes that may not. In the first
    /// case the server sees the end, and may still answer; in the other one both sides end, and a
    /// line on standard error says why, unless the client has no certificate: HAProxy's checks come
    /// without one.
    pub(crate) fn carry_to_server<R: Wait + Eprint>(&self, rt: &R, alloc: Global) {
        match self.pass_all(rt, alloc) {
            Ok(true) => {
                let _ = self.server.shutdown(Shutdown::Write);
            }
            Ok(false) | Err(PassFault::NoHead) => self.end(),
            Err(fault) => {
                self.end();
                say_refused(rt, alloc, fault);
            }
        }
    }

    /// Passes the server's bytes as they are, until one side ends; then both do.
    pub(crate) fn carry_to_client(&self, rt: &impl Wait) {
        let mut buffer = [0; PIECE];
        for _ in rt.forever() {
            let Ok(len) = (&self.server).read(&mut buffer) else {
                break;
            };
            if len == 0 || (&self.client).write_all(&buffer[..len]).is_err() {
                break;
            }
        }
        self.end();
    }

    /// Ends both sides.
    pub(crate) fn end(&self) {
        let _ = self.client.shutdown(Shutdown::Both);
        let _ = self.server.shutdown(Shutdown::Both);
    }

    // Passes on what may pass. Whether the client ended, and all before that passed; else a side
    // failed, or something came that may not pass.
    fn pass_all(&self, rt: &impl Wait, alloc: Global) -> Result<bool, PassFault> {
        let mut gate = ClientGate::new(alloc);
        let mut out = Vec::new(alloc);
        let mut buffer = [0; PIECE];
        for _ in rt.forever() {
            let Ok(len) = (&self.client).read(&mut buffer) else {
                return Ok(false);
            };
            if len == 0 {
                return Ok(true);
            }
            out.clear();
            let read = gate.received(&buffer[..len], &mut out);
            let is_written = (&self.server).write_all(&out).is_ok();
            read?;
            if !is_written {
                return Ok(false);
            }
        }
        Ok(false)
    }
}

// Says why a connection was ended.
fn say_refused<R: Eprint>(rt: &R, alloc: Global, fault: PassFault) {
    if let Ok(line) = format!(in alloc; "refused: {fault}") {
        let _ = rt.eprintln(line);
    }
}
