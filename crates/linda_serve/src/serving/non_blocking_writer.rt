//! Writer for a log that nobody waits for.

use super::fault::ServingFault;
use mio::unix::SourceFd;
use mio::{Events, Interest, Poll, Token};
use std::alloc::Global;
use std::io;
use std::io::{ErrorKind, Write};
use std::net::Net;
use std::os::fd::{AsRawFd, RawFd};
use std::time::Duration;

/// A writer with a descriptor, that is written only if it takes some bytes at once: as a pipe that
/// is not full. What it does not take is lost.
#[derive(Drop)]
pub struct NonBlockingWriter<'a, W: Write> {
    writer: &'a mut W,
    watch: Option<Watch>,
}

/// How it is seen whether a descriptor takes some bytes at once.
#[derive(Drop)]
struct Watch {
    descriptor: RawFd,
    poll: Poll,
    events: Events,
}

impl<'a, W: Write + AsRawFd> NonBlockingWriter<'a, W> {
    /// Over this writer. One that the system does not look at, as a regular file, takes all at
    /// once.
    pub fn new<R: Net>(rt: &R, alloc: Global, writer: &'a mut W) -> NonBlockingWriter<'a, W> {
        let watch = begin_watch(rt, alloc, writer.as_raw_fd()).ok();
        NonBlockingWriter { writer, watch }
    }
}

impl<W: Write> NonBlockingWriter<'_, W> {
    /// Writes the line of a fault.
    pub fn tell_fault(&mut self, alloc: Global, fault: ServingFault) {
        let line = format!(in alloc; "{fault}\n");
        if let Ok(line) = line {
            let _ = self.write_all(line.as_bytes()).is_err();
        }
    }
}

impl<W: Write> Write for NonBlockingWriter<'_, W> {
    fn write(&mut self, bytes: &[u8]) -> io::Result<usize> {
        if let Some(watch) = &mut self.watch {
            if !takes(watch) {
                return Err(io::Error::from(ErrorKind::WouldBlock));
            }
        }
        self.writer.write(bytes)
    }

    fn flush(&mut self) -> io::Result<()> {
        self.writer.flush()
    }
}

// Has the system look at a descriptor.
fn begin_watch<R: Net>(rt: &R, alloc: Global, descriptor: RawFd) -> io::Result<Watch> {
    let poll = Poll::new(rt)?;
    let events = Events::with_capacity(alloc, 1)?;
    poll.registry()
        .register(&mut SourceFd(&descriptor), Token(0), Interest::WRITABLE)?;
    Ok(Watch {
        descriptor,
        poll,
        events,
    })
}

// Whether the descriptor takes some bytes at once. It is registered anew, so that this is reported
// also if it was before.
fn takes(watch: &mut Watch) -> bool {
    let registry = watch.poll.registry();
    let source = &mut SourceFd(&watch.descriptor);
    if registry
        .reregister(source, Token(0), Interest::WRITABLE)
        .is_err()
    {
        return true;
    }
    let now = Some(Duration::from_millis(0));
    watch.poll.poll(&mut watch.events, now).is_err() || !watch.events.is_empty()
}
