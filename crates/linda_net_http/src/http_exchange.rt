//! One connection without its socket: what it sent, and what it is answered.

ghost use Rattle.std.specs.Prelude.{◌≡◌, ◌<◌, ◌≤◌, ◌↔◌, [], drop, length, false, IsTrue, OnOk};
ghost use Rattle.linda_net_http.specs.HttpExchange.{HasHeard, IsServed};

use crate::pages::PageSource;
use crate::reply::write_response;
use crate::unsent_bytes::UnsentBytes;
use std::alloc::{AllocError, Global};
use std::sync::Wait;
use std::time::Clock;

/// What a connection sent until it was answered, and what of its answer waits to be written. It
/// makes no call of the system.
#[derive(Drop)]
pub(crate) struct HttpExchange {
    head: Vec<u8>,
    out: UnsentBytes,
    is_answered: bool,
}

impl HttpExchange {
    /// Nothing was sent.
    pub(crate) fn new(alloc: Global) -> HttpExchange
        ensures head { result.head.items ≡ [] }
        ensures out { result.out ≡ [] }
        ensures open { result.is_answered ≡ false }
    {
        HttpExchange {
            head: Vec::new(alloc),
            out: UnsentBytes::new(alloc),
            is_answered: false,
        }
    }

    /// It sent these bytes. What is after its head is not looked at.
    ///
    /// # Errors
    ///
    /// `AllocError` if memory runs out.
    pub(crate) fn heard(&mut self, bytes: &[u8]) -> Result<(), AllocError>
        ensures { OnOk result (HasHeard self.old bytes.now self.new) }
    {
        if self.is_answered {
            return Ok(());
        }
        self.head.extend_from_slice(bytes)
    }

    /// It is answered once its head is whole. A page is spelled as `page`, and an answer as `text`.
    ///
    /// # Errors
    ///
    /// `AllocError` if memory runs out.
    pub(crate) fn answer<R: Wait + Clock, P: PageSource>(
        &mut self,
        rt: &R,
        pages: &P,
        page: &mut String,
        text: &mut String,
    ) -> Result<(), AllocError>
        ensures { OnOk result (IsServed (P.tells pages.now) self.old self.new) }
    {
        if self.is_answered {
            return Ok(());
        }
        if write_response(rt, pages, &self.head, page, text)? {
            self.out.put(text.as_bytes())?;
            self.is_answered = true;
        }
        Ok(())
    }

    /// Whether some of the answer waits.
    pub(crate) fn has_unsent(&self) -> bool
        ensures { IsTrue result ↔ (0 < length self.now.out) }
    {
        self.out.waits()
    }

    /// What of the answer waits.
    pub(crate) fn unsent(&self) -> &[u8]
        ensures { result.now ≡ self.now.out }
    {
        self.out.unsent()
    }

    /// So many of the bytes that wait went out, the first ones.
    pub(crate) fn sent(&mut self, count: usize)
        requires { count ≤ length self.old.out }
        ensures out { self.new.out ≡ drop count self.old.out }
        ensures head { self.new.head ≡ self.old.head }
        ensures same { self.new.is_answered ≡ self.old.is_answered }
    {
        self.out.sent(count);
    }
}
