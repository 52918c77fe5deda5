//! Bytes that wait to be written.

ghost use Rattle.std.specs.Prelude.{◌≡◌, ◌≤◌, ◌<◌, ◌↔◌, ◌++◌, [], drop, length, IsTrue, OnOk};
ghost use Rattle.std.specs.Prelude.{OnErr};

use std::alloc::{AllocError, Global};
use std::marker::Model;

/// Bytes that wait to be written. Contracts see those, in order.
#[derive(Drop)]
pub(crate) struct UnsentBytes {
    out: Vec<u8>,
    // How many of the bytes went out.
    gone: usize,
}

impl Model for UnsentBytes {
    ghost use Rattle.std.specs.Prelude.{◌≤◌, ℕ, List, drop, vec_len};

    ghost Value = { List ℕ };

    ghost view = { λ o. drop o.gone o.out.items };

    ghost invariant = { λ o. o.gone ≤ vec_len o.out };
}

impl UnsentBytes {
    /// Nothing waits.
    pub(crate) fn new(alloc: Global) -> UnsentBytes
        ensures { result ≡ [] }
    {
        UnsentBytes {
            out: Vec::new(alloc),
            gone: 0,
        }
    }

    /// Whether anything waits.
    pub(crate) fn waits(&self) -> bool
        ensures { IsTrue result ↔ (0 < length self.now) }
    {
        self.gone < self.out.len()
    }

    /// What waits.
    pub(crate) fn unsent(&self) -> &[u8]
        ensures { result.now ≡ self.now }
    {
        &self.out[self.gone..]
    }

    /// These bytes wait after the others. Without memory for them nothing changes.
    pub(crate) fn put(&mut self, bytes: &[u8]) -> Result<(), AllocError>
        ensures ok { OnOk result (self.new ≡ self.old ++ bytes.now) }
        ensures err { OnErr result (self.new ≡ self.old) }
    {
        self.out.extend_from_slice(bytes)
    }

    /// So many of the bytes that wait went out, the first ones.
    pub(crate) fn sent(&mut self, count: usize)
        requires { count ≤ length self.old }
        ensures { self.new ≡ drop count self.old }
    {
        self.gone += count;
    }
}
