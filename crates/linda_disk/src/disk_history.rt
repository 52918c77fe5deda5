//! The content of a disk in memory, with a record of what it held at first and of each call since.

use crate::call::DeviceCall;
use crate::redo::{fill_all, redo, redone, settled_len};
use crate::torn::Torn;
use std::alloc::{AllocError, Global};
use std::marker::Model;

/// What a disk in memory held at first, the calls since, and what a read gives. Contracts see the
/// first two.
#[derive(Drop)]
pub(crate) struct DiskHistory {
    first: Vec<u8>,
    calls: Vec<DeviceCall>,
    bytes: Vec<u8>,
}

impl Model for DiskHistory {
    ghost use Rattle.std.specs.Prelude.{◌≡◌, reverse};
    ghost use Rattle.linda_disk.specs.DiskHistory as history;

    ghost Value = { history.DiskHistory };

    ghost view = { λ h. record { first = h.first.items; calls = reverse h.calls.items } };

    ghost invariant = { λ h. h.bytes.items
        ≡ history.content_from h.first.items (reverse h.calls.items) };
}

impl DiskHistory {
    ghost use Rattle.std.specs.Prelude.{◌≡◌, [], IfOk, OnOk, OnErr};
    ghost use Rattle.linda_disk.specs.DiskHistory as history;

    /// No bytes, and no call since.
    pub(crate) fn empty(alloc: Global) -> DiskHistory
        ensures { result ≡ record { first = []; calls = [] } }
    {
        DiskHistory {
            first: Vec::new(alloc),
            calls: Vec::new(alloc),
            bytes: Vec::new(alloc),
        }
    }

    /// These bytes, and no call since.
    pub(crate) fn new(alloc: Global, bytes: Vec<u8>) -> Result<DiskHistory, AllocError>
        ensures { IfOk result (λ h. h ≡ record { first = bytes.items; calls = [] }) }
    {
        let first = Vec::from_slice(alloc, &bytes)?;
        Ok(DiskHistory {
            first,
            calls: Vec::new(alloc),
            bytes,
        })
    }

    /// What a read gives.
    pub(crate) fn bytes(&self) -> &[u8]
        ensures { result.now ≡ history.content self.now }
    {
        &self.bytes
    }

    /// Makes the call, and puts it on record. A write costs its own length, and no copy of the
    /// file.
    ///
    /// # Errors
    ///
    /// `AllocError` if memory runs out, and then all is as before.
    pub(crate) fn make(&mut self, call: DeviceCall) -> Result<(), AllocError>
        ensures ok { OnOk result (self.new ≡ history.after call self.old) }
        ensures err { OnErr result (self.new ≡ self.old) }
    {
        self.calls.reserve(1)?;
        redo(&mut self.bytes, &call)?;
        self.calls.push(call)?;
        Ok(())
    }
}

impl DiskHistory {
    ghost use Rattle.std.specs.Prelude.{◌≡◌, [], IfOk};
    ghost use Rattle.linda_disk.specs.DiskHistory as history;

    /// What this crash leaves, and no call since.
    ///
    /// # Errors
    ///
    /// `AllocError` if memory runs out.
    pub(crate) fn crashed(&self, alloc: Global, torn: Torn) -> Result<DiskHistory, AllocError>
        ensures { IfOk result (λ h. h ≡ record { first = history.left torn self.now; calls = [] }) }
    {
        let image = match torn {
            Torn::Kept => Vec::from_slice(alloc, &self.bytes)?,
            Torn::Lost => self.synced(alloc)?,
            Torn::Filled(byte) => self.filled(alloc, byte)?,
        };
        DiskHistory::new(alloc, image)
    }

    /// The bytes at the last sync.
    fn synced(&self, alloc: Global) -> Result<Vec<u8>, AllocError>
        ensures { IfOk result (λ image. image.items ≡ history.synced self.now) }
    {
        let settled = settled_len(&self.calls);
        redone(alloc, &self.first, &self.calls[..settled])
    }

    /// The bytes at the last sync, with the byte in place of each that was written since.
    fn filled(&self, alloc: Global, byte: u8) -> Result<Vec<u8>, AllocError>
        ensures { IfOk result (λ image. image.items ≡ history.filled byte self.now) }
    {
        let settled = settled_len(&self.calls);
        let mut image = redone(alloc, &self.first, &self.calls[..settled])?;
        fill_all(alloc, &mut image, &self.calls[settled..], byte)?;
        Ok(image)
    }
}
