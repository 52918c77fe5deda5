//! Bytes of which the first ones are written.

ghost use Rattle.std.specs.Prelude.{◌≡◌, ◌≤◌, ◌+◌, ◌++◌, [], drop, length, OnOk, vec_len};

use std::alloc::{AllocError, Global};

/// Bytes of which the first ones are written.
#[derive(Drop)]
pub(crate) struct DeedLog {
    bytes: Vec<u8>,
    written: usize,
    ghost within: { written ≤ vec_len bytes },
}

impl DeedLog {
    /// No bytes.
    pub(crate) fn new(alloc: Global) -> DeedLog
        ensures { (result.bytes.items ≡ []) × (result.written ≡ 0) }
    {
        DeedLog {
            bytes: Vec::new(alloc),
            written: 0,
        }
    }

    /// How many bytes there are.
    pub(crate) fn len(&self) -> usize
        ensures { result ≡ length self.now.bytes.items }
    {
        let bytes: &[u8] = &self.bytes;
        bytes.len()
    }

    /// The bytes that are not written.
    pub(crate) fn left(&self) -> &[u8]
        ensures left { result.now ≡ drop self.now.written self.now.bytes.items }
        ensures len { self.now.written + length result.now ≡ length self.now.bytes.items }
    {
        let bytes: &[u8] = &self.bytes;
        let (_, left) = bytes.split_at(self.written);
        left
    }

    /// So many bytes more are written.
    pub(crate) fn mark_written(&mut self, more: usize)
        requires { self.old.written + more ≤ length self.old.bytes.items }
        ensures { (self.new.bytes ≡ self.old.bytes)
            × (self.new.written ≡ self.old.written + more) }
    {
        let bytes: &[u8] = &self.bytes;
        let _ = bytes.len();
        self.written += more;
    }

    /// Appends bytes, which are not written.
    ///
    /// # Errors
    ///
    /// `AllocError` if memory runs out; nothing changed.
    pub(crate) fn extend(&mut self, more: &[u8]) -> Result<(), AllocError>
        ensures bytes { OnOk result
            (self.new.bytes.items ≡ self.old.bytes.items ++ more.now) }
        ensures written { self.new.written ≡ self.old.written }
    {
        self.bytes.extend_from_slice(more)?;
        Ok(())
    }
}
