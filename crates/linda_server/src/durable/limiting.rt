//! The most bytes that the bank in use may take, which may change.

ghost use Rattle.std.specs.Prelude.{◌≡◌, true, false, [], None};

use super::Durable;
use crate::empty::is_limit;
use linda_disk::Disk;

impl<D: Disk> Durable<D> {
    ghost use Rattle.linda_server.specs.Lives.{StaysOn};
    ghost use Rattle.linda_server.specs.Reserving.{HasOtherLimit};

    /// From now on a bank may take so many bytes, of which the one in use has fewer: what would
    /// pass them finds no room. A snapshot that was begun in steps is given up. Returns whether it
    /// is so: not if the server is down, the bank in use has as many, or no bank may have this
    /// limit, and then nothing changed. No device call is made, and the state stays the same.
    pub fn set_limit(&mut self, limit: usize) -> bool
        ensures limited { result ≡ true → (self.new.limit ≡ limit) × (self.new.next ≡ None) }
        ensures refused { result ≡ false → self.new ≡ self.old }
        ensures store { self.new.store ≡ self.old.store }
        ensures disks { HasOtherLimit self.old.disks self.new.disks }
        ensures down { (self.new.down ≡ self.old.down)
            × (self.new.before.value ≡ self.old.before.value)
            × (self.new.lost.items ≡ self.old.lost.items) }
        // Every life of the server goes on by it.
        ensures life { StaysOn self.old self.new }
    {
        if self.down || !is_limit(limit) || limit <= self.disks.end() {
            return false;
        }
        self.next = None;
        self.disks.set_limit(limit);
        self.limit = limit;
        true
    }
}
