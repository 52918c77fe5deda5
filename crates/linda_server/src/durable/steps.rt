//! A snapshot in steps, while the server goes on between them.

ghost use Rattle.std.specs.Prelude.{◌≡◌, true, None, IfOk, OnOk, IsErrOf};

use super::Durable;
use crate::copying::{is_over, with_more};
use crate::fault::{ServeFault, node_fault};
use crate::progress::Progress;
use crate::stepping::{advance, start};
use linda_disk::Disk;
use linda_ghost::Moment;
use linda_store::NodeFault;
use std::alloc::Global;
use std::mem;

impl<D: Disk> Durable<D> {
    ghost use Rattle.std.specs.Option.{is_some};
    ghost use Rattle.linda_server.specs.Handled.{Rewrites, Fails, Falls, HasNoNextBank};
    ghost use Rattle.linda_server.specs.Handled.{HasBegun, CameTo};

    /// Whether a snapshot in steps is begun, and was not given up.
    pub fn is_snapshot_begun(&self) -> bool
        ensures { result ≡ is_some self.now.next }
    {
        self.next.is_some()
    }

    /// Copies the next clients, so many at most, for a snapshot in steps that is begun later: it
    /// walks over no client then. Until that the copy follows what is done; if memory runs out it
    /// is given up, and nothing else is. Returns whether nothing is left to copy, or it is given
    /// up. No device call is made, and what other calls answer does not change.
    pub fn copy_clients(&mut self, alloc: Global, most: u32) -> bool
        ensures store { self.new.store ≡ self.old.store }
        ensures disks { (self.new.disks ≡ self.old.disks) × (self.new.limit ≡ self.old.limit) }
        ensures down { (self.new.down ≡ self.old.down)
            × (self.new.before.value ≡ self.old.before.value)
            × (self.new.lost.items ≡ self.old.lost.items) }
        ensures next { self.new.next ≡ self.old.next }
        ensures given_up { self.new.copy ≡ None → result ≡ true }
    {
        if self.down {
            return true;
        }
        let copy = mem::replace(&mut self.copy, None);
        self.copy = with_more(copy, alloc, self.store.state(), most);
        is_over(self.copy.as_ref())
    }

    /// Gives up the copy of the clients, if there is one: for a snapshot in steps that is not begun
    /// after all. What other calls answer does not change.
    pub fn forget_copy(&mut self)
        ensures store { self.new.store ≡ self.old.store }
        ensures disks { (self.new.disks ≡ self.old.disks) × (self.new.limit ≡ self.old.limit) }
        ensures down { (self.new.down ≡ self.old.down)
            × (self.new.before.value ≡ self.old.before.value)
            × (self.new.lost.items ≡ self.old.lost.items) }
        ensures next { self.new.next ≡ self.old.next }
        ensures forgotten { self.new.copy ≡ None }
    {
        self.copy = None;
    }

    /// Begins a snapshot in steps: the next bank is laid on the disk that is not in use, after a
    /// first gate that is closed. What is done from now on is noted for it; if memory runs out
    /// then, or the bank would pass its limit, it is given up, and nothing else is. One that was
    /// begun before is given up. No client sees a change.
    ///
    /// # Errors
    ///
    /// `Full` if the next bank would pass the limit or no generation is left, and nothing changed;
    /// `Down`: it was down, or it is because a device failed or memory ran out.
    pub fn begin_snapshot(&mut self, alloc: Global) -> Result<(), NodeFault>
        // The state stays the same, and `Falls` says what a fault means.
        ensures rewrites { Rewrites self.old result self.new }
        ensures falls { Falls self.old result self.new }
        // At Ok one is begun, beside the bank in use.
        ensures begun { OnOk result (HasBegun self.old self.new) }
        // It is Full only if there is no next bank for the state, and nothing changed then; at Ok
        // there is one.
        ensures full { IsErrOf result NodeFault.Full → (self.new ≡ self.old)
            × HasNoNextBank self.old }
        ensures room { OnOk result (HasNoNextBank self.old → ⊥) }
    {
        match self.start(alloc) {
            Ok(()) => Ok(()),
            Err(fault) => Err(node_fault(fault)),
        }
    }

    /// Begins a snapshot in steps. It is what `begin_snapshot` is built on, and distinguishes a
    /// device's failure from `Memory`.
    ///
    /// # Errors
    ///
    /// `Down`, then `Full` if the next bank would pass the limit or no generation is left: nothing
    /// changed. `Disk` if the device failed, and `Memory`: the server is down.
    pub fn start(&mut self, alloc: Global) -> Result<(), ServeFault>
        // The state stays the same, and `Fails` says what a fault means.
        ensures rewrites { Rewrites self.old result self.new }
        ensures fails { Fails self.old result self.new }
        // At Ok one is begun, beside the bank in use.
        ensures begun { OnOk result (HasBegun self.old self.new) }
        // It is Full only if there is no next bank for the state, and nothing changed then; at Ok
        // there is one.
        ensures full { IsErrOf result ServeFault.Full → (self.new ≡ self.old)
            × HasNoNextBank self.old }
        ensures room { OnOk result (HasNoNextBank self.old → ⊥) }
    {
        if self.down {
            return Err(ServeFault::Down);
        }
        match start(&mut self.disks, alloc, self.store.state(), &mut self.copy) {
            Ok(next) => {
                self.next = Some(next);
                Ok(())
            }
            Err(fault) => {
                if fault == ServeFault::Full {
                    return Err(fault);
                }
                self.before = Moment::of(self.store.state());
                self.down = true;
                Err(fault)
            }
        }
    }

    /// Takes the next step of a snapshot: it writes so many bytes at most, and one entry of the
    /// snapshot more, and ends synced. With the last one the new bank is in use: its records are
    /// what was done since it was begun. No client sees a change.
    ///
    /// # Errors
    ///
    /// `Down`: it was down, or it is because a device failed or memory ran out.
    pub fn continue_snapshot(&mut self, alloc: Global, most: usize) -> Result<Progress, NodeFault>
        // The state stays the same, and `Falls` says what a fault means.
        ensures rewrites { Rewrites self.old result self.new }
        ensures falls { Falls self.old result self.new }
        ensures never_full { IsErrOf result NodeFault.Full → ⊥ }
        // It is `Idle` exactly if none is begun. At `Going` the bank in use is as it was, and at
        // `Done` the other disk holds it, of the next generation and within its limit. It writes so
        // many bytes at most, and one entry of a snapshot.
        ensures came { IfOk result (CameTo most self.old self.new) }
    {
        match self.advance(alloc, most) {
            Ok(progress) => Ok(progress),
            Err(fault) => Err(node_fault(fault)),
        }
    }

    /// Takes the next step of a snapshot. It is what `continue_snapshot` is built on, and
    /// distinguishes a device's failure from `Memory`.
    ///
    /// # Errors
    ///
    /// `Down`: it was down. `Disk` if the device failed, and `Memory`: the server is down.
    pub fn advance(&mut self, alloc: Global, most: usize) -> Result<Progress, ServeFault>
        // The state stays the same, and `Fails` says what a fault means.
        ensures rewrites { Rewrites self.old result self.new }
        ensures fails { Fails self.old result self.new }
        ensures never_full { IsErrOf result ServeFault.Full → ⊥ }
        // It is `Idle` exactly if none is begun. At `Going` the bank in use is as it was, and at
        // `Done` the other disk holds it, of the next generation and within its limit. It writes so
        // many bytes at most, and one entry of a snapshot.
        ensures came { IfOk result (CameTo most self.old self.new) }
    {
        if self.down {
            return Err(ServeFault::Down);
        }
        match mem::replace(&mut self.next, None) {
            None => Ok(Progress::Idle),
            Some(next) => match advance(&mut self.disks, alloc, self.store.state(), next, most) {
                Ok(Some(next)) => {
                    self.next = Some(next);
                    Ok(Progress::Going)
                }
                Ok(None) => Ok(Progress::Done),
                Err(fault) => {
                    self.before = Moment::of(self.store.state());
                    self.down = true;
                    Err(fault)
                }
            },
        }
    }
}
