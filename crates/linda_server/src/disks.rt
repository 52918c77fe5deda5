//! The two disks of a server, of which one holds the bank in use.

ghost use Rattle.std.specs.Prelude.{◌≡◌};
ghost use Rattle.linda_server.specs.Disks as spec;

use linda_disk::{Disk, MemDisk};
use linda_journal::Bank;
use linda_store_state::BANK_FORM;
use linda_tuple::Form;
use std::mem;

/// The two disks of a server. What a bank and a disk are is left to who uses them.
#[derive(Drop)]
pub(crate) enum Disks<B, D> {
    /// A bank is in use.
    InUse(Pair<B, D>),
    /// None is.
    Shut {
        /// The left disk.
        left: D,
        /// The right one.
        right: D,
    },
    /// A call has them, which gives them back before it ends.
    Away,
}

/// Whether the form is another than that of new banks, which a snapshot writes.
pub(crate) fn is_old(form: Form) -> bool
    ensures { result ≡ spec.is_old form }
{
    match (form, BANK_FORM) {
        (Form::One, Form::One) | (Form::Two, Form::Two) => false,
        (Form::One, Form::Two) | (Form::Two, Form::One) => true,
    }
}

/// Which bank is in use.
#[derive(Clone, Copy, Debug, PartialEq, Eq)]
pub struct InUse {
    /// Whether it is the right one.
    pub is_right: bool,
    /// Its generation.
    pub generation: u64,
}

/// A bank in use, and the other disk.
#[derive(Drop)]
pub(crate) struct Pair<B, D> {
    /// The bank in use.
    pub(crate) bank: B,
    /// The disk that is not in use.
    pub(crate) other: D,
    /// Whether the bank in use is the right one.
    pub(crate) is_right: bool,
}

impl<D: Disk> Disks<Bank<D>, D> {
    ghost use Rattle.std.specs.Prelude.{◌≡◌, true, Some};
    ghost use Rattle.linda_server.specs.Disks.{disks_of, is_there};
    ghost use Rattle.linda_server.specs.Server.{bank_in_use, form_in_use, end_in_use};
    ghost use Rattle.linda_server.specs.Server.{records_in_use, limit_in_use, is_usable};
    ghost use Rattle.linda_server.specs.Reserving.{HasOtherLimit};

    /// The form of the bank in use; if none is in use, that of new banks.
    pub(crate) fn form(&self) -> Form
        ensures { result ≡ form_in_use self.now }
    {
        match self {
            Disks::InUse(pair) => pair.bank.form(),
            Disks::Shut { .. } | Disks::Away => BANK_FORM,
        }
    }

    /// The offset of the closed gate at which the journal of the bank in use ends; 0 if none is in
    /// use.
    pub(crate) fn end(&self) -> usize
        ensures { result ≡ end_in_use self.now }
    {
        match self {
            Disks::InUse(pair) => pair.bank.end(),
            Disks::Shut { .. } | Disks::Away => 0,
        }
    }

    /// How many records the journal of the bank in use has; 0 if none is in use.
    pub(crate) fn records(&self) -> usize
        ensures { result ≡ records_in_use self.now }
    {
        match self {
            Disks::InUse(pair) => pair.bank.records(),
            Disks::Shut { .. } | Disks::Away => 0,
        }
    }

    /// Which bank is in use; `None` if none is.
    pub(crate) fn in_use(&self) -> Option<InUse>
        ensures { result ≡ bank_in_use self.now }
    {
        match self {
            Disks::InUse(pair) => Some(InUse {
                is_right: pair.is_right,
                generation: pair.bank.generation(),
            }),
            Disks::Shut { .. } | Disks::Away => None,
        }
    }

    /// The bank in use may have so many bytes from now on.
    pub(crate) fn set_limit(&mut self, limit: usize)
        ensures limit { is_usable self.old ≡ true → limit_in_use self.new ≡ limit }
        ensures same { HasOtherLimit self.old self.new }
        ensures ready { is_usable self.new ≡ is_usable self.old }
        ensures there { is_there self.new ≡ is_there self.old }
    {
        match self {
            Disks::InUse(pair) => pair.bank.set_limit(limit),
            Disks::Shut { .. } | Disks::Away => {}
        }
    }

    /// Hands out the bank in use and the other disk. Until they are put back the disks are away.
    pub(crate) fn lend(&mut self) -> Pair<Bank<D>, D>
        requires { is_usable self.old ≡ true }
        ensures lent { self.old ≡ Disks.InUse result }
    {
        match mem::replace(self, Disks::Away) {
            Disks::InUse(pair) => pair,
            Disks::Shut { .. } | Disks::Away => unreachable!(),
        }
    }

    /// The left disk and the right one.
    pub(crate) fn into_both(self) -> (D, D)
        requires { is_there self ≡ true }
        ensures { Some result ≡ disks_of (λ b. b.disk) self }
    {
        match self {
            Disks::InUse(pair) => {
                let Pair {
                    bank,
                    other,
                    is_right,
                } = pair;
                let used = bank.into_disk();
                if is_right {
                    (other, used)
                } else {
                    (used, other)
                }
            }
            Disks::Shut { left, right } => (left, right),
            Disks::Away => unreachable!(),
        }
    }
}

impl Disks<Bank<MemDisk>, MemDisk> {
    ghost use Rattle.std.specs.Prelude.{◌≡◌};
    ghost use Rattle.linda_disk.specs.MemDisk.{history};
    ghost use Rattle.linda_server.specs.Disks.{is_there, AreRelated};
    ghost use Rattle.linda_server.specs.Server.{is_usable, limit_in_use};

    /// Lets so many device calls more pass on each disk. Inside the next one the machine stops.
    pub(crate) fn fuse(&mut self, passes: u64)
        ensures same { AreRelated (λ b c. (c.form ≡ b.form) × ((c.generation ≡ b.generation)
            × ((c.end ≡ b.end) × (history c.disk ≡ history b.disk))))
            (λ d e. history e ≡ history d) self.old self.new }
        ensures there { is_there self.new ≡ is_there self.old }
        ensures ready { is_usable self.new ≡ is_usable self.old }
        ensures limit { limit_in_use self.new ≡ limit_in_use self.old }
    {
        match self {
            Disks::InUse(pair) => {
                pair.bank.fuse(passes);
                pair.other.fuse(passes);
            }
            Disks::Shut { left, right } => {
                left.fuse(passes);
                right.fuse(passes);
            }
            Disks::Away => {}
        }
    }
}
